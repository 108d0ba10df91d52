// The model has no code. Its definitions are in specs/ and its laws in proofs/; the crates above it cite both.
#![tactic(auto)]
