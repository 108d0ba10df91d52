// Reads a loop file from standard input to its end, and prints its schedule, or the refusal (document 01).
#![tactic(auto)]

use search::Solution;

// `interval I resource R recurrence B stages S probes P`.
fn summary(f: Solution) {
    let numbers = [f.interval, f.resource, f.recurrence, f.stages, f.probes];
    console::list(
        b"interval % resource % recurrence % stages % probes %\n",
        &numbers,
    );
}

// The schedule of a file, with the cap, horizon and allowance of document 01.
fn schedule(file: &[u8]) {
    let mut list = [0u16; 64];
    let mut rows = [0u64; 4096];
    match search::search(file, 4096, 256, 1000000, &mut list, &mut rows) {
        Ok(found) => {
            summary(found);
            listing::print(file, found.interval, &list);
        }
        Err(unsolved) => listing::refused(unsolved.number(), unsolved.detail()),
    }
}

// Keeps 1,691 bytes of the input, one more than the longest loop file has.
fn main(rt: HostRuntime) {
    let mut bytes = [0u8; 1691];
    console::with_input(&mut rt.stdin(), &mut bytes, schedule);
}
