// The generator of the random loops: its states, and numbers taken from a state.
ghost use Rattle.std.specs.Prelude.{◌≡◌};
ghost use Rattle.trial.specs.Random.{next_of, pick_of};

// The next state.
#[tactic(auto, unfolding(crate::specs::Random::next_of))]
pub fn next(seed: usize) -> usize
    ensures { result ≡ next_of seed }
{
    (seed % 2147483648 * 1103515245 + 12345) % 2147483648
}

// One of n numbers from the least on; the least itself where n is 0.
#[tactic(auto, unfolding(crate::specs::Random::pick_of))]
pub fn pick(seed: usize, least: usize, n: usize) -> usize
    ensures { result ≡ pick_of seed least n }
{
    if n == 0 {
        least
    } else {
        (seed / 65536 % n).wrapping_add(least)
    }
}
