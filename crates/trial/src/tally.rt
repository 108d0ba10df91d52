// What a program counts: a list of numbers, in the order of the line that prints them.
ghost use Rattle.std.specs.Prelude.{◌≡◌};
ghost use Rattle.trial.specs.Tally.{more_of};

// One more of a kind, where there is one. (A kind is the place of its number in the printed line.)
#[tactic(auto, unfolding(crate::specs::Tally::more_of))]
pub fn more<const N: usize>(mut counts: [usize; N], kind: usize) -> [usize; N]
    ensures { result ≡ more_of N counts.entry kind }
{
    if kind < N {
        counts[kind] = counts[kind].wrapping_add(1);
    }
    counts
}
