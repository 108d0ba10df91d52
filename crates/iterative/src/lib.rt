// Iterative modulo scheduling (Rau 1994): a start for each operation, found without a search. The operation of the highest rank is put where it is free or, where it is free nowhere, forced, and what is in its
// way is taken out and put again later. It is quick and mostly succeeds at the smallest interval that has a schedule; where it does not, nothing is said of whether there is one. Internal: asks for an accepted file and for
// numbers and lengths in range.
#![tactic(auto)]

mod attempt;
mod priority;
mod timing;

ghost use Rattle.std.specs.Prelude.{◌≡◌, ◌+◌, ◌≤◌, max, min};
ghost use Rattle.iterative.specs.Placed.{IntervalsAsked, Placed};

use crate::attempt::attempt_all;

// The last interval that is tried. From horizon + 63 on no row wraps and every dependence on an earlier iteration is met, so the same starts below the horizon are legal at every interval from there on.
fn last_of(least: usize, cap: usize, horizon: usize) -> usize
    requires { horizon ≤ 4096 }
    ensures { result ≡ min (max least (horizon + 63)) cap }
{
    least.max(horizon + 63).min(cap)
}

// How many attempts are made at the first interval, and how many at each later one. At the first it pays to try harder: where that is the larger of the two bounds, a schedule is the smallest there is.
const FIRST_TRIES: usize = 256;

const LATER_TRIES: usize = 8;

// The interval at which every operation got a start, or none where none of those tried had one. Tried are the intervals from `least` to the cap or, if that is less, to the larger of `least` and horizon + 63; the first in 256
// orders and the others in 8, and in each with 10 steps an operation, a step for each time that an operation is put. What the starts are where none is found, and what the first 4,096 rows are, is left free: the caller clears
// the rows.
pub fn place_all(
    file: &[u8],
    n: usize,
    least: usize,
    cap: usize,
    horizon: usize,
    starts: &mut [u16; 64],
    rows: &mut [u64],
) -> Option<usize>
    requires { IntervalsAsked file.now n least cap horizon starts.old rows.old }
    ensures { Placed file.now n least cap horizon starts.old rows.old starts.new rows.new result }
{
    let last = last_of(least, cap, horizon);
    let mut tries = FIRST_TRIES;
    for ii in least..=last {
        if attempt_all(file, n, ii, horizon, tries, starts, rows) {
            return Some(ii);
        }
        tries = LATER_TRIES;
    }
    None
}
