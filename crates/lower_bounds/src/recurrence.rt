// The recurrence bound, by longest paths: path lengths are raised, dependence by dependence, until they meet all of them or show that
// they never will. Internal: each function asks for an accepted file.
ghost use Rattle.std.specs.Prelude.{◌<◌, ◌≤◌, pos, length, get_or};
ghost use Rattle.std.specs.Int.Signed.{mag};
ghost use Rattle.model.specs.Loop.{size, dep_at};
ghost use Rattle.model.specs.File.{loop_of, Accepted};
ghost use Rattle.lower_bounds.specs.Rounds.{Raised, Relaxed, SmallIn, Rounded};
ghost use Rattle.lower_bounds.specs.Walks.{Decides, RecurrenceIs};

use loop_access::{delay, dep_count, distance, op_count, source, target};

// x[at] becomes the larger of itself and v; whether it rose.
fn raise(x: &mut [i32; 64], at: usize, v: i32) -> bool
    requires { at < 64 }
    ensures { Raised x.old x.new at v result }
{
    let old = x[at];
    let rose = old < v;
    if rose {
        x[at] = v;
    }
    rose
}

// Dependence e: its target's path length becomes at least its source's + delay - interval * distance; whether it rose.
fn relax(file: &[u8], x: &mut [i32; 64], e: usize, interval: usize) -> bool
    requires { Accepted file.now × (e < length (loop_of file.now).deps) × (interval ≤ 4096) × (mag (get_or x.old (dep_at (loop_of file.now) e).src (pos 0)) < 16777216) }
    ensures { Relaxed (loop_of file.now) interval e x.old x.new result }
{
    let from = source(file, e);
    let to = target(file, e);
    let lag = interval * distance(file, e);
    let v = x[from] + delay(file, e) - lag as i32;
    raise(x, to, v)
}

// A round over every dependence; whether a path length changed.
#[tactic(auto, using(crate::proofs::Arrays::turns), unfolding(crate::specs::Rounds::round, crate::specs::Rounds::met_to, crate::specs::Rounds::relax_to))]
fn round(file: &[u8], x: &mut [i32; 64], interval: usize) -> bool
    requires { Accepted file.now × (interval ≤ 4096) × SmallIn (size (loop_of file.now)) 1048576 x.old }
    ensures { Rounded (loop_of file.now) interval x.old x.new result }
{
    let mut changed = false;
    for e in 0..dep_count(file) {
        changed |= relax(file, x, e, interval);
    }
    changed
}

// Whether some starts meet every dependence at the interval. At most one round for each operation.
#[tactic(auto, using(crate::proofs::Bisection::rounds_at), unfolding(crate::specs::Rounds::rounds))]
fn feasible(file: &[u8], interval: usize) -> bool
    requires { Accepted file.now × (interval ≤ 4096) }
    ensures { Decides (loop_of file.now) interval result }
{
    let mut x = [0i32; 64];
    for _ in 0..op_count(file) {
        if !round(file, &mut x, interval) {
            return true;
        }
    }
    false
}

// The recurrence bound, where there is one. What can be met at an interval can be met at every longer one, so the range is halved.
pub fn recurrence(file: &[u8]) -> Option<usize>
    requires { Accepted file.now }
    ensures { RecurrenceIs (loop_of file.now) result }
{
    if !feasible(file, 4096) {
        return None;
    }
    let mut lo = 1;
    let mut hi = 4096;
    while lo < hi {
        let mid = (lo + hi) / 2;
        if feasible(file, mid) {
            hi = mid;
        } else {
            lo = mid + 1;
        }
    }
    Some(lo)
}
