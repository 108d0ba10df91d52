// Dependences of an operation, in signed arithmetic. Internal: each function asks for an accepted file, and for starts and an interval in range.
ghost use Rattle.std.specs.Prelude.{◌≡◌, ◌<◌, ◌≤◌, length, IfSome};
ghost use Rattle.model.specs.Loop.{size, dep_at};
ghost use Rattle.model.specs.File.{loop_of, Accepted};
ghost use Rattle.model.specs.Legality.{holds, place_at, breaks, first_breach};
ghost use Rattle.model.specs.Session.{nowhere};
ghost use Rattle.reservation.specs.Seats.{seats, broken_of};

use crate::NOT_PLACED;
use loop_access::{delay, dep_count, distance, source, target};

// Whether dependence e holds with its source started at `from` and its target at `to`.
pub fn dep_holds(file: &[u8], e: usize, from: usize, to: usize, interval: usize) -> bool
    requires { Accepted file.now × (e < length (loop_of file.now).deps) × (from < 65536) × (to < 65536) × (interval ≤ 4096) }
    ensures { result ≡ holds interval (dep_at (loop_of file.now) e) from to }
{
    let lag = interval * distance(file, e);
    let due = from as i32 + delay(file, e);
    due <= to as i32 + lag as i32
}

// The start of an operation, where it is placed: `start` for `op` itself, for another one what the list says.
fn start_of(starts: &[u16], op: usize, start: usize, other: usize) -> Option<usize>
    requires { (start ≤ 4096) × (other < length starts.now) }
    ensures placed { broken_of result ≡ place_at (seats starts.now) op start other }
    ensures small { IfSome result (λ t. t < 65536) }
{
    if other == op {
        return Some(start);
    }
    match starts[other] {
        NOT_PLACED => None,
        placed => Some(placed as usize),
    }
}

// Whether dependence e is one of `op` with itself or a placed operation, and is broken by `op` at `start`.
pub fn breaks_at(
    file: &[u8],
    e: usize,
    op: usize,
    start: usize,
    interval: usize,
    starts: &[u16],
) -> bool
    requires { Accepted file.now × (e < length (loop_of file.now).deps) × (start ≤ 4096) × (interval ≤ 4096) × (size (loop_of file.now) ≤ length starts.now) }
    ensures { result ≡ breaks interval (seats starts.now) op start (dep_at (loop_of file.now) e) }
{
    let from = source(file, e);
    let to = target(file, e);
    if from != op && to != op {
        return false;
    }
    let Some(s) = start_of(starts, op, start, from) else {
        return false;
    };
    let Some(t) = start_of(starts, op, start, to) else {
        return false;
    };
    !dep_holds(file, e, s, t, interval)
}

// The first dependence of `op` with itself or a placed operation that `op` at `start` would break.
#[tactic(auto, using(crate::proofs::Breaches::breach_at, crate::proofs::Breaches::breach_none))]
pub fn first_broken(
    file: &[u8],
    op: usize,
    start: usize,
    interval: usize,
    starts: &[u16],
) -> Option<usize>
    requires { Accepted file.now × (start ≤ 4096) × (interval ≤ 4096) × (size (loop_of file.now) ≤ length starts.now) }
    ensures { broken_of result ≡ first_breach (loop_of file.now) interval (seats starts.now) op start }
{
    for e in 0..dep_count(file) {
        if breaks_at(file, e, op, start, interval, starts) {
            return Some(e);
        }
    }
    None
}

// Whether dependence e is one of `op` with itself, and is broken by `op` at `start`.
fn breaks_itself(file: &[u8], e: usize, op: usize, start: usize, interval: usize) -> bool
    requires { Accepted file.now × (e < length (loop_of file.now).deps) × (start ≤ 4096) × (interval ≤ 4096) }
    ensures { result ≡ breaks interval nowhere op start (dep_at (loop_of file.now) e) }
{
    source(file, e) == op && target(file, e) == op && !dep_holds(file, e, start, start, interval)
}

// The first dependence of `op` with itself that `op` at `start` would break. A loop of its own: over a closure the contract of one loop for both would have to say
// what the closure asks and answers.
#[tactic(auto, using(crate::proofs::Breaches::breach_at, crate::proofs::Breaches::breach_none))]
pub fn first_own_broken(file: &[u8], op: usize, start: usize, interval: usize) -> Option<usize>
    requires { Accepted file.now × (start ≤ 4096) × (interval ≤ 4096) }
    ensures { broken_of result ≡ first_breach (loop_of file.now) interval nowhere op start }
{
    for e in 0..dep_count(file) {
        if breaks_itself(file, e, op, start, interval) {
            return Some(e);
        }
    }
    None
}
