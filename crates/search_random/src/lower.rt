// The two lower bounds of a drawn loop.
use trial::drawn::{Drawn, duration, field, lag};

// The total of durations on a slot. Operations that the loop does not have use none.
fn total(d: Drawn, slot: usize) -> usize {
    (0..4).fold(0, |sum: usize, op| sum.wrapping_add(duration(d, op, slot)))
}

// The resource bound.
pub fn resource(d: Drawn) -> usize {
    total(d, 0).max(total(d, 1)).max(total(d, 2)).max(1)
}

// The time of an operation.
fn time(times: &[usize; 4], op: usize) -> usize {
    if op < 4 { times[op] } else { 0 }
}

// Where a dependence does not hold, its target moves to the first time at which it does; whether it moved.
fn moved(d: Drawn, e: usize, times: &mut [usize; 4], interval: u16) -> bool {
    let to = field(d, e, 1);
    let due = time(times, field(d, e, 0)).wrapping_add(field(d, e, 2));
    let less = lag(interval, field(d, e, 3)) + 6;
    let late = time(times, to).wrapping_add(less) < due;
    if late && to < 4 {
        times[to] = due.wrapping_sub(less);
    }
    late
}

// All dependences once; whether a target moved.
fn round(d: Drawn, times: &mut [usize; 4], interval: u16) -> bool {
    let mut any = false;
    for e in 0..d.m {
        any |= moved(d, e, times, interval);
    }
    any
}

// Whether some times meet all dependences: from 0 on, nothing moves any more in the fifth round. (In a loop of 4 operations without a cycle that asks for more and more, a
// target moves for a path of 3 dependences at most.)
fn feasible(d: Drawn, interval: u16) -> bool {
    let mut times = [0; 4];
    let mut moves = true;
    for _ in 0..5 {
        moves = round(d, &mut times, interval);
    }
    !moves
}

// The recurrence bound, where there is one. No cycle of 4 dependences with delays up to 4 asks for more than 16.
pub fn recurrence(d: Drawn) -> Option<usize> {
    (1..=100)
        .find(|interval| feasible(d, *interval))
        .map(usize::from)
}
