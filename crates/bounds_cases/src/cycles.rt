// The recurrence bound of a small loop by a count over all closed sequences of its dependences.
use trial::drawn::{Drawn, field};

// A sequence of dependences: whether they join, where it is, the sums of what stands for the delays and of distances, and 6 for each delay.
#[derive(Drop)]
struct Walk {
    joins: bool,
    at: usize,
    delay: usize,
    zero: usize,
    distance: usize,
}

// The walk with dependence e behind it.
fn step(d: Drawn, w: Walk, e: usize) -> Walk {
    Walk {
        joins: w.joins && e < d.m && field(d, e, 0) == w.at,
        at: field(d, e, 1),
        delay: w.delay.wrapping_add(field(d, e, 2)),
        zero: w.zero.wrapping_add(6),
        distance: w.distance.wrapping_add(field(d, e, 3)),
    }
}

// The smallest interval that is long enough for the walk, or none. A walk that does not close at start asks for nothing.
fn asked(w: Walk, start: usize) -> Option<usize> {
    if !w.joins || w.at != start || w.delay <= w.zero {
        Some(1)
    } else if w.distance == 0 {
        None
    } else {
        Some((w.delay - w.zero).div_ceil(w.distance))
    }
}

// What the sequence asks for whose dependence numbers are the digits of code, base 5.
fn needed(d: Drawn, length: usize, code: usize) -> Option<usize> {
    let start = field(d, code % 5, 0);
    let mut w = Walk {
        joins: true,
        at: start,
        delay: 0,
        zero: 0,
        distance: 0,
    };
    let mut rest = code;
    for _ in 0..length {
        w = step(d, w, rest % 5);
        rest /= 5;
    }
    asked(w, start)
}

// The recurrence bound of a loop of up to 4 operations, if there is one: the most that sequences of up to as many dependences as it has operations ask for. A sequence of fewer than 4 is tried for
// each of its longer codes.
pub fn bound(d: Drawn) -> Option<usize> {
    let mut found = 1;
    for length in 1..=d.n.min(4) {
        for code in 0..625 {
            found = found.max(needed(d, length, code)?);
        }
    }
    Some(found)
}
