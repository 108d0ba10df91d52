// Random loops.
use trial::draw;
use trial::drawn::{Drawn, field, with_dep};
use trial::random::{next, pick};

// The last dependence, where there is one, with a delay of 5 to 10 and distance 1. Few starts below the horizon are so far apart: such a loop often has a schedule only at an interval above the bounds, where an
// iteration comes later.
fn with_far(d: Drawn) -> Drawn {
    match d.m.checked_sub(1) {
        Some(e) => with_dep(d, e, field(d, e, 0), field(d, e, 1), pick(d.seed, 11, 6), 1),
        None => d,
    }
}

// A loop of 2 to 4 operations and 0 to 5 dependences, with cap 1 to 8 and horizon 2 to 6 (4 operations, cap 8 and horizon 6 more often than the others), from the states behind a seed.
pub fn draw(seed: usize) -> Drawn {
    let a = next(seed);
    let b = next(a);
    let c = next(b);
    let e = next(c);
    let f = next(e);
    let n = pick(a, 2, 6).min(4);
    let cap = pick(c, 1, 24).min(8);
    let horizon = pick(e, 2, 6).min(6);
    let d = draw::blank(f, n, pick(b, 0, 6), cap, horizon);
    let timed = draw::draw_latencies(d, 4);
    let used = draw::draw_uses(timed, 4);
    with_far(draw::turned(draw::draw_deps(used, 5)))
}
