// Random loops with a request each.
use trial::draw;
use trial::drawn::Drawn;
use trial::random::{next, pick};

// A loop, tried with its interval as the cap, and the allowance of probes.
#[derive(Clone, Copy)]
pub struct Request {
    pub drawn: Drawn,
    pub allowance: usize,
}

// An allowance: 1 to 64 for a state of three, else more than any of these loops takes.
fn allowance(seed: usize) -> usize {
    if pick(seed, 0, 3) == 0 {
        pick(seed / 4, 1, 64)
    } else {
        100000
    }
}

// A loop of 2 to 4 operations and 0 to 5 dependences, with cap 1 to 6 and horizon 2 to 5 (the largest of these three more often than the others), from the states behind a seed.
pub fn draw(seed: usize) -> Request {
    let a = next(seed);
    let b = next(a);
    let c = next(b);
    let e = next(c);
    let f = next(e);
    let m = pick(b, 0, 10).min(5);
    let cap = pick(c, 1, 18).min(6);
    let horizon = pick(e, 2, 6).min(5);
    let d = draw::blank(f, pick(a, 2, 3), m, cap, horizon);
    let timed = draw::draw_latencies(d, 4);
    let used = draw::draw_uses(timed, 4);
    Request {
        drawn: draw::turned(draw::draw_deps(used, 5)),
        allowance: allowance(f),
    }
}
