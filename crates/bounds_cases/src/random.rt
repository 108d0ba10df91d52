// 400 random loops: `bounds` against the count over all cycles.
use crate::cycles;
use trial::drawn::{Drawn, with_dep};
use trial::random::{next, pick};
use trial::{draw, file};

// x, or what is left of it in a ring of n.
fn around(x: usize, n: usize) -> usize {
    if n == 0 { 0 } else { x % n }
}

// The operation x of a ring of n for three states of four, else any.
fn aim(seed: usize, x: usize, n: usize) -> usize {
    if pick(seed, 0, 4) < 3 {
        around(x, n)
    } else {
        pick(seed / 4, 0, n)
    }
}

// Dependence e, of the operation `from` of the ring, and mostly with its operation `to`; with a delay from -6 to 6 and a distance from 0 to 2.
fn draw_dep(d: Drawn, e: usize, from: usize, to: usize) -> Drawn {
    let a = next(d.seed);
    let b = next(a);
    let c = next(b);
    let drawn = with_dep(
        d,
        e,
        around(from, d.n),
        aim(a, to, d.n),
        pick(b, 0, 13),
        pick(c, 0, 3),
    );
    Drawn { seed: c, ..drawn }
}

// A loop of 1 to 4 operations without uses and 1 to 5 dependences. Most are those of a ring, from its end.
fn draw_loop(seed: usize) -> Drawn {
    let a = next(seed);
    let b = next(a);
    let mut d = draw::blank(b, pick(a, 1, 4), pick(b, 1, 5), 1, 1);
    for e in 0..5 {
        d = draw_dep(d, e, 4 - e, 5 - e);
    }
    d
}

// Whether the library's bounds of a loop are 1, since no slot is used, and the recurrence bound; or it has none of a loop that has none.
fn agrees(d: Drawn) -> bool {
    let mut bytes = [0u8; 2000];
    let len = file::put_file(&mut bytes, d);
    match (bounds::bounds(file::first(&bytes, len)), cycles::bound(d)) {
        (Ok(found), Some(bound)) => found.resource == 1 && found.recurrence == bound,
        (Err(refusal), None) => refusal.number() == 8 && refusal.detail() == 0,
        _ => false,
    }
}

// How many of 400 loops agree.
pub fn agreeing() -> usize {
    let mut seed = 1;
    let mut agree = 0;
    for _ in 0..400usize {
        let d = draw_loop(seed);
        if agrees(d) {
            agree += 1;
        }
        seed = d.seed;
    }
    agree
}
