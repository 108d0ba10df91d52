// 400 random lists: `verify` against the picture.
use trial::drawn::{Drawn, NOWHERE, holds, only, start_of};
use trial::random::{next, pick};
use trial::{draw, file, picture};
use verifier::{Refusal, Verdict};

// A loop of 3 operations and 0 to 3 dependences, with an interval from 1 to 5.
fn draw_loop(seed: usize) -> Drawn {
    let a = next(seed);
    let b = next(a);
    let d = draw::blank(b, 3, pick(b, 0, 4), pick(a, 1, 5), 8);
    draw::draw_deps(draw::draw_uses(d, 3), 3)
}

// A start from 0 to 7.
fn start(seed: usize) -> u16 {
    (seed / 65536 % 8) as u16
}

// Three starts; the state behind them.
fn draw_starts(starts: &mut [u16; 6], seed: usize) -> usize {
    let mut state = seed;
    for drawn in starts[..3].iter_mut() {
        state = next(state);
        *drawn = start(state);
    }
    state
}

// The verifier's verdict. The list is longer than it has to be.
fn verified(d: Drawn, starts: &[u16; 6]) -> Result<Verdict, Refusal> {
    let mut bytes = [0u8; 2000];
    let len = file::put_file(&mut bytes, d);
    verifier::verify(file::first(&bytes, len), usize::from(d.interval), starts)
}

// The picture of an operation.
fn of_one(d: Drawn, starts: &[u16; 6], op: usize) -> [u8; 24] {
    picture::of_starts(d, &only(starts, op, op), d.interval)
}

// Whether a cell is painted in both.
fn both(p: &[u8; 24], q: &[u8; 24]) -> bool {
    p.iter().zip(q.iter()).any(|(a, b)| 0 < *a && 0 < *b)
}

// Whether two operations conflict, or one with itself.
fn conflict(d: Drawn, starts: &[u16; 6], a: usize, b: usize) -> bool {
    let p = of_one(d, starts, a);
    if a == b {
        picture::twice(&p)
    } else {
        both(&p, &of_one(d, starts, b))
    }
}

// The place of their conflict: the first one in which b meets a cell of a, or a one of its own.
fn place(d: Drawn, starts: &[u16; 6], a: usize, b: usize) -> usize {
    let start = start_of(starts, b);
    if a == b {
        picture::place([0u8; 24], d, a, start, d.interval, true)
    } else {
        picture::place(of_one(d, starts, a), d, b, start, d.interval, false)
    }
}

// The first pair that conflicts, and where.
fn first_pair(d: Drawn, starts: &[u16; 6]) -> Verdict {
    for a in 0..3 {
        for b in a..3 {
            if conflict(d, starts, a, b) {
                return Verdict::Conflict(a, b, place(d, starts, a, b));
            }
        }
    }
    Verdict::Legal
}

// The verdict by the picture: the first dependence that does not hold, else the first pair.
fn seen(d: Drawn, starts: &[u16; 6]) -> Verdict {
    match (0..d.m).find(|e| !holds(d, *e, starts, d.interval)) {
        Some(e) => Verdict::Broken(e),
        None => first_pair(d, starts),
    }
}

// All lists, and the line: how many verdicts there are of each kind, a conflict of an operation with itself apart from one of two, and how many are the picture's.
pub fn lists() {
    let mut seed = 1;
    let mut agree = 0;
    let mut legal = 0;
    let mut broken = 0;
    let mut of_two = 0;
    let mut with_itself = 0;
    let mut refused = 0;
    for _ in 0..400usize {
        let d = draw_loop(seed);
        let mut starts = [NOWHERE; 6];
        seed = draw_starts(&mut starts, d.seed);
        let found = verified(d, &starts);
        match found {
            Ok(Verdict::Legal) => legal += 1,
            Ok(Verdict::Broken(_)) => broken += 1,
            Ok(Verdict::Conflict(a, b, _)) if a == b => with_itself += 1,
            Ok(Verdict::Conflict(..)) => of_two += 1,
            Err(_) => refused += 1,
        }
        if found == Ok(seen(d, &starts)) {
            agree += 1;
        }
    }
    console::list(
        b"random: 400 lists, % agree: legal %, dependence %, conflict of two %, with itself %, refused %\n",
        &[agree, legal, broken, of_two, with_itself, refused],
    );
}
