// Random calls on a session, from the generator's states and what its book holds.
use crate::book::{Book, fits, placed};
use session::Call;
use trial::drawn::Drawn;
use trial::random::{next, pick};

// A call, and the generator's state behind it.
#[derive(Clone, Copy)]
pub struct Turn {
    pub call: Call,
    pub seed: usize,
}

// A call's kind, before its numbers are drawn.
#[derive(Clone, Copy, PartialEq)]
enum Kind {
    Place,
    Force,
    Remove,
    Checkpoint,
    Release,
    Rollback,
}

// The number behind one of n, or the first behind the last.
fn behind(x: usize, n: usize) -> usize {
    let next = x.wrapping_add(1);
    if next < n { next } else { 0 }
}

// The first operation from op on, around the last one, that is placed, or that is not; op where there is none.
fn first_such(starts: &[u16; 6], n: usize, op: usize, wanted: bool) -> usize {
    (op..n)
        .chain(0..op)
        .find(|p| placed(starts, *p) == wanted)
        .unwrap_or(op)
}

// The kind of a call; but for three states of four remove in place of place or force where all operations are placed.
fn drawn_kind(d: Drawn, starts: &[u16; 6], seed: usize) -> Kind {
    let kind = match pick(seed, 0, 16) {
        0..=4 => Kind::Place,
        5..=8 => Kind::Force,
        9 | 10 => Kind::Remove,
        11 | 12 => Kind::Checkpoint,
        13 => Kind::Release,
        _ => Kind::Rollback,
    };
    let puts = kind == Kind::Place || kind == Kind::Force;
    if puts && pick(seed / 16, 0, 4) != 0 && (0..d.n).all(|op| placed(starts, op)) {
        Kind::Remove
    } else {
        kind
    }
}

// An operation: for a state of sixteen none of the loop's, for two any, else one that is placed, or that is not.
fn operation(d: Drawn, starts: &[u16; 6], seed: usize, sense: usize, wanted: bool) -> usize {
    let op = pick(seed, 0, d.n);
    match pick(sense, 0, 16) {
        0 => pick(seed, d.n, 3),
        1 | 2 => op,
        _ => first_such(starts, d.n, op, wanted),
    }
}

// A start: for a state of sixteen from the horizon on, else below it.
fn drawn_start(horizon: usize, seed: usize, sense: usize) -> usize {
    if pick(sense, 0, 16) == 0 {
        pick(seed, horizon, 3)
    } else {
        pick(seed, 0, horizon)
    }
}

// The first start from `at` on, around the last one, at which the book places an operation; `at` where there is none.
fn first_fitting(d: Drawn, b: &Book, op: usize, at: usize) -> usize {
    let mut s = at;
    for _ in 0..12 {
        if fits(d, b, op, s) {
            return s;
        }
        s = behind(s, d.horizon as usize);
    }
    at
}

// The number of a checkpoint: for a state of eight 0, for one the first that is not open, for two any that is open, else the newest.
fn mark(open: usize, seed: usize, sense: usize) -> usize {
    match pick(sense, 0, 8) {
        0 => 0,
        1 => open.wrapping_add(1),
        2 | 3 => pick(seed, 1, open),
        _ => open,
    }
}

// A random call, from the five states behind a seed. For a state of two an operation that is to be placed gets a start at which it fits.
fn drawn(d: Drawn, b: &Book, seed: usize) -> Turn {
    let s = next(seed);
    let t = next(s);
    let u = next(t);
    let v = next(u);
    let w = next(v);
    let kind = drawn_kind(d, &b.starts, s);
    let op = operation(d, &b.starts, t, u, kind == Kind::Remove);
    let start = drawn_start(d.horizon as usize, v, w);
    let call = match kind {
        Kind::Place if pick(w / 16, 0, 2) == 1 => {
            let start = first_fitting(d, b, op, start);
            Call::Place { op, start }
        }
        Kind::Place => Call::Place { op, start },
        Kind::Force => Call::Force { op, start },
        Kind::Remove => Call::Remove { op },
        Kind::Checkpoint => Call::Checkpoint,
        Kind::Release => Call::Release,
        Kind::Rollback => {
            let checkpoint = mark(b.open, t, u);
            Call::Rollback { checkpoint }
        }
    };
    Turn { call, seed: w }
}

// The call of turn i: a random one for the first 200; then, while a checkpoint is open, one back to the newest, and one that releases it; else none.
pub fn of_turn(d: Drawn, b: &Book, seed: usize, i: usize) -> Option<Turn> {
    if i < 200 {
        return Some(drawn(d, b, seed));
    }
    if b.open == 0 {
        return None;
    }
    let call = if i % 2 == 0 {
        Call::Rollback { checkpoint: b.open }
    } else {
        Call::Release
    };
    Some(Turn { call, seed })
}
