// The book of document 01, for a drawn loop: it holds a start for each placed operation, and for each open checkpoint a copy of all starts. It takes nothing from the library but the form of a call.
use session::Call;
use trial::drawn::{Drawn, NOWHERE, field, holds, only, start_of, with_start};
use trial::picture;

// The starts of 6 operations; how many checkpoints are open; and the starts that each of them keeps.
#[derive(Clone, Copy)]
pub struct Book {
    pub starts: [u16; 6],
    pub open: usize,
    pub saved: [[u16; 6]; 16],
}

// What an accepted call answers: done; the operations that were displaced, as a mask; or the number of a new checkpoint.
#[derive(Clone, Copy, PartialEq)]
pub enum Reply {
    Done,
    Displaced(usize),
    Numbered(usize),
}

// Why a call is refused, with its detail: no such operation, one that is placed already or is not, a start beyond the horizon, a dependence that does not hold, the place of a conflict, no room for a checkpoint,
// no such checkpoint open; or none of these, which only the session can answer.
#[derive(Clone, Copy, PartialEq)]
pub enum Refusal {
    NoOperation(usize),
    AlreadyPlaced(usize),
    NotPlaced(usize),
    BeyondHorizon(usize),
    Dependence(usize),
    Conflict(usize),
    AllOpen,
    NotOpen,
    Other,
}

// A refusal by its number in document 01.
pub fn numbered(number: usize, detail: usize) -> Refusal {
    match (number, detail) {
        (12, op) => Refusal::NoOperation(op),
        (13, op) => Refusal::AlreadyPlaced(op),
        (14, op) => Refusal::NotPlaced(op),
        (15, op) => Refusal::BeyondHorizon(op),
        (16, e) => Refusal::Dependence(e),
        (17, place) => Refusal::Conflict(place),
        (18, 0) => Refusal::AllOpen,
        (19, 0) => Refusal::NotOpen,
        _ => Refusal::Other,
    }
}

// What is wrong with an operation: a dependence that does not hold, or two operations that conflict, or one with itself.
#[derive(Clone, Copy)]
enum Fault {
    Dependence(usize),
    Conflict,
}

// The book of an opened session.
pub fn empty() -> Book {
    Book {
        starts: [NOWHERE; 6],
        open: 0,
        saved: [[NOWHERE; 6]; 16],
    }
}

// Whether an operation is placed.
pub fn placed(starts: &[u16; 6], op: usize) -> bool {
    start_of(starts, op) != NOWHERE
}

// The starts with another one for an operation.
fn set(starts: [u16; 6], op: usize, start: usize) -> [u16; 6] {
    with_start(starts, op, (start % 65536) as u16)
}

// Whether a dependence has an operation at an end.
fn touches(d: Drawn, e: usize, op: usize) -> bool {
    field(d, e, 0) == op || field(d, e, 1) == op
}

// What is wrong with an operation at these starts: its first dependence that does not hold, else a conflict.
fn fault_of(d: Drawn, starts: &[u16; 6], op: usize) -> Option<Fault> {
    let broken = (0..d.m).find(|e| touches(d, *e, op) && !holds(d, *e, starts, d.interval));
    if let Some(e) = broken {
        return Some(Fault::Dependence(e));
    }
    let painted = picture::of_starts(d, starts, d.interval);
    picture::twice(&painted).then_some(Fault::Conflict)
}

// The starts without the operations that have to go for op, and these, each as its bit: those with which, alone, something is wrong.
fn cleared(d: Drawn, starts: [u16; 6], op: usize) -> ([u16; 6], usize) {
    let mut left = starts;
    let mut mask = 0;
    for p in 0..6 {
        let pair = only(&starts, op, p);
        if p != op && fault_of(d, &pair, op).is_some() {
            left[p] = NOWHERE;
            mask |= 1 << p;
        }
    }
    (left, mask)
}

// What an operation and a start are refused for before any other is looked at.
fn unknown(d: Drawn, starts: &[u16; 6], op: usize, at: usize) -> Result<(), Refusal> {
    if d.n <= op {
        Err(Refusal::NoOperation(op))
    } else if placed(starts, op) {
        Err(Refusal::AlreadyPlaced(op))
    } else if d.horizon as usize <= at {
        Err(Refusal::BeyondHorizon(op))
    } else {
        Ok(())
    }
}

// Where op conflicts at these starts: the first place in which it meets a cell of another operation, or one of its own.
fn place_of(d: Drawn, starts: &[u16; 6], op: usize) -> usize {
    let start = start_of(starts, op);
    let others = with_start(*starts, op, NOWHERE);
    let painted = picture::of_starts(d, &others, d.interval);
    picture::place(painted, d, op, start, d.interval, true)
}

// The refusal of an operation and a start, where the starts to be looked at are given.
fn tested(
    d: Drawn,
    old: &[u16; 6],
    starts: &[u16; 6],
    op: usize,
    at: usize,
) -> Result<(), Refusal> {
    unknown(d, old, op, at)?;
    match fault_of(d, starts, op) {
        None => Ok(()),
        Some(Fault::Dependence(e)) => Err(Refusal::Dependence(e)),
        Some(Fault::Conflict) => Err(Refusal::Conflict(place_of(d, starts, op))),
    }
}

// Whether an operation can be placed at a start. The operations that are placed do not conflict with each other.
fn placeable(d: Drawn, b: &Book, op: usize, at: usize) -> Result<(), Refusal> {
    let starts = set(b.starts, op, at);
    tested(d, &b.starts, &starts, op, at)
}

// Placing.
fn place(d: Drawn, b: &mut Book, op: usize, at: usize) -> Result<Reply, Refusal> {
    placeable(d, b, op, at)?;
    let starts = set(b.starts, op, at);
    b.starts = starts;
    Ok(Reply::Done)
}

// Forcing: only the operation itself has to be right at its start.
fn force(d: Drawn, b: &mut Book, op: usize, at: usize) -> Result<Reply, Refusal> {
    let alone = set([NOWHERE; 6], op, at);
    tested(d, &b.starts, &alone, op, at)?;
    let (starts, mask) = cleared(d, set(b.starts, op, at), op);
    b.starts = starts;
    Ok(Reply::Displaced(mask))
}

// Removing.
fn remove(d: Drawn, b: &mut Book, op: usize) -> Result<Reply, Refusal> {
    if d.n <= op {
        return Err(Refusal::NoOperation(op));
    }
    if !placed(&b.starts, op) {
        return Err(Refusal::NotPlaced(op));
    }
    let starts = with_start(b.starts, op, NOWHERE);
    b.starts = starts;
    Ok(Reply::Done)
}

// A checkpoint.
fn checkpoint(b: &mut Book) -> Result<Reply, Refusal> {
    let open = b.open;
    if 16 <= open {
        return Err(Refusal::AllOpen);
    }
    let starts = b.starts;
    b.saved[open] = starts;
    b.open = open + 1;
    Ok(Reply::Numbered(open + 1))
}

// Releasing the newest checkpoint.
fn release(b: &mut Book) -> Result<Reply, Refusal> {
    if b.open == 0 {
        return Err(Refusal::NotOpen);
    }
    b.open -= 1;
    Ok(Reply::Done)
}

// Going back to checkpoint m.
fn rollback(b: &mut Book, m: usize) -> Result<Reply, Refusal> {
    if m == 0 || b.open.min(16) < m {
        return Err(Refusal::NotOpen);
    }
    let starts = b.saved[m - 1];
    b.starts = starts;
    b.open = m;
    Ok(Reply::Done)
}

// A call on the book, which stays as it is where the call is refused.
pub fn turn(d: Drawn, b: &mut Book, c: Call) -> Result<Reply, Refusal> {
    match c {
        Call::Place { op, start } => place(d, b, op, start),
        Call::Force { op, start } => force(d, b, op, start),
        Call::Remove { op } => remove(d, b, op),
        Call::Checkpoint => checkpoint(b),
        Call::Release => release(b),
        Call::Rollback { checkpoint } => rollback(b, checkpoint),
    }
}

// Whether an operation can be placed at a start.
pub fn fits(d: Drawn, b: &Book, op: usize, at: usize) -> bool {
    placeable(d, b, op, at).is_ok()
}
