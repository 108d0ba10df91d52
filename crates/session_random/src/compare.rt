// The session against the book: the answer, the starts, the number of open checkpoints and the rows; and the numbers of free rows against the rows.
ghost use Rattle.std.specs.Prelude.{◌<◌};

use crate::book::{self, Book, Refusal, numbered};
use session::{Reply, Session};
use trial::drawn::{Drawn, start_of};
use trial::picture;

// The session's answer in the book's form.
pub fn answer(answer: Result<Reply, session::Refusal>) -> Result<book::Reply, Refusal> {
    match answer {
        Ok(Reply::Done) => Ok(book::Reply::Done),
        Ok(Reply::Displaced(mask)) => Ok(book::Reply::Displaced(mask as usize)),
        Ok(Reply::Numbered(m)) => Ok(book::Reply::Numbered(m)),
        Err(refusal) => Err(numbered(refusal.number(), refusal.detail())),
    }
}

// Whether the session's starts are the book's, and no other operation is placed.
fn same_starts(at: &[u16; 64], starts: &[u16; 6]) -> bool {
    at.iter()
        .enumerate()
        .all(|(op, start)| *start == start_of(starts, op))
}

// Whether a bit of a row, counted from 0, is clear.
fn is_clear(row: u64, bit: usize) -> bool
    requires { bit < 24 }
{
    (row >> bit) % 2 == 0
}

// How many of the first rows, one for each cycle of the interval, have a bit clear.
fn count_clear(rows: &[u64; 8], interval: usize, bit: usize) -> usize
    requires { bit < 24 }
{
    rows.iter()
        .take(interval)
        .filter(|row| is_clear(**row, bit))
        .count()
}

// Whether each of the session's numbers of free rows is the table's: for slot i + 1, how many rows have bit i clear.
fn same_free(free: &[u16; 24], rows: &[u64; 8], interval: usize) -> bool {
    free.iter()
        .enumerate()
        .all(|(i, n)| *n as usize == count_clear(rows, interval, i))
}

// Whether the session's state and its table are those of the book, and its numbers of free rows those of its table.
pub fn same_state(d: Drawn, s: &Session, rows: &[u64; 8], b: &Book) -> bool {
    let painted = picture::of_starts(d, &b.starts, d.interval);
    let table = picture::rows(&painted, d.interval);
    same_starts(&s.starts, &b.starts)
        && s.marks == b.open
        && *rows == table
        && same_free(&s.free, rows, d.interval as usize)
}
