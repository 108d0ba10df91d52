// 100 random lists of some 200 calls: sessions over small random loops against a book of starts (in `book`), which takes nothing from the library but the form of a call. After opening and after each call
// the answer, the starts, the number of open checkpoints and the rows are compared, and the numbers of free rows of the 24 slots with a count over the rows; at the end of a list the
// session goes back to each open checkpoint. What it must print, the file stdout, was computed by another program, with a book of its own.
#![tactic(auto)]

mod book;
mod calls;
mod compare;
mod tally;

ghost use Rattle.session.specs.View.{Valid};

use book::Book;
use calls::Turn;
use session::Session;
use tally::Tally;
use trial::drawn::Drawn;
use trial::picture::UNTOUCHED;
use trial::random::{next, pick};
use trial::{draw, file};

// A list of calls as far as it is made: the session and the book, and the tally.
#[derive(Drop)]
struct Play {
    session: Session,
    book: Book,
    tally: Tally,
}

// A call on both.
fn made(d: Drawn, p: &mut Play, rows: &mut [u64; 8], turn: Turn)
    requires { Valid p.old.session rows.old }
    ensures { Valid p.new.session rows.new }
{
    let expected = book::turn(d, &mut p.book, turn.call);
    let answer = compare::answer(p.session.make(rows, turn.call));
    let agrees = answer == expected && compare::same_state(d, &p.session, rows, &p.book);
    p.tally = tally::with_call(p.tally, turn, answer, agrees);
}

// The call of turn i, where it has one.
fn with_turn(d: Drawn, p: &mut Play, rows: &mut [u64; 8], i: usize)
    requires { Valid p.old.session rows.old }
    ensures { Valid p.new.session rows.new }
{
    if let Some(turn) = calls::of_turn(d, &p.book, p.tally.seed, i) {
        made(d, p, rows, turn);
    }
}

// All turns of a list, of which the last 32 are for its 16 checkpoints.
fn all_turns(d: Drawn, p: &mut Play, rows: &mut [u64; 8])
    requires { Valid p.old.session rows.old }
    ensures { Valid p.new.session rows.new }
{
    for i in 0..232 {
        with_turn(d, p, rows, i);
    }
}

// The calls on the session of a file.
fn played(bytes: &[u8], d: Drawn, t: Tally) -> Tally {
    let mut rows = [UNTOUCHED; 8];
    let opened = session::open(bytes, d.interval as usize, d.horizon as usize, &mut rows);
    let Ok(session) = opened else {
        return tally::with_opening(t, false);
    };
    let book = book::empty();
    let agrees = compare::same_state(d, &session, &rows, &book);
    let mut p = Play {
        session,
        book,
        tally: tally::with_opening(t, agrees),
    };
    all_turns(d, &mut p, &mut rows);
    p.tally
}

// A loop of 2 to 6 operations and 0 to 6 dependences, with interval 1 to 6 and horizon 4 to 12, from the states behind a seed.
fn drawn_loop(seed: usize) -> Drawn {
    let a = next(seed);
    let b = next(a);
    let c = next(b);
    let e = next(c);
    let d = draw::blank(
        e,
        pick(a, 2, 5),
        pick(b, 0, 7),
        pick(c, 1, 6),
        pick(e, 4, 9),
    );
    draw::draw_deps(draw::draw_uses(d, 6), 6)
}

// The tally with one more list.
fn with_list(t: Tally) -> Tally {
    let d = drawn_loop(t.seed);
    let mut bytes = [0; 2000];
    let len = file::put_file(&mut bytes, d);
    played(file::first(&bytes, len), d, tally::with_drawn(t, d.seed))
}

// A line for each ten lists, with those before them, and a last line for all.
fn main() {
    let mut t = tally::nothing(1);
    for list in 1..=100 {
        t = with_list(t);
        if list % 10 == 0 {
            tally::print(t);
        }
    }
    tally::print_all(t);
}
