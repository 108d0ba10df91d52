// The search at one interval, operation by operation in number order. `choose` works out what the search needs once, and begins. From there two functions call each other:
// `pick` goes through those starts of an operation's window that the rows leave free, and `try_start` takes one of them, works out the window of the next operation and,
// where that has a start, reserves, lets `pick` go on, and releases. A start that the window or the rows exclude only costs its probe: all those before the next start to
// try, or after the last, are paid for at once, and so are all starts of an operation whose window has none. A start is paid for before it is tried, so what is left of
// the budget falls with every turn. Internal: each function asks for an accepted file and rows that hold the operations placed so far.
#![tactic(auto)]

mod skip;
mod window;

ghost use Rattle.std.specs.Prelude.{◌≡◌, [], ◌∷◌, ◌++◌, take};
ghost use Rattle.model.specs.File.{loop_of};
ghost use Rattle.descent.specs.Links.{Linked};
ghost use Rattle.descent.specs.Descent.{Ready, MayPick, MayTry, Done, below, branch};

use crate::skip::{excluded, next_free};
use crate::window::{Window, link, window_of};
use loop_access::{first_use, use_count};
use reservation::cells::{release, reserve};
pub use window::earliest;

// What a part of the search comes to: every operation has a start, and so much is left of the budget; the budget is spent; there is no list, and so much is left.
// Three outcomes, of which the caller tells each from the others: no Option or Result.
#[derive(Clone, Copy)]
pub enum Found {
    All(usize),
    Spent,
    Nothing(usize),
}

// The starts of operation `op` and of those after it.
pub fn choose(
    file: &[u8],
    starts: &mut [u16; 64],
    rows: &mut [u64],
    op: usize,
    n: usize,
    interval: usize,
    horizon: usize,
    left: usize,
) -> Found
    requires { Ready file.now starts.old rows.old op n interval horizon }
    ensures done { Done (below file.now starts.old op n interval horizon left) n op (take op starts.old) starts.old starts.new result }
    ensures same { rows.new ≡ rows.old }
{
    if op == n {
        return Found::All(left);
    }
    let links = link(file);
    let first = first_use(file, op);
    let w = window_of(file, &links, op, starts, interval, horizon);
    pick(
        file, rows, w, left, &links, starts, op, first, n, interval, horizon,
    )
}

// The same where an operation is left, with the index of the dependences, the number of its first use and its window at hand. Every operation placed has a call of it
// on the stack, so its parameters stand in an order that keeps this small: first what it needs only once, which is passed in registers, last what it needs again after a deeper call, which is passed on the stack and then stands there. The
// starts are an array and not a slice, which would have a length to hand on.
#[cycle(pick_try_start)]
fn pick(
    file: &[u8],
    rows: &mut [u64],
    w: Window,
    left: usize,
    links: &[u16; 320],
    starts: &mut [u16; 64],
    op: usize,
    first: usize,
    n: usize,
    interval: usize,
    horizon: usize,
) -> Found
    requires { MayPick file.now starts.old rows.old op n interval horizon first w.from w.to × Linked (loop_of file.now) links.now }
    ensures done { Done (below file.now starts.old op n interval horizon left) n op (take op starts.old) starts.old starts.new result }
    ensures same { rows.new ≡ rows.old }
{
    let mut purse = left;
    let mut paid = 0;
    let mut s = next_free(file, op, first, w.from, w.to, interval, rows);
    while s < w.to {
        let passed = s - paid;
        if purse <= passed {
            return Found::Spent;
        }
        match try_start(
            file,
            rows,
            s,
            purse - passed - 1,
            links,
            starts,
            op,
            first,
            n,
            interval,
            horizon,
        ) {
            Found::Nothing(l) => purse = l,
            found => return found,
        }
        paid = s + 1;
        s = next_free(file, op, first, paid, w.to, interval, rows);
    }
    let above = horizon - paid;
    if purse < above {
        Found::Spent
    } else {
        Found::Nothing(purse - above)
    }
}

// Operation `op` at s, which its window has, and the operations after it. The probe is paid for. Whether the rows leave s free is asked here, of any start of the window.
// The number of the first use, `first`, is handed in, and that of the next operation is as many more as this one has uses.
#[cycle(pick_try_start)]
fn try_start(
    file: &[u8],
    rows: &mut [u64],
    s: usize,
    left: usize,
    links: &[u16; 320],
    starts: &mut [u16; 64],
    op: usize,
    first: usize,
    n: usize,
    interval: usize,
    horizon: usize,
) -> Found
    requires { MayTry file.now starts.old rows.old op n interval horizon s first × Linked (loop_of file.now) links.now }
    ensures done { Done (branch file.now starts.old op n interval horizon s left) n op (take op starts.old ++ s ∷ []) starts.old starts.new result }
    ensures same { rows.new ≡ rows.old }
{
    if 0 < excluded(file, op, first, s, interval, rows) {
        return Found::Nothing(left);
    }
    starts[op] = s as u16;
    if op + 1 == n {
        return Found::All(left);
    }
    let w = window_of(file, links, op + 1, starts, interval, horizon);
    if w.is_empty() {
        return if left < horizon {
            Found::Spent
        } else {
            Found::Nothing(left - horizon)
        };
    }
    reserve(file, op, first, s, interval, rows);
    let next = first + use_count(file, op);
    let f = pick(
        file,
        rows,
        w,
        left,
        links,
        starts,
        op + 1,
        next,
        n,
        interval,
        horizon,
    );
    release(file, op, first, s, interval, rows);
    f
}
