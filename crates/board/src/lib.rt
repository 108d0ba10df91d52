// Starts of the placed operations and the rows that hold them, on slices: what each call of a session is refused for, and what it does. Internal: each function asks that the rows are
// the table of the starts; the session's calls and the planner's attempts (`iterative`) share them.
#![tactic(auto, using(crate::proofs::Boards::few_operations))]

pub mod checks;
pub mod moves;

ghost use Rattle.std.specs.Prelude.{◌<◌, get_or};
ghost use Rattle.model.specs.Loop.{size};
ghost use Rattle.model.specs.File.{loop_of};
ghost use Rattle.board.specs.Board.{Board, MayPut, IsPut};

use loop_access::first_use;
use reservation::NOT_PLACED;
use reservation::cells::{release, reserve};

// What a call that is not refused answers: done; the operations that were displaced, bit i for operation i; the number of the new checkpoint.
#[derive(Clone, Copy, Debug, PartialEq, Eq)]
pub enum Reply {
    Done,
    Displaced(u64),
    Numbered(usize),
}

// Takes out a placed operation.
fn lift(file: &[u8], op: usize, interval: usize, starts: &mut [u16; 64], rows: &mut [u64])
    requires { Board file.now interval 4096 starts.old rows.old × (op < size (loop_of file.now)) × (get_or starts.old op 65535 < 65535) }
    ensures { IsPut file.now interval op 65535 starts.old rows.old starts.new rows.new }
{
    let start = starts[op] as usize;
    release(file, op, first_use(file, op), start, interval, rows);
    starts[op] = NOT_PLACED;
}

// Puts in an operation that is not placed, at a start where it fits.
fn put(
    file: &[u8],
    op: usize,
    start: usize,
    interval: usize,
    starts: &mut [u16; 64],
    rows: &mut [u64],
)
    requires { MayPut file.now interval op start starts.old rows.old }
    ensures { IsPut file.now interval op start starts.old rows.old starts.new rows.new }
{
    reserve(file, op, first_use(file, op), start, interval, rows);
    starts[op] = start as u16;
}
