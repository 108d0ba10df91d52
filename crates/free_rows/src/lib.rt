// How many rows each slot has free (document 02, order 4): 24 numbers beside starts and rows, of slots 1 to 24, changed by the durations of the operations that come and go. No function
// goes over rows. Internal: each asks for the numbers of the rows that it is given, and leaves those of the rows that it leaves.
#![tactic(auto, using(reservation::proofs::Ranges::ranges))]

ghost use Rattle.std.specs.Prelude.{◌≡◌, false, cond, ◌+◌, ◌^◌, ◌≤◌, ◌<◌};
ghost use Rattle.model.specs.Loop.{size, op_at, op_on};
ghost use Rattle.model.specs.File.{loop_of, Accepted};
ghost use Rattle.model.specs.Table.{free_rows};
ghost use Rattle.model.specs.Session as model;
ghost use Rattle.board.specs.Board.{Board};
ghost use Rattle.board.specs.Moves.{Did, Removed};
ghost use Rattle.free_rows.specs.Numbers.{Room, Moved, named_on};

use board::{Reply, moves};
use loop_access::{duration, first_use, slot, use_count};
use refusals::Refusal;

// A number of free rows after a use of so many cycles comes or goes.
fn moved(free: u16, cycles: u16, comes: bool) -> u16
    requires { (cond comes cycles 0 ≤ free) × (free + cycles < 65536) }
    ensures { result + cond comes cycles 0 ≡ free + cond comes 0 cycles }
{
    if comes { free - cycles } else { free + cycles }
}

// The numbers after an operation comes or goes: each use changes that of its slot by its duration.
fn count(file: &[u8], op: usize, comes: bool, free: &mut [u16; 24])
    requires { Accepted file.now × (op < size (loop_of file.now)) × Room comes (λ s. op_on s (op_at (loop_of file.now) op)) free.old }
    ensures { Moved comes (λ s. op_on s (op_at (loop_of file.now) op)) free.old free.new }
{
    let first = first_use(file, op);
    for u in first..first + use_count(file, op) {
        let number = &mut free[slot(file, u) - 1];
        *number = moved(*number, duration(file, u) as u16, comes);
    }
}

// The numbers after each operation that a mask names has gone, bit p for operation p. The walk ends with the highest of them.
fn count_gone(file: &[u8], mask: u64, free: &mut [u16; 24])
    requires { Accepted file.now × (mask < 2 ^ size (loop_of file.now)) × Room false (λ s. named_on (loop_of file.now) mask s (size (loop_of file.now))) free.old }
    ensures { Moved false (λ s. named_on (loop_of file.now) mask s (size (loop_of file.now))) free.old free.new }
{
    let mut left = mask;
    let mut p = 0;
    while 0 < left {
        if left % 2 == 1 {
            count(file, p, false, free);
        }
        left /= 2;
        p += 1;
    }
}

// Places an operation, or says why not.
pub fn place(
    file: &[u8],
    interval: usize,
    horizon: usize,
    op: usize,
    start: usize,
    starts: &mut [u16; 64],
    rows: &mut [u64],
    free: &mut [u16; 24],
) -> Result<Reply, Refusal>
    requires { Board file.now interval horizon starts.old rows.old × (free.old ≡ free_rows interval rows.old) }
    ensures { Did (model.place op start) file.now interval horizon starts.old rows.old starts.new rows.new result × (free.new ≡ free_rows interval rows.new) }
{
    let placed = moves::place(file, interval, horizon, op, start, starts, rows)?;
    count(file, op, true, free);
    Ok(placed)
}

// Removes an operation, or says why not.
pub fn remove(
    file: &[u8],
    interval: usize,
    op: usize,
    starts: &mut [u16; 64],
    rows: &mut [u64],
    free: &mut [u16; 24],
) -> Result<Reply, Refusal>
    requires { Board file.now interval 4096 starts.old rows.old × (free.old ≡ free_rows interval rows.old) }
    ensures { Removed file.now interval op starts.old rows.old starts.new rows.new result × (free.new ≡ free_rows interval rows.new) }
{
    let removed = moves::remove(file, interval, op, starts, rows)?;
    count(file, op, false, free);
    Ok(removed)
}

// Forces an operation, or says why not.
pub fn force(
    file: &[u8],
    interval: usize,
    horizon: usize,
    op: usize,
    start: usize,
    starts: &mut [u16; 64],
    rows: &mut [u64],
    free: &mut [u16; 24],
) -> Result<Reply, Refusal>
    requires { Board file.now interval horizon starts.old rows.old × (free.old ≡ free_rows interval rows.old) }
    ensures { Did (model.force op start) file.now interval horizon starts.old rows.old starts.new rows.new result × (free.new ≡ free_rows interval rows.new) }
{
    let forced = moves::force(file, interval, horizon, op, start, starts, rows)?;
    let Reply::Displaced(mask) = forced else {
        unreachable!();
    };
    count_gone(file, mask, free);
    count(file, op, true, free);
    Ok(forced)
}
