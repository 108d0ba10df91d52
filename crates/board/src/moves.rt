// What the calls do to the starts and the rows, on slices. Internal: each function asks that the rows are the table of the starts.
ghost use Rattle.std.specs.Prelude.{◌≡◌, ◌<◌, ◌≤◌, length, get_or};
ghost use Rattle.model.specs.Loop.{size};
ghost use Rattle.model.specs.File.{loop_of};
ghost use Rattle.model.specs.Session as model;
ghost use Rattle.board.specs.Board.{Named, Sane, Board, setup_as, starts_of};
ghost use Rattle.board.specs.Moves.{Did, Removed, HitsAre, MarkKnown, Cleared, Agrees, Thinned, Restored};

use crate::checks::{forceable, placeable, removable};
use crate::{Reply, lift, put};
use loop_access::{dep_count, first_use, op_count, source, target};
use refusals::Refusal;
use reservation::NOT_PLACED;
use reservation::deps::breaks_at;
use reservation::pairs::overlap;
use reservation::test::is_free;

// Places an operation, or says why not.
pub fn place(
    file: &[u8],
    interval: usize,
    horizon: usize,
    op: usize,
    start: usize,
    starts: &mut [u16; 64],
    rows: &mut [u64],
) -> Result<Reply, Refusal>
    requires { Board file.now interval horizon starts.old rows.old }
    ensures { Did (model.place op start) file.now interval horizon starts.old rows.old starts.new rows.new result }
{
    placeable(file, interval, horizon, op, start, starts, rows)?;
    put(file, op, start, interval, starts, rows);
    Ok(Reply::Done)
}

// Removes an operation, or says why not.
pub fn remove(
    file: &[u8],
    interval: usize,
    op: usize,
    starts: &mut [u16; 64],
    rows: &mut [u64],
) -> Result<Reply, Refusal>
    requires { Board file.now interval 4096 starts.old rows.old }
    ensures { Removed file.now interval op starts.old rows.old starts.new rows.new result }
{
    removable(file, op, starts)?;
    lift(file, op, interval, starts, rows);
    Ok(Reply::Done)
}

// Forces an operation, or says why not.
pub fn force(
    file: &[u8],
    interval: usize,
    horizon: usize,
    op: usize,
    start: usize,
    starts: &mut [u16; 64],
    rows: &mut [u64],
) -> Result<Reply, Refusal>
    requires { Board file.now interval horizon starts.old rows.old }
    ensures { Did (model.force op start) file.now interval horizon starts.old rows.old starts.new rows.new result }
{
    forceable(file, interval, horizon, op, start, starts)?;
    let mask = displace(file, op, start, interval, starts, rows);
    put(file, op, start, interval, starts, rows);
    Ok(Reply::Displaced(mask))
}

// Takes out each operation that is in the way of `op` at `start`, and tells them by a bit each. Where the rows are free for `op`, no placed operation conflicts with it, and none is tested for that.
fn displace(
    file: &[u8],
    op: usize,
    start: usize,
    interval: usize,
    starts: &mut [u16; 64],
    rows: &mut [u64],
) -> u64
    requires { Board file.now interval 4096 starts.old rows.old × (op < size (loop_of file.now)) × (get_or starts.old op 65535 ≡ 65535) × (start < 4096) }
    ensures { Cleared file.now interval op start (size (loop_of file.now)) starts.old rows.old starts.new rows.new result }
{
    let hits = mark_broken(file, op, start, interval, starts);
    let free = is_free(file, op, first_use(file, op), start, interval, rows);
    let mut mask = 0u64;
    for p in 0..op_count(file) {
        if in_the_way(file, op, start, p, interval, free, starts, &hits) {
            lift(file, p, interval, starts, rows);
            mask |= 1 << p;
        }
    }
    mask
}

// Marks each operation that has a dependence with `op` which `op` at `start` breaks: one walk over the dependences.
fn mark_broken(
    file: &[u8],
    op: usize,
    start: usize,
    interval: usize,
    starts: &[u16; 64],
) -> [bool; 64]
    requires { Named file.now starts.now × (start < 4096) × (interval ≤ 4096) }
    ensures { HitsAre (loop_of file.now) interval op start (length (loop_of file.now).deps) starts.now result }
{
    let mut hits = [false; 64];
    for e in 0..dep_count(file) {
        if breaks_at(file, e, op, start, interval, starts) {
            let from = source(file, e);
            let other = if from == op { target(file, e) } else { from };
            hits[other] = true;
        }
    }
    hits
}

// Whether operation p is in the way of `op` at `start`: it is placed, and the two conflict or a dependence between them is broken. `free` says that no placed operation conflicts with `op` there.
fn in_the_way(
    file: &[u8],
    op: usize,
    start: usize,
    p: usize,
    interval: usize,
    free: bool,
    starts: &[u16; 64],
    hits: &[bool; 64],
) -> bool
    requires { MarkKnown file.now interval op start p free starts.now hits.now }
    ensures { result ≡ model.in_the_way (setup_as file.now interval 0) (starts_of (size (loop_of file.now)) starts.now) op start p }
{
    let other = starts[p];
    other != NOT_PLACED
        && (hits[p] || (!free && overlap(file, op, start, p, other as usize, interval)))
}

// Makes the starts those that are wanted, and the rows theirs: what differs is taken out first and put in then, and nothing else is touched.
pub fn restore(
    file: &[u8],
    interval: usize,
    wanted: &[u16; 64],
    starts: &mut [u16; 64],
    rows: &mut [u64],
)
    requires { Board file.now interval 4096 starts.old rows.old × Sane (loop_of file.now) interval 4096 wanted.now }
    ensures { Restored file.now interval wanted.now rows.old starts.new rows.new }
{
    lift_others(file, interval, wanted, starts, rows);
    put_missing(file, interval, wanted, starts, rows);
}

// Takes out each operation that is not where it is wanted.
fn lift_others(
    file: &[u8],
    interval: usize,
    wanted: &[u16; 64],
    starts: &mut [u16; 64],
    rows: &mut [u64],
)
    requires { Board file.now interval 4096 starts.old rows.old × Sane (loop_of file.now) interval 4096 wanted.now }
    ensures { Thinned file.now interval (size (loop_of file.now)) wanted.now starts.old rows.old starts.new rows.new }
{
    for p in 0..op_count(file) {
        let start = starts[p];
        if start != NOT_PLACED && start != wanted[p] {
            lift(file, p, interval, starts, rows);
        }
    }
}

// Puts in each operation that is wanted and not placed, where the placed ones are where they are wanted.
fn put_missing(
    file: &[u8],
    interval: usize,
    wanted: &[u16; 64],
    starts: &mut [u16; 64],
    rows: &mut [u64],
)
    requires { Board file.now interval 4096 starts.old rows.old × Sane (loop_of file.now) interval 4096 wanted.now × Agrees 0 wanted.now starts.old }
    ensures { Restored file.now interval wanted.now rows.old starts.new rows.new }
{
    for p in 0..op_count(file) {
        let start = wanted[p];
        if starts[p] == NOT_PLACED && start != NOT_PLACED {
            put(file, p, start as usize, interval, starts, rows);
        }
    }
}
