// Where an operation is put: at the first start at which it is free, of one interval's worth from the earliest that its placed predecessors allow; else at that earliest, but later than the last time. In some attempts
// only starts on a grid count, so that operations that hold a slot for several cycles leave no gaps between them. Internal: asks for an accepted file and for starts and rows in range.
ghost use Rattle.std.specs.Prelude.{◌≡◌, ◌<◌, ◌≤◌, length};
ghost use Rattle.model.specs.Loop.{size, op_at, first_use_of};
ghost use Rattle.model.specs.File.{loop_of, Accepted};
ghost use Rattle.board.specs.Board.{Board, Sane};
ghost use Rattle.iterative.specs.Timing.{DueIs, EarliestStart, longest_of, width_of, on_grid, GridRows, SuitsIs, FirstFree, ToGrid, StartIs};

use descent::earliest;
use loop_access::{dep_count, duration, first_use, source, target, use_count};
use reservation::NOT_PLACED;
use reservation::test::is_free;

// How early dependence e lets `op` start: 0 where it does not lead to `op` from another operation that is placed.
#[tactic(auto, using(crate::proofs::Timings::ends_inside))]
fn due(file: &[u8], e: usize, op: usize, interval: usize, starts: &[u16; 64]) -> usize
    requires { Accepted file.now × (e < length (loop_of file.now).deps) × (interval ≤ 4096) × Sane (loop_of file.now) interval 4096 starts.now }
    ensures { DueIs (loop_of file.now) interval starts.now op e result }
{
    if target(file, e) != op {
        return 0;
    }
    let from = source(file, e);
    if from == op {
        return 0;
    }
    let start = starts[from];
    if start == NOT_PLACED {
        return 0;
    }
    earliest(file, e, usize::from(start), interval)
}

// The earliest start of `op` that its placed predecessors allow.
fn earliest_start(file: &[u8], op: usize, interval: usize, starts: &[u16; 64]) -> usize
    requires { Accepted file.now × (interval ≤ 4096) × Sane (loop_of file.now) interval 4096 starts.now }
    ensures { EarliestStart (loop_of file.now) interval starts.now op (length (loop_of file.now).deps) result }
{
    let mut from = 0;
    for e in 0..dep_count(file) {
        from = from.max(due(file, e, op, interval, starts));
    }
    from
}

// The longest of an operation's uses, and 1 where it has none.
fn longest(file: &[u8], op: usize) -> usize
    requires { Accepted file.now × (op < size (loop_of file.now)) }
    ensures { (result ≡ longest_of (loop_of file.now) op (length (op_at (loop_of file.now) op).uses)) × (result ≤ 16) }
{
    let first = first_use(file, op);
    let mut most = 1;
    for j in 0..use_count(file, op) {
        most = most.max(duration(file, first + j));
    }
    most
}

// The width of the grid on which an operation is put: that of its longest use, or 1, where any start is on it.
fn width_of(file: &[u8], op: usize, gridded: bool) -> usize
    requires { Accepted file.now × (op < size (loop_of file.now)) }
    ensures { (result ≡ width_of gridded (loop_of file.now) op) × (1 ≤ result) × (result ≤ 16) }
{
    if gridded { longest(file, op) } else { 1 }
}

// Whether a start is on the grid of a width: its row is a multiple of the width, and so many rows are left. Operations of one width that are put on its grid leave no gap between them that is too narrow for another.
fn on_grid(start: usize, interval: usize, width: usize) -> bool
    requires { (1 ≤ interval) × (interval ≤ 4096) × (1 ≤ width) × (width ≤ 16) }
    ensures { result ≡ on_grid interval width start }
{
    let row = start % interval;
    row % width == 0 && row + width <= interval
}

// Whether `op` may be put at `start`: that is on the grid, and the rows are free for it.
fn suits(
    file: &[u8],
    op: usize,
    first: usize,
    start: usize,
    interval: usize,
    width: usize,
    rows: &[u64],
) -> bool
    requires { GridRows file.now rows.now op interval width × (start ≤ 4096) × (first ≡ first_use_of (loop_of file.now) op) }
    ensures { SuitsIs (op_at (loop_of file.now) op) interval width rows.now start result }
{
    on_grid(start, interval, width) && is_free(file, op, first, start, interval, rows)
}

// The first start of `from`, .., `from` + interval - 1, below the horizon, that is on the grid and at which the rows are free for `op`, or none.
fn first_free(
    file: &[u8],
    op: usize,
    from: usize,
    interval: usize,
    horizon: usize,
    width: usize,
    rows: &[u64],
) -> Option<usize>
    requires { GridRows file.now rows.now op interval width × (horizon ≤ 4096) }
    ensures { FirstFree (op_at (loop_of file.now) op) interval horizon width from rows.now result }
{
    let first = first_use(file, op);
    let end = horizon.min(from.saturating_add(interval));
    (from..end).find(|s| suits(file, op, first, *s, interval, width, rows))
}

// The first start from `from` on, below the horizon, that is on the grid, or none.
fn to_grid(from: usize, interval: usize, horizon: usize, width: usize) -> Option<usize>
    requires { (1 ≤ interval) × (interval ≤ 4096) × (1 ≤ width) × (width ≤ 16) × (horizon ≤ 4096) }
    ensures { ToGrid interval horizon width from result }
{
    (from..horizon).find(|s| on_grid(*s, interval, width))
}

// Where `op` is put, or none where there is no place for it below the horizon; `again` is the first start after the last one that it had, and `gridded` says whether only starts on the grid of its longest use count.
pub fn choose_start(
    file: &[u8],
    op: usize,
    again: usize,
    gridded: bool,
    interval: usize,
    horizon: usize,
    starts: &[u16; 64],
    rows: &[u64],
) -> Option<usize>
    requires { Board file.now interval horizon starts.now rows.now × (op < size (loop_of file.now)) }
    ensures { StartIs (loop_of file.now) interval horizon gridded starts.now rows.now op again result }
{
    let width = width_of(file, op, gridded);
    let from = earliest_start(file, op, interval, starts);
    let free = first_free(file, op, from, interval, horizon, width, rows);
    let late = from.max(again);
    free.or_else(|| to_grid(late, interval, horizon, width))
}
