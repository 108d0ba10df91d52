// Attempts at one interval: operations are put and displaced until all are placed. Whatever is put where, the rows stay the table of the starts, and the starts legal. Internal: asks for an accepted file and for numbers
// and lengths in range.
ghost use Rattle.std.specs.Prelude.{◌≡◌, ◌<◌};
ghost use Rattle.model.specs.Loop.{size};
ghost use Rattle.model.specs.File.{loop_of};
ghost use Rattle.board.specs.Board.{Board};
ghost use Rattle.iterative.specs.Placed.{IntervalReady, Kept, PutAll, AttemptLeaves};

use crate::priority::{Direction, paths, pick, rank_all};
use crate::timing::choose_start;
use board::moves::force;
use reservation::NOT_PLACED;
use reservation::clear::clear_rows;

// One step: puts `op`, on the grid or at any start, and takes out what is in its way; whether there is a start for it below the horizon. again[i] is the first start after the last one that operation i had, 0 at first.
#[tactic(auto, using(board::proofs::Boards::few_operations))]
fn step(
    file: &[u8],
    op: usize,
    gridded: bool,
    interval: usize,
    horizon: usize,
    again: &mut [u16; 64],
    starts: &mut [u16; 64],
    rows: &mut [u64],
) -> bool
    requires { Board file.now interval horizon starts.old rows.old × (op < size (loop_of file.now)) }
    ensures { Kept file.now interval horizon rows.old starts.new rows.new }
{
    let Some(start) = choose_start(
        file,
        op,
        usize::from(again[op]),
        gridded,
        interval,
        horizon,
        starts,
        rows,
    ) else {
        return false;
    };
    // The answer is not read: where it is a refusal, `op` stays without a start, as `pick` sees.
    let _ = force(file, interval, horizon, op, start, starts, rows);
    again[op] = (start + 1) as u16;
    true
}

// Steps in the order of an attempt, 10 an operation at most; whether all operations are placed. The order also says whether they are put on the grid: four orders are not, the next four are, and so on.
#[tactic(auto, using(board::proofs::Boards::few_operations))]
fn put_all(
    file: &[u8],
    n: usize,
    interval: usize,
    horizon: usize,
    order: usize,
    high: &[u16; 64],
    early: &[u16; 64],
    starts: &mut [u16; 64],
    rows: &mut [u64],
) -> bool
    requires { Board file.now interval horizon starts.old rows.old × (n ≡ size (loop_of file.now)) }
    ensures { PutAll file.now n interval horizon rows.old starts.new rows.new result }
{
    let mut ranks = [0u32; 64];
    rank_all(file, n, order, high, early, &mut ranks);
    let gridded = order / 4 % 2 == 1;
    let mut again = [0u16; 64];
    for _ in 0..10 * n {
        let Some(op) = pick(n, starts, &ranks) else {
            return true;
        };
        if !step(
            file, op, gridded, interval, horizon, &mut again, starts, rows,
        ) {
            return false;
        }
    }
    pick(n, starts, &ranks).is_none()
}

// An attempt in one order, from no operation placed on; whether all are placed in the end.
fn attempt(
    file: &[u8],
    n: usize,
    interval: usize,
    horizon: usize,
    order: usize,
    high: &[u16; 64],
    early: &[u16; 64],
    starts: &mut [u16; 64],
    rows: &mut [u64],
) -> bool
    requires { IntervalReady file.now n interval horizon starts.old rows.old }
    ensures { AttemptLeaves file.now n interval horizon starts.old rows.old starts.new rows.new result }
{
    clear_rows(rows, interval);
    *starts = [NOT_PLACED; 64];
    put_all(file, n, interval, horizon, order, high, early, starts, rows)
}

// Attempts in the first orders, so many as `tries` says, until one succeeds; whether one does. The paths that ranks go by are the same in all of them.
pub fn attempt_all(
    file: &[u8],
    n: usize,
    interval: usize,
    horizon: usize,
    tries: usize,
    starts: &mut [u16; 64],
    rows: &mut [u64],
) -> bool
    requires { IntervalReady file.now n interval horizon starts.old rows.old }
    ensures { AttemptLeaves file.now n interval horizon starts.old rows.old starts.new rows.new result }
{
    let mut high = [0u16; 64];
    paths(file, n, interval, Direction::Backward, &mut high);
    let mut early = [0u16; 64];
    paths(file, n, interval, Direction::Forward, &mut early);
    for order in 0..tries {
        if attempt(
            file, n, interval, horizon, order, &high, &early, starts, rows,
        ) {
            return true;
        }
    }
    false
}
