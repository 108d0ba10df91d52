// The starts that the rows exclude, many at a time. A use that meets a taken cell in its cycle k meets it at each of the next k starts too, until that cell lies before its
// first cycle; so the cycles of a use are looked at from the last one back. The number of the operation's first use, `first`, is handed in. Internal: each function asks
// for an accepted file and for rows that reach to the interval.
#![tactic(auto, using(crate::proofs::Skips::use_ok, crate::proofs::Skips::uses_free))]

ghost use Rattle.std.specs.Prelude.{◌<◌, ◌≤◌, length, get_or};
ghost use Rattle.model.specs.Loop.{no_use, op_at, all_uses};
ghost use Rattle.model.specs.File.{loop_of, Accepted};
ghost use Rattle.descent.specs.Skip.{RowBefore, RowsOf, UseExcluded, Excluded, NextFree};

use loop_access::{duration, offset, slot, use_count};

// The row before a row.
fn row_before(row: usize, interval: usize) -> usize
    requires { row < interval }
    ensures { RowBefore interval row result }
{
    if row == 0 { interval - 1 } else { row - 1 }
}

// How many starts from `start` on the rows exclude for use u of all; 0 where they leave it free at `start`. A use longer than the interval meets itself.
fn use_excluded(file: &[u8], u: usize, start: usize, interval: usize, rows: &[u64]) -> usize
    requires { Accepted file.now × (u < length (all_uses (loop_of file.now))) × (start ≤ 4096) × (1 ≤ interval) × (interval ≤ 4096) × (interval ≤ length rows.now) }
    ensures { UseExcluded interval rows.now start (get_or (all_uses (loop_of file.now)) u no_use) result }
{
    let place = slot(file, u) - 1;
    let from = start + offset(file, u);
    let n = duration(file, u);
    if interval < n {
        return 1;
    }
    let mut row = (from + n) % interval;
    for k in (0..n).rev() {
        row = row_before(row, interval);
        if (rows[row] >> place) & 1 == 1 {
            return k + 1;
        }
    }
    0
}

// The same for an operation: those of its first use that is not free.
pub fn excluded(
    file: &[u8],
    op: usize,
    first: usize,
    start: usize,
    interval: usize,
    rows: &[u64],
) -> usize
    requires { RowsOf file.now rows.now op first interval × (start ≤ 4096) }
    ensures { Excluded interval rows.now start (op_at (loop_of file.now) op).uses result }
{
    for j in 0..use_count(file, op) {
        let k = use_excluded(file, first + j, start, interval, rows);
        if 0 < k {
            return k;
        }
    }
    0
}

// The first of the starts from `from` to `to` - 1 at which the rows leave the operation free; `to` where there is none.
pub fn next_free(
    file: &[u8],
    op: usize,
    first: usize,
    from: usize,
    to: usize,
    interval: usize,
    rows: &[u64],
) -> usize
    requires { RowsOf file.now rows.now op first interval × (from ≤ to) × (to ≤ 4096) }
    ensures { NextFree interval rows.now (op_at (loop_of file.now) op).uses from to result }
{
    let mut s = from;
    while s < to {
        let k = excluded(file, op, first, s, interval, rows);
        if k == 0 {
            return s;
        }
        s += k;
    }
    to
}
