// The release sheet (document 02, order 6): the files of a bundle scheduled one after the other, with the numbers of loop A's program, and what is added up over them.
#![tactic(auto)]

pub mod fraction;
pub mod sums;

ghost use Rattle.std.specs.Prelude.{◌≡◌, ◌*◌, ◌≤◌, ◌<◌, length};
ghost use Rattle.model.specs.Lists.{written};
ghost use Rattle.model.specs.Bundle.{files};
ghost use Rattle.sheet.specs.Lines.{line_of};
ghost use Rattle.sheet.specs.Sums.{Small};
ghost use Rattle.sheet.specs.Answer.{AddsLine, Walked, Sheets};

use crate::fraction::write_slots;
use crate::sums::{Sums, add_file, none};
use refusals::{Refusal, passed_on};
use search::{Solution, Unsolved};

// The totals: how many files there are, how many are scheduled, how many of those are at the larger bound, and the sum of their intervals. How much each slot is used is in the caller's array.
#[derive(Clone, Copy, Debug, PartialEq, Eq)]
pub struct Totals {
    pub files: usize,
    pub scheduled: usize,
    pub bound: usize,
    pub intervals: usize,
}

// The eight numbers of a file's line: its schedule, or its refusal. The last of them is 0.
fn line(answer: Result<Solution, Unsolved>) -> [u64; 8]
    ensures { result ≡ line_of answer }
{
    match answer {
        Ok(s) => [
            0,
            0,
            s.interval as u64,
            s.resource as u64,
            s.recurrence as u64,
            s.stages as u64,
            s.probes as u64,
            0,
        ],
        Err(unsolved) => [
            unsolved.number() as u64,
            unsolved.detail() as u64,
            0,
            0,
            0,
            0,
            unsolved.probes() as u64,
            0,
        ],
    }
}

// The line of file i.
#[tactic(auto, using(crate::proofs::Lines::part_written))]
fn write_line(lines: &mut [u64; 256], i: usize, answer: Result<Solution, Unsolved>)
    requires { i < 32 }
    ensures { lines.new ≡ written (8 * i) (line_of answer) lines.old }
{
    lines[8 * i..8 * i + 8].copy_from_slice(&line(answer));
}

// One file more: its answer is told in its line, and counted in.
#[tactic(auto, using(crate::proofs::Walks::adds_line))]
fn add_line(sums: Sums, i: usize, file: &[u8], lines: &mut [u64; 256], rows: &mut [u64]) -> Sums
    requires { (i < 32) × Small sums }
    ensures { AddsLine sums i file.now lines.old rows.old result lines.new rows.new }
{
    let added = add_file(sums, file, rows);
    write_line(lines, i, added.answer);
    added.sums
}

// The n files of a bundle, one after the other: the sums over them, and a line for each.
#[tactic(auto, using(crate::proofs::Walks::turns))]
fn walk(bundle: &[u8], n: usize, lines: &mut [u64; 256], rows: &mut [u64]) -> Sums
    requires { (n ≡ length (files bundle.now)) × (4096 ≤ length rows.old) }
    ensures { Walked bundle.now lines.old rows.old result lines.new rows.new }
{
    let mut sums = none();
    for i in 0..n {
        sums = add_line(sums, i, bundle::file(bundle, i), lines, rows);
    }
    sums
}

// The sheet of any bytes: the totals; a line for each file and a fraction for each slot in the caller's arrays. The table is scratch. (Document 01 names `let .. else` for the refusals of entry points.)
pub fn total(
    bundle: &[u8],
    lines: &mut [u64; 256],
    slots: &mut [u64; 48],
    rows: &mut [u64],
) -> Result<Totals, Refusal>
    ensures { Sheets bundle.now lines.old slots.old rows.old result lines.new slots.new rows.new }
{
    let read = bundle::read(bundle);
    let Ok(files) = read else {
        return passed_on(read);
    };
    let by_rows = refusals::lent(4096, rows.len());
    let Ok(()) = by_rows else {
        return passed_on(by_rows);
    };
    let sums = walk(bundle, files, lines, rows);
    write_slots(sums, slots);
    Ok(Totals {
        files,
        scheduled: sums.scheduled,
        bound: sums.bound,
        intervals: sums.intervals,
    })
}
