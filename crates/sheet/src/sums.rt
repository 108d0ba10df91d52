// What is added up over the files of a bundle, a file at a time.
ghost use Rattle.std.specs.Prelude.{◌≡◌, [], ◌≤◌};
ghost use Rattle.model.specs.File.{loop_of, Accepted};
ghost use Rattle.model.specs.Bounds.{total_on};
ghost use Rattle.sheet.specs.Sums.{sums_of, Small, bound_of, Each, Plus, Counted, Adds};

use lower_bounds::total_on;
use search::{Solution, Unsolved};

// The sums over the scheduled files: how many, how many at the larger bound, their intervals, and for slots 1 to 24 the durations on it, which are its covered cells. All cells of a slot are as many as the intervals come to.
#[derive(Clone, Copy, Debug, PartialEq, Eq)]
pub struct Sums {
    pub scheduled: usize,
    pub bound: usize,
    pub intervals: usize,
    pub used: [usize; 24],
}

// What the search answers for a file, and the sums with it.
#[derive(Clone, Copy)]
pub struct Added {
    pub answer: Result<Solution, Unsolved>,
    pub sums: Sums,
}

// Over no file.
#[tactic(auto, unfolding(model::specs::Sheet::total_of, model::specs::Lists::sum_of, model::specs::Lists::up_from))]
pub fn none() -> Sums
    ensures { result ≡ sums_of [] }
{
    Sums {
        scheduled: 0,
        bound: 0,
        intervals: 0,
        used: [0; 24],
    }
}

// 1 where the interval is the larger bound, else 0.
fn at_bound(s: Solution) -> usize
    ensures { result ≡ bound_of s }
{
    usize::from(s.interval == s.resource.max(s.recurrence))
}

// Adds to each slot's number the durations on it.
#[tactic(auto, using(crate::proofs::Additions::raises))]
fn add_used(file: &[u8], used: &mut [usize; 24])
    requires { Accepted file.now × Each used.old }
    ensures { Plus (total_on (loop_of file.now)) used.old used.new }
{
    for (k, sum) in used.iter_mut().enumerate() {
        *sum += total_on(file, k + 1);
    }
}

// The sums with a schedule of an accepted file.
fn with_schedule(sums: Sums, file: &[u8], s: Solution) -> Sums
    requires { Accepted file.now × Small sums × (s.interval ≤ 4096) }
    ensures { Counted (total_on (loop_of file.now)) s sums result }
{
    let mut used = sums.used;
    add_used(file, &mut used);
    Sums {
        scheduled: sums.scheduled + 1,
        bound: sums.bound + at_bound(s),
        intervals: sums.intervals + s.interval,
        used,
    }
}

// Schedules a file, with the numbers of loop A's program, and counts it in where a schedule is found; the starts are not told. Asks that the sums are small enough for one file more.
pub fn add_file(sums: Sums, file: &[u8], rows: &mut [u64]) -> Added
    requires { Small sums }
    ensures { Adds sums file.now rows.old result rows.new }
{
    let mut starts = [0u16; 64];
    let answer = search::search(file, 4096, 256, 1000000, &mut starts, rows);
    let sums = match answer {
        Ok(s) => with_schedule(sums, file, s),
        Err(_) => sums,
    };
    Added { answer, sums }
}
