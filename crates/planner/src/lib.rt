// The planner: a schedule without a search where that is quick, and the smallest where that is proved. Iterative modulo scheduling finds a legal list, mostly at the larger bound, below which there is none;
// where it does not meet the bound, the exact search goes through the intervals below what was found.
#![tactic(auto)]

ghost use Rattle.std.specs.Prelude.{◌≡◌, length};
ghost use Rattle.planner.specs.Answer.{Plans};
ghost use Rattle.planner.specs.Parts.{cap_below, PlanMade, Keepable, Keeps};
ghost use Rattle.search.specs.Admitted.{AllPassed};

use iterative::place_all;
use lower_bounds::Bounds;
use refusals::passed_on;
use reservation::NOT_PLACED;
use reservation::clear::clear_rows;
use reservation::memory::write_list;
use search::{Unsolved, admitted};
use stages::stage_count;

// A schedule: its interval, the two bounds, the stage count, and whether no smaller interval has one. The starts are in the caller's list.
#[derive(Clone, Copy, Debug, PartialEq, Eq)]
pub struct PlanFound {
    pub interval: usize,
    pub resource: usize,
    pub recurrence: usize,
    pub stages: usize,
    pub smallest: bool,
}

// The plan for any file, request, output list and scratch table. The budget is that of the exact search, where one is made. (Document 01 names `let .. else` for the refusals of entry points.)
pub fn plan(
    file: &[u8],
    cap: usize,
    horizon: usize,
    budget: usize,
    list: &mut [u16],
    rows: &mut [u64],
) -> Result<PlanFound, Unsolved>
    ensures { Plans file.now cap horizon budget list.old rows.old result list.new rows.new }
{
    let checked = admitted(file, cap, horizon, budget, list.len(), rows.len());
    let Ok((n, bounds)) = checked else {
        return passed_on(checked);
    };
    make(file, n, bounds, cap, horizon, budget, list, rows)
}

// The plan of a file that has passed every check: first the quick list, then, unless that met the larger bound, the exact search of the intervals below it.
fn make(
    file: &[u8],
    n: usize,
    bounds: Bounds,
    cap: usize,
    horizon: usize,
    budget: usize,
    list: &mut [u16],
    rows: &mut [u64],
) -> Result<PlanFound, Unsolved>
    requires { AllPassed file.now n bounds cap horizon budget (length list.old) (length rows.old) }
    ensures { PlanMade file.now bounds cap horizon budget list.old rows.old result list.new rows.new }
{
    let least = bounds.larger();
    let mut starts = [NOT_PLACED; 64];
    let quick = place_all(file, n, least, cap, horizon, &mut starts, rows);
    if quick == Some(least) {
        clear_rows(rows, 4096);
        return Ok(keep(file, n, bounds, least, true, &starts, list));
    }
    match search::search(file, below(quick, cap), horizon, budget, list, rows) {
        Ok(found) => Ok(PlanFound {
            interval: found.interval,
            resource: bounds.resource,
            recurrence: bounds.recurrence,
            stages: found.stages,
            smallest: true,
        }),
        Err(unsolved) => {
            let Some(interval) = quick else {
                return Err(unsolved);
            };
            let smallest = matches!(unsolved, Unsolved::NoSchedule { .. });
            Ok(keep(file, n, bounds, interval, smallest, &starts, list))
        }
    }
}

// The cap of the exact search: one below the interval that was found, or the cap itself where none was.
fn below(quick: Option<usize>, cap: usize) -> usize
    ensures { result ≡ cap_below quick cap }
{
    quick.map_or(cap, |interval| interval.saturating_sub(1))
}

// Writes the list that was found, and says so.
fn keep(
    file: &[u8],
    n: usize,
    bounds: Bounds,
    interval: usize,
    smallest: bool,
    starts: &[u16; 64],
    list: &mut [u16],
) -> PlanFound
    requires { Keepable file.now n starts.now list.old }
    ensures { Keeps file.now n bounds interval smallest starts.now list.old result list.new }
{
    write_list(list, starts, n);
    PlanFound {
        interval,
        resource: bounds.resource,
        recurrence: bounds.recurrence,
        stages: stage_count(file, interval, starts),
        smallest,
    }
}
