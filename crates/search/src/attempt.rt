// The search of a file that has passed every check. Internal: asks for that.
ghost use Rattle.std.specs.Prelude.{◌≡◌, length};
ghost use Rattle.search.specs.Admitted.{Passed};
ghost use Rattle.search.specs.Answer.{Attempted};

use crate::sweep::sweep;
use crate::{Solution, Unsolved};
use lower_bounds::Bounds;
use reservation::clear::clear_rows;
use reservation::memory::write_list;
use stages::stage_count;

// Clears the table, goes through the intervals, and writes the list where one is found. The starts are kept apart until then: the caller's list is not written without a schedule.
pub fn attempt(
    file: &[u8],
    n: usize,
    bounds: Bounds,
    cap: usize,
    horizon: usize,
    budget: usize,
    list: &mut [u16],
    rows: &mut [u64],
) -> Result<Solution, Unsolved>
    requires { Passed file.now n bounds.recurrence cap horizon (length list.old) (length rows.old) }
    ensures { Attempted file.now bounds cap horizon budget list.old rows.old result list.new rows.new }
{
    clear_rows(rows, 4096);
    let mut starts = [0u16; 64];
    let swept = sweep(
        file,
        &mut starts,
        rows,
        n,
        bounds.larger(),
        cap,
        horizon,
        budget,
    );
    let (interval, probes) = swept?;
    write_list(list, &starts, n);
    Ok(Solution {
        interval,
        resource: bounds.resource,
        recurrence: bounds.recurrence,
        stages: stage_count(file, interval, &starts),
        probes,
    })
}
