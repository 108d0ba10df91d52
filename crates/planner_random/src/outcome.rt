// What the planner answers, and what it leaves.
use trial::drawn::Drawn;
use trial::file;
use trial::picture::UNTOUCHED;

// What a place of the list has before the call: no start, nor the number that stands for none.
pub const UNWRITTEN: u16 = 65534;

// A schedule: its interval, the larger bound, and whether it is said to be smallest.
#[derive(Clone, Copy)]
pub struct Plan {
    pub interval: usize,
    pub bound: usize,
    pub smallest: bool,
}

// Why there is no schedule: no interval up to the cap has one (refusal 10), the budget is spent (11), the dependences ask for more than any interval gives (8), or any other refusal.
#[derive(Clone, Copy)]
pub enum NoPlan {
    Unschedulable,
    Spent,
    Cyclic,
    Other,
}

// The answer, the list as it is left, and whether the table is left as it has to be.
#[derive(Clone, Copy)]
pub struct Outcome {
    pub plan: Result<Plan, NoPlan>,
    pub starts: [u16; 6],
    pub tidy: bool,
}

// What a refusal says, by its number, and what every row of the table has to be then: a plan that was made, and ended without a schedule, clears the table; one that was refused leaves it.
fn unplanned(number: usize) -> (NoPlan, u64) {
    match number {
        8 => (NoPlan::Cyclic, UNTOUCHED),
        10 => (NoPlan::Unschedulable, 0),
        11 => (NoPlan::Spent, 0),
        _ => (NoPlan::Other, UNTOUCHED),
    }
}

// What the planner makes of a loop with this budget. The table has no clear row before the call.
pub fn planned(d: Drawn, budget: usize) -> Outcome {
    let mut bytes = [0; 2000];
    let len = file::put_file(&mut bytes, d);
    let mut rows = [UNTOUCHED; 4096];
    let mut starts = [UNWRITTEN; 6];
    let answer = planner::plan(
        file::first(&bytes, len),
        d.interval as usize,
        d.horizon as usize,
        budget,
        &mut starts,
        &mut rows,
    );
    let (plan, row) = match answer {
        Ok(found) => {
            let plan = Plan {
                interval: found.interval,
                bound: found.resource.max(found.recurrence),
                smallest: found.smallest,
            };
            (Ok(plan), 0)
        }
        Err(unsolved) => {
            let (reason, row) = unplanned(unsolved.number());
            (Err(reason), row)
        }
    };
    let tidy = rows.iter().all(|r| *r == row);
    Outcome { plan, starts, tidy }
}
