// The search for a schedule (document 01), and what a schedule says of each operation.
#![tactic(auto)]

mod attempt;
mod sweep;

ghost use Rattle.std.specs.Prelude.{◌≡◌};
ghost use Rattle.search.specs.Admitted.{Admitted};
ghost use Rattle.search.specs.Answer.{Searches};
ghost use Rattle.search.specs.Unsolved.{ended_number, ended_detail, ended_probes};
ghost use Rattle.search.specs.declared.Unsolved.TheVariants.{Refused};

use lower_bounds::Bounds;
use refusals::{Refusal, passed_on};

// A schedule: its interval, the two bounds, the stage count and the probes that it took. The starts are in the caller's list.
#[derive(Clone, Copy, Debug, PartialEq, Eq)]
pub struct Solution {
    pub interval: usize,
    pub resource: usize,
    pub recurrence: usize,
    pub stages: usize,
    pub probes: usize,
}

// Why there is no schedule: refusal 10, none exists up to the cap; refusal 11, the budget is spent, at an interval; both with the probes that were made. Or a refusal before any search.
#[derive(Clone, Copy, Debug, PartialEq, Eq)]
pub enum Unsolved {
    NoSchedule { cap: usize, probes: usize },
    BudgetSpent { interval: usize, probes: usize },
    Refused(Refusal),
}

impl From<Refusal> for Unsolved {
    ghost from_gives = { λ r e. e ≡ Refused r };

    fn from(refusal: Refusal) -> Unsolved {
        Unsolved::Refused(refusal)
    }
}

impl Unsolved {
    // The refusal's number in document 01's table.
    pub fn number(self) -> usize
        ensures { result ≡ ended_number self }
    {
        match self {
            Unsolved::NoSchedule { .. } => 10,
            Unsolved::BudgetSpent { .. } => 11,
            Unsolved::Refused(refusal) => refusal.number(),
        }
    }

    // Its detail.
    pub fn detail(self) -> usize
        ensures { result ≡ ended_detail self }
    {
        match self {
            Unsolved::NoSchedule { cap, .. } => cap,
            Unsolved::BudgetSpent { interval, .. } => interval,
            Unsolved::Refused(refusal) => refusal.detail(),
        }
    }

    // The probes that were made, 0 where no search was.
    pub fn probes(self) -> usize
        ensures { result ≡ ended_probes self }
    {
        match self {
            Unsolved::NoSchedule { probes, .. } | Unsolved::BudgetSpent { probes, .. } => probes,
            Unsolved::Refused(_) => 0,
        }
    }
}

// What is checked before a search or a plan is made: the file, the request, and the lengths of the lent list and table; then whether the loop has bounds. The number of operations and the bounds.
// (The three numbers of the request stay apart, here and below: the C interface takes them so, and a struct of them would be built only to be taken apart again.)
pub fn admitted(
    file: &[u8],
    cap: usize,
    horizon: usize,
    budget: usize,
    list: usize,
    rows: usize,
) -> Result<(usize, Bounds), Refusal>
    ensures { Admitted file.now cap horizon budget list rows result }
{
    let counts = loop_file::read(file)?;
    refusals::request(counts.operations, cap, horizon, budget, list, rows)?;
    let bounds = lower_bounds::lower(file)?;
    Ok((counts.operations, bounds))
}

// The search for any file, request, output list and scratch table. (Document 01 names `let .. else` for the refusals of entry points.)
pub fn search(
    file: &[u8],
    cap: usize,
    horizon: usize,
    budget: usize,
    list: &mut [u16],
    rows: &mut [u64],
) -> Result<Solution, Unsolved>
    ensures { Searches file.now cap horizon budget list.old rows.old result list.new rows.new }
{
    let checked = admitted(file, cap, horizon, budget, list.len(), rows.len());
    let Ok((n, bounds)) = checked else {
        return passed_on(checked);
    };
    attempt::attempt(file, n, bounds, cap, horizon, budget, list, rows)
}
