// The sweep over the intervals. Internal: asks for an accepted file, and for rows of which the first 4,096 are clear.
ghost use Rattle.std.specs.Prelude.{◌≡◌};
ghost use Rattle.search.specs.Sweep.{Clear, SweptIs, Within};

use crate::Unsolved;
use descent::{Found, choose};

// The intervals from `least` to the cap in turn, with one budget for all: the interval at which a list is found, and the probes that were made.
pub fn sweep(
    file: &[u8],
    starts: &mut [u16; 64],
    rows: &mut [u64],
    n: usize,
    least: usize,
    cap: usize,
    horizon: usize,
    budget: usize,
) -> Result<(usize, usize), Unsolved>
    requires { Clear file.now starts.old rows.old n least cap horizon }
    ensures done { SweptIs file.now n least cap horizon budget starts.new result }
    ensures same { rows.new ≡ rows.old }
    ensures within { Within budget result }
{
    let mut left = budget;
    for ii in least..=cap {
        match choose(file, starts, rows, 0, n, ii, horizon, left) {
            Found::All(l) => return Ok((ii, budget - l)),
            Found::Spent => {
                return Err(Unsolved::BudgetSpent {
                    interval: ii,
                    probes: budget,
                });
            }
            Found::Nothing(l) => left = l,
        }
    }
    Err(Unsolved::NoSchedule {
        cap,
        probes: budget - left,
    })
}
