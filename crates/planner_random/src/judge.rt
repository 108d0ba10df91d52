// What an exhaustive search over all lists of starts says of a loop, and whether an answer agrees with it.
use crate::outcome::{NoPlan, Outcome, UNWRITTEN};
use trial::drawn::Drawn;
use trial::lists;

// The number of lists of 4 starts below horizon 6; no loop has more.
const LISTS: usize = 1296;

// The smallest interval, from 1 to the cap, at which some list is legal.
pub fn smallest(d: Drawn) -> Option<usize> {
    (1..=d.interval)
        .find(|interval| lists::first_legal(d, *interval, LISTS).is_some())
        .map(usize::from)
}

// Whether the first n places have starts below the horizon, and the others are not written.
fn listed(starts: &[u16; 6], n: usize, horizon: u16) -> bool {
    starts.iter().take(n).all(|start| *start < horizon)
        && starts.iter().skip(n).all(|start| *start == UNWRITTEN)
}

// Whether the table is left as it has to be, and so is the list: with a schedule all starts, legal at its interval, else as it was. (What stands behind the starts plays no part in that: no operation uses a slot
// or has a dependence there.)
fn sound(d: Drawn, o: Outcome) -> bool {
    let right = match o.plan {
        Ok(plan) => {
            lists::fits(d, &o.starts, (plan.interval % 65536) as u16)
                && listed(&o.starts, d.n, d.horizon)
        }
        Err(_) => listed(&o.starts, 0, 0),
    };
    o.tidy && right
}

// Whether an answer with a budget that is never spent is right: the smallest interval, and it is said to be that; or no schedule was found because there is none.
pub fn exact(d: Drawn, o: Outcome, least: Option<usize>) -> bool {
    let right = match (o.plan, least) {
        (Ok(plan), Some(best)) => plan.interval == best && plan.smallest,
        (Err(NoPlan::Unschedulable | NoPlan::Cyclic), None) => true,
        _ => false,
    };
    right && sound(d, o)
}

// Whether an answer with a budget of one probe is right: the smallest interval, or one above it that is not said to be smallest; or none was found, because there is none or the budget was spent.
pub fn alone(d: Drawn, o: Outcome, least: Option<usize>) -> bool {
    let right = match (o.plan, least) {
        (Ok(plan), Some(best)) => {
            let above = best < plan.interval && plan.interval <= d.interval as usize;
            plan.interval == best || above && !plan.smallest
        }
        (Err(NoPlan::Unschedulable | NoPlan::Cyclic), None) => true,
        (Err(NoPlan::Spent), _) => true,
        _ => false,
    };
    right && sound(d, o)
}
