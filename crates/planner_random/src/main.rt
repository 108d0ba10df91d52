// 1,000 random small loops: the planner against an exhaustive search over all lists of starts (in `judge`), which takes nothing from the library. A list that is found has to be legal by the plain picture and
// the dependences, and its interval the smallest. Each loop is planned a second time with a budget of one probe, with which the exact search finds no list of two or more starts: a schedule is then the heuristic's
// own. It is held to the same legality, and how often it has the smallest interval is counted.
#![tactic(auto)]

mod drawing;
mod judge;
mod outcome;

use outcome::{NoPlan, Outcome};
use trial::tally::more;

// What is counted, in the order of the line that prints it: the loops that agree, and all; the answers of each kind; and those of the heuristic alone, where there is a schedule.
#[derive(Clone, Copy)]
enum Count {
    Agree,
    All,
    Found,
    AboveBounds,
    Unschedulable,
    Cyclic,
    Smallest,
    AboveSmallest,
    NoneFound,
}

// The generator's state, and the counts.
#[derive(Drop)]
struct Tally {
    seed: usize,
    counts: [usize; 9],
}

// The count that an answer belongs to.
fn kind(o: Outcome) -> Option<Count> {
    match o.plan {
        Ok(_) => Some(Count::Found),
        Err(NoPlan::Unschedulable) => Some(Count::Unschedulable),
        Err(NoPlan::Cyclic) => Some(Count::Cyclic),
        Err(_) => None,
    }
}

// The narrower count: of a schedule above the bounds.
fn narrower(o: Outcome) -> Option<Count> {
    match o.plan {
        Ok(plan) if plan.bound < plan.interval => Some(Count::AboveBounds),
        _ => None,
    }
}

// The count of the heuristic alone, where there is a schedule: the smallest interval, one above it, or none.
fn by_heuristic(o: Outcome, least: Option<usize>) -> Option<Count> {
    let best = least?;
    Some(match o.plan {
        Ok(plan) if best < plan.interval => Count::AboveSmallest,
        Ok(_) => Count::Smallest,
        Err(_) => Count::NoneFound,
    })
}

// The interval of a schedule, or 0, as a line prints it.
fn interval(o: Outcome) -> usize {
    match o.plan {
        Ok(plan) => plan.interval,
        Err(_) => 0,
    }
}

// Says that a loop does not agree, with its smallest interval, the planner's and the heuristic's.
fn differ(i: usize, least: Option<usize>, planned: Outcome, alone: Outcome) {
    let numbers = [i, least.unwrap_or(0), interval(planned), interval(alone)];
    console::list(b"loop %: differ, at % and % and %\n", &numbers);
}

// The tally with loop i, which is drawn from its state.
fn with(t: Tally, i: usize) -> Tally {
    let d = drawing::draw(t.seed);
    let least = judge::smallest(d);
    let o = outcome::planned(d, 1000000);
    let quick = outcome::planned(d, 1);
    let agrees = judge::exact(d, o, least) && judge::alone(d, quick, least);
    if !agrees {
        differ(i, least, o, quick);
    }
    let kinds = [
        agrees.then_some(Count::Agree),
        Some(Count::All),
        kind(o),
        narrower(o),
        by_heuristic(quick, least),
    ];
    let counts = kinds
        .into_iter()
        .flatten()
        .fold(t.counts, |counts, kind| more(counts, kind as usize));
    Tally {
        seed: d.seed,
        counts,
    }
}

// A line for each 100 loops, with those before them.
fn main() {
    let mut t = Tally {
        seed: 1,
        counts: [0; 9],
    };
    for i in 0..1000 {
        t = with(t, i);
        if i % 100 == 99 {
            console::list(
                b"% of % agree: found % (% above the bounds), none %, cyclic %; the heuristic alone: smallest %, above %, none %\n",
                &t.counts,
            );
        }
    }
}
