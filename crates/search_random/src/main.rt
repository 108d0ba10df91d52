// 1,000 random small loops: the search against an exhaustive one over all lists of starts (in `words`), which takes nothing from the library. It compares the answer, with its
// bounds, stages and probes, and the list.
#![tactic(auto)]

mod answer;
mod drawing;
mod lower;
mod words;

use answer::Outcome;
use trial::tally::more;

// What is counted, in the order of the line that prints it: the loops that agree, and all; and the answers of each kind.
#[derive(Clone, Copy)]
enum Count {
    Agree,
    All,
    Found,
    AboveBounds,
    Unschedulable,
    NothingTried,
    Spent,
    Cyclic,
    Other,
}

// The generator's state, and the counts.
#[derive(Drop)]
struct Tally {
    seed: usize,
    counts: [usize; 9],
}

// The count that an answer belongs to.
fn kind(outcome: Outcome) -> Count {
    match outcome {
        Outcome::Found(_) => Count::Found,
        Outcome::Unschedulable { .. } => Count::Unschedulable,
        Outcome::Spent { .. } => Count::Spent,
        Outcome::Cyclic => Count::Cyclic,
        Outcome::Other => Count::Other,
    }
}

// The narrower count: a schedule above the bounds, or no schedule after no probes, where the cap is below the bounds.
fn narrower(outcome: Outcome) -> Option<Count> {
    match outcome {
        Outcome::Found(s) if s.interval != s.resource && s.interval != s.recurrence => {
            Some(Count::AboveBounds)
        }
        Outcome::Unschedulable { probes: 0, .. } => Some(Count::NothingTried),
        _ => None,
    }
}

// The tally with loop i, which is drawn from its state. Of one that does not agree a line says so.
fn with(t: Tally, i: usize) -> Tally {
    let r = drawing::draw(t.seed);
    let found = answer::searched(r);
    let agrees = found == words::sought(r);
    if !agrees {
        console::list(b"loop %: differ\n", &[i]);
    }
    let kinds = [
        agrees.then_some(Count::Agree),
        Some(Count::All),
        Some(kind(found.outcome)),
        narrower(found.outcome),
    ];
    let counts = kinds
        .into_iter()
        .flatten()
        .fold(t.counts, |counts, kind| more(counts, kind as usize));
    Tally {
        seed: r.drawn.seed,
        counts,
    }
}

// A line for each 100 loops, with those before them.
fn main() {
    let mut t = Tally {
        seed: 1,
        counts: [0; 9],
    };
    for i in 0..1000 {
        t = with(t, i);
        if i % 100 == 99 {
            console::list(
                b"% of % agree: found % (% above the bounds), none % (% with no interval to try), spent %, cyclic %, other %\n",
                &t.counts,
            );
        }
    }
}
