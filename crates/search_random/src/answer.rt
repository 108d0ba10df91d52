// An answer in a form of this program's own, so that two can be compared; and the library's in that form.
use crate::drawing::Request;
use search::{Solution, Unsolved};
use trial::drawn::NOWHERE;
use trial::file;

// A schedule: its interval, its two bounds, its stages, and the probes that were made.
#[derive(Clone, Copy, PartialEq)]
pub struct Schedule {
    pub interval: usize,
    pub resource: usize,
    pub recurrence: usize,
    pub stages: usize,
    pub probes: usize,
}

// A schedule; or none at any interval up to the cap (refusal 10), or at the intervals that the allowance suffices for (11), each with the probes that were made; or dependences that ask for more than
// any interval gives (8); or any other refusal.
#[derive(Clone, Copy, PartialEq)]
pub enum Outcome {
    Found(Schedule),
    Unschedulable { cap: usize, probes: usize },
    Spent { interval: usize, probes: usize },
    Cyclic,
    Other,
}

// An outcome with the starts; a place of the list that is not written keeps the largest number.
#[derive(Clone, Copy, PartialEq)]
pub struct Answer {
    pub outcome: Outcome,
    pub starts: [u16; 6],
}

// What the library's answer says.
fn said(answer: Result<Solution, Unsolved>) -> Outcome {
    match answer {
        Ok(s) => Outcome::Found(Schedule {
            interval: s.interval,
            resource: s.resource,
            recurrence: s.recurrence,
            stages: s.stages,
            probes: s.probes,
        }),
        Err(Unsolved::NoSchedule { cap, probes }) => Outcome::Unschedulable { cap, probes },
        Err(Unsolved::BudgetSpent { interval, probes }) => Outcome::Spent { interval, probes },
        Err(Unsolved::Refused(refusal)) if refusal.number() == 8 => Outcome::Cyclic,
        Err(Unsolved::Refused(_)) => Outcome::Other,
    }
}

// The library's answer. The table has no clear row before the call.
pub fn searched(r: Request) -> Answer {
    let d = r.drawn;
    let mut bytes = [0u8; 2000];
    let len = file::put_file(&mut bytes, d);
    let mut rows = [u64::MAX; 4096];
    let mut starts = [NOWHERE; 6];
    let answer = search::search(
        file::first(&bytes, len),
        d.interval as usize,
        d.horizon as usize,
        r.allowance,
        &mut starts,
        &mut rows,
    );
    Answer {
        outcome: said(answer),
        starts,
    }
}
