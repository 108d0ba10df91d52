// The answer to a drawn loop by going through all lists of starts, and the probes by their definition: all pairs of a legal list and a next start are looked at.
use crate::answer::{Answer, Outcome, Schedule};
use crate::drawing::Request;
use crate::lower::{recurrence, resource};
use trial::drawn::{Drawn, NOWHERE, latency};
use trial::lists::{first_legal, legal, word};

// The number of lists of 4 starts below horizon 5; no loop has more.
const LISTS: usize = 625;

// The pairs of k starts that count: the first k - 1 are legal, and the number of all k is not above the last one.
fn pairs(d: Drawn, k: usize, interval: u16, last: usize) -> usize {
    let h = (d.horizon as usize).max(1);
    (0..LISTS)
        .filter(|code| *code <= last && legal(d, *code / h, k, interval))
        .count()
}

// The probes at an interval: the pairs of all lengths, none after the beginning of the first legal list, where there is one. The number of a list without its last start is its own divided by the horizon; the largest number, which stands for none, is above all others then too.
fn probes_at(d: Drawn, interval: u16, first: Option<usize>) -> usize {
    let h = (d.horizon as usize).max(1);
    let mut last = first.unwrap_or(usize::MAX);
    let mut sum: usize = 0;
    for k in (0..d.n).rev() {
        sum = sum.wrapping_add(pairs(d, k, interval, last));
        last /= h;
    }
    sum
}

// The number of stages that hold all occupied cycles: the first cycle after them, divided by the interval and rounded up. An operation occupies as many cycles as its latency says, at least one.
fn stages(d: Drawn, starts: &[u16; 6], interval: u16) -> usize {
    let mut free = 0;
    for (op, start) in starts.iter().enumerate() {
        if *start != NOWHERE {
            let cycles = latency(d, op).max(1);
            free = cycles.wrapping_add(*start as usize).max(free);
        }
    }
    free.div_ceil((interval as usize).max(1))
}

// A refusal, which leaves no starts.
fn refused(outcome: Outcome) -> Answer {
    Answer {
        outcome,
        starts: [NOWHERE; 6],
    }
}

// What the intervals from the larger bound to the cap, which is 6 at most, come to. Where the probes exceed the allowance it is refusal 11, even if there is a list.
fn sweep(d: Drawn, allowance: usize, resource: usize, recurrence: usize) -> Answer {
    let mut probes: usize = 0;
    for interval in 1..=d.interval {
        let ii = interval as usize;
        if ii < resource.max(recurrence) {
            continue;
        }
        let first = first_legal(d, interval, LISTS);
        probes = probes.wrapping_add(probes_at(d, interval, first));
        if allowance < probes {
            let probes = allowance;
            return refused(Outcome::Spent {
                interval: ii,
                probes,
            });
        }
        if let Some(code) = first {
            let starts = word(code, d.n, d.horizon).starts;
            let schedule = Schedule {
                interval: ii,
                resource,
                recurrence,
                stages: stages(d, &starts, interval),
                probes,
            };
            return Answer {
                outcome: Outcome::Found(schedule),
                starts,
            };
        }
    }
    refused(Outcome::Unschedulable {
        cap: d.interval as usize,
        probes,
    })
}

// The answer.
pub fn sought(r: Request) -> Answer {
    let d = r.drawn;
    match recurrence(d) {
        Some(bound) => sweep(d, r.allowance, resource(d), bound),
        None => refused(Outcome::Cyclic),
    }
}
