// The window of an operation: the starts that its dependences with itself and with earlier operations allow. It is worked out once for each operation chosen, so that the
// starts outside it are paid for at once. Internal: each function asks for an accepted file.
#![tactic(auto, using(model::proofs::File::accepted_ok, reservation::proofs::Ranges::ranges))]

ghost use Rattle.std.specs.Prelude.{◌≡◌, ◌<◌, ◌≤◌, ◌↔◌, IsTrue, length, take};
ghost use Rattle.model.specs.Loop.{size};
ghost use Rattle.model.specs.File.{loop_of, Accepted};
ghost use Rattle.descent.specs.Span.{EarliestIs, TooLateIs, NarrowedIs, Windowed, Early};
ghost use Rattle.descent.specs.Links.{later_end, Linked};

use loop_access::{delay, dep_count, distance, source, target};

// The starts from `from` to `to` - 1.
#[derive(Clone, Copy)]
pub struct Window {
    pub from: usize,
    pub to: usize,
}

impl Window {
    // Whether it has no start.
    pub fn is_empty(self) -> bool
        ensures { IsTrue result ↔ self.to ≤ self.from }
    {
        self.to <= self.from
    }
}

// The first start of dependence e's target that it allows, with its source at `start`.
pub fn earliest(file: &[u8], e: usize, start: usize, interval: usize) -> usize
    requires { Accepted file.now × (e < length (loop_of file.now).deps) × (start < 4096) × (interval ≤ 4096) }
    ensures { EarliestIs (loop_of file.now) interval e start result }
{
    let lag = interval * distance(file, e);
    let due = start as i32 + delay(file, e) - lag as i32;
    if due < 0 { 0 } else { due as usize }
}

// The first start of dependence e's source that it does not allow, with its target at `start`.
fn too_late(file: &[u8], e: usize, start: usize, interval: usize) -> usize
    requires { Accepted file.now × (e < length (loop_of file.now).deps) × (start < 4096) × (interval ≤ 4096) }
    ensures { TooLateIs (loop_of file.now) interval e start result }
{
    let lag = interval * distance(file, e);
    let last = start as i32 + lag as i32 - delay(file, e);
    if last < 0 { 0 } else { last as usize + 1 }
}

// The window, narrowed by dependence e where it is one of the operation with itself or an earlier one.
fn narrowed(
    file: &[u8],
    e: usize,
    op: usize,
    starts: &[u16; 64],
    interval: usize,
    w: Window,
) -> Window
    requires { Accepted file.now × (e < length (loop_of file.now).deps) × (op < size (loop_of file.now)) × (op ≤ length starts.now) × Early op starts.now × (interval ≤ 4096) }
    ensures { NarrowedIs (loop_of file.now) interval (take op starts.now) e w.from w.to result.from result.to }
{
    let from = source(file, e);
    let to = target(file, e);
    if from == op && to == op {
        if too_late(file, e, 0, interval) == 0 {
            Window { to: 0, ..w }
        } else {
            w
        }
    } else if from == op && to < op {
        let end = too_late(file, e, usize::from(starts[to]), interval);
        Window {
            to: w.to.min(end),
            ..w
        }
    } else if to == op && from < op {
        let begin = earliest(file, e, usize::from(starts[from]), interval);
        Window {
            from: w.from.max(begin),
            ..w
        }
    } else {
        w
    }
}

// The later of the two operations of dependence e. It is chosen last, so it is the one whose window the dependence narrows.
fn later_end(file: &[u8], e: usize) -> usize
    requires { Accepted file.now × (e < length (loop_of file.now).deps) }
    ensures { result ≡ later_end (loop_of file.now) e }
{
    source(file, e).max(target(file, e))
}

// The dependences by their later operation, so that the window of one is found without those of the others. Entry o is the first dependence whose later operation is o,
// and entry 64 + e the next one after e with the same; where there is none, the number of all.
pub fn link(file: &[u8]) -> [u16; 320]
    requires { Accepted file.now }
    ensures { Linked (loop_of file.now) result }
{
    let m = dep_count(file);
    let mut links = [m as u16; 320];
    for e in (0..m).rev() {
        let o = later_end(file, e);
        links[64 + e] = links[o];
        links[o] = e as u16;
    }
    links
}

// The window of an operation among the starts below the horizon, from the dependences whose later operation it is. One that has no start lies at the horizon.
pub fn window_of(
    file: &[u8],
    links: &[u16; 320],
    op: usize,
    starts: &[u16; 64],
    interval: usize,
    horizon: usize,
) -> Window
    requires { Accepted file.now × Linked (loop_of file.now) links.now × (op < size (loop_of file.now)) × (op ≤ length starts.now) × Early op starts.now × (interval ≤ 4096) }
    ensures { Windowed (loop_of file.now) interval (take op starts.now) horizon result.from result.to }
{
    let m = dep_count(file);
    let mut w = Window {
        from: 0,
        to: horizon,
    };
    let mut e = usize::from(links[op]);
    while e < m {
        w = narrowed(file, e, op, starts, interval, w);
        e = usize::from(links[64 + e]);
    }
    if w.is_empty() {
        Window {
            from: horizon,
            to: horizon,
        }
    } else {
        w
    }
}
