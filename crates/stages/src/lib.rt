// Stage, cycle and order of the operations of a schedule, and the stage count. The functions of the listing take any list and number: of an interval of 0, which
// no schedule has, and of operations past the list's end they give what the definitions say.
#![tactic(auto)]

ghost use Rattle.std.specs.Prelude.{◌≡◌, ◌<◌};
ghost use Rattle.model.specs.Loop.{size};
ghost use Rattle.model.specs.File.{loop_of, Accepted};
ghost use Rattle.model.specs.Search.{start_of, order_of, last_cycle, last_occupied, stage_count};
ghost use Rattle.model.specs.Search as model;
ghost use Rattle.stages.specs.Order.{comes_before};

use loop_access::{latency, op_count};

// The stage of a start: how many whole intervals are over before it.
pub fn stage(interval: usize, start: usize) -> usize
    ensures { result ≡ model.stage interval start }
{
    start.checked_div(interval).unwrap_or(0)
}

// The cycle of a start in its stage.
pub fn cycle(interval: usize, start: usize) -> usize
    ensures { result ≡ model.cycle interval start }
{
    start.checked_rem(interval).unwrap_or(start)
}

// The start of an operation, 0 past the list's end.
fn start_of(starts: &[u16], op: usize) -> usize
    ensures { (result ≡ start_of starts.now op) × (result < 65536) }
{
    starts.get(op).map_or(0, |s| usize::from(*s))
}

// Whether operation p, started at `other`, comes before operation `op`, started at `own`, in the same stage.
fn comes_before(interval: usize, own: usize, op: usize, other: usize, p: usize) -> bool
    ensures { result ≡ comes_before interval own op other p }
{
    stage(interval, other) == stage(interval, own)
        && (cycle(interval, other), p) < (cycle(interval, own), op)
}

// The order of an operation: how many come before it in its stage.
#[tactic(auto, using(model::proofs::Lists::count_next), unfolding(model::specs::Search::order_of, model::specs::Lists::count_if, model::specs::Lists::up_from))]
pub fn order(interval: usize, starts: &[u16], op: usize) -> usize
    ensures { result ≡ order_of interval starts.now op }
{
    let own = start_of(starts, op);
    let mut n = 0;
    for (p, start) in starts.iter().enumerate() {
        if comes_before(interval, own, op, usize::from(*start), p) {
            n += 1;
        }
    }
    n
}

// The last cycle that an operation occupies: as many from its start on as its latency says, at least one. Internal: asks for an accepted file and one of its
// operations.
#[tactic(auto, using(model::proofs::File::accepted_ok))]
fn last_cycle(file: &[u8], starts: &[u16], op: usize) -> usize
    requires { Accepted file.now × (op < size (loop_of file.now)) }
    ensures { (result ≡ last_cycle (loop_of file.now) starts.now op) × (result < 65600) }
{
    start_of(starts, op) + latency(file, op).saturating_sub(1)
}

// The last cycle that any operation occupies. Internal: asks for an accepted file.
#[tactic(auto, using(model::proofs::Sums::max_next), unfolding(model::specs::Search::last_occupied, model::specs::Lists::max_of, model::specs::Lists::up_from))]
fn last_occupied(file: &[u8], starts: &[u16]) -> usize
    requires { Accepted file.now }
    ensures { (result ≡ last_occupied (loop_of file.now) starts.now) × (result < 65600) }
{
    let mut most = 0;
    for o in 0..op_count(file) {
        most = most.max(last_cycle(file, starts, o));
    }
    most
}

// The stage count. Internal: asks for an accepted file.
#[tactic(auto, unfolding(model::specs::Search::stage_count))]
pub fn stage_count(file: &[u8], interval: usize, starts: &[u16]) -> usize
    requires { Accepted file.now }
    ensures { result ≡ stage_count (loop_of file.now) interval starts.now }
{
    stage(interval, last_occupied(file, starts)) + 1
}
