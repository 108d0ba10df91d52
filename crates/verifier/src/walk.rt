// The walks over starts, dependences and pairs of operations. Internal: each asks for what the entry point has tested.
ghost use Rattle.std.specs.Prelude.{◌≡◌, [], ◌∷◌, ◌<◌, ◌≤◌, length, get_or};
ghost use Rattle.model.specs.Refusals.{first_refusal};
ghost use Rattle.model.specs.Loop.{no_use, size, op_at, all_uses};
ghost use Rattle.model.specs.File.{loop_of, Accepted};
ghost use Rattle.reservation.specs.Seats.{broken_of};
ghost use Rattle.reservation.specs.Place.{place_of, place_is};
ghost use Rattle.model.specs.Verifier.{late_start, first_broken, first_pair, pair_place};
ghost use Rattle.refusals.specs.Told.{refusal_of};
ghost use Rattle.verifier.specs.Answer.{pair_of};
ghost use Rattle.verifier.specs.Walk.{one_each, meets_at, Proposal};

use loop_access::{
    dep_count, duration, first_use, offset, op_count, slot, source, target, use_count,
};
use refusals::Refusal;
use reservation::Place;
use reservation::deps::dep_holds;
use reservation::pairs::{covers, shared_place};
use reservation::test::own_place;

// The first of n starts that is not below 4,096 is refused.
pub fn first_late(starts: &[u16], n: usize) -> Result<(), Refusal>
    requires { n ≤ length starts.now }
    ensures { refusal_of result ≡ first_refusal (late_start starts.now n ∷ []) }
{
    match starts[..n].iter().position(|start| 4096 <= *start) {
        Some(op) => Err(Refusal::Start(op)),
        None => Ok(()),
    }
}

// The first dependence that the starts break.
#[tactic(auto, using(reservation::proofs::Ranges::ranges, crate::proofs::Starts::kept_until, crate::proofs::Starts::kept_all))]
pub fn first_broken(file: &[u8], interval: usize, starts: &[u16]) -> Option<usize>
    requires { Accepted file.now × Proposal (loop_of file.now) interval starts.now }
    ensures { broken_of result ≡ first_broken (loop_of file.now) interval (one_each (loop_of file.now) starts.now) }
{
    for e in 0..dep_count(file) {
        let from = starts[source(file, e)] as usize;
        let to = starts[target(file, e)] as usize;
        if !dep_holds(file, e, from, to, interval) {
            return Some(e);
        }
    }
    None
}

// Whether cycle k of use u of operation a, started at `from`, meets operation b, started at `to`.
fn meets(
    file: &[u8],
    a: usize,
    b: usize,
    from: usize,
    to: usize,
    u: usize,
    k: usize,
    interval: usize,
) -> bool
    requires { Accepted file.now × (b < size (loop_of file.now)) × (u < length (all_uses (loop_of file.now))) × (from < 4096) × (to < 4096) × (k < 16) × (1 ≤ interval) × (interval ≤ 4096) }
    ensures { result ≡ meets_at interval a b (op_at (loop_of file.now) b) from to (get_or (all_uses (loop_of file.now)) u no_use) k }
{
    if a == b {
        interval <= k
    } else {
        let row = (from + offset(file, u) + k) % interval;
        covers(file, b, to, slot(file, u), row, interval)
    }
}

// The first pair of operations that conflicts, pairs (a, b) with a not above b in dictionary order: a walk over pairs, uses and cycles that is left at the
// first conflict, by the label that document 01 names for it.
#[tactic(auto, using(reservation::proofs::Ranges::ranges, crate::proofs::Pairs::beside_next, crate::proofs::Pairs::walk_none))]
pub fn first_pair(file: &[u8], interval: usize, starts: &[u16]) -> Option<(usize, usize)>
    requires { Accepted file.now × Proposal (loop_of file.now) interval starts.now }
    ensures { pair_of result ≡ first_pair (loop_of file.now) interval (one_each (loop_of file.now) starts.now) }
{
    let n = op_count(file);
    let mut found = None;
    'pairs: for a in 0..n {
        let from = starts[a] as usize;
        let first = first_use(file, a);
        let end = first + use_count(file, a);
        for b in a..n {
            let to = starts[b] as usize;
            for u in first..end {
                for k in 0..duration(file, u) {
                    if meets(file, a, b, from, to, u, k, interval) {
                        found = Some((a, b));
                        break 'pairs;
                    }
                }
            }
        }
    }
    found
}

// The first place in which operation b of a pair meets a or, where they are one operation, itself.
#[tactic(auto, using(reservation::proofs::Ranges::ranges, crate::proofs::Pairs::pair_two, crate::proofs::Pairs::pair_own))]
pub fn place_of(file: &[u8], interval: usize, starts: &[u16], a: usize, b: usize) -> Option<Place>
    requires { Accepted file.now × Proposal (loop_of file.now) interval starts.now × (a ≤ b) × (b < size (loop_of file.now)) }
    ensures { place_of result ≡ place_is (pair_place (loop_of file.now) interval (one_each (loop_of file.now) starts.now) (a, b)) }
{
    if a < b {
        shared_place(file, a, starts[a] as usize, b, starts[b] as usize, interval)
    } else {
        own_place(file, b, first_use(file, b), interval)
    }
}
