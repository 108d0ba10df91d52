// Two operations at given starts: whether they meet in a cell, and where first. Internal: each function asks for an accepted file, and for starts and an interval in range.
ghost use Rattle.std.specs.Prelude.{◌≡◌, false, ◌<◌, ◌≤◌, length, get_or};
ghost use Rattle.model.specs.Lists.{first};
ghost use Rattle.model.specs.Loop.{no_use, size, op_at, all_uses};
ghost use Rattle.model.specs.File.{loop_of, Accepted};
ghost use Rattle.model.specs.Legality as legality;
ghost use Rattle.model.specs.Counts.{single, used_by, taken_at, pair_clash};
ghost use Rattle.reservation.specs.Overlaps.{covers_cell, use_meets};
ghost use Rattle.reservation.specs.Place.{place_of, place_in_cycle, place_is};

use crate::Place;
use crate::test::covers_cycle;
use loop_access::{duration, first_use, offset, slot, use_count};

// Whether an operation started at `start` covers the slot in the row.
pub fn covers(
    file: &[u8],
    op: usize,
    start: usize,
    slot_: usize,
    row: usize,
    interval: usize,
) -> bool
    requires { Accepted file.now × (op < size (loop_of file.now)) × (start < 4096) × (row < interval) × (interval ≤ 4096) }
    ensures { result ≡ covers_cell interval (op_at (loop_of file.now) op) start slot_ row }
{
    let first = first_use(file, op);
    for u in first..first + use_count(file, op) {
        if slot(file, u) == slot_ {
            let begin = (start + offset(file, u)) % interval;
            if (row + interval - begin) % interval < duration(file, u) {
                return true;
            }
        }
    }
    false
}

// Whether a cycle of use u, of an operation started at `from`, meets operation b, started at `to`.
fn use_meets(file: &[u8], u: usize, from: usize, b: usize, to: usize, interval: usize) -> bool
    requires { Accepted file.now × (u < length (all_uses (loop_of file.now))) × (b < size (loop_of file.now)) × (from < 4096) × (to < 4096) × (1 ≤ interval) × (interval ≤ 4096) }
    ensures { result ≡ use_meets interval (op_at (loop_of file.now) b) from to (get_or (all_uses (loop_of file.now)) u no_use) }
{
    let begin = from + offset(file, u);
    let on = slot(file, u);
    for k in 0..duration(file, u) {
        if covers(file, b, to, on, (begin + k) % interval, interval) {
            return true;
        }
    }
    false
}

// Whether operation a, started at `from`, and operation b, started at `to`, conflict.
pub fn overlap(file: &[u8], a: usize, from: usize, b: usize, to: usize, interval: usize) -> bool
    requires { Accepted file.now × (a < size (loop_of file.now)) × (b < size (loop_of file.now)) × (from < 4096) × (to < 4096) × (1 ≤ interval) × (interval ≤ 4096) }
    ensures { result ≡ legality.conflict interval (op_at (loop_of file.now) a) from (op_at (loop_of file.now) b) to }
{
    let first = first_use(file, a);
    for u in first..first + use_count(file, a) {
        if use_meets(file, u, from, b, to, interval) {
            return true;
        }
    }
    false
}

// Whether use u, of an operation started at `to`, meets operation a, started at `from`, in cycle k.
fn shares(
    file: &[u8],
    a: usize,
    from: usize,
    u: usize,
    to: usize,
    k: usize,
    interval: usize,
) -> bool
    requires { Accepted file.now × (a < size (loop_of file.now)) × (u < length (all_uses (loop_of file.now))) × (from < 4096) × (to < 4096) × (k < 16) × (1 ≤ interval) × (interval ≤ 4096) }
    ensures { result ≡ taken_at single (used_by interval (op_at (loop_of file.now) a) from) false interval to k (get_or (all_uses (loop_of file.now)) u no_use) }
{
    covers_cycle(file, u, k) && covers(file, a, from, slot(file, u), (to + k) % interval, interval)
}

// The lowest slot in which operation b, started at `to`, meets operation a, started at `from`, in cycle k of b.
fn shared_in(
    file: &[u8],
    a: usize,
    from: usize,
    b: usize,
    to: usize,
    k: usize,
    interval: usize,
) -> Option<Place>
    requires { Accepted file.now × (a < size (loop_of file.now)) × (b < size (loop_of file.now)) × (from < 4096) × (to < 4096) × (k < 16) × (1 ≤ interval) × (interval ≤ 4096) }
    ensures { place_of result ≡ place_in_cycle k (first (taken_at single (used_by interval (op_at (loop_of file.now) a) from) false interval to k) (op_at (loop_of file.now) b).uses) }
{
    let first = first_use(file, b);
    for u in first..first + use_count(file, b) {
        if shares(file, a, from, u, to, k, interval) {
            return Some(Place {
                cycle: k,
                slot: slot(file, u),
            });
        }
    }
    None
}

// The first place in which operation b, started at `to`, meets operation a, started at `from`.
pub fn shared_place(
    file: &[u8],
    a: usize,
    from: usize,
    b: usize,
    to: usize,
    interval: usize,
) -> Option<Place>
    requires { Accepted file.now × (a < size (loop_of file.now)) × (b < size (loop_of file.now)) × (from < 4096) × (to < 4096) × (1 ≤ interval) × (interval ≤ 4096) }
    ensures { place_of result ≡ place_is (pair_clash interval (op_at (loop_of file.now) a) from (op_at (loop_of file.now) b) to) }
{
    for k in 0..16 {
        if let Some(place) = shared_in(file, a, from, b, to, k, interval) {
            return Some(place);
        }
    }
    None
}
