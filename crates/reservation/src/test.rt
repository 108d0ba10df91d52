// The conflict test: an operation against the rows and against itself. It keeps no array of rows, and reads the row of a cycle once, for all uses. The number of the
// operation's first use, `first`, is handed in, as to the functions that reserve and release. Internal: it asks for that, for an accepted file, and for a start and an interval in range.
ghost use Rattle.std.specs.Prelude.{◌≡◌, ◌+◌, ◌<◌, ◌≤◌, length, get_or};
ghost use Rattle.model.specs.Loop.{no_use, size, op_at, all_uses, first_use_of};
ghost use Rattle.model.specs.File.{loop_of, Accepted};
ghost use Rattle.model.specs.Legality.{covers};
ghost use Rattle.model.specs.Table.{row_base};
ghost use Rattle.reservation.specs.Place.{met_by, met_in, cycles_of, cycle_is, first_met, place_of, place_is, OwnPlace, FreeIs};

use crate::Place;
use loop_access::{duration, offset, slot, use_count};

// Whether use u of all covers its slot in cycle k of its operation.
pub fn covers_cycle(file: &[u8], u: usize, k: usize) -> bool
    requires { Accepted file.now × (u < length (all_uses (loop_of file.now))) }
    ensures { result ≡ covers k (get_or (all_uses (loop_of file.now)) u no_use) }
{
    let from = offset(file, u);
    from <= k && k < from + duration(file, u)
}

// Whether use u of all meets a taken cell in cycle k of its operation, which falls into the row given.
fn taken(file: &[u8], u: usize, k: usize, interval: usize, row: u64) -> bool
    requires { Accepted file.now × (u < length (all_uses (loop_of file.now))) × (k < 16) × (interval ≤ 4096) }
    ensures { result ≡ met_by row_base interval row k (get_or (all_uses (loop_of file.now)) u no_use) }
{
    covers_cycle(file, u, k)
        && (offset(file, u) + interval <= k || (row >> (slot(file, u) - 1)) & 1 == 1)
}

// What the test of one cycle answers: the lowest slot in which the operation meets a taken cell; or that it meets none, and how many cycles the operation covers.
// Both cases carry an answer and neither is an error, so this is no Option and no Result.
#[derive(Drop)]
enum Cycle {
    Taken(usize),
    Free(usize),
}

// The test of cycle k, which falls into the row given. How many cycles the operation covers, which is the latest end of its uses, is found on the way.
fn taken_in(file: &[u8], op: usize, first: usize, k: usize, interval: usize, row: u64) -> Cycle
    requires { Accepted file.now × (op < size (loop_of file.now)) × (k < 16) × (interval ≤ 4096) × (first ≡ first_use_of (loop_of file.now) op) }
    ensures { result ≡ cycle_is (met_in row_base interval row k (op_at (loop_of file.now) op).uses) (cycles_of (op_at (loop_of file.now) op).uses) }
{
    let mut most = 0;
    for u in first..first + use_count(file, op) {
        if taken(file, u, k, interval, row) {
            return Cycle::Taken(slot(file, u));
        }
        let end = offset(file, u) + duration(file, u);
        most = most.max(end);
    }
    Cycle::Free(most)
}

// The first place in which the operation, started at `start`, meets a taken cell. Cycle 0 is always looked at; where it is free, its test says how many cycles there are
// to look at, mostly few of the 16 that there may be.
pub fn conflict(
    file: &[u8],
    op: usize,
    first: usize,
    start: usize,
    interval: usize,
    rows: &[u64],
) -> Option<Place>
    requires { Accepted file.now × (op < size (loop_of file.now)) × (start ≤ 4096) × (1 ≤ interval) × (interval ≤ 4096) × (interval ≤ length rows.now) × (first ≡ first_use_of (loop_of file.now) op) }
    ensures { place_of result ≡ place_is (first_met row_base interval rows.now start (op_at (loop_of file.now) op).uses) }
{
    let mut most = 1;
    let mut k = 0;
    // The test says where to stop, so no range of cycles is known before.
    while k < most {
        match taken_in(file, op, first, k, interval, rows[(start + k) % interval]) {
            Cycle::Taken(slot) => return Some(Place { cycle: k, slot }),
            Cycle::Free(cycles) => most = cycles,
        }
        k += 1;
    }
    None
}

// Whether the rows are free for the operation, started at `start`: it meets no taken cell, and not itself.
pub fn is_free(
    file: &[u8],
    op: usize,
    first: usize,
    start: usize,
    interval: usize,
    rows: &[u64],
) -> bool
    requires { Accepted file.now × (op < size (loop_of file.now)) × (start ≤ 4096) × (1 ≤ interval) × (interval ≤ 4096) × (interval ≤ length rows.now) × (first ≡ first_use_of (loop_of file.now) op) }
    ensures { FreeIs (op_at (loop_of file.now) op) interval start rows.now result }
{
    conflict(file, op, first, start, interval, rows).is_none()
}

// The first place in which the operation, wherever it is started, meets a cell that it covers itself in an earlier cycle. That is never before cycle `interval`, and mostly nothing is left to look at.
pub fn own_place(file: &[u8], op: usize, first: usize, interval: usize) -> Option<Place>
    requires { Accepted file.now × (op < size (loop_of file.now)) × (1 ≤ interval) × (interval ≤ 4096) × (first ≡ first_use_of (loop_of file.now) op) }
    ensures { OwnPlace interval (op_at (loop_of file.now) op) result }
{
    let mut most = 16;
    let mut k = interval;
    // As in `conflict`, with no row to read: one loop for both would take a closure for the row, and reads no plainer.
    while k < most {
        match taken_in(file, op, first, k, interval, 0) {
            Cycle::Taken(slot) => return Some(Place { cycle: k, slot }),
            Cycle::Free(cycles) => most = cycles,
        }
        k += 1;
    }
    None
}
