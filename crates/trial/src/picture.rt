// A plain picture of a reservation table: a cell for each of 3 slots and 8 rows, at 8 times the slot (from 0) plus the row, that counts how often it is painted.
ghost use Rattle.std.specs.Prelude.{◌≡◌, ◌<◌, ◌≤◌};
ghost use Rattle.trial.specs.Picture.{dabbed, painted, added, picture_of, twice_in, worth_of, rows_of, marked_in, meets_in, covered_by, place_from};

use crate::drawn::{Drawn, NOWHERE, duration};

// What stands in a row that is not part of the table. No row of a drawn loop is this large.
pub const UNTOUCHED: u64 = 18446744073709551615;

// One more in the cell of a slot and of the row of a cycle.
#[tactic(auto, unfolding(crate::specs::Picture::dabbed))]
fn dab(picture: &mut [u8; 24], slot: usize, cycle: usize, interval: usize)
    ensures { picture.new ≡ dabbed picture.old slot cycle interval }
{
    if slot < 3 && 0 < interval && cycle % interval < 8 {
        let cell = 8 * slot + cycle % interval;
        picture[cell] = picture[cell].wrapping_add(1);
    }
}

// A use, cycle by cycle.
#[tactic(auto, unfolding(crate::specs::Picture::painted))]
fn paint(picture: &mut [u8; 24], slot: usize, cycles: usize, start: usize, interval: usize)
    ensures { picture.new ≡ painted picture.old slot cycles start interval }
{
    for k in 0..cycles {
        dab(picture, slot, start.wrapping_add(k), interval);
    }
}

// The uses of an operation, painted.
#[tactic(auto, unfolding(crate::specs::Picture::added))]
pub fn add(picture: &mut [u8; 24], d: Drawn, op: usize, start: u16, interval: u16)
    ensures { picture.new ≡ added picture.old d op start interval }
{
    let s = usize::from(start);
    let n = usize::from(interval);
    paint(picture, 0, duration(d, op, 0), s, n);
    paint(picture, 1, duration(d, op, 1), s, n);
    paint(picture, 2, duration(d, op, 2), s, n);
}

// The picture of the operations that are placed.
#[tactic(auto, unfolding(crate::specs::Picture::picture_of))]
pub fn of_starts(d: Drawn, starts: &[u16; 6], interval: u16) -> [u8; 24]
    ensures { result ≡ picture_of d starts.now interval 6 }
{
    let mut picture = [0u8; 24];
    for (op, s) in starts.iter().enumerate() {
        if *s != NOWHERE {
            add(&mut picture, d, op, *s, interval);
        }
    }
    picture
}

// Whether a cell is painted more than once: two operations conflict there, or one with itself.
pub fn twice(picture: &[u8; 24]) -> bool
    ensures { result ≡ twice_in picture.now 24 }
{
    picture.iter().any(|cell| *cell > 1)
}

// v where a cell is painted, else 0.
#[tactic(auto, unfolding(crate::specs::Picture::worth_of))]
fn worth(picture: &[u8; 24], cell: usize, v: u64) -> u64
    requires { cell < 24 }
    ensures value { result ≡ worth_of picture.now cell v }
    ensures upper_bound { result ≤ v }
{
    if 0 < picture[cell] { v } else { 0 }
}

// The table as 8 rows: the picture's, one for each cycle of the interval, in which slot 1 is worth 1, slot 2 is worth 2 and slot 3 is worth 4; and untouched ones.
#[tactic(auto, unfolding(crate::specs::Picture::rows_of, crate::specs::Picture::row_of))]
pub fn rows(picture: &[u8; 24], interval: u16) -> [u64; 8]
    ensures { result ≡ rows_of picture.now interval 8 }
{
    let mut out = [UNTOUCHED; 8];
    for (r, row) in out.iter_mut().enumerate() {
        if r < usize::from(interval) {
            *row = worth(picture, r, 1) + worth(picture, 8 + r, 2) + worth(picture, 16 + r, 4);
        }
    }
    out
}

// Whether the cell of a slot and of the row of a cycle is painted.
#[tactic(auto, unfolding(crate::specs::Picture::marked_in))]
fn marked(picture: &[u8; 24], slot: usize, cycle: usize, interval: usize) -> bool
    ensures { result ≡ marked_in picture.now slot cycle interval }
{
    slot < 3 && 0 < interval && cycle % interval < 8 && 0 < picture[8 * slot + cycle % interval]
}

// Whether an operation uses a slot in cycle k from its start, and the cell is painted.
#[tactic(auto, unfolding(crate::specs::Picture::meets_in))]
fn meets(
    picture: &[u8; 24],
    d: Drawn,
    op: usize,
    slot: usize,
    k: usize,
    start: usize,
    interval: usize,
) -> bool
    ensures { result ≡ meets_in picture.now d op slot k start interval }
{
    k < duration(d, op, slot) && marked(picture, slot, start.wrapping_add(k), interval)
}

// That cell painted, where the operation uses the slot in that cycle.
#[tactic(auto, unfolding(crate::specs::Picture::covered_by))]
fn cover(
    picture: &mut [u8; 24],
    d: Drawn,
    op: usize,
    slot: usize,
    k: usize,
    start: usize,
    interval: usize,
)
    ensures { picture.new ≡ covered_by picture.old d op slot k start interval }
{
    if k < duration(d, op, slot) {
        dab(picture, slot, start.wrapping_add(k), interval);
    }
}

// The first place in which an operation meets a painted cell, as 32 times the cycle from its start plus the slot, counted from 1: the first cycle, and in it the lowest slot; 0 where it
// meets none. Where its own cells count, each of them is painted once it has been looked at. No operation of a file has a use of more than 16 cycles, and so 48 cells are all.
// A number and no `Option`: it is compared with what a refusal or a verdict says, and its callers ask only where there is such a place.
#[tactic(auto, using(crate::proofs::Places::place_met, crate::proofs::Places::place_next, crate::proofs::Places::place_none))]
pub fn place(picture: [u8; 24], d: Drawn, op: usize, start: u16, interval: u16, own: bool) -> usize
    ensures { result ≡ place_from picture d op start interval own 0 48 }
{
    let s = usize::from(start);
    let n = usize::from(interval);
    let mut cells = picture;
    for i in 0..48 {
        let (cycle, slot) = (i / 3, i % 3);
        if meets(&cells, d, op, slot, cycle, s, n) {
            return 32 * cycle + slot + 1;
        }
        if own {
            cover(&mut cells, d, op, slot, cycle, s, n);
        }
    }
    0
}
