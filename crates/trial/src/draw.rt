// The parts of a random loop, drawn from the generator's states one behind the other.
ghost use Rattle.std.specs.Prelude.{◌≡◌};
ghost use Rattle.trial.specs.Drawn.{SameSizes, blank_of};

use crate::drawn::{Drawn, byte, field, with_dep};
use crate::random::{next, pick};

// A loop of these sizes, to be tried with this interval and horizon: latencies of 1, no uses, and dependences that are still to be drawn.
#[tactic(auto, unfolding(crate::specs::Drawn::blank_of))]
pub fn blank(seed: usize, n: usize, m: usize, interval: usize, horizon: usize) -> Drawn
    ensures { result ≡ blank_of seed n m interval horizon }
{
    Drawn {
        seed,
        n,
        m,
        interval: (interval % 65536) as u16,
        horizon: (horizon % 65536) as u16,
        latencies: [1; 6],
        uses: [0; 18],
        deps: [0; 24],
    }
}

// The first latencies, each from 0 to 3.
pub fn draw_latencies(mut d: Drawn, count: usize) -> Drawn
    ensures { SameSizes d result }
{
    for op in 0..count.min(6) {
        d.seed = next(d.seed);
        d.latencies[op] = byte(pick(d.seed, 0, 4));
    }
    d
}

// The duration of an operation on a slot, counted from 0: 0 for one state of four on the first slot and for three on the others; else 1 to 3, and mostly 1. It is 0 where the loop does not have the operation.
fn cycles(seed: usize, there: bool, slot: usize) -> u8 {
    let x = pick(seed, 0, 4);
    if !there || x == 0 || (slot != 0 && x < 3) {
        0
    } else if pick(seed / 4, 0, 8) < 5 {
        1
    } else {
        byte(pick(seed / 32, 1, 3))
    }
}

// The durations of the first operations, one for each of three slots.
pub fn draw_uses(mut d: Drawn, count: usize) -> Drawn
    ensures { SameSizes d result }
{
    for op in 0..count.min(6) {
        for slot in 0..3 {
            d.seed = next(d.seed);
            d.uses[3 * op + slot] = cycles(d.seed, op < d.n, slot);
        }
    }
    d
}

// A delay, as 6 more than it is: -3 to 4 for a dependence of an operation with a later one, else -3 to 1 for three states of four. With larger ones too many loops would have a cycle that asks for too much.
fn delay(seed: usize, later: bool) -> usize {
    let many = later || 2 < pick(seed, 0, 4);
    pick(seed / 4, 3, if many { 8 } else { 5 })
}

// A distance: 1 or 2 for three states of eight, else 0.
fn distance(seed: usize) -> usize {
    match pick(seed, 0, 8) {
        0..=4 => 0,
        5 | 6 => 1,
        _ => 2,
    }
}

// Dependence e, of any two operations.
fn draw_dep(d: Drawn, e: usize) -> Drawn
    ensures { SameSizes d result }
{
    let a = next(d.seed);
    let b = next(a);
    let c = next(b);
    let last = next(c);
    let from = pick(a, 0, d.n);
    let to = pick(b, 0, d.n);
    Drawn {
        seed: last,
        ..with_dep(d, e, from, to, delay(c, from < to), distance(last))
    }
}

// The first dependences.
pub fn draw_deps(mut d: Drawn, count: usize) -> Drawn
    ensures { SameSizes d result }
{
    for e in 0..count {
        d = draw_dep(d, e);
    }
    d
}

// Dependence e of two operations without distance, and the other way round as the next one: the two fix one start by the other. A delay of 4 counts as 3, since -4 is not drawn.
fn turn(d: Drawn, e: usize) -> Drawn
    ensures { SameSizes d result }
{
    let from = field(d, e, 0);
    let to = field(d, e, 1);
    let x = field(d, e, 2).min(9);
    if from == to {
        d
    } else {
        let there = with_dep(d, e, from, to, x, 0);
        with_dep(there, e.wrapping_add(1), to, from, 12 - x, 0)
    }
}

// For three states of four the second dependence is the first the other way round, and the fourth the third.
pub fn turned(d: Drawn) -> Drawn
    ensures { SameSizes d result }
{
    if 2 < pick(d.seed, 0, 4) {
        d
    } else {
        turn(turn(d, 0), 2)
    }
}
