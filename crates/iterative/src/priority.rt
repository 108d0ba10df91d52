// Which operation is put next: the one of the highest rank, by the paths of dependences from it and to it and by the cycles for which it holds slots. Ranks only say in which order operations are put, so nothing is promised of
// them. Internal: asks for an accepted file.
ghost use Rattle.std.specs.Prelude.{◌≡◌, ◌<◌, ◌≤◌, min, length, IfSome};
ghost use Rattle.model.specs.Loop.{size, op_at};
ghost use Rattle.model.specs.File.{loop_of, Accepted};
ghost use Rattle.iterative.specs.Priority.{held_by, Higher, Picked};

use descent::earliest;
use loop_access::{dep_count, duration, first_use, source, target, use_count};
use reservation::NOT_PLACED;

// A number as one of 0 to 4,095. At an interval at which the dependences can be met no path is longer than 63 * 64.
fn capped(x: usize) -> usize
    ensures { result ≡ min x 4095 }
{
    x.min(4095)
}

// lengths[i] becomes at least v, if that is one of 0 to 4,095, else at least 4,095; whether it rose.
fn raise(lengths: &mut [u16; 64], i: usize, v: usize) -> bool
    requires { i < 64 }
{
    let w = capped(v);
    let rose = usize::from(lengths[i]) < w;
    if rose {
        lengths[i] = w as u16;
    }
    rose
}

// Which way lengths of paths go: backward from the target of a dependence to its source, as those of the paths from an operation, or forward, as those of the paths to it.
#[derive(Clone, Copy)]
pub enum Direction {
    Backward,
    Forward,
}

// The ends of dependence e, from which and to which lengths go: from its target to its source or, going forward, from its source to its target.
#[tactic(auto, using(crate::proofs::Timings::ends_inside))]
fn ends(file: &[u8], e: usize, direction: Direction) -> (usize, usize)
    requires { Accepted file.now × (e < length (loop_of file.now).deps) }
    ensures { (result.0 < 64) × (result.1 < 64) }
{
    match direction {
        Direction::Backward => (target(file, e), source(file, e)),
        Direction::Forward => (source(file, e), target(file, e)),
    }
}

// Dependence e: the length at its near end becomes at least that at its far end + delay - interval * distance; whether it rose.
fn relax(
    file: &[u8],
    e: usize,
    interval: usize,
    direction: Direction,
    lengths: &mut [u16; 64],
) -> bool
    requires { Accepted file.now × (e < length (loop_of file.now).deps) × (interval ≤ 4096) }
{
    let (far, near) = ends(file, e, direction);
    let v = earliest(file, e, capped(usize::from(lengths[far])), interval);
    raise(lengths, near, v)
}

// A round over every dependence; whether a length rose.
fn round(file: &[u8], interval: usize, direction: Direction, lengths: &mut [u16; 64]) -> bool
    requires { Accepted file.now × (interval ≤ 4096) }
{
    let mut changed = false;
    for e in 0..dep_count(file) {
        changed |= relax(file, e, interval, direction, lengths);
    }
    changed
}

// The lengths of the longest paths of dependences from each operation or, going forward, to it, by rounds: one for each operation at most.
pub fn paths(file: &[u8], n: usize, interval: usize, direction: Direction, lengths: &mut [u16; 64])
    requires { Accepted file.now × (interval ≤ 4096) }
{
    for _ in 0..n {
        if !round(file, interval, direction, lengths) {
            return;
        }
    }
}

// For how many cycles an operation holds slots, all in all.
fn held(file: &[u8], op: usize) -> usize
    requires { Accepted file.now × (op < size (loop_of file.now)) }
    ensures { result ≡ held_by (loop_of file.now) op (length (op_at (loop_of file.now) op).uses) }
{
    let first = first_use(file, op);
    let mut sum = 0;
    for j in 0..use_count(file, op) {
        sum += duration(file, first + j);
    }
    sum
}

// By what the rank of an operation goes.
#[derive(Clone, Copy)]
enum Priority {
    // By the longest path from it, and then by the cycles for which it holds slots.
    Path,
    // By the longest path through it, and of two as long the earlier operation first.
    Through,
    // By the cycles for which it holds slots, and then by the longest path from it.
    Held,
    // By the longest path from it alone, as Rau has it.
    PathAlone,
}

// The priority of an order: the four take turns.
fn priority_of(order: usize) -> Priority {
    match order % 4 {
        0 => Priority::Path,
        1 => Priority::Through,
        2 => Priority::Held,
        _ => Priority::PathAlone,
    }
}

// The rank of an operation from which the longest path is `high`, to which it is `early`, and which holds slots for `long` cycles.
fn rank(priority: Priority, high: usize, early: usize, long: usize) -> u32 {
    let h = capped(high);
    let e = capped(early);
    let l = capped(long);
    let rank = match priority {
        Priority::Path => h * 4096 + l,
        Priority::Through => (h + e) * 4096 + (4095 - e),
        Priority::Held => l * 4096 + h,
        Priority::PathAlone => h,
    };
    rank as u32
}

// How far an order spreads the lengths of paths: its noise is below this number. In the first eight orders it is 1, so that there is none, then 2, 4, 8 and 16 in eight orders each, and again.
fn spread(order: usize) -> usize
    ensures { (1 ≤ result) × (result ≤ 16) }
{
    if order < 8 {
        return 1;
    }
    match order / 8 % 4 {
        1 => 2,
        2 => 4,
        3 => 8,
        _ => 16,
    }
}

// How much longer the path from operation o is taken to be than it is. A cube modulo a prime is as good as a drawn number here: what counts is that orders differ.
fn noise(order: usize, o: usize) -> usize
    ensures { result < 16 }
{
    let z = 64 * (order % 256) + o % 64 + 1;
    z * z * z % 65537 % spread(order)
}

// The ranks of all n operations in an order, from the longest paths from each (`high`) and to it (`early`): by one of four priorities in turn, and from the eighth order on with paths that are taken to be some cycles longer
// than they are, so that operations of like rank change places.
#[tactic(auto, using(board::proofs::Boards::few_operations))]
pub fn rank_all(
    file: &[u8],
    n: usize,
    order: usize,
    high: &[u16; 64],
    early: &[u16; 64],
    ranks: &mut [u32; 64],
)
    requires { Accepted file.now × (n ≡ size (loop_of file.now)) }
{
    let priority = priority_of(order);
    for o in 0..n {
        let far = capped(usize::from(high[o])) + noise(order, o);
        ranks[o] = rank(priority, far, usize::from(early[o]), held(file, o));
    }
}

// Which of `best` and o has the higher rank, o only where it is higher or where there is no `best`.
fn higher(best: Option<usize>, o: usize, ranks: &[u32; 64]) -> usize
    requires { IfSome best (λ b. b < 64) × (o < 64) }
    ensures { Higher best o ranks.now result }
{
    match best {
        Some(b) if ranks[o] <= ranks[b] => b,
        _ => o,
    }
}

// The first of the operations with the highest rank that are not placed, or none where all n are placed.
pub fn pick(n: usize, starts: &[u16; 64], ranks: &[u32; 64]) -> Option<usize>
    requires { (n ≤ 64) × (length starts.now ≡ 64) }
    ensures { Picked n starts.now ranks.now result }
{
    let mut best = None;
    for o in 0..n {
        if starts[o] == NOT_PLACED {
            best = Some(higher(best, o, ranks));
        }
    }
    best
}
