// A small loop as it was drawn, and no file.
ghost use Rattle.std.specs.Prelude.{◌≡◌, ◌%◌, ◌<◌};
ghost use Rattle.trial.specs.Drawn.{duration_of, field_of, latency_of, lag_of, start_of, set_at, only_of, holds_in, with_dep, SameSizes};

// n operations, up to 6, and m dependences, up to 6; the interval and the horizon that it is tried with; and the generator's state behind its draws. The duration of operation o on slot s + 1 is
// at 3 o + s, 0 where it does not use the slot. A dependence is four bytes, as in a file, but its delay stands as 6 more than it is.
#[derive(Clone, Copy)]
pub struct Drawn {
    pub seed: usize,
    pub n: usize,
    pub m: usize,
    pub interval: u16,
    pub horizon: u16,
    pub latencies: [u8; 6],
    pub uses: [u8; 18],
    pub deps: [u8; 24],
}

// What stands for the start of an operation that is not placed.
// A number and no `None`, since the lists that it is compared with are the library's, which hold it through the C interface.
pub const NOWHERE: u16 = 65535;

// The lowest byte. (A function, for the equation that the clauses above it go by.)
pub fn byte(x: usize) -> u8
    ensures { result ≡ x % 256 }
{
    (x % 256) as u8
}

// The duration of an operation on a slot, counted from 0.
#[tactic(auto, unfolding(crate::specs::Drawn::duration_of))]
pub fn duration(d: Drawn, op: usize, slot: usize) -> usize
    ensures { result ≡ duration_of d op slot }
{
    if op < 6 && slot < 3 {
        usize::from(d.uses[3 * op + slot])
    } else {
        0
    }
}

// The latency of an operation.
#[tactic(auto, unfolding(crate::specs::Drawn::latency_of))]
pub fn latency(d: Drawn, op: usize) -> usize
    ensures { result ≡ latency_of d op }
{
    if op < 6 {
        usize::from(d.latencies[op])
    } else {
        0
    }
}

// A byte of a dependence: 0 from, 1 to, 2 the delay and 6 more, 3 the distance. (A place and no enum: the clause is an equation over the four bytes.)
#[tactic(auto, unfolding(crate::specs::Drawn::field_of))]
pub fn field(d: Drawn, e: usize, which: usize) -> usize
    ensures value { result ≡ field_of d e which }
    ensures upper_bound { result < 256 }
{
    if e < 6 && which < 4 {
        usize::from(d.deps[4 * e + which])
    } else {
        0
    }
}

// The interval times a distance, which is 0, 1 or 2.
#[tactic(auto, unfolding(crate::specs::Drawn::lag_of))]
pub fn lag(interval: u16, distance: usize) -> usize
    ensures value { result ≡ lag_of interval distance }
    ensures upper_bound { result < 131072 }
{
    let one = usize::from(interval);
    match distance {
        0 => 0,
        1 => one,
        _ => one + one,
    }
}

// The start of an operation.
#[tactic(auto, unfolding(crate::specs::Drawn::start_of))]
pub fn start_of(starts: &[u16; 6], op: usize) -> u16
    ensures { result ≡ start_of starts.now op }
{
    if op < 6 { starts[op] } else { NOWHERE }
}

// The starts with another one for an operation.
#[tactic(auto, unfolding(crate::specs::Drawn::set_at))]
pub fn with_start(mut starts: [u16; 6], op: usize, start: u16) -> [u16; 6]
    ensures { result ≡ set_at starts op start }
{
    if op < 6 {
        starts[op] = start;
    }
    starts
}

// The starts of two operations alone.
#[tactic(auto, unfolding(crate::specs::Drawn::only_of))]
pub fn only(starts: &[u16; 6], a: usize, b: usize) -> [u16; 6]
    ensures { result ≡ only_of starts.now a b }
{
    let alone = with_start([NOWHERE; 6], a, start_of(starts, a));
    with_start(alone, b, start_of(starts, b))
}

// Whether a dependence holds at these starts, or one of its operations is not placed.
#[tactic(auto, unfolding(crate::specs::Drawn::holds_at, crate::specs::Drawn::holds_in))]
pub fn holds(d: Drawn, e: usize, starts: &[u16; 6], interval: u16) -> bool
    ensures { result ≡ holds_in d e starts.now interval }
{
    let s = start_of(starts, field(d, e, 0));
    let t = start_of(starts, field(d, e, 1));
    s == NOWHERE
        || t == NOWHERE
        || usize::from(s) + field(d, e, 2) <= usize::from(t) + lag(interval, field(d, e, 3)) + 6
}

// The loop with another dependence e.
#[tactic(auto, unfolding(crate::specs::Drawn::with_dep, crate::specs::Drawn::dep_set))]
pub fn with_dep(
    mut d: Drawn,
    e: usize,
    from: usize,
    to: usize,
    delay: usize,
    distance: usize,
) -> Drawn
    ensures value { result ≡ with_dep d e from to delay distance }
    ensures same_sizes { SameSizes d result }
{
    if e < 6 {
        d.deps[4 * e] = byte(from);
        d.deps[4 * e + 1] = byte(to);
        d.deps[4 * e + 2] = byte(delay);
        d.deps[4 * e + 3] = byte(distance);
    }
    d
}
