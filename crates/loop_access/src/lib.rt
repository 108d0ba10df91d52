// What the layers above read of an accepted file, in place of raw offsets. Internal: each asks for an accepted file and a number
// that is there, and answers what the model's loop has. What the bytes say of the loop is in `reads`, with which the proofs are found.
#![tactic(auto, using(crate::proofs::Records::reads))]

pub mod bytes;

ghost use Rattle.std.specs.Prelude.{◌≡◌, ◌+◌, ◌<◌, length, get_or};
ghost use Rattle.model.specs.Loop.{no_use, size, op_at, dep_at, all_uses, first_use_of};
ghost use Rattle.model.specs.File.{uses_at, dep_record, loop_of, Accepted};

use crate::bytes::{signed, wide, word};

// The bytes of a use's record (the model's `use_width`).
pub const USE_WIDTH: usize = 2;

// The bytes of the longest file (the model's `longest`).
pub const LONGEST: usize = 1690;

// The number of operations.
pub fn op_count(file: &[u8]) -> usize
    requires { Accepted file.now }
    ensures { result ≡ size (loop_of file.now) }
{
    word(file, 8) / 2
}

// The number of dependences.
pub fn dep_count(file: &[u8]) -> usize
    requires { Accepted file.now }
    ensures { result ≡ length (loop_of file.now).deps }
{
    word(file, 24) / 4
}

// The latency of an operation.
pub fn latency(file: &[u8], op: usize) -> usize
    requires { Accepted file.now × (op < size (loop_of file.now)) }
    ensures { result ≡ (op_at (loop_of file.now) op).latency }
{
    wide(file[26 + 2 * op])
}

// The number of uses of an operation.
pub fn use_count(file: &[u8], op: usize) -> usize
    requires { Accepted file.now × (op < size (loop_of file.now)) }
    ensures { result ≡ length (op_at (loop_of file.now) op).uses }
{
    wide(file[26 + 2 * op + 1])
}

// The number of an operation's first use among all uses.
#[tactic(auto, using(crate::proofs::Records::counts), unfolding(model::specs::File::first_use))]
pub fn first_use(file: &[u8], op: usize) -> usize
    requires { Accepted file.now × (op < size (loop_of file.now)) }
    ensures { result ≡ first_use_of (loop_of file.now) op }
{
    let mut sum = 0;
    for o in 0..op {
        sum += use_count(file, o);
    }
    sum
}

// The number of all uses.
pub fn use_total(file: &[u8]) -> usize
    requires { Accepted file.now }
    ensures { result ≡ length (all_uses (loop_of file.now)) }
{
    word(file, 16) / USE_WIDTH
}

// Where the records of the uses begin.
fn uses_start(file: &[u8]) -> usize
    requires { Accepted file.now }
    ensures { result ≡ uses_at file.now }
{
    26 + word(file, 8)
}

// The slot of use u of all.
pub fn slot(file: &[u8], u: usize) -> usize
    requires { Accepted file.now × (u < length (all_uses (loop_of file.now))) }
    ensures { result ≡ (get_or (all_uses (loop_of file.now)) u no_use).slot }
{
    wide(file[uses_start(file) + USE_WIDTH * u])
}

// The offset of use u of all from its operation's start. Version 1 of the file has none.
pub fn offset(file: &[u8], u: usize) -> usize
    requires { Accepted file.now × (u < length (all_uses (loop_of file.now))) }
    ensures { result ≡ (get_or (all_uses (loop_of file.now)) u no_use).offset }
{
    0
}

// The duration of use u of all.
pub fn duration(file: &[u8], u: usize) -> usize
    requires { Accepted file.now × (u < length (all_uses (loop_of file.now))) }
    ensures { result ≡ (get_or (all_uses (loop_of file.now)) u no_use).duration }
{
    wide(file[uses_start(file) + USE_WIDTH * u + 1])
}

// Where the record of dependence e begins.
fn dep_start(file: &[u8], e: usize) -> usize
    requires { Accepted file.now × (e < length (loop_of file.now).deps) }
    ensures { (result ≡ dep_record file.now e) × (result + 3 < length file.now) }
{
    26 + word(file, 8) + word(file, 16) + 4 * e
}

// The operation that dependence e comes from.
pub fn source(file: &[u8], e: usize) -> usize
    requires { Accepted file.now × (e < length (loop_of file.now).deps) }
    ensures { result ≡ (dep_at (loop_of file.now) e).src }
{
    wide(file[dep_start(file, e)])
}

// The operation that dependence e leads to.
pub fn target(file: &[u8], e: usize) -> usize
    requires { Accepted file.now × (e < length (loop_of file.now).deps) }
    ensures { result ≡ (dep_at (loop_of file.now) e).dst }
{
    wide(file[dep_start(file, e) + 1])
}

// The delay of dependence e.
pub fn delay(file: &[u8], e: usize) -> i32
    requires { Accepted file.now × (e < length (loop_of file.now).deps) }
    ensures { result ≡ (dep_at (loop_of file.now) e).delay }
{
    signed(file[dep_start(file, e) + 2])
}

// The distance of dependence e.
pub fn distance(file: &[u8], e: usize) -> usize
    requires { Accepted file.now × (e < length (loop_of file.now).deps) }
    ensures { result ≡ (dep_at (loop_of file.now) e).distance }
{
    wide(file[dep_start(file, e) + 3])
}
