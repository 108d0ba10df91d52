// The writer of loop files (document 02, order 3): from any lists of numbers to the file of the loop that they describe, in a lent buffer, or the first refusal.
#![tactic(auto)]

mod checks;
mod put;

ghost use Rattle.loop_writer.specs.Answer.{fields_by, Writes};

use refusals::{Refusal, passed_on};

// Writes the file of the loop whose records the lists have, one after the other: an operation is latency and number of uses, a use slot and duration, a dependence from, to, delay and
// distance. The file stands at the beginning of the buffer, and the rest is as it was; a refusal writes nothing. The answer is the file's number of bytes. (Document 01 names `let .. else` for the refusals of entry points.)
pub fn write(ops: &[i32], uses: &[i32], deps: &[i32], buffer: &mut [u8]) -> Result<usize, Refusal>
    ensures { Writes (fields_by ops.now uses.now deps.now) buffer.old result buffer.new }
{
    let given = checks::given(ops, uses, deps);
    let Ok(()) = given else {
        return passed_on(given);
    };
    let bytes = 26 + ops.len() + uses.len() + deps.len();
    let room = refusals::lent(bytes, buffer.len());
    let Ok(()) = room else {
        return passed_on(room);
    };
    put::head(buffer, ops.len(), uses.len(), deps.len());
    put::body(buffer, 26, ops);
    put::body(buffer, 26 + ops.len(), uses);
    put::body(buffer, 26 + ops.len() + uses.len(), deps);
    Ok(bytes)
}
