// A list of session calls, three numbers a call: kind, a, b. 1 place(operation, start), 2 force(operation, start), 3 remove(operation), 4 checkpoint, 5 release, 6 rollback(checkpoint).
// Internal: what `mw_session` is made of.
#![tactic(auto)]

ghost use Rattle.std.specs.Prelude.{◌≡◌, ◌+◌, ◌*◌, ◌-◌, ◌≤◌, ◌<◌, length};
ghost use mathlib.Core.List.{flat_map};
ghost use Rattle.model.specs.Lists.{up_from, written};
ghost use Rattle.model.specs.Refusals.{first_refusal};
ghost use Rattle.refusals.specs.Told.{refusal_of};
ghost use Rattle.board.specs.Moves.{reply_of};
ghost use Rattle.session.specs.View.{Valid};
ghost use Rattle.replay.specs.Replay.{call_of, kind_check, call_checks, first_calls, reply_words, Made};
ghost use Rattle.session.specs.Call.{call_is};

use session::{Call, Refusal, Reply, Session};

// The call of a kind with its two numbers. (Whoever lets any number in refuses those that are no kind before.)
#[tactic(auto, unfolding(crate::specs::Replay::call_of))]
fn call_of(kind: u64, a: usize, b: usize) -> Call
    ensures { call_is result ≡ call_of kind a b }
{
    match kind {
        1 => Call::Place { op: a, start: b },
        2 => Call::Force { op: a, start: b },
        3 => Call::Remove { op: a },
        4 => Call::Checkpoint,
        6 => Call::Rollback { checkpoint: a },
        _ => Call::Release,
    }
}

// The first of n calls that has no kind that there is.
#[tactic(auto, using(crate::proofs::CallChecks::rows), unfolding(model::specs::Refusals::first_refusal))]
fn kinds(calls: &[u64], n: usize) -> Result<(), Refusal>
    requires { 3 * n ≤ length calls.now }
    ensures { refusal_of result ≡ first_refusal (flat_map (kind_check calls.now) (up_from 0 n)) }
{
    for i in 0..n {
        let kind = calls[3 * i];
        if kind < 1 || 6 < kind {
            return Err(Refusal::Call(i));
        }
    }
    Ok(())
}

// What is wrong with the calls, or with a list of `room` numbers for their answers.
#[tactic(auto, using(crate::proofs::CallChecks::parts), unfolding(model::specs::Refusals::first_refusal, crate::specs::Replay::call_checks))]
pub fn unfit(calls: &[u64], room: usize) -> Result<(), Refusal>
    ensures { refusal_of result ≡ first_refusal (call_checks calls.now room) }
{
    let n = calls.len() / 3;
    kinds(calls, n)?;
    if 3 * n < calls.len() {
        return Err(Refusal::Call(n));
    }
    if room < 2 * n {
        return Err(Refusal::Replies(room));
    }
    Ok(())
}

// A call's answer in two numbers, from place i on.
#[tactic(auto, unfolding(model::specs::Lists::written))]
fn write_reply(replies: &mut [u64], i: usize, reply: Result<Reply, Refusal>)
    requires { i + 2 ≤ length replies.old }
    ensures { replies.new ≡ written i (reply_words (reply_of reply)) replies.old }
{
    let (first, second) = match reply {
        Ok(Reply::Done) => (0, 0),
        Ok(Reply::Displaced(mask)) => (0, mask),
        Ok(Reply::Numbered(m)) => (0, m as u64),
        Err(refusal) => (refusal.number() as u64, refusal.detail() as u64),
    };
    replies[i] = first;
    replies[i + 1] = second;
}

// The first n calls, one after the other, with their answers; the checkpoints that are open then. The session is the one that the calls lead to, and its starts and numbers are also in the lent arrays, whatever they held.
pub fn run(
    session: &mut Session,
    rows: &mut [u64],
    calls: &[u64],
    n: usize,
    replies: &mut [u64],
    starts: &mut [u16; 64],
    free: &mut [u16; 24],
) -> usize
    requires { Valid session.old rows.old × (3 * n ≤ length calls.now) × (2 * n ≤ length replies.old) }
    ensures { Made (first_calls calls.now n) session.old rows.old replies.old result session.new rows.new replies.new starts.new free.new }
{
    for i in 0..n {
        let call = call_of(
            calls[3 * i],
            calls[3 * i + 1] as usize,
            calls[3 * i + 2] as usize,
        );
        write_reply(replies, 2 * i, session.make(rows, call));
    }
    *starts = session.starts;
    *free = session.free;
    session.marks
}
