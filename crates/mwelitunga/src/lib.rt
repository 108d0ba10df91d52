// The library that a compiler links: the entry points as C functions over numbers and slices. A slice is a pointer and a length, `answer` a pointer to eight numbers. A function that has
// an answer returns 0, or the number of the refusal, and writes all eight: first the refusal's detail, 0 where there is none, then what was found, then zeros. None asks for anything.
#![tactic(auto)]

ghost use Rattle.std.specs.Prelude.{◌≡◌, [], ◌∷◌};
ghost use Rattle.model.specs.Lists.{written};
ghost use Rattle.model.specs.File.{read_file};
ghost use Rattle.model.specs.Search as model;
ghost use Rattle.model.specs.Verifier.{verify_file};
ghost use Rattle.loop_file.specs.Read.{counted};
ghost use Rattle.loop_writer.specs.Answer.{fields_by};
ghost use Rattle.replay.specs.Words.{Gives};
ghost use Rattle.mwelitunga.specs.Words.{RefusalGiven, UnsolvedGiven, count_words, verdict_words, WriteGiven, BoundsGiven, SearchGiven, PlanGiven};
ghost use Rattle.replay.specs.Replay.{Replayed};

use refusals::Refusal;
use search::Unsolved;
use verifier::Verdict;

// The eight numbers of an answer, the last two 0.
#[tactic(auto, unfolding(model::specs::Lists::written))]
fn write_answer(answer: &mut [u64; 8], a: usize, b: usize, c: usize, d: usize, e: usize, f: usize)
    ensures { answer.new ≡ written 0 (a ∷ b ∷ c ∷ d ∷ e ∷ f ∷ 0 ∷ 0 ∷ []) answer.old }
{
    *answer = [
        a as u64, b as u64, c as u64, d as u64, e as u64, f as u64, 0, 0,
    ];
}

// The eight numbers of a refusal, whose number is returned.
fn write_refusal(answer: &mut [u64; 8], refusal: Refusal) -> usize
    ensures { RefusalGiven refusal result answer.old answer.new }
{
    write_answer(answer, refusal.detail(), 0, 0, 0, 0, 0);
    refusal.number()
}

// Those of an end without a schedule: the probes stand behind the detail, where a schedule has its own.
fn write_unsolved(answer: &mut [u64; 8], unsolved: Unsolved) -> usize
    ensures { UnsolvedGiven unsolved result answer.old answer.new }
{
    write_answer(answer, unsolved.detail(), 0, 0, 0, 0, unsolved.probes());
    unsolved.number()
}

// Reads a loop file: the numbers of operations, uses and dependences.
#[unsafe(no_mangle)]
pub extern "C" fn mw_read(file: &[u8], answer: &mut [u64; 8]) -> usize
    ensures { Gives (counted (read_file file.now)) count_words result answer.old answer.new }
{
    match loop_file::read(file) {
        Ok(counts) => {
            write_answer(
                answer,
                0,
                counts.operations,
                counts.uses,
                counts.dependences,
                0,
                0,
            );
            0
        }
        Err(refusal) => write_refusal(answer, refusal),
    }
}

// Writes the file of the loop whose records the lists have: its number of bytes; the file at the beginning of the buffer.
#[unsafe(no_mangle)]
pub extern "C" fn mw_write(
    ops: &[i32],
    uses: &[i32],
    deps: &[i32],
    buffer: &mut [u8],
    answer: &mut [u64; 8],
) -> usize
    ensures { WriteGiven (fields_by ops.now uses.now deps.now) buffer.old answer.old result buffer.new answer.new }
{
    match loop_writer::write(ops, uses, deps, buffer) {
        Ok(bytes) => {
            write_answer(answer, 0, bytes, 0, 0, 0, 0);
            0
        }
        Err(refusal) => write_refusal(answer, refusal),
    }
}

// The two lower bounds: resource, recurrence.
#[tactic(auto, using(crate::proofs::Words::bounds_told))]
#[unsafe(no_mangle)]
pub extern "C" fn mw_bounds(file: &[u8], answer: &mut [u64; 8]) -> usize
    ensures { BoundsGiven file.now result answer.old answer.new }
{
    match bounds::bounds(file) {
        Ok(found) => {
            write_answer(answer, 0, found.resource, found.recurrence, 0, 0, 0);
            0
        }
        Err(refusal) => write_refusal(answer, refusal),
    }
}

// The verdict on a list of starts: 0 legal, 1 a broken dependence and its number, 2 a conflict, its two operations and the first place in which the second meets the first.
#[unsafe(no_mangle)]
pub extern "C" fn mw_verify(
    file: &[u8],
    interval: usize,
    starts: &[u16],
    answer: &mut [u64; 8],
) -> usize
    ensures { Gives (verify_file file.now interval starts.now) verdict_words result answer.old answer.new }
{
    match verifier::verify(file, interval, starts) {
        Ok(Verdict::Legal) => {
            write_answer(answer, 0, 0, 0, 0, 0, 0);
            0
        }
        Ok(Verdict::Broken(e)) => {
            write_answer(answer, 0, 1, e, 0, 0, 0);
            0
        }
        Ok(Verdict::Conflict(a, b, place)) => {
            write_answer(answer, 0, 2, a, b, place, 0);
            0
        }
        Err(refusal) => write_refusal(answer, refusal),
    }
}

// The search: interval, resource bound, recurrence bound, stages, probes; the starts in the list. Refusals 10 and 11 also tell the probes, in the same place.
#[unsafe(no_mangle)]
pub extern "C" fn mw_search(
    file: &[u8],
    cap: usize,
    horizon: usize,
    budget: usize,
    starts: &mut [u16],
    rows: &mut [u64],
    answer: &mut [u64; 8],
) -> usize
    ensures { SearchGiven file.now cap horizon budget starts.old rows.old answer.old result starts.new rows.new answer.new }
{
    match search::search(file, cap, horizon, budget, starts, rows) {
        Ok(s) => {
            write_answer(
                answer,
                0,
                s.interval,
                s.resource,
                s.recurrence,
                s.stages,
                s.probes,
            );
            0
        }
        Err(unsolved) => write_unsolved(answer, unsolved),
    }
}

// The plan: interval, resource bound, recurrence bound, stages, and 1 where no smaller interval has a schedule, else 0; the starts in the list. Refusals 10 and 11 tell the probes, where those of the search stand.
#[unsafe(no_mangle)]
pub extern "C" fn mw_plan(
    file: &[u8],
    cap: usize,
    horizon: usize,
    budget: usize,
    starts: &mut [u16],
    rows: &mut [u64],
    answer: &mut [u64; 8],
) -> usize
    ensures { PlanGiven file.now cap horizon budget starts.old rows.old answer.old result starts.new rows.new answer.new }
{
    match planner::plan(file, cap, horizon, budget, starts, rows) {
        Ok(p) => {
            write_answer(
                answer,
                0,
                p.interval,
                p.resource,
                p.recurrence,
                p.stages,
                p.smallest as usize,
            );
            0
        }
        Err(unsolved) => write_unsolved(answer, unsolved),
    }
}

// The stage of a start.
#[unsafe(no_mangle)]
pub extern "C" fn mw_stage(interval: usize, start: usize) -> usize
    ensures { result ≡ model.stage interval start }
{
    stages::stage(interval, start)
}

// The cycle of a start.
#[unsafe(no_mangle)]
pub extern "C" fn mw_cycle(interval: usize, start: usize) -> usize
    ensures { result ≡ model.cycle interval start }
{
    stages::cycle(interval, start)
}

// The order of an operation in its stage.
#[unsafe(no_mangle)]
pub extern "C" fn mw_order(interval: usize, starts: &[u16], op: usize) -> usize
    ensures { result ≡ model.order_of interval starts.now op }
{
    stages::order(interval, starts, op)
}

// A session opened for a list of calls, three numbers a call, and all of them made: the number of calls and of the checkpoints then open. The answer of each call, two numbers a
// call, is in `replies`; what the calls leave is in `starts`, 65,535 where an operation is not placed, in `free`, for each slot how many rows have it free, and in the table.
#[unsafe(no_mangle)]
pub extern "C" fn mw_session(
    file: &[u8],
    interval: usize,
    horizon: usize,
    calls: &[u64],
    rows: &mut [u64],
    replies: &mut [u64],
    starts: &mut [u16; 64],
    free: &mut [u16; 24],
    answer: &mut [u64; 8],
) -> usize
    ensures { Replayed file.now interval horizon calls.now rows.old replies.old starts.old free.old answer.old result rows.new replies.new starts.new free.new answer.new }
{
    // The refusals are written here, and `let .. else` could not name them.
    if let Err(refusal) = replay::unfit(calls, replies.len()) {
        return write_refusal(answer, refusal);
    }
    let mut begun = match session::open(file, interval, horizon, rows) {
        Ok(session) => session,
        Err(refusal) => return write_refusal(answer, refusal),
    };
    let n = calls.len() / 3;
    let marks = replay::run(&mut begun, rows, calls, n, replies, starts, free);
    write_answer(answer, 0, n, marks, 0, 0, 0);
    0
}
