// The verifier of a proposed list of starts (document 01: the judge).
#![tactic(auto, using(reservation::proofs::Ranges::ranges))]

mod walk;

ghost use Rattle.std.specs.Prelude.{◌≡◌};
ghost use Rattle.model.specs.Refusals.{first_refusal};
ghost use Rattle.model.specs.Verifier.{proposed_checks, verify_file};
ghost use Rattle.refusals.specs.Told.{refusal_of};
ghost use Rattle.verifier.specs.Answer.{verdict_of};

pub use refusals::Refusal;
use refusals::{lent, passed_on, range};
use reservation::number;

// Legal; the number of a broken dependence; or the two operations of a conflict, with the first place in which the second meets the first, 32 times the cycle of the second and the slot.
#[derive(Clone, Copy, Debug, PartialEq, Eq)]
pub enum Verdict {
    Legal,
    Broken(usize),
    Conflict(usize, usize, usize),
}

// The verdict on any file, interval and list: the list's first starts count, one for each operation. (Document 01 names `let .. else` for the refusals of entry points.)
#[tactic(auto, using(crate::proofs::Proposals::pass_file, crate::proofs::Proposals::pass_asked))]
pub fn verify(file: &[u8], interval: usize, starts: &[u16]) -> Result<Verdict, Refusal>
    ensures { verdict_of result ≡ verify_file file.now interval starts.now }
{
    let checked = proposed(file, interval, starts);
    let Ok(()) = checked else {
        return passed_on(checked);
    };
    if let Some(e) = walk::first_broken(file, interval, starts) {
        return Ok(Verdict::Broken(e));
    }
    let Some((a, b)) = walk::first_pair(file, interval, starts) else {
        return Ok(Verdict::Legal);
    };
    let place = walk::place_of(file, interval, starts, a, b);
    Ok(Verdict::Conflict(a, b, number(place)))
}

// What any file, interval and list are refused for.
fn proposed(file: &[u8], interval: usize, starts: &[u16]) -> Result<(), Refusal>
    ensures { refusal_of result ≡ first_refusal (proposed_checks file.now interval starts.now) }
{
    let counts = loop_file::read(file)?;
    range(1, 4096, interval)?;
    lent(counts.operations, starts.len())?;
    walk::first_late(starts, counts.operations)
}
