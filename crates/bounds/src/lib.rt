// The two lower bounds of the initiation interval (document 01) of any file: its entry point. The bounds of an accepted file are worked out in the crate `lower_bounds`.
#![tactic(auto)]

ghost use Rattle.model.specs.Bounds.{BoundsIs};
ghost use Rattle.lower_bounds.specs.Answer.{bounds_of};

pub use lower_bounds::Bounds;
use refusals::{Refusal, passed_on};

// The bounds of any file. Document 01 names `let .. else` for the entry points, so the reader's refusal is passed on by a function.
pub fn bounds(file: &[u8]) -> Result<Bounds, Refusal>
    ensures { BoundsIs file.now (bounds_of result) }
{
    let reading = loop_file::read(file);
    let Ok(_) = reading else {
        return passed_on(reading);
    };
    lower_bounds::lower(file)
}
