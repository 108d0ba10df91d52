// The two lower bounds of the initiation interval (document 01) of an accepted file: what the slots need, and what cycles of dependences need. Internal: each function asks for an
// accepted file; `bounds` and the search read the file first.
#![tactic(auto)]

mod recurrence;
mod resource;

ghost use Rattle.std.specs.Prelude.{◌≡◌, max};
ghost use Rattle.model.specs.File.{loop_of, Accepted};
ghost use Rattle.model.specs.Bounds.{LowerIs};
ghost use Rattle.lower_bounds.specs.Answer.{bounds_of};

use refusals::Refusal;
pub use resource::total_on;

// The resource bound and the recurrence bound.
#[derive(Clone, Copy, Debug, PartialEq, Eq)]
pub struct Bounds {
    pub resource: usize,
    pub recurrence: usize,
}

impl Bounds {
    // The larger of the two.
    pub fn larger(self) -> usize
        ensures { result ≡ max self.resource self.recurrence }
    {
        self.resource.max(self.recurrence)
    }
}

// The bounds of an accepted file. Refusal 9 never comes: dependences that can be met at some interval can be met at 4,096.
pub fn lower(file: &[u8]) -> Result<Bounds, Refusal>
    requires { Accepted file.now }
    ensures { LowerIs (loop_of file.now) (bounds_of result) }
{
    let recurrence = recurrence::recurrence(file).ok_or(Refusal::Circle)?;
    let resource = resource::resource(file);
    Ok(Bounds {
        resource,
        recurrence,
    })
}
