// The resource bound. Internal: each function asks for an accepted file.
ghost use Rattle.std.specs.Prelude.{◌≡◌};
ghost use Rattle.model.specs.File.{loop_of, Accepted};
ghost use Rattle.model.specs.Bounds.{total_on, resource_bound};

use loop_access::{duration, slot, use_total};

// The total of durations on slot s.
#[tactic(auto, using(crate::proofs::AllUses::turns), unfolding(model::specs::Lists::sum_of, model::specs::Lists::up_from))]
pub fn total_on(file: &[u8], s: usize) -> usize
    requires { Accepted file.now }
    ensures { result ≡ total_on (loop_of file.now) s }
{
    let mut sum = 0;
    for u in 0..use_total(file) {
        if slot(file, u) == s {
            sum += duration(file, u);
        }
    }
    sum
}

// The largest total on one slot, at least 1.
#[tactic(auto, using(crate::proofs::Slots::further), unfolding(model::specs::Lists::max_of, model::specs::Lists::up_from, model::specs::Bounds::resource_bound))]
pub fn resource(file: &[u8]) -> usize
    requires { Accepted file.now }
    ensures { result ≡ resource_bound (loop_of file.now) }
{
    let mut most = 1;
    for s in 1..25 {
        most = most.max(total_on(file, s));
    }
    most
}
