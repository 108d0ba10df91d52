// The modulo reservation table, over an accepted file: whether an operation fits in the rows, reserving and releasing its cells, and which dependence it would
// break. Internal: the verifier, the session and the search share these functions, and each asks for what it needs.
#![tactic(auto, using(crate::proofs::Ranges::ranges))]

pub mod cells;
pub mod clear;
pub mod deps;
pub mod memory;
pub mod pairs;
pub mod test;

ghost use Rattle.std.specs.Prelude.{◌≡◌};
ghost use Rattle.reservation.specs.Place.{number_in, InRange};

// What stands in a list of starts for an operation that is not placed. (A number: the C interface lends such lists, and Options would take twice the memory.)
pub const NOT_PLACED: u16 = 65535;

// Where an operation meets a taken cell: the cycle, counted from its start, and the slot.
#[derive(Clone, Copy)]
pub struct Place {
    pub cycle: usize,
    pub slot: usize,
}

// The number of a place: 32 times the cycle, and the slot; 0 where there is none. (No Option: the definition that refusals and verdicts go by gives 0.)
pub fn number(p: Option<Place>) -> usize
    requires { InRange p }
    ensures { result ≡ number_in p }
{
    match p {
        Some(Place { cycle, slot }) => 32 * cycle + slot,
        None => 0,
    }
}
