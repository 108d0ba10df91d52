// Fractions in lowest terms.
ghost use Rattle.std.specs.Prelude.{◌≡◌, ◌≤◌};
ghost use Rattle.model.specs.Lists.{written};
ghost use Rattle.model.specs.Fractions.{gcd_of, lowest_of};
ghost use Rattle.sheet.specs.Lines.{fraction_of, slot_words};

use crate::sums::Sums;

// A fraction.
#[derive(Clone, Copy, Debug, PartialEq, Eq)]
pub struct Fraction {
    pub num: usize,
    pub den: usize,
}

// The greatest common divisor, by Euclid.
fn gcd(a: usize, b: usize) -> usize
    requires { 1 ≤ b }
    ensures { (result ≡ gcd_of a b) × (1 ≤ result) }
{
    let mut x = a;
    let mut y = b;
    while 0 < y {
        (x, y) = (y, x % y);
    }
    x
}

// `used` over `cells` in lowest terms; 0/1 where there are no cells.
#[tactic(auto, using(model::proofs::Fractions::lowest_none, model::proofs::Fractions::lowest_some))]
pub fn lowest(used: usize, cells: usize) -> Fraction
    ensures { fraction_of result ≡ lowest_of used cells }
{
    if cells == 0 {
        Fraction { num: 0, den: 1 }
    } else {
        let g = gcd(used, cells);
        Fraction {
            num: used / g,
            den: cells / g,
        }
    }
}

// How much each slot is used, slot after slot: numerator and denominator in turn.
#[tactic(auto, using(crate::proofs::Lines::slots_none, crate::proofs::Lines::slots_more))]
pub fn write_slots(sums: Sums, slots: &mut [u64; 48])
    ensures { slots.new ≡ written 0 (slot_words sums 24) slots.old }
{
    for (k, used) in sums.used.iter().enumerate() {
        let f = lowest(*used, sums.intervals);
        slots[2 * k] = f.num as u64;
        slots[2 * k + 1] = f.den as u64;
    }
}
