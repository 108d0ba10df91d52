// Lists of starts by their number, and which of them are legal: what an exhaustive search over small loops goes through.
ghost use Rattle.std.specs.Prelude.{◌≡◌};
ghost use Rattle.trial.specs.Lists.{word_of, all_hold, fits_in, legal_in, first_from};

use crate::drawn::{Drawn, NOWHERE, holds};
use crate::picture;

// A list of starts, and what is left of its number: 0, or more where there is no such list.
// Both and no `Option`: a caller that has the number of a legal list has no test to make.
#[derive(Clone, Copy)]
pub struct Listed {
    pub starts: [u16; 6],
    pub left: usize,
}

// List number `code` of k starts, of all those below the horizon in dictionary order. The others are nowhere.
#[tactic(auto, unfolding(crate::specs::Lists::word_of, crate::specs::Lists::digits))]
pub fn word(code: usize, k: usize, horizon: u16) -> Listed
    ensures { result ≡ word_of code k horizon }
{
    let h = usize::from(horizon).max(1);
    let mut starts = [NOWHERE; 6];
    let mut left = code;
    for i in (0..k.min(6)).rev() {
        starts[i] = (left % h % 65536) as u16;
        left /= h;
    }
    Listed { starts, left }
}

// Whether all dependences among the operations that are placed hold.
fn all_hold(d: Drawn, starts: &[u16; 6], interval: u16) -> bool
    ensures { result ≡ all_hold d starts.now interval d.m }
{
    (0..d.m).all(|e| holds(d, e, starts, interval))
}

// Whether the operations that are placed are placed legally: all dependences among them hold, and no cell is painted twice.
#[tactic(auto, unfolding(crate::specs::Lists::fits_in))]
pub fn fits(d: Drawn, starts: &[u16; 6], interval: u16) -> bool
    ensures { result ≡ fits_in d starts.now interval }
{
    all_hold(d, starts, interval) && !picture::twice(&picture::of_starts(d, starts, interval))
}

// Whether there is list number `code` of k starts, and it is legal for the first k operations.
#[tactic(auto, unfolding(crate::specs::Lists::legal_in, crate::specs::Lists::legal_as))]
pub fn legal(d: Drawn, code: usize, k: usize, interval: u16) -> bool
    ensures { result ≡ legal_in d code k interval }
{
    let w = word(code, k, d.horizon);
    w.left == 0 && fits(d, &w.starts, interval)
}

// The number of the first legal list of all n starts, of those with a number below `count`.
pub fn first_legal(d: Drawn, interval: u16, count: usize) -> Option<usize>
    ensures { result ≡ first_from d interval 0 count }
{
    (0..count).find(|code| legal(d, *code, d.n, interval))
}
