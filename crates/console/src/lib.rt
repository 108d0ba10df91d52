// What the programs share: standard input read to its end, numbers read from text, and lines put together in lent memory.
#![tactic(auto)]

mod input;
mod line;
mod scan;

pub use input::{read_all, with_input};
pub use line::{list, number, print, rest, text};
pub use scan::{Scanned, each_line, find, number_at, numbers};
