// Loops to try the library on: the worked ones, and random ones with a plain picture of their reservation tables and all their lists of starts. Nothing here uses the library.
#![tactic(auto)]

pub mod draw;
pub mod drawn;
pub mod file;
pub mod lists;
pub mod loops;
pub mod picture;
pub mod random;
pub mod tally;
