#![tactic(auto)]

// What the programs share.
mod reading; // reading.rt: the reading of an input
mod program; // program.rt: a program over one plan file

pub use program::run;
pub use reading::{ReadFailure, read_input};
