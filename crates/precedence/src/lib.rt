#![tactic(auto)]

// Which tasks precede which, by a list of pairs.
mod errors; // errors.rt: why a list of pairs is refused
mod pairs; // pairs.rt: the pairs of a list
mod masks; // masks.rt: each task's predecessors, as the bits of one number
mod counts; // counts.rt: FEEDERS

pub use counts::predecessors;
pub use errors::PrecedenceError;

// for the layers above
pub use counts::predecessors_of;
pub use pairs::MAX_LIST;
