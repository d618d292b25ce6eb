#![tactic(auto)]

// CHEAPEST: the step rule over a lent work space.
mod errors; // errors.rt: why a call is refused
mod conclusion; // conclusion.rt: how a search ends, and in numbers
mod order; // order.rt: cost and order of period assignments
mod nodes; // nodes.rt: open nodes in the lent work space
mod incumbent; // incumbent.rt: the least schedulable assignment so far
mod children; // children.rt: which children of a node are dropped, and the listing of the others
mod round; // round.rt: one round
mod search; // search.rt: the rounds
mod call; // call.rt: the rules of a call
mod cheapest; // cheapest.rt: CHEAPEST

// CHEAPEST
pub use cheapest::cheapest_periods;
pub use conclusion::{Answer, Conclusion, Stop};
pub use errors::CallError;

// for the layers above
pub use cheapest::cheapest_of;

// The numbers of the work space that DESK, the listing and their like give to a call.
pub const WORK: usize = 16_000;
