#![tactic(auto)]

// DESK: the answer block and the call from C that fills it.
mod block; // block.rt: what the block carries, and its writer
mod call; // call.rt: the call

pub use call::desk_call;
