#![tactic(auto)]

// The boundary between unschedulable and schedulable assignments.
mod node; // node.rt: an assignment with its cost
mod begins; // begins.rt: where the climb of a task may begin, by the busy period of one above
mod misses; // misses.rt: the last period of a task at which a deadline is missed
mod mua; // mua.rt: the maximal unschedulable assignment above a node
mod lowering; // lowering.rt: a schedulable assignment above a node

// for the layers above
pub use lowering::lowering_of;
pub use mua::mua_of;
pub use node::Node;
