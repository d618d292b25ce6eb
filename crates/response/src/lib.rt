#![tactic(auto)]

// Response-time analysis at given periods.
mod tasks; // tasks.rt: demand and deadline of one task, and by when it has to be done
mod utilization; // utilization.rt: what tasks take of the processor, and where a climb may begin by that
mod assignment; // assignment.rt: tasks at given periods, their response times, slacks and deadlines
mod errors; // errors.rt: why TIMES refuses a call
mod times; // times.rt: TIMES

// TIMES
pub use assignment::NO_SLACK;
pub use errors::TimesError;
pub use times::{Times, response_times};

// for the layers above
pub use assignment::Assignment;
pub use tasks::{deadline, last_end, own_demand};
pub use times::{check_periods, times_of};
