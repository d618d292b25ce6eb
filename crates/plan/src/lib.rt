#![tactic(auto)]

// The plan file: tasks and their limits, the layout, names, refusals 1 to 11 with their places, and the canonical form.
mod faults; // faults.rt: a refusal's number and place
mod errors; // errors.rt: why a file is refused, or its form not written
mod words; // words.rt: little-endian numbers
mod tasks; // tasks.rt: one task
mod task_set; // task_set.rt: up to sixteen tasks, of which no rule is known
mod record; // record.rt: the plan record and its limits
mod layout; // layout.rt: header, areas and gaps
mod located; // located.rt: a file and its areas
mod plan_file; // plan_file.rt: an accepted file and its plan
mod rows; // rows.rt: the row decoder
mod names; // names.rt: name fields
mod reader; // reader.rt: READ, NAME and the loading of a plan
mod writer; // writer.rt: WRITE, the canonical form

// READ, NAME and WRITE
pub use errors::{ReadError, WriteError};
pub use faults::Fault;
pub use reader::{read_plan, task_name};
pub use writer::write_plan;

// for the layers above
pub use plan_file::PlanFile;
pub use reader::load_plan;
pub use record::{PerTask, Plan};
pub use task_set::TaskSet;
pub use tasks::Task;
pub use words::{put_bytes, put_words};
