#![tactic(auto)]

// The listing of a plan: the text that program `timetable` writes.
mod writer; // writer.rt: fields, one after another, at the end of a text
mod lines; // lines.rt: the lines of a listing
mod listing; // listing.rt: the whole text

pub use listing::{INPUT_SIZE, list_input, list_plan};
pub use writer::{LISTING_SIZE, Listing};

// for the other programs
pub use lines::{REFUSAL_SIZE, list_refusal};
pub use writer::put_labelled;
