// Planning problems, read from the caller's bytes.
#![tactic(auto)]

mod laws;
mod listing;
mod part;
mod problem;
mod table;

pub use laws::{granted_is_rendering, granted_is_sound, reads_the_listing};
pub use part::Part;
pub use problem::{Problem, read_problem};
pub use table::StepTable;
