// A SAT solver's answer, read from its text.
#![tactic(auto)]

mod laws;
mod parts;
mod reader;
mod stage;
mod status;
mod values;

pub use laws::answers_read_one_way;
pub use reader::read_answer;
pub use status::Status;
