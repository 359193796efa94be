// What the programs do, as calls from input bytes to output bytes.
#![tactic(auto)]

mod lending;
mod printing;
mod request;
mod writing;

pub use lending::{encode_text, encode_words};
pub use printing::{clause_text, refused_text};
pub use request::Request;
pub use steps::RuleName;
pub use writing::{read_request, write_request};
