// The sink over bytes: clauses as lines of text.
#![tactic(auto)]

mod digits;
mod lines;
mod reading;
mod writing;

pub use lines::TextSink;
pub use lines::lending::text_sink;
