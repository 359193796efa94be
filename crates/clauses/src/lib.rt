// Clauses: where they are read from, where they go, and the sink over words.
#![tactic(auto)]

mod check;
mod laws;
mod sink;
mod source;
mod words;

pub use check::bad_clause;
pub use laws::walk_ends;
pub use sink::Sink;
pub use source::Source;
pub use words::WordSink;
pub use words::lending::word_sink;
