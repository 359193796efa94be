// From problems to clauses in a sink.
#![tactic(auto)]

mod encoding;

pub use encoding::encode;
