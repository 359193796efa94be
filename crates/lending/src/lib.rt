// Calls into memory that the caller lends: what all of it holds afterwards.
#![tactic(auto)]

mod sheets;

pub use sheets::decode_lines;
