// Clause text as a source over the caller's bytes.
#![tactic(auto)]

mod check;
mod front;
mod laws;
mod text_view;
mod walk;

pub use laws::{says_once, written_says};
pub use text_view::TextView;
pub use text_view::lending::read_clause_text;
