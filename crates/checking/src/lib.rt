// Truth bytes as a valuation, and whether it meets a problem's formula.
#![tactic(auto)]

mod bytes;
mod meeting;

pub use bytes::is_true;
pub use meeting::meets_formula;
