// The formula of a problem at a horizon: its clauses enumerated in one place, and its sizes.
#![tactic(auto)]

mod counting;
mod enumeration;
mod showing;
mod slots;
mod tally;
mod whole;

pub use counting::sizes;
pub use whole::Formula;
