// The definitions that every contract cites, and their laws. Only plain types are code.
#![tactic(auto)]

mod laws;
mod line;
mod propagation_laws;
mod refusal;

pub use laws::{
    any_order, formula_means_sheets, parallel_lawful, sheets_can_be_done, single_lawful,
};
pub use line::Line;
pub use propagation_laws::{forced_in_any_order, outcome_unique, shown_holds, shown_or_not};
pub use refusal::Refusal;
