// The calls of a refutation and their runs, as definitions that the calls' contracts cite, and the laws on them. Only plain types are code.
#![tactic(auto)]

mod laws;
mod noted;
mod place;
mod plan_laws;
mod verdict;

pub use laws::{
    counts_within_variables, lemmas_read_back, lists_hold_live_lemmas, models_are_safe,
    no_model_concludes, one_answer_each, runs_keep_order,
};
pub use noted::Noted;
pub use place::Record;
pub use plan_laws::{no_sheet_concludes, sheets_are_safe};
pub use verdict::Verdict;
