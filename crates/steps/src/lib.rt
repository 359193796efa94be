// Sets of facts, step records, and slot rules with their names.
#![tactic(auto)]

mod fact_set;
mod rule_name;
mod slot_rule;
mod step_record;

pub use fact_set::FactSet;
pub use rule_name::RuleName;
pub use slot_rule::{Parallel, Single, SlotRule};
pub use step_record::StepRecord;
