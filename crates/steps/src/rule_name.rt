// The two rules by name, for whoever is told which to take.
ghost use Rattle.rules.proofs.Rules.{single_lawful_lem, parallel_lawful_lem};
ghost use Rattle.steps.specs.declared.rule_name.RuleName.TheVariants.{Single as SingleName, Parallel as ParallelName};
ghost use Rattle.steps.specs.Named.{rule_named, NamesRule};

use crate::slot_rule::{Parallel, Single, SlotRule};
use crate::step_record::StepRecord;
use rules::Refusal;

// Which of the two rules is asked for.
#[derive(Clone, Copy, PartialEq, Eq, Debug)]
pub enum RuleName {
    Single,
    Parallel,
}

// A named rule answers what the rule of that name does.
impl SlotRule for RuleName {
    ghost parts = { rule_named };

    ghost lawful = { elim [ SingleName ↦ single_lawful_lem | ParallelName ↦ parallel_lawful_lem ] };

    fn apart(&self, a: &StepRecord, b: &StepRecord) -> bool {
        match self {
            RuleName::Single => Single.apart(a, b),
            RuleName::Parallel => Parallel.apart(a, b),
        }
    }
}

// By number: 1 is single and 2 is parallel.
impl TryFrom<u16> for RuleName {
    type Error = Refusal;

    ghost try_from_gives = { NamesRule };

    fn try_from(number: u16) -> Result<RuleName, Refusal> {
        match number {
            1 => Ok(RuleName::Single),
            2 => Ok(RuleName::Parallel),
            _ => Err(Refusal::BadRequest),
        }
    }
}
