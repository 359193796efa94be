// One step carried out at the bench.
#![tactic(auto)]

ghost use Rattle.carrying.specs.Carried.{Carried, CarriesStep};

use steps::{FactSet, StepRecord};

// The state after the step is carried out, or nothing where it does not find its needs.
pub fn carry_out(step: &StepRecord, state: FactSet) -> Option<FactSet>
    ensures carries_out { Carried step.now state result }
    ensures carries_out_steps { CarriesStep step.now state result }
{
    step.needs
        .is_subset(state)
        .then(|| state.difference(step.clears).union(step.sets))
}
