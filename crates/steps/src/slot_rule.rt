// Which two steps may not stand in one slot.
ghost use Rattle.std.specs.Prelude.{◌≡◌};
ghost use Rattle.rules.specs.Steps.{Rule, Lawful, single, parallel};
ghost use Rattle.steps.specs.Sets.{meaning};
ghost use Rattle.rules.proofs.Rules.{single_lawful_lem, parallel_lawful_lem};

use crate::step_record::StepRecord;

// A slot rule means one yes or no for two different steps, the same at every question.
pub trait SlotRule {
    ghost parts: { Self → Rule };

    fn apart(&self, a: &StepRecord, b: &StepRecord) -> bool
        ensures answers_its_meaning { result ≡ parts self.now (meaning a.now) (meaning b.now) };

    // Exchanging the steps changes no answer, and what the law demands is parted.
    ghost lawful: { (s : Self) → Lawful (parts s) };
}

// Parts every two steps.
#[derive(Clone, Copy)]
pub struct Single;

impl SlotRule for Single {
    ghost parts = { λ _. single };

    ghost lawful = { λ s. single_lawful_lem };

    fn apart(&self, a: &StepRecord, b: &StepRecord) -> bool {
        a.number != b.number
    }
}

// Parts only where the law demands it: the clears of one against the needs and the sets of the other, each way.
#[derive(Clone, Copy)]
pub struct Parallel;

impl SlotRule for Parallel {
    ghost parts = { λ _. parallel };

    ghost lawful = { λ s. parallel_lawful_lem };

    fn apart(&self, a: &StepRecord, b: &StepRecord) -> bool {
        a.clears.meets(b.needs)
            || a.clears.meets(b.sets)
            || b.clears.meets(a.needs)
            || b.clears.meets(a.sets)
    }
}
