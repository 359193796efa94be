// Truth bytes of a problem's formula, and the steps that they have in each slot.
ghost use Rattle.std.specs.Prelude.{◌≡◌, ◌<◌, ◌≤◌};
ghost use Rattle.rules.specs.Clauses.{value};
ghost use Rattle.rules.specs.Formula.{step_var};
ghost use Rattle.problem.specs.Tables.{means};
ghost use Rattle.checking.specs.Told.{told};

use checking::is_true;
use problem::StepTable;

// Truth bytes beside the problem and the horizon that they are read for.
#[derive(Clone, Copy)]
pub(crate) struct Valuation<'a> {
    pub(crate) table: &'a StepTable,
    pub(crate) horizon: usize,
    pub(crate) truth: &'a [u8],
    ghost few: { horizon ≤ 32 },
}

impl<'a> Valuation<'a> {
    // Whether step a stands in slot u + 1. The slot is a number, here and in the two functions that go through one: it becomes the number of a line, and the slot of the formula crate may be any of 65,536.
    pub(crate) fn has_step(&self, u: usize, a: usize) -> bool
        requires few_slots { u < 32 }
        requires few_steps { a ≤ 128 }
        ensures answers_step { result ≡ value (told self.now.truth.now) (step_var (means self.now.table.now) u a) }
    {
        is_true(
            self.truth,
            u * (self.table.facts + self.table.steps) + self.table.facts + a,
        )
    }
}
