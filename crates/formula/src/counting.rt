// V, C and L: how many variables, clauses and literals the formula has.
ghost use Rattle.std.specs.Prelude.{◌≡◌, ◌+◌, ◌≤◌, length};
ghost use Rattle.rules.specs.Clauses.{literals as literals_of};
ghost use Rattle.rules.specs.Formula.{start_clauses, slot_clauses, goal_clauses};
ghost use Rattle.problem.specs.Listed.{problem_of};
ghost use Rattle.problem.specs.Tables.{means};
ghost use Rattle.formula.specs.Sizes.{SizesAre, SizesAsked};

use crate::tally::Tally;
use crate::whole::Formula;
use problem::Problem;
use rules::Refusal;
use steps::SlotRule;

impl<'a, R: SlotRule> Formula<'a, R> {
    // The counts of the start and goal clauses.
    fn count_ends(&self) -> Tally
        ensures clauses { result.clauses ≡ length (start_clauses (means self.now.table)) + length (goal_clauses (means self.now.table) self.now.horizon) }
        ensures literals { result.literals ≡ literals_of (start_clauses (means self.now.table)) + literals_of (goal_clauses (means self.now.table) self.now.horizon) }
        ensures few_clauses { result.clauses ≤ 256 }
        ensures few_literals { result.literals ≤ 256 }
    {
        let mut tally = Tally::default();
        let Ok(()) = self.each_start(&Tally::count, &mut tally);
        let Ok(()) = self.each_goal(&Tally::count, &mut tally);
        tally
    }

    // The counts of the first slot.
    fn count_slot(&self) -> Tally
        ensures clauses { result.clauses ≡ length (slot_clauses (means self.now.table) (R.SlotRule.parts self.now.rule.now) 0) }
        ensures literals { result.literals ≡ literals_of (slot_clauses (means self.now.table) (R.SlotRule.parts self.now.rule.now) 0) }
        ensures few_clauses { result.clauses ≤ 98560 }
        ensures few_literals { result.literals ≤ 98560 }
    {
        let mut tally = Tally::default();
        let Ok(()) = self.each_of_slot(0, &Tally::count, &mut tally);
        tally
    }

    // V, C and L from one slot's counts: every slot has as many clauses and literals as the first.
    pub fn sizes(&self) -> (usize, usize, usize)
        ensures counts_formula { SizesAre (means self.now.table) (R.SlotRule.parts self.now.rule.now) self.now.horizon result }
    {
        let ends = self.count_ends();
        let slot = self.count_slot();
        let slots = self.horizon as usize;
        (
            self.variables(),
            ends.clauses + slots * slot.clauses,
            ends.literals + slots * slot.literals,
        )
    }
}

// The sizes of the problem's formula; a horizon above 32 is refused by 7.
pub fn sizes<R: SlotRule>(
    problem: &Problem,
    horizon: usize,
    rule: &R,
) -> Result<(usize, usize, usize), Refusal>
    ensures answers_sizes { SizesAsked (problem_of problem.now.bytes.now) (R.SlotRule.parts rule.now) horizon result }
{
    Ok(Formula::of(problem, horizon, rule)?.sizes())
}
