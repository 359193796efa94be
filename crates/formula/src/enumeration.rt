// The clauses of the formula, in their order: those of one slot, then the whole.
ghost use Rattle.std.specs.Prelude.{◌≡◌, ◌<◌, ◌≤◌, ◌++◌};
ghost use Rattle.rules.specs.Problems.{steps_of};
ghost use Rattle.rules.specs.Formula.{start_cell, start_clauses, frame_cell, frame_clauses, parted_clauses, slot_clauses, goal_cell, goal_clauses, formula as formula_of};
ghost use Rattle.steps.specs.Sets.{facts_in, meaning};
ghost use Rattle.problem.specs.Tables.{means, part_of};
ghost use Rattle.formula.specs.Effects.{effect_cell, effect_row, effect_clauses, doers};
ghost use Rattle.formula.specs.Rows.{parted_pair, parted_row};
ghost use Rattle.formula.specs.Visits.{Shown, Visits};

use crate::showing::{show, show_if};
use crate::slots::{Slot, aye, nay};
use crate::whole::Formula;
use arrayvec::ArrayVec;
use problem::Part;
use steps::{FactSet, SlotRule, StepRecord};

impl<'a> Slot<'a> {
    fn effect_clause<S, E, F: Fn(&mut S, &[i32]) -> Result<(), E>>(
        &self,
        part: Part,
        a: usize,
        set: FactSet,
        f: usize,
        visit: &F,
        state: &mut S,
    ) -> Result<(), E>
        requires callable { F.IsAlwaysCallable visit.now }
        requires few_steps { a ≤ 128 }
        requires few_facts { f ≤ 64 }
        requires is_set { facts_in set ≡ part_of (means self.now.table.now) part a }
        ensures visits_effect { Visits (Shown F.Fn visit.now) state.old (effect_cell (means self.now.table.now) part self.now.before a f) result state.new }
    {
        show_if(
            set.contains(f),
            &[nay(self.step(a)), self.effect(part, f)],
            visit,
            state,
        )
    }

    // By fact: what the step needs, sets or clears. Its set is read once.
    #[inline(always)]
    fn effects_of<S, E, F: Fn(&mut S, &[i32]) -> Result<(), E>>(
        &self,
        part: Part,
        a: usize,
        visit: &F,
        state: &mut S,
    ) -> Result<(), E>
        requires callable { F.IsAlwaysCallable visit.now }
        requires few { a ≤ 128 }
        ensures visits_row { Visits (Shown F.Fn visit.now) state.old (effect_row (means self.now.table.now) part self.now.before a) result state.new }
    {
        let set = self.table.part(part, a);
        for f in 1..self.table.facts + 1 {
            self.effect_clause(part, a, set, f, visit, state)?;
        }
        Ok(())
    }

    // By step, then fact: what the steps need, set or clear. Inlined, the two are compiled for each kind apart, and ask at no fact which kind it is.
    #[inline(always)]
    fn each_effect<S, E, F: Fn(&mut S, &[i32]) -> Result<(), E>>(
        &self,
        part: Part,
        visit: &F,
        state: &mut S,
    ) -> Result<(), E>
        requires callable { F.IsAlwaysCallable visit.now }
        ensures visits_effects { Visits (Shown F.Fn visit.now) state.old (effect_clauses (means self.now.table.now) part self.now.before) result state.new }
    {
        for a in 1..self.table.steps + 1 {
            self.effects_of(part, a, visit, state)?;
        }
        Ok(())
    }

    // The two literals of a fact that changed, then each step that can have changed it. The clause is shown where it is made: one that is handed back is copied.
    fn frame_clause<S, E, F: Fn(&mut S, &[i32]) -> Result<(), E>>(
        &self,
        part: Part,
        f: usize,
        changed: [i32; 2],
        visit: &F,
        state: &mut S,
    ) -> Result<(), E>
        requires callable { F.IsAlwaysCallable visit.now }
        requires few { f ≤ 64 }
        ensures explains_change { Shown F.Fn visit.now state.old (changed ++ doers (means self.now.table.now) part self.now.before f (steps_of (means self.now.table.now))) result state.new }
    {
        let [first, second] = changed;
        let mut clause: ArrayVec<i32, 130> = ArrayVec::new();
        clause.push(first);
        clause.push(second);
        for a in 1..self.table.steps + 1 {
            if self.table.has(part, a, f) {
                clause.push(aye(self.step(a)));
            }
        }
        show(&clause, visit, state)
    }

    // A fact that appears was set, and one that is lost was cleared.
    fn frame_pair<S, E, F: Fn(&mut S, &[i32]) -> Result<(), E>>(
        &self,
        f: usize,
        visit: &F,
        state: &mut S,
    ) -> Result<(), E>
        requires callable { F.IsAlwaysCallable visit.now }
        requires few { f ≤ 64 }
        ensures visits_pair { Visits (Shown F.Fn visit.now) state.old (frame_cell (means self.now.table.now) self.now.before f) result state.new }
    {
        let before = self.fact_before(f);
        let after = self.fact_after(f);
        self.frame_clause(Part::Sets, f, [aye(before), nay(after)], visit, state)?;
        self.frame_clause(Part::Clears, f, [nay(before), aye(after)], visit, state)
    }

    // By fact: why it appeared, and why it was lost.
    fn each_frame<S, E, F: Fn(&mut S, &[i32]) -> Result<(), E>>(
        &self,
        visit: &F,
        state: &mut S,
    ) -> Result<(), E>
        requires callable { F.IsAlwaysCallable visit.now }
        ensures visits_frames { Visits (Shown F.Fn visit.now) state.old (frame_clauses (means self.now.table.now) self.now.before) result state.new }
    {
        for f in 1..self.table.facts + 1 {
            self.frame_pair(f, visit, state)?;
        }
        Ok(())
    }

    // Two steps that the rule parts are not both in the slot.
    fn parted_clause<S, E, R: SlotRule, F: Fn(&mut S, &[i32]) -> Result<(), E>>(
        &self,
        rule: &R,
        first: &StepRecord,
        second: &StepRecord,
        visit: &F,
        state: &mut S,
    ) -> Result<(), E>
        requires callable { F.IsAlwaysCallable visit.now }
        requires few { (first.now.number ≤ 128) × (second.now.number ≤ 128) }
        ensures visits_parted { Visits (Shown F.Fn visit.now) state.old (parted_pair (means self.now.table.now) (R.SlotRule.parts rule.now) self.now.before (meaning first.now) (meaning second.now)) result state.new }
    {
        show_if(
            rule.apart(first, second),
            &[nay(self.step(first.number)), nay(self.step(second.number))],
            visit,
            state,
        )
    }

    // By later step: each that the rule parts from this one. Its record is read once.
    fn parted_from<S, E, R: SlotRule, F: Fn(&mut S, &[i32]) -> Result<(), E>>(
        &self,
        rule: &R,
        a: usize,
        visit: &F,
        state: &mut S,
    ) -> Result<(), E>
        requires callable { F.IsAlwaysCallable visit.now }
        requires few { a ≤ 128 }
        ensures visits_row { Visits (Shown F.Fn visit.now) state.old (parted_row (means self.now.table.now) (R.SlotRule.parts rule.now) self.now.before a) result state.new }
    {
        let first = self.table.step(a);
        for b in a + 1..self.table.steps + 1 {
            self.parted_clause(rule, &first, &self.table.step(b), visit, state)?;
        }
        Ok(())
    }

    // By step, then later step.
    fn each_parted<S, E, R: SlotRule, F: Fn(&mut S, &[i32]) -> Result<(), E>>(
        &self,
        rule: &R,
        visit: &F,
        state: &mut S,
    ) -> Result<(), E>
        requires callable { F.IsAlwaysCallable visit.now }
        ensures visits_all_parted { Visits (Shown F.Fn visit.now) state.old (parted_clauses (means self.now.table.now) (R.SlotRule.parts rule.now) self.now.before) result state.new }
    {
        for a in 1..self.table.steps + 1 {
            self.parted_from(rule, a, visit, state)?;
        }
        Ok(())
    }

    // The clauses of the slot.
    fn each_clause<S, E, R: SlotRule, F: Fn(&mut S, &[i32]) -> Result<(), E>>(
        &self,
        rule: &R,
        visit: &F,
        state: &mut S,
    ) -> Result<(), E>
        requires callable { F.IsAlwaysCallable visit.now }
        ensures visits_slot { Visits (Shown F.Fn visit.now) state.old (slot_clauses (means self.now.table.now) (R.SlotRule.parts rule.now) self.now.before) result state.new }
    {
        self.each_effect(Part::Needs, visit, state)?;
        self.each_effect(Part::Sets, visit, state)?;
        self.each_effect(Part::Clears, visit, state)?;
        self.each_frame(visit, state)?;
        self.each_parted(rule, visit, state)
    }
}

impl<'a, R: SlotRule> Formula<'a, R> {
    fn start_clause<S, E, F: Fn(&mut S, &[i32]) -> Result<(), E>>(
        &self,
        f: usize,
        visit: &F,
        state: &mut S,
    ) -> Result<(), E>
        requires callable { F.IsAlwaysCallable visit.now }
        requires few { f ≤ 64 }
        ensures visits_start { Visits (Shown F.Fn visit.now) state.old (start_cell (means self.now.table) f) result state.new }
    {
        let variable = Slot::new(&self.table, 0).fact_before(f);
        if self.table.at_start(f) {
            show(&[aye(variable)], visit, state)
        } else {
            show(&[nay(variable)], visit, state)
        }
    }

    // By fact: present at the start, or absent.
    pub(crate) fn each_start<S, E, F: Fn(&mut S, &[i32]) -> Result<(), E>>(
        &self,
        visit: &F,
        state: &mut S,
    ) -> Result<(), E>
        requires callable { F.IsAlwaysCallable visit.now }
        ensures visits_starts { Visits (Shown F.Fn visit.now) state.old (start_clauses (means self.now.table)) result state.new }
    {
        for f in 1..self.table.facts + 1 {
            self.start_clause(f, visit, state)?;
        }
        Ok(())
    }

    // The clauses of slot `before` + 1.
    pub(crate) fn each_of_slot<S, E, F: Fn(&mut S, &[i32]) -> Result<(), E>>(
        &self,
        before: usize,
        visit: &F,
        state: &mut S,
    ) -> Result<(), E>
        requires callable { F.IsAlwaysCallable visit.now }
        requires within { before < 65536 }
        ensures visits_slot { Visits (Shown F.Fn visit.now) state.old (slot_clauses (means self.now.table) (R.SlotRule.parts self.now.rule.now) before) result state.new }
    {
        Slot::new(&self.table, before).each_clause(self.rule, visit, state)
    }

    fn goal_clause<S, E, F: Fn(&mut S, &[i32]) -> Result<(), E>>(
        &self,
        f: usize,
        visit: &F,
        state: &mut S,
    ) -> Result<(), E>
        requires callable { F.IsAlwaysCallable visit.now }
        requires few { f ≤ 64 }
        ensures visits_goal { Visits (Shown F.Fn visit.now) state.old (goal_cell (means self.now.table) self.now.horizon f) result state.new }
    {
        let end = Slot::new(&self.table, self.horizon as usize);
        show_if(
            self.table.is_goal(f),
            &[aye(end.fact_before(f))],
            visit,
            state,
        )
    }

    // By fact: the goals are present after the last slot.
    pub(crate) fn each_goal<S, E, F: Fn(&mut S, &[i32]) -> Result<(), E>>(
        &self,
        visit: &F,
        state: &mut S,
    ) -> Result<(), E>
        requires callable { F.IsAlwaysCallable visit.now }
        ensures visits_goals { Visits (Shown F.Fn visit.now) state.old (goal_clauses (means self.now.table) self.now.horizon) result state.new }
    {
        for f in 1..self.table.facts + 1 {
            self.goal_clause(f, visit, state)?;
        }
        Ok(())
    }

    // Shows the clauses in turn to a closure with a state beside it, until it stops.
    pub fn each_clause<S, E, F: Fn(&mut S, &[i32]) -> Result<(), E>>(
        &self,
        visit: &F,
        state: &mut S,
    ) -> Result<(), E>
        requires callable { F.IsAlwaysCallable visit.now }
        ensures visits_formula { Visits (Shown F.Fn visit.now) state.old (formula_of (means self.now.table) (R.SlotRule.parts self.now.rule.now) self.now.horizon) result state.new }
    {
        self.each_start(visit, state)?;
        for u in 0..self.horizon as usize {
            self.each_of_slot(u, visit, state)?;
        }
        self.each_goal(visit, state)
    }
}
