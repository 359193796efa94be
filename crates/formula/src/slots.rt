// One slot and the states before and after it: the variables there, and their literals.
ghost use Rattle.std.specs.Prelude.{◌≡◌, ℕ, ◌+◌, ◌*◌, ◌^◌, ◌<◌, ◌≤◌, pos, neg_ℤ};
ghost use Rattle.rules.specs.Formula.{fact_var, step_var};
ghost use Rattle.problem.specs.Tables.{means};
ghost use Rattle.formula.specs.Effects.{effect_literal};

use problem::{Part, StepTable};

// Slot `before` + 1 of a problem: `before` counts the slots that come earlier. That a fact is at most 64 and a step at most 128 each function asks for itself: the loops make these numbers from 1 on, and a type for them would be made and taken apart at each.
#[derive(Clone, Copy)]
pub(crate) struct Slot<'a> {
    pub(crate) table: &'a StepTable,
    pub(crate) before: usize,
    ghost within: { before < 65536 },
}

impl<'a> Slot<'a> {
    pub(crate) fn new(table: &'a StepTable, before: usize) -> Slot<'a>
        requires within { before < 65536 }
        ensures is_slot { result.table.now ≡ table.now }
        ensures follows { result.before ≡ before }
    {
        Slot { table, before }
    }

    // The fact in the state before the slot.
    pub(crate) fn fact_before(&self, f: usize) -> usize
        requires few { f ≤ 64 }
        ensures value { result ≡ fact_var (means self.now.table.now) self.now.before f }
        ensures small { result < 2 ^ 31 }
    {
        self.before * (self.table.facts + self.table.steps) + f
    }

    // The fact in the state after the slot.
    pub(crate) fn fact_after(&self, f: usize) -> usize
        requires few { f ≤ 64 }
        ensures value { result ≡ fact_var (means self.now.table.now) (self.now.before + 1) f }
        ensures small { result < 2 ^ 31 }
    {
        (self.before + 1) * (self.table.facts + self.table.steps) + f
    }

    // The step in the slot.
    pub(crate) fn step(&self, a: usize) -> usize
        requires few { a ≤ 128 }
        ensures value { result ≡ step_var (means self.now.table.now) self.now.before a }
        ensures small { result < 2 ^ 31 }
    {
        self.before * (self.table.facts + self.table.steps) + self.table.facts + a
    }

    // What a step in the slot says of the fact.
    pub(crate) fn effect(&self, part: Part, f: usize) -> i32
        requires few { f ≤ 64 }
        ensures literal { result ≡ effect_literal (means self.now.table.now) part self.now.before f }
    {
        match part {
            Part::Needs => aye(self.fact_before(f)),
            Part::Sets => aye(self.fact_after(f)),
            Part::Clears => nay(self.fact_after(f)),
        }
    }
}

pub(crate) fn aye(variable: usize) -> i32
    requires small { variable < 2 ^ 31 }
    ensures positive { result ≡ pos variable }
{
    variable as i32
}

pub(crate) fn nay(variable: usize) -> i32
    requires small { variable < 2 ^ 31 }
    ensures negative { result ≡ neg_ℤ (pos variable) }
{
    -(variable as i32)
}
