// What the lines put into each slot.
ghost use Rattle.std.specs.Prelude.{◌≡◌, ℕ, ◌||◌};
ghost use Rattle.rules.specs.Lists.{has as has_fact};
ghost use Rattle.steps.specs.Sets.{facts_in};
ghost use Rattle.problem.specs.Tables.{means};
ghost use Rattle.assigning.specs.Slots.{Marks, Changes};

use crate::lines::SheetLines;
use problem::{Part, StepTable};
use steps::FactSet;

// All facts that a slot's steps clear, and all that they set.
#[derive(Clone, Copy, Default)]
pub(crate) struct SlotChange {
    pub(crate) clears: FactSet,
    pub(crate) sets: FactSet,
}

impl SlotChange {
    // What the slot changes with one step more.
    fn with(self, table: &StepTable, a: usize) -> SlotChange
        ensures joins_clears { (f : ℕ) → has_fact f (facts_in result.clears) ≡ (has_fact f (facts_in self.clears) || has_fact f ((means table.now).clears a)) }
        ensures joins_sets { (f : ℕ) → has_fact f (facts_in result.sets) ≡ (has_fact f (facts_in self.sets) || has_fact f ((means table.now).sets a)) }
    {
        SlotChange {
            clears: self.clears.union(table.part(Part::Clears, a)),
            sets: self.sets.union(table.part(Part::Sets, a)),
        }
    }
}

impl<'a> SheetLines<'a> {
    fn mark(&self) -> [bool; 4096]
        ensures marks_lines { Marks self.now.lines.now result }
    {
        let mut marks = [false; 4096];
        for l in self.lines {
            marks[128 * (l.slot as usize - 1) + (l.step as usize - 1)] = true;
        }
        marks
    }

    fn gather(&self) -> [SlotChange; 32]
        ensures joins_parts { Changes (means self.now.table.now) self.now.lines.now result }
    {
        let mut changes = [SlotChange::default(); 32];
        for l in self.lines {
            let u = l.slot as usize - 1;
            changes[u] = changes[u].with(self.table, l.step as usize);
        }
        changes
    }
}

// The lines of a sheet by slot: 128 places for each of 32 slots, true where the step stands in the slot, and what each slot changes. The arrays are fixed memory: no heap. The marks stay in an array of their own: a struct with an array for each slot would be written through two indexes in place of one.
#[derive(Drop)]
pub(crate) struct SlotTable<'a> {
    pub(crate) sheet: SheetLines<'a>,
    pub(crate) marks: [bool; 4096],
    pub(crate) changes: [SlotChange; 32],
    ghost marked: { Marks sheet.lines.now marks },
    ghost joined: { Changes (means sheet.table.now) sheet.lines.now changes },
}

impl<'a> SlotTable<'a> {
    pub(crate) fn of(sheet: SheetLines<'a>) -> SlotTable<'a>
        ensures of_sheet { result.sheet ≡ sheet.entry }
    {
        SlotTable {
            sheet,
            marks: sheet.mark(),
            changes: sheet.gather(),
        }
    }
}
