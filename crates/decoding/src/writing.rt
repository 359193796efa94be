// The lines that the truth bytes make, written over a list that has space for them.
ghost use Rattle.std.specs.Prelude.{◌≡◌, ◌+◌, ◌<◌, ◌≤◌, ◌++◌, length, drop};
ghost use Rattle.rules.specs.Clauses.{value};
ghost use Rattle.rules.specs.Sheets.{sheet_of};
ghost use Rattle.problem.specs.Tables.{means};
ghost use Rattle.memory.specs.Held.{items, spare, room, lent};
ghost use Rattle.checking.specs.Told.{told};
ghost use Rattle.decoding.specs.Added.{slot_lines, Written};

use crate::valuation::Valuation;
use memory::List;
use rules::Line;

impl<'a> Valuation<'a> {
    fn write_slot(&self, u: usize, sheet: &mut List<Line>)
        requires few_slots { u < 32 }
        requires space { length (items sheet.old) + length (slot_lines (means self.now.table.now) (value (told self.now.truth.now)) u) ≤ room sheet.old }
        ensures writes_slot { Written sheet.old (slot_lines (means self.now.table.now) (value (told self.now.truth.now)) u) sheet.new }
    {
        for a in 1..self.table.steps + 1 {
            if self.has_step(u, a) {
                let _ = sheet.add(Line {
                    slot: (u + 1) as u16,
                    step: a as u16,
                });
            }
        }
    }

    fn write_slots(&self, sheet: &mut List<Line>)
        requires space { length (items sheet.old) + length (sheet_of (means self.now.table.now) self.now.horizon (value (told self.now.truth.now))) ≤ room sheet.old }
        ensures writes_slots { Written sheet.old (sheet_of (means self.now.table.now) self.now.horizon (value (told self.now.truth.now))) sheet.new }
    {
        for u in 0..self.horizon {
            self.write_slot(u, sheet);
        }
    }

    // What the list held makes place for the sheet.
    pub(crate) fn write_sheet(&self, sheet: &mut List<Line>)
        requires space { length (sheet_of (means self.now.table.now) self.now.horizon (value (told self.now.truth.now))) ≤ room sheet.old }
        ensures holds { items sheet.new ≡ sheet_of (means self.now.table.now) self.now.horizon (value (told self.now.truth.now)) }
        ensures rest { spare sheet.new ≡ drop (length (sheet_of (means self.now.table.now) self.now.horizon (value (told self.now.truth.now)))) (items sheet.old ++ spare sheet.old) }
        ensures same_room { room sheet.new ≡ room sheet.old }
        ensures same_loan { lent sheet.new ≡ lent sheet.old }
    {
        let _ = sheet.cut(0);
        self.write_slots(sheet);
    }
}
