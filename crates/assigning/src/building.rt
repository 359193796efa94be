// The bytes of a sheet's model, in the order of the variables.
ghost use Rattle.std.specs.Prelude.{◌≡◌, ◌+◌, ◌*◌, ◌<◌, length, take};
ghost use Rattle.rules.specs.Formula.{vars, width as width_of};
ghost use Rattle.rules.specs.Sheets.{model};
ghost use Rattle.problem.specs.Tables.{means};
ghost use Rattle.checking.specs.Told.{bytes_of};
ghost use Rattle.assigning.specs.Slots.{computed};

use crate::gathering::SlotTable;

impl<'a> SlotTable<'a> {
    // Whether variable i + 1 is true: a step by its mark, a fact by the state before and what its slot clears and sets.
    fn value_at(&self, known: &[u8], i: usize) -> bool
        requires within { i < 32 * width_of (means self.now.sheet.table.now) + self.now.sheet.table.now.facts }
        requires long { i < length known.now }
        ensures computes { result ≡ computed (means self.now.sheet.table.now) self.now.marks self.now.changes known.now i }
    {
        let table = self.sheet.table;
        let width = table.facts + table.steps;
        let t = i / width;
        let k = i % width;
        if k >= table.facts {
            return self.marks[128 * t + (k - table.facts)];
        }
        if t == 0 {
            return table.at_start(k + 1);
        }
        let change = self.changes[t - 1];
        let stays = known[i - width] == 1 && !change.clears.contains(k + 1);
        stays || change.sets.contains(k + 1)
    }

    // The bytes of the sheet's model, up to the last variable. They are fixed memory: no heap, and the caller's bytes are written only once all is checked. Each is told from earlier ones, so the loop goes by index.
    pub(crate) fn build(&self) -> [u8; 6208]
        ensures long { length result ≡ 6208 }
        ensures builds_model { take (vars (means self.now.sheet.table.now) self.now.sheet.horizon) result ≡ bytes_of (model (means self.now.sheet.table.now) self.now.sheet.horizon self.now.sheet.lines.now) }
    {
        let table = self.sheet.table;
        let mut bytes = [0; 6208];
        for i in 0..self.sheet.horizon * (table.facts + table.steps) + table.facts {
            bytes[i] = self.value_at(&bytes, i) as u8;
        }
        bytes
    }
}
