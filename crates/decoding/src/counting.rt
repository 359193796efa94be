// How many lines the truth bytes make. Tried: `filter` and `count`, and `map` and `sum`, which leave open what the closure asks of its slot.
ghost use Rattle.std.specs.Prelude.{◌≡◌, ◌<◌, ◌≤◌, length};
ghost use Rattle.rules.specs.Clauses.{value};
ghost use Rattle.rules.specs.Sheets.{sheet_of};
ghost use Rattle.problem.specs.Tables.{means};
ghost use Rattle.checking.specs.Told.{told};
ghost use Rattle.decoding.specs.Added.{slot_lines};

use crate::valuation::Valuation;

impl<'a> Valuation<'a> {
    fn count_slot(&self, u: usize) -> usize
        requires few_slots { u < 32 }
        ensures counts_slot { result ≡ length (slot_lines (means self.now.table.now) (value (told self.now.truth.now)) u) }
        ensures few { result ≤ 128 }
    {
        let mut n = 0;
        for a in 1..self.table.steps + 1 {
            if self.has_step(u, a) {
                n += 1;
            }
        }
        n
    }

    pub(crate) fn count_lines(&self) -> usize
        ensures counts_lines { result ≡ length (sheet_of (means self.now.table.now) self.now.horizon (value (told self.now.truth.now))) }
    {
        let mut n = 0;
        for u in 0..self.horizon {
            n += self.count_slot(u);
        }
        n
    }
}
