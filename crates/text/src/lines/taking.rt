// How a text sink takes clauses.
ghost use Rattle.std.specs.Prelude.{map, length, drop, pos};
ghost use Rattle.text.specs.Bounds.{text_cheap};
ghost use Rattle.text.specs.Lines.{text_cost};

use crate::digits::{line_cost, line_fits};
use crate::lines::{TextSink, WIDEST};
use crate::writing::put_line;
use clauses::{Sink, bad_clause};
use rules::Refusal;

impl<'a> Sink for TextSink<'a> {
    ghost capacity = { λ s. length s.bytes.now };

    ghost cost = { text_cost };

    ghost cheap = { text_cheap };

    ghost free = { λ s. map pos (drop s.used s.bytes.now) };

    ghost lent = { λ s. s.bytes.ghost_name };

    fn cost_of(&self, clause: &[i32]) -> usize {
        if bad_clause(WIDEST, clause) {
            0
        } else {
            line_cost(clause)
        }
    }

    fn space_left(&self) -> usize {
        self.bytes.len() - self.used
    }

    fn add(&mut self, clause: &[i32]) -> Result<(), Refusal> {
        if bad_clause(WIDEST, clause) {
            return Err(Refusal::BadClause);
        }
        if !line_fits(clause, self.bytes.len() - self.used) {
            return Err(Refusal::NoSpace);
        }
        let line = put_line(&mut self.bytes[self.used..], clause);
        self.used += line;
        self.count += 1;
        Ok(())
    }
}
