// How a word sink takes clauses.
ghost use Rattle.std.specs.Prelude.{◌≡◌, length, drop};
ghost use Rattle.clauses.specs.Rows.{word_cost, word_cheap};

use crate::check::bad_clause;
use crate::sink::Sink;
use crate::words::{WIDEST, WordSink};
use rules::Refusal;

// Copies a clause's literals over as many words. Tried: `copy_from_slice`, whose call for two or three words costs more than they do, and takes encode past 1.5 times plain Rust.
fn put_words(words: &mut [i32], clause: &[i32])
    requires same { length words.old ≡ length clause.now }
    ensures after { words.new ≡ clause.now }
{
    for i in 0..clause.len() {
        words[i] = clause[i];
    }
}

impl<'a> Sink for WordSink<'a> {
    ghost capacity = { λ s. length s.words.now };

    ghost cost = { word_cost };

    ghost cheap = { word_cheap };

    ghost free = { λ s. drop s.used s.words.now };

    ghost lent = { λ s. s.words.ghost_name };

    fn cost_of(&self, clause: &[i32]) -> usize {
        if bad_clause(WIDEST, clause) {
            0
        } else {
            clause.len() + 1
        }
    }

    fn space_left(&self) -> usize {
        self.words.len() - self.used
    }

    fn add(&mut self, clause: &[i32]) -> Result<(), Refusal> {
        if bad_clause(WIDEST, clause) {
            return Err(Refusal::BadClause);
        }
        let n = clause.len();
        let at = self.used;
        if self.words.len() - at < n + 1 {
            return Err(Refusal::NoSpace);
        }
        put_words(&mut self.words[at..at + n], clause);
        self.words[at + n] = 0;
        self.used = at + n + 1;
        self.count += 1;
        Ok(())
    }
}
