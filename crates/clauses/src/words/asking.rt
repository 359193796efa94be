// What is asked of a word sink as a source.
ghost use Rattle.std.proofs.Common.{lit≤};
ghost use Rattle.std.specs.Prelude.{take, drop};
ghost use Rattle.clauses.specs.Granted.{bounded_by};
ghost use Rattle.clauses.specs.Rows.{parse};

use crate::source::Source;
use crate::words::{WIDEST, WordSink};

impl<'a> Source for WordSink<'a> {
    ghost held = { λ s. parse (take s.used s.words.now) };

    ghost widest = { λ s. 4096 };

    ghost bounded = { λ s. bounded_by 4096 (parse (take s.used s.words.now)) (lit≤ tt) s.granted };

    ghost rest = { λ s place. parse (drop place (take s.used s.words.now)) };

    fn clause_count(&self) -> usize {
        self.count
    }

    fn widest_variable(&self) -> usize {
        WIDEST
    }

    fn first_place(&self) -> usize {
        0
    }

    fn word_at(&self, place: usize) -> Option<(i32, usize)> {
        if place < self.used {
            Some((self.words[place], place + 1))
        } else {
            None
        }
    }
}
