// What is asked of a text sink as a source.
ghost use Rattle.std.proofs.Common.{lit≤};
ghost use Rattle.std.specs.Prelude.{take, drop};
ghost use Rattle.clauses.specs.Granted.{bounded_by};
ghost use Rattle.clauses.specs.Rows.{parse};
ghost use Rattle.text.specs.Scan.{numbers};

use crate::lines::{TextSink, WIDEST};
use crate::reading::first_number;
use clauses::Source;

impl<'a> Source for TextSink<'a> {
    ghost held = { λ s. parse (numbers (take s.used s.bytes.now)) };

    ghost widest = { λ s. 999999 };

    ghost bounded = { λ s. bounded_by 999999 (parse (numbers (take s.used s.bytes.now))) (lit≤ tt) s.granted };

    ghost rest = { λ s place. parse (numbers (drop place (take s.used s.bytes.now))) };

    fn clause_count(&self) -> usize {
        self.count
    }

    fn widest_variable(&self) -> usize {
        WIDEST
    }

    fn first_place(&self) -> usize {
        0
    }

    fn word_at(&self, place: usize) -> Option<(i32, usize)> {
        if place >= self.used {
            return None;
        }
        let (word, long) = first_number(&self.bytes[place..self.used])?;
        Some((word, place + long))
    }
}
