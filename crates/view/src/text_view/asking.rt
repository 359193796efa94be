// What is asked of a view as a source.
ghost use Rattle.std.specs.Prelude.{drop, length};
ghost use Rattle.view.specs.Body.{clauses_of};
ghost use Rattle.view.specs.Bounds.{bounded_within};

use crate::text_view::{TextView, WIDEST};
use crate::walk::{next_word, number_in};
use clauses::Source;

impl<'a> Source for TextView<'a> {
    ghost held = { λ s. clauses_of s.body.now };

    ghost widest = { λ s. 999999 };

    ghost bounded = { λ s. bounded_within s.variables (clauses_of s.body.now) s.narrow s.granted };

    ghost rest = { λ s place. clauses_of (drop place s.body.now) };

    fn clause_count(&self) -> usize {
        self.clauses
    }

    fn widest_variable(&self) -> usize {
        WIDEST
    }

    fn first_place(&self) -> usize {
        0
    }

    fn word_at(&self, place: usize) -> Option<(i32, usize)> {
        if place >= self.body.len() {
            return None;
        }
        let (word, rest) = next_word(&self.body[place..])?;
        Some((number_in(word), self.body.len() - rest.len()))
    }
}
