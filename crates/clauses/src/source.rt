// Where clauses are read from.
ghost use Rattle.std.specs.Prelude.{◌≡◌, ℕ, List, length};
ghost use Rattle.rules.specs.Clauses.{Clause};
ghost use Rattle.clauses.specs.Asked.{Bounded, length_at, literal_at, first_length, first_literal};
ghost use Rattle.clauses.specs.Walk.{Begins, Reads};

// A source means a list of clauses and a widest variable. Questions change nothing.
pub trait Source {
    ghost held: { Self → List Clause };

    ghost widest: { Self → ℕ };

    // The widest variable is at most 999,999, and each literal's size is from 1 to it.
    ghost bounded: { (s : Self) → Bounded (widest s) (held s) };

    // The clauses from a place on, the first of them from its literal there on.
    ghost rest: { Self → ℕ → List Clause };

    fn clause_count(&self) -> usize
        ensures counts_clauses { result ≡ length (held self.now) };

    fn widest_variable(&self) -> usize
        ensures answers_widest { result ≡ widest self.now };

    // Where a walk over the whole source begins.
    fn first_place(&self) -> usize
        ensures begins_all { rest self.now result ≡ held self.now };

    // The word at a place, a literal or the 0 that closes a clause, and the place after it. One walk is linear in the literals.
    fn word_at(&self, place: usize) -> Option<(i32, usize)>
        ensures reads_word { Reads (rest self.now place) (rest self.now) result };

    // Where clause n begins, counted from 1. These walks go word by word, since a source is asked by place: an iterator over words would be one more type for them alone.
    fn clause_start(&self, n: usize) -> Option<usize>
        ensures begins_clause { Begins (held self.now) (rest self.now) n result }
    {
        let mut left = n.checked_sub(1)?;
        let mut place = self.first_place();
        while left > 0 {
            let (word, next) = self.word_at(place)?;
            if word == 0 {
                left -= 1;
            }
            place = next;
        }
        Some(place)
    }

    // The length of the clause that begins at a place.
    fn length_from(&self, from: usize) -> Option<usize>
        ensures measures_clause { result ≡ first_length (rest self.now from) }
    {
        let mut length = 0;
        let mut place = from;
        while let Some((word, next)) = self.word_at(place) {
            if word == 0 {
                return Some(length);
            }
            length += 1;
            place = next;
        }
        None
    }

    // Literal k, counted from 0, of the clause that begins at a place.
    fn literal_from(&self, from: usize, k: usize) -> Option<i32>
        ensures picks_literal { result ≡ first_literal (rest self.now from) k }
    {
        let mut left = k;
        let mut place = from;
        while let Some((word, next)) = self.word_at(place) {
            if word == 0 {
                return None;
            }
            if left == 0 {
                return Some(word);
            }
            left -= 1;
            place = next;
        }
        None
    }

    // The length of clause n, counted from 1.
    fn clause_length(&self, n: usize) -> Option<usize>
        ensures answers_length { result ≡ length_at (held self.now) n }
    {
        let from = self.clause_start(n)?;
        self.length_from(from)
    }

    // Literal k of clause n, both counted from 1.
    fn literal(&self, n: usize, k: usize) -> Option<i32>
        ensures answers_literal { result ≡ literal_at (held self.now) n k }
    {
        let left = k.checked_sub(1)?;
        let from = self.clause_start(n)?;
        self.literal_from(from, left)
    }
}
