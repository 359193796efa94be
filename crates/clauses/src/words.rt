// The sink over lent words: the literals of each clause, then a 0.
ghost use Rattle.std.specs.Prelude.{◌≡◌, ◌≤◌, true, false, length, take};
ghost use Rattle.rules.specs.Clauses.{bad_clause};
ghost use Rattle.rules.specs.Lists.{any};
ghost use Rattle.clauses.specs.Rows.{parse, ends};

pub mod asking;
pub mod lending;
pub mod taking;

// The widest variable.
const WIDEST: usize = 4096;

// The first `used` words stand for clauses, of which there are `count`. The memory is the caller's: no heap is used, and a `memory::List` would hold no more than 1,048,576 of its words.
#[derive(Drop)]
pub struct WordSink<'a> {
    words: &'a mut [i32],
    used: usize,
    count: usize,
    ghost within: { used ≤ length words.now },
    ghost closed: { ends true (take used words.now) ≡ true },
    ghost counted: { count ≡ length (parse (take used words.now)) },
    ghost granted: { any (bad_clause 4096) (parse (take used words.now)) ≡ false },
}
