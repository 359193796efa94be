// The sink over lent bytes: a line of text for each clause.
ghost use Rattle.std.specs.Prelude.{◌≡◌, ◌≤◌, false, length, take};
ghost use Rattle.rules.specs.Clauses.{bad_clause};
ghost use Rattle.rules.specs.Lists.{any};
ghost use Rattle.clauses.specs.Rows.{parse};
ghost use Rattle.text.specs.Lines.{lines_text};
ghost use Rattle.text.specs.Scan.{numbers};

pub mod asking;
pub mod lending;
pub mod taking;

// The widest variable.
const WIDEST: usize = 999_999;

// The first `used` bytes are the lines of the clauses, of which there are `count`. The memory is the caller's: no heap is used, and a `memory::List` would hold no more than 1,048,576 of its bytes. No struct shared with the word sink:
// each fact but the first is about how this memory is read.
#[derive(Drop)]
pub struct TextSink<'a> {
    bytes: &'a mut [u8],
    used: usize,
    count: usize,
    ghost within: { used ≤ length bytes.now },
    ghost rendered: { lines_text (parse (numbers (take used bytes.now))) ≡ take used bytes.now },
    ghost counted: { count ≡ length (parse (numbers (take used bytes.now))) },
    ghost granted: { any (bad_clause 999999) (parse (numbers (take used bytes.now))) ≡ false },
}
