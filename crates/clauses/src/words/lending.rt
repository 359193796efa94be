// A word sink over lent words, and what its lender learns.
ghost use Rattle.std.specs.Prelude.{◌≡◌, ◌≤◌, [], length, take, drop};
ghost use Rattle.clauses.specs.Rows.{parse, flat};

use crate::words::WordSink;

impl<'a> WordSink<'a> {
    // How many words are in use.
    pub fn used(&self) -> usize
        ensures answers_used { result ≡ self.now.used }
        ensures within_capacity { result ≤ length self.now.words.now }
        ensures flat_in_use { take result self.now.words.now ≡ flat (parse (take result self.now.words.now)) }
    {
        self.used
    }

    // The words in use.
    pub fn words(&self) -> &[i32]
        ensures lends_flat { result.now ≡ flat (parse (take self.now.used self.now.words.now)) }
    {
        &self.words[0..self.used]
    }
}

// A sink over these words that holds nothing.
pub fn word_sink<'a>(words: &'a mut [i32]) -> WordSink<'a>
    ensures holds_nothing { parse (take result.used result.words.now) ≡ [] }
    ensures all_free { drop result.used result.words.now ≡ words.old }
    ensures capacity_given { length result.words.now ≡ length words.old }
    ensures same_loan { result.words.ghost_name ≡ words.entry.ghost_name }
{
    WordSink {
        words,
        used: 0,
        count: 0,
    }
}
