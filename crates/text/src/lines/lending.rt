// A text sink over lent bytes, and what its lender learns.
ghost use Rattle.std.specs.Prelude.{◌≡◌, ◌≤◌, [], length, take, drop};
ghost use Rattle.clauses.specs.Rows.{parse};
ghost use Rattle.text.specs.Lines.{lines_text};
ghost use Rattle.text.specs.Scan.{numbers};

use crate::lines::TextSink;

impl<'a> TextSink<'a> {
    // How many bytes are in use.
    pub fn used(&self) -> usize
        ensures answers_used { result ≡ self.now.used }
        ensures within_capacity { result ≤ length self.now.bytes.now }
        ensures lines_in_use { take result self.now.bytes.now ≡ lines_text (parse (numbers (take result self.now.bytes.now))) }
    {
        self.used
    }

    // The lines of the clauses held.
    pub fn text(&self) -> &[u8]
        ensures lends_lines { result.now ≡ lines_text (parse (numbers (take self.now.used self.now.bytes.now))) }
    {
        &self.bytes[0..self.used]
    }
}

// A sink over these bytes that holds nothing.
pub fn text_sink<'a>(bytes: &'a mut [u8]) -> TextSink<'a>
    ensures holds_nothing { parse (numbers (take result.used result.bytes.now)) ≡ [] }
    ensures all_free { drop result.used result.bytes.now ≡ bytes.old }
    ensures capacity_given { length result.bytes.now ≡ length bytes.old }
    ensures same_loan { result.bytes.ghost_name ≡ bytes.entry.ghost_name }
{
    TextSink {
        bytes,
        used: 0,
        count: 0,
    }
}
