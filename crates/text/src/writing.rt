// Clauses written as lines of text, each at the front of the bytes that it gets.
ghost use Rattle.std.specs.Prelude.{◌≡◌, ◌≤◌, false, length, take, drop};
ghost use Rattle.rules.specs.Clauses.{bad_literal, bad_clause};
ghost use Rattle.text.specs.Lines.{literal_text, line_text};

use crate::digits::digit_count;

// Writes a literal and a space, and says how many bytes they take. The digits come last first, so the loop goes down by index; formatting into the bytes would answer an error that cannot come, and not say how many it wrote.
fn put_literal(bytes: &mut [u8], l: i32) -> usize
    requires room { length (literal_text l) ≤ length bytes.old }
    requires good { bad_literal 999999 l ≡ false }
    ensures counts_bytes { result ≡ length (literal_text l) }
    ensures writes_literal { take result bytes.new ≡ literal_text l }
    ensures leaves_the_rest { drop result bytes.new ≡ drop result bytes.old }
    ensures keeps_length { length bytes.new ≡ length bytes.old }
{
    let size = l.unsigned_abs();
    let first = (l < 0) as usize;
    let count = digit_count(size);
    let end = first + count;
    // Without a sign the first digit overwrites the minus.
    bytes[0] = b'-';
    bytes[end] = b' ';
    let mut left = size;
    for i in (first..end).rev() {
        bytes[i] = b'0' + (left % 10) as u8;
        left /= 10;
    }
    end + 1
}

// Writes the line of a clause, and says how many bytes it takes.
pub(crate) fn put_line(bytes: &mut [u8], clause: &[i32]) -> usize
    requires room { length (line_text clause.now) ≤ length bytes.old }
    requires good { bad_clause 999999 clause.now ≡ false }
    ensures counts_bytes { result ≡ length (line_text clause.now) }
    ensures writes_line { take result bytes.new ≡ line_text clause.now }
    ensures leaves_the_rest { drop result bytes.new ≡ drop result bytes.old }
    ensures keeps_length { length bytes.new ≡ length bytes.old }
{
    let mut at = 0;
    for l in clause {
        at += put_literal(&mut bytes[at..], *l);
    }
    bytes[at] = b'0';
    bytes[at + 1] = b'\n';
    at + 2
}
