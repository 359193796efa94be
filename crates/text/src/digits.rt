// Literals as text: how long they are, and their digits.
ghost use Rattle.std.specs.Prelude.{◌≡◌, ◌+◌, ◌<◌, ◌≤◌, false, [], ◌∷◌, ◌++◌, length, decimal, nat_le};
ghost use Rattle.rules.specs.Clauses.{bad_literal, bad_clause};
ghost use Rattle.text.specs.Lines.{literal_text, line_text};

// How many digits a number has.
pub(crate) fn digit_count(n: u32) -> usize
    requires small { n < 1000000 }
    ensures counts_digits { result ≡ length (decimal n) }
    ensures few_digits { result ≤ 6 }
{
    // A sum of tests, since which of them hold cannot be foreseen.
    1 + (n >= 10) as usize
        + (n >= 100) as usize
        + (n >= 1_000) as usize
        + (n >= 10_000) as usize
        + (n >= 100_000) as usize
}

// The bytes of a literal and its space. Who counts a line asks that its clause is good: one plain condition of three private functions, and a type of its own would be made for each clause that is added.
fn literal_cost(l: i32) -> usize
    requires good { bad_literal 999999 l ≡ false }
    ensures counts_bytes { result ≡ length (literal_text l) }
    ensures few_bytes { result ≤ 8 }
{
    let digits = digit_count(l.unsigned_abs());
    if l < 0 { digits + 2 } else { digits + 1 }
}

// The bytes of a clause's line. Tried: `map` and `sum`, which leave open what each call requires of its literal.
pub(crate) fn line_cost(clause: &[i32]) -> usize
    requires good { bad_clause 999999 clause.now ≡ false }
    ensures counts_line { result ≡ length (line_text clause.now) }
{
    let mut cost = 2;
    for l in clause {
        cost += literal_cost(*l);
    }
    cost
}

// Whether a clause's line fits into so many bytes; it is counted only where it might not.
pub(crate) fn line_fits(clause: &[i32], left: usize) -> bool
    requires good { bad_clause 999999 clause.now ≡ false }
    ensures fits_line { result ≡ nat_le (length (line_text clause.now)) left }
{
    if left >= 8 * clause.len() + 2 {
        return true;
    }
    line_cost(clause) <= left
}
