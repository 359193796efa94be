// Which clauses are never taken.
ghost use Rattle.std.specs.Prelude.{◌≡◌};
ghost use Rattle.std.specs.List.{list_any};
ghost use Rattle.rules.specs.Clauses.{bad_clause, bad_literal};

// The most literals of a clause.
const LONGEST: usize = 130;

// Whether a literal is 0 or beyond the widest variable.
fn bad_literal(widest: usize, literal: i32) -> bool
    ensures tells_bad { result ≡ bad_literal widest literal }
{
    let size = literal.unsigned_abs() as usize;
    size == 0 || size > widest
}

fn some_bad(widest: usize, clause: &[i32]) -> bool
    ensures tells_some_bad { result ≡ list_any (bad_literal widest) clause.now }
{
    clause.iter().any(|literal| bad_literal(widest, *literal))
}

// Whether a clause has over 130 literals, or a literal that is 0 or beyond the widest variable.
pub fn bad_clause(widest: usize, clause: &[i32]) -> bool
    ensures tells_bad_clause { result ≡ bad_clause widest clause.now }
{
    clause.len() > LONGEST || some_bad(widest, clause)
}
