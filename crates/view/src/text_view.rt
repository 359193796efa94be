// Clauses read from the caller's bytes, of which none are copied.
ghost use Rattle.std.specs.Prelude.{◌≡◌, ◌≤◌, true, false, length};
ghost use Rattle.rules.specs.Clauses.{bad_clause};
ghost use Rattle.rules.specs.Lists.{any};
ghost use Rattle.view.specs.Body.{clauses_of, shuts};
ghost use Rattle.view.specs.Words.{words_of};

pub mod asking;
pub mod lending;

// The widest variable of any view.
pub(crate) const WIDEST: usize = 999_999;

// The text after its head line, with V and C from there.
#[derive(Clone, Copy)]
pub struct TextView<'a> {
    body: &'a [u8],
    variables: usize,
    clauses: usize,
    ghost narrow: { variables ≤ 999999 },
    ghost counted: { clauses ≡ length (clauses_of body.now) },
    ghost granted: { any (bad_clause variables) (clauses_of body.now) ≡ false },
    ghost closed: { shuts true (words_of body.now) ≡ true },
}
