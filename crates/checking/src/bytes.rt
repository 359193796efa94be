ghost use Rattle.std.specs.Prelude.{◌≡◌};
ghost use Rattle.rules.specs.Clauses.{value};
ghost use Rattle.checking.specs.Told.{told};

// Whether the bytes make the variable true; a variable past them is false.
pub fn is_true(truth: &[u8], variable: usize) -> bool
    ensures answers_value { result ≡ value (told truth.now) variable }
{
    let place = variable.saturating_sub(1);
    place < truth.len() && truth[place] == 1
}
