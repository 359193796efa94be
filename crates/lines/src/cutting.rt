// Where a text is cut, and where a line ends: no other code knows how.
ghost use Rattle.std.specs.Prelude.{◌≡◌, false};
ghost use Rattle.std.specs.Option.{MatchOption};
ghost use Rattle.rules.specs.Lists.{has};
ghost use Rattle.lines.specs.Cut.{CutAt, Unended, Cut};

// What stands before the first byte `at`, and what stands after it; nothing where there is none.
pub fn cut_at(text: &[u8], at: u8) -> Option<(&[u8], &[u8])>
    ensures cuts_at_first { MatchOption result (has at text.now ≡ false) (λ p. CutAt at text.now p.0.now p.1.now) }
{
    let n = text.iter().position(|b| *b == at)?;
    Some((&text[..n], &text[n + 1..]))
}

// The first line of a text, and what stands after its end; nothing where no line ends.
pub fn next_line(text: &[u8]) -> Option<(&[u8], &[u8])>
    ensures cuts_line { MatchOption result (Unended text.now) (λ p. Cut text.now p.0.now p.1.now) }
{
    cut_at(text, b'\n')
}
