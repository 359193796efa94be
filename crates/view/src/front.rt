// What stands before the clauses: comments and the head line.
ghost use Rattle.std.specs.Prelude.{◌≡◌, MatchOption, ◌==◌, slice_index};
ghost use Rattle.view.specs.Format.{Headed};
ghost use Rattle.view.specs.Reads.{ReadsHead, Unheaded};

use crate::text_view::WIDEST;
use lines::{cut_at, next_line, read_size};

// The most clauses of a text.
const MOST_CLAUSES: usize = 999_999;

fn is_comment(line: &[u8]) -> bool
    ensures tells_comment { result ≡ (slice_index line.now 0 == 99) }
{
    line.starts_with(b"c")
}

// V and C of a head line.
fn read_head(line: &[u8]) -> Option<(usize, usize)>
    ensures reads_head { ReadsHead line.now result }
{
    let numbers = line.strip_prefix(b"p cnf ")?;
    let (variables, clauses) = cut_at(numbers, b' ')?;
    let v = read_size(variables, WIDEST)?;
    let c = read_size(clauses, MOST_CLAUSES)?;
    Some((v, c))
}

// V, C and what stands after the head line.
pub(crate) fn read_front(text: &[u8]) -> Option<(usize, usize, &[u8])>
    ensures reads_front { MatchOption result (Unheaded text.now) (λ p. Headed text.now p.0 p.1 p.2.now) }
{
    let mut left = text;
    while let Some((line, rest)) = next_line(left) {
        if is_comment(line) {
            left = rest;
        } else {
            let (v, c) = read_head(line)?;
            return Some((v, c, rest));
        }
    }
    None
}
