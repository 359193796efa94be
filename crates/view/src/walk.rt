// A body read word by word.
ghost use Rattle.std.specs.Prelude.{◌≡◌, [], not, MatchOption};
ghost use Rattle.std.specs.List.{position};
ghost use Rattle.view.specs.Body.{value_of};
ghost use Rattle.view.specs.Words.{gap, words_of, NextWord};

use crate::text_view::WIDEST;
use lines::read_number;

fn is_gap(b: u8) -> bool
    ensures tells_gap { result ≡ gap b }
{
    b == b' ' || b == b'\n'
}

// Where the first word begins.
fn word_start(text: &[u8]) -> Option<usize>
    ensures finds_word { result ≡ position (λ b. not (gap b)) text.now }
{
    text.iter().position(|b| !is_gap(*b))
}

// Where the first gap begins.
fn gap_start(text: &[u8]) -> Option<usize>
    ensures finds_gap { result ≡ position gap text.now }
{
    text.iter().position(|b| is_gap(*b))
}

// The first word, and what stands after it.
pub(crate) fn next_word(text: &[u8]) -> Option<(&[u8], &[u8])>
    ensures cuts_word { MatchOption result (words_of text.now ≡ []) (λ p. NextWord text.now p.0.now p.1.now) }
{
    let left = &text[word_start(text)?..];
    let end = gap_start(left).unwrap_or(left.len());
    Some(left.split_at(end))
}

// The number that a word is; 0 for a word that is none.
pub(crate) fn number_in(word: &[u8]) -> i32
    ensures reads_value { result ≡ value_of word.now }
{
    match read_number(word, WIDEST) {
        Some(number) => {
            let n = number.size as i32;
            if number.minus { -n } else { n }
        }
        None => 0,
    }
}
