// v lines, whose literals are kept as marks in the truth bytes: 0 unlisted, 1 listed, 2 listed by its negative.
// They are numbers, and no enum, since they stand in the bytes that the caller lends, where truth values follow.
ghost use Rattle.std.specs.Prelude.{◌≡◌, ◌%◌, map, Some, None, MatchOption};
ghost use Rattle.answers.specs.Following.{mark_word, mark_words, mark_values};

use crate::stage::Stage;
use crate::status::Status;
use lines::{cut_at, read_number};

// Marks the literal that a word is; nothing where it is none, or where its variable has a mark.
fn take_literal(word: &[u8], truth: &mut [u8]) -> Option<()>
    ensures marks_literal { MatchOption result (mark_word truth.old word.now ≡ None) (λ _. mark_word truth.old word.now ≡ Some truth.new) }
{
    let number = read_number(word, truth.len())?;
    if number.size == 0 || truth[number.size - 1] != 0 {
        return None;
    }
    truth[number.size - 1] = if number.minus { 2 } else { 1 };
    Some(())
}

// Takes the numbers of a v line, and answers where they lead; only the last may be the closing 0.
fn take_numbers(numbers: &[u8], truth: &mut [u8]) -> Option<Stage>
    ensures takes_numbers { MatchOption result (mark_words truth.old numbers.now ≡ None) (λ at. mark_words truth.old numbers.now ≡ Some (at, truth.new)) }
{
    let mut left = numbers;
    while let Some((word, rest)) = cut_at(left, b' ') {
        take_literal(word, truth)?;
        left = rest;
    }
    if let [b'0'] = left {
        return Some(Stage::Past(Status::Satisfiable));
    }
    take_literal(left, truth)?;
    Some(Stage::Among)
}

// Takes a v line, and answers where it leads.
pub(crate) fn take_values(line: &[u8], truth: &mut [u8]) -> Option<Stage>
    ensures takes_line { MatchOption result (mark_values truth.old line.now ≡ None) (λ at. mark_values truth.old line.now ≡ Some (at, truth.new)) }
{
    let [b'v', b' ', numbers @ ..] = line else {
        return None;
    };
    take_numbers(numbers, truth)
}

// Makes truth values of the marks.
pub(crate) fn settle(truth: &mut [u8])
    ensures settles_marks { truth.new ≡ map (λ b. b % 2) truth.old }
{
    for b in truth.iter_mut() {
        *b %= 2;
    }
}
