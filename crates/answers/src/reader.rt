// An answer read line by line.
ghost use Rattle.std.specs.Prelude.{◌≡◌, Some, None, MatchOption};
ghost use Rattle.answers.specs.Answered.{Answered};
ghost use Rattle.answers.specs.Following.{opened, mark_line, mark_text};

use crate::parts::{claim_of, kind_of};
use crate::stage::{Kind, Stage};
use crate::status::Status;
use crate::values::{settle, take_values};
use lines::next_line;
use rules::Refusal;

// Where an s line leads; no `From`, since a stage is no form of a status.
fn opened_by(status: Status) -> Stage
    ensures leads_on { result ≡ opened status }
{
    match status {
        Status::Satisfiable => Stage::Among,
        other => Stage::Past(other),
    }
}

// Moves the stage on over a line; nothing where no answer has it there.
fn take_line(stage: &mut Stage, line: &[u8], truth: &mut [u8]) -> Option<()>
    ensures takes_line { MatchOption result (mark_line stage.old truth.old line.now ≡ None) (λ _. mark_line stage.old truth.old line.now ≡ Some (stage.new, truth.new)) }
{
    match (*stage, kind_of(line)) {
        (_, Kind::Comment) => {}
        (Stage::Before, Kind::Claim) => *stage = opened_by(claim_of(line)?),
        (Stage::Among, Kind::Values) => *stage = take_values(line, truth)?,
        _ => return None,
    }
    Some(())
}

// Takes all lines, from truth bytes that are 0; granted, marks are left in them.
fn take_lines(text: &[u8], truth: &mut [u8]) -> Option<Status>
    ensures takes_text { MatchOption result (mark_text truth.old text.now ≡ None) (λ status. mark_text truth.old text.now ≡ Some (status, truth.new)) }
{
    let mut stage = Stage::Before;
    let mut left = text;
    while let Some((line, rest)) = next_line(left) {
        take_line(&mut stage, line, truth)?;
        left = rest;
    }
    match stage {
        // The last line has its end too.
        Stage::Past(status) if left.is_empty() => Some(status),
        _ => None,
    }
}

// Reads an answer on the variables 1 to `variables`; byte v - 1 of `truth` becomes the truth value of variable v.
pub fn read_answer(text: &[u8], variables: usize, truth: &mut [u8]) -> Result<Status, Refusal>
    ensures answers_by_case { Answered variables text.now truth.old truth.new result }
{
    if truth.len() != variables {
        return Err(Refusal::BadTruthMemory);
    }
    truth.fill(0);
    let Some(status) = take_lines(text, truth) else {
        truth.fill(0);
        return Err(Refusal::NotAnAnswer);
    };
    settle(truth);
    Ok(status)
}
