// Decode into memory that the caller lends.
ghost use Rattle.std.specs.Prelude.{min, length};
ghost use Rattle.rules.specs.Checks.{Answers};
ghost use Rattle.rules.specs.Refusals.{answer};
ghost use Rattle.problem.specs.Listed.{problem_of};
ghost use Rattle.decoding.specs.Decode.{decode_tests};
ghost use Rattle.lending.specs.Lent.{lines_after};

use decoding::decode;
use memory::List;
use problem::Problem;
use rules::{Line, Refusal};
use steps::SlotRule;

// The sheet of a model, line by line; answers how many lines it has.
pub fn decode_lines<R: SlotRule>(
    problem: &Problem,
    horizon: usize,
    rule: &R,
    truth: &[u8],
    lines: &mut [Line],
) -> Result<usize, Refusal>
    ensures refuses_in_order { Answers (decode_tests (problem_of problem.now.bytes.now) (R.SlotRule.parts rule.now) horizon truth.now (min (length lines.old) 1048576)) (answer result) }
    ensures whole_memory { lines_after (problem_of problem.now.bytes.now) horizon truth.now lines.old result lines.new }
{
    let mut sheet = List::new(lines);
    decode(problem, horizon, rule, truth, &mut sheet)?;
    Ok(sheet.len())
}
