// Encode into memory that the caller lends: what all of it holds afterwards. One function for each sink: a trait over both would need six laws for these six lines. The problem, the horizon and the rule stand in each call as they do in encode.
ghost use Rattle.std.specs.Prelude.{◌≡◌, [], length};
ghost use Rattle.rules.specs.Refusals.{answer};
ghost use Rattle.rules.specs.Checks.{first_refusal};
ghost use Rattle.problem.specs.Listed.{problem_of};
ghost use Rattle.clauses.specs.Rows.{word_cost};
ghost use Rattle.text.specs.Lines.{text_cost};
ghost use Rattle.planner.specs.Encoded.{encode_checks};
ghost use Rattle.requests.specs.Lent.{words_after, text_after};

use clauses::{Sink, Source, word_sink};
use planner::encode;
use problem::Problem;
use rules::Refusal;
use steps::SlotRule;
use text::text_sink;

// The formula in words; answers how many it took.
pub fn encode_words<R: SlotRule>(
    problem: &Problem,
    horizon: usize,
    rule: &R,
    words: &mut [i32],
) -> Result<usize, Refusal>
    ensures refuses_in_order { answer result ≡ first_refusal (encode_checks (problem_of problem.now.bytes.now) (R.SlotRule.parts rule.now) horizon [] 4096 (length words.old) word_cost) }
    ensures whole_memory { words_after (problem_of problem.now.bytes.now) (R.SlotRule.parts rule.now) horizon words.old result words.new }
{
    let mut sink = word_sink(words);
    encode(problem, horizon, rule, &mut sink)?;
    Ok(sink.used())
}

// The formula as clause lines; answers how many bytes they took.
pub fn encode_text<R: SlotRule>(
    problem: &Problem,
    horizon: usize,
    rule: &R,
    bytes: &mut [u8],
) -> Result<usize, Refusal>
    ensures refuses_in_order { answer result ≡ first_refusal (encode_checks (problem_of problem.now.bytes.now) (R.SlotRule.parts rule.now) horizon [] 999999 (length bytes.old) text_cost) }
    ensures whole_memory { text_after (problem_of problem.now.bytes.now) (R.SlotRule.parts rule.now) horizon bytes.old result bytes.new }
{
    let mut lines = text_sink(bytes);
    encode(problem, horizon, rule, &mut lines)?;
    Ok(lines.used())
}
