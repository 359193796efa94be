// Calls for programs in other languages: a slice passes as a pointer and a length, and the rule as its number, since C has no other form. Each call fills a problem that it holds, as no Result carries one, and then takes the rule. The benchmark links them.
#![tactic(auto)]

ghost use Rattle.std.specs.Prelude.{◌≡◌, length};
ghost use Rattle.rules.specs.Refusals.{answer};
ghost use Rattle.problem.specs.Listed.{problem_of};
ghost use Rattle.clauses.specs.Rows.{word_cost};
ghost use Rattle.text.specs.Lines.{text_cost};
ghost use Rattle.requests.specs.Written.{rule_of};
ghost use Rattle.requests.specs.Lent.{words_after, text_after};
ghost use Rattle.foreign.specs.Told.{call_verdict, Called};

mod sheets;
mod telling;

use problem::{Problem, read_problem};
use requests::{encode_text, encode_words};
use rules::Refusal;
pub use sheets::{cabinmedlar_assign, cabinmedlar_decode, cabinmedlar_read_answer};
use steps::RuleName;
use telling::tell;

fn words_by_number(
    problem: &[u8],
    horizon: u16,
    rule: u16,
    words: &mut [i32],
) -> Result<usize, Refusal>
    ensures refuses_in_order { answer result ≡ call_verdict problem.now horizon rule 4096 (length words.old) word_cost }
    ensures whole_memory { words_after (problem_of problem.now) (rule_of rule) horizon words.old result words.new }
{
    let mut held = Problem::new();
    read_problem(&mut held, problem)?;
    let rule = RuleName::try_from(rule)?;
    encode_words(&held, horizon as usize, &rule, words)
}

fn text_by_number(
    problem: &[u8],
    horizon: u16,
    rule: u16,
    text: &mut [u8],
) -> Result<usize, Refusal>
    ensures refuses_in_order { answer result ≡ call_verdict problem.now horizon rule 999999 (length text.old) text_cost }
    ensures whole_memory { text_after (problem_of problem.now) (rule_of rule) horizon text.old result text.new }
{
    let mut held = Problem::new();
    read_problem(&mut held, problem)?;
    let rule = RuleName::try_from(rule)?;
    encode_text(&held, horizon as usize, &rule, text)
}

// The problem's formula into words.
#[unsafe(no_mangle)]
pub extern "C" fn cabinmedlar_encode_words(
    problem: &[u8],
    horizon: u16,
    rule: u16,
    words: &mut [i32],
) -> i64
    ensures tells_the_call { Called (call_verdict problem.now horizon rule 4096 (length words.old) word_cost) (words_after (problem_of problem.now) (rule_of rule) horizon words.old) words.new result }
{
    tell(words_by_number(problem, horizon, rule, words))
}

// The problem's formula into clause lines.
#[unsafe(no_mangle)]
pub extern "C" fn cabinmedlar_encode_text(
    problem: &[u8],
    horizon: u16,
    rule: u16,
    text: &mut [u8],
) -> i64
    ensures tells_the_call { Called (call_verdict problem.now horizon rule 999999 (length text.old) text_cost) (text_after (problem_of problem.now) (rule_of rule) horizon text.old) text.new result }
{
    tell(text_by_number(problem, horizon, rule, text))
}
