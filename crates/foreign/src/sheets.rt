// Reading an answer, decode and assign for programs in other languages, whose interface fixes their parameters.
ghost use Rattle.std.specs.Prelude.{min, length};
ghost use Rattle.rules.specs.Checks.{Answers};
ghost use Rattle.rules.specs.Refusals.{answer as answer_of};
ghost use Rattle.problem.specs.Listed.{problem_of};
ghost use Rattle.decoding.specs.Decode.{decode_tests};
ghost use Rattle.assigning.specs.Assign.{assign_tests};
ghost use Rattle.lending.specs.Lent.{lines_after};
ghost use Rattle.requests.specs.Written.{rule_of};
ghost use Rattle.foreign.specs.Told.{by_number, told_of, done_told, TestsCalled, truth_after, AnswerCalled};

use crate::telling::tell;
use answers::read_answer;
use assigning::assign;
use lending::decode_lines;
use problem::{Problem, read_problem};
use rules::{Line, Refusal};
use steps::RuleName;

fn decode_by_number(
    problem: &[u8],
    horizon: u16,
    rule: u16,
    truth: &[u8],
    lines: &mut [Line],
) -> Result<usize, Refusal>
    ensures refuses_in_order { Answers (by_number problem.now rule (decode_tests (problem_of problem.now) (rule_of rule) horizon truth.now (min (length lines.old) 1048576))) (answer_of result) }
    ensures whole_memory { lines_after (problem_of problem.now) horizon truth.now lines.old result lines.new }
{
    let mut held = Problem::new();
    read_problem(&mut held, problem)?;
    let rule = RuleName::try_from(rule)?;
    decode_lines(&held, horizon as usize, &rule, truth, lines)
}

fn assign_by_number(
    problem: &[u8],
    horizon: u16,
    rule: u16,
    lines: &[Line],
    truth: &mut [u8],
) -> Result<(), Refusal>
    ensures refuses_in_order { Answers (by_number problem.now rule (assign_tests (problem_of problem.now) (rule_of rule) horizon lines.now (length truth.old))) (answer_of result) }
    ensures whole_memory { truth_after (problem_of problem.now) horizon lines.now truth.old result truth.new }
{
    let mut held = Problem::new();
    read_problem(&mut held, problem)?;
    let rule = RuleName::try_from(rule)?;
    assign(&held, horizon as usize, &rule, lines, truth)
}

// The solver's answer into truth bytes: 1 satisfiable, 2 unsatisfiable, 3 unknown.
#[unsafe(no_mangle)]
pub extern "C" fn cabinmedlar_read_answer(text: &[u8], variables: usize, truth: &mut [u8]) -> i64
    ensures tells_the_answer { AnswerCalled variables text.now truth.old truth.new result }
{
    tell(read_answer(text, variables, truth))
}

// The sheet of a model into lines; tells how many.
#[unsafe(no_mangle)]
pub extern "C" fn cabinmedlar_decode(
    problem: &[u8],
    horizon: u16,
    rule: u16,
    truth: &[u8],
    lines: &mut [Line],
) -> i64
    ensures tells_the_call { TestsCalled (by_number problem.now rule (decode_tests (problem_of problem.now) (rule_of rule) horizon truth.now (min (length lines.old) 1048576))) told_of (lines_after (problem_of problem.now) horizon truth.now lines.old) lines.new result }
{
    tell(decode_by_number(problem, horizon, rule, truth, lines))
}

// The model of a sheet that holds into truth bytes.
#[unsafe(no_mangle)]
pub extern "C" fn cabinmedlar_assign(
    problem: &[u8],
    horizon: u16,
    rule: u16,
    lines: &[Line],
    truth: &mut [u8],
) -> i64
    ensures tells_the_call { TestsCalled (by_number problem.now rule (assign_tests (problem_of problem.now) (rule_of rule) horizon lines.now (length truth.old))) done_told (truth_after (problem_of problem.now) horizon lines.now truth.old) truth.new result }
{
    tell(assign_by_number(problem, horizon, rule, lines, truth))
}
