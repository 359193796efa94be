// What `write` does: T, the rule and a problem become clause text.
ghost use Rattle.std.specs.Prelude.{◌≡◌, ◌≤◌, length, IfOk};
ghost use Rattle.steps.specs.Named.{rule_named};
ghost use Rattle.problem.specs.Listed.{problem_of};
ghost use Rattle.requests.specs.Written.{problem_text, written};
ghost use Rattle.requests.specs.Asked.{RequestChecked};

use crate::printing::{clause_text, refused_text};
use crate::request::Request;
use clauses::{Sink, Source};
use formula::sizes;
use planner::encode;
use problem::{Problem, read_problem};
use rules::Refusal;
use std::alloc::{AllocError, Global};
use steps::RuleName;
use text::text_sink;

// The two numbers before the problem: refused by 1 and 3 for the input's length, then by 7.
pub fn read_request(input: &[u8]) -> Result<Request, Refusal>
    ensures checks_in_order { RequestChecked input.now result }
{
    let [t_low, t_high, rule_low, rule_high, ..] = input else {
        return Err(Refusal::TooShort);
    };
    if input.len() > 65536 {
        return Err(Refusal::WrongLength);
    }
    let horizon = u16::from_le_bytes([*t_low, *t_high]);
    let rule = u16::from_le_bytes([*rule_low, *rule_high]);
    if horizon > 32 {
        return Err(Refusal::BadRequest);
    }
    Ok(Request {
        horizon: usize::from(horizon),
        rule: RuleName::try_from(rule)?,
    })
}

// The text of the problem's clauses, or `refused 9` where the memory has no space for their lines.
fn write_problem(
    heap: Global,
    problem: &Problem,
    request: Request,
    memory: &mut [u8],
) -> Result<Vec<u8>, AllocError>
    requires few_slots { request.horizon ≤ 32 }
    requires space { length memory.old ≡ 65536 }
    ensures prints_problem { IfOk result (λ out. out.items ≡ problem_text (problem_of problem.now.bytes.now) (rule_named request.rule) request.horizon) }
{
    let mut sink = text_sink(memory);
    if let Err(refusal) = encode(problem, request.horizon, &request.rule, &mut sink) {
        return refused_text(heap, refusal);
    }
    match sizes(problem, request.horizon, &request.rule) {
        Ok((variables, clauses, _)) => clause_text(heap, variables, clauses, sink.text()),
        Err(refusal) => refused_text(heap, refusal),
    }
}

// What `write` prints for these bytes.
pub fn write_request(heap: Global, input: &[u8]) -> Result<Vec<u8>, AllocError>
    ensures prints_written { IfOk result (λ out. out.items ≡ written input.now) }
{
    let request = match read_request(input) {
        Ok(request) => request,
        Err(refusal) => return refused_text(heap, refusal),
    };
    let mut problem = Problem::new();
    if let Err(refusal) = read_problem(&mut problem, &input[4..]) {
        return refused_text(heap, refusal);
    }
    let mut memory = vec![in heap; 0u8; 65536]?;
    write_problem(heap, &problem, request, &mut memory)
}
