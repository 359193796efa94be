// What `sheet` does: T, the rule, a problem and a solver's answer become the lines of a sheet. T is at most 32, since the request was read: said of each function, since a request is a plain type that anyone may make. Each takes what the next one takes: a struct of these would be made once and taken apart once.
ghost use Rattle.std.specs.Prelude.{◌≡◌, ◌≤◌, ◌⊎◌, length, IfOk};
ghost use Rattle.rules.specs.Formula.{vars};
ghost use Rattle.steps.specs.Named.{rule_named};
ghost use Rattle.problem.specs.Listed.{problem_of};
ghost use Rattle.checking.specs.Told.{told, TruthBytes};
ghost use Rattle.sheet_call.specs.Replied.{problem_length, SheetPrinted, NoModel, Replied, NoReply, SheetTold};

use crate::printing::sheet_text;
use answers::{Status, read_answer};
use decoding::decode;
use formula::sizes;
use memory::List;
use problem::{Problem, read_problem};
use requests::{Request, read_request, refused_text};
use rules::Line;
use std::alloc::{AllocError, Global};

// No sheet has more: 32 slots of 128 steps.
const MOST_LINES: usize = 4096;

// How many of the bytes are the problem's.
fn problem_end(bytes: &[u8]) -> usize
    ensures ends_problem { result ≡ problem_length bytes.now }
    ensures within { result ≤ length bytes.now }
{
    let [_, _, _, _, low, high, ..] = bytes else {
        return bytes.len();
    };
    let pairs = usize::from(u16::from_le_bytes([*low, *high]));
    bytes.len().min(6 + 4 * pairs)
}

// The sheet of a model, or `refused 15`.
fn print_model(
    heap: Global,
    problem: &Problem,
    request: Request,
    truth: &[u8],
) -> Result<Vec<u8>, AllocError>
    requires few_slots { request.horizon ≤ 32 }
    requires truth_bytes { TruthBytes (vars (problem_of problem.now.bytes.now) request.horizon) truth.now }
    ensures prints_model { IfOk result (λ out. SheetPrinted (problem_of problem.now.bytes.now) (rule_named request.rule) request.horizon (told truth.now) out.items ⊎ NoModel (problem_of problem.now.bytes.now) (rule_named request.rule) request.horizon (told truth.now) out.items) }
{
    let mut memory = vec![in heap; Line { slot: 0, step: 0 }; MOST_LINES]?;
    let mut sheet = List::new(&mut memory);
    if let Err(refusal) = decode(problem, request.horizon, &request.rule, truth, &mut sheet) {
        return refused_text(heap, refusal);
    }
    sheet_text(heap, sheet.as_slice())
}

// What the answer comes to for the problem, with a byte of memory for each variable.
fn print_answer(
    heap: Global,
    problem: &Problem,
    request: Request,
    answer: &[u8],
    truth: &mut [u8],
) -> Result<Vec<u8>, AllocError>
    requires few_slots { request.horizon ≤ 32 }
    requires long { length truth.old ≡ vars (problem_of problem.now.bytes.now) request.horizon }
    ensures prints_answer { IfOk result (λ out. Replied (problem_of problem.now.bytes.now) (rule_named request.rule) request.horizon answer.now out.items ⊎ NoReply (problem_of problem.now.bytes.now) request.horizon answer.now out.items) }
{
    match read_answer(answer, truth.len(), truth) {
        Ok(Status::Satisfiable) => print_model(heap, problem, request, truth),
        Ok(Status::Unsatisfiable) => Ok(format!(in heap; "none claimed\n")?.into_bytes()),
        Ok(Status::Unknown) => Ok(format!(in heap; "unknown\n")?.into_bytes()),
        Err(refusal) => refused_text(heap, refusal),
    }
}

fn print_reply(
    heap: Global,
    problem: &Problem,
    request: Request,
    answer: &[u8],
) -> Result<Vec<u8>, AllocError>
    requires few_slots { request.horizon ≤ 32 }
    ensures prints_reply { IfOk result (λ out. Replied (problem_of problem.now.bytes.now) (rule_named request.rule) request.horizon answer.now out.items ⊎ NoReply (problem_of problem.now.bytes.now) request.horizon answer.now out.items) }
{
    match sizes(problem, request.horizon, &request.rule) {
        Ok((variables, _, _)) => {
            let mut truth = vec![in heap; 0u8; variables]?;
            print_answer(heap, problem, request, answer, &mut truth)
        }
        Err(refusal) => refused_text(heap, refusal),
    }
}

// What `sheet` prints for these bytes: lines only where they are a sheet that holds.
pub fn sheet_request(heap: Global, input: &[u8]) -> Result<Vec<u8>, AllocError>
    ensures prints_told { IfOk result (λ out. SheetTold input.now out.items) }
{
    let request = match read_request(input) {
        Ok(request) => request,
        Err(refusal) => return refused_text(heap, refusal),
    };
    let rest = &input[4..];
    let end = problem_end(rest);
    let mut problem = Problem::new();
    if let Err(refusal) = read_problem(&mut problem, &rest[0..end]) {
        return refused_text(heap, refusal);
    }
    let answer = &rest[end..];
    print_reply(heap, &problem, request, answer)
}
