// `sheet_report`: the reply of a solver to the clauses that `report` prints, turned into a sheet that is carried out, told for the workshop. Every figure comes from a call.
#![tactic(auto)]

mod reply;

use answers::read_answer;
use carrying::carry_out;
use dash::{FACTS, FactNames, Refused, STEPS, problem_bytes};
use decoding::decode;
use formula::sizes;
use memory::List;
use problem::{Problem, read_problem};
use rules::{Line, Refusal};
use std::alloc::Global;
use steps::{FactSet, Parallel};

// How many slots the bench is given.
const SLOTS: usize = 5;

// In each report, and in no library: no contract can say what is printed.
fn print_refusal(rt: &HostRuntime, refusal: Refusal) -> anyhow::Result<()> {
    println!(rt; "  {}", Refused(refusal))?;
    Ok(())
}

// The facts present at the start; a loop over their numbers, since it needs no names.
fn start_state(problem: &Problem) -> FactSet {
    let mut state = FactSet::empty();
    for fact in 1..=FACTS.len() {
        if problem.at_start(fact) {
            state = state.with(fact);
        }
    }
    state
}

// One line of the sheet carried out: the state after it, or nothing where the step does not find its needs.
fn print_line(
    rt: &HostRuntime,
    problem: &Problem,
    line: Line,
    state: FactSet,
) -> anyhow::Result<Option<FactSet>> {
    let (slot, a) = (line.slot, line.step as usize);
    let (Some(step), Some(name)) = (problem.step(a), STEPS.get(a.wrapping_sub(1))) else {
        return Ok(None);
    };
    println!(rt; "Slot {slot}: {name}")?;
    let after = carry_out(&step, state);
    match after {
        Some(next) => println!(rt; "  now:{}", FactNames(next))?,
        None => println!(rt; "  does not find its needs")?,
    }
    Ok(after)
}

// The sheet carried out line by line, and which goals are reached.
fn print_done(rt: &HostRuntime, problem: &Problem, lines: &[Line]) -> anyhow::Result<()> {
    let mut state = start_state(problem);
    println!(rt; "  at first:{}", FactNames(state))?;
    for line in lines {
        match print_line(rt, problem, *line, state)? {
            Some(next) => state = next,
            None => return Ok(()),
        }
    }
    for (name, fact) in FACTS.iter().zip(1..) {
        if problem.is_goal(fact) {
            let reached = if state.contains(fact) {
                "reached"
            } else {
                "missing"
            };
            println!(rt; "Goal {reached}: {name}")?;
        }
    }
    Ok(())
}

// The sheet that the truth values are the model of.
fn print_sheet(
    rt: &HostRuntime,
    problem: &Problem,
    truth: &[u8],
    memory: &mut [Line],
) -> anyhow::Result<()> {
    let mut sheet = List::new(memory);
    if let Err(refusal) = decode(problem, SLOTS, &Parallel, truth, &mut sheet) {
        return print_refusal(rt, refusal);
    }
    let count = sheet.len();
    println!(rt; "It is a model. Its sheet has {count} lines:")?;
    print_done(rt, problem, sheet.as_slice())
}

// The solver's reply, read and turned into a sheet.
fn print_reply(rt: &HostRuntime, heap: Global, problem: &Problem) -> anyhow::Result<()> {
    let variables = match sizes(problem, SLOTS, &Parallel) {
        Ok((variables, _, _)) => variables,
        Err(refusal) => return print_refusal(rt, refusal),
    };
    let mut truth = vec![in heap; 0u8; variables]?;
    match read_answer(reply::ANSWER.as_bytes(), variables, &mut truth) {
        Ok(status) => println!(rt; "The solver's reply: {status:?}")?,
        Err(refusal) => return print_refusal(rt, refusal),
    }
    let mut memory = vec![in heap; Line { slot: 0, step: 0 }; 40]?;
    print_sheet(rt, problem, &truth, &mut memory)
}

fn main(rt: HostRuntime) -> anyhow::Result<()> {
    let heap = rt.alloc();
    let bytes = problem_bytes(heap)?;
    let mut problem = Problem::new();
    if let Err(refusal) = read_problem(&mut problem, &bytes) {
        return print_refusal(&rt, refusal);
    }
    print_reply(&rt, heap, &problem)
}
