// `report`: one dash from its step list to clauses for a solver, told for the workshop. Every figure comes from a call.
#![tactic(auto)]

use clauses::{Sink, Source, word_sink};
use dash::{FACTS, FactNames, Refused, STEPS, problem_bytes};
use formula::sizes;
use planner::encode;
use problem::{Problem, read_problem};
use rules::Refusal;
use std::io::Write;
use steps::Parallel;
use text::text_sink;

// How many slots the bench is given.
const SLOTS: usize = 5;

fn print_problem(rt: &HostRuntime, problem: &Problem) -> anyhow::Result<()> {
    let (facts, steps, pairs) = (problem.facts(), problem.steps(), problem.pairs());
    println!(rt; "The step list has {facts} facts, {steps} steps and {pairs} pairs.")?;
    println!(rt; "It arrives with:")?;
    for (name, fact) in FACTS.iter().zip(1..) {
        if problem.at_start(fact) {
            println!(rt; "  {name}")?;
        }
    }
    println!(rt; "It must leave with:")?;
    for (name, fact) in FACTS.iter().zip(1..) {
        if problem.is_goal(fact) {
            println!(rt; "  {name}")?;
        }
    }
    Ok(())
}

fn print_steps(rt: &HostRuntime, problem: &Problem) -> anyhow::Result<()> {
    for (name, a) in STEPS.iter().zip(1..) {
        if let Some(step) = problem.step(a) {
            println!(rt; "Step {a}, {name}")?;
            println!(rt; "  needs:{}", FactNames(step.needs))?;
            println!(rt; "  sets:{}", FactNames(step.sets))?;
            println!(rt; "  clears:{}", FactNames(step.clears))?;
        }
    }
    Ok(())
}

// In each report, and in no library: no contract can say what is printed.
fn print_refusal(rt: &HostRuntime, refusal: Refusal) -> anyhow::Result<()> {
    println!(rt; "  {}", Refused(refusal))?;
    Ok(())
}

fn print_sizes(rt: &HostRuntime, problem: &Problem) -> anyhow::Result<()> {
    match sizes(problem, SLOTS, &Parallel) {
        Ok((variables, clauses, literals)) => println!(rt;
            "For {SLOTS} slots the formula has {variables} variables, {clauses} clauses and {literals} literals."
        )?,
        Err(refusal) => print_refusal(rt, refusal)?,
    }
    Ok(())
}

// The formula into so many words: how many it used, or nothing where it was refused.
fn print_words(rt: &HostRuntime, problem: &Problem, words: &mut [i32]) -> anyhow::Result<usize> {
    let given = words.len();
    println!(rt; "Into {given} words:")?;
    let mut sink = word_sink(words);
    if let Err(refusal) = encode(problem, SLOTS, &Parallel, &mut sink) {
        print_refusal(rt, refusal)?;
        return Ok(0);
    }
    let (used, count) = (sink.used(), sink.clause_count());
    println!(rt; "  granted, {count} clauses in {used} words")?;
    Ok(used)
}

// The same into as many words as it takes, and into one word less.
fn print_exact(
    rt: &HostRuntime,
    problem: &Problem,
    words: &mut [i32],
    used: usize,
) -> anyhow::Result<()> {
    if used == 0 || used > words.len() {
        return Ok(());
    }
    print_words(rt, problem, &mut words[..used])?;
    print_words(rt, problem, &mut words[..used - 1])?;
    Ok(())
}

// The formula as clause text, with its head line.
fn print_text(rt: &HostRuntime, problem: &Problem, bytes: &mut [u8]) -> anyhow::Result<()> {
    let mut sink = text_sink(bytes);
    if let Err(refusal) = encode(problem, SLOTS, &Parallel, &mut sink) {
        return print_refusal(rt, refusal);
    }
    let used = sink.used();
    println!(rt; "As text it takes {used} bytes. For the solver:")?;
    if let Ok((variables, clauses, _)) = sizes(problem, SLOTS, &Parallel) {
        println!(rt; "p cnf {variables} {clauses}")?;
    }
    rt.stdout().write_all(sink.text())?;
    Ok(())
}

fn main(rt: HostRuntime) -> anyhow::Result<()> {
    let heap = rt.alloc();
    let bytes = problem_bytes(heap)?;
    let mut problem = Problem::new();
    println!(rt; "Dash set-up report")?;
    if let Err(refusal) = read_problem(&mut problem, &bytes) {
        return print_refusal(&rt, refusal);
    }
    print_problem(&rt, &problem)?;
    print_steps(&rt, &problem)?;
    print_sizes(&rt, &problem)?;
    let mut words = vec![in heap; 0i32; 4096]?;
    let used = print_words(&rt, &problem, &mut words)?;
    print_exact(&rt, &problem, &mut words, used)?;
    let mut text = vec![in heap; 0u8; 65536]?;
    print_text(&rt, &problem, &mut text)
}
