// Encode: the whole formula into an empty sink, or nothing.
ghost use Rattle.std.specs.Prelude.{◌≡◌, ◌-◌, ◌≤◌, [], length, drop, Ok, nat_le};
ghost use Rattle.rules.specs.Refusals.{answer};
ghost use Rattle.rules.specs.Checks.{first_refusal};
ghost use Rattle.rules.specs.Clauses.{total, literals as literals_of};
ghost use Rattle.rules.specs.Formula.{vars, formula as formula_of};
ghost use Rattle.problem.specs.Listed.{problem_of};
ghost use Rattle.problem.specs.Tables.{means};
ghost use Rattle.planner.specs.Encoded.{encode_checks, held_then, free_then, MeansSheets};
ghost use Rattle.planner.specs.Steps.{Kept};

use clauses::{Sink, Source};
use formula::Formula;
use problem::Problem;
use rules::Refusal;
use std::convert::Infallible;
use steps::SlotRule;

// What the whole formula costs in a sink.
fn formula_cost<S: Sink, R: SlotRule>(formula: &Formula<R>, sink: &S) -> usize
    ensures sums_costs { result ≡ total S.Sink.cost (formula_of (means formula.now.table) (R.SlotRule.parts formula.now.rule.now) formula.now.horizon) }
{
    let add_cost = |sum: &mut usize, clause: &[i32]| -> Result<(), Infallible> {
        *sum = sum.saturating_add(sink.cost_of(clause));
        Ok(())
    };
    let mut sum = 0;
    let Ok(()) = formula.each_clause(&add_cost, &mut sum);
    sum
}

// Whether a sink has space for the formula, of so many clauses and literals. No sink takes more than 8k + 2 for a clause of k literals: the cost is summed only where that does not tell.
fn formula_fits<S: Sink, R: SlotRule>(
    formula: &Formula<R>,
    sink: &S,
    clauses: usize,
    literals: usize,
) -> bool
    requires counted { clauses ≡ length (formula_of (means formula.now.table) (R.SlotRule.parts formula.now.rule.now) formula.now.horizon) }
    requires summed { literals ≡ literals_of (formula_of (means formula.now.table) (R.SlotRule.parts formula.now.rule.now) formula.now.horizon) }
    ensures tells_fit { result ≡ nat_le (total S.Sink.cost (formula_of (means formula.now.table) (R.SlotRule.parts formula.now.rule.now) formula.now.horizon)) (S.Sink.capacity sink.now - total S.Sink.cost (S.Source.held sink.now)) }
{
    8 * literals + 2 * clauses <= sink.space_left()
        || formula_cost(formula, sink) <= sink.space_left()
}

// Adds the formula to a sink that has space for it.
fn add_formula<S: Sink, R: SlotRule>(formula: &Formula<R>, sink: &mut S) -> Result<(), Refusal>
    requires empty { S.Source.held sink.old ≡ [] }
    requires wide { vars (means formula.now.table) formula.now.horizon ≤ S.Source.widest sink.old }
    requires room { total S.Sink.cost (formula_of (means formula.now.table) (R.SlotRule.parts formula.now.rule.now) formula.now.horizon) ≤ S.Sink.capacity sink.old }
    ensures grants { result ≡ Ok tt }
    ensures holds { S.Source.held sink.new ≡ formula_of (means formula.now.table) (R.SlotRule.parts formula.now.rule.now) formula.now.horizon }
    ensures rest { S.Sink.free sink.new ≡ drop (total S.Sink.cost (formula_of (means formula.now.table) (R.SlotRule.parts formula.now.rule.now) formula.now.horizon)) (S.Sink.free sink.old) }
    ensures kept { Kept S.Source.widest S.Sink.capacity S.Sink.lent sink.old sink.new }
{
    formula.each_clause(&|sink: &mut S, clause: &[i32]| sink.add(clause), sink)
}

// The whole formula into an empty sink, or nothing: refused by 7, 10, 11 and 9, in that order. Refused by 7 or 10, the problem's pairs are not read.
pub fn encode<S: Sink, R: SlotRule>(
    problem: &Problem,
    horizon: usize,
    rule: &R,
    sink: &mut S,
) -> Result<(), Refusal>
    ensures refuses_in_order { answer result ≡ first_refusal (encode_checks (problem_of problem.now.bytes.now) (R.SlotRule.parts rule.now) horizon (S.Source.held sink.old) (S.Source.widest sink.old) (S.Sink.capacity sink.old - total S.Sink.cost (S.Source.held sink.old)) S.Sink.cost) }
    ensures holds_the_formula { S.Source.held sink.new ≡ held_then result (S.Source.held sink.old) (formula_of (problem_of problem.now.bytes.now) (R.SlotRule.parts rule.now) horizon) }
    ensures leaves_the_rest { S.Sink.free sink.new ≡ free_then result (S.Sink.free sink.old) (total S.Sink.cost (formula_of (problem_of problem.now.bytes.now) (R.SlotRule.parts rule.now) horizon)) }
    ensures keeps_the_loan { Kept S.Source.widest S.Sink.capacity S.Sink.lent sink.old sink.new }
    ensures means_sheets { MeansSheets (problem_of problem.now.bytes.now) (R.SlotRule.parts rule.now) horizon }
{
    if horizon > 32 {
        return Err(Refusal::BadRequest);
    }
    if sink.clause_count() != 0 {
        return Err(Refusal::SinkNotEmpty);
    }
    let formula = Formula::of(problem, horizon, rule)?;
    let (variables, clauses, literals) = formula.sizes();
    if variables > sink.widest_variable() {
        return Err(Refusal::TooManyVariables);
    }
    if !formula_fits(&formula, &*sink, clauses, literals) {
        return Err(Refusal::NoSpace);
    }
    add_formula(&formula, sink)
}
