// Assign: the model of a sheet that holds.
ghost use Rattle.std.specs.Prelude.{◌≡◌, ◌≤◌, length, is_ok, if◌then◌else◌};
ghost use Rattle.rules.specs.Checks.{Answers};
ghost use Rattle.rules.specs.Problems.{Sound};
ghost use Rattle.rules.specs.Refusals.{answer};
ghost use Rattle.rules.specs.Sheets.{model};
ghost use Rattle.problem.specs.Listed.{problem_of};
ghost use Rattle.problem.specs.Tables.{means};
ghost use Rattle.checking.specs.Told.{bytes_of};
ghost use Rattle.assigning.specs.Assign.{assign_tests, Assigns};
ghost use Rattle.assigning.specs.Returned.{UndoesDecode};

use crate::gathering::SlotTable;
use crate::lines::SheetLines;
use checking::meets_formula;
use formula::Formula;
use problem::Problem;
use rules::{Line, Refusal};
use steps::SlotRule;

// Assign for a formula: the horizon was asked, the rest is asked here.
fn assign_sheet<R: SlotRule>(
    formula: &Formula<R>,
    lines: &[Line],
    truth: &mut [u8],
) -> Result<(), Refusal>
    requires few_slots { formula.now.horizon ≤ 32 }
    requires sound { Sound (means formula.now.table) }
    ensures assigns { Assigns (means formula.now.table) (R.SlotRule.parts formula.now.rule.now) formula.now.horizon lines.now truth.old result truth.new }
{
    let variables = formula.variables();
    if truth.len() != variables {
        return Err(Refusal::BadTruthMemory);
    }
    let sheet = SheetLines::read(formula, lines).ok_or(Refusal::BadSheetLines)?;
    let bytes = SlotTable::of(sheet).build();
    let built = &bytes[..variables];
    if !meets_formula(formula, built) {
        return Err(Refusal::SheetDoesNotHold);
    }
    truth.copy_from_slice(built);
    Ok(())
}

// The model of a sheet that holds, as truth bytes; refused by 7, 14, 16 and 17, in that order.
pub fn assign<R: SlotRule>(
    problem: &Problem,
    horizon: usize,
    rule: &R,
    lines: &[Line],
    truth: &mut [u8],
) -> Result<(), Refusal>
    ensures refuses_in_order { Answers (assign_tests (problem_of problem.now.bytes.now) (R.SlotRule.parts rule.now) horizon lines.now (length truth.old)) (answer result) }
    ensures writes_the_model { truth.new ≡ (if is_ok result then bytes_of (model (problem_of problem.now.bytes.now) horizon lines.now) else truth.old) }
    ensures undoes_decode { UndoesDecode (problem_of problem.now.bytes.now) (R.SlotRule.parts rule.now) horizon }
{
    assign_sheet(&Formula::of(problem, horizon, rule)?, lines, truth)
}
