// Decode: the sheet of a model, written over a list.
ghost use Rattle.std.specs.Prelude.{◌≡◌, ◌≤◌, true, ◌++◌, length, drop, is_ok, if◌then◌else◌, MatchBool};
ghost use Rattle.std.specs.List.{AllByRecursion};
ghost use Rattle.rules.specs.Checks.{Answers};
ghost use Rattle.rules.specs.Clauses.{value};
ghost use Rattle.rules.specs.Refusals.{answer};
ghost use Rattle.rules.specs.Sheets.{sheet_of};
ghost use Rattle.problem.specs.Listed.{problem_of};
ghost use Rattle.problem.specs.Tables.{means};
ghost use Rattle.memory.specs.Held.{items, spare, room, lent};
ghost use Rattle.checking.specs.Told.{told};
ghost use Rattle.decoding.specs.Decode.{decode_tests, SheetOfModel};
ghost use Rattle.decoding.specs.Round.{UndoesAssign};
ghost use Rattle.decoding.specs.Added.{Decodes};

use crate::valuation::Valuation;
use checking::meets_formula;
use formula::Formula;
use memory::List;
use problem::Problem;
use rules::{Line, Refusal};
use steps::SlotRule;

// The byte of a true variable; no byte is above it.
const TRUE: u8 = 1;

fn all_bits(truth: &[u8]) -> bool
    ensures answers_bits { MatchBool result (AllByRecursion (λ b. b ≤ 1) truth.now) (AllByRecursion (λ b. b ≤ 1) truth.now → ⊥) }
{
    truth.iter().all(|b| *b <= TRUE)
}

// Decode for a formula: the horizon was asked, the rest is asked here.
fn decode_model<R: SlotRule>(
    formula: &Formula<R>,
    truth: &[u8],
    sheet: &mut List<Line>,
) -> Result<(), Refusal>
    requires few_slots { formula.now.horizon ≤ 32 }
    ensures decodes { Decodes (means formula.now.table) (R.SlotRule.parts formula.now.rule.now) formula.now.horizon truth.now sheet.old result sheet.new }
{
    if truth.len() != formula.variables() || !all_bits(truth) {
        return Err(Refusal::BadTruthMemory);
    }
    if !meets_formula(formula, truth) {
        return Err(Refusal::NotAModel);
    }
    let valuation = Valuation {
        table: &formula.table,
        horizon: formula.horizon as usize,
        truth,
    };
    if valuation.count_lines() > sheet.capacity() {
        return Err(Refusal::NoSpace);
    }
    valuation.write_sheet(sheet);
    Ok(())
}

// The sheet of a model, as lines that rise, written over the list; refused by 7, 14, 15 and 9, in that order.
pub fn decode<R: SlotRule>(
    problem: &Problem,
    horizon: usize,
    rule: &R,
    truth: &[u8],
    sheet: &mut List<Line>,
) -> Result<(), Refusal>
    ensures refuses_in_order { Answers (decode_tests (problem_of problem.now.bytes.now) (R.SlotRule.parts rule.now) horizon truth.now (room sheet.old)) (answer result) }
    ensures holds_the_sheet { items sheet.new ≡ (if is_ok result then sheet_of (problem_of problem.now.bytes.now) horizon (value (told truth.now)) else items sheet.old) }
    ensures leaves_the_rest { spare sheet.new ≡ (if is_ok result then drop (length (sheet_of (problem_of problem.now.bytes.now) horizon (value (told truth.now)))) (items sheet.old ++ spare sheet.old) else spare sheet.old) }
    ensures keeps_room { room sheet.new ≡ room sheet.old }
    ensures keeps_loan { lent sheet.new ≡ lent sheet.old }
    ensures gives_a_sheet { is_ok result ≡ true → SheetOfModel (problem_of problem.now.bytes.now) (R.SlotRule.parts rule.now) horizon truth.now (items sheet.new) }
    ensures undoes_assign { UndoesAssign (problem_of problem.now.bytes.now) (R.SlotRule.parts rule.now) horizon (room sheet.old) }
{
    decode_model(&Formula::of(problem, horizon, rule)?, truth, sheet)
}
