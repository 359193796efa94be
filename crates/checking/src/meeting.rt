ghost use Rattle.std.specs.Prelude.{◌≡◌, is_ok, MatchBool};
ghost use Rattle.rules.specs.Lists.{any};
ghost use Rattle.rules.specs.Clauses.{says, value, Satisfies};
ghost use Rattle.rules.specs.Formula.{formula as formula_of};
ghost use Rattle.problem.specs.Tables.{means};
ghost use Rattle.checking.specs.Told.{told};

use crate::bytes::is_true;
use formula::Formula;
use steps::SlotRule;

fn says_true(truth: &[u8], literal: i32) -> bool
    ensures answers_literal { result ≡ says (value (told truth.now)) literal }
{
    let said = is_true(truth, literal.unsigned_abs() as usize);
    if literal < 0 { !said } else { said }
}

// A clause that no literal makes true.
#[derive(Clone, Copy, PartialEq, Eq, Debug)]
struct Unmet;

fn meet_clause(truth: &[u8], clause: &[i32]) -> Result<(), Unmet>
    ensures answers_clause { is_ok result ≡ any (says (value (told truth.now))) clause.now }
{
    for l in clause {
        if says_true(truth, *l) {
            return Ok(());
        }
    }
    Err(Unmet)
}

// Whether the bytes give every clause of the formula a true literal, in one pass over its clauses.
pub fn meets_formula<R: SlotRule>(formula: &Formula<R>, truth: &[u8]) -> bool
    ensures answers_satisfaction { MatchBool result (Satisfies (value (told truth.now)) (formula_of (means formula.now.table) (R.SlotRule.parts formula.now.rule.now) formula.now.horizon)) (Satisfies (value (told truth.now)) (formula_of (means formula.now.table) (R.SlotRule.parts formula.now.rule.now) formula.now.horizon) → ⊥) }
{
    let meet = |_: &mut (), clause: &[i32]| meet_clause(truth, clause);
    formula.each_clause(&meet, &mut ()).is_ok()
}
