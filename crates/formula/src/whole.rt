// The formula as one value: a problem, a slot rule and a horizon.
ghost use Rattle.std.specs.Prelude.{◌≡◌, ◌<◌, ◌≤◌, MatchResult};
ghost use Rattle.rules.specs.Refusals.{number};
ghost use Rattle.rules.specs.Formula.{vars};
ghost use Rattle.problem.specs.Listed.{problem_of};
ghost use Rattle.problem.specs.Tables.{means};

use problem::{Problem, StepTable};
use rules::Refusal;
use steps::SlotRule;

// The formula of a problem, read into a table, for so many slots that a rule allows. Every 16-bit horizon fits the literals; the ghost field tells proofs what the type says.
#[derive(Drop)]
pub struct Formula<'a, R> {
    pub table: StepTable,
    pub rule: &'a R,
    pub horizon: u16,
    ghost small: { horizon < 65536 },
}

impl<'a, R: SlotRule> Formula<'a, R> {
    // The problem's formula; a horizon above 32 is refused by 7.
    pub fn of(problem: &Problem, horizon: usize, rule: &'a R) -> Result<Formula<'a, R>, Refusal>
        ensures states_or_refuses { MatchResult result (λ f. (horizon ≤ 32) × (means f.table ≡ problem_of problem.now.bytes.now) × (f.rule.now ≡ rule.now) × (f.horizon ≡ horizon)) (λ e. (32 < horizon) × (number e ≡ 7)) }
    {
        if horizon > 32 {
            return Err(Refusal::BadRequest);
        }
        Ok(Formula {
            table: problem.table(),
            rule,
            horizon: horizon as u16,
        })
    }

    // V, how many variables there are.
    pub fn variables(&self) -> usize
        ensures counts_variables { result ≡ vars (means self.now.table) self.now.horizon }
    {
        self.horizon as usize * (self.table.facts + self.table.steps) + self.table.facts
    }
}
