ghost use Rattle.std.specs.Prelude.{◌≡◌, MatchResult};
ghost use Rattle.rules.specs.Lists.{has};
ghost use Rattle.rules.specs.Refusals.{answer};
ghost use Rattle.problem.specs.Bytes.{facts as facts_of, steps as steps_of, pairs as pairs_of, fresh};
ghost use Rattle.problem.specs.Listed.{problem_of};
ghost use Rattle.problem.specs.Verdict.{verdict};
ghost use Rattle.problem.specs.Rendering.{Renders};
ghost use Rattle.problem.specs.Tables.{means, StepAsked};

use crate::listing::Listing;
use crate::problem::Problem;
use crate::table::StepTable;
use rules::Refusal;
use steps::StepRecord;

// Reads a problem from its bytes, or says which rule they break first. Refused, the problem stays as it was.
pub fn read_problem<'a>(problem: &mut Problem<'a>, bytes: &'a [u8]) -> Result<(), Refusal>
    ensures first_broken_rule { answer result ≡ verdict bytes.now }
    ensures grants_exactly_renderings { MatchResult result (λ _. Renders bytes.now) (λ _. Renders bytes.now → ⊥) }
    ensures filled_or_kept { MatchResult result (λ _. problem.new.bytes.now ≡ bytes.now) (λ _. problem.new ≡ problem.old) }
{
    let listing = Listing::read(bytes)?;
    *problem = Problem {
        bytes,
        facts: listing.facts,
        steps: listing.steps,
        pairs: listing.pairs,
    };
    Ok(())
}

impl<'a> Problem<'a> {
    // One fact, no step and no pair.
    pub fn new() -> Problem<'a>
        ensures is_fresh { result.bytes.now ≡ fresh }
    {
        Problem {
            bytes: &[1, 0, 0, 0, 0, 0],
            facts: 1,
            steps: 0,
            pairs: 0,
        }
    }

    // F, how many facts there are.
    pub fn facts(&self) -> usize
        ensures answers_facts { result ≡ facts_of self.now.bytes.now }
    {
        self.facts
    }

    // A, how many steps there are.
    pub fn steps(&self) -> usize
        ensures answers_steps { result ≡ steps_of self.now.bytes.now }
    {
        self.steps
    }

    // P, how many pairs there are.
    pub fn pairs(&self) -> usize
        ensures answers_pairs { result ≡ pairs_of self.now.bytes.now }
    {
        self.pairs
    }

    fn listing(&self) -> Listing<'a>
        ensures same_bytes { result.bytes.now ≡ self.now.bytes.now }
    {
        Listing {
            bytes: self.bytes,
            facts: self.facts,
            steps: self.steps,
            pairs: self.pairs,
        }
    }

    // All its sets, in one pass over the pairs: for whoever asks more than one question.
    pub fn table(&self) -> StepTable
        ensures states_the_problem { means result ≡ problem_of self.now.bytes.now }
    {
        StepTable::read(&self.listing())
    }

    pub fn at_start(&self, fact: usize) -> bool
        ensures answers_start { result ≡ has fact (problem_of self.now.bytes.now).start }
    {
        self.table().at_start(fact)
    }

    pub fn is_goal(&self, fact: usize) -> bool
        ensures answers_goal { result ≡ has fact (problem_of self.now.bytes.now).goals }
    {
        self.table().is_goal(fact)
    }

    // The record of step a, or nothing where there is no such step.
    pub fn step(&self, a: usize) -> Option<StepRecord>
        ensures answers_step { StepAsked (problem_of self.now.bytes.now) a result }
    {
        if a < 1 || a > self.steps {
            return None;
        }
        Some(self.table().step(a))
    }
}

impl<'a> Default for Problem<'a> {
    ghost is_default = { λ problem. problem.bytes.now ≡ fresh };

    fn default() -> Problem<'a> {
        Problem::new()
    }
}
