ghost use Rattle.std.specs.Prelude.{◌≡◌, ◌<◌};
ghost use Rattle.rules.specs.Lists.{has as has_fact};
ghost use Rattle.rules.specs.Problems.{step as step_of};
ghost use Rattle.steps.specs.Sets.{facts_in, meaning};
ghost use Rattle.problem.specs.Listed.{problem_of};
ghost use Rattle.problem.specs.Verdict.{verdict};
ghost use Rattle.problem.specs.Tables.{means, under, part_of};

use crate::listing::Listing;
use crate::part::Part;
use crate::table::StepTable;
use steps::{FactSet, StepRecord};

impl StepTable {
    // The table of a problem, in one pass over its pairs.
    pub(crate) fn read(listing: &Listing) -> StepTable
        requires lawful { verdict listing.now.bytes.now ≡ 0 }
        ensures states_the_problem { means result ≡ problem_of listing.now.bytes.now }
    {
        StepTable {
            facts: listing.facts,
            steps: listing.steps,
            sets: listing.collect(),
        }
    }

    // Whether the fact is listed under the code.
    fn lists(&self, code: usize, fact: usize) -> bool
        requires { code < 516 }
        ensures answers_listing { result ≡ has_fact fact (under self.now.sets code) }
    {
        self.sets[code].contains(fact)
    }

    pub fn at_start(&self, fact: usize) -> bool
        ensures answers_start { result ≡ has_fact fact (means self.now).start }
    {
        self.lists(0, fact)
    }

    pub fn is_goal(&self, fact: usize) -> bool
        ensures answers_goal { result ≡ has_fact fact (means self.now).goals }
    {
        self.lists(1, fact)
    }

    // The facts that step a needs, sets or clears; a step that is not there has to do with none.
    pub fn part(&self, part: Part, a: usize) -> FactSet
        ensures answers_set { facts_in result ≡ part_of (means self.now) part a }
    {
        if a > 128 {
            return FactSet::empty();
        }
        self.sets[4 * a + part as usize]
    }

    // Whether step a needs, sets or clears the fact.
    pub fn has(&self, part: Part, a: usize, fact: usize) -> bool
        ensures answers_part { result ≡ has_fact fact (part_of (means self.now) part a) }
    {
        self.part(part, a).contains(fact)
    }

    // The record of step a; a step that is not there has empty sets.
    pub fn step(&self, a: usize) -> StepRecord
        ensures answers_step { meaning result ≡ step_of (means self.now) a }
    {
        StepRecord {
            number: a,
            needs: self.part(Part::Needs, a),
            sets: self.part(Part::Sets, a),
            clears: self.part(Part::Clears, a),
        }
    }
}
