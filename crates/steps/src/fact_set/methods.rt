ghost use Rattle.std.specs.Prelude.{◌≡◌, ℕ, not, ◌&&◌, ◌||◌, [], ◌==◌, nat_le, MatchBool};
ghost use Rattle.rules.specs.Lists.{has, shares};
ghost use Rattle.steps.specs.Sets.{facts_in, Subset};

use crate::fact_set::FactSet;

impl FactSet {
    pub fn empty() -> FactSet
        ensures has_no_fact { facts_in result ≡ [] }
    {
        FactSet { bits: 0 }
    }

    // Whether the fact is in the set; no fact outside 1 to 64 is.
    pub fn contains(self, fact: usize) -> bool
        ensures answers_membership { result ≡ has fact (facts_in self) }
    {
        if fact < 1 || fact > 64 {
            return false;
        }
        (self.bits >> (fact - 1)) % 2 == 1
    }

    // The set with one fact more; a fact outside 1 to 64 adds nothing.
    pub fn with(self, fact: usize) -> FactSet
        ensures adds_the_fact { (f : ℕ) → has f (facts_in result) ≡ ((f == fact && (nat_le 1 fact && nat_le fact 64)) || has f (facts_in self)) }
    {
        if fact < 1 || fact > 64 {
            return self;
        }
        FactSet {
            bits: self.bits | 1 << (fact - 1),
        }
    }

    // The facts of either set.
    pub fn union(self, other: FactSet) -> FactSet
        ensures joins_facts { (f : ℕ) → has f (facts_in result) ≡ (has f (facts_in self) || has f (facts_in other)) }
    {
        FactSet {
            bits: self.bits | other.bits,
        }
    }

    // The facts of self that are not in the other.
    pub fn difference(self, other: FactSet) -> FactSet
        ensures drops_facts { (f : ℕ) → has f (facts_in result) ≡ (has f (facts_in self) && not (has f (facts_in other))) }
    {
        FactSet {
            bits: self.bits & !other.bits,
        }
    }

    // Whether every fact of self is in the other.
    pub fn is_subset(self, other: FactSet) -> bool
        ensures answers_inclusion { MatchBool result (Subset self other) (Subset self other → ⊥) }
    {
        self.bits & !other.bits == 0
    }

    // Whether some fact is in both.
    pub fn meets(self, other: FactSet) -> bool
        ensures answers_common_fact { result ≡ shares (facts_in self) (facts_in other) }
    {
        self.bits & other.bits != 0
    }
}
