ghost use Rattle.formula.specs.Sizes.{Counted};

use std::convert::Infallible;

// How many clauses were shown, and how many literals they have.
#[derive(Clone, Copy, Default)]
pub struct Tally {
    pub clauses: usize,
    pub literals: usize,
}

impl Tally {
    // Counts a clause, and never stops.
    pub(crate) fn count(&mut self, clause: &[i32]) -> Result<(), Infallible>
        ensures counts_clause { Counted self.old clause.now self.new }
    {
        self.clauses = self.clauses.saturating_add(1);
        self.literals = self.literals.saturating_add(clause.len());
        Ok(())
    }
}
