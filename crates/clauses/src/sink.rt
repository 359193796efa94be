// Where clauses go.
ghost use Rattle.std.specs.Prelude.{◌≡◌, ℕ, ◌+◌, ◌-◌, ◌*◌, ◌≤◌, true, List, length, ℤ};
ghost use Rattle.std.specs.Borrow.{GName};
ghost use Rattle.rules.specs.Clauses.{Clause, bad_clause, total};
ghost use Rattle.clauses.specs.Judged.{judged, held_after, free_after};

use crate::source::Source;
use rules::Refusal;

// A sink is a source that also takes clauses. It means, besides, a capacity and a cost for each clause.
// No method has a default body: what a clause costs, what space is left and how a clause is added each sink answers by a form of its own.
pub trait Sink: Source {
    ghost capacity: { Self → ℕ };

    // The cost depends on the clause alone.
    ghost cost: { Clause → ℕ };

    ghost cheap: { (c : Clause) → cost c ≤ 8 * length c + 2 };

    // The memory past what is held, as numbers.
    ghost free: { Self → List ℤ };

    // The name of the memory that the sink borrows: kept, so that the lender learns what was written.
    ghost lent: { Self → GName };

    // What the clause costs; 0 if it is refused by 8.
    fn cost_of(&self, clause: &[i32]) -> usize
        ensures answers_cost { result ≡ cost clause.now }
        ensures refused_costs_nothing { bad_clause (Self.Source.widest self.now) clause.now ≡ true → result ≡ 0 };

    // The capacity less the cost of all clauses held.
    fn space_left(&self) -> usize
        ensures answers_space { result ≡ capacity self.now - total cost (Self.Source.held self.now) }
        ensures holds_no_more { total cost (Self.Source.held self.now) ≤ capacity self.now };

    fn add(&mut self, clause: &[i32]) -> Result<(), Refusal>
        ensures grants_where_space { result ≡ judged (Self.Source.widest self.old) (capacity self.old - total cost (Self.Source.held self.old)) (cost clause.now) clause.now }
        ensures stands_last { Self.Source.held self.new ≡ held_after result (Self.Source.held self.old) clause.now }
        ensures leaves_the_rest { free self.new ≡ free_after result (cost clause.now) (free self.old) }
        ensures keeps_capacity { capacity self.new ≡ capacity self.old }
        ensures keeps_widest { Self.Source.widest self.new ≡ Self.Source.widest self.old }
        ensures keeps_loan { lent self.new ≡ lent self.old };
}
