// The theorems of specs/Propagation.antt. Each function carries one in its contract.
ghost use Rattle.rules.specs.Propagation.{ShownOrNot, OutcomeUnique, ForcedInAnyOrder, ShownHolds};

// Each lemma is shown or not shown.
pub fn shown_or_not()
    ensures propagation_decides { ShownOrNot }
{}

// No lemma is both, and either outcome comes with one count.
pub fn outcome_unique()
    ensures propagation_has_one_outcome { OutcomeUnique }
{}

// Whether a false clause is reached does not depend on the order in which forcing clauses are taken.
pub fn forced_in_any_order()
    ensures forcing_order_is_free { ForcedInAnyOrder }
{}

// What propagation shows holds in every model of the clauses.
pub fn shown_holds()
    ensures propagation_is_sound { ShownHolds }
{}
