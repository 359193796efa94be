// Whoever is shown the clauses of a formula, one after another, is a closure. What it changes is passed beside it, so that it can be a sink that the caller lends: what a closure captures and changes is unknown to its caller afterwards. So the two travel together, and each function asks that the closure may be called: a struct that holds it with that fact would have to name the state's and the error's types as well.
ghost use Rattle.rules.specs.Lists.{only};
ghost use Rattle.formula.specs.Visits.{Shown, Visits};

// Shows the clause.
pub(crate) fn show<S, E, F: Fn(&mut S, &[i32]) -> Result<(), E>>(
    clause: &[i32],
    visit: &F,
    state: &mut S,
) -> Result<(), E>
    requires callable { F.IsAlwaysCallable visit.now }
    ensures shows_clause { Shown F.Fn visit.now state.old clause.now result state.new }
{
    visit(state, clause)
}

// Shows the clause if the test holds.
pub(crate) fn show_if<S, E, F: Fn(&mut S, &[i32]) -> Result<(), E>>(
    test: bool,
    clause: &[i32],
    visit: &F,
    state: &mut S,
) -> Result<(), E>
    requires callable { F.IsAlwaysCallable visit.now }
    ensures visits_if { Visits (Shown F.Fn visit.now) state.old (only test clause.now) result state.new }
{
    if test {
        show(clause, visit, state)
    } else {
        Ok(())
    }
}
