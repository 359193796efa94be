// That a walk over a source ends, as the contract of a function.
ghost use Rattle.clauses.specs.Rows.{WalkEnds};

// A source's words run out.
pub fn walk_ends()
    ensures leaves_fewer_words { WalkEnds }
{}
