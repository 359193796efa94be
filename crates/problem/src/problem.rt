ghost use Rattle.std.specs.Prelude.{◌≡◌};
ghost use Rattle.problem.specs.Bytes.{facts as facts_of, steps as steps_of, pairs as pairs_of};
ghost use Rattle.problem.specs.Verdict.{verdict};

// A problem: a lawful reading of the caller's bytes, of which it copies none.
#[derive(Clone, Copy)]
pub struct Problem<'a> {
    bytes: &'a [u8],
    facts: usize,
    steps: usize,
    pairs: usize,
    ghost lawful: { verdict bytes.now ≡ 0 },
    ghost heads: { (facts ≡ facts_of bytes.now) × (steps ≡ steps_of bytes.now) × (pairs ≡ pairs_of bytes.now) },
}

mod methods;

pub use methods::read_problem;
