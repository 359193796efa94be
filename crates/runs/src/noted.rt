// What a refutation that is open notes: V, the source's clauses, and the live lemmas.
#[derive(Clone, Copy, PartialEq, Eq, Debug)]
pub struct Noted {
    pub variables: usize,
    pub clauses: usize,
    pub lemmas: usize,
}
