// What a settled refutation tells: V, the lemmas that were live, and how many literals were forced to show that there is no model.
#[derive(Clone, Copy, PartialEq, Eq, Debug)]
pub struct Verdict {
    pub variables: usize,
    pub lemmas: usize,
    pub count: usize,
}
