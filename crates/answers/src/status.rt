// What a solver says of its formula.
#[derive(Clone, Copy, PartialEq, Eq, Debug)]
pub enum Status {
    Satisfiable,
    Unsatisfiable,
    Unknown,
}
