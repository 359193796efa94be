// What a step has to do with a fact, in the order of a step's codes.
#[derive(Clone, Copy, PartialEq, Eq, Debug)]
pub enum Part {
    Needs,
    Sets,
    Clears,
}
