// A set of facts, from 1 to 64: fact f is bit f - 1.
#[derive(Clone, Copy, PartialEq, Eq, Debug, Default)]
pub struct FactSet {
    bits: u64,
}

mod methods;
