use crate::fact_set::FactSet;

// A step as code holds it: its number and its three sets of facts.
#[derive(Clone, Copy, PartialEq, Eq, Debug)]
pub struct StepRecord {
    pub number: usize,
    pub needs: FactSet,
    pub sets: FactSet,
    pub clears: FactSet,
}
