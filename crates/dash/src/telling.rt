// How the reports print sets of facts and refusals.
use crate::names::FACTS;
use rules::Refusal;
use std::fmt;
use steps::FactSet;

// The names of the facts in a set, each in brackets after a space.
#[derive(Clone, Copy)]
pub struct FactNames(pub FactSet);

impl fmt::Display for FactNames {
    fn fmt<W: fmt::Write>(&self, f: &mut fmt::Formatter<W>) -> fmt::Result {
        for (name, fact) in FACTS.iter().zip(1..) {
            if self.0.contains(fact) {
                write!(f, " [{name}]")?;
            }
        }
        Ok(())
    }
}

// A refusal by its number and its name.
#[derive(Clone, Copy)]
pub struct Refused(pub Refusal);

impl fmt::Display for Refused {
    fn fmt<W: fmt::Write>(&self, f: &mut fmt::Formatter<W>) -> fmt::Result {
        let number = u8::from(self.0);
        write!(f, "refused {number} ({:?})", self.0)
    }
}
