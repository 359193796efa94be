// A dash that arrives locked, with the wrong wheel circumference, and the steps that a bench can take.
#![tactic(auto)]

mod listing;
mod names;
mod telling;
#[cfg(test)]
mod tests;

pub use listing::problem_bytes;
pub use names::{FACTS, STEPS};
pub use telling::{FactNames, Refused};
