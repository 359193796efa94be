// From sheets to truth bytes.
#![tactic(auto)]

mod building;
mod gathering;
mod lines;
mod modelling;

pub use modelling::assign;
