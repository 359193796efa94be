// From truth bytes to sheets.
#![tactic(auto)]

mod counting;
mod reading;
mod valuation;
mod writing;

pub use reading::decode;
