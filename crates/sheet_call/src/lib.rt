// The one call behind the program `sheet`: from input bytes, a solver's answer among them, to output bytes.
#![tactic(auto)]

mod printing;
mod replying;

pub use printing::sheet_text;
pub use replying::sheet_request;
