// What the programs do with standard input and output: bytes in, a call's bytes out.
// The heap, the input, the output and the call stay four parameters: a struct of them would be made for one call and taken apart in it, and no plainer.
#![tactic(auto)]

mod cases;
#[cfg(test)]
mod tests;
mod whole;

pub use cases::{answer_cases, answer_first_cases, next_case, next_record};
pub use whole::answer_input;
