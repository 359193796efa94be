// Text cut into lines, and words of text read as numbers.
#![tactic(auto)]

mod cutting;
mod laws;
mod numeral;
mod words;

pub use cutting::{cut_at, next_line};
pub use laws::words_are_numbers;
pub use numeral::Numeral;
pub use words::{read_number, read_size};
