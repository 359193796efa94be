// Where a reader stands in an answer, and what kinds of lines there are.
use crate::status::Status;

// Before the s line, among the v lines, or past all but comments.
#[derive(Clone, Copy)]
pub(crate) enum Stage {
    Before,
    Among,
    Past(Status),
}

#[derive(Clone, Copy)]
pub(crate) enum Kind {
    Comment,
    Claim,
    Values,
    Other,
}
