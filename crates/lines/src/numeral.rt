// A number by its sign and its size: no signed type of 64 bits holds each size that a `usize` has, and callers index by the size.
#[derive(Clone, Copy, PartialEq, Eq, Debug)]
pub struct Numeral {
    pub minus: bool,
    pub size: usize,
}
