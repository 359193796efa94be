ghost use Rattle.std.specs.Prelude.{Some};
ghost use Rattle.rules.specs.Shown.{line_shown};

use std::fmt;

// A line of a sheet: this step stands in this slot. Both count from 1. Lines rise by slot, then by step. Laid out as in C, so that other languages can lend lines.
#[repr(C)]
#[derive(Clone, Copy, PartialEq, Eq, PartialOrd, Ord, Debug)]
pub struct Line {
    pub slot: u16,
    pub step: u16,
}

// The slot, a space and the step.
impl fmt::Display for Line {
    ghost output = { λ line. Some (line_shown line) };

    fn fmt<W: fmt::Write>(&self, f: &mut fmt::Formatter<W>) -> fmt::Result {
        write!(f, "{} {}", self.slot, self.step)
    }
}
