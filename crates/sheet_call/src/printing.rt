// A sheet as it is printed.
ghost use Rattle.std.specs.Prelude.{◌≡◌, ◌++◌, IfOk, OnOk};
ghost use Rattle.sheet_call.specs.Printed.{line_text as line_text_of, sheet_text as sheet_text_of};

use rules::Line;
use std::alloc::{AllocError, Global};

// Puts a line after what is there.
fn push_line(heap: Global, out: &mut Vec<u8>, line: Line) -> Result<(), AllocError>
    ensures appends_line { OnOk result (out.new.items ≡ out.old.items ++ line_text_of line) }
{
    let text = format!(in heap; "{line}\n")?;
    out.extend_from_slice(text.as_bytes())
}

// The lines of a sheet, one after another.
pub fn sheet_text(heap: Global, lines: &[Line]) -> Result<Vec<u8>, AllocError>
    ensures prints_lines { IfOk result (λ out. out.items ≡ sheet_text_of lines.now) }
{
    let mut out = Vec::new(heap);
    for line in lines {
        push_line(heap, &mut out, *line)?;
    }
    Ok(out)
}
