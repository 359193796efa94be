// The bytes that the programs print.
ghost use Rattle.std.specs.Prelude.{◌≡◌, ◌++◌, IfOk};
ghost use Rattle.rules.specs.Refusals.{number as number_of};
ghost use Rattle.requests.specs.Printed.{head_line, refused_line};

use rules::Refusal;
use std::alloc::{AllocError, Global};

// `refused N` and a line feed.
pub fn refused_text(heap: Global, refusal: Refusal) -> Result<Vec<u8>, AllocError>
    ensures prints_refusal { IfOk result (λ out. out.items ≡ refused_line (number_of refusal)) }
{
    let n = u8::from(refusal);
    let text = format!(in heap; "refused {n}\n")?;
    Ok(text.into_bytes())
}

// The head line, then the clause lines.
pub fn clause_text(
    heap: Global,
    variables: usize,
    clauses: usize,
    lines: &[u8],
) -> Result<Vec<u8>, AllocError>
    ensures prints_head_and_lines { IfOk result (λ out. out.items ≡ head_line variables clauses ++ lines.now) }
{
    let head = format!(in heap; "p cnf {variables} {clauses}\n")?;
    let mut out = head.into_bytes();
    out.extend_from_slice(lines)?;
    Ok(out)
}
