// One input, read to its end.
ghost use Rattle.std.specs.Prelude.{ℕ, List, take, OnOk, IfSome};
ghost use Rattle.std.specs.Fn.{FnOnceReturnsAt};
ghost use Rattle.std.specs.Io.KnownBytes.{Appends};
ghost use Rattle.feeding.specs.Records.{ReturnsBytes};

use std::alloc::{AllocError, Global};
use std::io::{self, Read, Write};

// One byte more than an input may have, so that a longer one is seen to be too long and never read to its end.
const MOST: u64 = 65537;

// Writes what a call answers for the input.
pub fn answer_input<
    R: Read + Drop,
    W: Write,
    F: FnOnce(&[u8]) -> Result<Vec<u8>, AllocError>,
    E: From<io::Error> + From<AllocError>,
>(heap: Global, input: R, output: &mut W, call: F) -> Result<(), E>
    requires callable { F.IsAlwaysCallable call }
    ensures writes_answer { OnOk result (IfSome (R.remaining input) (λ bytes. (out : List ℕ) × ReturnsBytes (FnOnceReturnsAt F.FnOnce call) (take 65537 bytes) out × Appends (W.contents output.old) (W.contents output.new) out)) }
{
    let mut bytes = Vec::new(heap);
    input.take(MOST).read_to_end(&mut bytes)?;
    let answer = call(&bytes)?;
    output.write_all(&answer)?;
    Ok(())
}
