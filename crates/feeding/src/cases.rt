// Many inputs in one, each after its length, low byte first. A record's length is four bytes. A case's is three and a fourth byte that is passed over, and 99,999 cases are the most: so the programs read them.
// There are two functions of each kind, since one for both formats would take the format as an argument, and the programs' loop would change for it.
ghost use Rattle.std.specs.Prelude.{◌≡◌, ◌++◌, MatchOption, IfOk, OnOk, IfSome, Ok, List, ℕ};
ghost use Rattle.std.specs.Fn.{FnReturnsAt};
ghost use Rattle.std.specs.Io.KnownBytes.{Appends};
ghost use Rattle.feeding.specs.Records.{IsFirst, NoRecord, ReturnsBytes, case_text, Told};
ghost use Rattle.feeding.specs.Cases.{IsFirstCase, NoCase, ToldCases};

use std::alloc::{AllocError, Global};
use std::io::{self, Read, Write};

// The record that stands first, and what stands after it; nothing where none stands whole.
pub fn next_record(bytes: &[u8]) -> Option<(&[u8], &[u8])>
    ensures takes_record { MatchOption result (NoRecord bytes.now) (λ p. IsFirst bytes.now p.0.now p.1.now) }
{
    let (size, rest) = bytes.split_first_chunk::<4>()?;
    rest.split_at_checked(u32::from_le_bytes(*size) as usize)
}

// The case that stands first, and what stands after it; nothing where none stands whole.
pub fn next_case(bytes: &[u8]) -> Option<(&[u8], &[u8])>
    ensures takes_record { MatchOption result (NoCase bytes.now) (λ p. IsFirstCase bytes.now p.0.now p.1.now) }
{
    let (length, rest) = bytes.split_first_chunk::<4>()?;
    rest.split_at_checked((u32::from_le_bytes(*length) % (1 << 24)) as usize)
}

// An answer under its number.
fn numbered(heap: Global, number: usize, answer: &[u8]) -> Result<Vec<u8>, AllocError>
    ensures heads_answer { IfOk result (λ out. out.items ≡ case_text number answer.now) }
{
    let mut out = format!(in heap; "case {number}\n")?.into_bytes();
    out.extend_from_slice(answer)?;
    Ok(out)
}

// Writes what a call answers for each record, under its number, counted from 1; the first bytes that are no record end them. Where a record ends is known only once it is cut, so that the loop goes by what is left.
pub fn answer_cases<R: Read + Drop, W: Write, F: Fn(&[u8]) -> Result<Vec<u8>, AllocError> + Drop>(
    heap: Global,
    mut input: R,
    output: &mut W,
    call: F,
) -> io::Result<()>
    requires callable { F.IsAlwaysCallable call }
    ensures writes_answers { OnOk result (IfSome (R.remaining input) (λ bytes. (records : List (List ℕ)) × (out : List ℕ) × Told (ReturnsBytes (FnReturnsAt F.Fn call)) 1 records bytes out × Appends (W.contents output.old) (W.contents output.new) out)) }
{
    let mut bytes = Vec::new(heap);
    input.read_to_end(&mut bytes)?;
    let mut left = bytes.as_slice();
    let mut number = 1;
    while let Some((record, rest)) = next_record(left) {
        output.write_all(&numbered(heap, number, &call(record)?)?)?;
        left = rest;
        number += 1;
    }
    Ok(())
}

// Writes what a call answers for each case, under its number, counted from 1; the first bytes that are no case end them, and so does the number 100,000.
pub fn answer_first_cases<
    R: Read + Drop,
    W: Write,
    F: Fn(&[u8]) -> Result<Vec<u8>, AllocError> + Drop,
    E: From<io::Error> + From<AllocError>,
>(heap: Global, mut input: R, output: &mut W, call: F) -> Result<(), E>
    requires callable { F.IsAlwaysCallable call }
    ensures writes_answers { OnOk result (IfSome (R.remaining input) (λ bytes. (records : List (List ℕ)) × (out : List ℕ) × ToldCases (ReturnsBytes (FnReturnsAt F.Fn call)) 1 records bytes out × Appends (W.contents output.old) (W.contents output.new) out)) }
{
    let mut bytes = Vec::new(heap);
    input.read_to_end(&mut bytes)?;
    let mut left = bytes.as_slice();
    for number in 1..100_000 {
        let Some((record, rest)) = next_case(left) else {
            break;
        };
        output.write_all(&numbered(heap, number, &call(record)?)?)?;
        left = rest;
    }
    Ok(())
}
