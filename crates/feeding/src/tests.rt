// That the calls that can run out of memory succeed, and which error is told where a call doesn't.
use crate::{answer_cases, answer_first_cases, answer_input, next_case, next_record};
use std::alloc::{AllocError, Global};
use std::io;
use std::test::Fail;

// What failed.
#[derive(Clone, Copy, Debug, Drop, PartialEq, Eq)]
enum Cause {
    Memory,
    Io,
}

impl From<AllocError> for Cause {
    fn from(_: AllocError) -> Cause {
        Cause::Memory
    }
}

impl From<io::Error> for Cause {
    fn from(_: io::Error) -> Cause {
        Cause::Io
    }
}

// The bytes twice.
fn doubled(heap: Global, bytes: &[u8]) -> Result<Vec<u8>, AllocError> {
    let mut out = Vec::new(heap);
    out.extend_from_slice(bytes)?;
    out.extend_from_slice(bytes)?;
    Ok(out)
}

#[test]
fn answers_one_input(rt: HostRuntime) -> Result<(), Fail> {
    let heap = rt.alloc();
    let mut out = Vec::new(heap);
    answer_input::<_, _, _, io::Error>(heap, b"abc".as_slice(), &mut out, |input| {
        doubled(heap, input)
    })?;
    assert_eq!(rt; out.as_slice(), b"abcabc".as_slice());
    Ok(())
}

#[test]
fn answers_numbered_cases(rt: HostRuntime) -> Result<(), Fail> {
    let heap = rt.alloc();
    let mut out = Vec::new(heap);
    let cases = b"\x02\0\0\0ab\0\0\0\0\x01\0\0\0c\x05\0\0\0left";
    answer_first_cases::<_, _, _, io::Error>(heap, cases.as_slice(), &mut out, |input| {
        doubled(heap, input)
    })?;
    assert_eq!(rt;
        out.as_slice(),
        b"case 1\nababcase 2\ncase 3\ncc".as_slice()
    );
    Ok(())
}

#[test]
fn takes_whole_records(rt: HostRuntime) {
    assert_eq!(rt;
        next_case(b"\x01\0\0\0cde"),
        Some((b"c".as_slice(), b"de".as_slice()))
    );
    assert_eq!(rt;
        next_case(b"\0\0\0\x01cde"),
        Some((b"".as_slice(), b"cde".as_slice()))
    );
    assert_eq!(rt; next_case(b"\x04\0\0\0cde"), None);
    assert_eq!(rt; next_case(b"\0\0\0"), None);
}

#[test]
fn answers_every_record(rt: HostRuntime) -> Result<(), Fail> {
    let heap = rt.alloc();
    let mut out = Vec::new(heap);
    let records = b"\x02\0\0\0ab\0\0\0\0\x01\0\0\0c\0\0\0\x01left";
    answer_cases(heap, records.as_slice(), &mut out, |input| {
        doubled(heap, input)
    })?;
    assert_eq!(rt;
        out.as_slice(),
        b"case 1\nababcase 2\ncase 3\ncc".as_slice()
    );
    Ok(())
}

#[test]
fn takes_lengths_of_four_bytes(rt: HostRuntime) {
    assert_eq!(rt;
        next_record(b"\x01\0\0\0cde"),
        Some((b"c".as_slice(), b"de".as_slice()))
    );
    assert_eq!(rt; next_record(b"\0\0\0\x01cde"), None);
    assert_eq!(rt; next_record(b"\0\0\0"), None);
}

#[test]
fn tells_that_a_call_has_no_memory(rt: HostRuntime) {
    let heap = rt.alloc();
    let mut out = Vec::new(heap);
    let whole: Result<(), Cause> = answer_input(
        heap,
        b"abc".as_slice(),
        &mut out,
        |_| Err(AllocError),
    );
    assert_eq!(rt; whole, Err(Cause::Memory));
    let cases: Result<(), Cause> = answer_first_cases(
        heap,
        b"\0\0\0\0".as_slice(),
        &mut out,
        |_| Err(AllocError),
    );
    assert_eq!(rt; cases, Err(Cause::Memory));
    assert_eq!(rt; out.as_slice(), b"".as_slice());
}
