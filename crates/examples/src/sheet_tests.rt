// The rows of specs/Table.antt for sheets, run through the calls, and what the calls refuse.
use assigning::assign;
use decoding::decode;
use memory::List;
use problem::{Problem, read_problem};
use rules::{Line, Refusal};
use sheet_call::sheet_request;
use std::alloc::Global;
use std::process::Abort;
use std::test::Fail;
use steps::Parallel;

const RELAY: &[u8] =
    b"\x02\0\x02\0\x05\0\x01\0\x05\0\x08\0\x09\0\x0a\0\x02\0\x01\0\x01\0\x02\0\x01\0";

const SWAP: &[u8] = b"\x02\0\x02\0\x04\0\x01\0\x01\0\x05\0\x09\0\x01\0\x02\0\x01\0\x02\0";

// T, the rule's number, a problem and an answer, and what `sheet` prints for them.
const REPLIES: [(u8, u8, &[u8], &[u8], &[u8]); 7] = [
    (
        2,
        2,
        RELAY,
        b"s SATISFIABLE\nv -1 -2 3 -4 5 -6 -7 8 -9 10 0\n",
        b"1 1\n2 2\n",
    ),
    (
        1,
        2,
        SWAP,
        b"c by hand\ns SATISFIABLE\nv 3 4 5\nv 6 0\n",
        b"1 1\n1 2\n",
    ),
    (1, 1, SWAP, b"s UNSATISFIABLE\n", b"none claimed\n"),
    (1, 1, SWAP, b"s UNKNOWN\n", b"unknown\n"),
    (1, 2, RELAY, b"s SATISFIABLE\nv 6 0\n", b"refused 15\n"),
    (1, 2, RELAY, b"", b"refused 13\n"),
    (33, 2, RELAY, b"", b"refused 7\n"),
];

// The only model of relay in two slots.
const MODEL: [u8; 10] = [0, 0, 1, 0, 1, 0, 0, 1, 0, 1];

const SHEET: [Line; 2] = [Line { slot: 1, step: 1 }, Line { slot: 2, step: 2 }];

fn told(
    rt: &impl Abort,
    heap: Global,
    horizon: u8,
    rule: u8,
    problem: &[u8],
    answer: &[u8],
    text: &[u8],
) -> Result<(), Fail> {
    let mut input = Vec::new(heap);
    input.extend_from_slice(&[horizon, 0, rule, 0])?;
    input.extend_from_slice(problem)?;
    input.extend_from_slice(answer)?;
    let out = sheet_request(heap, &input)?;
    assert!(rt; out.as_slice() == text);
    Ok(())
}

#[test]
fn tells_replies(rt: HostRuntime) -> Result<(), Fail> {
    let heap = rt.alloc();
    for (horizon, rule, problem, answer, text) in REPLIES {
        told(&rt, heap, horizon, rule, problem, answer, text)?;
    }
    Ok(())
}

fn number(answer: Result<(), Refusal>) -> u8 {
    match answer {
        Ok(()) => 0,
        Err(refusal) => u8::from(refusal),
    }
}

// What decode answers for relay, with memory for so many lines.
fn decoded(horizon: usize, truth: &[u8], memory: &mut [Line]) -> Result<(u8, usize), Fail> {
    let mut problem = Problem::new();
    read_problem(&mut problem, RELAY)?;
    let mut sheet = List::new(memory);
    let answer = number(decode(&problem, horizon, &Parallel, truth, &mut sheet));
    Ok((answer, sheet.len()))
}

#[test]
fn decodes_the_only_model(rt: HostRuntime) -> Result<(), Fail> {
    let mut memory = [Line { slot: 7, step: 7 }; 3];
    assert_eq!(rt; decoded(2, &MODEL, &mut memory)?, (0, 2));
    assert_eq!(rt; memory[0], SHEET[0]);
    assert_eq!(rt; memory[1], SHEET[1]);
    assert_eq!(rt; memory[2], Line { slot: 7, step: 7 });
    Ok(())
}

#[test]
fn decode_refuses_in_order(rt: HostRuntime) -> Result<(), Fail> {
    let mut memory = [Line { slot: 7, step: 7 }; 1];
    assert_eq!(rt; decoded(33, &MODEL, &mut memory)?, (7, 0));
    assert_eq!(rt; decoded(1, &MODEL, &mut memory)?, (14, 0));
    assert_eq!(rt;
        decoded(2, &[0, 0, 1, 0, 1, 0, 0, 1, 0, 2], &mut memory)?,
        (14, 0)
    );
    assert_eq!(rt;
        decoded(2, &[0, 0, 1, 0, 1, 0, 0, 1, 1, 1], &mut memory)?,
        (15, 0)
    );
    assert_eq!(rt; decoded(2, &MODEL, &mut memory)?, (9, 0));
    assert_eq!(rt; memory[0], Line { slot: 7, step: 7 });
    Ok(())
}

// What assign answers for relay.
fn assigned(horizon: usize, lines: &[Line], truth: &mut [u8]) -> Result<u8, Fail> {
    let mut problem = Problem::new();
    read_problem(&mut problem, RELAY)?;
    Ok(number(assign(&problem, horizon, &Parallel, lines, truth)))
}

#[test]
fn assigns_the_only_sheet(rt: HostRuntime) -> Result<(), Fail> {
    let mut truth = [9u8; 10];
    assert_eq!(rt; assigned(2, &SHEET, &mut truth)?, 0);
    assert!(rt; truth == MODEL);
    Ok(())
}

#[test]
fn assign_refuses_in_order(rt: HostRuntime) -> Result<(), Fail> {
    let mut truth = [9u8; 10];
    assert_eq!(rt; assigned(33, &SHEET, &mut truth)?, 7);
    assert_eq!(rt; assigned(1, &SHEET, &mut truth)?, 14);
    assert_eq!(rt; assigned(2, &[SHEET[1], SHEET[0]], &mut truth)?, 16);
    assert_eq!(rt; assigned(2, &[SHEET[0], SHEET[0]], &mut truth)?, 16);
    assert_eq!(rt; assigned(2, &[Line { slot: 3, step: 1 }], &mut truth)?, 16);
    assert_eq!(rt; assigned(2, &[Line { slot: 1, step: 0 }], &mut truth)?, 16);
    assert_eq!(rt; assigned(2, &[SHEET[0]], &mut truth)?, 17);
    assert!(rt; truth == [9u8; 10]);
    Ok(())
}
