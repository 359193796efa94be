// The rows of specs/Table.antt, each run through the calls.
use clauses::{Sink, word_sink};
use formula::sizes;
use planner::encode;
use problem::{Problem, read_problem};
use requests::write_request;
use std::alloc::Global;
use std::process::Abort;
use std::test::Fail;
use steps::{Parallel, Single};

const RELAY: &[u8] =
    b"\x02\0\x02\0\x05\0\x01\0\x05\0\x08\0\x09\0\x0a\0\x02\0\x01\0\x01\0\x02\0\x01\0";

const SWAP: &[u8] = b"\x02\0\x02\0\x04\0\x01\0\x01\0\x05\0\x09\0\x01\0\x02\0\x01\0\x02\0";

const NO_SUCH_PAIR: &[u8] =
    b"\x02\0\x02\0\x05\0\x01\0\x05\0\x08\0\x09\0\x0b\0\x02\0\x01\0\x01\0\x02\0\x01\0";

const FALLING_PAIRS: &[u8] =
    b"\x02\0\x02\0\x05\0\x01\0\x08\0\x05\0\x09\0\x0a\0\x02\0\x01\0\x01\0\x02\0\x01\0";

const SET_AND_CLEARED: &[u8] =
    b"\x02\0\x02\0\x05\0\x01\0\x05\0\x08\0\x09\0\x0a\0\x02\0\x01\0\x01\0\x01\0\x01\0";

const WIDE: &[u8] = b"\x40\0\x80\0\0\0";

const RELAY_AND_MORE: &[u8] =
    b"\x02\0\x02\0\x05\0\x01\0\x05\0\x08\0\x09\0\x0a\0\x02\0\x01\0\x01\0\x02\0\x01\0\0";

// T, the rule's number and a problem, and what `write` prints for them.
const PRINTED: [(u8, u8, &[u8], &[u8]); 20] = [
    (0, 1, RELAY, b"p cnf 2 3\n-1 0\n-2 0\n2 0\n"),
    (0, 2, RELAY, b"p cnf 2 3\n-1 0\n-2 0\n2 0\n"),
    (
        1,
        1,
        RELAY,
        b"p cnf 6 12\n-1 0\n-2 0\n-4 1 0\n-3 5 0\n-4 6 0\n-4 -5 0\n1 -5 3 0\n-1 5 4 0\n2 -6 4 0\n-2 6 0\n-3 -4 0\n6 0\n",
    ),
    (
        1,
        2,
        RELAY,
        b"p cnf 6 12\n-1 0\n-2 0\n-4 1 0\n-3 5 0\n-4 6 0\n-4 -5 0\n1 -5 3 0\n-1 5 4 0\n2 -6 4 0\n-2 6 0\n-3 -4 0\n6 0\n",
    ),
    (
        2,
        1,
        RELAY,
        b"p cnf 10 21\n-1 0\n-2 0\n-4 1 0\n-3 5 0\n-4 6 0\n-4 -5 0\n1 -5 3 0\n-1 5 4 0\n2 -6 4 0\n-2 6 0\n-3 -4 0\n-8 5 0\n-7 9 0\n-8 10 0\n-8 -9 0\n5 -9 7 0\n-5 9 8 0\n6 -10 8 0\n-6 10 0\n-7 -8 0\n10 0\n",
    ),
    (
        2,
        2,
        RELAY,
        b"p cnf 10 21\n-1 0\n-2 0\n-4 1 0\n-3 5 0\n-4 6 0\n-4 -5 0\n1 -5 3 0\n-1 5 4 0\n2 -6 4 0\n-2 6 0\n-3 -4 0\n-8 5 0\n-7 9 0\n-8 10 0\n-8 -9 0\n5 -9 7 0\n-5 9 8 0\n6 -10 8 0\n-6 10 0\n-7 -8 0\n10 0\n",
    ),
    (0, 1, SWAP, b"p cnf 2 4\n-1 0\n-2 0\n1 0\n2 0\n"),
    (0, 2, SWAP, b"p cnf 2 4\n-1 0\n-2 0\n1 0\n2 0\n"),
    (
        1,
        1,
        SWAP,
        b"p cnf 6 11\n-1 0\n-2 0\n-3 5 0\n-4 6 0\n1 -5 3 0\n-1 5 0\n2 -6 4 0\n-2 6 0\n-3 -4 0\n5 0\n6 0\n",
    ),
    (
        1,
        2,
        SWAP,
        b"p cnf 6 10\n-1 0\n-2 0\n-3 5 0\n-4 6 0\n1 -5 3 0\n-1 5 0\n2 -6 4 0\n-2 6 0\n5 0\n6 0\n",
    ),
    (
        2,
        1,
        SWAP,
        b"p cnf 10 18\n-1 0\n-2 0\n-3 5 0\n-4 6 0\n1 -5 3 0\n-1 5 0\n2 -6 4 0\n-2 6 0\n-3 -4 0\n-7 9 0\n-8 10 0\n5 -9 7 0\n-5 9 0\n6 -10 8 0\n-6 10 0\n-7 -8 0\n9 0\n10 0\n",
    ),
    (
        2,
        2,
        SWAP,
        b"p cnf 10 16\n-1 0\n-2 0\n-3 5 0\n-4 6 0\n1 -5 3 0\n-1 5 0\n2 -6 4 0\n-2 6 0\n-7 9 0\n-8 10 0\n5 -9 7 0\n-5 9 0\n6 -10 8 0\n-6 10 0\n9 0\n10 0\n",
    ),
    (33, 2, RELAY, b"refused 7\n"),
    (1, 3, RELAY, b"refused 7\n"),
    (1, 2, b"", b"refused 1\n"),
    (1, 2, b"\0\0\0\0\0\0", b"refused 2\n"),
    (1, 2, RELAY_AND_MORE, b"refused 3\n"),
    (1, 2, NO_SUCH_PAIR, b"refused 4\n"),
    (1, 2, FALLING_PAIRS, b"refused 5\n"),
    (1, 2, SET_AND_CLEARED, b"refused 6\n"),
];

// A problem, the rule's number and T, and V, C and L of the formula.
const SIZES: [(&[u8], u8, usize, (usize, usize, usize)); 12] = [
    (RELAY, 1, 0, (2, 3, 3)),
    (RELAY, 2, 0, (2, 3, 3)),
    (RELAY, 1, 1, (6, 12, 24)),
    (RELAY, 2, 1, (6, 12, 24)),
    (RELAY, 1, 2, (10, 21, 45)),
    (RELAY, 2, 2, (10, 21, 45)),
    (SWAP, 1, 0, (2, 4, 4)),
    (SWAP, 2, 0, (2, 4, 4)),
    (SWAP, 1, 1, (6, 11, 20)),
    (SWAP, 2, 1, (6, 10, 18)),
    (SWAP, 1, 2, (10, 18, 36)),
    (SWAP, 2, 2, (10, 16, 32)),
];

// A problem, the rule's number and T, whether the sink holds a clause, its words, and the number of the answer.
const ENCODED: [(&[u8], u8, usize, bool, usize, u8); 8] = [
    (RELAY, 2, 1, false, 36, 0),
    (RELAY, 2, 1, false, 35, 9),
    (SWAP, 1, 1, false, 31, 0),
    (SWAP, 1, 1, false, 30, 9),
    (SWAP, 2, 1, false, 30, 0),
    (RELAY, 2, 33, true, 36, 7),
    (RELAY, 2, 1, true, 38, 10),
    (WIDE, 2, 22, false, 36, 11),
];

fn prints(
    rt: &impl Abort,
    heap: Global,
    horizon: u8,
    rule: u8,
    problem: &[u8],
    text: &[u8],
) -> Result<(), Fail> {
    let mut input = Vec::new(heap);
    input.extend_from_slice(&[horizon, 0, rule, 0])?;
    input.extend_from_slice(problem)?;
    let out = write_request(heap, &input)?;
    assert!(rt; out.as_slice() == text);
    Ok(())
}

#[test]
fn writes(rt: HostRuntime) -> Result<(), Fail> {
    let heap = rt.alloc();
    for (horizon, rule, problem, text) in PRINTED {
        prints(&rt, heap, horizon, rule, problem, text)?;
    }
    let short = write_request(heap, b"\x01\0\x02")?;
    assert!(rt; short.as_slice() == b"refused 1\n".as_slice());
    Ok(())
}

fn counts(
    rt: &impl Abort,
    bytes: &[u8],
    rule: u8,
    horizon: usize,
    counts: (usize, usize, usize),
) -> Result<(), Fail> {
    let mut problem = Problem::new();
    read_problem(&mut problem, bytes)?;
    let answer = if rule == 1 {
        sizes(&problem, horizon, &Single)
    } else {
        sizes(&problem, horizon, &Parallel)
    };
    assert_eq!(rt; answer?, counts);
    Ok(())
}

#[test]
fn counts_sizes(rt: HostRuntime) -> Result<(), Fail> {
    for (bytes, rule, horizon, row) in SIZES {
        counts(&rt, bytes, rule, horizon, row)?;
    }
    Ok(())
}

fn encodes(
    rt: &impl Abort,
    bytes: &[u8],
    rule: u8,
    horizon: usize,
    held: bool,
    words: &mut [i32],
    number: u8,
) -> Result<(), Fail> {
    let mut problem = Problem::new();
    read_problem(&mut problem, bytes)?;
    let mut sink = word_sink(words);
    if held {
        sink.add(&[1])?;
    }
    let answer = if rule == 1 {
        encode(&problem, horizon, &Single, &mut sink)
    } else {
        encode(&problem, horizon, &Parallel, &mut sink)
    };
    let answered = match answer {
        Ok(()) => 0,
        Err(refusal) => u8::from(refusal),
    };
    assert_eq!(rt; answered, number);
    Ok(())
}

#[test]
fn encodes_into_words(rt: HostRuntime) -> Result<(), Fail> {
    for (bytes, rule, horizon, held, words, number) in ENCODED {
        let mut memory = vec![in rt.alloc(); 0i32; words]?;
        encodes(&rt, bytes, rule, horizon, held, &mut memory, number)?;
    }
    Ok(())
}
