// Examples: a few lines of text.
use clauses::{Sink, Source};
use rules::Refusal;
use text::text_sink;

fn number(answer: Result<(), Refusal>) -> u8 {
    match answer {
        Ok(()) => 0,
        Err(refusal) => u8::from(refusal),
    }
}

#[test]
fn writes_lines(rt: HostRuntime) {
    let mut memory = [b'x'; 20];
    let mut sink = text_sink(&mut memory);
    assert_eq!(rt; sink.cost_of(&[1, -2]), 7);
    assert_eq!(rt; number(sink.add(&[1, -2])), 0);
    assert_eq!(rt; number(sink.add(&[])), 0);
    assert_eq!(rt; number(sink.add(&[-999999])), 0);
    assert_eq!(rt; sink.used(), 19);
    assert!(rt; sink.text() == b"1 -2 0\n0\n-999999 0\n".as_slice());
    assert_eq!(rt; sink.clause_count(), 3);
    assert_eq!(rt; sink.clause_length(1), Some(2));
    assert_eq!(rt; sink.clause_length(2), Some(0));
    assert_eq!(rt; sink.clause_length(0), None);
    assert_eq!(rt; sink.clause_length(4), None);
    assert_eq!(rt; sink.literal(1, 2), Some(-2));
    assert_eq!(rt; sink.literal(3, 1), Some(-999999));
    assert_eq!(rt; sink.literal(3, 2), None);
    assert_eq!(rt; sink.word_at(2), Some((-2, 5)));
    assert_eq!(rt; sink.word_at(19), None);
}

#[test]
fn refuses_bad_clauses(rt: HostRuntime) {
    let mut memory = [0u8; 300];
    let mut sink = text_sink(&mut memory);
    assert_eq!(rt; number(sink.add(&[1; 131])), 8);
    assert_eq!(rt; number(sink.add(&[-1, 0])), 8);
    assert_eq!(rt; number(sink.add(&[1000000])), 8);
    assert_eq!(rt; sink.cost_of(&[0]), 0);
    assert_eq!(rt; sink.used(), 0);
    assert_eq!(rt; number(sink.add(&[1; 130])), 0);
}

#[test]
fn takes_an_exact_fit(rt: HostRuntime) {
    let mut seven = [0u8; 7];
    let mut full = text_sink(&mut seven);
    assert_eq!(rt; number(full.add(&[1, -2])), 0);
    assert_eq!(rt; full.space_left(), 0);
    let mut six = [0u8; 6];
    let mut short = text_sink(&mut six);
    assert_eq!(rt; number(short.add(&[1, -2])), 9);
    assert_eq!(rt; number(short.add(&[])), 0);
}
