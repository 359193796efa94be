// Examples: a few clauses in words.
use clauses::{Sink, Source, word_sink};
use rules::Refusal;

fn number(answer: Result<(), Refusal>) -> u8 {
    match answer {
        Ok(()) => 0,
        Err(refusal) => u8::from(refusal),
    }
}

#[test]
fn holds_two_clauses(rt: HostRuntime) {
    let mut memory = [7i32; 8];
    let mut sink = word_sink(&mut memory);
    assert_eq!(rt; sink.cost_of(&[1, -2]), 3);
    assert_eq!(rt; number(sink.add(&[1, -2])), 0);
    assert_eq!(rt; number(sink.add(&[])), 0);
    assert_eq!(rt; sink.clause_count(), 2);
    assert_eq!(rt; sink.used(), 4);
    assert_eq!(rt; sink.space_left(), 4);
    assert_eq!(rt; sink.clause_length(1), Some(2));
    assert_eq!(rt; sink.clause_length(2), Some(0));
    assert_eq!(rt; sink.clause_length(0), None);
    assert_eq!(rt; sink.clause_length(3), None);
    assert_eq!(rt; sink.literal(1, 2), Some(-2));
    assert_eq!(rt; sink.literal(1, 0), None);
    assert_eq!(rt; sink.literal(1, 3), None);
    assert_eq!(rt; sink.word_at(1), Some((-2, 2)));
    assert_eq!(rt; sink.word_at(4), None);
}

#[test]
fn refuses_bad_clauses(rt: HostRuntime) {
    let mut memory = [0i32; 200];
    let mut sink = word_sink(&mut memory);
    assert_eq!(rt; number(sink.add(&[1; 131])), 8);
    assert_eq!(rt; number(sink.add(&[-1, 0])), 8);
    assert_eq!(rt; number(sink.add(&[4097])), 8);
    assert_eq!(rt; sink.cost_of(&[-4097]), 0);
    assert_eq!(rt; sink.used(), 0);
    assert_eq!(rt; number(sink.add(&[1; 130])), 0);
    assert_eq!(rt; number(sink.add(&[-4096])), 0);
}

#[test]
fn takes_an_exact_fit(rt: HostRuntime) {
    let mut three = [0i32; 3];
    let mut full = word_sink(&mut three);
    assert_eq!(rt; number(full.add(&[1, -2])), 0);
    assert_eq!(rt; full.space_left(), 0);
    let mut two = [0i32; 2];
    let mut short = word_sink(&mut two);
    assert_eq!(rt; number(short.add(&[1, -2])), 9);
    assert_eq!(rt; number(short.add(&[])), 0);
}
