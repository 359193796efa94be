// Examples: answers and clause text read, and a list.
use answers::{Status, read_answer};
use clauses::Source;
use memory::List;
use rules::Refusal;
use std::test::Fail;
use view::{TextView, read_clause_text};

fn number(answer: Result<(), Refusal>) -> u8 {
    match answer {
        Ok(()) => 0,
        Err(refusal) => u8::from(refusal),
    }
}

// Texts that are no answer for three variables.
const NO_ANSWERS: [&[u8]; 12] = [
    b"",
    b"s SATISFIABLE\n",
    b"s SATISFIABLE\nv 1 0",
    b"v 1 0\ns SATISFIABLE\n",
    b"s SATISFIABLE\nv 1 0\nv 2 0\n",
    b"s SATISFIABLE\nv 1 -1 0\n",
    b"s SATISFIABLE\nv 4 0\n",
    b"s SATISFIABLE\nv 18446744073709551617 0\n",
    b"s SATISFIABLE\nv 1  2 0\n",
    b"s SATISFIABLE\nv 01 0\n",
    b"s UNKNOWN\nv 1 0\n",
    b"s UNKNOWN\ns UNKNOWN\n",
];

#[test]
fn reads_answers(rt: HostRuntime) -> Result<(), Fail> {
    let mut truth = [9u8; 3];
    let found = read_answer(b"c 0\ns SATISFIABLE\nv -3\nv 2 0\nc 1\n", 3, &mut truth)?;
    assert_eq!(rt; found, Status::Satisfiable);
    assert!(rt; truth == [0, 1, 0]);
    let none = read_answer(b"s UNSATISFIABLE\n", 3, &mut truth)?;
    assert_eq!(rt; none, Status::Unsatisfiable);
    assert!(rt; truth == [0, 0, 0]);
    Ok(())
}

#[test]
fn refuses_no_answers(rt: HostRuntime) {
    for text in NO_ANSWERS {
        let mut truth = [9u8; 3];
        let answered = match read_answer(text, 3, &mut truth) {
            Ok(_) => 0,
            Err(refusal) => u8::from(refusal),
        };
        assert_eq!(rt; answered, 13);
        assert!(rt; truth == [0, 0, 0]);
    }
}

#[test]
fn reads_clause_text(rt: HostRuntime) {
    let mut view = TextView::new();
    let text = b"c of three\np cnf 3 2\n 1 -3 0\n\n0 ";
    assert_eq!(rt; number(read_clause_text(text, &mut view)), 0);
    assert_eq!(rt; view.variables(), 3);
    assert_eq!(rt; view.clause_count(), 2);
    assert_eq!(rt; view.clause_length(1), Some(2));
    assert_eq!(rt; view.clause_length(2), Some(0));
    assert_eq!(rt; view.literal(1, 2), Some(-3));
    assert_eq!(rt; view.literal(3, 1), None);
    assert_eq!(rt;
        number(read_clause_text(b"p cnf 3 1\n4 0\n", &mut view)),
        12
    );
    assert_eq!(rt; view.clause_count(), 2);
}

#[test]
fn lists_add_and_cut(rt: HostRuntime) {
    let mut memory = [0u8; 2];
    let mut list = List::new(&mut memory);
    assert_eq!(rt; number(list.add(5)), 0);
    assert_eq!(rt; number(list.add(6)), 0);
    assert_eq!(rt; number(list.add(7)), 9);
    assert_eq!(rt; number(list.cut(3)), 21);
    assert_eq!(rt; number(list.cut(1)), 0);
    assert_eq!(rt; list.get(0), Some(5));
    assert_eq!(rt; list.get(1), None);
    assert_eq!(rt; number(list.add(8)), 0);
    assert_eq!(rt; list.get(1), Some(8));
}
