// The dash's problem in its bytes.
ghost use Rattle.std.specs.Prelude.{◌≡◌, ℕ, ◌++◌, map, IfOk, OnOk};
ghost use Rattle.std.specs.Fn.{FnReturnsAt};
ghost use Rattle.rules.specs.Lists.{each};
ghost use Rattle.problem.specs.Rendering.{two_bytes, rendering};
ghost use Rattle.dash.specs.Listing.{dash_pairs};

use std::alloc::{AllocError, Global};

// Pairs of code and fact. Code 0 is the start and 1 the goals; for step a, 4a what it needs, 4a + 1 what it sets, 4a + 2 what it clears.
const PAIRS: [(u16, u16); 37] = [
    (0, 4),
    (0, 7),
    (0, 8),
    (0, 9),
    (1, 5),
    (1, 6),
    (1, 7),
    (1, 8),
    (1, 9),
    (4, 7),
    (5, 1),
    (6, 7),
    (8, 1),
    (9, 2),
    (10, 8),
    (12, 9),
    (13, 3),
    (14, 9),
    (16, 2),
    (16, 3),
    (16, 4),
    (17, 5),
    (18, 4),
    (20, 3),
    (20, 5),
    (21, 6),
    (24, 3),
    (24, 6),
    (25, 9),
    (26, 3),
    (28, 2),
    (29, 8),
    (30, 2),
    (32, 6),
    (32, 8),
    (33, 7),
    (34, 1),
];

// A number in two bytes, the low one first.
fn push_number(bytes: &mut Vec<u8>, n: u16) -> Result<(), AllocError>
    ensures adds_two_bytes { OnOk result (bytes.new.items ≡ bytes.old.items ++ two_bytes n) }
{
    bytes.extend_from_slice(&n.to_le_bytes())
}

// One number of each pair.
fn push_numbers<F: Fn(&(u16, u16)) -> u16>(
    bytes: &mut Vec<u8>,
    pairs: &[(u16, u16)],
    number: F,
) -> Result<(), AllocError>
    requires callable { F.IsAlwaysCallable number }
    ensures adds_each { OnOk result ((of : ℕ × ℕ → ℕ) → ((p : ℕ × ℕ) (n : ℕ) → FnReturnsAt F.Fn number p n → n ≡ of p) → bytes.new.items ≡ bytes.old.items ++ each two_bytes (map of pairs.now)) }
{
    for pair in pairs {
        push_number(bytes, number(pair))?;
    }
    Ok(())
}

// F, A, P, the codes and then the facts.
pub fn problem_bytes(heap: Global) -> Result<Vec<u8>, AllocError>
    ensures renders_dash { IfOk result (λ bytes. bytes.items ≡ rendering 9 8 dash_pairs) }
{
    let mut bytes = Vec::new(heap);
    push_number(&mut bytes, 9)?;
    push_number(&mut bytes, 8)?;
    push_number(&mut bytes, 37)?;
    push_numbers(&mut bytes, &PAIRS, |(code, _)| *code)?;
    push_numbers(&mut bytes, &PAIRS, |(_, fact)| *fact)?;
    Ok(bytes)
}
