// Whether a body is clauses.
ghost use Rattle.std.specs.Prelude.{◌≡◌};
ghost use Rattle.view.specs.Body.{completes};
ghost use Rattle.view.specs.Words.{words_of};

use crate::walk::next_word;
use lines::read_number;

// The most literals of a clause.
const LONGEST: usize = 130;

// Whether a body is so many clauses over so many variables. Two counters, since a clause has no end but its 0: no method of the library counts both.
pub(crate) fn clauses_fit(body: &[u8], variables: usize, clauses: usize) -> bool
    ensures tells_clauses { result ≡ completes variables clauses 0 0 (words_of body.now) }
{
    let mut left = body;
    let mut closed: usize = 0;
    let mut long: usize = 0;
    while let Some((word, rest)) = next_word(left) {
        let Some(number) = read_number(word, variables) else {
            return false;
        };
        if number.size == 0 {
            closed += 1;
            long = 0;
        } else {
            if long == LONGEST {
                return false;
            }
            long += 1;
        }
        left = rest;
    }
    long == 0 && closed == clauses
}
