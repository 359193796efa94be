// A line of an answer: its kind, and what it claims.
ghost use Rattle.std.specs.Prelude.{◌≡◌};
ghost use Rattle.answers.specs.Following.{kind_of, claim_of};

use crate::stage::Kind;
use crate::status::Status;

// The kind of a line, by its first character; an empty one is of no kind.
pub(crate) fn kind_of(line: &[u8]) -> Kind
    ensures tells_kind { result ≡ kind_of line.now }
{
    let [first, ..] = line else {
        return Kind::Other;
    };
    match char::from(*first) {
        'c' => Kind::Comment,
        's' => Kind::Claim,
        'v' => Kind::Values,
        _ => Kind::Other,
    }
}

// The status that an s line claims; it is compared whole.
pub(crate) fn claim_of(line: &[u8]) -> Option<Status>
    ensures reads_claim { result ≡ claim_of line.now }
{
    match line {
        b"s SATISFIABLE" => Some(Status::Satisfiable),
        b"s UNSATISFIABLE" => Some(Status::Unsatisfiable),
        b"s UNKNOWN" => Some(Status::Unknown),
        _ => None,
    }
}
