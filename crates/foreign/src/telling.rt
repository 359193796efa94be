// How an answer is told as one number.
ghost use Rattle.std.specs.Prelude.{◌≡◌, ℤ};
ghost use Rattle.foreign.specs.Told.{told_by, used_told, status_number, nothing_told};

use answers::Status;
use rules::Refusal;

// What a granted call answers, as a number that is not negative.
pub(crate) trait Tells {
    ghost told: { Self → ℤ };

    fn number(self) -> i64
        ensures tells { result ≡ told self };
}

// How many cells were used; past 2^47 - 1 it is told as that.
impl Tells for usize {
    ghost told = { used_told };

    fn number(self) -> i64 {
        self.min(0x7fff_ffff_ffff) as i64
    }
}

// Nothing but the grant.
impl Tells for () {
    ghost told = { nothing_told };

    fn number(self) -> i64 {
        0
    }
}

// 1, 2 or 3 for what the solver says.
impl Tells for Status {
    ghost told = { status_number };

    fn number(self) -> i64 {
        match self {
            Status::Satisfiable => 1,
            Status::Unsatisfiable => 2,
            Status::Unknown => 3,
        }
    }
}

// What the call answers, or minus the refusal's number.
pub(crate) fn tell<T: Tells>(answer: Result<T, Refusal>) -> i64
    ensures tells { result ≡ told_by T.Tells.told answer }
{
    match answer {
        Ok(value) => value.number(),
        Err(refusal) => -i64::from(u8::from(refusal)),
    }
}
