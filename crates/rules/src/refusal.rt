ghost use Rattle.std.specs.Prelude.{◌≡◌};
ghost use Rattle.rules.specs.Refusals.{number};

// Why a call refuses. Each cause has a number, from 1 on in this order, which `number` in specs/Refusals.antt gives it.
#[derive(Clone, Copy, PartialEq, Eq, Debug)]
pub enum Refusal {
    TooShort,
    HeadOutOfRange,
    WrongLength,
    UnknownPair,
    PairsNotRising,
    SetsAndClears,
    BadRequest,
    BadClause,
    NoSpace,
    SinkNotEmpty,
    TooManyVariables,
    NotClauseText,
    NotAnAnswer,
    BadTruthMemory,
    NotAModel,
    BadSheetLines,
    SheetDoesNotHold,
    NotAsNoted,
    BadLemma,
    NotShown,
    CutTooLong,
}

impl From<Refusal> for u8 {
    ghost from_gives = { λ refusal n. n ≡ number refusal };

    fn from(refusal: Refusal) -> u8 {
        refusal as u8 + 1
    }
}
