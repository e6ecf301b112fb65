// Why a call is refused. Each refusal has a number.

#![tactic(auto)]

ghost use Rattle.std.specs.Prelude.{◌≡◌};
ghost use Rattle.refusal.specs.Refusal.{number, number_of};

// The refusals in the order of their numbers.
#[derive(Clone, Copy, Debug, PartialEq, Eq)]
pub enum Refusal {
    WrongLength,
    UnknownFormat,
    BadConfiguration,
    BadBlocks,
    OutsideLimits,
    IllFormed,
    OrderFalls,
    Crowded,
    NoQuestion,
    TooFewWords,
    ShortMemory,
    OtherForm,
    TooManyLines,
    IllNumbered,
}

impl From<Refusal> for u32 {
    ghost from_gives = { λ refusal n. n ≡ number refusal };

    fn from(refusal: Refusal) -> u32 {
        match refusal {
            Refusal::WrongLength => 1,
            Refusal::UnknownFormat => 2,
            Refusal::BadConfiguration => 3,
            Refusal::BadBlocks => 4,
            Refusal::OutsideLimits => 5,
            Refusal::IllFormed => 6,
            Refusal::OrderFalls => 7,
            Refusal::Crowded => 8,
            Refusal::NoQuestion => 9,
            Refusal::TooFewWords => 10,
            Refusal::ShortMemory => 11,
            Refusal::OtherForm => 12,
            Refusal::TooManyLines => 13,
            Refusal::IllNumbered => 14,
        }
    }
}

// The number of an answer that may be a refusal, 0 where it is none.
pub fn number_of(answer: Result<(), Refusal>) -> u32
    ensures { result ≡ number_of answer }
{
    match answer {
        Ok(()) => 0,
        Err(refusal) => refusal.into(),
    }
}
