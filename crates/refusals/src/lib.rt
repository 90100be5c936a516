// Why a call refuses, and the number by which the help card says it.
#![tactic(auto)]

ghost use Rattle.std.specs.Prelude.{◌≡◌};
ghost use Rattle.refusals.specs.Numbers.{number_of};

// The refusals by their numbers. There is no 8.
#[derive(Clone, Copy, PartialEq, Eq)]
pub enum Refusal {
    NotAJob = 1,
    WrongCount = 2,
    TooManyPairs = 3,
    WrongEntry = 4,
    WrongStar = 5,
    Unanswered = 6,
    Circle = 7,
    NoFloor = 9,
    NothingHeld = 10,
    NoContact = 11,
    CannotTurn = 12,
    NoVertex = 13,
    TooShort = 14,
    NoCuts = 15,
    NotAPlan = 16,
    WrongSizes = 17,
    TooLarge = 18,
    NoSeason = 19,
}

impl Refusal {
    // The number of a refusal.
    #[tactic(auto, unfolding(crate::specs::Numbers::number_of))]
    pub fn number(self) -> u8
        ensures { result ≡ number_of self }
    {
        self as u8
    }
}
