// The refusals of documents 01 and 02, in the order of their numbers.
ghost use Rattle.std.specs.Prelude.{◌≡◌};
ghost use Rattle.policy.specs.Answers.{number_of};

#[derive(Clone, Copy, PartialEq, Eq)]
pub enum Refusal {
    TextTooLong = 1,
    LineFeedMissing = 2,
    KindNotAllowed = 3,
    WrongFieldCount = 4,
    MalformedField = 5,
    OutOfRange = 6,
    NotRising = 7,
    UnequalWidths = 8,
    UnbalancedFormula = 9,
    EndMissing = 10,
    InvalidState = 11,
    UnknownAction = 12,
    UnknownSession = 13,
    UnregisteredUser = 14,
    UnregisteredObject = 15,
    SessionOpen = 16,
    SessionNotOpen = 17,
    SessionOfAnother = 18,
    SetOutOfReach = 19,
    BufferTooShort = 20,
    TooManyPairs = 21,
    TooManyConflicts = 22,
    TooManyHeld = 23,
}

// The number of a refusal.
impl From<Refusal> for u32 {
    ghost from_gives = { λ refusal n. n ≡ number_of refusal };

    fn from(refusal: Refusal) -> u32 {
        refusal as u32
    }
}
