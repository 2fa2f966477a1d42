// Why a tape, an order, an event or a request is refused.
ghost use Rattle.std.specs.Prelude.{◌≡◌};
ghost use Rattle.base.specs.Refusal.{number_of};

use std::fmt;

// One case for each number of the rules, which it has.
#[derive(Clone, Copy, Debug, PartialEq, Eq)]
pub enum Refusal {
    // ---- an order
    OrderOutOfForm = 1,
    BetterThanNational = 2,
    NoSize = 3,
    BeforeOpen = 4,
    NearClose = 5,
    Halted = 6,
    AnotherOpen = 7,
    NationalCrossed = 8,
    ExchangeCentWide = 9,
    LimitBelowRange = 10,
    StopAboveRange = 11,
    NationalCentWide = 12,
    NoRange = 13,
    // ---- a tape and its records
    TapeLength = 21,
    TrailerOutOfForm = 22,
    LengthsDisagree = 23,
    RoomTooShort = 24,
    FirmLost = 25,
    MovedTooLong = 26,
    // ---- an event
    AuctionEnded = 31,
    EventOutOfForm = 32,
    SequenceTaken = 33,
    BeforeClock = 34,
    OwnSide = 35,
    AboveInitiating = 36,
    NoSuchResponse = 37,
    BoardFull = 38,
    // ---- fills
    FewWords = 39,
    AuctionOpen = 40,
}

impl Refusal {
    // Its number.
    pub fn number(self) -> u32
        ensures { result ≡ number_of self }
    {
        self as u32
    }
}

impl fmt::Display for Refusal {
    fn fmt<W: fmt::Write>(&self, f: &mut fmt::Formatter<W>) -> fmt::Result {
        write!(f, "{}", self.number())
    }
}
