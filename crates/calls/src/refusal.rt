// Why a call is refused: the cause, with the side and the place that the specification gives it.
ghost use Rattle.std.specs.Prelude.{◌≡◌};
ghost use Rattle.calls.specs.Causes.{number_of, side_of};
ghost use Rattle.calls.specs.declared.refusal.Side.TheVariants.{Gold};

// What is wrong, by the specification's names and numbers.
#[derive(Clone, Copy, Debug, PartialEq, Eq)]
pub enum Cause {
    Length = 1,
    Version = 2,
    Cut = 3,
    Code = 4,
    Name = 5,
    Count = 6,
    UndefinedNet = 7,
    DuplicatePortName = 8,
    DuplicateRegisterName = 9,
    InvalidRegisterOutput = 10,
    MultipleDrivers = 11,
    RegisterNet = 12,
    UnconnectedRegister = 13,
    UnsupportedAsyncReset = 14,
    UnsupportedClock = 15,
    ZeroDepth = 16,
    DepthLimit = 17,
    InputInterface = 18,
    OutputInterface = 19,
    MultipleClockDomains = 20,
    ClockDomain = 21,
    UnknownInitialState = 22,
    TooLarge = 23,
    Memory = 24,
    Claim = 25,
    ClockRead = 30,
    LearnedLimit = 36,
}

impl Cause {
    // The number that a call answers.
    pub fn number(self) -> u32
        ensures { result ≡ number_of self }
    {
        self as u32
    }
}

// A side of a pair; a record by itself is gold's.
#[derive(Clone, Copy, Debug, PartialEq, Eq)]
pub enum Side {
    Gold = 0,
    Gate = 1,
}

impl Side {
    // The number that a call answers.
    pub fn number(self) -> u32
        ensures { result ≡ side_of self }
    {
        self as u32
    }
}

// The first refusal that applies.
#[derive(Clone, Copy, Debug, PartialEq, Eq)]
pub struct Refusal {
    pub cause: Cause,
    pub side: Side,
    pub place: u32,
}

impl Refusal {
    // A refusal of a record by itself.
    pub fn at(cause: Cause, place: u32) -> Refusal
        ensures { result ≡ record { cause = cause; side = Gold; place = place } }
    {
        Refusal {
            cause,
            side: Side::Gold,
            place,
        }
    }

    // A refusal of a pair, which has no place.
    pub fn of_pair(cause: Cause) -> Refusal
        ensures { result ≡ record { cause = cause; side = Gold; place = 0 } }
    {
        Refusal::at(cause, 0)
    }
}
