// The refusals (§9.1), and the number that a call gives for its answer.
ghost use Rattle.std.specs.Prelude.{◌≡◌, cond};
ghost use Rattle.registers.specs.Refusals.{number, code};

// The conditions on which a call is refused, by their numbers.
#[derive(Clone, Copy, Debug, PartialEq, Eq, PartialOrd, Ord)]
pub enum Refusal {
    ReservedBit = 1,
    OtherPanel = 2,
    NoSuchMode = 3,
    IllegalSwap = 4,
    WrongRowSize = 5,
    WrongEnd = 6,
    PastBank = 7,
    OutsideMemory = 8,
    VideoOff = 9,
    WrongLength = 10,
    OutsidePanel = 11,
    FieldTooWide = 12,
    OtherBank = 13,
    InputLength = 14,
    PastFrame = 15,
    ClockTooFast = 17,
    NoSuchEdition = 27,
}

impl From<Refusal> for u32 {
    ghost from_gives = { λ r n. n ≡ number r };

    fn from(refusal: Refusal) -> u32 {
        refusal as u32
    }
}

// Refuses a call where the condition holds.
pub fn refuse_if(holds: bool, refusal: Refusal) -> Result<(), Refusal>
    ensures { code result ≡ cond holds (number refusal) 0 }
{
    if holds { Err(refusal) } else { Ok(()) }
}

// The number of a call's refusal, 0 where it is done.
pub fn code(answer: Result<(), Refusal>) -> u32
    ensures { result ≡ code answer }
{
    match answer {
        Ok(()) => 0,
        Err(refusal) => refusal.into(),
    }
}
