//! What a call answers.
ghost use Rattle.std.specs.Prelude.{◌≡◌, true, false, MatchResult};
ghost use Rattle.model.specs.Answers.{refusal_number, answer_number, start_number, answer_line};

/// Why a call is refused; the number of each case is the one that a host sees.
#[derive(Clone, Copy, Debug, PartialEq, Eq)]
pub enum Refusal {
    Blank = 1,
    Started = 2,
    ListTooLong = 3,
    BufferTooShort = 4,
    TextTooLong = 10,
    LineForm = 11,
    LineOrder = 12,
    LineRange = 13,
    LineUndefined = 14,
    LineLevelUnknown = 15,
    LineLevels = 16,
    LineNotReached = 17,
    LineRule = 18,
    Form = 20,
    Range = 21,
    LevelUnknown = 22,
    NoSession = 30,
    WrongItem = 31,
    NumberUsed = 32,
    Protected = 33,
    NotInContainer = 34,
    OtherHoldings = 35,
    RoleDenied = 40,
    KeyLocked = 41,
    AccessMissing = 42,
    NotReached = 43,
    Levels = 50,
    NoVoucher = 51,
    RuleDenies = 60,
}

/// The number that a host sees.
impl From<Refusal> for u8 {
    ghost from_gives = { λ refusal n. n ≡ refusal_number refusal };

    fn from(refusal: Refusal) -> u8 {
        refusal as u8
    }
}

/// Why a start is refused, and the line of its text at fault, from 1.
#[derive(Clone, Copy, Debug, PartialEq, Eq)]
pub struct StartRefusal {
    pub refusal: Refusal,
    /// 0 where no line is at fault, as the format of a printed answer has it.
    pub line: usize,
}

/// A refusal for which no line is at fault.
impl From<Refusal> for StartRefusal {
    ghost from_gives = { λ refusal start. start ≡ record { refusal = refusal; line = 0 } };

    fn from(refusal: Refusal) -> StartRefusal {
        StartRefusal { refusal, line: 0 }
    }
}

/// A need that fails refuses with the refusal beside it.
pub fn need(holds: bool, otherwise: Refusal) -> Result<(), Refusal>
    ensures { MatchResult result (λ met. holds ≡ true) (λ refusal. (holds ≡ false) × (refusal ≡ otherwise)) }
{
    if holds { Ok(()) } else { Err(otherwise) }
}

/// What a host sees of the answer to a request or a list: its number, 0 if it is accepted.
// Here and below a function, and no `From`: both types are std's.
pub fn answer_number(answer: Result<(), Refusal>) -> u8
    ensures { result ≡ answer_number answer }
{
    match answer {
        Ok(()) => 0,
        Err(refusal) => u8::from(refusal),
    }
}

/// What a host sees of the answer to a start: its number and its line, both 0 if it is accepted.
pub fn number_and_line(answer: Result<(), StartRefusal>) -> (u8, usize)
    ensures number { result.0 ≡ start_number answer }
    ensures line { result.1 ≡ answer_line answer }
{
    match answer {
        Ok(()) => (0, 0),
        Err(start) => (u8::from(start.refusal), start.line),
    }
}
