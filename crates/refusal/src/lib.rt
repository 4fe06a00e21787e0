// The refusals of document 01: sixteen reasons with their numbers, and the refusal of a text, which has a place too.
#![tactic(auto)]

ghost use Rattle.std.specs.Prelude.{◌≡◌};
ghost use Rattle.refusal.specs.Numbers.{number_of, has_place, Names};

use std::error::Error;
use std::fmt;

// Why a call is refused.
#[derive(Clone, Copy, Debug, PartialEq, Eq, Hash)]
pub enum Reason {
    // The text is too long.
    LongText,
    // A byte or token that the lexical rules do not have.
    Token,
    // A token with which no sentence goes on.
    Sentence,
    // The 33rd open bracket or `if`.
    Nesting,
    // A name that is not declared.
    Unknown,
    // A name that is used already.
    Taken,
    // A closing name that differs, or that closes nothing.
    Closing,
    // A delay above 10^18 fs.
    Delay,
    // An assignment to a signal that an earlier process assigns.
    Driver,
    // A 65th signal or process, or a 4,097th instruction.
    Size,
    // A lent buffer is too short.
    Buffer,
    // A stop above 10^18 fs, or stop words that say none.
    Stop,
    // The table is not fit.
    Table,
    // The session is not fit.
    Session,
    // A 17th pending change.
    Pending,
    // A 1,001st cycle at one time.
    Cycles,
}

impl Reason {
    // The number that document 01 gives it.
    pub fn number(self) -> u64
        ensures { result ≡ number_of self }
    {
        match self {
            Reason::LongText => 1,
            Reason::Token => 2,
            Reason::Sentence => 3,
            Reason::Nesting => 4,
            Reason::Unknown => 5,
            Reason::Taken => 6,
            Reason::Closing => 7,
            Reason::Delay => 8,
            Reason::Driver => 9,
            Reason::Size => 10,
            Reason::Buffer => 11,
            Reason::Stop => 12,
            Reason::Table => 13,
            Reason::Session => 14,
            Reason::Pending => 15,
            Reason::Cycles => 16,
        }
    }

    // Whether such a refusal names a place of the text: 2 to 10 do.
    pub fn has_place(self) -> bool
        ensures { result ≡ has_place self }
    {
        let number = self.number();
        2 <= number && number <= 10
    }
}

// A number that is none of the sixteen.
#[derive(Clone, Copy, Debug, PartialEq, Eq, Hash)]
pub struct NoReason(pub u64);

// The reason that a number names.
impl TryFrom<u64> for Reason {
    type Error = NoReason;

    ghost try_from_gives = { Names };

    fn try_from(number: u64) -> Result<Reason, NoReason> {
        match number {
            1 => Ok(Reason::LongText),
            2 => Ok(Reason::Token),
            3 => Ok(Reason::Sentence),
            4 => Ok(Reason::Nesting),
            5 => Ok(Reason::Unknown),
            6 => Ok(Reason::Taken),
            7 => Ok(Reason::Closing),
            8 => Ok(Reason::Delay),
            9 => Ok(Reason::Driver),
            10 => Ok(Reason::Size),
            11 => Ok(Reason::Buffer),
            12 => Ok(Reason::Stop),
            13 => Ok(Reason::Table),
            14 => Ok(Reason::Session),
            15 => Ok(Reason::Pending),
            16 => Ok(Reason::Cycles),
            _ => Err(NoReason(number)),
        }
    }
}

impl fmt::Display for NoReason {
    fn fmt<W: fmt::Write>(&self, f: &mut fmt::Formatter<W>) -> fmt::Result {
        write!(f, "no reason has number {}", self.0)
    }
}

impl Error for NoReason {}

// A refusal of a text: its reason, and where its token starts (0 where it has no place).
#[derive(Clone, Copy, Debug, PartialEq, Eq, Hash)]
pub struct Refusal {
    pub reason: Reason,
    pub place: usize,
}

// The line that a program prints, without its end.
impl fmt::Display for Refusal {
    fn fmt<W: fmt::Write>(&self, f: &mut fmt::Formatter<W>) -> fmt::Result {
        write!(f, "refused {}", self.reason.number())?;
        if self.reason.has_place() {
            write!(f, " {}", self.place)?;
        }
        Ok(())
    }
}

impl Error for Refusal {}

// A reason alone is the refusal of a call that reads no text.
impl From<Reason> for Refusal {
    ghost from_gives = { λ reason refusal. refusal ≡ record { reason = reason; place = 0 } };

    fn from(reason: Reason) -> Refusal {
        Refusal { reason, place: 0 }
    }
}
