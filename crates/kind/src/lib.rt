// The kind of an instruction, and its number, the low four bits of an operation's word.
#![tactic(auto)]

ghost use Rattle.std.specs.Prelude.{◌≡◌};
ghost use Rattle.kind.specs.Numbers.{number_of, Decodes};

use std::error::Error;
use std::fmt;

// What an instruction does.
#[derive(Clone, Copy, Debug, PartialEq, Eq, Hash)]
pub enum Kind {
    // Lays the value of a signal on the operands.
    Name,
    // Lays a value on them.
    Literal,
    // Turns the last operand.
    Not,
    // The binary words join the last two.
    And,
    Or,
    Nand,
    Nor,
    Xor,
    Xnor,
    // Posts the last operand.
    Assignment,
    // Takes the last operand, and jumps where it is false.
    Test,
    // Jumps.
    Skip,
}

impl Kind {
    // Its number in an operation's word.
    pub fn number(self) -> u64
        ensures { result ≡ number_of self }
    {
        self as u64
    }
}

// That no kind has a number: it is 12 or above.
#[derive(Clone, Copy, Debug, PartialEq, Eq, Hash)]
pub struct UnknownKind;

impl TryFrom<u64> for Kind {
    type Error = UnknownKind;

    ghost try_from_gives = { Decodes };

    fn try_from(number: u64) -> Result<Self, UnknownKind> {
        match number {
            0 => Ok(Kind::Name),
            1 => Ok(Kind::Literal),
            2 => Ok(Kind::Not),
            3 => Ok(Kind::And),
            4 => Ok(Kind::Or),
            5 => Ok(Kind::Nand),
            6 => Ok(Kind::Nor),
            7 => Ok(Kind::Xor),
            8 => Ok(Kind::Xnor),
            9 => Ok(Kind::Assignment),
            10 => Ok(Kind::Test),
            11 => Ok(Kind::Skip),
            _ => Err(UnknownKind),
        }
    }
}

impl fmt::Display for UnknownKind {
    fn fmt<W: fmt::Write>(&self, f: &mut fmt::Formatter<W>) -> fmt::Result {
        f.write_str("no kind of an instruction has this number")
    }
}

impl Error for UnknownKind {}
