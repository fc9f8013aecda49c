//! What keeps a text from being a table.
ghost use Rattle.louis_table.specs.Steps.Fault.{cause_number};
ghost use Rattle.std.specs.Prelude.{◌≡◌};

use thiserror::Error;

/// What is wrong, with the number that a fault reports.
#[derive(Clone, Copy)]
pub(crate) enum Cause {
    /// The first field of a line isn't an opcode.
    UnknownOpcode = 1,
    /// An operand is missing.
    MissingOperand = 2,
    /// A characters operand has a bad escape, or too many or too few characters for its opcode.
    BadCharacters = 3,
    /// A dots operand isn't one for its opcode.
    BadDots = 4,
    /// An earlier line defines the character, or this line defines it twice.
    DefinedBefore = 5,
    /// An earlier line gives the sign or the set.
    GivenBefore = 6,
    /// No line defines a character of a rule or a set.
    UndefinedCharacter = 7,
    /// A line is too long, or one too many, or an operand has too many characters or cells.
    BeyondLimit = 8,
    /// The text isn't UTF-8.
    NotText = 9,
}

impl Cause {
    /// The number that a fault reports.
    pub(crate) fn number(self) -> u8
        ensures { result ≡ cause_number self }
    {
        self as u8
    }
}

/// Why a line wasn't accepted into its table.
#[derive(Clone, Copy)]
pub(crate) enum LineFault {
    Bad(Cause),
    NoMemory,
}

/// The line of a text that keeps it from being a table, and why.
#[derive(Clone, Copy, Debug, PartialEq, Eq, Error)]
#[error("line {line}: cause {cause}")]
pub struct TableFault {
    /// The number of the line, from 1.
    pub line: usize,
    /// The cause: 1 unknown opcode, 2 missing operand, 3 bad characters, 4 bad dots, 5 a character
    /// that is defined already, 6 a sign or a set that is given already, 7 a rule or a set with a
    /// character that is not defined, 8 beyond a limit, 9 not UTF-8.
    pub cause: u8,
}

/// Why a text wasn't read as a table.
#[derive(Clone, Copy, Debug, PartialEq, Eq, Error)]
pub enum ReadFault {
    /// The text isn't a table.
    #[error(transparent)]
    Table(TableFault),
    /// An allocation failed.
    #[error("out of memory")]
    NoMemory,
}
