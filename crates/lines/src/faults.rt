// What can be wrong with an input line, in words that its writer understands. Assumes nothing.
ghost use Rattle.std.specs.Prelude.{◌≡◌, Some, codes};
ghost use Rattle.lines.specs.declared.faults.LineFault.TheVariants.{NoMemory};

use std::alloc::{AllocError, AllocFailed};
use std::error::Error;
use std::fmt;

/// What is wrong with a line. Columns are counted in bytes, from 1.
#[derive(Clone, Copy, Debug, PartialEq, Eq)]
pub enum LineFault {
    /// Nothing stands on the line.
    EmptyLine,
    /// The line begins with none of the events' names.
    UnknownEvent,
    /// Something stands after an event that has nothing after it.
    NotAlone,
    /// No bytes stand after `drawn`.
    NothingDrawn,
    /// The character at this column is no hex digit.
    NotHex(usize),
    /// The last byte has one hex digit in place of two.
    OddHex,
    /// There is no memory for the line's bytes.
    NoMemory,
}

impl fmt::Display for LineFault {
    fn fmt<W: fmt::Write>(&self, f: &mut fmt::Formatter<W>) -> fmt::Result {
        match self {
            LineFault::EmptyLine => f.write_str("the line is empty"),
            LineFault::UnknownEvent => f.write_str(
                "the line begins with none of tick, drawn, packet, word and fall",
            ),
            LineFault::NotAlone => f.write_str("nothing may stand after tick or fall"),
            LineFault::NothingDrawn => f.write_str("drawn needs hex digits after it"),
            LineFault::NotHex(column) => write!(
                f,
                "the character at column {column} is no hex digit"
            ),
            LineFault::OddHex => f.write_str("the number of hex digits is odd"),
            LineFault::NoMemory => f.write_str("there is no memory for the line's bytes"),
        }
    }
}

impl Error for LineFault {}

impl From<AllocError> for LineFault {
    ghost from_gives = { λ _ fault. fault ≡ NoMemory };

    fn from(_error: AllocError) -> LineFault {
        LineFault::NoMemory
    }
}

impl<T: Drop> From<AllocFailed<T>> for LineFault {
    ghost from_gives = { λ _ fault. fault ≡ NoMemory };

    fn from(_error: AllocFailed<T>) -> LineFault {
        LineFault::NoMemory
    }
}

/// A word that is no hex, with what is wrong with it.
#[derive(Clone, Copy, Debug, PartialEq, Eq)]
pub struct NoHex(pub LineFault);

impl fmt::Display for NoHex {
    ghost output = { λ _. Some (codes "a word is no hex") };

    fn fmt<W: fmt::Write>(&self, f: &mut fmt::Formatter<W>) -> fmt::Result {
        f.write_str("a word is no hex")
    }
}

impl Error for NoHex {}
