// What can be wrong with a line of a plan, in words that its writer understands. Assumes nothing.
ghost use Rattle.std.specs.Prelude.{◌≡◌};
ghost use Rattle.draft.specs.declared.faults.TextFault.TheVariants.{Refused};

use settings::Fault;
use std::error::Error;
use std::fmt;

/// What is wrong with a line of a plan.
#[derive(Clone, Copy, Debug, PartialEq, Eq)]
pub enum TextFault {
    /// It is neither life, nor most, nor a gate.
    Columns,
    /// What follows life or most is no number that fits.
    NotNumber,
    /// Life or most stands a second time.
    Twice,
    /// A gate stands before life and most.
    TooEarly,
    /// The gate's number isn't the next one, which is this.
    NotNext(u8),
    /// The name isn't 1 to 32 letters, digits, - and _.
    NotName,
    /// This gate, before it, has the same name.
    SameName(u8),
    /// The prefix isn't written A.B.C.D/N.
    NotPrefix,
    /// The address outside isn't written A.B.C.D.
    NotAddress,
    /// The value isn't allowed in settings.
    Refused(Fault),
}

/// The first line of a plan's text that is wrong, counted from 1, and what is wrong with it.
#[derive(Clone, Copy, Debug, PartialEq, Eq)]
pub struct Wrong {
    pub line: usize,
    pub fault: TextFault,
}

impl fmt::Display for TextFault {
    fn fmt<W: fmt::Write>(&self, f: &mut fmt::Formatter<W>) -> fmt::Result {
        match self {
            TextFault::Columns => f.write_str(
                "the line is none of: life TICKS, most PACKETS, NUMBER NAME A.B.C.D/N A.B.C.D",
            ),
            TextFault::NotNumber => f.write_str("what follows is no number that fits"),
            TextFault::Twice => f.write_str("it stands a second time"),
            TextFault::TooEarly => f.write_str("life and most stand before the first gate"),
            TextFault::NotNext(next) => write!(f, "the number of this gate is {next}"),
            TextFault::NotName => f.write_str("a name is 1 to 32 letters, digits, - and _"),
            TextFault::SameName(gate) => write!(f, "gate {gate} has this name too"),
            TextFault::NotPrefix => f.write_str("the prefix is written A.B.C.D/N, N from 0 to 32"),
            TextFault::NotAddress => f.write_str("the address outside is written A.B.C.D"),
            TextFault::Refused(fault) => write!(f, "{fault}"),
        }
    }
}

impl Error for TextFault {}

impl From<Fault> for TextFault {
    ghost from_gives = { λ fault e. e ≡ Refused fault };

    fn from(fault: Fault) -> Self {
        Self::Refused(fault)
    }
}

// No `ghost output`: faults have numbers in their texts, which the output of `texts` pins.
impl fmt::Display for Wrong {
    fn fmt<W: fmt::Write>(&self, f: &mut fmt::Formatter<W>) -> fmt::Result {
        write!(f, "line {}: {}", self.line, self.fault)
    }
}

impl Error for Wrong {}
