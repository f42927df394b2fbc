// What can be wrong with a line of a plan, in words that its writer understands. Assumes nothing.
use settings::Fault;
use std::alloc::AllocError;
use thiserror::Error;

/// What is wrong with a line of a plan.
#[derive(Clone, Copy, Debug, Drop, Error)]
pub enum TextFault {
    /// It is neither life, nor most, nor a gate.
    #[error("the line is none of: life TICKS, most PACKETS, NUMBER NAME A.B.C.D/N A.B.C.D")]
    Columns,
    /// What follows life or most is no number that fits.
    #[error("what follows is no number that fits")]
    NotNumber,
    /// Life or most stands a second time.
    #[error("it stands a second time, or after a gate")]
    Twice,
    /// A gate stands before life and most.
    #[error("life and most stand before the first gate")]
    TooEarly,
    /// The gate's number isn't the next one.
    #[error("the number of this gate is {0}")]
    NotNext(u8),
    /// The name has other characters than letters, digits, - and _.
    #[error("a name has only letters, digits, - and _")]
    NotName,
    /// A gate before has the same name.
    #[error("gate {0} has this name too")]
    SameName(usize),
    /// The prefix isn't written A.B.C.D/N.
    #[error("the prefix is written A.B.C.D/N, N from 0 to 32")]
    NotPrefix,
    /// The address outside isn't written A.B.C.D.
    #[error("the address outside is written A.B.C.D")]
    NotAddress,
    /// The value isn't allowed in settings.
    #[error(transparent)]
    Refused(#[from] Fault),
    /// There is no memory.
    #[error("there is no memory")]
    NoMemory(#[from(alloc)] AllocError),
}
