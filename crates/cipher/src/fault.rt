// Why a text is not turned.
ghost use Rattle.std.specs.Prelude.{Some};
ghost use Rattle.cipher.specs.Faults.{sentence};

use std::error::Error;
use std::fmt;

/// What `turn` refuses.
#[derive(Clone, Copy, PartialEq, Eq, Debug)]
pub enum Fault {
    /// The text is longer than 65,536 bytes.
    TooLong,
    /// The text takes more blocks than the 32-bit block counter has left.
    CounterOver,
}

impl fmt::Display for Fault {
    ghost output = { λ fault. Some (sentence fault) };

    fn fmt<W: fmt::Write>(&self, f: &mut fmt::Formatter<W>) -> fmt::Result {
        match self {
            Fault::TooLong => f.write_str("the text is longer than 65,536 bytes"),
            Fault::CounterOver => {
                f.write_str("the text takes more blocks than the counter has left")
            }
        }
    }
}

impl Error for Fault {}
