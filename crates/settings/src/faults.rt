// What is wrong with settings: which field of which gate's entry, in words that people understand.
// Every fault is the same refusal. Assumes nothing.
ghost use Rattle.std.specs.Prelude.{◌≡◌, Some};
ghost use Rattle.protocol.specs.declared.refusals.Refusal.TheVariants.{BadSettings};
ghost use Rattle.settings.specs.Faults.{field_name, header_fault, entry_fault};
ghost use Rattle.settings.specs.declared.faults.Cause.TheVariants as causes;

use protocol::Refusal;
use std::error::Error;
use std::fmt;

/// A field of settings.
#[derive(Clone, Copy, Debug, PartialEq, Eq)]
pub enum Field {
    /// The version of the format.
    Version,
    /// The number of gates.
    Gates,
    /// The gate's own number.
    Own,
    /// The life of a talk, in ticks.
    Life,
    /// The most packets that a talk sends.
    Most,
    /// The replay window.
    Window,
    /// A gate's key with this one.
    Key,
    /// A gate's range of addresses.
    Range,
    /// A gate's address outside.
    Outside,
    /// The end of the settings.
    End,
}

/// Why a field is refused.
#[derive(Clone, Copy, Debug, PartialEq, Eq)]
pub enum Cause {
    /// The bytes end before it or in it.
    Missing,
    /// It has a value that isn't allowed.
    Wrong,
    /// It has the same value as an earlier gate's.
    Repeats(u8),
}

/// What is wrong with settings: the first field that is refused, of which gate's entry, and why.
#[derive(Clone, Copy, Debug, PartialEq, Eq)]
pub struct Fault {
    pub field: Field,
    pub gate: Option<u8>,
    pub cause: Cause,
}

impl Fault {
    /// The fault of a field before the entries. It never refuses.
    pub fn in_header(field: Field, cause: Cause) -> Self
        ensures { result ≡ header_fault field cause }
    {
        Fault {
            field,
            gate: None,
            cause,
        }
    }

    /// The fault of a field of a gate's entry. It never refuses.
    pub fn in_entry(field: Field, gate: u8, cause: Cause) -> Self
        ensures { result ≡ entry_fault field gate cause }
    {
        Fault {
            field,
            gate: Some(gate),
            cause,
        }
    }

    /// The refusal of every fault of settings.
    // A method, as an io::Error's kind(): no function passes a fault on as a refusal.
    pub fn refusal(self) -> Refusal
        ensures { result ≡ BadSettings }
    {
        Refusal::BadSettings
    }
}

// The field in words, as a sentence goes on after 'the'.
impl fmt::Display for Field {
    ghost output = { λ x. Some (field_name x) };

    fn fmt<W: fmt::Write>(&self, f: &mut fmt::Formatter<W>) -> fmt::Result {
        f.write_str(match self {
            Field::Version => "version",
            Field::Gates => "number of gates",
            Field::Own => "own number",
            Field::Life => "life",
            Field::Most => "most",
            Field::Window => "window",
            Field::Key => "key",
            Field::Range => "range",
            Field::Outside => "address outside",
            Field::End => "end",
        })
    }
}

impl Field {
    // What the field has to be, for people.
    fn rule(self) -> &'static str {
        match self {
            Field::Version => "it is 1",
            Field::Gates => "there are 1 to 32",
            Field::Own => "it is below the number of gates",
            Field::Life => "it is 1 to 3600 ticks",
            Field::Most => "it is 17 to 4294967295 packets",
            Field::Window => "it is 2048",
            Field::Key => "a gate's key with itself is zeros",
            Field::Range => "it is all the addresses of one prefix",
            Field::Outside => "it is any address",
            Field::End => "nothing stands behind the last entry",
        }
    }
}

impl fmt::Display for Fault {
    fn fmt<W: fmt::Write>(&self, f: &mut fmt::Formatter<W>) -> fmt::Result {
        if let Some(gate) = self.gate {
            write!(f, "gate {gate}: ")?;
        }
        let field = self.field;
        let rule = field.rule();
        match self.cause {
            Cause::Missing => write!(f, "the bytes end before the end of the {field}"),
            Cause::Wrong => write!(f, "the {field} is wrong: {rule}"),
            Cause::Repeats(gate) => write!(f, "the {field} is that of gate {gate} too"),
        }
    }
}

impl Error for Fault {}
