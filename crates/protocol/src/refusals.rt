// Why something is refused: fifteen causes, each with its number and a sentence for people, in the
// order of their numbers. Assumes nothing.
ghost use Rattle.std.specs.Prelude.{◌≡◌, Some};
ghost use Rattle.protocol.specs.Refusals.{refusal_sentence, HasNumber, IsRefusalOf, AllAreThere};

use std::error::Error;
use std::fmt;

/// The cause of a refusal. What is refused changes nothing and is answered by nothing.
#[derive(Clone, Copy, Debug, PartialEq, Eq)]
pub enum Refusal {
    /// A word whose first byte is no kind, or whose length doesn't fit its kind.
    UnknownWord = 1,
    /// A word by or for a gate that isn't there, for another gate, or by this one.
    WrongGate = 2,
    /// A word whose authentication sum isn't right.
    WrongSum = 3,
    /// A tag of 0, which no talk has.
    ZeroTag = 4,
    /// A hello whose tick isn't above that of the last one taken from its gate: a replay.
    OldHello = 5,
    /// A reply to no hello of this gate that still waits for one.
    UnaskedReply = 6,
    /// No such talk (session), or one that is over.
    NoTalk = 7,
    /// A number of 0, or one that the replay window has passed.
    BelowWindow = 8,
    /// A number that came before: a replay.
    RepeatedNumber = 9,
    /// Bytes that aren't one whole IPv4 packet that may pass.
    BadPacket = 10,
    /// An address that isn't owned by the gate that must own it.
    ForeignAddress = 11,
    /// A destination that no other gate owns.
    NoRoute = 12,
    /// The queue of packets that wait for a talk is full.
    QueueFull = 13,
    /// Too few drawn (random) bytes are left.
    NoDrawnBytes = 14,
    /// Settings that are damaged or out of range.
    BadSettings = 15,
}

/// A number that no refusal has.
#[derive(Clone, Copy, Debug, PartialEq, Eq)]
pub struct UnknownNumber(pub u8);

impl Refusal {
    /// All refusals, in the order of their numbers.
    pub const ALL: [Refusal; 15] = [
        Refusal::UnknownWord,
        Refusal::WrongGate,
        Refusal::WrongSum,
        Refusal::ZeroTag,
        Refusal::OldHello,
        Refusal::UnaskedReply,
        Refusal::NoTalk,
        Refusal::BelowWindow,
        Refusal::RepeatedNumber,
        Refusal::BadPacket,
        Refusal::ForeignAddress,
        Refusal::NoRoute,
        Refusal::QueueFull,
        Refusal::NoDrawnBytes,
        Refusal::BadSettings,
    ];

    /// The refusal in a sentence for people. It changes nothing and never refuses.
    pub fn sentence(self) -> &'static str
        ensures { result.now ≡ refusal_sentence self }
    {
        match self {
            Refusal::UnknownWord => "the word is of unknown kind or length",
            Refusal::WrongGate =>
                "the word is by or for a gate that isn't there, for another gate, or by this one",
            Refusal::WrongSum => "the word's sum isn't right",
            Refusal::ZeroTag => "the word has a tag of 0",
            Refusal::OldHello => "the hello's tick isn't above that of the last hello",
            Refusal::UnaskedReply => "the reply is to no hello that waits",
            Refusal::NoTalk => "there is no such talk, or it is over",
            Refusal::BelowWindow => "the number is 0 or too far below the highest",
            Refusal::RepeatedNumber => "the number came before",
            Refusal::BadPacket =>
                "the packet isn't IPv4, is cut, too long, or has a wrong header sum",
            Refusal::ForeignAddress => "an address isn't owned by the gate that must own it",
            Refusal::NoRoute => "the destination is nobody's, or this gate's own",
            Refusal::QueueFull => "there is no room for another packet to wait",
            Refusal::NoDrawnBytes => "the drawn bytes are used up",
            Refusal::BadSettings => "a setting is damaged or out of range",
        }
    }
}

/// The refusal's number, from 1 to 15.
impl From<Refusal> for u8 {
    ghost from_gives = { HasNumber };

    fn from(refusal: Refusal) -> u8 {
        refusal as u8
    }
}

/// The refusal with this number, if one has it.
impl TryFrom<u8> for Refusal {
    type Error = UnknownNumber;

    ghost try_from_gives = { IsRefusalOf };

    fn try_from(number: u8) -> Result<Refusal, UnknownNumber> {
        match number {
            1 => Ok(Refusal::UnknownWord),
            2 => Ok(Refusal::WrongGate),
            3 => Ok(Refusal::WrongSum),
            4 => Ok(Refusal::ZeroTag),
            5 => Ok(Refusal::OldHello),
            6 => Ok(Refusal::UnaskedReply),
            7 => Ok(Refusal::NoTalk),
            8 => Ok(Refusal::BelowWindow),
            9 => Ok(Refusal::RepeatedNumber),
            10 => Ok(Refusal::BadPacket),
            11 => Ok(Refusal::ForeignAddress),
            12 => Ok(Refusal::NoRoute),
            13 => Ok(Refusal::QueueFull),
            14 => Ok(Refusal::NoDrawnBytes),
            15 => Ok(Refusal::BadSettings),
            _ => Err(UnknownNumber(number)),
        }
    }
}

/// The refusal's sentence.
impl fmt::Display for Refusal {
    ghost output = { λ x. Some (refusal_sentence x) };

    fn fmt<W: fmt::Write>(&self, f: &mut fmt::Formatter<W>) -> fmt::Result {
        f.write_str(self.sentence())
    }
}

impl Error for Refusal {}

/// States that each refusal stands among all, at its number. It does nothing.
pub fn all_stated()
    ensures { AllAreThere Refusal.ALL }
{}
