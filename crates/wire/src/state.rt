// The keys that a gate keeps of a pair and of a talk, and what a word's bytes say. All are plain
// values: no heap. Assumes nothing.
ghost use Rattle.std.specs.Prelude.{Some};
ghost use Rattle.wire.specs.Unsealed.{unsealed_sentence};

use digest::Key;
use std::error::Error;
use std::fmt;

// One gate's side of a key that it shares with another: the two gates, and the prepared HMAC key.
#[derive(Clone, Copy)]
pub(crate) struct Side {
    pub(crate) own: u8,
    pub(crate) peer: u8,
    pub(crate) hash: Key,
}

// The cipher's keys for words of one kind: out to the other gate, and back from it.
#[derive(Clone, Copy)]
pub(crate) struct Ways {
    pub(crate) out: [u8; 32],
    pub(crate) back: [u8; 32],
}

/// What one gate keeps of the key that it shares with another: its side of the key, and the
/// cipher's keys for hellos and replies. A kept key is a hash value, from which the key can't be
/// told: so promises are of each key that is kept so (`PairHolds`), and no field names it.
#[derive(Clone, Copy)]
pub struct PairKeys {
    pub(crate) side: Side,
    pub(crate) hello: Ways,
    pub(crate) reply: Ways,
}

/// What one gate keeps of the key of a talk: its side of the key, both tags, and the cipher's keys
/// for packets. Empty words have nothing inside to turn.
#[derive(Clone, Copy)]
pub struct TalkKeys {
    pub(crate) side: Side,
    pub(crate) mine: u64,
    pub(crate) theirs: u64,
    pub(crate) packet: Ways,
}

/// What the clear bytes of a word say: its kind and its maker; in a talk also the opener's tag,
/// by which the opener finds the talk, and the number. No code reads the maker apart from the kind,
/// so each kind has it, as in the bytes.
#[derive(Clone, Copy, Debug, PartialEq, Eq)]
pub enum Header {
    /// A hello.
    Hello { maker: u8 },
    /// A reply.
    Reply { maker: u8 },
    /// A packet in a talk.
    Packet { maker: u8, tag: u64, number: u64 },
    /// A keepalive in a talk.
    Empty { maker: u8, tag: u64, number: u64 },
}

/// What a word says whose sum is right.
#[derive(Clone, Copy, Debug, PartialEq, Eq)]
pub enum Opened {
    /// A hello: the tag drawn for it, and its maker's tick.
    Hello { tag: u64, tick: u64 },
    /// A reply: the tag drawn for it, and the tag that it replies to.
    Reply { tag: u64, asked: u64 },
    /// A packet: its number. It stands in the lent bytes, from `INSIDE_AT` up to the sum.
    Packet { number: u64 },
    /// A keepalive: its number.
    Empty { number: u64 },
    /// A word of a talk whose inside is longer than any packet: its number. It stays as it came.
    Oversize { number: u64 },
}

/// Why a packet isn't sealed.
#[derive(Clone, Copy, Debug, PartialEq, Eq)]
pub enum Unsealed {
    /// It is longer than any packet that may pass.
    TooLong,
    /// The lent memory has no room for it.
    NoRoom,
}

impl fmt::Display for Unsealed {
    ghost output = { λ x. Some (unsealed_sentence x) };

    fn fmt<W: fmt::Write>(&self, f: &mut fmt::Formatter<W>) -> fmt::Result {
        f.write_str(match self {
            Unsealed::TooLong => "the packet is longer than any that may pass",
            Unsealed::NoRoom => "the memory has no room for the word",
        })
    }
}

impl Error for Unsealed {}
