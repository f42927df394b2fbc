// Many gates and a net of words: what stands in memory, and what can happen. No contract stands here, so that specs can name these types.
use gateway::{Gateway, Word};

/// A packet of the inner networks as a value: its addresses, and a number that stands for its bytes.
#[derive(Clone, Copy, Debug, Default, PartialEq, Eq)]
pub struct Parcel {
    pub from: u32,
    pub to: u32,
    pub what: u64,
}

/// A word of the net, with the packet that it carries, if it carries one.
#[derive(Clone, Copy, Debug, PartialEq, Eq)]
pub struct Letter {
    pub word: Word,
    pub parcel: Option<Parcel>,
}

/// What can happen at a gate.
#[derive(Clone, Copy, Debug, PartialEq, Eq)]
pub enum EventKind {
    /// Its clock moves on.
    Tick,
    /// It is switched off and on.
    Restart,
    /// It makes a hello to another gate under a drawn tag.
    Greet { to: u8, tag: u64 },
    /// A packet is put in.
    Put(Parcel),
    /// The word at a place of the net is brought, with a tag drawn for a reply, if one was.
    Bring { place: usize, tag: Option<u64> },
}

/// Something that happens, and the gate at which it does.
#[derive(Clone, Copy, Debug, PartialEq, Eq)]
pub struct Event {
    pub gate: u8,
    pub kind: EventKind,
}

/// What an event adds: at most one word to the net, one packet to what was put in, and one to what came out.
#[derive(Clone, Copy, Debug, Default, PartialEq, Eq)]
pub struct Outcome {
    pub sent: Option<Letter>,
    pub put: Option<Letter>,
    pub out: Option<Letter>,
}

/// Gates, by their numbers, and a net that keeps every word; and the books of what was put in and came out. Each list has the earliest first.
#[derive(Drop)]
pub struct Sea {
    pub(crate) gates: Vec<Gateway>,
    pub(crate) net: Vec<Letter>,
    pub(crate) put: Vec<Letter>,
    pub(crate) out: Vec<Letter>,
}
