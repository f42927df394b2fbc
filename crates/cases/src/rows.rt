// What a row of the worked cases is made of. No contract stands here, so that specs can name these types.
use gateway::{Gateway, Owners, Tags, Word};
use protocol::Refusal;

/// The two gates of the cases, each at its number. A third one is there, and only owns addresses.
#[derive(Clone, Copy)]
pub struct Pair {
    pub gates: [Gateway; 2],
}

/// At which of the two something happens.
#[derive(Clone, Copy, PartialEq, Eq, Debug)]
pub enum Side {
    Zero = 0,
    One = 1,
}

/// What happens at a gate.
#[derive(Clone, Copy, PartialEq, Eq, Debug)]
pub enum Event {
    /// A tick passes.
    Tick,
    /// It is switched off and on.
    Restart,
    /// It is to make a hello to a gate under a drawn tag; 0 is no tag, as in any word.
    Greet { gate: u8, tag: u64 },
    /// A packet is put in, by the owners of its addresses.
    Put(Owners),
    /// A word is brought, with a tag drawn for the reply, should it be a hello.
    Take { word: Word, drawn: Option<u64> },
}

/// What a gate answers to it.
#[derive(Clone, Copy, PartialEq, Eq, Debug)]
pub enum Said {
    /// Nothing: a tick, a restart, a hello that can't be made, a packet for which there is no talk.
    Nothing,
    /// It is refused.
    Refused(Refusal),
    /// This word goes out.
    Sends(Word),
    /// There is a talk, and the gate is sure of it.
    Sure,
    /// A packet comes out inside.
    Out,
    /// A keepalive was taken.
    Alive,
}

/// A row: what happens at a gate, what it answers, and the talk by which it would then send to the other one, if it is sure of any.
#[derive(Clone, Copy, PartialEq, Eq, Debug)]
pub struct Row {
    pub side: Side,
    pub event: Event,
    pub said: Said,
    pub sure: Option<Tags>,
}
