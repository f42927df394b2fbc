// A gate's memory, and the words that go in and out of it. Assumes nothing.
use protocol::limits::{MAX_GATES, MAX_TALKS};
use window::state::Window;

/// How many hellos to one gate can wait: those of the ticks for which a hello waits, and of its own.
pub const WAITS: usize = 6;

/// The two tags that name a talk, as one of its gates has them.
#[derive(Clone, Copy, PartialEq, Eq, Debug)]
pub struct Tags {
    /// The tag that this gate drew for it.
    pub mine: u64,
    /// The tag that the other gate drew for it.
    pub theirs: u64,
}

/// For how long a talk is good.
#[derive(Clone, Copy, PartialEq, Eq, Debug)]
pub struct Terms {
    /// For how many ticks.
    pub life: u16,
    /// For how many numbers.
    pub most: u32,
}

/// A talk (a session) with another gate: a pair of tags, counters and a replay window.
#[derive(Clone, Copy)]
pub struct Talk {
    pub(crate) tags: Tags,
    /// The tick at which it was made here.
    pub(crate) born: u64,
    /// How many numbers were used for sending; they begin with 1, so it is also the last one.
    pub(crate) sent: u32,
    /// Whether the other gate is known to have it.
    pub(crate) sure: bool,
    /// The numbers that came.
    pub(crate) window: Window,
}

/// A hello of this gate's that waits for its reply.
#[derive(Clone, Copy)]
pub struct Wait {
    pub(crate) tag: u64,
    /// The tick at which it was said.
    pub(crate) at: u64,
}

/// What a gate remembers of one other gate.
#[derive(Clone, Copy)]
pub struct Peer {
    /// The talks with it, the latest first.
    pub(crate) talks: [Option<Talk>; MAX_TALKS],
    /// The hellos to it that wait, each in the place of its tick.
    pub(crate) waits: [Option<Wait>; WAITS],
    /// The tick of the last hello taken from it, above which the next one has to be; 0 before the first, and no option, as a hello of tick 0 is never taken.
    pub(crate) last_hello: u64,
}

/// A gate's whole memory.
#[derive(Clone, Copy)]
pub struct Gateway {
    /// This gate's number.
    pub(crate) own: u8,
    /// How many gates there are: a count beside the array `peers`, as a gate's memory is fixed and has no heap.
    pub(crate) gates: u8,
    pub(crate) terms: Terms,
    /// The clock.
    pub(crate) now: u64,
    /// The tick of the last restart, above which the clock has to be for a hello; 0 before the first, and no option, as all clocks are above 0.
    pub(crate) fell: u64,
    /// What is remembered of each gate, by its number.
    pub(crate) peers: [Peer; MAX_GATES],
}

/// Where a word of a talk stands.
#[derive(Clone, Copy, PartialEq, Eq, Debug)]
pub struct InTalk {
    /// The gate that made it.
    pub by: u8,
    /// The gate that it is for.
    pub to: u8,
    /// The talk's tags, as the maker has them.
    pub tags: Tags,
    /// Its number there.
    pub number: u64,
}

/// The gates that own the two addresses of a packet, none where nobody does.
#[derive(Clone, Copy, PartialEq, Eq, Debug)]
pub struct Owners {
    /// Who owns its source.
    pub source: Option<u8>,
    /// Who owns its destination.
    pub goal: Option<u8>,
}

/// A word (a datagram on the outer network) that was unsealed, or is to be sealed. Its two gates stand beside what it says: that is plainer than a type for them.
#[derive(Clone, Copy, PartialEq, Eq, Debug)]
pub enum Word {
    /// A wish for a talk: a tag drawn for it, and the maker's tick.
    Hello {
        by: u8,
        to: u8,
        tag: u64,
        at: u64,
    },
    /// A talk granted: a tag drawn for it, and the tag of the hello that it answers.
    Reply {
        by: u8,
        to: u8,
        tag: u64,
        answers: u64,
    },
    /// A packet in a talk, and who owns its addresses.
    Packet {
        place: InTalk,
        owners: Owners,
    },
    /// A keepalive in a talk.
    Empty {
        place: InTalk,
    },
}

/// What became of a word that was taken.
#[derive(Clone, Copy, PartialEq, Eq, Debug)]
pub enum Taken {
    /// A hello: this reply is to be sent.
    Answer(Word),
    /// A reply: there is a talk, and this gate is sure of it.
    Sure,
    /// A packet: it comes out inside.
    Out,
    /// A keepalive.
    Alive,
}
