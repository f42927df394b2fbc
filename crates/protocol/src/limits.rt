// The limits and lengths of the protocol, each a named constant; `limits_stated` ties them to the
// definitions that promises use. Assumes nothing.
ghost use Rattle.std.specs.Prelude.{◌≡◌};
ghost use Rattle.protocol.specs.Limits.{gates_limit, talks_limit, queue_limit, packet_limit, window_size, life_least, life_limit, most_least, most_limit, clear_length, field_length, sum_length, seal_length, handshake_length};

/// At most so many gates share one table; they are numbered from 0.
pub const MAX_GATES: usize = 32;
/// At most so many talks (sessions) are kept with each other gate.
pub const MAX_TALKS: usize = 3;
/// At most so many packets wait for a talk with each other gate.
pub const MAX_WAITING: usize = 16;
/// The longest packet from inside, in bytes.
pub const MAX_PACKET: usize = 1280;
/// How far below the highest number that came another may still come.
pub const WINDOW: u64 = 2048;
/// The shortest life of a talk, in ticks.
pub const MIN_LIFE: u16 = 1;
/// The longest life of a talk, in ticks.
pub const MAX_LIFE: u16 = 3600;
/// The fewest packets after which a talk may be over for sending: one more than can wait.
pub const MIN_MOST: u32 = 17;
/// The most packets after which a talk may be over for sending.
pub const MAX_MOST: u32 = 0xffff_ffff;

/// What every word begins with, in clear: its kind, its maker and the gate that it is for.
pub const CLEAR: usize = 3;
/// What follows in clear: 16 drawn bytes, or the opener's tag and the number.
pub const FIELD: usize = 16;
/// The authentication sum at a word's end.
pub const SUM: usize = 16;
/// A word with nothing inside: an empty one, and the shortest packet.
pub const SEALED: usize = CLEAR + FIELD + SUM;
/// The inside of a hello (tag and tick) and of a reply (tag and tag replied to).
pub const HANDSHAKE_INSIDE: usize = 8 + 8;
/// A hello or a reply.
pub const HANDSHAKE: usize = SEALED + HANDSHAKE_INSIDE;

/// States that each constant is the number that promises have for it. It does nothing.
pub fn limits_stated()
    ensures gates { MAX_GATES ≡ gates_limit }
    ensures talks { MAX_TALKS ≡ talks_limit }
    ensures waiting { MAX_WAITING ≡ queue_limit }
    ensures packet { MAX_PACKET ≡ packet_limit }
    ensures window { WINDOW ≡ window_size }
    ensures least_life { MIN_LIFE ≡ life_least }
    ensures life { MAX_LIFE ≡ life_limit }
    ensures least_most { MIN_MOST ≡ most_least }
    ensures most { MAX_MOST ≡ most_limit }
    ensures clear { CLEAR ≡ clear_length }
    ensures field { FIELD ≡ field_length }
    ensures sum { SUM ≡ sum_length }
    ensures sealed { SEALED ≡ seal_length }
    ensures handshake { HANDSHAKE ≡ handshake_length }
{}
