// The four kinds of words, their bytes and their lengths. Assumes nothing.
ghost use Rattle.std.specs.Prelude.{◌≡◌, MatchResult};
ghost use Rattle.protocol.specs.declared.kinds.Kind.{Kind as Sort};
ghost use Rattle.protocol.specs.declared.refusals.Refusal.TheVariants.{UnknownWord};
ghost use Rattle.protocol.specs.Kinds.{length_fits, kind_of, IsWord, HasByte, IsKindOf};

use crate::limits::{HANDSHAKE, SEALED};
use crate::refusals::Refusal;

/// The kind of a word (a datagram on the outer network).
#[derive(Clone, Copy, Debug, PartialEq, Eq)]
pub enum Kind {
    /// The first word of a handshake: a tag and the maker's tick.
    Hello = 1,
    /// The answer to a hello: a tag and the tag that it replies to.
    Reply = 2,
    /// A packet from inside, sealed in a talk.
    Packet = 3,
    /// A keepalive: sealed in a talk like a packet, with nothing inside.
    Empty = 4,
}

impl Kind {
    /// Whether a word of this kind can have this length. It changes nothing and never refuses.
    pub fn has_length(self, length: usize) -> bool
        ensures { result ≡ length_fits self length }
    {
        match self {
            Kind::Hello | Kind::Reply => length == HANDSHAKE,
            Kind::Packet => length >= SEALED,
            Kind::Empty => length == SEALED,
        }
    }
}

/// The byte with which words of this kind begin.
impl From<Kind> for u8 {
    ghost from_gives = { HasByte };

    fn from(kind: Kind) -> u8 {
        kind as u8
    }
}

/// The kind with this byte; a byte that no kind has is refused as an unknown word's.
impl TryFrom<u8> for Kind {
    type Error = Refusal;

    ghost try_from_gives = { IsKindOf };

    fn try_from(byte: u8) -> Result<Kind, Refusal> {
        match byte {
            1 => Ok(Kind::Hello),
            2 => Ok(Kind::Reply),
            3 => Ok(Kind::Packet),
            4 => Ok(Kind::Empty),
            _ => Err(Refusal::UnknownWord),
        }
    }
}

/// The kind of the word with these bytes, by its first byte and its length. Refuses all other
/// bytes, none at all too, as an unknown word. It changes nothing.
#[tactic(auto, using(crate::proofs::Words::no_kind), unfolding(crate::specs::Kinds::kind_of))]
pub fn kind_of(word: &[u8]) -> Result<Kind, Refusal>
    ensures value { result ≡ kind_of word.now }
    ensures kinds { MatchResult result (λ k. IsWord k word.now) (λ e. (e ≡ UnknownWord) × ((k : Sort) → IsWord k word.now → ⊥)) }
{
    let [first, ..] = word else {
        return Err(Refusal::UnknownWord);
    };
    let kind = Kind::try_from(*first)?;
    if !kind.has_length(word.len()) {
        return Err(Refusal::UnknownWord);
    }
    Ok(kind)
}
