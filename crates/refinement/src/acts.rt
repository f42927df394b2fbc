// What an event does to its gate, and what it adds to the books. Assumes nothing.
ghost use Rattle.std.specs.Prelude.{◌≡◌, Some, None, unwrap_or};
ghost use Rattle.gateway.specs.Steps.{took_after, put_after};
ghost use Rattle.gateway.specs.Steps.{took as took_answer, put as put_answer};
ghost use Rattle.refinement.specs.Calls.{gone_out};
ghost use Rattle.refinement.specs.Sea.{owner_at, owners_of, inner_of, opened, letter_of, brought_out, after_of, outcome_of};

use crate::calls::{greet, put, restart, take, tick};
use crate::state::{EventKind, Letter, Outcome, Parcel};
use gateway::{Gateway, Owners, Taken, Word};

// The table goes down as a plain slice: each call may have another one, and a struct round it alone is no plainer.
/// Who owns an address, by a table; what it lacks is nobody's.
fn owner_of(owners: &[u8], address: u32) -> Option<u8>
    ensures { result ≡ owner_at owners.now address }
{
    owners.get(address as usize).copied()
}

impl Parcel {
    /// Who owns its addresses.
    fn owners(self, owners: &[u8]) -> Owners
        ensures { result ≡ owners_of owners.now (inner_of self) }
    {
        Owners {
            source: owner_of(owners, self.from),
            goal: owner_of(owners, self.to),
        }
    }
}

impl Letter {
    /// The word that a gate takes it for: of a packet, with the owners of its addresses.
    fn opened(self, owners: &[u8]) -> Word
        ensures { result ≡ opened owners.now self }
    {
        match self.word {
            // A packet's letter that is made here carries one: plainer than a second enum of words in which only a packet has it. Any other is read with addresses 0.
            Word::Packet { place, .. } => Word::Packet {
                place,
                owners: self.parcel.unwrap_or_default().owners(owners),
            },
            other => other,
        }
    }
}

/// A letter for a word that was made, with the packet that it carries, if it carries one.
fn letter_of(parcel: Option<Parcel>, word: Option<Word>) -> Option<Letter>
    ensures { result ≡ letter_of parcel word }
{
    word.map(|word| Letter { word, parcel })
}

/// A packet is put in at a gate. Answers the letter that it goes out in.
fn send(memory: &mut Gateway, owners: &[u8], parcel: Parcel) -> Option<Letter>
    ensures after { memory.new ≡ put_after (owner_at owners.now parcel.from) (owner_at owners.now parcel.to) memory.old }
    ensures sent { result ≡ letter_of (Some parcel) (gone_out (put_answer (owner_at owners.now parcel.from) (owner_at owners.now parcel.to) memory.old)) }
{
    let word = put(memory, parcel.owners(owners)).ok().flatten();
    letter_of(Some(parcel), word)
}

/// A letter is brought to a gate.
fn bring(memory: &mut Gateway, owners: &[u8], letter: Letter, tag: Option<u64>) -> Outcome
    ensures after { memory.new ≡ took_after (opened owners.now letter) (unwrap_or tag 0) memory.old }
    ensures adds { result ≡ brought_out letter (took_answer (opened owners.now letter) (unwrap_or tag 0) memory.old) }
{
    match take(memory, letter.opened(owners), tag) {
        Ok(Taken::Answer(word)) => Outcome {
            sent: letter_of(None, Some(word)),
            ..Outcome::default()
        },
        Ok(Taken::Out) => Outcome {
            out: Some(letter),
            ..Outcome::default()
        },
        Ok(Taken::Sure | Taken::Alive) | Err(_) => Outcome::default(),
    }
}

/// An event happens to its gate; nothing does where it brings a letter that the net does not have.
pub(crate) fn act(
    memory: &mut Gateway,
    owners: &[u8],
    net: &[Letter],
    kind: EventKind,
) -> Option<Outcome>
    ensures after { memory.new ≡ after_of owners.now net.now kind memory.old }
    ensures adds { result ≡ outcome_of owners.now net.now kind memory.old }
    ensures still { result ≡ None → memory.new ≡ memory.old }
{
    match kind {
        EventKind::Tick => {
            tick(memory);
            Some(Outcome::default())
        }
        EventKind::Restart => {
            restart(memory);
            Some(Outcome::default())
        }
        EventKind::Greet { to, tag } => {
            let sent = letter_of(None, greet(memory, to, tag));
            Some(Outcome {
                sent,
                ..Outcome::default()
            })
        }
        EventKind::Put(parcel) => {
            let sent = send(memory, owners, parcel);
            Some(Outcome {
                sent,
                put: sent,
                out: None,
            })
        }
        EventKind::Bring { place, tag } => {
            let letter = net.get(place).copied()?;
            Some(bring(memory, owners, letter, tag))
        }
    }
}
