// What a gate remembers of one other gate: looking a talk or a waiting hello up, and the memory after a change. Assumes nothing.
ghost use Rattle.std.specs.Prelude.{◌≡◌, ◌==◌, position};
ghost use Rattle.gateway.specs.Peers.{unknown, forgotten, talk_named, for_sending, stored, met, is_asked, answered, asked, is_greeted, can_answer};
ghost use Rattle.gateway.specs.Slots.{holds};

use crate::state::{Peer, Tags, Talk, Terms, WAITS, Wait};
use protocol::limits::MAX_TALKS;

/// For so many ticks after its own a hello waits for its reply.
const PATIENCE: u64 = WAITS as u64 - 1;

impl Wait {
    /// Whether a reply to this tag can still answer it.
    fn can_answer(self, now: u64, tag: u64) -> bool
        ensures { result ≡ can_answer now tag self }
    {
        self.tag == tag && now.saturating_sub(self.at) <= PATIENCE
    }
}

impl Peer {
    /// A gate of which nothing is known.
    pub(crate) fn new() -> Peer
        ensures { result ≡ unknown }
    {
        Peer {
            talks: [None; MAX_TALKS],
            waits: [None; WAITS],
            last_hello: 0,
        }
    }

    /// What is left of it after a restart: the tick of the last hello taken.
    pub(crate) fn forgotten(self) -> Peer
        ensures { result ≡ forgotten self }
    {
        Peer {
            last_hello: self.last_hello,
            ..Peer::new()
        }
    }

    /// The talk that these two tags name.
    pub(crate) fn talk_named(self, tags: Tags) -> Option<Talk>
        ensures { result ≡ talk_named tags.mine tags.theirs self }
    {
        *self
            .talks
            .iter()
            .find(|slot| slot.is_some_and(|talk| talk.tags == tags))?
    }

    /// The latest talk that can be used to send.
    // A loop: with a chain that lends, as in `talk_named`, a put copies the talks once more.
    pub(crate) fn for_sending(self, now: u64, terms: Terms) -> Option<Talk>
        ensures { result ≡ for_sending now terms.life terms.most self }
    {
        for slot in self.talks {
            if let Some(talk) = slot {
                if talk.may_send(now, terms) {
                    return Some(talk);
                }
            }
        }
        None
    }

    /// The place of the talk with this own tag.
    fn place_of(self, mine: u64) -> Option<usize>
        ensures { result ≡ position (holds (λ t. t.tags.mine == mine)) self.talks }
    {
        self.talks
            .iter()
            .position(|slot| slot.is_some_and(|talk| talk.tags.mine == mine))
    }

    /// The memory with a talk put in the place of the one with its own tag.
    #[tactic(auto, using(crate::proofs::Slots::replaced_at, crate::proofs::Slots::replaced_nowhere))]
    pub(crate) fn stored(self, talk: Talk) -> Peer
        ensures { result ≡ stored talk self }
    {
        let mut talks = self.talks;
        if let Some(place) = self.place_of(talk.tags.mine) {
            talks[place] = Some(talk);
        }
        Peer { talks, ..self }
    }

    /// The memory with a further talk, which takes the place of the oldest of three.
    pub(crate) fn met(self, talk: Talk) -> Peer
        ensures { result ≡ met talk self }
    {
        let [first, second, _] = self.talks;
        Peer {
            talks: [Some(talk), first, second],
            ..self
        }
    }

    /// Whether a hello with this tag waits and can still be answered.
    // One chain, as in `is_greeted`, with a test of its own: a function that takes the test is no shorter to call.
    pub(crate) fn is_asked(self, now: u64, tag: u64) -> bool
        ensures { result ≡ is_asked now tag self }
    {
        self.waits
            .iter()
            .any(|slot| slot.is_some_and(|wait| wait.can_answer(now, tag)))
    }

    /// Whether a hello of this tick waits for its reply.
    pub(crate) fn is_greeted(self, now: u64) -> bool
        ensures { result ≡ is_greeted now self }
    {
        self.waits
            .iter()
            .any(|slot| slot.is_some_and(|wait| wait.at == now))
    }

    /// The memory in which no hello with this tag waits any longer.
    pub(crate) fn answered(self, tag: u64) -> Peer
        ensures { result ≡ answered tag self }
    {
        let mut waits = self.waits;
        for slot in waits.iter_mut() {
            *slot = slot.filter(|wait| wait.tag != tag);
        }
        Peer { waits, ..self }
    }

    /// The memory in which a hello waits that was said in this tick.
    pub(crate) fn asked(self, tag: u64, at: u64) -> Peer
        ensures { result ≡ asked tag at self }
    {
        let mut waits = self.waits;
        waits[(at % WAITS as u64) as usize] = Some(Wait { tag, at });
        Peer { waits, ..self }
    }
}
