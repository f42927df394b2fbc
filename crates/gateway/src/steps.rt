// A gate's calls: each answers, and leaves the memory, just as its contract says; refusals come in the order of their numbers. Assumes nothing.
ghost use Rattle.std.specs.Prelude.{◌≡◌, ◌<◌};
ghost use Rattle.std.specs.Option.{unwrap_or};
ghost use Rattle.protocol.specs.declared.limits.TheConstants.{MAX_GATES};
ghost use Rattle.gateway.specs.Steps.{fresh, is_peer, is_goal, maker, storing, answer, leaves, peer_at, hello_fault, hello_peer, reply_fault, reply_peer, found, found_for, taken, heard, took, took_after, put, put_after, greet, greet_after, ticked, restarted};
ghost use Rattle.gateway.specs.Peers.{stored};
ghost use Rattle.gateway.specs.Talks.{heard_one};
ghost use Rattle.gateway.specs.declared.state.Taken.TheVariants.{Answer, Sure, Out, Alive};
ghost use Rattle.gateway.specs.declared.state.Word.TheVariants.{Reply};

use crate::state::{Gateway, InTalk, Owners, Peer, Tags, Taken, Talk, Terms, Word};
use protocol::Refusal;
use protocol::limits::MAX_GATES;
use window::state::Verdict;

impl Gateway {
    /// A gate that was just made, at its first tick: its number, how many gates there are, and for how long a talk is good.
    pub fn new(own: u8, gates: u8, terms: Terms) -> Gateway
        ensures { result ≡ fresh own gates terms.life terms.most }
    {
        Gateway {
            own,
            gates,
            terms,
            now: 1,
            fell: 0,
            peers: [Peer::new(); MAX_GATES],
        }
    }

    /// Whether a gate is there, and is another one.
    fn is_peer(&self, gate: u8) -> bool
        ensures value { result ≡ is_peer gate self.entry.now }
    {
        gate < self.gates && usize::from(gate) < MAX_GATES && gate != self.own
    }

    /// What is remembered of the maker of a word that is for this gate.
    fn maker(&self, by: u8, to: u8) -> Result<Peer, Refusal>
        ensures { result ≡ maker by to self.entry.now }
    {
        if !self.is_peer(by) || to != self.own {
            return Err(Refusal::WrongGate);
        }
        Ok(self.peers[usize::from(by)])
    }

    /// Keeps another memory of a gate that is there.
    fn store(&mut self, gate: u8, peer: Peer)
        requires { gate < MAX_GATES }
        ensures { self.new ≡ storing gate peer self.old }
    {
        self.peers[usize::from(gate)] = peer;
    }

    /// A hello is brought, with a tag drawn for its reply; 0 is no tag.
    fn take_hello(
        &mut self,
        by: u8,
        to: u8,
        tag: u64,
        at: u64,
        drawn: Option<u64>,
    ) -> Result<Taken, Refusal>
        ensures answer { result ≡ answer (hello_fault by to tag at (unwrap_or drawn 0) self.old) (Answer (Reply self.old.own by (unwrap_or drawn 0) tag)) }
        ensures after { self.new ≡ leaves (hello_fault by to tag at (unwrap_or drawn 0) self.old) self.old (storing by (hello_peer tag at (unwrap_or drawn 0) self.old.now (peer_at by self.old)) self.old) }
    {
        let peer = self.maker(by, to)?;
        if tag == 0 {
            return Err(Refusal::ZeroTag);
        }
        if at <= peer.last_hello {
            return Err(Refusal::OldHello);
        }
        let mine = drawn.filter(|tag| *tag != 0).ok_or(Refusal::NoDrawnBytes)?;
        let met = peer.met(Talk::new(Tags { mine, theirs: tag }, self.now, false));
        self.store(
            by,
            Peer {
                last_hello: at,
                ..met
            },
        );
        Ok(Taken::Answer(Word::Reply {
            by: self.own,
            to: by,
            tag: mine,
            answers: tag,
        }))
    }

    /// A reply is brought.
    fn take_reply(&mut self, by: u8, to: u8, tag: u64, answers: u64) -> Result<Taken, Refusal>
        ensures answer { result ≡ answer (reply_fault by to tag answers self.old) Sure }
        ensures after { self.new ≡ leaves (reply_fault by to tag answers self.old) self.old (storing by (reply_peer tag answers self.old.now (peer_at by self.old)) self.old) }
    {
        let peer = self.maker(by, to)?;
        let tags = Tags {
            mine: answers,
            theirs: tag,
        };
        if tags.has_zero() {
            return Err(Refusal::ZeroTag);
        }
        if !peer.is_asked(self.now, answers) {
            return Err(Refusal::UnaskedReply);
        }
        let talk = Talk::new(tags, self.now, true);
        self.store(by, peer.answered(answers).met(talk));
        Ok(Taken::Sure)
    }

    /// The talk in which a number comes, or why it does not.
    fn found_talk(&self, place: InTalk) -> Result<Talk, Refusal>
        ensures { result ≡ found place self.entry.now }
    {
        let peer = self.maker(place.by, place.to)?;
        if place.tags.has_zero() {
            return Err(Refusal::ZeroTag);
        }
        let Some(talk) = peer
            .talk_named(place.tags.swapped())
            .filter(|talk| talk.lives(self.now, self.terms.life))
        else {
            return Err(Refusal::NoTalk);
        };
        match talk.window.look(place.number) {
            Verdict::Fresh => Ok(talk),
            Verdict::TooOld => Err(Refusal::BelowWindow),
            Verdict::Came => Err(Refusal::RepeatedNumber),
        }
    }

    /// Notes that a number came in a talk.
    fn hear(&mut self, place: InTalk, talk: Talk)
        requires { place.by < MAX_GATES }
        ensures { self.new ≡ storing place.by (stored (heard_one place.number talk) (peer_at place.by self.old)) self.old }
    {
        let peer = self.peers[usize::from(place.by)];
        self.store(place.by, peer.stored(talk.heard(place.number)));
    }

    /// A packet of a talk is brought, with the owners of its addresses.
    fn take_packet(&mut self, place: InTalk, owners: Owners) -> Result<Taken, Refusal>
        ensures answer { result ≡ taken Out (found_for owners place self.old) }
        ensures after { self.new ≡ heard place self.old (found_for owners place self.old) }
    {
        let talk = self.found_talk(place)?;
        if owners.source != Some(place.by) || owners.goal != Some(self.own) {
            return Err(Refusal::ForeignAddress);
        }
        self.hear(place, talk);
        Ok(Taken::Out)
    }

    /// A keepalive of a talk is brought.
    fn take_empty(&mut self, place: InTalk) -> Result<Taken, Refusal>
        ensures answer { result ≡ taken Alive (found place self.old) }
        ensures after { self.new ≡ heard place self.old (found place self.old) }
    {
        let talk = self.found_talk(place)?;
        self.hear(place, talk);
        Ok(Taken::Alive)
    }

    /// A word is brought from outside; `drawn` is a tag drawn for the reply, should it be a hello. Answers what becomes of it, or the first cause to refuse it,
    /// which changes nothing.
    // A drawn tag of 0 is refused as it is in any word: a tag on the wire is any number of 64 bits, and 0 names no talk. A type without 0 asks more of callers.
    pub fn take(&mut self, word: Word, drawn: Option<u64>) -> Result<Taken, Refusal>
        ensures answer { result ≡ took word (unwrap_or drawn 0) self.old }
        ensures after { self.new ≡ took_after word (unwrap_or drawn 0) self.old }
    {
        match word {
            Word::Hello { by, to, tag, at } => self.take_hello(by, to, tag, at, drawn),
            Word::Reply {
                by,
                to,
                tag,
                answers,
            } => self.take_reply(by, to, tag, answers),
            Word::Packet { place, owners } => self.take_packet(place, owners),
            Word::Empty { place } => self.take_empty(place),
        }
    }

    /// A packet is put in, by the owners of its addresses. Answers the word that it goes out in, or none where there is no talk to send it by; refuses a
    /// source that is not this gate's and a destination that is no other gate's, which changes nothing.
    pub fn put(&mut self, owners: Owners) -> Result<Option<Word>, Refusal>
        ensures answer { result ≡ put owners.source owners.goal self.old }
        ensures after { self.new ≡ put_after owners.source owners.goal self.old }
    {
        if owners.source != Some(self.own) {
            return Err(Refusal::ForeignAddress);
        }
        let Some(to) = owners.goal.filter(|goal| self.is_peer(*goal)) else {
            return Err(Refusal::NoRoute);
        };
        let peer = self.peers[usize::from(to)];
        let Some(talk) = peer.for_sending(self.now, self.terms) else {
            return Ok(None);
        };
        let used = talk.sent_one();
        self.store(to, peer.stored(used));
        let place = InTalk {
            by: self.own,
            to,
            tags: talk.tags,
            number: u64::from(used.sent),
        };
        Ok(Some(Word::Packet { place, owners }))
    }

    /// Makes a hello to a gate under a drawn tag; none where that gate is not another one, the tag is 0, the tick is not above that of the last restart, or
    /// a hello to it of this tick waits for its reply, and then nothing is changed.
    // A tag of 0 makes no hello, as in `take`: a type without 0 asks more of callers.
    pub fn greet(&mut self, gate: u8, tag: u64) -> Option<Word>
        ensures answer { result ≡ greet gate tag self.old }
        ensures after { self.new ≡ greet_after gate tag self.old }
    {
        if !self.is_peer(gate) || tag == 0 || self.now <= self.fell {
            return None;
        }
        let peer = self.peers[usize::from(gate)];
        if peer.is_greeted(self.now) {
            return None;
        }
        self.store(gate, peer.asked(tag, self.now));
        Some(Word::Hello {
            by: self.own,
            to: gate,
            tag,
            at: self.now,
        })
    }

    /// The gate is switched off and on: it keeps its clock, the tick of this, and the ticks of the last hellos that it took, and forgets all else.
    pub fn restart(&mut self)
        ensures { self.new ≡ restarted self.old }
    {
        self.fell = self.now;
        for peer in self.peers.iter_mut() {
            *peer = peer.forgotten();
        }
    }

    /// A tick passes. The clock stays at the largest number.
    pub fn tick(&mut self)
        ensures { self.new ≡ ticked self.old }
    {
        self.now = self.now.saturating_add(1);
    }
}
