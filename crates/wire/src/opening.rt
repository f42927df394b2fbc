// Opening words that came. Nothing is decided from the inside of a word before its sum is right.
// Assumes nothing.
ghost use Rattle.std.specs.Prelude.{◌≡◌, ℕ, ◌≤◌, cond, List, length, Ok, Err};
ghost use Rattle.std.specs.Option.{ok_or};
ghost use Rattle.cipher.specs.ChaCha20.{encrypt};
ghost use Rattle.digest.specs.Hashers.{Prepared};
ghost use Rattle.wire.specs.Keys.{PairHolds, TalkHolds, talk_key};
ghost use Rattle.wire.specs.Reading.{nonce_in, inside_in, sum_right, first_in, second_in, hello_under, reply_under, packet_under, empty_under, read_word, one_key, one_talk, named_by, TalkOf, told, left};

use crate::clear::header_by;
use crate::layout::{DRAWN_AT, INSIDE_AT};
use crate::numbers::{nonce_of, number_nonce, numbers_in};
use crate::state::{Header, Opened, PairKeys, Side, TalkKeys};
use crate::sums::turn_short;
use cipher::ChaCha20;
use protocol::Refusal;
use protocol::limits::{HANDSHAKE, HANDSHAKE_INSIDE, MAX_PACKET, SEALED, SUM};

// The inside of a hello or a reply, turned back; the word stays as it is.
fn inside_of(word: &[u8; HANDSHAKE], turning: &[u8; 32]) -> [u8; HANDSHAKE_INSIDE]
    ensures { result ≡ encrypt turning.now 0 (nonce_in word.now) (inside_in word.now) }
{
    let drawn = word[DRAWN_AT..].first_chunk().unwrap();
    let cipher = ChaCha20 {
        key: *turning,
        nonce: nonce_of(drawn),
    };
    let mut inside = *word[INSIDE_AT..].first_chunk().unwrap();
    turn_short(&cipher, &mut inside);
    inside
}

impl Side {
    // The two numbers in a hello or a reply of the other gate's. Refuses a wrong sum.
    #[tactic(auto, using(crate::proofs::Answered::handshake))]
    fn open_handshake(
        &self,
        word: &[u8; HANDSHAKE],
        turning: &[u8; 32],
    ) -> Result<(u64, u64), Refusal>
        ensures { (key : List ℕ) → Prepared self.now.hash key → let x = encrypt turning.now 0 (nonce_in word.now) (inside_in word.now) in result ≡ cond (sum_right key word.now) (Ok (first_in x, second_in x)) (Err Refusal.WrongSum) }
    {
        self.check(word)?;
        Ok(numbers_in(&inside_of(word, turning)))
    }
}

// The talk's keys, if its tag is this one.
fn named(talk: Option<TalkKeys>, tag: u64) -> Result<TalkKeys, Refusal>
    ensures { result ≡ ok_or (named_by talk tag) Refusal.NoTalk }
{
    let Some(talk) = talk.filter(|keys| keys.mine == tag) else {
        return Err(Refusal::NoTalk);
    };
    Ok(talk)
}

impl TalkKeys {
    // Opens a packet of the talk under this number, in place.
    #[tactic(auto, using(crate::proofs::Answered::packet))]
    fn open_packet(&self, number: u64, word: &mut [u8]) -> Result<Opened, Refusal>
        requires { 35 ≤ length word.old }
        ensures answer { (pair : List ℕ) → TalkHolds self.now pair → result ≡ told (packet_under self.now.side.own self.now.side.peer self.now.mine number word.old (talk_key pair self.now.theirs self.now.mine) self.now.theirs) }
        ensures after { (pair : List ℕ) → TalkHolds self.now pair → word.new ≡ left word.old (packet_under self.now.side.own self.now.side.peer self.now.mine number word.old (talk_key pair self.now.theirs self.now.mine) self.now.theirs) }
    {
        self.side.check(word)?;
        let end = word.len() - SUM;
        if end - INSIDE_AT > MAX_PACKET {
            return Ok(Opened::Oversize { number });
        }
        let cipher = ChaCha20 {
            key: self.packet.back,
            nonce: number_nonce(number),
        };
        turn_short(&cipher, &mut word[INSIDE_AT..end]);
        Ok(Opened::Packet { number })
    }

    // Opens a keepalive of the talk under this number.
    #[tactic(auto, using(crate::proofs::Answered::keepalive))]
    fn open_empty(&self, number: u64, word: &[u8; SEALED]) -> Result<Opened, Refusal>
        ensures { (pair : List ℕ) → TalkHolds self.now pair → result ≡ told (empty_under self.now.side.own self.now.side.peer self.now.mine number word.now (talk_key pair self.now.theirs self.now.mine) self.now.theirs) }
    {
        self.side.check(word)?;
        Ok(Opened::Empty { number })
    }
}

impl PairKeys {
    // Opens a hello of the other gate's. A reply differs in the test for 0 and in the variant: one
    // function of both would only take these two as closures.
    #[tactic(auto, using(crate::proofs::Answered::hello))]
    fn open_hello(&self, word: &[u8; HANDSHAKE]) -> Result<Opened, Refusal>
        ensures { (key : List ℕ) → PairHolds self.now key → result ≡ told (hello_under self.now.side.own self.now.side.peer word.now key) }
    {
        let (tag, tick) = self.side.open_handshake(word, &self.hello.back)?;
        if tag == 0 {
            return Err(Refusal::ZeroTag);
        }
        Ok(Opened::Hello { tag, tick })
    }

    // Opens a reply of the other gate's.
    #[tactic(auto, using(crate::proofs::Answered::reply))]
    fn open_reply(&self, word: &[u8; HANDSHAKE]) -> Result<Opened, Refusal>
        ensures { (key : List ℕ) → PairHolds self.now key → result ≡ told (reply_under self.now.side.own self.now.side.peer word.now key) }
    {
        let (tag, asked) = self.side.open_handshake(word, &self.reply.back)?;
        if tag == 0 || asked == 0 {
            return Err(Refusal::ZeroTag);
        }
        Ok(Opened::Reply { tag, asked })
    }

    /// Opens a word that came from the other gate: a hello or a reply under the pair's key, a
    /// packet or a keepalive under the keys of the talk that its tag names, if the caller has found
    /// one. A packet stands deciphered in the lent bytes then, from `INSIDE_AT` up to the sum.
    /// Refuses, in this order: a hello or a reply for its kind or length, its gates, its sum, a tag
    /// of 0; any other word for its kind or length, its gates, a tag of 0, no such talk, its sum. A
    /// refusal leaves the bytes as they were, and so does a word whose inside is longer than any
    /// packet.
    pub fn open(&self, talk: Option<TalkKeys>, word: &mut [u8]) -> Result<Opened, Refusal>
        ensures answer { (key : List ℕ) → PairHolds self.now key → TalkOf self.now key talk → result ≡ told (read_word self.now.side.own (one_key self.now.side.peer key) (one_talk talk) word.old) }
        ensures after { (key : List ℕ) → PairHolds self.now key → TalkOf self.now key talk → word.new ≡ left word.old (read_word self.now.side.own (one_key self.now.side.peer key) (one_talk talk) word.old) }
    {
        let peer = self.side.peer;
        match header_by(word, self.side.own, |maker| maker == peer)? {
            Header::Hello { .. } => self.open_hello(word.as_array().unwrap()),
            Header::Reply { .. } => self.open_reply(word.as_array().unwrap()),
            Header::Packet { tag, number, .. } => named(talk, tag)?.open_packet(number, word),
            Header::Empty { tag, number, .. } => named(talk, tag)?.open_empty(
                number,
                word.as_array().unwrap(),
            ),
        }
    }
}
