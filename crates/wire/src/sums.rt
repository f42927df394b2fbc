// Sums and cipher keys under a prepared key. Assumes nothing.
ghost use Rattle.std.specs.Prelude.{◌≡◌, ℕ, ◌+◌, ◌^◌, ◌≤◌, cond, List, length, is_ok, Ok, Err, nat_lt};
ghost use Rattle.cipher.specs.ChaCha20.{encrypt};
ghost use Rattle.digest.specs.Hashers.{Prepared, limited};
ghost use Rattle.digest.specs.Hmac.{hmac};
ghost use Rattle.wire.specs.Keys.{talk_key, ways_of, sum_of};
ghost use Rattle.wire.specs.Reading.{sum_right};

use crate::layout::SUM_MARK;
use crate::numbers::two_numbers;
use crate::state::{Side, Ways};
use cipher::{ChaCha20, Lanes};
use digest::{Fault, Key, same_sum};
use protocol::limits::SUM;
use protocol::{Kind, Refusal};

impl Side {
    // The side of gate `own` of the key that it shares with gate `peer`.
    pub(crate) fn new(key: &[u8; 32], own: u8, peer: u8) -> Self
        ensures hash { Prepared result.hash key.now }
        ensures gates { (result.own ≡ own) × (result.peer ≡ peer) }
    {
        let hash = Key::new(key);
        Side { own, peer, hash }
    }

    // The HMAC of a short message.
    fn code_of(&self, message: &[u8]) -> [u8; 32]
        requires { length message.now ≤ 64 }
        ensures { (key : List ℕ) → Prepared self.now.hash key → result ≡ hmac key message.now }
    {
        let mut mac = self.hash.begin();
        mac.update(message).unwrap();
        mac.finish()
    }

    // The cipher's keys for words of a kind, out to the other gate and back from it.
    #[tactic(auto, unfolding(crate::specs::Keys::turn_key))]
    pub(crate) fn ways(&self, kind: Kind) -> Ways
        ensures { (key : List ℕ) → Prepared self.now.hash key → result ≡ ways_of key kind self.now.own self.now.peer }
    {
        Ways {
            out: self.code_of(&[u8::from(kind), self.own, self.peer]),
            back: self.code_of(&[u8::from(kind), self.peer, self.own]),
        }
    }

    // The key of the talk with these tags, under the pair's key.
    #[tactic(auto, unfolding(crate::specs::Keys::talk_key))]
    pub(crate) fn talk_key(&self, one: u64, other: u64) -> [u8; 32]
        ensures { (key : List ℕ) → Prepared self.now.hash key → result ≡ talk_key key one other }
    {
        self.code_of(&two_numbers(one.min(other), one.max(other)))
    }

    // The sum of all that stands before it; refused where that is too long for SHA-256.
    pub(crate) fn sum_of(&self, body: &[u8]) -> Result<[u8; SUM], Fault>
        ensures there { is_ok result ≡ nat_lt (65 + length body.now) (2 ^ 61) }
        ensures value { (key : List ℕ) → Prepared self.now.hash key → result ≡ limited (65 + length body.now) (sum_of key body.now) }
    {
        let mut mac = self.hash.begin();
        mac.update(&[SUM_MARK]).unwrap();
        mac.update(body)?;
        Ok(*mac.finish().first_chunk().unwrap())
    }

    // Refuses a word whose sum isn't that of all before it.
    #[tactic(auto, using(crate::proofs::Right::checking))]
    pub(crate) fn check(&self, word: &[u8]) -> Result<(), Refusal>
        requires { 16 ≤ length word.now }
        ensures { (key : List ℕ) → Prepared self.now.hash key → result ≡ cond (sum_right key word.now) (Ok tt) (Err Refusal.WrongSum) }
    {
        let (body, found) = word.split_last_chunk::<SUM>().unwrap();
        match self.sum_of(body) {
            Ok(right) if same_sum(found, &right) => Ok(()),
            _ => Err(Refusal::WrongSum),
        }
    }
}

// Turns a text that is no longer than a packet, from counter 0 on. The limit stays a clause: as a
// type it would be two, one of shared slices for `seal` and one of mutable slices.
pub(crate) fn turn_short(cipher: &ChaCha20, text: &mut [u8])
    requires { length text.old ≤ 1280 }
    ensures { text.new ≡ encrypt cipher.now.key 0 cipher.now.nonce text.old }
{
    cipher.turn::<_, Lanes>(0, text).unwrap();
}
