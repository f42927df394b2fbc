// The keys that a gate derives once and keeps. Assumes nothing.
ghost use Rattle.std.specs.Prelude.{◌≡◌, ℕ, List};
ghost use Rattle.wire.specs.Keys.{PairHolds, TalkHolds};

use crate::state::{PairKeys, Side, TalkKeys};
use protocol::Kind;

impl PairKeys {
    /// What gate `own` keeps of the key that it shares with gate `peer`.
    pub fn new(key: &[u8; 32], own: u8, peer: u8) -> Self
        ensures holds { PairHolds result key.now }
        ensures gates { (result.side.own ≡ own) × (result.side.peer ≡ peer) }
    {
        let side = Side::new(key, own, peer);
        PairKeys {
            side,
            hello: side.ways(Kind::Hello),
            reply: side.ways(Kind::Reply),
        }
    }

    /// What the gate keeps of the key of a talk with the other gate, for which it drew the tag
    /// `mine` and the other one `theirs`.
    // Two parameters: this crate doesn't know a gate's memory, and a struct for one call is no plainer.
    pub fn talk(&self, mine: u64, theirs: u64) -> TalkKeys
        ensures holds { (key : List ℕ) → PairHolds self.now key → TalkHolds result key }
        ensures gates { (result.side.own ≡ self.now.side.own) × (result.side.peer ≡ self.now.side.peer) }
        ensures tags { (result.mine ≡ mine) × (result.theirs ≡ theirs) }
    {
        let key = self.side.talk_key(mine, theirs);
        let side = Side::new(&key, self.side.own, self.side.peer);
        TalkKeys {
            side,
            mine,
            theirs,
            packet: side.ways(Kind::Packet),
        }
    }
}
