// Sealing each kind of word, into lent memory. Assumes nothing.
ghost use Rattle.std.specs.Prelude.{◌≡◌, ℕ, ◌+◌, ◌≤◌, List, [], ◌++◌, length, take};
ghost use Rattle.digest.specs.Hashers.{Prepared};
ghost use Rattle.wire.specs.Keys.{PairHolds, TalkHolds, talk_key, number_nonce};
ghost use Rattle.wire.specs.Numbers.{bytes8};
ghost use Rattle.wire.specs.Sealing.{seal_answer, sealed_over};
ghost use Rattle.wire.specs.Words.{Hello, Reply, Packet, Empty, clear, sealed_by, bytes_of};

use crate::layout::{INSIDE_AT, KIND_AT, MAKER_AT, OPENER_AT};
use crate::numbers::{nonce_of, number_nonce, two_numbers};
use crate::state::{PairKeys, Side, TalkKeys, Unsealed};
use crate::sums::turn_short;
use cipher::ChaCha20;
use protocol::Kind;
use protocol::limits::{CLEAR, FIELD, HANDSHAKE, HANDSHAKE_INSIDE, MAX_PACKET, SEALED, SUM};

impl Side {
    // All that stands in clear in a word for the other gate, each part at its place: their order
    // stands on the page of the layout alone.
    fn head_of(&self, kind: Kind, field: &[u8; FIELD]) -> [u8; INSIDE_AT]
        ensures { result ≡ clear kind self.now.own self.now.peer field.now }
    {
        let mut head = [0; INSIDE_AT];
        head[KIND_AT] = u8::from(kind);
        head[MAKER_AT] = self.own;
        head[OPENER_AT] = self.peer;
        head[CLEAR..].copy_from_slice(field);
        head
    }

    // Writes the clear bytes and the inside, turns the inside, and writes the sum, in memory as
    // long as the word. `short` is a clause, as at `turn_short`, and so is `room`: no type says that a
    // slice is 35 bytes longer than another.
    fn seal(&self, head: &[u8; INSIDE_AT], cipher: &ChaCha20, inside: &[u8], out: &mut [u8])
        requires short { length inside.now ≤ 1280 }
        requires room { length out.old ≡ 35 + length inside.now }
        ensures { (key : List ℕ) → Prepared self.now.hash key → out.new ≡ sealed_by key cipher.now.key head.now cipher.now.nonce inside.now }
    {
        let end = INSIDE_AT + inside.len();
        out[..INSIDE_AT].copy_from_slice(head);
        out[INSIDE_AT..end].copy_from_slice(inside);
        turn_short(cipher, &mut out[INSIDE_AT..end]);
        let sum = self.sum_of(&out[..end]).unwrap();
        out[end..end + SUM].copy_from_slice(&sum);
    }

    // Writes a hello or a reply with this inside and 16 drawn bytes.
    fn seal_handshake(
        &self,
        kind: Kind,
        turning: &[u8; 32],
        drawn: &[u8; FIELD],
        inside: &[u8; HANDSHAKE_INSIDE],
        out: &mut [u8; HANDSHAKE],
    )
        ensures { (key : List ℕ) → Prepared self.now.hash key → out.new ≡ sealed_by key turning.now (clear kind self.now.own self.now.peer drawn.now) (take 12 drawn.now) inside.now }
    {
        let cipher = ChaCha20 {
            key: *turning,
            nonce: nonce_of(drawn),
        };
        self.seal(&self.head_of(kind, drawn), &cipher, inside, out);
    }
}

impl PairKeys {
    /// Writes the hello with this tag and tick for the other gate, with 16 drawn bytes.
    pub fn seal_hello(&self, drawn: &[u8; FIELD], tag: u64, tick: u64, out: &mut [u8; HANDSHAKE])
        ensures { (key : List ℕ) → PairHolds self.now key → out.new ≡ bytes_of key drawn.now (Hello self.now.side.own self.now.side.peer tag tick) }
    {
        let inside = two_numbers(tag, tick);
        self.side
            .seal_handshake(Kind::Hello, &self.hello.out, drawn, &inside, out);
    }

    /// Writes the reply with this tag to the hello with the tag `asked`, with 16 drawn bytes.
    pub fn seal_reply(&self, drawn: &[u8; FIELD], tag: u64, asked: u64, out: &mut [u8; HANDSHAKE])
        ensures { (key : List ℕ) → PairHolds self.now key → out.new ≡ bytes_of key drawn.now (Reply self.now.side.own self.now.side.peer tag asked) }
    {
        let inside = two_numbers(tag, asked);
        self.side
            .seal_handshake(Kind::Reply, &self.reply.out, drawn, &inside, out);
    }
}

impl TalkKeys {
    // Writes a word of the talk under this number, in memory as long as the word.
    fn seal_numbered(&self, kind: Kind, number: u64, inside: &[u8], out: &mut [u8])
        requires short { length inside.now ≤ 1280 }
        requires room { length out.old ≡ 35 + length inside.now }
        ensures { (key : List ℕ) → Prepared self.now.side.hash key → out.new ≡ sealed_by key self.now.packet.out (clear kind self.now.side.own self.now.side.peer (bytes8 self.now.theirs ++ bytes8 number)) (number_nonce number) inside.now }
    {
        let head = self.side.head_of(kind, &two_numbers(self.theirs, number));
        let cipher = ChaCha20 {
            key: self.packet.out,
            nonce: number_nonce(number),
        };
        self.side.seal(&head, &cipher, inside, out);
    }

    /// Writes a packet under this number of the talk to the front of the lent memory, and answers
    /// how long the word is; what is behind it stays. Refuses, and changes nothing, where the
    /// packet is longer than any that may pass, or the memory has no room.
    pub fn seal_packet(&self, number: u64, packet: &[u8], out: &mut [u8]) -> Result<usize, Unsealed>
        ensures answer { result ≡ seal_answer (length packet.now) (length out.old) }
        ensures word { (pair : List ℕ) → TalkHolds self.now pair → out.new ≡ sealed_over result (bytes_of pair [] (Packet self.now.side.own self.now.side.peer self.now.mine self.now.theirs number packet.now)) out.old }
    {
        if packet.len() > MAX_PACKET {
            return Err(Unsealed::TooLong);
        }
        let end = SEALED + packet.len();
        if out.len() < end {
            return Err(Unsealed::NoRoom);
        }
        self.seal_numbered(Kind::Packet, number, packet, &mut out[..end]);
        Ok(end)
    }

    /// Writes the keepalive under this number of the talk.
    #[tactic(auto, using(crate::proofs::Written::sealed_empty))]
    pub fn seal_empty(&self, number: u64, out: &mut [u8; SEALED])
        ensures { (pair : List ℕ) → TalkHolds self.now pair → out.new ≡ bytes_of pair [] (Empty self.now.side.own self.now.side.peer self.now.mine self.now.theirs number) }
    {
        self.seal_numbered(Kind::Empty, number, &[], out);
    }
}
