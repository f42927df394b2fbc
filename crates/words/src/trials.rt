// What is tried with one word: to open it, to seal it again, to flip each bit, to cut it.
use lines::encode;
use protocol::Refusal;
use protocol::limits::{FIELD, SUM};
use wire::layout::{DRAWN_AT, INSIDE_AT, MAX_WORD};
use wire::{Opened, PairKeys, TalkKeys};

/// What words are tried with: the keys of the gate that opens them, those of the other one, the
/// talk's tags as the first has them, and the label under which it is said.
#[derive(Drop)]
pub struct Trial<'a> {
    pub rt: &'a HostRuntime,
    pub label: &'a str,
    pub here: PairKeys,
    pub talk: TalkKeys,
    pub there: PairKeys,
    pub mine: u64,
    pub theirs: u64,
}

// The inside of an opened packet.
fn inside_of(word: &[u8]) -> Option<&[u8]> {
    let (inside, _) = word.get(INSIDE_AT..)?.split_last_chunk::<SUM>()?;
    Some(inside)
}

// The drawn bytes that stand in a word.
fn drawn_in(word: &[u8]) -> Option<&[u8; FIELD]> {
    word.get(DRAWN_AT..)?.first_chunk()
}

impl Trial<'_> {
    /// Says what is read of a word.
    pub fn opens(&self, word: &[u8]) -> anyhow::Result<()> {
        let (rt, label) = (self.rt, self.label);
        let mut copy = word.to_vec(rt.alloc())?;
        match self.here.open(Some(self.talk), copy.as_mut_slice()) {
            Ok(Opened::Hello { tag, tick }) => println!(rt; "{label} hello {tag} {tick}")?,
            Ok(Opened::Reply { tag, asked }) => println!(rt; "{label} reply {tag} {asked}")?,
            Ok(Opened::Packet { number }) => {
                let inside = inside_of(copy.as_slice()).unwrap_or(&[]);
                let inside = String::from_utf8(encode(rt.alloc(), inside)?)?;
                println!(rt; "{label} packet {number} {inside}")?;
            }
            Ok(Opened::Empty { number }) => println!(rt; "{label} empty {number}")?,
            Ok(Opened::Oversize { number }) => println!(rt; "{label} oversize {number}")?,
            Err(refusal) => println!(rt; "{label} refused {}", u8::from(refusal))?,
        }
        Ok(())
    }

    // The other gate's keys of the talk: derived where a word is sealed again, which few are.
    fn back(&self) -> TalkKeys {
        self.there.talk(self.theirs, self.mine)
    }

    // Seals by the other gate's keys what was opened, to the front of a buffer; its length, or none
    // where it isn't sealed.
    fn sealed(&self, opened: Opened, copy: &[u8], out: &mut [u8; MAX_WORD]) -> Option<usize> {
        match opened {
            Opened::Hello { tag, tick } => {
                let word = out.first_chunk_mut()?;
                self.there.seal_hello(drawn_in(copy)?, tag, tick, word);
                Some(word.len())
            }
            Opened::Reply { tag, asked } => {
                let word = out.first_chunk_mut()?;
                self.there.seal_reply(drawn_in(copy)?, tag, asked, word);
                Some(word.len())
            }
            Opened::Packet { number } => self
                .back()
                .seal_packet(number, inside_of(copy)?, out)
                .ok(),
            Opened::Empty { number } => {
                let word = out.first_chunk_mut()?;
                self.back().seal_empty(number, word);
                Some(word.len())
            }
            Opened::Oversize { .. } => None,
        }
    }

    /// Says whether a word that opens is sealed to the same bytes again.
    pub fn seals_again(&self, word: &[u8]) -> anyhow::Result<()> {
        let (rt, label) = (self.rt, self.label);
        let mut copy = word.to_vec(rt.alloc())?;
        let Ok(opened) = self.here.open(Some(self.talk), copy.as_mut_slice()) else {
            println!(rt; "{label} doesn't open")?;
            return Ok(());
        };
        let mut out = [0; MAX_WORD];
        let length = self.sealed(opened, copy.as_slice(), &mut out);
        if length.and_then(|length| out.get(..length)) == Some(word) {
            println!(rt; "{label} seals to the same bytes")?;
        } else {
            println!(rt; "{label} seals to other bytes")?;
        }
        Ok(())
    }

    // Why a word is refused, if it is.
    fn refused(&self, word: &mut [u8]) -> Option<Refusal> {
        self.here.open(Some(self.talk), word).err()
    }

    // Why a word with one bit flipped is refused, if it is; the word is as it was then.
    fn flipped(&self, word: &mut [u8], bit: usize) -> Option<Refusal> {
        let at = bit / 8;
        if at >= word.len() {
            return None;
        }
        word[at] ^= 1 << (bit % 8);
        let refused = self.refused(word);
        word[at] ^= 1 << (bit % 8);
        refused
    }

    // Why the part of a word up to a place is refused, if it is.
    fn cut(&self, word: &mut [u8], end: usize) -> Option<Refusal> {
        self.refused(word.get_mut(..end)?)
    }

    // Says of each way in which a word is changed why it is refused then, a line for each run of
    // equal answers, as soon as the run ends: only its beginning and its answer are kept.
    fn runs<F: FnMut(usize) -> Option<Refusal>>(
        &self,
        changed: &str,
        ways: usize,
        mut answer: F,
    ) -> anyhow::Result<()>
        requires { (f : _) (x : _) → F.pre f x }
    {
        let mut from = 0;
        let mut refused = answer(0);
        for way in 1..ways {
            let next = answer(way);
            if next != refused {
                self.tell(changed, from, way - 1, refused)?;
                from = way;
                refused = next;
            }
        }
        self.tell(changed, from, ways.saturating_sub(1), refused)
    }

    // Says of a run of ways why a word is refused in each of them.
    fn tell(
        &self,
        changed: &str,
        from: usize,
        to: usize,
        refused: Option<Refusal>,
    ) -> anyhow::Result<()> {
        let (rt, label) = (self.rt, self.label);
        // The output says 0 where the word opens.
        let number = refused.map_or(0, u8::from);
        println!(rt; "{label} {changed} {from} to {to}: refused {number}")?;
        Ok(())
    }

    /// Says by which numbers a word is refused with each of its bits flipped.
    pub fn flips(&self, word: &mut [u8]) -> anyhow::Result<()> {
        self.runs(
            "flips",
            word.len().saturating_mul(8),
            |bit| self.flipped(word, bit),
        )
    }

    /// Says by which numbers the parts of a word from its beginning are refused.
    pub fn cuts(&self, word: &mut [u8]) -> anyhow::Result<()> {
        self.runs("cuts", word.len(), |end| self.cut(word, end))
    }
}
