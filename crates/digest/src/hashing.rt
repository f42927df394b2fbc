// SHA-256 of a message that comes in parts.
ghost use Rattle.std.specs.Prelude.{◌≡◌, ℕ, ◌+◌, ◌-◌, ◌*◌, ◌%◌, ◌^◌, ◌<◌, ◌≤◌, true, false, List, [], ◌∷◌, ◌++◌, length, take, replicate, is_ok, if◌then◌else◌};
ghost use Rattle.digest.specs.Hashers.{Absorbs, Holds, limited};
ghost use Rattle.digest.specs.Sha256.{length_bytes, last_hash, sha256 as sha256-of};

use crate::state::{Fault, Hasher};
use crate::values::{hashed, initial, serialize};
use sha::compress;

// RFC 6234, 4: a message has fewer than 2^64 bits, so fewer than 2^61 bytes.
const LIMIT: u64 = 0x2000_0000_0000_0000;

// The length of a message in bits.
fn bits(total: u64) -> u64
    ensures { result ≡ (total * 8) % 2 ^ 64 }
{
    total.wrapping_mul(8)
}

// A block of the first bytes of another, a bit 1, and zeros.
fn marked(block: &[u8; 64], fill: usize) -> [u8; 64]
    requires { fill < 64 }
    ensures { result ≡ take fill block.now ++ (128 ∷ replicate (63 - fill) 0) }
{
    let mut marked = [0; 64];
    marked[..fill].copy_from_slice(&block[..fill]);
    marked[fill] = 128;
    marked
}

// A last block, with the length of the message in bits at its end.
fn with_length(block: [u8; 64], total: u64) -> [u8; 64]
    ensures { result ≡ take 56 block ++ length_bytes (8 * total) }
{
    let mut last = block;
    last[56..].copy_from_slice(&bits(total).to_be_bytes());
    last
}

impl Hasher {
    // A hasher that has taken whole blocks, by the hash value after them and how many bytes they have.
    pub(crate) fn resumed(state: [u32; 8], total: u64) -> Hasher
        ensures state { result.state ≡ state }
        ensures total { result.total ≡ total }
    {
        Hasher {
            state,
            block: [0; 64],
            total,
        }
    }

    // How much of the buffer is full.
    fn fill(&self) -> usize
        ensures { result ≡ self.now.total % 64 }
    {
        (self.total % 64) as usize
    }

    // Takes a piece that the buffer has room for.
    #[inline(always)]
    pub(crate) fn absorb(&mut self, piece: &[u8])
        requires { (self.old.total % 64 + length piece.now ≤ 64) × (self.old.total + length piece.now < 2 ^ 64) }
        ensures { Absorbs self.old self.new piece.now }
    {
        let fill = self.fill();
        let end = fill + piece.len();
        self.block[fill..end].copy_from_slice(piece);
        self.total += piece.len() as u64;
        if end == 64 {
            compress(&mut self.state, &self.block);
        }
    }

    // Takes a whole block, where the buffer is empty: it isn't copied there, as a piece is.
    fn absorb_block(&mut self, block: &[u8; 64])
        requires { (self.old.total % 64 ≡ 0) × (self.old.total + 64 < 2 ^ 64) }
        ensures total { self.new.total ≡ self.old.total + 64 }
        ensures absorbs { Absorbs self.old self.new block.now }
    {
        compress(&mut self.state, block);
        self.total += 64;
    }

    // Takes a part of any length: what ends the block in the buffer, whole blocks, and the rest; one
    // that ends no block goes to the buffer at once. Where this stands in the caller, the compiler
    // sees that buffer and part lie apart, and needs no `memmove`.
    #[inline(always)]
    fn feed(&mut self, part: &[u8])
        requires { self.old.total + length part.now < 2 ^ 64 }
        ensures { Absorbs self.old self.new part.now }
    {
        let fill = self.fill();
        if part.len() < 64 - fill {
            return self.absorb(part);
        }
        let room = (64 - fill) % 64;
        let (first, others) = part.split_at(part.len().min(room));
        self.absorb(first);
        let (blocks, rest) = others.as_chunks();
        for block in blocks {
            self.absorb_block(block);
        }
        self.absorb(rest);
    }

    // The hash value after the padded message.
    fn close(&self) -> [u32; 8]
        ensures { (m : List ℕ) → Holds self.now m → result ≡ last_hash m }
    {
        let fill = self.fill();
        let last = marked(&self.block, fill);
        if fill < 56 {
            return hashed(self.state, &with_length(last, self.total));
        }
        let end = with_length([0; 64], self.total);
        hashed(hashed(self.state, &last), &end)
    }

    /// A hasher that holds the empty message.
    #[tactic(auto, using(crate::proofs::Messages::holds_none))]
    pub fn new() -> Self
        ensures total { result.total ≡ 0 }
        ensures holds { Holds result [] }
    {
        Hasher::resumed(initial(), 0)
    }

    /// Takes a part of the message, of any length. It is refused, and nothing changes, where the
    /// message would have 2^64 bits or more.
    #[inline(always)]
    pub fn update(&mut self, part: &[u8]) -> Result<(), Fault>
        ensures answer { result ≡ limited (self.old.total + length part.now) tt }
        ensures total { self.new.total ≡ self.old.total + (if is_ok result then length part.now else 0) }
        ensures refused { is_ok result ≡ false → self.new ≡ self.old }
        ensures holds { (m : List ℕ) → Holds self.old m → is_ok result ≡ true → Holds self.new (m ++ part.now) }
    {
        if part.len() as u64 >= LIMIT.saturating_sub(self.total) {
            return Err(Fault::TooLong);
        }
        self.feed(part);
        Ok(())
    }

    /// The SHA-256 of the message that was taken.
    #[tactic(auto, unfolding(crate::specs::Sha256::sha256))]
    pub fn finish(&self) -> [u8; 32]
        ensures { (m : List ℕ) → Holds self.now m → result ≡ sha256-of m }
    {
        serialize(&self.close())
    }
}

/// The SHA-256 of a message. One of 2^64 bits or more is refused.
pub fn sha256(message: &[u8]) -> Result<[u8; 32], Fault>
    ensures { result ≡ limited (length message.now) (sha256-of message.now) }
{
    let mut hasher = Hasher::new();
    hasher.update(message)?;
    Ok(hasher.finish())
}
