// The key stream block by block: the state that a block starts from, and its bytes.
ghost use Rattle.std.specs.Prelude.{◌≡◌};
ghost use Rattle.cipher.specs.ChaCha20.{start_state, inner_blocks, serialized, block_of, block as Block-of};

use crate::rounds::{State, rounds};
use std::simd::prelude::*;

/// A key and a nonce: they say what the key stream is.
#[derive(Clone, Copy)]
pub struct ChaCha20 {
    pub key: [u8; 32],
    pub nonce: [u8; 12],
}

impl ChaCha20 {
    /// The block with this counter (RFC 8439, 2.3): 64 bytes. It is never refused.
    #[tactic(auto, unfolding(crate::specs::ChaCha20::block))]
    pub fn block(&self, counter: u32) -> [u8; 64]
        ensures { result ≡ Block-of self.now.key counter self.now.nonce }
    {
        block_of(self.state(counter))
    }

    // The state that a block starts from.
    pub(crate) fn state(&self, counter: u32) -> [u32; 16]
        ensures { result ≡ start_state self.now.key counter self.now.nonce }
    {
        let (key, _) = self.key.as_chunks::<4>();
        let (nonce, _) = self.nonce.as_chunks::<4>();
        [
            0x6170_7865,
            0x3320_646e,
            0x7962_2d32,
            0x6b20_6574,
            u32::from_le_bytes(key[0]),
            u32::from_le_bytes(key[1]),
            u32::from_le_bytes(key[2]),
            u32::from_le_bytes(key[3]),
            u32::from_le_bytes(key[4]),
            u32::from_le_bytes(key[5]),
            u32::from_le_bytes(key[6]),
            u32::from_le_bytes(key[7]),
            counter,
            u32::from_le_bytes(nonce[0]),
            u32::from_le_bytes(nonce[1]),
            u32::from_le_bytes(nonce[2]),
        ]
    }
}

// The bytes of sixteen words.
pub(crate) fn bytes(words: u32x16) -> [u8; 64]
    ensures { result ≡ serialized words }
{
    let mut out = [0; 64];
    words.to_le_bytes().copy_to_slice(&mut out);
    out
}

// Twenty rounds of one state, in a function of its own: where LLVM sees the sum that follows, it puts
// words of the loop into vectors, and a block takes a third longer.
#[inline(never)]
fn mix(s: &mut [u32; 16])
    ensures { s.new ≡ inner_blocks 10 s.old }
{
    *s = rounds(*s);
}

// The block of a start state: the state after twenty rounds, added to the start state, as bytes.
#[tactic(auto, unfolding(crate::specs::ChaCha20::block_of))]
pub(crate) fn block_of(start: [u32; 16]) -> [u8; 64]
    ensures { result ≡ block_of start }
{
    let mut s = start;
    mix(&mut s);
    bytes(u32x16::from_array(s.plus(start)))
}
