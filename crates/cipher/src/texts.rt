// Turning a text in place: each byte xor the byte of the key stream at its place.
ghost use Rattle.std.specs.Prelude.{◌≡◌, ◌*◌, ◌<◌, ◌≤◌, length, is_ok, if◌then◌else◌, bit_xor};
ghost use Rattle.std.specs.List.{concat};
ghost use Rattle.std.specs.Simd.Lanes.{zip2};
ghost use Rattle.std.proofs.Common.{rules};
ghost use Rattle.cipher.specs.ChaCha20.{keystream, encrypt};
ghost use Rattle.cipher.specs.Texts.{answer};

use crate::blocks::ChaCha20;
use crate::fault::Fault;
use crate::lanes::five_blocks;

const LONGEST: usize = 65536;

const BLOCK: usize = 64;

/// How the key stream is made: N blocks of it at once.
pub trait Form<const N: usize> {
    /// The key stream from the block with this counter on.
    fn stream(cipher: &ChaCha20, counter: u32) -> [[u8; 64]; N]
        ensures { concat result ≡ keystream cipher.now.key counter cipher.now.nonce N };

    // There are some blocks, and no more than the longest text takes.
    ghost some_blocks: { (0 < N) × (N ≤ 1024) };
}

/// One block at a time.
pub struct Scalar;

/// Five blocks at a time, four of them by lanes.
pub struct Lanes;

impl Form<1> for Scalar {
    ghost some_blocks = { Prim.search rules };

    #[tactic(auto, unfolding(crate::specs::ChaCha20::keystream))]
    fn stream(cipher: &ChaCha20, counter: u32) -> [[u8; 64]; 1] {
        [cipher.block(counter)]
    }
}

impl Form<5> for Lanes {
    ghost some_blocks = { Prim.search rules };

    #[tactic(auto, using(crate::proofs::Streams::five_blocks))]
    fn stream(cipher: &ChaCha20, counter: u32) -> [[u8; 64]; 5] {
        five_blocks(&cipher.state(counter))
    }
}

// Whether a text of `len` bytes can be turned from a counter on.
fn allowed(len: usize, counter: u32) -> Result<(), Fault>
    ensures { result ≡ answer counter len }
{
    if len > LONGEST {
        return Err(Fault::TooLong);
    }
    let blocks = len.div_ceil(BLOCK);
    if u64::from(counter) + blocks as u64 > 1 << 32 {
        return Err(Fault::CounterOver);
    }
    Ok(())
}

// Each byte of a part xor the byte of the stream at its place. The stream is read by index: of what
// is written through a `zip` of `iter_mut` the check knows nothing.
fn xor_onto(part: &mut [u8], stream: &[u8])
    requires { length part.old ≤ length stream.now }
    ensures { part.new ≡ zip2 bit_xor part.old stream.now }
{
    for (i, byte) in part.iter_mut().enumerate() {
        *byte ^= stream[i];
    }
}

impl ChaCha20 {
    /// Turns a text in place: what was plain is encrypted, and what was encrypted is plain (RFC
    /// 8439, 2.4), from a block counter on. A text longer than 65,536 bytes is refused, and so is
    /// one that would run over the 32-bit counter; a refusal leaves the text as it is. Every form
    /// gives the same.
    pub fn turn<const N: usize, F: Form<N>>(
        &self,
        counter: u32,
        text: &mut [u8],
    ) -> Result<(), Fault>
        ensures answer { result ≡ answer counter (length text.old) }
        ensures after { text.new ≡ (if is_ok result then encrypt self.now.key counter self.now.nonce text.old else text.old) }
    {
        allowed(text.len(), counter)?;
        // Nothing is made ready for parts where one block is enough.
        if text.len() <= BLOCK {
            self.turn_block(counter, text);
        } else {
            self.turn_parts::<N, F>(counter, text);
        }
        Ok(())
    }

    // Turns a text from a counter on, as many bytes at a time as the form makes. Parts are cut by
    // their places: of a text that is written through `chunks_mut` the check knows the length alone.
    fn turn_parts<const N: usize, F: Form<N>>(&self, counter: u32, text: &mut [u8])
        requires { length text.old ≤ 65536 }
        ensures { text.new ≡ encrypt self.now.key counter self.now.nonce text.old }
    {
        for from in (0..text.len()).step_by(BLOCK * N) {
            let to = (from + BLOCK * N).min(text.len());
            let at = counter.wrapping_add((from / BLOCK) as u32);
            self.turn_part::<N, F>(at, &mut text[from..to]);
        }
    }

    // Turns a part of a text; one that a block is long enough for takes no more.
    fn turn_part<const N: usize, F: Form<N>>(&self, counter: u32, part: &mut [u8])
        requires { length part.old ≤ 64 * N }
        ensures { part.new ≡ encrypt self.now.key counter self.now.nonce part.old }
    {
        if part.len() <= BLOCK {
            self.turn_block(counter, part);
        } else {
            xor_onto(part, F::stream(self, counter).as_flattened());
        }
    }

    // Turns a text that a block is long enough for.
    #[tactic(auto, using(crate::proofs::Streams::turned_by))]
    fn turn_block(&self, counter: u32, text: &mut [u8])
        requires { length text.old ≤ 64 }
        ensures { text.new ≡ encrypt self.now.key counter self.now.nonce text.old }
    {
        xor_onto(text, Scalar::stream(self, counter).as_flattened());
    }
}
