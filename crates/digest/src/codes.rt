// HMAC-SHA-256 under a 32-byte key, of a message that comes in parts.
ghost use Rattle.std.specs.Prelude.{◌≡◌, ℕ, ◌+◌, true, false, List, [], ◌++◌, map, length, replicate, is_ok, if◌then◌else◌, bit_xor};
ghost use Rattle.digest.specs.Hashers.{Prepared, Taken, limited};
ghost use Rattle.digest.specs.Hmac.{hmac as hmac-of};

use crate::state::{Fault, Hasher, Key, Mac};
use crate::values::{hashed, initial};

// The padded key: each byte of the key, and then of zeros, xor `pad`.
fn padded_key(key: &[u8; 32], pad: u8) -> [u8; 64]
    ensures { result ≡ map (λ b. bit_xor b pad) (key.now ++ replicate 32 0) }
{
    let mut block = [0; 64];
    block[..32].copy_from_slice(key);
    // A loop in place: with the array's `map` the code of a short message takes a third longer.
    for b in block.iter_mut() {
        *b ^= pad;
    }
    block
}

impl Key {
    /// Prepares a key for many messages.
    #[tactic(auto, using(crate::proofs::Keys::padded))]
    pub fn new(key: &[u8; 32]) -> Self
        ensures { Prepared result key.now }
    {
        let inner = padded_key(key, 0x36);
        let outer = padded_key(key, 0x5c);
        Key {
            inner: hashed(initial(), &inner),
            outer: hashed(initial(), &outer),
        }
    }

    /// Begins the code of a message under this key.
    pub fn begin(&self) -> Mac
        ensures total { result.inner.total ≡ 64 }
        ensures taken { (key : List ℕ) → Prepared self.now key → Taken result key [] }
    {
        Mac {
            inner: Hasher::resumed(self.inner, 64),
            outer: self.outer,
        }
    }
}

impl Mac {
    // The hasher of the outer hash, which has taken the outer padded key.
    fn outer_hasher(&self) -> Hasher
        ensures state { result.state ≡ self.now.outer }
        ensures total { result.total ≡ 64 }
    {
        Hasher::resumed(self.outer, 64)
    }

    /// Takes a part of the message, of any length. It is refused, and nothing changes, where the
    /// padded key and the message would have 2^64 bits or more.
    #[inline(always)]
    pub fn update(&mut self, part: &[u8]) -> Result<(), Fault>
        ensures answer { result ≡ limited (self.old.inner.total + length part.now) tt }
        ensures total { self.new.inner.total ≡ self.old.inner.total + (if is_ok result then length part.now else 0) }
        ensures refused { is_ok result ≡ false → self.new ≡ self.old }
        ensures taken { (key m : List ℕ) → Taken self.old key m → is_ok result ≡ true → Taken self.new key (m ++ part.now) }
    {
        self.inner.update(part)
    }

    /// The HMAC-SHA-256 of the message that was taken.
    pub fn finish(&self) -> [u8; 32]
        ensures { (key m : List ℕ) → Taken self.now key m → result ≡ hmac-of key m }
    {
        let sum = self.inner.finish();
        let mut outer = self.outer_hasher();
        outer.absorb(&sum);
        outer.finish()
    }
}

/// The HMAC-SHA-256 of a message under a key. A message that has, with the padded key, 2^64 bits or
/// more is refused.
pub fn hmac(key: &[u8; 32], message: &[u8]) -> Result<[u8; 32], Fault>
    ensures { result ≡ limited (64 + length message.now) (hmac-of key.now message.now) }
{
    let mut mac = Key::new(key).begin();
    mac.update(message)?;
    Ok(mac.finish())
}
