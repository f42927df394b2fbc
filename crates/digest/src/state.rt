// What hashing keeps between calls.
ghost use Rattle.std.specs.Prelude.{Some, codes};

use std::error::Error;
use std::fmt;

/// What hashing refuses.
#[derive(Clone, Copy, PartialEq, Eq, Debug)]
pub enum Fault {
    /// The message would have 2^64 bits or more.
    TooLong,
}

impl fmt::Display for Fault {
    ghost output = { λ _. Some (codes "the message would have 2^64 bits or more") };

    fn fmt<W: fmt::Write>(&self, f: &mut fmt::Formatter<W>) -> fmt::Result {
        f.write_str("the message would have 2^64 bits or more")
    }
}

impl Error for Fault {}

/// A SHA-256 in the making: the hash value after all whole blocks, a buffer for the rest, and how
/// many bytes were taken.
// Messages can share a hash value, so no model of a hasher names the one that was taken: a clause
// speaks of each message that the hasher holds, and likewise of each key that a `Key` was made of.
#[derive(Clone, Copy)]
pub struct Hasher {
    pub(crate) state: [u32; 8],
    // Of which the first `total % 64` are used: fixed memory, no heap.
    pub(crate) block: [u8; 64],
    pub(crate) total: u64,
}

/// An HMAC-SHA-256 key, prepared once for many messages: the hash values after the inner and the
/// outer padded key.
// C makes room for it and lends it, so it is plain data that is right whatever stands in it.
#[derive(Clone, Copy)]
#[repr(C)]
pub struct Key {
    pub(crate) inner: [u32; 8],
    pub(crate) outer: [u32; 8],
}

/// An HMAC-SHA-256 in the making.
#[derive(Clone, Copy)]
pub struct Mac {
    pub(crate) inner: Hasher,
    pub(crate) outer: [u32; 8],
}
