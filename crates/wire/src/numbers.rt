// 64-bit tags and numbers in bytes, and nonces. Assumes nothing.
ghost use Rattle.std.specs.Prelude.{◌≡◌, ◌++◌, take, drop};
ghost use Rattle.wire.specs.Keys.{number_nonce};
ghost use Rattle.wire.specs.Numbers.{bytes8, number8};

use crate::layout::NONCE;
use protocol::limits::FIELD;

// The two numbers that 16 bytes are, one after the other.
#[tactic(auto, unfolding(crate::specs::Numbers::number8))]
pub(crate) fn numbers_in(both: &[u8; 16]) -> (u64, u64)
    ensures first { result.0 ≡ number8 (take 8 both.now) }
    ensures second { result.1 ≡ number8 (take 8 (drop 8 both.now)) }
{
    let first = both.first_chunk().unwrap();
    let second = both.last_chunk().unwrap();
    (u64::from_be_bytes(*first), u64::from_be_bytes(*second))
}

// Two numbers, one after the other.
#[tactic(auto, unfolding(crate::specs::Numbers::bytes8))]
pub(crate) fn two_numbers(first: u64, second: u64) -> [u8; 16]
    ensures { result ≡ bytes8 first ++ bytes8 second }
{
    *[first.to_be_bytes(), second.to_be_bytes()]
        .as_flattened()
        .as_array()
        .unwrap()
}

// The nonce of a hello or a reply: the first of its drawn bytes.
pub(crate) fn nonce_of(drawn: &[u8; FIELD]) -> [u8; NONCE]
    ensures { result ≡ take 12 drawn.now }
{
    *drawn.first_chunk().unwrap()
}

// The nonce of a number in a talk. It is copied into zeros: no method puts 4 zeros before 8 bytes.
#[tactic(auto, unfolding(crate::specs::Numbers::bytes8))]
pub(crate) fn number_nonce(number: u64) -> [u8; NONCE]
    ensures { result ≡ number_nonce number }
{
    let mut nonce = [0; NONCE];
    nonce[4..].copy_from_slice(&number.to_be_bytes());
    nonce
}
