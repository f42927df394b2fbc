// The seals as C functions, for the benchmark under host/bench. A key has 32 bytes and a nonce 12; what is missing is taken as zeros,
// and what is refused is answered by 1, all else by 0, since C has no `Result`.
#![tactic(auto)]

use cipher::{ChaCha20, Form, Lanes, Scalar};
use digest::{Fault, Key, hmac, sha256};

// The first N bytes of a slice, with zeros for those that are not there.
fn padded<const N: usize>(bytes: &[u8]) -> [u8; N] {
    let mut all = [0; N];
    let n = bytes.len().min(N);
    all[..n].copy_from_slice(&bytes[..n]);
    all
}

// Turns a text in place by a form of the cipher.
fn turned<const N: usize, F: Form<N>>(
    key: &[u8],
    counter: u32,
    nonce: &[u8],
    text: &mut [u8],
) -> u32 {
    let cipher = ChaCha20 {
        key: padded(key),
        nonce: padded(nonce),
    };
    u32::from(cipher.turn::<N, F>(counter, text).is_err())
}

// Writes a sum to the caller's memory, as far as there is room.
fn answered(sum: Result<[u8; 32], Fault>, out: &mut [u8]) -> u32 {
    let Ok(sum) = sum else {
        return 1;
    };
    let n = out.len().min(32);
    out[..n].copy_from_slice(&sum[..n]);
    0
}

/// Turns a text in place with ChaCha20, by lanes.
#[unsafe(no_mangle)]
pub extern "C" fn seals_turn(key: &[u8], counter: u32, nonce: &[u8], text: &mut [u8]) -> u32 {
    turned::<_, Lanes>(key, counter, nonce, text)
}

/// Turns a text in place with ChaCha20, in scalar form.
#[unsafe(no_mangle)]
pub extern "C" fn seals_turn_scalar(
    key: &[u8],
    counter: u32,
    nonce: &[u8],
    text: &mut [u8],
) -> u32 {
    turned::<_, Scalar>(key, counter, nonce, text)
}

/// Writes the SHA-256 of a message.
#[unsafe(no_mangle)]
pub extern "C" fn seals_sha256(message: &[u8], out: &mut [u8]) -> u32 {
    answered(sha256(message), out)
}

/// Writes the HMAC-SHA-256 of a message.
#[unsafe(no_mangle)]
pub extern "C" fn seals_hmac(key: &[u8], message: &[u8], out: &mut [u8]) -> u32 {
    answered(hmac(&padded(key), message), out)
}

/// Prepares a key for many messages.
#[unsafe(no_mangle)]
pub extern "C" fn seals_prepare(key: &[u8], prepared: &mut Key) {
    *prepared = Key::new(&padded(key));
}

/// Writes the HMAC-SHA-256 of a message under a prepared key.
#[unsafe(no_mangle)]
pub extern "C" fn seals_sum(key: &Key, message: &[u8], out: &mut [u8]) -> u32 {
    let mut mac = key.begin();
    answered(mac.update(message).map(|()| mac.finish()), out)
}
