// Messages of 0 to 300 bytes, the longest text, and what is refused.
use crate::show::hex;
use anyhow::anyhow;
use cipher::{ChaCha20, Fault, Form, Lanes, Scalar};
use digest::{Hasher, hmac, sha256};
use std::array;

// Bytes that rise by `step` from `first` on, modulo 256.
fn rising<const N: usize>(step: u8, first: u8) -> [u8; N] {
    let mut next = first;
    array::from_fn(|_| {
        let byte = next;
        next = next.wrapping_add(step);
        byte
    })
}

// The SHA-256 of a message that comes in two parts.
fn sum_of(message: &[u8]) -> anyhow::Result<[u8; 32]> {
    let mut hasher = Hasher::new();
    let (front, back) = message.split_at(message.len() / 3);
    for part in [front, back] {
        hasher
            .update(part)
            .map_err(|_| anyhow!("a message is refused"))?;
    }
    Ok(hasher.finish())
}

// The SHA-256 of a text that is turned by a form of the cipher.
fn sum_turned<const N: usize, F: Form<N>>(
    rt: &HostRuntime,
    cipher: &ChaCha20,
    text: &[u8],
) -> anyhow::Result<[u8; 32]> {
    let mut copy = text.to_vec(rt.alloc())?;
    cipher
        .turn::<N, F>(7, copy.as_mut_slice())
        .map_err(|_| anyhow!("a text is refused"))?;
    sum_of(copy.as_slice())
}

// One length: SHA-256, HMAC, and the SHA-256 of the text that ChaCha20 turns, by lanes and in scalar form.
fn show_length(rt: &HostRuntime, cipher: &ChaCha20, text: &[u8]) -> anyhow::Result<()> {
    let sum = sha256(text).map_err(|_| anyhow!("a message is refused"))?;
    let code = hmac(&cipher.key, text).map_err(|_| anyhow!("a message is refused"))?;
    if sum_of(text)? != sum {
        return Err(anyhow!("a message in parts has another sum"));
    }
    let turned = sum_turned::<_, Lanes>(rt, cipher, text)?;
    if sum_turned::<_, Scalar>(rt, cipher, text)? != turned {
        return Err(anyhow!("lanes and scalar form differ"));
    }
    let n = text.len();
    let a = hex(rt, &sum)?;
    let b = hex(rt, &code)?;
    let c = hex(rt, &turned)?;
    println!(rt; "{n}: {a} {b} {c}")?;
    Ok(())
}

// The longest text, and those that are refused.
fn show_limits(rt: &HostRuntime, cipher: &ChaCha20) -> anyhow::Result<()> {
    let mut text = vec![in rt.alloc(); 0u8; 65536]?;
    cipher
        .turn::<_, Lanes>(7, text.as_mut_slice())
        .map_err(|_| anyhow!("the longest text is refused"))?;
    let sum = hex(rt, &sum_of(text.as_slice())?)?;
    println!(rt; "long: {sum}")?;
    text.push(0)?;
    let long = cipher.turn::<_, Lanes>(7, text.as_mut_slice());
    let over = cipher.turn::<_, Lanes>(0xffff_ffff, &mut [0; 65]);
    if long == Err(Fault::TooLong) && over == Err(Fault::CounterOver) {
        println!(rt; "refused: too long, counter over")?;
    }
    Ok(())
}

pub fn run(rt: &HostRuntime) -> anyhow::Result<()> {
    let text: [u8; 300] = rising(7, 3);
    let cipher = ChaCha20 {
        key: rising(11, 5),
        nonce: rising(13, 1),
    };
    for n in 0..=text.len() {
        show_length(rt, &cipher, &text[..n])?;
    }
    show_limits(rt, &cipher)
}
