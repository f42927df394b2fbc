// The vectors of RFC 4231 for HMAC-SHA-256. A key that is shorter than 32 bytes has zeros after it, which gives the same code,
// since a key is filled up with zeros to a block; one that is longer than a block is hashed first, as the definition has it, and its hash has 32 bytes.
use crate::show::show;
use anyhow::anyhow;
use digest::{Key, hmac, sha256};

// A key of at most 32 bytes, with zeros after it. (`seals_c` pads so too: a library for C and this
// program have no crate in common that deals with keys that are too short.)
fn filled(key: &[u8]) -> [u8; 32] {
    let mut whole = [0; 32];
    let n = key.len().min(32);
    whole[..n].copy_from_slice(&key[..n]);
    whole
}

// The HMAC of a message at once; by a key that is prepared, in two parts, it must be the same.
fn code_of(key: &[u8; 32], message: &[u8]) -> anyhow::Result<[u8; 32]> {
    let code = hmac(key, message).map_err(|_| anyhow!("a vector is refused"))?;
    let mut mac = Key::new(key).begin();
    let (front, back) = message.split_at(message.len() / 2);
    for part in [front, back] {
        mac.update(part)
            .map_err(|_| anyhow!("a vector is refused"))?;
    }
    if mac.finish() != code {
        return Err(anyhow!("a prepared key gives another code"));
    }
    Ok(code)
}

// The HMAC under a key that is longer than a block.
fn code_hashed(key: &[u8], message: &[u8]) -> anyhow::Result<[u8; 32]> {
    let short = sha256(key).map_err(|_| anyhow!("a vector is refused"))?;
    code_of(&short, message)
}

pub fn run(rt: &HostRuntime) -> anyhow::Result<()> {
    show(
        rt,
        "RFC 4231 1",
        &code_of(&filled(&[0x0b; 20]), b"Hi There")?,
    )?;
    show(
        rt,
        "RFC 4231 2",
        &code_of(&filled(b"Jefe"), b"what do ya want for nothing?")?,
    )?;
    show(
        rt,
        "RFC 4231 3",
        &code_of(&filled(&[0xaa; 20]), &[0xdd; 50])?,
    )?;
    let fourth = [
        1, 2, 3, 4, 5, 6, 7, 8, 9, 10, 11, 12, 13, 14, 15, 16, 17, 18, 19, 20, 21, 22, 23, 24, 25,
    ];
    show(rt, "RFC 4231 4", &code_of(&filled(&fourth), &[0xcd; 50])?)?;
    let truncated = code_of(&filled(&[0x0c; 20]), b"Test With Truncation")?;
    show(rt, "RFC 4231 5", &truncated[..16])?;
    show(
        rt,
        "RFC 4231 6",
        &code_hashed(
            &[0xaa; 131],
            b"Test Using Larger Than Block-Size Key - Hash Key First",
        )?,
    )?;
    let last =
        b"This is a test using a larger than block-size key and a larger than block-size data. The key needs to be hashed before being used by the HMAC algorithm.";
    show(rt, "RFC 4231 7", &code_hashed(&[0xaa; 131], last)?)
}
