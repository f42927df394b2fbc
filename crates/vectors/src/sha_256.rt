// The vectors of RFC 6234, 8.5, for SHA-256 that are whole bytes: 1 to 4, 6, 8 and 10 (the others end within a byte).
use crate::show::show;
use anyhow::anyhow;
use digest::{Hasher, sha256};

// The SHA-256 of a message.
fn show_sum(rt: &HostRuntime, name: &str, message: &[u8]) -> anyhow::Result<()> {
    let sum = sha256(message).map_err(|_| anyhow!("a vector is refused"))?;
    show(rt, name, &sum)
}

// The SHA-256 of a part that comes again and again.
fn show_repeated(rt: &HostRuntime, name: &str, part: &[u8], times: u32) -> anyhow::Result<()> {
    let mut hasher = Hasher::new();
    for _i in 0..times {
        // No `?` on a mapped error here: its 152 bytes would be moved in each turn.
        let Ok(()) = hasher.update(part) else {
            return Err(anyhow!("a vector is refused"));
        };
    }
    show(rt, name, &hasher.finish())
}

pub fn run(rt: &HostRuntime) -> anyhow::Result<()> {
    show_sum(rt, "RFC 6234 SHA-256 1", b"abc")?;
    show_sum(
        rt,
        "RFC 6234 SHA-256 2",
        b"abcdbcdecdefdefgefghfghighijhijkijkljklmklmnlmnomnopnopq",
    )?;
    show_repeated(rt, "RFC 6234 SHA-256 3", b"a", 1000000)?;
    show_repeated(
        rt,
        "RFC 6234 SHA-256 4",
        b"0123456701234567012345670123456701234567012345670123456701234567",
        10,
    )?;
    show_sum(rt, "RFC 6234 SHA-256 6", b"\x19")?;
    show_sum(
        rt,
        "RFC 6234 SHA-256 8",
        b"\xe3\xd7\x25\x70\xdc\xdd\x78\x7c\xe3\x88\x7a\xb2\xcd\x68\x46\x52",
    )?;
    let last =
        b"\x83\x26\x75\x4e\x22\x77\x37\x2f\x4f\xc1\x2b\x20\x52\x7a\xfe\xf0\x4d\x8a\x05\x69\x71\xb1\x1a\xd5\x71\x23\xa7\xc1\x37\x76\x00\x00\xd7\xbe\xf6\xf3\xc1\xf7\xa9\x08\x3a\xa3\x9d\x81\x0d\xb3\x10\x77\x7d\xab\x8b\x1e\x7f\x02\xb8\x4a\x26\xc7\x73\x32\x5f\x8b\x23\x74\xde\x7a\x4b\x5a\x58\xcb\x5c\x5c\xf3\x5b\xce\xe6\xfb\x94\x6e\x5b\xd6\x94\xfa\x59\x3a\x8b\xeb\x3f\x9d\x65\x92\xec\xed\xaa\x66\xca\x82\xa2\x9d\x0c\x51\xbc\xf9\x33\x62\x30\xe5\xd7\x84\xe4\xc0\xa4\x3f\x8d\x79\xa3\x0a\x16\x5c\xba\xbe\x45\x2b\x77\x4b\x9c\x71\x09\xa9\x7d\x13\x8f\x12\x92\x28\x96\x6f\x6c\x0a\xdc\x10\x6a\xad\x5a\x9f\xdd\x30\x82\x57\x69\xb2\xc6\x71\xaf\x67\x59\xdf\x28\xeb\x39\x3d\x54\xd6";
    show_sum(rt, "RFC 6234 SHA-256 10", last)
}
