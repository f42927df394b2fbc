// The vectors of RFC 8439 for ChaCha20: 2.3.2, 2.4.2, A.1 and A.2.
use crate::show::show;
use anyhow::anyhow;
use cipher::{ChaCha20, Lanes};

const NONE: [u8; 12] = [0; 12];

const TWO: [u8; 12] = [0, 0, 0, 0, 0, 0, 0, 0, 0, 0, 0, 2];

const ONE: [u8; 32] = [
    0, 0, 0, 0, 0, 0, 0, 0, 0, 0, 0, 0, 0, 0, 0, 0, 0, 0, 0, 0, 0, 0, 0, 0, 0, 0, 0, 0, 0, 0, 0, 1,
];

const HIGH: [u8; 32] = [
    0, 255, 0, 0, 0, 0, 0, 0, 0, 0, 0, 0, 0, 0, 0, 0, 0, 0, 0, 0, 0, 0, 0, 0, 0, 0, 0, 0, 0, 0, 0,
    0,
];

const COUNT: [u8; 32] = [
    0, 1, 2, 3, 4, 5, 6, 7, 8, 9, 10, 11, 12, 13, 14, 15, 16, 17, 18, 19, 20, 21, 22, 23, 24, 25,
    26, 27, 28, 29, 30, 31,
];

const JABBER: [u8; 32] = [
    28, 146, 64, 165, 235, 85, 211, 138, 243, 51, 136, 134, 4, 246, 181, 240, 71, 57, 23, 193, 64,
    43, 128, 9, 157, 202, 92, 188, 32, 112, 117, 192,
];

// The block with a counter.
fn show_block(rt: &HostRuntime, name: &str, cipher: &ChaCha20, counter: u32) -> anyhow::Result<()> {
    show(rt, name, &cipher.block(counter))
}

// A text that is turned.
fn show_turned(
    rt: &HostRuntime,
    name: &str,
    cipher: &ChaCha20,
    counter: u32,
    text: &[u8],
) -> anyhow::Result<()> {
    let mut copy = text.to_vec(rt.alloc())?;
    cipher
        .turn::<_, Lanes>(counter, copy.as_mut_slice())
        .map_err(|_| anyhow!("a vector is refused"))?;
    show(rt, name, copy.as_slice())
}

pub fn run(rt: &HostRuntime) -> anyhow::Result<()> {
    let count = ChaCha20 {
        key: COUNT,
        nonce: [0, 0, 0, 9, 0, 0, 0, 74, 0, 0, 0, 0],
    };
    show_block(rt, "RFC 8439 2.3.2", &count, 1)?;
    let text =
        b"Ladies and Gentlemen of the class of '99: If I could offer you only one tip for the future, sunscreen would be it.";
    let count = ChaCha20 {
        nonce: [0, 0, 0, 0, 0, 0, 0, 74, 0, 0, 0, 0],
        ..count
    };
    show_turned(rt, "RFC 8439 2.4.2", &count, 1, text)?;
    let zeros = ChaCha20 {
        key: [0; 32],
        nonce: NONE,
    };
    show_block(rt, "RFC 8439 A.1 1", &zeros, 0)?;
    show_block(rt, "RFC 8439 A.1 2", &zeros, 1)?;
    show_block(rt, "RFC 8439 A.1 3", &ChaCha20 { key: ONE, ..zeros }, 1)?;
    show_block(rt, "RFC 8439 A.1 4", &ChaCha20 { key: HIGH, ..zeros }, 2)?;
    show_block(
        rt,
        "RFC 8439 A.1 5",
        &ChaCha20 {
            nonce: TWO,
            ..zeros
        },
        0,
    )?;
    show_turned(rt, "RFC 8439 A.2 1", &zeros, 0, &[0; 64])?;
    let ietf =
        b"Any submission to the IETF intended by the Contributor for publication as all or part of an IETF Internet-Draft or RFC and any statement made within the context of an IETF activity is considered an \"IETF Contribution\". Such statements include oral statements in IETF sessions, as well as written and electronic communications made at any time or place, which are addressed to";
    show_turned(
        rt,
        "RFC 8439 A.2 2",
        &ChaCha20 {
            key: ONE,
            nonce: TWO,
        },
        1,
        ietf,
    )?;
    let poem =
        b"'Twas brillig, and the slithy toves\nDid gyre and gimble in the wabe:\nAll mimsy were the borogoves,\nAnd the mome raths outgrabe.";
    show_turned(
        rt,
        "RFC 8439 A.2 3",
        &ChaCha20 {
            key: JABBER,
            nonce: TWO,
        },
        42,
        poem,
    )
}
