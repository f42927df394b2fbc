// Bytes as hex digits: two for each byte, the high half first. Digits are read in either case and
// written in lower case. Assumes nothing.
ghost use Rattle.std.specs.Prelude.{◌≡◌, ◌+◌, ◌<◌, drop, IfOk};
ghost use Rattle.lines.specs.Hex.{digit_value, digit_byte, encoded, decoded, text_of, Decodes, DecodesWord, GivesBack, IsCut};

use crate::faults::{LineFault, NoHex};
use std::alloc::{AllocError, Global};

// The value of a hex digit in either case, or none for any other byte.
fn digit_value(digit: u8) -> Option<u8>
    ensures { result ≡ digit_value digit }
{
    match digit {
        b'0'..=b'9' => Some(digit - b'0'),
        b'A'..=b'F' => Some(digit - b'A' + 10),
        b'a'..=b'f' => Some(digit - b'a' + 10),
        _ => None,
    }
}

// The lower-case digit of a value below 16.
fn digit_byte(value: u8) -> u8
    requires { value < 16 }
    ensures { result ≡ digit_byte value }
{
    if value < 10 {
        b'0' + value
    } else {
        b'a' + (value - 10)
    }
}

/// The bytes as hex digits in lower case, two for each. Refuses only for want of memory.
#[tactic(auto, using(crate::proofs::Digits::byte_written))]
pub fn encode(heap: Global, bytes: &[u8]) -> Result<Vec<u8>, AllocError>
    ensures { IfOk result (λ v. v.items ≡ encoded bytes.now) }
{
    let mut text = Vec::new(heap);
    for b in bytes {
        text.push(digit_byte(*b / 16))?;
        text.push(digit_byte(*b % 16))?;
    }
    Ok(text)
}

// What stands on a line from `start` on, two characters each, and the last one if it has no second.
fn pairs_from(line: &[u8], start: usize) -> (&[[u8; 2]], &[u8])
    ensures { IsCut line.now start result.0.now result.1.now }
{
    line.get(start..).unwrap_or(&[]).as_chunks()
}

/// The bytes that the hex digits of a line from `start` on stand for, in either case. Refuses the
/// first character that is no hex digit, with its column, and then a digit that has no second
/// one. It changes nothing.
#[tactic(auto, using(crate::proofs::Digits::bad_high, crate::proofs::Digits::no_low, crate::proofs::Pairs::begun, crate::proofs::Pairs::bad_first, crate::proofs::Pairs::bad_second, crate::proofs::Pairs::pair_done))]
pub fn decode(heap: Global, line: &[u8], start: usize) -> Result<Vec<u8>, LineFault>
    ensures { Decodes (decoded (start + 1) (drop start line.now)) result }
{
    let (pairs, single) = pairs_from(line, start);
    let mut bytes = Vec::new(heap);
    for (i, [high, low]) in pairs.iter().enumerate() {
        let column = start + 2 * i + 1;
        let high = digit_value(*high).ok_or(LineFault::NotHex(column))?;
        let low = digit_value(*low).ok_or(LineFault::NotHex(column + 1))?;
        bytes.push(high * 16 + low)?;
    }
    let [digit] = single else {
        return Ok(bytes);
    };
    digit_value(*digit).ok_or(LineFault::NotHex(line.len()))?;
    Err(LineFault::OddHex)
}

/// The bytes that a word of hex digits stands for, in either case; none where there is no word.
pub fn decode_word(heap: Global, word: Option<&str>) -> Result<Vec<u8>, NoHex>
    ensures { DecodesWord (decoded 1 (text_of word.entry)) result }
{
    decode(heap, word.unwrap_or("").as_bytes(), 0).map_err(NoHex)
}

/// States that decoding what was encoded gives it back. It does nothing.
pub fn decode_gives_back()
    ensures { GivesBack }
{}
