// Addresses written A.B.C.D and prefixes written A.B.C.D/N. Assumes nothing.
ghost use Rattle.std.specs.Prelude.{◌≡◌, ◌≤◌, IfSome};
ghost use Rattle.addresses.specs.Dotted.{address_read, prefix_read};
ghost use Rattle.addresses.specs.Written.{TextsGiveBack};

use crate::marks::cut_where;
use crate::numbers::read_number;

/// A prefix as it is written: an address, and how many bits of it all addresses begin with.
/// Whether the other bits are 0 is for its reader to say.
#[derive(Clone, Copy, Debug, PartialEq, Eq)]
pub struct Prefix {
    pub address: u32,
    pub bits: u8,
}

/// The address that a text is, written A.B.C.D with four numbers of 0 to 255, or none. It changes
/// nothing.
#[tactic(auto, using(crate::proofs::Parts::rest_end, crate::proofs::Parts::rest_over, crate::proofs::Parts::rest_short, crate::proofs::Parts::rest_bad, crate::proofs::Parts::rest_more, crate::proofs::Parts::room, crate::proofs::Parts::room_more, crate::proofs::Parts::limit_is))]
pub fn read_address(text: &[u8]) -> Option<u32>
    ensures { result ≡ address_read text.now }
{
    let mut parts = text.split(|byte| *byte == b'.');
    let mut address = 0u32;
    // Four parts, each with the limit of a byte.
    for limit in [255; 4] {
        address = address * 256 + read_number(parts.next()?, limit)?;
    }
    match parts.next() {
        None => Some(address),
        Some(_) => None,
    }
}

/// The prefix that a text is, written A.B.C.D/N with N of 0 to 32, or none. It changes nothing.
#[tactic(auto, unfolding(crate::specs::Dotted::prefix_read))]
pub fn read_prefix(text: &[u8]) -> Option<Prefix>
    ensures value { result ≡ prefix_read text.now }
    ensures within { IfSome result (λ p. p.bits ≤ 32) }
{
    let (front, behind) = cut_where(text, |byte| *byte == b'/');
    let behind = behind?;
    let address = read_address(front)?;
    // `as` loses nothing: it is at most 32.
    let bits = read_number(behind, 32)? as u8;
    Some(Prefix { address, bits })
}

/// States that a number, an address and a prefix that is written is read back, and that each text
/// that is read is the one that is written of it. It does nothing.
pub fn texts_give_back()
    ensures { TextsGiveBack }
{}
