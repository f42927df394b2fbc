// The Internet checksum of RFC 1071. Assumes nothing.
ghost use Rattle.std.specs.Prelude.{◌≡◌};
ghost use Rattle.packet.specs.Sums.{ones_add, ones_sum, RightSum};

// Two 16-bit numbers added with the carry brought round to the end.
fn ones_add(x: u16, y: u16) -> u16
    ensures { result ≡ ones_add x y }
{
    let sum = u32::from(x) + u32::from(y);
    (sum % 0x1_0000 + sum / 0x1_0000) as u16
}

/// The ones' complement sum of the 16-bit numbers that the bytes are, in pairs, the high byte
/// first; a last byte without another counts as the high one. It changes nothing.
#[tactic(auto, using(crate::proofs::Adding::pair_added, crate::proofs::Adding::last_added, crate::proofs::Adding::none_left))]
pub fn ones_sum(bytes: &[u8]) -> u16
    ensures { result ≡ ones_sum 0 bytes.now }
{
    let (pairs, single) = bytes.as_chunks::<2>();
    let mut sum = 0u16;
    for [high, low] in pairs {
        sum = ones_add(sum, u16::from_be_bytes([*high, *low]));
    }
    let [last] = single else {
        return sum;
    };
    ones_add(sum, u16::from_be_bytes([*last, 0]))
}

/// States what a right sum is: that of all 16-bit numbers, the sum field among them, is all ones
/// exactly where the field is what RFC 791 has the sender write, or all ones in place of 0. It
/// does nothing.
#[tactic(auto, using(crate::proofs::Adding::right_sum))]
pub fn right_sum_stated()
    ensures { RightSum }
{}
