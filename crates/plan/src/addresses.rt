// IPv4 addresses and prefixes as text. Assumes nothing.
use settings::Range;

// A number from 0 to 255, written without a sign, or none. Ipv4Addr's own reading takes no zeros
// in front, which a plan may have.
fn parse_byte(text: &str) -> Option<u8> {
    if text.starts_with('+') {
        return None;
    }
    text.parse().ok()
}

/// An address written A.B.C.D, or none.
pub fn parse_address(text: &str) -> Option<u32> {
    let mut parts = text.split('.');
    let mut bytes = [0u8; 4];
    for byte in &mut bytes {
        *byte = parts.next().and_then(parse_byte)?;
    }
    if parts.next().is_some() {
        return None;
    }
    Some(u32::from_be_bytes(bytes))
}

/// As many addresses as the prefix A.B.C.D/N has, from A.B.C.D on, or none. Whether they are a
/// whole prefix is for the plan to say.
pub fn parse_prefix(text: &str) -> Option<Range> {
    let (address, bits) = text.split_once('/')?;
    let first = parse_address(address)?;
    let bits = bits.parse::<u8>().ok()?;
    if bits > 32 {
        return None;
    }
    let size = 1u64 << (32 - bits);
    let last = u32::try_from(u64::from(first) + (size - 1)).ok()?;
    Some(Range { first, last })
}
