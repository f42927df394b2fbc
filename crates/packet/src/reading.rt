// Reads the header of an IPv4 packet (RFC 791, section 3.1). Assumes nothing.
ghost use Rattle.std.specs.Prelude.{◌≡◌, ◌+◌, ◌≤◌, length, MatchResult};
ghost use Rattle.protocol.specs.declared.refusals.Refusal.TheVariants.{BadPacket};
ghost use Rattle.packet.specs.Packets.{IsPacket, is_packet, packet_in, source_in, destination_in, number4};

use crate::sums::ones_sum;
use protocol::Refusal;
use protocol::limits::MAX_PACKET;

// The version of IPv4, in the high half of the first byte; the low half is the header's length in
// words of 4 bytes.
const VERSION: u8 = 4;
// The shortest header: one without options.
const MIN_HEADER: usize = 20;
// Where the addresses stand.
const SOURCE: usize = 12;

const DESTINATION: usize = 16;
// What the 16-bit numbers of a header add up to, the sum field among them.
const ALL_ONES: u16 = 0xffff;

/// Whence a packet comes and where it is to go, as IPv4 addresses.
#[derive(Clone, Copy, Debug, PartialEq, Eq)]
pub struct Packet {
    pub source: u32,
    pub destination: u32,
}

// The address at a place of the header.
fn address(bytes: &[u8], at: usize) -> u32
    requires { at + 4 ≤ length bytes.now }
    ensures { result ≡ number4 bytes.now at }
{
    u32::from_be_bytes(*bytes[at..].first_chunk().unwrap())
}

// Whether the bytes are a packet that may pass.
#[tactic(auto, unfolding(crate::specs::Packets::is_packet))]
fn is_packet(bytes: &[u8]) -> bool
    ensures { result ≡ is_packet bytes.now }
{
    let [lead, _, high, low, ..] = bytes else {
        return false;
    };
    let header = usize::from(lead % 16) * 4;
    let total = usize::from(u16::from_be_bytes([*high, *low]));
    lead / 16 == VERSION
        && header >= MIN_HEADER
        && header <= bytes.len()
        && total == bytes.len()
        && total <= MAX_PACKET
        && ones_sum(&bytes[..header]) == ALL_ONES
}

/// The addresses of the IPv4 packet that the bytes are. Refuses all bytes that aren't one whole
/// packet of at most 1,280 bytes with a right header sum. It changes nothing.
pub fn read(bytes: &[u8]) -> Result<Packet, Refusal>
    ensures value { result ≡ packet_in bytes.now }
    ensures packets { MatchResult result (λ p. IsPacket bytes.now × (p.source ≡ source_in bytes.now) × (p.destination ≡ destination_in bytes.now)) (λ e. (e ≡ BadPacket) × (IsPacket bytes.now → ⊥)) }
{
    if !is_packet(bytes) {
        return Err(Refusal::BadPacket);
    }
    Ok(Packet {
        source: address(bytes, SOURCE),
        destination: address(bytes, DESTINATION),
    })
}
