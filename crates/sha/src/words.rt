// The functions of RFC 6234, 5.1, on 32-bit words.
ghost use Rattle.std.specs.Prelude.{◌≡◌, ◌<◌, bit_xor};
ghost use Rattle.sha.specs.Sha256.{ch as ch-of, maj as maj-of, rotr, shr};

#[tactic(auto, unfolding(crate::specs::Sha256::ch, crate::specs::Sha256::not32))]
pub(crate) fn ch(x: u32, y: u32, z: u32) -> u32
    ensures { result ≡ ch-of x y z }
{
    (x & y) ^ (!x & z)
}

#[tactic(auto, unfolding(crate::specs::Sha256::maj))]
pub(crate) fn maj(x: u32, y: u32, z: u32) -> u32
    ensures { result ≡ maj-of x y z }
{
    (x & y) ^ (x & z) ^ (y & z)
}

// BSIG0 and BSIG1: a word turned right by L, M and N bits.
#[tactic(auto, using(crate::proofs::Turns::turned))]
pub(crate) fn big_sigma<const L: u32, const M: u32, const N: u32>(x: u32) -> u32
    requires below { (L < 32) × (M < 32) × (N < 32) }
    requires turned { (0 < L) × (0 < M) × (0 < N) }
    ensures { result ≡ bit_xor (bit_xor (rotr L x) (rotr M x)) (rotr N x) }
{
    x.rotate_right(L) ^ x.rotate_right(M) ^ x.rotate_right(N)
}

// SSIG0 and SSIG1: a word turned right by L and M bits, and shifted right by N.
#[tactic(auto, using(crate::proofs::Turns::turned), unfolding(crate::specs::Sha256::shr))]
pub(crate) fn small_sigma<const L: u32, const M: u32, const N: u32>(x: u32) -> u32
    requires below { (L < 32) × (M < 32) × (N < 32) }
    requires turned { (0 < L) × (0 < M) }
    ensures { result ≡ bit_xor (bit_xor (rotr L x) (rotr M x)) (shr N x) }
{
    x.rotate_right(L) ^ x.rotate_right(M) ^ (x >> N)
}
