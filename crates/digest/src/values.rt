// Hash values: the initial one, one after a block, and one as bytes.
ghost use Rattle.std.specs.Prelude.{◌≡◌};
ghost use Rattle.digest.specs.Sha256.{initial_hash, compressed, serialized};

use sha::compress;

// The initial hash value.
#[tactic(auto, unfolding(crate::specs::Sha256::initial_hash))]
pub(crate) fn initial() -> [u32; 8]
    ensures { result ≡ initial_hash }
{
    [
        0x6a09e667, 0xbb67ae85, 0x3c6ef372, 0xa54ff53a, 0x510e527f, 0x9b05688c, 0x1f83d9ab,
        0x5be0cd19,
    ]
}

// The hash value after one more block.
pub(crate) fn hashed(h: [u32; 8], block: &[u8; 64]) -> [u32; 8]
    ensures { result ≡ compressed h block.now }
{
    let mut after = h;
    compress(&mut after, block);
    after
}

// The bytes of a hash value.
pub(crate) fn serialize(h: &[u32; 8]) -> [u8; 32]
    ensures { result ≡ serialized h.now }
{
    let mut out = [0; 32];
    out.copy_from_slice(h.map(u32::to_be_bytes).as_flattened());
    out
}
