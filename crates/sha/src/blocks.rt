// One block of SHA-256 (RFC 6234, 6.2): the message schedule, the rounds, and the hash value after them.
ghost use Rattle.std.specs.Prelude.{◌≡◌, ◌<◌, ◌≤◌, length, set, fold, zip};
ghost use Rattle.sha.specs.Sha256.{next_word, block_words, extended, temp1 as temp1-of, temp2 as temp2-of, round as round-of, sums as sums-of, compressed};

use crate::words::{big_sigma, ch, maj, small_sigma};
use std::array;

// K0 to K63.
const K: [u32; 64] = [
    0x428a2f98, 0x71374491, 0xb5c0fbcf, 0xe9b5dba5, 0x3956c25b, 0x59f111f1, 0x923f82a4, 0xab1c5ed5,
    0xd807aa98, 0x12835b01, 0x243185be, 0x550c7dc3, 0x72be5d74, 0x80deb1fe, 0x9bdc06a7, 0xc19bf174,
    0xe49b69c1, 0xefbe4786, 0x0fc19dc6, 0x240ca1cc, 0x2de92c6f, 0x4a7484aa, 0x5cb0a9dc, 0x76f988da,
    0x983e5152, 0xa831c66d, 0xb00327c8, 0xbf597fc7, 0xc6e00bf3, 0xd5a79147, 0x06ca6351, 0x14292967,
    0x27b70a85, 0x2e1b2138, 0x4d2c6dfc, 0x53380d13, 0x650a7354, 0x766a0abb, 0x81c2c92e, 0x92722c85,
    0xa2bfe8a1, 0xa81a664b, 0xc24b8b70, 0xc76c51a3, 0xd192e819, 0xd6990624, 0xf40e3585, 0x106aa070,
    0x19a4c116, 0x1e376c08, 0x2748774c, 0x34b0bcb5, 0x391c0cb3, 0x4ed8aa4a, 0x5b9cca4f, 0x682e6ff3,
    0x748f82ee, 0x78a5636f, 0x84c87814, 0x8cc70208, 0x90befffa, 0xa4506ceb, 0xbef9a3f7, 0xc67178f2,
];

// The sum of the four words that Wt is made of.
#[tactic(auto, unfolding(crate::specs::Sha256::next_word, crate::specs::Sha256::add32, crate::specs::Sha256::ssig0, crate::specs::Sha256::ssig1))]
fn schedule_word(w: &[u32; 64], t: usize) -> u32
    requires { (16 ≤ t) × (t < 64) }
    ensures { set w.now t result ≡ next_word t w.now }
{
    small_sigma::<17, 19, 10>(w[t - 2])
        .wrapping_add(w[t - 7])
        .wrapping_add(small_sigma::<7, 18, 3>(w[t - 15]))
        .wrapping_add(w[t - 16])
}

// The first sixteen words of the message schedule.
#[tactic(auto, using(crate::proofs::Turns::word_loaded), unfolding(crate::specs::Sha256::block_words))]
fn load(block: &[u8]) -> [u32; 64]
    requires { length block.now ≡ 64 }
    ensures { result ≡ block_words 16 block.now }
{
    let mut w = [0; 64];
    // By the word's number: of what is written through a `zip` of `iter_mut` nothing is known.
    for (t, bytes) in block.as_chunks().0.iter().enumerate() {
        w[t] = u32::from_be_bytes(*bytes);
    }
    w
}

// The rest of the message schedule, each word from those before it. The inner loop has a count that
// the compiler knows, so it takes eight words at once.
#[tactic(auto, using(crate::proofs::Rounds::words_extended))]
fn extend(w: &mut [u32; 64])
    ensures { w.new ≡ extended 48 w.old }
{
    for n in 2..8 {
        for t in 8 * n..8 * n + 8 {
            w[t] = schedule_word(w, t);
        }
    }
}

// T1.
#[tactic(auto, unfolding(crate::specs::Sha256::temp1, crate::specs::Sha256::add32, crate::specs::Sha256::bsig1))]
fn temp1(v: &[u32; 8], k: u32, w: u32) -> u32
    ensures { result ≡ temp1-of v.now k w }
{
    v[7].wrapping_add(big_sigma::<6, 11, 25>(v[4]))
        .wrapping_add(ch(v[4], v[5], v[6]))
        .wrapping_add(k)
        .wrapping_add(w)
}

// T2.
#[tactic(auto, unfolding(crate::specs::Sha256::temp2, crate::specs::Sha256::add32, crate::specs::Sha256::bsig0))]
fn temp2(v: &[u32; 8]) -> u32
    ensures { result ≡ temp2-of v.now }
{
    big_sigma::<2, 13, 22>(v[0]).wrapping_add(maj(v[0], v[1], v[2]))
}

// The working variables after one round.
#[tactic(auto, unfolding(crate::specs::Sha256::round, crate::specs::Sha256::add32))]
fn round(v: [u32; 8], k: u32, w: u32) -> [u32; 8]
    ensures { result ≡ round-of v k w }
{
    let t1 = temp1(&v, k, w);
    let t2 = temp2(&v);
    let [a, b, c, d, e, f, g, _h] = v;
    [t1.wrapping_add(t2), a, b, c, d.wrapping_add(t1), e, f, g]
}

// Eight rounds, by their constants and words.
fn eight_rounds(v: [u32; 8], k: &[u32; 8], w: &[u32; 8]) -> [u32; 8]
    ensures { result ≡ fold (λ v p. round-of v p.0 p.1) v (zip k.now w.now) }
{
    k.iter().zip(w).fold(
        v,
        |v, (k, w)|
            ensures { result ≡ round-of v k.entry.now w.entry.now }
        { round(v, *k, *w) },
    )
}

// All rounds, by their constants and words, eight at once.
fn rounds(v: [u32; 8], k: &[u32; 64], w: &[u32; 64]) -> [u32; 8]
    ensures { result ≡ fold (λ v p. round-of v p.0 p.1) v (zip k.now w.now) }
{
    k.as_chunks().0.iter().zip(w.as_chunks().0).fold(
        v,
        |v, (k, w)|
            ensures { result ≡ fold (λ v p. round-of v p.0 p.1) v (zip k.entry.now w.entry.now) }
        { eight_rounds(v, k, w) },
    )
}

// The working variables added to the hash value.
fn sums(h: &[u32; 8], v: &[u32; 8]) -> [u32; 8]
    ensures { result ≡ sums-of h.now v.now }
{
    array::from_fn(|i| v[i].wrapping_add(h[i]))
}

/// The hash value after one more block of 64 bytes. It is never refused. The block is a slice, so that
/// 64 bytes of a longer text are taken as they stand.
#[tactic(auto, using(crate::proofs::Rounds::rounds_all), unfolding(crate::specs::Sha256::compressed, crate::specs::Sha256::schedule, crate::specs::Sha256::round_constants))]
pub fn compress(h: &mut [u32; 8], block: &[u8])
    requires { length block.now ≡ 64 }
    ensures { h.new ≡ compressed h.old block.now }
{
    let mut w = load(block);
    extend(&mut w);
    let v = rounds(*h, &K, &w);
    *h = sums(h, &v);
}
