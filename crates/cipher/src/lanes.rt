// The form by lanes: five blocks are made at once. Four of them have a lane each of every vector of
// the machine, so that to slant their rows moves nothing; the fifth, in scalar form, takes little
// more time, since it uses what the vectors leave idle.
ghost use Rattle.std.specs.Prelude.{◌≡◌, [], ◌∷◌};
ghost use Rattle.cipher.specs.Lanes.{counted, block_after};

use crate::blocks::bytes;
use crate::rounds::{State, rounds};
use crate::rows::Rows;
use std::simd::prelude::*;

// The state s with its block counter n further on.
#[tactic(auto, unfolding(crate::specs::ChaCha20::add32))]
fn counted(s: &[u32; 16], n: u32) -> [u32; 16]
    ensures { result ≡ counted s.now n }
{
    let mut r = *s;
    r[12] = r[12].wrapping_add(n);
    r
}

// The blocks of a state and of those with the four block counters after its own.
pub(crate) fn five_blocks(s: &[u32; 16]) -> [[u8; 64]; 5]
    ensures { result ≡ block_after s.now 0 ∷ block_after s.now 1 ∷ block_after s.now 2 ∷ block_after s.now 3 ∷ block_after s.now 4 ∷ [] }
{
    let start = (Rows::start(s), counted(s, 4));
    let (rows, fifth) = rounds(start).plus(start);
    let (p, q, r, t) = rows.states();
    [
        bytes(p),
        bytes(q),
        bytes(r),
        bytes(t),
        bytes(u32x16::from_array(fifth)),
    ]
}
