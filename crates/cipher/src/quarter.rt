// The quarter round, on four words of one state, or on four rows of words of many.
ghost use Rattle.std.specs.Prelude.{◌≡◌, ℕ, ◌<◌, bit_xor};
ghost use Rattle.cipher.specs.ChaCha20.{add32, turn_left};
ghost use Rattle.cipher.specs.Lanes.{line_sum, line_turn};
ghost use Rattle.cipher.specs.Rounds.{quarter};

use std::simd::prelude::*;

// What the quarter round does with words.
pub(crate) trait Word: Copy {
    ghost sum: { Self → Self → Self };

    ghost turn: { ℕ → Self → Self → Self };

    // `a += b`
    fn plus(self, b: Self) -> Self
        ensures { result ≡ sum self b };

    // `d ^= a; d <<<= n`
    fn turned(self, a: Self, n: u32) -> Self
        requires { (0 < n) × (n < 32) }
        ensures { result ≡ turn n self a };
}

impl Word for u32 {
    ghost sum = { add32 };

    ghost turn = { λ n d a. turn_left n (bit_xor d a) };

    #[tactic(auto, unfolding(crate::specs::ChaCha20::add32))]
    fn plus(self, b: u32) -> u32 {
        self.wrapping_add(b)
    }

    #[tactic(auto, using(crate::proofs::Words::turned))]
    fn turned(self, a: u32, n: u32) -> u32 {
        (self ^ a).rotate_left(n)
    }
}

impl Word for u32x16 {
    ghost sum = { line_sum };

    ghost turn = { line_turn };

    #[tactic(auto, unfolding(crate::specs::ChaCha20::add32, crate::specs::Lanes::line_sum))]
    fn plus(self, b: u32x16) -> u32x16 {
        self + b
    }

    fn turned(self, a: u32x16, n: u32) -> u32x16 {
        let x = self ^ a;
        (x << u32x16::splat(n)) | (x >> u32x16::splat(32 - n))
    }
}

// One line of the quarter round, as a and d.
fn line<W: Word>(a: W, b: W, d: W, n: u32) -> (W, W)
    requires { (0 < n) × (n < 32) }
    ensures { result ≡ (W.sum a b, W.turn n d (W.sum a b)) }
{
    let sum = a.plus(b);
    (sum, d.turned(sum, n))
}

// The quarter round.
#[tactic(auto, unfolding(crate::specs::Rounds::quarter))]
pub(crate) fn quarter_round<W: Word>(a: W, b: W, c: W, d: W) -> (W, W, W, W)
    ensures { result ≡ quarter W.sum W.turn a b c d }
{
    let (a, d) = line(a, b, d, 16);
    let (c, b) = line(c, d, b, 12);
    let (a, d) = line(a, b, d, 8);
    let (c, b) = line(c, d, b, 7);
    (a, b, c, d)
}
