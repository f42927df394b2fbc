// Four states side by side, by rows: lane 4 w + k of a row is its w-th word in the k-th state.
ghost use Rattle.std.specs.Prelude.{◌≡◌, slice_index};
ghost use Rattle.cipher.specs.Lanes.{state_of, row_at, start_rows, quarter_rows, slant_rows, unslant_rows, sum_rows};

use crate::quarter::quarter_round;
use crate::rounds::State;
use std::simd::prelude::*;

#[derive(Clone, Copy)]
pub(crate) struct Rows {
    a: u32x16,
    b: u32x16,
    c: u32x16,
    d: u32x16,
}

impl State for Rows {
    ghost inner = { λ r. unslant_rows (quarter_rows (slant_rows (quarter_rows r))) };

    ghost sum = { sum_rows };

    fn inner(&mut self) {
        *self = self.quarter_rows().slant().quarter_rows().unslant();
    }

    #[tactic(auto, unfolding(crate::specs::ChaCha20::add32, crate::specs::Lanes::line_sum, crate::specs::Lanes::sum_rows))]
    fn plus(self, start: Rows) -> Rows {
        Rows {
            a: self.a + start.a,
            b: self.b + start.b,
            c: self.c + start.c,
            d: self.d + start.d,
        }
    }
}

impl Rows {
    // Four states that are s, but whose block counters are its own and the three after it.
    #[tactic(auto, unfolding(crate::specs::ChaCha20::add32, crate::specs::Lanes::row_at, crate::specs::Lanes::start_rows))]
    pub(crate) fn start(s: &[u32; 16]) -> Rows
        ensures { result ≡ start_rows s.now (slice_index s.now 12) }
    {
        let counters = u32x4::splat(s[12]) + u32x4::from_array([0, 1, 2, 3]);
        let nonce = u32x4::from_array([s[13], s[14], s[15], 0]);
        Rows {
            a: row([s[0], s[1], s[2], s[3]]),
            b: row([s[4], s[5], s[6], s[7]]),
            c: row([s[8], s[9], s[10], s[11]]),
            d: counters.shuffle(nonce, [0, 1, 2, 3, 4, 4, 4, 4, 5, 5, 5, 5, 6, 6, 6, 6]),
        }
    }

    // The quarter round of each column of the states.
    #[tactic(auto, unfolding(crate::specs::Rounds::quarter, crate::specs::Lanes::quarter_rows))]
    fn quarter_rows(self) -> Rows
        ensures { result ≡ quarter_rows self }
    {
        let (a, b, c, d) = quarter_round(self.a, self.b, self.c, self.d);
        Rows { a, b, c, d }
    }

    // The diagonals become columns. A rotation takes a literal and no const parameter, so this and
    // the next are two functions.
    #[tactic(auto, unfolding(crate::specs::Lanes::slant_rows, crate::specs::Lanes::lanes_at))]
    fn slant(self) -> Rows
        ensures { result ≡ slant_rows self }
    {
        Rows {
            a: self.a,
            b: self.b.rotate_elements_left::<4>(),
            c: self.c.rotate_elements_left::<8>(),
            d: self.d.rotate_elements_left::<12>(),
        }
    }

    // The columns become diagonals again.
    #[tactic(auto, unfolding(crate::specs::Lanes::unslant_rows, crate::specs::Lanes::lanes_at))]
    fn unslant(self) -> Rows
        ensures { result ≡ unslant_rows self }
    {
        Rows {
            a: self.a,
            b: self.b.rotate_elements_right::<4>(),
            c: self.c.rotate_elements_right::<8>(),
            d: self.d.rotate_elements_right::<12>(),
        }
    }

    // The four states, one after the other.
    pub(crate) fn states(self) -> (u32x16, u32x16, u32x16, u32x16)
        ensures { (result.0 ≡ state_of 0 self) × (result.1 ≡ state_of 1 self) × (result.2 ≡ state_of 2 self) × (result.3 ≡ state_of 3 self) }
    {
        let (ab_even, ab_odd) = self.a.deinterleave(self.b);
        let (cd_even, cd_odd) = self.c.deinterleave(self.d);
        let (first, third) = ab_even.deinterleave(cd_even);
        let (second, fourth) = ab_odd.deinterleave(cd_odd);
        (first, second, third, fourth)
    }
}

// Four words, as a row of four states that have them.
#[tactic(auto, unfolding(crate::specs::Lanes::row_at))]
fn row(words: [u32; 4]) -> u32x16
    ensures { result ≡ row_at 0 words }
{
    u32x4::from_array(words).swizzle([0, 0, 0, 0, 1, 1, 1, 1, 2, 2, 2, 2, 3, 3, 3, 3])
}
