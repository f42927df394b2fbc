// Twenty rounds, of one state or of many side by side.
ghost use Rattle.std.specs.Prelude.{◌≡◌, ◌<◌};
ghost use Rattle.std.specs.Fn.{iterate};
ghost use Rattle.std.specs.Simd.Lanes.{zip2};
ghost use Rattle.cipher.specs.ChaCha20.{add32, column_round, diagonal_round, inner_block};
ghost use Rattle.cipher.specs.Rounds.{quarter_at};

use crate::quarter::quarter_round;

// A state, or states that are worked on together.
pub(crate) trait State: Copy {
    ghost inner: { Self → Self };

    ghost sum: { Self → Self → Self };

    // A round on the columns, and then one on the diagonals.
    fn inner(&mut self)
        ensures { self.new ≡ inner self.old };

    // The sums, word by word.
    fn plus(self, start: Self) -> Self
        ensures { result ≡ sum self start };
}

impl State for [u32; 16] {
    ghost inner = { inner_block };

    ghost sum = { zip2 add32 };

    // LLVM takes it for too large to inline.
    #[tactic(auto, unfolding(crate::specs::ChaCha20::inner_block))]
    #[inline(always)]
    fn inner(&mut self) {
        column_round(self);
        diagonal_round(self);
    }

    // By index, as `xor_onto`: of what is written through a `zip` of `iter_mut` nothing is known.
    fn plus(self, start: [u32; 16]) -> [u32; 16] {
        let mut sum = self;
        for (i, word) in sum.iter_mut().enumerate() {
            *word = word.wrapping_add(start[i]);
        }
        sum
    }
}

// QUARTERROUND(a, b, c, d): the quarter round on the words at four places.
#[tactic(auto, unfolding(crate::specs::Rounds::quarter_at))]
fn quarter_at(s: &mut [u32; 16], a: usize, b: usize, c: usize, d: usize)
    requires { (a < 16) × ((b < 16) × ((c < 16) × (d < 16))) }
    ensures { s.new ≡ quarter_at a b c d s.old }
{
    let (p, q, r, t) = quarter_round(s[a], s[b], s[c], s[d]);
    s[a] = p;
    s[b] = q;
    s[c] = r;
    s[d] = t;
}

// A quarter round on each column.
#[tactic(auto, using(crate::proofs::States::column_quarters))]
fn column_round(s: &mut [u32; 16])
    ensures { s.new ≡ column_round s.old }
{
    quarter_at(s, 0, 4, 8, 12);
    quarter_at(s, 1, 5, 9, 13);
    quarter_at(s, 2, 6, 10, 14);
    quarter_at(s, 3, 7, 11, 15);
}

// A quarter round on each diagonal.
#[tactic(auto, using(crate::proofs::States::diagonal_quarters))]
fn diagonal_round(s: &mut [u32; 16])
    ensures { s.new ≡ diagonal_round s.old }
{
    quarter_at(s, 0, 5, 10, 15);
    quarter_at(s, 1, 6, 11, 12);
    quarter_at(s, 2, 7, 8, 13);
    quarter_at(s, 3, 4, 9, 14);
}

impl<A: State, B: State> State for (A, B) {
    ghost inner = { λ s. (A.inner s.0, B.inner s.1) };

    ghost sum = { λ s t. (A.sum s.0 t.0, B.sum s.1 t.1) };

    fn inner(&mut self) {
        self.0.inner();
        self.1.inner();
    }

    fn plus(self, start: (A, B)) -> (A, B) {
        (self.0.plus(start.0), self.1.plus(start.1))
    }
}

// Twenty rounds, two in each turn.
#[tactic(auto, using(crate::proofs::Iterates::iterate_more))]
pub(crate) fn rounds<S: State>(mut state: S) -> S
    ensures { result ≡ iterate S.inner 10 state }
{
    for _i in 0..10u32 {
        state.inner();
    }
    state
}
