// A replay window: which numbers of a session came, as in RFC 4303, section 3.4.3, kept in a ring of words as in RFC 6479.
// The numbers of a block of 64 have their bits in one word: the block's, modulo the words of the ring. Numbers go up to 2^64 - 1, and nothing wraps.
#![tactic(auto)]

ghost use Rattle.std.specs.Prelude.{◌≡◌, ℕ, List, [], ◌∷◌};
ghost use Rattle.gates.specs.Talk.{larger};
ghost use Rattle.window.specs.Edges.{Edges};
ghost use Rattle.window.specs.Heard.{empty_window, look_bits, after_bits, too_old, place, bit_of, is_marked, marked, passed, raised, noted, blank_at, verdict_of, Stands, AsInTalks};
ghost use Rattle.window.specs.declared.state.Verdict.TheVariants.{Fresh, TooOld};

pub mod state;

use self::state::{SPAN, Verdict, WORD_BITS, WORDS, Window};

impl Window {
    /// The window before any number came.
    pub fn new() -> Window
        ensures bits { result ≡ empty_window }
        ensures list { Stands result 0 [] }
    {
        Window::blank(0)
    }

    /// What the window says of a number: that it is too old, that it came, or that it may come. It changes nothing.
    pub fn look(self, n: u64) -> Verdict
        ensures bits { result ≡ look_bits self n }
        ensures list { (top : ℕ) (heard : List ℕ) → Stands self top heard → result ≡ verdict_of top heard n }
    {
        if self.is_old(n) {
            return Verdict::TooOld;
        }
        if n > self.top {
            return Verdict::Fresh;
        }
        if is_marked(self.ring, n) {
            Verdict::Came
        } else {
            Verdict::Fresh
        }
    }

    /// The window after a number came, its highest raised where the number is above it. A number that is too old leaves it as it was.
    pub fn after(self, n: u64) -> Window
        ensures bits { result ≡ after_bits self n }
        ensures list { (top : ℕ) (heard : List ℕ) → Stands self top heard → verdict_of top heard n ≡ Fresh → Stands result (larger top n) (n ∷ heard) }
        ensures old { look_bits self n ≡ TooOld → result ≡ self }
    {
        if self.is_old(n) {
            return self;
        }
        self.note(n)
    }

    // A window in which no number came, its highest number as given.
    fn blank(top: u64) -> Window
        ensures bits { result ≡ blank_at top }
        ensures list { Stands result top [] }
    {
        Window {
            top,
            ring: [0; WORDS],
        }
    }

    // The window after a number came that is not too old.
    fn note(self, n: u64) -> Window
        ensures bits { result ≡ noted n (raised n self) }
        ensures list { (top : ℕ) (heard : List ℕ) → Stands self top heard → verdict_of top heard n ≡ Fresh → Stands result (larger top n) (n ∷ heard) }
    {
        let raised = self.raise(n);
        Window {
            ring: mark(raised.ring, n),
            ..raised
        }
    }

    // Whether a number can't come, whatever did: it is 0, or too far below the highest.
    fn is_old(self, n: u64) -> bool
        ensures { result ≡ too_old self.top n }
    {
        if n > self.top {
            return false;
        }
        n == 0 || self.top - n >= SPAN
    }

    // The window with a highest number of at least n, its bit not yet set.
    fn raise(self, n: u64) -> Window
        ensures { result ≡ raised n self }
    {
        if n > self.top {
            Window {
                top: n,
                ring: clear(self.ring, self.top, n),
            }
        } else {
            self
        }
    }
}

// The word of the ring that has a number's bit.
fn word_of(n: u64) -> usize
    ensures { result ≡ place n }
{
    (n / WORD_BITS % WORDS as u64) as usize
}

// Whether a number's bit is set.
fn is_marked(ring: [u64; WORDS], n: u64) -> bool
    ensures { result ≡ is_marked n ring }
{
    (ring[word_of(n)] >> (n % WORD_BITS)) & 1 == 1
}

// The ring with a number's bit set.
fn mark(mut ring: [u64; WORDS], n: u64) -> [u64; WORDS]
    ensures { result ≡ marked n ring }
{
    ring[word_of(n)] |= bit_of(n);
    ring
}

// The bit that a number has in its word.
fn bit_of(n: u64) -> u64
    ensures { result ≡ bit_of n }
{
    1 << (n % WORD_BITS)
}

// The ring with the words cleared that are passed over when the highest number grows from `top` to `n`: at most all.
// The loop is left by a label, a form of this project: it ends early where few words are passed over.
#[tactic(auto, using(crate::proofs::Ring::cleared_more), unfolding(crate::specs::Heard::cleared))]
fn clear(mut ring: [u64; WORDS], top: u64, n: u64) -> [u64; WORDS]
    ensures { result ≡ passed top n ring }
{
    let first = top / WORD_BITS + 1;
    let last = n / WORD_BITS;
    'clear: for step in 0..WORDS as u64 {
        let block = first + step;
        if block > last {
            break 'clear;
        }
        ring[(block % WORDS as u64) as usize] = 0;
    }
    ring
}

/// A theorem: the verdict on a number is that of a talk of the abstract protocol.
pub fn verdicts_are_as_in_talks()
    ensures { AsInTalks }
{}

/// A theorem: the edges of the span and of the ring, each by its name.
#[tactic(auto, using(crate::proofs::Edges::edges))]
pub fn edges_hold()
    ensures { Edges }
{}
