// A window's memory and its answers. No contract stands here, so that specs, of crates above too, can name these types.

/// How many numbers a word of the ring has bits for.
pub const WORD_BITS: u64 = 64;

/// How many words the ring has: those of the span, and one more, since the span's ends may lie inside words.
pub const WORDS: usize = 33;

/// How far below the highest number a number may still come.
pub const SPAN: u64 = (WORDS as u64 - 1) * WORD_BITS;

/// The numbers that came: the highest, and a bit for each number in the words up to it. Before any came the highest is 0, and no option: 0 is below all numbers.
#[derive(Clone, Copy)]
pub struct Window {
    pub(crate) top: u64,
    pub(crate) ring: [u64; WORDS],
}

/// What a window says of a number.
#[derive(Clone, Copy, PartialEq, Eq, Debug)]
pub enum Verdict {
    /// It has not come, and may.
    Fresh,
    /// It is 0, or too far below the highest that came.
    TooOld,
    /// It came before.
    Came,
}
