// The bytes of a word, on one page: where each part stands and how long it is. All numbers are high
// byte first. `layout_stated` ties the constants to the definitions that promises use; lengths of
// whole words are in crate `protocol`. Assumes nothing.
//
//     0    1     kind: 1 hello, 2 reply, 3 packet, 4 empty
//     1    1     maker
//     2    1     the gate that it is for
//     3    16    hello, reply: drawn bytes, of which the first 12 are the nonce
//                packet, empty: the opener's tag (8) and the number (8); the nonce is 4 zeros and
//                the number
//     19         the inside, turned by ChaCha20 from counter 0 on:
//                hello: tag (8), tick (8); reply: tag (8), tag replied to (8); packet: the packet;
//                empty: nothing
//     n-16 16    the sum: the first 16 bytes of HMAC-SHA-256 of a byte 255 and all before the sum
ghost use Rattle.std.specs.Prelude.{◌≡◌};
ghost use Rattle.wire.specs.Layout.{kind_at, maker_at, opener_at, drawn_at, tag_at, number_at, inside_at, nonce_length, sum_mark, word_limit};

use protocol::limits::{CLEAR, FIELD, MAX_PACKET, SEALED};

/// Where the kind stands (1 byte).
pub const KIND_AT: usize = 0;
/// Where the maker stands (1 byte).
pub const MAKER_AT: usize = KIND_AT + 1;
/// Where the gate that the word is for stands (1 byte).
pub const OPENER_AT: usize = MAKER_AT + 1;
/// Where the drawn bytes of a hello or a reply stand.
pub const DRAWN_AT: usize = CLEAR;
/// Where the opener's tag of a packet or an empty word stands (8 bytes).
pub const TAG_AT: usize = CLEAR;
/// Where the number of a packet or an empty word stands (8 bytes).
pub const NUMBER_AT: usize = TAG_AT + 8;
/// Where the inside begins; it ends where the sum begins.
pub const INSIDE_AT: usize = CLEAR + FIELD;
/// How long a nonce is.
pub const NONCE: usize = 12;
/// The byte before all that a sum is over.
pub const SUM_MARK: u8 = 255;
/// The longest word with a packet that can pass.
pub const MAX_WORD: usize = SEALED + MAX_PACKET;

/// States that each constant is the number that promises have for it. It does nothing.
pub fn layout_stated()
    ensures kind_at { KIND_AT ≡ kind_at }
    ensures maker_at { MAKER_AT ≡ maker_at }
    ensures opener_at { OPENER_AT ≡ opener_at }
    ensures drawn_at { DRAWN_AT ≡ drawn_at }
    ensures tag_at { TAG_AT ≡ tag_at }
    ensures number_at { NUMBER_AT ≡ number_at }
    ensures inside_at { INSIDE_AT ≡ inside_at }
    ensures nonce { NONCE ≡ nonce_length }
    ensures mark { SUM_MARK ≡ sum_mark }
    ensures longest { MAX_WORD ≡ word_limit }
{}
