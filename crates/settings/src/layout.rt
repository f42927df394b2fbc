// The bytes of settings, on one page: where each field stands and how long it is. All numbers are
// high byte first. `layout_stated` ties the constants to the definitions that promises use.
// Assumes nothing.
//
//     0   1     version, always 1
//     1   1     gates, 1 to 32
//     2   1     own number, below gates
//     3   2     life of a talk in ticks, 1 to 3,600
//     5   4     most packets that a talk sends, 17 to 2^32 - 1
//     9   2     window, always 2,048
//     11        for each gate in the order of the numbers, 44 bytes:
//         0   32    its key with this gate; zeros in the gate's own entry
//         32  4     the first address of its range
//         36  4     the last address of its range; the range is all the addresses of one prefix
//         40  4     its address outside
ghost use Rattle.std.specs.Prelude.{◌≡◌};
ghost use Rattle.settings.specs.Layout.{version_at, gates_at, own_at, life_at, most_at, window_at, header_size, key_size, first_at, last_at, outside_at, entry_size, version_number};

use protocol::limits::{MAX_GATES, WINDOW};

/// The only version there is.
pub const VERSION: u32 = 1;

// The only version and window and the most gates, as wide as their fields.
pub(crate) const ONLY_VERSION: u8 = VERSION as u8;

pub(crate) const ONLY_WINDOW: u16 = WINDOW as u16;

pub(crate) const LAST_GATES: u8 = MAX_GATES as u8;

/// Where the version stands (1 byte).
pub const VERSION_AT: usize = 0;
/// Where the number of gates stands (1 byte).
pub const GATES_AT: usize = VERSION_AT + 1;
/// Where the gate's own number stands (1 byte).
pub const OWN_AT: usize = GATES_AT + 1;
/// Where the life of a talk stands (2 bytes).
pub const LIFE_AT: usize = OWN_AT + 1;
/// Where the most packets that a talk sends stand (4 bytes).
pub const MOST_AT: usize = LIFE_AT + 2;
/// Where the window stands (2 bytes).
pub const WINDOW_AT: usize = MOST_AT + 4;
/// Where the entries of the gates begin.
pub const HEADER: usize = WINDOW_AT + 2;

/// How long a pair key is; an entry begins with it.
pub const KEY: usize = 32;
/// Where in an entry the first address of the range stands (4 bytes).
pub const FIRST_AT: usize = KEY;
/// Where in an entry the last address of the range stands (4 bytes).
pub const LAST_AT: usize = FIRST_AT + 4;
/// Where in an entry the address outside stands (4 bytes).
pub const OUTSIDE_AT: usize = LAST_AT + 4;
/// How long an entry is.
pub const ENTRY: usize = OUTSIDE_AT + 4;

/// States that each constant is the number that promises have for it. It does nothing.
pub fn layout_stated()
    ensures version { VERSION ≡ version_number }
    ensures version_at { VERSION_AT ≡ version_at }
    ensures gates_at { GATES_AT ≡ gates_at }
    ensures own_at { OWN_AT ≡ own_at }
    ensures life_at { LIFE_AT ≡ life_at }
    ensures most_at { MOST_AT ≡ most_at }
    ensures window_at { WINDOW_AT ≡ window_at }
    ensures header { HEADER ≡ header_size }
    ensures key { KEY ≡ key_size }
    ensures first_at { FIRST_AT ≡ first_at }
    ensures last_at { LAST_AT ≡ last_at }
    ensures outside_at { OUTSIDE_AT ≡ outside_at }
    ensures entry { ENTRY ≡ entry_size }
{}
