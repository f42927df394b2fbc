// The clear bytes of a word: what can be told of it before any key. Assumes nothing.
ghost use Rattle.std.specs.Prelude.{◌≡◌, ℕ, ◌<◌, Bool};
ghost use Rattle.wire.specs.Reading.{fields_in, header_in, another};

use crate::layout::{INSIDE_AT, MAKER_AT, OPENER_AT};
use crate::numbers::numbers_in;
use crate::state::Header;
use protocol::{Kind, Refusal, kind_of};

// What the clear bytes of a word of this kind say. Refuses a tag of 0: one arm says it for both
// kinds of a talk.
fn fields(clear: &[u8; INSIDE_AT], kind: Kind) -> Result<Header, Refusal>
    ensures { result ≡ fields_in clear.now kind }
{
    let maker = clear[MAKER_AT];
    let (tag, number) = numbers_in(clear.last_chunk().unwrap());
    match kind {
        Kind::Hello => Ok(Header::Hello { maker }),
        Kind::Reply => Ok(Header::Reply { maker }),
        Kind::Packet | Kind::Empty if tag == 0 => Err(Refusal::ZeroTag),
        Kind::Packet => Ok(Header::Packet { maker, tag, number }),
        Kind::Empty => Ok(Header::Empty { maker, tag, number }),
    }
}

// The clear bytes of a word that came to gate `own`, by a maker that passes the test.
pub(crate) fn header_by<F: Fn(u8) -> bool>(
    word: &[u8],
    own: u8,
    there: F,
) -> Result<Header, Refusal>
    requires { F.IsAlwaysCallable there }
    ensures { (test : ℕ → Bool) → ((a : ℕ) (r : Bool) → a < 256 → F.post there a r → r ≡ test a) → result ≡ header_in own test word.now }
{
    let kind = kind_of(word)?;
    let clear = word.first_chunk().unwrap();
    if clear[OPENER_AT] != own || !there(clear[MAKER_AT]) {
        return Err(Refusal::WrongGate);
    }
    fields(clear, kind)
}

/// The clear bytes of a word that came to gate `own` of so many gates. Refuses, in this order, a
/// word of unknown kind or length, one that isn't for this gate or isn't by another one that is
/// there, and a tag of 0 in a word of a talk. It changes nothing.
pub fn read_header(word: &[u8], own: u8, gates: u8) -> Result<Header, Refusal>
    ensures { result ≡ header_in own (another own gates) word.now }
{
    header_by(word, own, |maker| maker < gates && maker != own)
}
