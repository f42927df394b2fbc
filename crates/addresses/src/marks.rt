// Bytes at which a text is cut. Assumes nothing.
ghost use Rattle.std.specs.Prelude.{◌≡◌, ℕ, Bool};
ghost use Rattle.std.specs.Option.{option_map};
ghost use Rattle.addresses.specs.Marks.{marks, front, behind};

/// What a text is cut at.
#[derive(Clone, Copy, Debug, PartialEq, Eq)]
pub enum Mark {
    /// The dot between the bytes of an address.
    Dot,
    /// The slash before the length of a prefix.
    Slash,
    /// A blank: space, tab, line feed, form feed or carriage return.
    Blank,
    /// The end of a line.
    LineFeed,
}

impl Mark {
    // Whether a byte is this mark.
    fn is(self, byte: u8) -> bool
        ensures { result ≡ marks self byte }
    {
        match self {
            Mark::Dot => byte == b'.',
            Mark::Slash => byte == b'/',
            Mark::Blank => byte.is_ascii_whitespace(),
            Mark::LineFeed => byte == b'\n',
        }
    }
}

/// The text before its first mark, and what stands behind that; all of it and none where there is
/// no mark. It changes nothing.
pub fn cut(text: &[u8], mark: Mark) -> (&[u8], Option<&[u8]>)
    ensures front { result.0.now ≡ front (marks mark) text.now }
    ensures behind { option_map (λ x. x.now) result.1 ≡ behind (marks mark) text.now }
{
    cut_where(text, |byte| mark.is(*byte))
}

/// The text before its first mark, and what stands behind that; all of it and none where there is
/// no mark. A mark is a byte that the test passes. It changes nothing.
pub fn cut_where<F: Fn(&u8) -> bool>(text: &[u8], is_mark: F) -> (&[u8], Option<&[u8]>)
    requires { F.IsAlwaysCallable is_mark }
    ensures front { (mark : ℕ → Bool) → ((b : _) (r : Bool) → F.post is_mark b r → r ≡ mark b.now)
        → result.0.now ≡ front mark text.now }
    ensures behind { (mark : ℕ → Bool) → ((b : _) (r : Bool) → F.post is_mark b r → r ≡ mark b.now)
        → option_map (λ x. x.now) result.1 ≡ behind mark text.now }
{
    match text.iter().position(is_mark) {
        Some(at) => (&text[..at], Some(&text[at + 1..])),
        None => (text, None),
    }
}
