// Names of gates, which are names of files too. Assumes nothing.
ghost use Rattle.std.specs.Prelude.{◌≡◌, ◌<◌, length, IfSome};
ghost use Rattle.std.specs.List.{list_all};
ghost use Rattle.draft.specs.Names.{name_byte, blank_name, name_read, name_text, named};

use std::fmt;

/// A gate's name: 1 to 32 letters, digits, - and _.
#[derive(Clone, Copy, Debug, PartialEq, Eq)]
pub struct Name {
    bytes: [u8; 32],
    length: u8,
}

// The blank name, of no bytes, which only stands where none was put.
impl Default for Name {
    ghost is_default = { λ n. n ≡ blank_name };

    fn default() -> Self {
        Name {
            bytes: [0; 32],
            length: 0,
        }
    }
}

// Whether a byte is a letter, a digit, - or _.
fn is_name_byte(byte: u8) -> bool
    ensures { result ≡ name_byte byte }
{
    byte.is_ascii_alphanumeric() || byte == b'-' || byte == b'_'
}

// Whether all bytes are letters, digits, - and _.
fn all_name(word: &[u8]) -> bool
    ensures { result ≡ list_all name_byte word.now }
{
    word.iter().all(|byte| is_name_byte(*byte))
}

impl Name {
    // The name that a word is, or none.
    pub(crate) fn read(word: &[u8]) -> Option<Name>
        ensures { result ≡ name_read word.now }
    {
        if word.len() > 32 {
            return None;
        }
        if !all_name(word) {
            return None;
        }
        let mut bytes = [0u8; 32];
        bytes[..word.len()].copy_from_slice(word);
        // `as` loses nothing: it is at most 32.
        Some(Name {
            bytes,
            length: word.len() as u8,
        })
    }

    /// The name's bytes. It changes nothing.
    pub fn text(&self) -> &[u8]
        ensures { result.now ≡ name_text self.now }
    {
        let length = usize::from(self.length);
        if length < 32 {
            &self.bytes[..length]
        } else {
            &self.bytes
        }
    }
}

// The first gate that has this name.
pub(crate) fn named(names: &[Name], word: &[u8]) -> Option<usize>
    ensures value { result ≡ named names.now word.now }
    ensures bound { IfSome result (λ gate. gate < length names.now) }
{
    names.iter().position(|name| name.text() == word)
}

// Byte by byte: the bytes are no `str`, and to make one of them is a step that can fail.
impl fmt::Display for Name {
    fn fmt<W: fmt::Write>(&self, f: &mut fmt::Formatter<W>) -> fmt::Result {
        for byte in self.text() {
            f.write_char(char::from(*byte))?;
        }
        Ok(())
    }
}
