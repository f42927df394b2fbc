// A reader over the bytes of settings: the number or the key at a place, where all its bytes are
// there. Assumes nothing.
ghost use Rattle.std.specs.Prelude.{◌≡◌};
ghost use Rattle.std.specs.Option.{option_map};
ghost use Rattle.settings.specs.Fields.{bytes_in, number_in};
ghost use Rattle.settings.specs.Layout.{key_size};

use crate::plans::Key;

// Bytes that are read at places.
#[derive(Clone, Copy)]
pub struct Reader<'a> {
    bytes: &'a [u8],
}

impl<'a> Reader<'a> {
    // A reader over these bytes.
    pub fn new(bytes: &'a [u8]) -> Self
        ensures { result.bytes.now ≡ bytes.now }
    {
        Reader { bytes }
    }

    // So many bytes at a place, or none where they aren't all there.
    fn chunk<const N: usize>(self, at: usize) -> Option<[u8; N]>
        ensures { result ≡ bytes_in self.entry.bytes.now at N }
    {
        self.bytes.get(at..)?.first_chunk().copied()
    }

    // The number of one byte at a place. It and the next two differ in the type only, but no trait
    // has `from_be_bytes`.
    pub fn byte(self, at: usize) -> Option<u8>
        ensures { result ≡ number_in self.entry.bytes.now at 1 }
    {
        self.chunk(at).map(u8::from_be_bytes)
    }

    // The number of two bytes at a place.
    pub fn short(self, at: usize) -> Option<u16>
        ensures { result ≡ number_in self.entry.bytes.now at 2 }
    {
        self.chunk(at).map(u16::from_be_bytes)
    }

    // The number of four bytes at a place.
    pub fn long(self, at: usize) -> Option<u32>
        ensures { result ≡ number_in self.entry.bytes.now at 4 }
    {
        self.chunk(at).map(u32::from_be_bytes)
    }

    // The key at a place, or none where its bytes aren't all there.
    pub fn key(self, at: usize) -> Option<Key>
        ensures { option_map (λ k. k.bytes) result ≡ bytes_in self.entry.bytes.now at key_size }
    {
        let bytes = self.chunk(at)?;
        Some(Key { bytes })
    }
}
