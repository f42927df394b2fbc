// The words of a line. Assumes nothing.
ghost use Rattle.std.specs.Prelude.{◌≡◌};
ghost use Rattle.std.specs.Iterator.{YieldsFirstRef, item_count};
ghost use Rattle.draft.specs.Words.{words_of};

use addresses::cut_where;

// The words of a line, one after another. A struct of its own: of `split` and `filter` with their
// closures nothing joins what calls of `next` in a row give.
#[derive(Drop)]
pub(crate) struct Words<'a> {
    pub(crate) rest: &'a [u8],
}

impl<'a> Iterator for Words<'a> {
    type Item = &'a [u8];

    ghost next_gives = { YieldsFirstRef (λ s. words_of s.rest.now) };

    ghost remaining = { item_count (λ s. words_of s.rest.now) };

    fn next(&mut self) -> Option<&'a [u8]> {
        // Kept, so that no later call goes over these blanks again.
        self.rest = self.rest.trim_ascii_start();
        if self.rest.is_empty() {
            return None;
        }
        let (word, behind) = cut_where(self.rest, |byte| byte.is_ascii_whitespace());
        self.rest = behind.unwrap_or(&[]);
        Some(word)
    }
}
