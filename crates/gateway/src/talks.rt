// A talk's steps. Assumes nothing.
ghost use Rattle.std.specs.Prelude.{◌≡◌, ◌||◌, ◌==◌};
ghost use Rattle.gateway.specs.Talks.{fresh_talk, swapped, lives, may_send, heard_one, sent_one};

use crate::state::{Tags, Talk, Terms};
use window::state::Window;

impl Tags {
    /// The tags as the other gate has them.
    pub(crate) fn swapped(self) -> Tags
        ensures { result ≡ swapped self }
    {
        Tags {
            mine: self.theirs,
            theirs: self.mine,
        }
    }

    /// Whether one of them is 0, which no talk has.
    pub(crate) fn has_zero(self) -> bool
        ensures { result ≡ (self.mine == 0 || self.theirs == 0) }
    {
        self.mine == 0 || self.theirs == 0
    }
}

impl Talk {
    /// A talk that was just made: nothing was sent in it and nothing has come.
    pub(crate) fn new(tags: Tags, born: u64, sure: bool) -> Talk
        ensures { result ≡ fresh_talk tags.mine tags.theirs born sure }
    {
        Talk {
            tags,
            born,
            sent: 0,
            sure,
            window: Window::new(),
        }
    }

    /// Whether it is not over: no more than its life has passed.
    pub(crate) fn lives(self, now: u64, life: u16) -> bool
        ensures { result ≡ lives now life self }
    {
        now.saturating_sub(self.born) <= u64::from(life)
    }

    /// Whether it can be used to send: this gate is sure of it, it is not over, and its numbers are not used up.
    pub(crate) fn may_send(self, now: u64, terms: Terms) -> bool
        ensures { result ≡ may_send now terms.life terms.most self }
    {
        self.sure && self.lives(now, terms.life) && self.sent < terms.most
    }

    /// The talk after a number came in it: whoever hears something of a talk is sure of it.
    pub(crate) fn heard(self, number: u64) -> Talk
        ensures { result ≡ heard_one number self }
    {
        Talk {
            sure: true,
            window: self.window.after(number),
            ..self
        }
    }

    /// The talk after its next number was used.
    pub(crate) fn sent_one(self) -> Talk
        ensures { result ≡ sent_one self }
    {
        Talk {
            sent: self.sent.saturating_add(1),
            ..self
        }
    }
}
