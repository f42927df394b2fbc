// A supply of drawn bytes: adding to it, and drawing from it. Assumes nothing.
ghost use Rattle.std.specs.Prelude.{◌≡◌, ◌≤◌, [], ◌++◌, length, is_ok, if◌then◌else◌};
ghost use Rattle.drawn.specs.Draws.{zeros, passed_over, draw_of, left_of, IsFirstDraw, TagsAreTags};

use crate::state::{Draw, Supply};
use std::alloc::{AllocError, Global};

/// How many bytes a tag has.
const TAG: usize = 8;
/// How many bytes a word takes: a tag, and sixteen.
const WHOLE: usize = 24;

/// How many zeros stand at the front.
fn zeros_of(bytes: &[u8]) -> usize
    ensures value { result ≡ zeros bytes.now }
    ensures within { result ≤ length bytes.now }
{
    bytes.iter().take_while(|byte| **byte == 0).count()
}

/// Where the first tag that is not 0 begins.
fn start_of(bytes: &[u8]) -> usize
    ensures value { result ≡ passed_over bytes.now }
    ensures within { result ≤ length bytes.now }
{
    zeros_of(bytes) / TAG * TAG
}

/// What is drawn for one word, and how many bytes that takes, if there is enough.
#[tactic(auto, using(crate::proofs::Zeros::drawn_here, crate::proofs::Zeros::spent_here, std::proofs::lemmas::List::take_rest), unfolding(crate::specs::Draws::draw_of, crate::specs::Draws::spent_of))]
fn first_draw(bytes: &[u8]) -> Option<(Draw, usize)>
    ensures { IsFirstDraw bytes.now result }
{
    let start = start_of(bytes);
    let (tag, rest) = bytes[start..].split_first_chunk()?;
    let drawn = rest.first_chunk()?;
    let draw = Draw {
        tag: u64::from_be_bytes(*tag),
        bytes: *drawn,
    };
    Some((draw, start + WHOLE))
}

impl Supply {
    /// A supply with nothing in it.
    pub fn new(heap: Global) -> Supply
        ensures { result.bytes.items ≡ [] }
    {
        Supply {
            bytes: Vec::new(heap),
        }
    }

    /// Adds bytes at the end. Where there is no memory for them nothing is changed, and that is said.
    pub fn add(&mut self, more: &[u8]) -> Result<(), AllocError>
        ensures { self.new.bytes.items ≡ (if is_ok result then self.old.bytes.items ++ more.now else self.old.bytes.items) }
    {
        self.bytes.extend_from_slice(more)
    }

    /// Draws for one word. Where too little is left nothing is taken, zeros in front neither.
    pub fn draw(&mut self) -> Option<Draw>
        ensures answer { result ≡ draw_of self.old.bytes.items }
        ensures after { self.new.bytes.items ≡ left_of self.old.bytes.items }
    {
        let (draw, spent) = first_draw(self.bytes.as_slice())?;
        self.bytes.drain(..spent);
        Some(draw)
    }

    /// Forgets all that is left.
    pub fn clear(&mut self)
        ensures { self.new.bytes.items ≡ [] }
    {
        self.bytes.clear();
    }
}

/// States that what is drawn as a tag is one. It does nothing.
pub fn tags_stated()
    ensures { TagsAreTags }
{}
