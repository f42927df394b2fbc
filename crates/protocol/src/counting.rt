// How often something was refused, for each refusal. Assumes nothing.
ghost use Rattle.std.specs.Prelude.{◌≡◌, ◌+◌, ◌-◌, ◌^◌, ◌<◌, min, ◌≢◌};
ghost use Rattle.protocol.specs.declared.refusals.Refusal.{Refusal as Cause};
ghost use Rattle.protocol.specs.Refusals.{refusal_number};
ghost use Rattle.protocol.specs.Counting.{count_of, counted};

use crate::refusals::Refusal;

// Where the count of a refusal stands: in the order of the numbers, from 0.
fn place(refusal: Refusal) -> usize
    ensures value { result ≡ refusal_number refusal - 1 }
    ensures within { result < 15 }
{
    usize::from(u8::from(refusal) - 1)
}

/// A count for each refusal. A count that has reached the largest number stays there.
#[derive(Clone, Copy, Debug)]
pub struct Counts {
    // A place for each refusal: fixed memory, no heap.
    counts: [u64; 15],
}

impl Counts {
    /// Counts of which each is 0.
    pub fn new() -> Self
        ensures { (x : Cause) → count_of result x ≡ 0 }
    {
        Counts { counts: [0; 15] }
    }

    /// How often this refusal was counted. It changes nothing.
    pub fn of(&self, refusal: Refusal) -> u64
        ensures { result ≡ count_of self.now refusal }
    {
        self.counts[place(refusal)]
    }

    /// Counts this refusal once more; every other count stays as it was.
    pub fn add(&mut self, refusal: Refusal)
        ensures after { self.new ≡ counted refusal self.old }
        ensures this { count_of self.new refusal ≡ min (count_of self.old refusal + 1) (2 ^ 64 - 1) }
        ensures others { (x : Cause) → (x ≢ refusal) → count_of self.new x ≡ count_of self.old x }
    {
        let at = place(refusal);
        self.counts[at] = self.counts[at].saturating_add(1);
    }
}
