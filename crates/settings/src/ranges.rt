// Ranges of addresses that are one prefix, and who owns an address. Assumes nothing.
ghost use Rattle.std.specs.Prelude.{◌≡◌, ◌<◌, ◌≤◌, MatchOption};
ghost use Rattle.settings.specs.Owners.{OwnerIsLongest, OwnerIsUnique};
ghost use Rattle.settings.specs.Ranges.{range_at, holds, span, PrefixOf, IsPrefix, has_length, is_prefix, same_range, same_below, better, owner_below, as_gate};

/// A range of IPv4 addresses, both ends included.
#[derive(Clone, Copy, Debug, Default, PartialEq, Eq)]
pub struct Range {
    pub first: u32,
    pub last: u32,
}

impl Range {
    /// Whether the range holds this address. It changes nothing.
    pub fn holds(self, address: u32) -> bool
        ensures { result ≡ holds self address }
    {
        self.first <= address && address <= self.last
    }

    // How far the range reaches beyond its first address.
    pub(crate) fn span(self) -> u32
        ensures { result ≡ span self }
    {
        self.last.saturating_sub(self.first)
    }

    // Whether the range is all the addresses that begin with the same so many bits.
    fn has_length(self, bits: u8) -> bool
        requires { bits ≤ 32 }
        ensures { result ≡ has_length self bits }
    {
        let size = 1u64 << (32 - bits);
        let first = u64::from(self.first);
        first % size == 0 && u64::from(self.last) + 1 == first + size
    }

    /// The length of the prefix of which the range is all the addresses, 0 to 32, or none where it
    /// is no whole prefix. It changes nothing.
    pub fn prefix_length(self) -> Option<u8>
        ensures { MatchOption result (IsPrefix self → ⊥) (λ bits. PrefixOf bits self) }
    {
        (0..33).find(|bits| self.has_length(*bits))
    }

    /// Whether the range is all the addresses of one prefix. It changes nothing.
    #[tactic(auto, using(crate::proofs::Prefixes::prefix_found))]
    pub fn is_prefix(self) -> bool
        ensures { result ≡ is_prefix self }
    {
        self.prefix_length().is_some()
    }
}

/// States that the owner of an address is the gate with the longest prefix that holds it, that
/// nobody owns what no prefix holds, and that no two gates own one address. It does nothing.
#[tactic(auto, using(crate::proofs::Owning::owner_longest, crate::proofs::Owning::owner_unique))]
pub fn owner_stated()
    ensures longest { OwnerIsLongest }
    ensures unique { OwnerIsUnique }
{}
