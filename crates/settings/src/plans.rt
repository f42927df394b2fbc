// What all gates share, and the settings of one gate. Memory is fixed: places past the last gate
// are blank. Assumes nothing.
ghost use Rattle.std.specs.Prelude.{◌≡◌, ◌<◌, ◌≤◌, IfOk, None};
ghost use Rattle.protocol.specs.Limits.{life_least, life_limit, most_least};
ghost use Rattle.settings.specs.Sound.{SoundPlan};
ghost use Rattle.settings.specs.Runs.{RunsAreOwned};
ghost use Rattle.settings.specs.Ranges.{range_at, same_below, as_gate};
ghost use Rattle.settings.specs.Plans.{empty_plan, plan_with, range_cause, owner_in, new_plan, add_to, blank_key, key_at, outside_of};

use crate::faults::{Cause, Fault, Field};
use crate::layout::KEY;
use crate::ranges::Range;
use protocol::limits::{MAX_GATES, MAX_LIFE, MIN_LIFE, MIN_MOST};
use std::marker::Model;

/// A pair key.
#[derive(Clone, Copy, Debug)]
pub struct Key {
    pub(crate) bytes: [u8; KEY],
}

// The key of zeros.
impl Default for Key {
    ghost is_default = { λ k. k ≡ blank_key };

    fn default() -> Self {
        Key { bytes: [0; KEY] }
    }
}

// What a plan says of one gate: the range that it owns and its address outside.
#[derive(Clone, Copy, Debug, Default)]
pub struct Site {
    range: Range,
    outside: u32,
}

/// What all gates share: the life of a talk, the most packets that one sends, and for each gate
/// the range that it owns and its address outside. Each plan is one that settings allow.
#[derive(Clone, Copy, Debug)]
pub struct Plan {
    life: u16,
    most: u32,
    gates: u8,
    sites: [Site; 32],
}

impl Model for Plan {
    ghost use Rattle.settings.specs.Shared.{Shared};

    ghost Value = { Shared };

    ghost use Rattle.settings.specs.Sites.{shared, sites_of, sites_back};
    ghost use Rattle.settings.specs.Sound.{SoundPlan};

    ghost view = { λ p. shared p.life p.most p.gates p.sites };

    ghost invariant = { λ p. SoundPlan (shared p.life p.most p.gates p.sites) };

    ghost inverse = { λ v. record { life = v.life; most = v.most; gates = v.gates; sites = sites_of v.ranges v.outside } };

    ghost inverse_ok = { λ p h i. record { life = p.life; most = p.most; gates = p.gates; sites = sites_back p.sites i } };
}

/// The settings of one gate: what all gates share, its own number, and its key with each gate.
// The keys stand beside the plan, and not in its sites, since all gates have one plan.
#[derive(Clone, Copy, Debug)]
pub struct Settings {
    pub(crate) own: u8,
    pub(crate) plan: Plan,
    pub(crate) keys: [Key; 32],
}

impl Plan {
    // A plan with no gates.
    pub(crate) fn empty(life: u16, most: u32) -> Self
        requires { (life_least ≤ life) × (life ≤ life_limit) × (most_least ≤ most) }
        ensures { result ≡ empty_plan life most }
    {
        Plan {
            life,
            most,
            gates: 0,
            sites: [Site::default(); 32],
        }
    }

    // The plan with one gate more.
    pub(crate) fn with(mut self, range: Range, outside: u32) -> Self
        requires { (self.gates < 32) × (range_cause self range ≡ None) }
        ensures { result ≡ plan_with self range outside }
    {
        let at = usize::from(self.gates);
        self.sites[at] = Site { range, outside };
        self.gates += 1;
        self
    }

    // The first gate that has this range.
    fn gate_with(&self, range: Range) -> Option<u8>
        ensures { result ≡ same_below self.now.ranges range self.now.gates }
    {
        (0..self.gates).find(|gate| self.range(*gate) == range)
    }

    // Why a range may not be added: it is no whole prefix, or an earlier gate has it.
    #[tactic(auto, unfolding(crate::specs::Plans::range_cause))]
    pub(crate) fn range_cause(&self, range: Range) -> Option<Cause>
        ensures { result ≡ range_cause self.now range }
    {
        if !range.is_prefix() {
            return Some(Cause::Wrong);
        }
        self.gate_with(range).map(Cause::Repeats)
    }

    /// A plan with no gates yet. Refuses a life or most that is out of range, and names which.
    pub fn new(life: u16, most: u32) -> Result<Self, Fault>
        ensures value { result ≡ new_plan life most }
        ensures sound { IfOk result SoundPlan }
    {
        if life < MIN_LIFE || life > MAX_LIFE {
            return Err(Fault::in_header(Field::Life, Cause::Wrong));
        }
        if most < MIN_MOST {
            return Err(Fault::in_header(Field::Most, Cause::Wrong));
        }
        Ok(Plan::empty(life, most))
    }

    /// The plan with one gate more, which has the next number. Refuses a gate for which there is no
    /// place, and a range that is no whole prefix or that an earlier gate has.
    pub fn add(self, range: Range, outside: u32) -> Result<Self, Fault>
        ensures value { result ≡ add_to self range outside }
        ensures sound { IfOk result SoundPlan }
    {
        if usize::from(self.gates) >= MAX_GATES {
            return Err(Fault::in_header(Field::Gates, Cause::Wrong));
        }
        match self.range_cause(range) {
            Some(cause) => Err(Fault::in_entry(Field::Range, self.gates, cause)),
            None => Ok(self.with(range, outside)),
        }
    }

    /// The life of a talk, in ticks. It changes nothing.
    pub fn life(&self) -> u16
        ensures { result ≡ self.now.life }
    {
        self.life
    }

    /// The most packets that a talk sends. It changes nothing.
    pub fn most(&self) -> u32
        ensures { result ≡ self.now.most }
    {
        self.most
    }

    /// How many gates there are, in a plan that settings allow. It changes nothing.
    pub fn gates(&self) -> u8
        ensures value { result ≡ self.now.gates }
        ensures sound { SoundPlan self.now }
    {
        self.gates
    }

    // What is said of a gate; the blank site for a number that no gate has.
    fn site(&self, gate: u8) -> Site
        ensures { result ≡ record { range = range_at self.now.ranges gate; outside = outside_of self.now gate } }
    {
        self.sites
            .get(usize::from(gate))
            .copied()
            .unwrap_or_default()
    }

    /// The range of a gate; the blank one for a number that no gate has. It changes nothing.
    // Callers rely on the blank, as on `outside`'s 0 and `key`'s zeros: an Option beside each would
    // be a second way.
    pub fn range(&self, gate: u8) -> Range
        ensures { result ≡ range_at self.now.ranges gate }
    {
        self.site(gate).range
    }

    /// The address outside of a gate; 0 for a number that no gate has. It changes nothing.
    pub fn outside(&self, gate: u8) -> u32
        ensures { result ≡ outside_of self.now gate }
    {
        self.site(gate).outside
    }

    /// The gate that owns an address, the one with the longest prefix that holds it, or none where
    /// nobody does. It changes nothing.
    pub fn owner(&self, address: u32) -> Option<u8>
        ensures { result ≡ as_gate (owner_in self.now address) }
    {
        (0..self.gates)
            .filter(|gate| self.range(*gate).holds(address))
            .min_by_key(|gate| self.range(*gate).span())
    }
}

impl Settings {
    /// The gate's own number. It changes nothing.
    pub fn own(&self) -> u8
        ensures { result ≡ self.now.own }
    {
        self.own
    }

    /// What this gate shares with all others. It changes nothing.
    pub fn plan(&self) -> &Plan
        ensures { result.now ≡ self.now.plan }
    {
        &self.plan
    }

    /// The key with a gate: zeros for the gate itself and for a number that no gate has. It changes
    /// nothing.
    pub fn key(&self, gate: u8) -> Key
        ensures { result ≡ key_at self.now gate }
    {
        self.keys
            .get(usize::from(gate))
            .copied()
            .unwrap_or_default()
    }
}

impl Key {
    /// The bytes of the key. It changes nothing.
    pub fn bytes(&self) -> &[u8; 32]
        ensures { result.now ≡ self.now.bytes }
    {
        &self.bytes
    }
}

/// States that the owner by a plan is the abstract protocol's: in every run by its rules, what came
/// out came from an address that the gate by whom it says it is owns, for an address that the gate
/// where it came out owns. It does nothing.
#[tactic(auto, using(crate::proofs::Ruling::runs_owned))]
pub fn runs_stated()
    ensures { RunsAreOwned }
{}
