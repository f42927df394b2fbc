// A plan as far as its text was read, and what each line adds to it. A line that is refused adds
// nothing. Assumes nothing.
ghost use Rattle.std.specs.Prelude.{◌≡◌, ◌≤◌, length, slice_get};
ghost use Rattle.std.specs.Option.{option_map};
ghost use Rattle.draft.specs.Drafted.{gates_of};
ghost use Rattle.draft.specs.Drafts.{empty_draft, life_taken, most_taken, begun, next_gate, new_name, grown, gate_taken, setting_taken, line_taken};
ghost use Rattle.draft.specs.Names.{name_at};
ghost use Rattle.draft.specs.Ranges.{range_of};
ghost use Rattle.draft.specs.Words.{words_of};

use crate::faults::TextFault;
use crate::names::{Name, named};
use crate::words::Words;
use addresses::{Prefix, read_address, read_number, read_prefix};
use protocol::limits::{MIN_LIFE, MIN_MOST};
use settings::{Plan, Range};
use std::array;
use std::marker::Model;

/// A plan as far as its text was read, with the names of its gates.
#[derive(Clone, Copy)]
pub struct Draft {
    life: Option<u16>,
    most: Option<u32>,
    plan: Option<Plan>,
    names: [Name; 32],
}

// Each gate of the plan has a name, and the places behind them are blank.
impl Model for Draft {
    ghost use Rattle.std.specs.Prelude.{◌-◌, ◌≤◌, ◌++◌, take, replicate};
    ghost use Rattle.settings.specs.Sound.{Padded};
    ghost use Rattle.draft.specs.Drafted.{Drafted, gates_of};
    ghost use Rattle.draft.specs.Names.{blank_name};

    ghost Value = { Drafted };

    ghost view = { λ d. record { life = d.life; most = d.most; plan = d.plan; names = take (gates_of d.plan) d.names } };

    ghost invariant = { λ d. (gates_of d.plan ≤ 32) × Padded (gates_of d.plan) blank_name d.names };

    ghost inverse = { λ v. record { life = v.life; most = v.most; plan = v.plan; names = v.names ++ replicate (32 - gates_of v.plan) blank_name } };

    ghost inverse_ok = { λ d h i. record { life = d.life; most = d.most; plan = d.plan; names = h.1.rest i } };
}

// How many gates were read.
fn gates_of(plan: Option<Plan>) -> usize
    ensures { result ≡ gates_of plan }
{
    plan.map_or(0, |plan| usize::from(plan.gates()))
}

// As many addresses as the prefix has, from its own on. Where bits behind the prefix aren't 0 that
// is no prefix, which is for the plan to refuse; past the last address it goes on at 0.
fn range_of(prefix: Prefix) -> Range
    requires { prefix.bits ≤ 32 }
    ensures { result ≡ range_of prefix }
{
    let others = (1u64 << (32 - prefix.bits)) - 1;
    Range {
        first: prefix.address,
        // `as` loses nothing: others is below 2^32.
        last: prefix.address.wrapping_add(others as u32),
    }
}

// The plan with one gate more, by the texts of its prefix and its address outside.
#[tactic(auto, unfolding(crate::specs::Drafts::grown))]
fn grown(plan: Plan, prefix: &[u8], outside: &[u8]) -> Result<Plan, TextFault>
    ensures { result ≡ grown plan prefix.now outside.now }
{
    let prefix = read_prefix(prefix).ok_or(TextFault::NotPrefix)?;
    let outside = read_address(outside).ok_or(TextFault::NotAddress)?;
    Ok(plan.add(range_of(prefix), outside)?)
}

impl Draft {
    // A draft of which nothing was read.
    pub(crate) fn empty() -> Self
        ensures { result ≡ empty_draft }
    {
        Draft {
            life: None,
            most: None,
            plan: None,
            names: [Name::default(); 32],
        }
    }

    /// The plan, where at least one gate was read. It changes nothing.
    pub fn plan(&self) -> Option<Plan>
        ensures { result ≡ self.now.plan }
    {
        self.plan
    }

    // The names of the gates, in order.
    fn names(&self) -> &[Name]
        ensures value { result.now ≡ self.now.names }
        ensures each { length self.now.names ≡ gates_of self.now.plan }
        ensures few { gates_of self.now.plan ≤ 32 }
    {
        &self.names[..gates_of(self.plan)]
    }

    /// The name of a gate; the blank one for a number that no gate has. It changes nothing.
    pub fn name(&self, gate: u8) -> Name
        ensures value { result ≡ name_at self.now.names gate }
        ensures each { length self.now.names ≡ gates_of self.now.plan }
    {
        self.find_name(gate).copied().unwrap_or_default()
    }

    /// The name of a gate, lent, or none for a number that no gate has. It changes nothing.
    pub fn find_name(&self, gate: u8) -> Option<&Name>
        ensures value { option_map (λ n. n.now) result ≡ slice_get self.now.names gate }
        ensures each { length self.now.names ≡ gates_of self.now.plan }
    {
        self.names().get(usize::from(gate))
    }

    // The draft with its life. Beside `take_most`, since each has a field, a limit and a parameter
    // of `Plan::new` of its own.
    #[tactic(auto, unfolding(crate::specs::Drafts::life_taken))]
    fn take_life(mut self, word: &[u8]) -> Result<Draft, TextFault>
        ensures { result ≡ life_taken word.now self }
    {
        if self.life.is_some() {
            return Err(TextFault::Twice);
        }
        let limit = u32::from(u16::MAX);
        // `as` loses nothing: the limit is that of a u16.
        let life = read_number(word, limit).ok_or(TextFault::NotNumber)? as u16;
        Plan::new(life, MIN_MOST)?;
        self.life = Some(life);
        Ok(self)
    }

    // The draft with its most.
    #[tactic(auto, unfolding(crate::specs::Drafts::most_taken))]
    fn take_most(mut self, word: &[u8]) -> Result<Draft, TextFault>
        ensures { result ≡ most_taken word.now self }
    {
        if self.most.is_some() {
            return Err(TextFault::Twice);
        }
        let most = read_number(word, u32::MAX).ok_or(TextFault::NotNumber)?;
        Plan::new(MIN_LIFE, most)?;
        self.most = Some(most);
        Ok(self)
    }

    // The plan to which the next gate is added.
    #[tactic(auto, unfolding(crate::specs::Drafts::begun))]
    fn begun(&self) -> Result<Plan, TextFault>
        ensures { result ≡ begun self.now }
    {
        match (self.plan, self.life, self.most) {
            (Some(plan), _, _) => Ok(plan),
            (None, Some(life), Some(most)) => Ok(Plan::new(life, most)?),
            _ => Err(TextFault::TooEarly),
        }
    }

    // The plan to which the gate of this number is added, which must be the next one.
    #[tactic(auto, unfolding(crate::specs::Drafts::next_gate))]
    fn next_gate(&self, word: &[u8]) -> Result<Plan, TextFault>
        ensures { result ≡ next_gate word.now self.now }
    {
        let plan = self.begun()?;
        let next = plan.gates();
        match read_number(word, 255) {
            Some(number) if number == u32::from(next) => Ok(plan),
            _ => Err(TextFault::NotNext(next)),
        }
    }

    // The name that a word is, where no gate has it.
    #[tactic(auto, unfolding(crate::specs::Drafts::new_name))]
    fn new_name(&self, word: &[u8]) -> Result<Name, TextFault>
        ensures { result ≡ new_name self.now word.now }
    {
        let name = Name::read(word).ok_or(TextFault::NotName)?;
        match named(self.names(), word) {
            // At most 32 names: `as` loses nothing, and `try_from` is no plainer.
            Some(gate) => Err(TextFault::SameName(gate as u8)),
            None => Ok(name),
        }
    }

    // The draft with one gate more.
    #[tactic(auto, using(crate::proofs::Gated::grown_more, crate::proofs::Gated::next_gates), unfolding(crate::specs::Drafts::gate_taken))]
    fn take_gate(
        mut self,
        number: &[u8],
        name: &[u8],
        prefix: &[u8],
        outside: &[u8],
    ) -> Result<Draft, TextFault>
        ensures { result ≡ gate_taken number.now name.now prefix.now outside.now self }
    {
        let plan = self.next_gate(number)?;
        let at = usize::from(plan.gates());
        let name = self.new_name(name)?;
        let more = grown(plan, prefix, outside)?;
        self.plan = Some(more);
        self.names[at] = name;
        Ok(self)
    }

    // The draft with what a line of two words says.
    #[tactic(auto, unfolding(crate::specs::Drafts::setting_taken))]
    fn take_setting(self, name: &[u8], value: &[u8]) -> Result<Draft, TextFault>
        ensures { result ≡ setting_taken name.now value.now self }
    {
        match name {
            b"life" => self.take_life(value),
            b"most" => self.take_most(value),
            _ => Err(TextFault::Columns),
        }
    }

    // The draft with what a line says.
    pub(crate) fn take_line(self, line: &[u8]) -> Result<Draft, TextFault>
        ensures { result ≡ line_taken (words_of line.now) self }
    {
        let mut words = Words { rest: line };
        let Some(first) = words.next() else {
            return Ok(self);
        };
        if first.starts_with(b"#") {
            return Ok(self);
        }
        let others: [_; 4] = array::from_fn(|_| words.next());
        match others {
            [Some(value), None, ..] => self.take_setting(first, value),
            [Some(name), Some(prefix), Some(outside), None] => self.take_gate(
                first, name, prefix, outside,
            ),
            _ => Err(TextFault::Columns),
        }
    }
}
