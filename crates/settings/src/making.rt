// The settings of all gates from one plan and drawn bytes: the keys at both ends of a pair are the
// same. Assumes nothing.
ghost use Rattle.std.specs.Prelude.{◌≡◌, ◌<◌, ◌≤◌, ◌⊎◌, cond, nat_lt, length, IfOk, IfErr, Some, None};
ghost use Rattle.settings.specs.declared.making.MakeFault.TheVariants.{NoMemory};
ghost use Rattle.settings.specs.Plans.{blank_key};
ghost use Rattle.settings.specs.Making.{pair_place, drawn_needed, key_for, settings_for, all_settings, make_fault, make_sentence, Agree, AllRead, PairsApart};

use crate::layout::KEY;
use crate::plans::{Key, Plan, Settings};
use protocol::limits::MAX_GATES;
use std::alloc::{AllocError, Global};
use std::error::Error;
use std::{array, fmt};

/// How many drawn bytes a gate needs: a row of as many keys as there can be gates.
pub const DRAWN: usize = MAX_GATES * KEY;

/// Why the settings of all gates can't be made.
#[derive(Clone, Copy, Debug, PartialEq, Eq)]
pub enum MakeFault {
    /// The plan has no gates, or more than there can be.
    WrongGates,
    /// There are fewer drawn bytes than 1,024 for each gate.
    FewDrawn,
    /// There is no memory.
    NoMemory,
}

impl fmt::Display for MakeFault {
    ghost output = { λ x. Some (make_sentence x) };

    fn fmt<W: fmt::Write>(&self, f: &mut fmt::Formatter<W>) -> fmt::Result {
        f.write_str(match self {
            MakeFault::WrongGates => "the plan has no gates, or too many",
            MakeFault::FewDrawn => "there are fewer drawn bytes than 1024 for each gate",
            MakeFault::NoMemory => "there is no memory",
        })
    }
}

impl Error for MakeFault {}

impl From<AllocError> for MakeFault {
    ghost from_gives = { λ _ e. e ≡ NoMemory };

    fn from(_: AllocError) -> Self {
        Self::NoMemory
    }
}

// Which of the drawn keys is that of two gates.
fn pair_place(a: usize, b: usize) -> usize
    requires { (a < 32) × (b < 32) }
    ensures { result ≡ pair_place a b }
{
    MAX_GATES * a.max(b) + a.min(b)
}

// The key of a gate with a number: zeros with itself, and where no gate has the number.
#[tactic(auto, using(crate::proofs::Agreeing::pair_within))]
fn key_for(drawn: &[u8], gates: usize, own: usize, gate: usize) -> Key
    requires { (own < gates) × ((gates ≤ 32) × (drawn_needed gates ≤ length drawn.now)) }
    ensures { result ≡ cond (nat_lt gate gates) (key_for drawn.now own gate) blank_key }
{
    let mut key = Key::default();
    if gate < gates && gate != own {
        let at = KEY * pair_place(own, gate);
        key.bytes.copy_from_slice(&drawn[at..at + KEY]);
    }
    key
}

// The settings of one gate.
fn settings_for(plan: Plan, drawn: &[u8], own: u8) -> Settings
    requires { (own < plan.gates) × (drawn_needed plan.gates ≤ length drawn.now) }
    ensures { result ≡ settings_for plan drawn.now own }
{
    let gates = usize::from(plan.gates());
    let keys = array::from_fn(|gate| key_for(drawn, gates, usize::from(own), gate));
    Settings { own, plan, keys }
}

/// The settings of all gates, in the order of their numbers, with a key of the drawn bytes for
/// each pair. Refuses a plan with no gates, and fewer drawn bytes than 1,024 for each gate. It
/// changes nothing.
pub fn make_all(heap: Global, plan: Plan, drawn: &[u8]) -> Result<Vec<Settings>, MakeFault>
    ensures value { IfOk result (λ v. v.items ≡ all_settings plan drawn.now) }
    ensures fault { IfErr result (λ e. (e ≡ NoMemory) ⊎ (make_fault plan drawn.now ≡ Some e)) }
    ensures able { IfOk result (λ v. make_fault plan drawn.now ≡ None) }
    ensures agree { IfOk result (λ v. Agree v.items) }
    ensures reads { IfOk result (λ v. AllRead v.items) }
{
    let gates = plan.gates();
    if gates == 0 {
        return Err(MakeFault::WrongGates);
    }
    if drawn.len() < DRAWN * usize::from(gates) {
        return Err(MakeFault::FewDrawn);
    }
    let all = (0..gates)
        .map(|own| settings_for(plan, drawn, own))
        .collect(heap)?;
    Ok(all)
}

/// States that different pairs of gates never have their keys from the same drawn bytes. It does
/// nothing.
pub fn pairs_apart_stated()
    ensures { PairsApart }
{}
