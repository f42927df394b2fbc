// The bytes of settings. Assumes nothing.
ghost use Rattle.std.specs.Prelude.{◌≡◌, true, ◌++◌, is_ok, IfOk};
ghost use Rattle.settings.specs.Sound.{ReadsBack, WritesBack};
ghost use Rattle.settings.specs.Writing.{header_bytes, entry_bytes, bytes_of};

use crate::layout::{ONLY_VERSION, ONLY_WINDOW};
use crate::plans::Settings;
use std::alloc::{AllocError, Global};

impl Settings {
    // Adds what stands before the entries at the end.
    fn write_header(&self, bytes: &mut Vec<u8>) -> Result<(), AllocError>
        ensures { is_ok result ≡ true → bytes.new.items ≡ bytes.old.items ++ header_bytes self.now }
    {
        bytes.extend_from_slice(&[ONLY_VERSION, self.plan.gates(), self.own])?;
        bytes.extend_from_slice(&self.plan.life().to_be_bytes())?;
        bytes.extend_from_slice(&self.plan.most().to_be_bytes())?;
        bytes.extend_from_slice(&ONLY_WINDOW.to_be_bytes())
    }

    // Adds the entry of a gate at the end.
    fn write_entry(&self, gate: u8, bytes: &mut Vec<u8>) -> Result<(), AllocError>
        ensures { is_ok result ≡ true → bytes.new.items ≡ bytes.old.items ++ entry_bytes self.now gate }
    {
        let range = self.plan.range(gate);
        bytes.extend_from_slice(self.key(gate).bytes())?;
        bytes.extend_from_slice(&range.first.to_be_bytes())?;
        bytes.extend_from_slice(&range.last.to_be_bytes())?;
        bytes.extend_from_slice(&self.plan.outside(gate).to_be_bytes())
    }

    /// The bytes of the settings. Refuses where there is no memory. It changes nothing.
    #[tactic(auto, unfolding(crate::specs::Writing::bytes_of))]
    pub fn write(&self, heap: Global) -> Result<Vec<u8>, AllocError>
        ensures { IfOk result (λ v. v.items ≡ bytes_of self.now) }
    {
        let mut bytes = Vec::new(heap);
        self.write_header(&mut bytes)?;
        // The number is no index: key, range and address are asked for by it.
        for gate in 0..self.plan.gates() {
            self.write_entry(gate, &mut bytes)?;
        }
        Ok(bytes)
    }
}

/// States that reading what was written gives it back, for all settings that are allowed. It does
/// nothing.
#[tactic(auto, using(crate::proofs::Written::reads_back))]
pub fn reads_back_stated()
    ensures { ReadsBack }
{}

/// States that what was read is allowed, and that writing it gives the bytes. It does nothing.
pub fn writes_back_stated()
    ensures { WritesBack }
{}
