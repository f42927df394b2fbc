// The settings of a gate: what they are in bytes, who owns an address, and how the settings of all
// gates are made from one plan. Assumes nothing.
#![tactic(auto)]

mod faults;
pub mod layout;
mod making;
mod plans;
mod ranges;
mod reader;
mod reading;
mod writing;

pub use faults::{Cause, Fault, Field};
pub use making::{DRAWN, MakeFault, make_all, pairs_apart_stated};
pub use plans::{Key, Plan, Settings, runs_stated};
pub use ranges::{Range, owner_stated};
pub use reading::read;
pub use writing::{reads_back_stated, writes_back_stated};
