// Which bytes are an IPv4 packet that may pass, whence it comes and where it is to go. Assumes
// nothing.
#![tactic(auto)]

mod reading;
mod sums;

pub use reading::{Packet, read};
pub use sums::{ones_sum, right_sum_stated};
