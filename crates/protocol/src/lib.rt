// What all the crates share: why something is refused, which kinds of words there are, and the
// limits of the protocol. A word is a datagram on the outer network. Assumes nothing.
#![tactic(auto)]

mod counting;
mod kinds;
pub mod limits;
mod refusals;

pub use counting::Counts;
pub use kinds::{Kind, kind_of};
pub use refusals::{Refusal, UnknownNumber, all_stated};
