// Words as bytes: sealing each kind, reading it, and the keys that a gate keeps for it. Assumes
// nothing.
#![tactic(auto)]

mod clear;
mod keys;
pub mod layout;
mod numbers;
mod opening;
mod sealing;
mod state;
mod sums;

pub use clear::read_header;
pub use state::{Header, Opened, PairKeys, TalkKeys, Unsealed};
