// One gate: its memory, fixed in size, and each step of the protocol on words as values. Sealing, packets' bytes and who owns an address stand above it.
// Assumes that drawn tags are new; what holds then is shown where gates and a net are looked at together.
#![tactic(auto)]

mod peers;
mod state;
mod steps;
mod talks;

pub use state::{Gateway, InTalk, Owners, Peer, Tags, Taken, Talk, Terms, Wait, Word};
