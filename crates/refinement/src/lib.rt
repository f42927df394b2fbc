// That a gate's code does what the abstract protocol says. The public calls of a gate again, each with what it means in every run whose gate its memory stands
// for; and many gates with a net of words. Assumes that drawn tags are new, where a contract says so.
#![tactic(auto)]

mod acts;
mod calls;
mod sea;
mod state;

pub use calls::{code_is_as_asked, greet, put, restart, start, take, tick};
pub use sea::it_always_can;
pub use state::{Event, EventKind, Letter, Outcome, Parcel, Sea};
