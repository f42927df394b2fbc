// The text of a plan: what each of its lines says, which plan it is, or which line is wrong and
// why. A text is bytes, whether they are text or not. Assumes nothing.
#![tactic(auto)]

mod drafts;
mod faults;
mod names;
mod reading;
#[cfg(test)]
mod tests;
mod words;

pub use drafts::Draft;
pub use faults::{TextFault, Wrong};
pub use names::Name;
pub use reading::read;
