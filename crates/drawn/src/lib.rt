// Drawn bytes: the supply from which a gate takes a tag and sixteen bytes for each hello and each reply that it makes.
// Assumes nothing. That no tag is drawn twice is for the source of the bytes to see to.
#![tactic(auto)]

mod state;
mod supply;

pub use state::{Draw, Supply};
pub use supply::tags_stated;
