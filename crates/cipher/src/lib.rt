// ChaCha20 (RFC 8439): the block, and turning a text in place, in scalar form and by lanes.
#![tactic(auto)]

mod blocks;
mod fault;
mod lanes;
mod quarter;
mod rounds;
mod rows;
mod texts;

pub use blocks::ChaCha20;
pub use fault::Fault;
pub use texts::{Form, Lanes, Scalar};
