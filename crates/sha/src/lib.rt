// One block of SHA-256 (RFC 6234): what a hash value is after it.
#![tactic(auto)]

mod blocks;
mod words;

pub use blocks::compress;
