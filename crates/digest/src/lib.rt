// SHA-256 and HMAC-SHA-256 (RFC 6234).
#![tactic(auto)]

mod codes;
mod compare;
mod hashing;
mod state;
mod values;

pub use codes::hmac;
pub use compare::same_sum;
pub use hashing::sha256;
pub use state::{Fault, Hasher, Key, Mac};
