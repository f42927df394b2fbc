// The input lines of the program `gate`: hex digits, and which bytes are which event. Bytes are
// read as they are, whether they are text or not. Assumes nothing.
#![tactic(auto)]

mod events;
mod faults;
mod hex;
mod names;
mod reading;
#[cfg(test)]
mod tests;

pub use events::Event;
pub use faults::{LineFault, NoHex};
pub use hex::{decode, decode_gives_back, decode_word, encode};
pub use reading::{every_event_has_its_line, read_line};
