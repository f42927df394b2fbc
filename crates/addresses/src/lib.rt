// Decimal numbers, IPv4 addresses and prefixes as text, in the one way in which they are written:
// no sign, no zeros in front. A text is bytes, whether they are text or not. Assumes nothing.
#![tactic(auto)]

mod dotted;
mod marks;
mod numbers;

pub use dotted::{Prefix, read_address, read_prefix, texts_give_back};
pub use marks::{Mark, cut, cut_where};
pub use numbers::read_number;
