//! The spelling of one item: writing it, and reading what stands at an offset of some bytes.
#![tactic(auto)]

mod changing;
mod items;
mod laws;
mod owning;
mod reading;
#[cfg(test)]
mod tests;
mod writing;

pub use changing::encode_change;
pub use items::{Item, OwnItem, Span, Step};
pub use laws::{spelling_is_read_back, spelling_is_unambiguous, whole_is_spelled};
pub use owning::own;
pub use reading::decode;
pub use writing::encode;
