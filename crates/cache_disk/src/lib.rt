//! The outside, as the store knows it: a disk of one directory with an output, and a source of input.
#![tactic(auto)]

mod host;
mod source;

pub use host::{Host, HostFault};
pub use source::{Source, SourceFault};
