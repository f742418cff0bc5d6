//! Data files: an open gate before each frame that counts, and a closed one behind the last.
#![tactic(auto)]

mod appender;
mod fetching;
mod scan;
mod window;

pub use appender::Appender;
pub use fetching::read_record;
pub use scan::{Scan, Scanned};

#[cfg(test)]
mod tests;
