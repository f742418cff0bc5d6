//! When entries expire.
#![tactic(auto)]

#[cfg(test)]
mod tests;
mod until;

pub use until::{is_expired, until_of};
