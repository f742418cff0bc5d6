//! What isn't in the index yet: the newest places of keys, and the requests to the index.
#![tactic(auto)]

mod buckets;
mod requests;
mod scanning;
mod table;

pub use requests::{Request, Requests};
pub use table::Table;

#[cfg(test)]
mod tests;
