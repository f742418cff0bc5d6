//! Stores: what each of them is to the layers above it, and one in memory.
#![tactic(auto)]

mod entries;
mod heap_store;
mod traits;

pub use entries::{Entries, Seat, is_visible};
pub use heap_store::{HeapStore, answer_of};
pub use traits::{FileStore, Keyed, ReadStore, Store};

#[cfg(test)]
mod tests;
