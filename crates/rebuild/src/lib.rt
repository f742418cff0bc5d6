//! The index and the figures of a store, from its data files.
#![tactic(auto)]

mod data_files;
mod figures;
mod newest;
mod rebuilding;
mod rows;
mod scanning;
#[cfg(test)]
mod tests;

pub use rebuilding::rebuild;
