//! The index of a store: where its records stand, by the hashes of their keys.
#![tactic(auto)]

mod row;
mod rows;
#[cfg(test)]
mod tests;
mod tree;

pub use tree::Tree;
