//! The store over the data files of a directory. Its values are on the disk alone, and an index finds them.
#![tactic(auto)]

mod compacting;
mod copying;
mod log_store;
mod opening;
mod reading;
mod running;
mod soft_index;
mod stamping;
mod store;
mod sweeping;
mod taking;
mod walking;
mod writing;

pub use soft_index::SoftIndex;

#[cfg(test)]
mod tests;
