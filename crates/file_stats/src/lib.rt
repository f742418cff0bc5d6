//! What is known of the data files beside their records.
#![tactic(auto)]

mod classes;
mod figures;
mod file_list;
#[cfg(test)]
mod tests;

pub use figures::Stats;
pub use file_list::{FileList, Found};
