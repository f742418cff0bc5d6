//! A log of changes over data files: each change is numbered and written behind the one before it, and a file that gets
//! too large is closed.
#![tactic(auto)]

mod fetching;
mod log_calls;
mod log_files;
mod spending;
mod stamping;
mod turning;
mod writing;

pub use log_calls::Log;

#[cfg(test)]
mod tests;
