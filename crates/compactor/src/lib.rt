//! The parts behind a store: the log that writes its records, the table and the queue of those that the index doesn't
//! have yet, and the index.
#![tactic(auto)]

mod copying;
mod entering;
mod finding;
mod looking;
mod parts;
mod passing;
mod sizing;
mod stepping;
mod walking;

pub use parts::Parts;
pub use passing::next_record;
pub use sizing::count_written;

#[cfg(test)]
mod tests;
