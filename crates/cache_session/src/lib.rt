//! A session: every client command over any store.
#![tactic(auto)]

mod calls;
mod conditions;
mod event;
mod files;
mod reads;
mod session;
#[cfg(test)]
mod tests;
mod walks;
mod writes;

pub use event::Event;
pub use session::Session;
