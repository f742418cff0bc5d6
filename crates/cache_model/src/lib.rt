//! What the whole store speaks of: its types, its limits and, in `specs/`, the definitions that every contract cites.
#![tactic(auto)]

mod commands;
mod entries;
mod faults;
mod files;
mod hashing;
mod index;
mod keys;
mod plain;
mod replies;
mod settings;
#[cfg(test)]
mod tests;

pub use commands::{Command, StepKind};
pub use entries::{Answer, Change, Entry, Lifespan, Until};
pub use faults::{BadKind, Damage, ModelFault, Spent, StoreFault};
pub use files::{FileCount, FileKind, FileName, Place};
pub use hashing::hash;
pub use index::{IndexKey, IndexValue};
pub use keys::{KEY_LIMIT, Key, Prefix, VALUE_LIMIT, Value};
pub use plain::PlainCache;
pub use replies::{Figures, KeyList, Reply, Status, Turned};
pub use settings::{Activation, Mode, Settings};
