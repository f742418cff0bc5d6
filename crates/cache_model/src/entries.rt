// What is kept under a key, and how long.
ghost use Rattle.std.specs.Prelude.{◌≡◌, IfOk, IfErr};
ghost use Rattle.cache_model.specs.declared.faults.ModelFault.TheVariants.{Memory};

use crate::{Key, ModelFault, Value};

/// The moment from which an entry is expired, in the units of a session's moments.
#[derive(Clone, Copy, Debug, PartialEq, Eq)]
pub enum Until {
    /// It never expires.
    Never,
    /// It is expired at this moment and at every later one. Below 2^62.
    At(u64),
}

/// How long an entry is to live, counted from the moment at which it is put.
#[derive(Clone, Copy, Debug, PartialEq, Eq)]
pub enum Lifespan {
    /// Without end.
    Endless,
    /// So many units. Below 2^61; with 0 the entry is expired at once.
    Of(u64),
}

/// A value with the moment at which it expires.
#[derive(Debug, Drop)]
pub struct Entry {
    pub value: Value,
    pub until: Until,
}

impl Entry {
    /// Another entry with the same value and the same end.
    pub fn copy(&self) -> Result<Entry, ModelFault>
        ensures equal { IfOk result (λ entry. entry ≡ self.now) }
        ensures memory { IfErr result (λ fault. fault ≡ Memory) }
    {
        Ok(Entry {
            value: self.value.copy()?,
            until: self.until,
        })
    }
}

/// One change of the store.
#[derive(Debug, Drop)]
pub enum Change {
    Put(Key, Entry),
    Remove(Key),
}

/// What a store has of a key.
#[derive(Debug, Drop)]
pub enum Answer {
    /// A visible entry.
    Known(Entry),
    /// Nothing visible, and nothing below this store counts.
    Gone,
    /// Nothing that this store knows of.
    Unknown,
}
