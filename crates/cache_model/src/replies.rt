// What a command is answered, and how the program ends.
ghost use Rattle.std.specs.Prelude.{◌≡◌, ◌++◌, [], ◌∷◌, OnOk, OnErr, IfErr};
ghost use Rattle.std.specs.List.Sorted.{IsPermutation, IsSorted};
ghost use Rattle.std.specs.Ordering.{nat_cmp};
ghost use Rattle.std.specs.Cmp.Lexicographic.{slice_cmp};
ghost use Rattle.cache_model.specs.declared.faults.ModelFault.TheVariants.{Memory};

use crate::{Key, ModelFault, Value};
use std::alloc::Global;
use std::marker::Model;

/// What a step of a background actor did.
#[derive(Clone, Copy, Debug, PartialEq, Eq)]
pub enum Turned {
    /// One action.
    Done,
    /// Nothing, since there was nothing to do.
    Idle,
}

/// The figures of a store. Each is given as 2^64 - 1 where it is larger.
#[derive(Clone, Copy, Debug, PartialEq, Eq)]
pub struct Figures {
    /// How many data files there are.
    pub files: u64,
    /// Their sizes together, in bytes.
    pub bytes: u64,
    /// The lengths together of the records that are their key's newest, in bytes.
    pub live: u64,
    /// How many changes wait to be written.
    pub pending: u64,
    /// How many entries are held in memory.
    pub held: u64,
}

/// A list of keys.
#[derive(Debug, Drop)]
pub struct KeyList {
    keys: Vec<Key>,
}

impl Model for KeyList {
    ghost use Rattle.std.specs.Prelude.{List, ℕ};

    ghost Value = { List (List ℕ) };

    ghost view = { λ list. list.keys.items };
}

impl KeyList {
    /// A list of no keys.
    pub fn new(alloc: Global) -> KeyList
        ensures { result ≡ [] }
    {
        KeyList {
            keys: Vec::new(alloc),
        }
    }

    /// Adds a key at the end.
    pub fn push(&mut self, key: Key) -> Result<(), ModelFault>
        ensures added { OnOk result (self.new ≡ self.old ++ key ∷ []) }
        ensures left { OnErr result (self.new ≡ self.old) }
        ensures memory { IfErr result (λ fault. fault ≡ Memory) }
    {
        match self.keys.push(key) {
            Ok(()) => Ok(()),
            Err(_) => Err(ModelFault::Memory),
        }
    }

    /// Brings the keys into the order of their bytes.
    pub fn sort(&mut self)
        ensures keys { IsPermutation self.old self.new }
        ensures ascending { IsSorted (slice_cmp nat_cmp) self.new }
    {
        self.keys
            .sort_unstable_by(|one, other| one.bytes().cmp(other.bytes()));
    }

    /// The keys, in the order in which they were added, or of their bytes from a sort on.
    pub fn keys(&self) -> &[Key]
        ensures { result.now ≡ self.now }
    {
        &self.keys
    }
}

/// What a command is answered.
#[derive(Debug, Drop)]
pub enum Reply {
    Done,
    /// The key is visible, and stays as it was.
    Kept,
    /// The key isn't visible.
    Nothing,
    /// The key is visible with another value than the wanted one.
    Differs,
    Found(Value),
    Yes,
    No,
    /// How many keys are visible.
    Size(u64),
    /// The visible keys, in the order of their bytes.
    Keys(KeyList),
    /// How many keys were removed.
    Cleared(u64),
    Turned(Turned),
    Compacted,
    Stats(Figures),
    /// How many entries were exported.
    Exported(u64),
    /// The moment that was asked for is past; this is the session's.
    Past(u64),
    Stopped,
    Halted,
}

/// How a run of the program ends. `status as u8` is the process's exit status.
#[derive(Clone, Copy, Debug, PartialEq, Eq)]
pub enum Status {
    /// The script was read to its end, or to `stop` or `halt`, and every reply was said.
    Done = 0,
    /// The words, or the directory, are none that the program takes.
    Usage = 2,
    /// The settings file is none.
    Settings = 3,
    /// A file isn't in its grammar.
    Damaged = 4,
    /// The disk failed.
    DiskFailed = 5,
    /// The input failed.
    ScriptFailed = 6,
    /// The output failed.
    SayFailed = 7,
    /// Memory was wanted where nothing else could be answered.
    NoMemory = 8,
    /// A number has reached its end.
    Spent = 9,
    /// As many lines as one run takes were taken, and none of them ended it.
    LinesSpent = 10,
}
