// What a settings file says.
ghost use Rattle.std.specs.Prelude.{◌≡◌, IfOk, IfErr};
ghost use Rattle.cache_model.specs.Settings.{default_settings};
ghost use Rattle.cache_model.specs.declared.faults.ModelFault.TheVariants.{Memory};

use crate::{ModelFault, Prefix};
use std::alloc::Global;

/// When a change reaches the store.
#[derive(Clone, Copy, Debug, PartialEq, Eq)]
pub enum Mode {
    /// At once.
    Through,
    /// Through a queue.
    Behind,
    /// When the entry is given up by the memory.
    Passivation,
}

/// What a read of a stored entry does to the stored copy.
#[derive(Clone, Copy, Debug, PartialEq, Eq)]
pub enum Activation {
    /// It stays.
    Keep,
}

/// The settings of a session.
#[derive(Debug, Drop)]
pub struct Settings {
    /// From which size on a data file is closed, in bytes: 4,096 to 16,777,216.
    pub file_size: u64,
    /// A data file is compacted where fewer percent of it are live: 1 to 99.
    pub compact_below: u64,
    /// How many requests to the index may wait: 1 to 65,536.
    pub queue: usize,
    /// How many nodes of the index are held in memory: 8 to 65,536.
    pub nodes: usize,
    /// How many bits of a key's hash the index uses: 0 to 32.
    pub hash_bits: u32,
    /// Whether each change is synced before it is answered.
    pub sync_writes: bool,
    pub mode: Mode,
    /// How many changes may wait in the mode `Behind`: 1 to 65,536.
    pub behind_limit: usize,
    /// How many entries are held in memory: 1 to 1,000,000.
    pub max_entries: usize,
    /// How many background steps are taken after each reply: 0 to 1,000.
    pub pump: u64,
    /// Whether entries are held from the start.
    pub preload: bool,
    /// What the keys begin with that are preloaded and exported.
    pub publish: Prefix,
    pub activation: Activation,
}

impl Settings {
    /// The settings of a directory that has no settings file.
    pub fn defaults(alloc: Global) -> Result<Settings, ModelFault>
        ensures defaults { IfOk result (λ settings. settings ≡ default_settings) }
        ensures memory { IfErr result (λ fault. fault ≡ Memory) }
    {
        let publish = Prefix::of(alloc, &[])?;
        Ok(Settings {
            file_size: 16_777_216,
            compact_below: 50,
            queue: 1000,
            nodes: 64,
            hash_bits: 32,
            sync_writes: true,
            mode: Mode::Through,
            behind_limit: 1024,
            max_entries: 1000,
            pump: 1,
            preload: false,
            publish,
            activation: Activation::Keep,
        })
    }
}
