// What a script may ask for.
use crate::{Key, Lifespan, Value};

/// One action of a background actor.
#[derive(Clone, Copy, Debug, PartialEq, Eq)]
pub enum StepKind {
    /// Applies one waiting request to the index.
    Index,
    /// Writes the first pending change.
    Flush,
    /// Takes one turn of a compaction.
    Compact,
    /// Gives up the held entry that was used least recently.
    Evict,
    /// Gives up the held entry that expired first.
    Reap,
    /// Closes the data file that is being written.
    Rotate,
}

/// What a line of a script asks for.
#[derive(Debug, Drop)]
pub enum Command {
    /// Sets the session's moment. Below 2^61.
    At(u64),
    /// Puts the value under the key.
    Put(Key, Value, Lifespan),
    /// Puts it where the key isn't visible.
    PutAbsent(Key, Value, Lifespan),
    /// Puts it where the key is visible.
    Replace(Key, Value, Lifespan),
    /// Puts it where the key is visible with the wanted value: the key, that value, the new one and its lifespan.
    ReplaceIf(Key, Value, Value, Lifespan),
    Get(Key),
    Has(Key),
    Remove(Key),
    /// Removes the key where it is visible with this value.
    RemoveIf(Key, Value),
    /// How many keys are visible.
    Size,
    /// Which keys are visible.
    Keys,
    /// Removes every visible key.
    Clear,
    Step(StepKind),
    /// Gives up the key's entry in memory. The plain map stays.
    Evict(Key),
    /// Writes and syncs all that waits.
    Sync,
    /// Compacts each data file.
    CompactAll,
    /// Compacts the data file of this number.
    CompactFile(u32),
    Stats,
    Export,
    /// Ends the session as the end of the script does.
    Stop,
    /// Ends it at once, with nothing more written.
    Halt,
}
