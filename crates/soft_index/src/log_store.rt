// A store over the data files of a directory, which keeps every key.
use compactor::Parts;

/// A store over the data files of a directory. Its values are on the disk alone: a read finds the place of the newest
/// record and fetches it. It forgets no key.
#[derive(Drop)]
pub(crate) struct LogStore {
    // what writes the records and finds them
    pub(crate) parts: Parts,
    pub(crate) latest: u64,
    pub(crate) sync_writes: bool,
}
