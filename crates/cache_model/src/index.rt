// What the index of records holds.

/// What an entry of the index stands under: a record, by the hash of its key and its place. Keys are ordered by the hash,
/// then by the file, then by the offset.
#[derive(Clone, Copy, Debug, PartialEq, Eq, PartialOrd, Ord)]
pub struct IndexKey {
    /// The hash of the record's key, cut to the bits of the index.
    pub hash: u32,
    /// The number of the record's data file, 1 to 4,294,967,294.
    pub file: u32,
    /// The record's offset there.
    pub at: u32,
}

/// What the index holds of a record.
#[derive(Clone, Copy, Debug, PartialEq, Eq)]
pub struct IndexValue {
    /// The record's length, in bytes.
    pub length: u32,
    /// How many records of its key stand in all data files that a crash may leave, 1 or more.
    pub count: u64,
    /// Whether the record removes its key.
    pub gone: bool,
}
