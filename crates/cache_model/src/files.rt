// The files of a directory, and places in them.

/// What a file is for.
#[derive(Clone, Copy, Debug, PartialEq, Eq)]
pub enum FileKind {
    /// The settings, `cache.toml`.
    Rules,
    /// A data file, `s<store>-<id>.log`.
    Log,
    /// The index, `s<store>.tree`.
    Tree,
    /// A base or an export, `base<store>.dat`.
    Base,
}

/// A file of the directory. The id is 1 to 4,294,967,294 for a Log and 0 for every other kind; the store is 0 for
/// Rules, 0 or 1 for a Base, and any for the others.
#[derive(Clone, Copy, Debug, PartialEq, Eq)]
pub struct FileName {
    pub kind: FileKind,
    pub store: u8,
    pub id: u32,
}

/// Where a record stands: its data file, its offset there and its length, in bytes.
#[derive(Clone, Copy, Debug, PartialEq, Eq)]
pub struct Place {
    pub file: u32,
    pub at: u32,
    pub length: u32,
}

/// The figures of one data file.
#[derive(Clone, Copy, Debug, PartialEq, Eq)]
pub struct FileCount {
    pub number: u32,
    /// Its length, in bytes.
    pub size: u64,
    /// How many of them belong to records that are the newest of their keys.
    pub live: u64,
}
