// Why a call didn't do its work.
use crate::FileName;
use thiserror::Error;

/// What is wrong with the bytes at a damaged place, with the number that was found there.
#[derive(Clone, Copy, Debug, PartialEq, Eq)]
pub enum BadKind {
    /// The first byte of no item.
    Tag(u8),
    /// A key length of 0, or above 1,024.
    KeyLength(u16),
    /// A value length above 65,536.
    ValueLength(u32),
    /// An expiry that is neither all ones nor below 2^62.
    Until(u64),
    /// The moment of a frame's end, 2^61 or more.
    Moment(u64),
    /// A sequence number of 2^62 or more.
    Sequence(u64),
    /// The version byte of a file, other than 1.
    Version(u8),
    /// The file ends too early.
    Cut,
    /// A key that isn't above the one before it.
    Order,
    /// The first gate of a base file, which isn't open.
    Gate(u8),
    /// A block of the index that isn't whole, or isn't of the kind that is asked for, or an index whose figures would
    /// leave their range.
    Node,
    /// An item that begins at 2^32 or above, or a record that isn't the one that was looked for.
    Place,
}

/// A damaged place of a file, and what is wrong there.
#[derive(Clone, Copy, Debug, PartialEq, Eq)]
pub struct Damage {
    pub file: FileName,
    /// The offset in bytes.
    pub at: u64,
    pub kind: BadKind,
}

/// A number that has reached its end, with the number.
#[derive(Clone, Copy, Debug, PartialEq, Eq)]
pub enum Spent {
    /// The next data file's number.
    Files(u64),
    /// The next change's sequence number.
    Sequence(u64),
    /// The next block of the index.
    Blocks(u64),
    /// The bytes of an export's records.
    Export(u64),
}

/// Why a call with a host didn't do its work.
#[derive(Debug, Drop, Error)]
pub enum StoreFault {
    #[error("the disk failed")]
    Failed,
    #[error("out of memory")]
    Memory,
    #[error("a number is spent")]
    Spent(Spent),
    #[error("a file is damaged")]
    Damaged(Damage),
}

/// Why a call without a host didn't do its work.
#[derive(Debug, Drop, Error)]
pub enum ModelFault {
    #[error("a key of {0} bytes")]
    KeyLength(usize),
    #[error("a value of {0} bytes")]
    ValueLength(usize),
    #[error("out of memory")]
    Memory,
}
