// Items as the code has them.
use cache_model::{BadKind, Key, Until, Value};

/// A part of some bytes.
#[derive(Clone, Copy, Debug, PartialEq, Eq)]
pub struct Span {
    /// The offset of its first byte.
    pub at: usize,
    pub length: usize,
}

/// An item that stands in some bytes, which hold its key and its value. A sequence number and an expiry are below
/// 2^62, the moment of an end is below 2^61.
#[derive(Clone, Copy, Debug, PartialEq, Eq)]
pub enum Item {
    Put {
        seq: u64,
        until: Until,
        key: Span,
        value: Span,
    },
    Removal {
        seq: u64,
        key: Span,
    },
    End {
        moment: u64,
    },
}

/// An item with a key and a value of its own, within the same limits.
#[derive(Debug, Drop)]
pub enum OwnItem {
    Put {
        seq: u64,
        until: Until,
        key: Key,
        value: Value,
    },
    Removal {
        seq: u64,
        key: Key,
    },
    End {
        moment: u64,
    },
}

/// What stands at an offset.
#[derive(Clone, Copy, Debug, PartialEq, Eq)]
pub enum Step {
    /// An item, and the offset behind it.
    Whole(Item, usize),
    /// An item that is cut short.
    Cut,
    /// No item, with the number that is out of its range.
    Bad(BadKind),
}
