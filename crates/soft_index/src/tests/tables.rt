// Sessions that change three keys, and the ways in which a store is run through them.

/// A change of a key: a text so many times over as its value, and until when, or a removal.
pub type Row = (&'static str, Option<(&'static str, usize, Option<u32>)>);

/// The moment of a session, and its changes.
pub type Session = (u32, [Row; 4]);

/// Three keys, and the sessions that change them.
pub struct Table {
    pub keys: [&'static str; 3],
    pub sessions: [Session; 3],
}

/// How a store is run: its settings, and how many index steps and then turns of a compaction follow each change. Behind
/// them a file is compacted whole, where its number isn't 0: that file, or the last one before the current one where its
/// number is less.
#[derive(Drop)]
pub struct Way {
    pub hash_bits: u32,
    pub queue: usize,
    pub sync_writes: bool,
    pub steps: usize,
    pub turns: usize,
    pub file: u32,
}

/// The moment of the last session.
pub const LAST: u64 = 3000;

/// The first value of `c` fills a file of 4,096 bytes.
pub const LONG: Table = Table {
    keys: ["a", "b", "c"],
    sessions: [
        (
            1000,
            [
                ("a", Some(("1", 1, None))),
                ("b", Some(("2", 2, Some(1500)))),
                ("a", Some(("3", 3, None))),
                ("c", Some(("4", 4090, None))),
            ],
        ),
        (
            2000,
            [
                ("a", None),
                ("c", Some(("5", 0, None))),
                ("a", Some(("6", 1, Some(2000)))),
                ("b", Some(("7", 2000, Some(9000)))),
            ],
        ),
        (
            3000,
            [
                ("b", None),
                ("c", Some(("8", 2100, None))),
                ("c", None),
                ("a", Some(("9", 1, None))),
            ],
        ),
    ],
};

/// The changes that conditional puts and removals and a `clear` of two keys make, and the first of them once more.
pub const SHORT: Table = Table {
    keys: ["a", "x", "y"],
    sessions: [
        (
            1000,
            [
                ("a", Some(("1", 1, None))),
                ("a", Some(("3", 1, None))),
                ("a", Some(("4", 1, None))),
                ("a", None),
            ],
        ),
        (
            1000,
            [
                ("x", Some(("\0 ", 1, None))),
                ("y", Some(("", 1, None))),
                ("x", None),
                ("y", None),
            ],
        ),
        (
            3000,
            [
                ("a", Some(("1", 1, None))),
                ("a", Some(("3", 1, None))),
                ("a", Some(("4", 1, None))),
                ("a", None),
            ],
        ),
    ],
};

/// Keys of which a bit or two of hash tells none apart, the middle one of which is removed again and again.
pub const MIDDLE: Table = Table {
    keys: ["a", "b", "bb"],
    sessions: [
        (
            1000,
            [
                ("a", Some(("1", 1, None))),
                ("b", Some(("2", 2, None))),
                ("bb", Some(("3", 3, None))),
                ("b", None),
            ],
        ),
        (
            2000,
            [
                ("b", Some(("4", 4, None))),
                ("a", Some(("5", 5, None))),
                ("b", None),
                ("bb", Some(("6", 6, Some(3000)))),
            ],
        ),
        (
            3000,
            [
                ("a", Some(("7", 7, None))),
                ("bb", None),
                ("b", Some(("8", 8, None))),
                ("bb", Some(("9", 9, None))),
            ],
        ),
    ],
};

/// Ways of which a change finds the queue full, or leaves room in it, or is in the index before the next one. Behind some,
/// a compaction goes on between the changes, or whole ones take place, also of a file that is named.
pub const WAYS: [(u32, usize, bool, usize, usize, u32); 12] = [
    (0, 1, true, 0, 0, 0),
    (0, 2, false, 1, 0, 0),
    (3, 2, true, 0, 0, 0),
    (3, 16, false, 2, 0, 0),
    (32, 1, true, 1, 0, 0),
    (32, 16, false, 0, 0, 0),
    (0, 1, true, 0, 1, 0),
    (3, 2, false, 1, 3, 0),
    (32, 16, true, 0, 20, 0),
    (0, 1, true, 0, 0, 1),
    (3, 16, false, 1, 1, 1),
    (32, 2, true, 0, 2, u32::MAX),
];

pub fn way_of(row: (u32, usize, bool, usize, usize, u32)) -> Way {
    Way {
        hash_bits: row.0,
        queue: row.1,
        sync_writes: row.2,
        steps: row.3,
        turns: row.4,
        file: row.5,
    }
}
