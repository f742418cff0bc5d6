// A plain reader of data files, written from their format alone: gates, the version, frames, and of the records that
// count the newest of each key.
use super::crashes::{FIRST_MOMENT, KEYS, LATER};
use cache_model::{FileKind, Until};
use cache_script::opened_line;
use host_memory::DiskFile;
use record_format::{Item, Span, Step, decode};
use std::alloc::Global;
use std::process::Abort;
use std::test::Fail;

// A gate that is open, and the version of the format.
const OPEN: u8 = 1;

const VERSION: u8 = 1;

// A record that counts, with the number of its file and its offset there.
#[derive(Clone, Copy, Debug)]
struct Record<'a> {
    key: &'a [u8],
    seq: u64,
    file: u32,
    at: usize,
    // None where it removes its key.
    entry: Option<(&'a [u8], Until)>,
}

// The records that count in an image, and the greatest moment of their frames.
#[derive(Debug, Drop)]
pub(super) struct Records<'a> {
    all: Vec<Record<'a>>,
    mark: u64,
}

// A part of some bytes.
fn part<'a>(rt: &impl Abort, bytes: &'a [u8], span: Span) -> &'a [u8] {
    let rest = bytes.get(span.at..).expect(rt, "the part begins");
    rest.get(..span.length).expect(rt, "the part ends")
}

// The record that an item is, where it is one.
fn record_of<'a>(
    rt: &impl Abort,
    bytes: &'a [u8],
    item: Item,
    file: u32,
    at: usize,
) -> Option<Record<'a>> {
    match item {
        Item::Put {
            seq,
            until,
            key,
            value,
        } => Some(Record {
            key: part(rt, bytes, key),
            seq,
            file,
            at,
            entry: Some((part(rt, bytes, value), until)),
        }),
        Item::Removal { seq, key } => Some(Record {
            key: part(rt, bytes, key),
            seq,
            file,
            at,
            entry: None,
        }),
        Item::End { moment: _ } => None,
    }
}

// Where the first item stands, None where no frame counts.
fn first_place(rt: &impl Abort, bytes: &[u8]) -> Option<usize> {
    match bytes {
        [OPEN, version, ..] => {
            assert_eq!(rt; *version, VERSION);
            Some(2)
        }
        _ => None,
    }
}

// Where the next item stands, behind one that ends at an offset. Behind the end of a frame it's behind an open gate.
fn next_place(rt: &impl Abort, bytes: &[u8], item: Item, end: usize) -> Option<usize> {
    match item {
        Item::End { moment: _ } => {
            let gate = bytes.get(end).expect(rt, "a gate behind each frame");
            if *gate == OPEN { Some(end + 1) } else { None }
        }
        _ => Some(end),
    }
}

impl<'a> Records<'a> {
    // Of all data files of the main store.
    pub(super) fn read(
        rt: &impl Abort,
        alloc: Global,
        image: &'a [DiskFile],
    ) -> Result<Records<'a>, Fail> {
        let mut records = Records {
            all: Vec::new(alloc),
            mark: FIRST_MOMENT,
        };
        for file in image {
            let name = file.name();
            if name.kind == FileKind::Log && name.store == 0 {
                records.read_file(rt, name.id, file.bytes())?;
            }
        }
        Ok(records)
    }

    // Takes the records of one file.
    fn read_file(&mut self, rt: &impl Abort, file: u32, bytes: &'a [u8]) -> Result<(), Fail> {
        let mut place = first_place(rt, bytes);
        // Each item has a byte.
        for _ in bytes {
            let Some(at) = place else {
                return Ok(());
            };
            assert!(rt; at <= bytes.len());
            let Step::Whole(item, end) = decode(bytes, at) else {
                panic!(rt; "no item at {at}");
            };
            if let Item::End { moment } = item {
                self.mark = self.mark.max(moment);
            }
            if let Some(record) = record_of(rt, bytes, item, file, at) {
                self.all.push(record)?;
            }
            place = next_place(rt, bytes, item, end);
        }
        assert_eq!(rt; place, None, "the file ends in an item");
        Ok(())
    }

    // What a run says that reads the keys at the mark and later.
    pub(super) fn reading(&self, alloc: Global) -> Result<Vec<u8>, Fail> {
        let mut said = opened_line(alloc, self.mark)?.into_bytes();
        self.push_answers(&mut said, self.mark)?;
        said.extend_from_slice(b"ok\n")?;
        self.push_answers(&mut said, LATER)?;
        said.extend_from_slice(b"stopped\n")?;
        Ok(said)
    }

    // Adds what is said of the keys at a moment: which have a value, and then each one's.
    fn push_answers(&self, said: &mut Vec<u8>, moment: u64) -> Result<(), Fail> {
        said.extend_from_slice(b"keys")?;
        for key in KEYS {
            if self.value_of(key.as_bytes(), moment).is_some() {
                said.push(b' ')?;
                said.extend_from_slice(key.as_bytes())?;
            }
        }
        said.push(b'\n')?;
        for key in KEYS {
            push_answer(said, self.value_of(key.as_bytes(), moment))?;
        }
        Ok(())
    }

    // The value of a key at a moment, by its newest record.
    fn value_of(&self, key: &[u8], moment: u64) -> Option<&'a [u8]> {
        let mut newest: Option<Record<'a>> = None;
        for record in &self.all {
            if record.key == key && is_newer(record, newest) {
                newest = Some(*record);
            }
        }
        match newest?.entry? {
            (value, Until::Never) => Some(value),
            (value, Until::At(end)) => if moment < end { Some(value) } else { None },
        }
    }
}

// Adds what is said of a key with this value.
fn push_answer(said: &mut Vec<u8>, value: Option<&[u8]>) -> Result<(), Fail> {
    match value {
        Some(value) => {
            said.extend_from_slice(b"value ")?;
            said.extend_from_slice(value)?;
            said.push(b'\n')?;
        }
        None => said.extend_from_slice(b"none\n")?,
    }
    Ok(())
}

// Whether a record is newer: by the sequence number, then the file, then the offset.
fn is_newer(record: &Record<'_>, other: Option<Record<'_>>) -> bool {
    match other {
        Some(other) => (other.seq, other.file, other.at) < (record.seq, record.file, record.at),
        None => true,
    }
}
