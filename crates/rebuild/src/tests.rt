// What is rebuilt: worked files, and drawn ones beside a plain reading of them.
ghost use Rattle.std.specs.Prelude.{◌≡◌, ◌≤◌, ◌<◌, IsTrue, IfOk, false};
ghost use Rattle.cache_model.specs.Files.{IsFileName, bytes_in};
ghost use Rattle.cache_model.specs.Images.{log_name};
ghost use Rattle.data_file.specs.Scanning.{scanned_name, is_spoilt, IsScanOf};
ghost use Rattle.rebuild.specs.Listing.{IsNumber};

use crate::data_files::log_name;
use crate::rebuild;
use cache_disk::Host;
use cache_model::{
    FileCount, FileKind, FileName, IndexKey, IndexValue, Key, Place, StoreFault, hash,
};
use data_file::{Scan, Scanned};
use file_stats::Found;
use host_memory::MemoryHost;
use record_format::OwnItem;
use std::alloc::Global;
use std::process::Abort;
use std::test::Fail;
use tree_index::Tree;

/// A part of a data file.
#[derive(Clone, Copy, Debug)]
enum Part {
    /// An open gate and the version.
    Front,
    /// A put by its sequence number, its key and the length of its value.
    Put(u64, u8, u32),
    /// A removal by its sequence number and its key.
    Removal(u64, u8),
    End(u64),
    /// A gate, or whatever stands in the place of something else.
    Byte(u8),
}

use Part::{Byte, End, Front, Put, Removal};

/// A data file by its number.
type File = (u32, &'static [Part]);

/// The greatest number of a data file.
const LAST: u32 = 4_294_967_294;

/// The numbers of all files.
const NUMBERS: [u32; 4] = [1, 2, 7, LAST];

/// Data files, and what is found of them: each entry's file, offset, length and count, each file's live bytes and its
/// size, the next file, the next sequence number and the mark.
const WORKED: [(&[File], &str); 10] = [
    (&[], "next 1 1 mark 0"),
    // No frame counts but an empty one.
    (
        &[
            (1, &[]),
            (2, &[Byte(0), Put(1, b'a', 0)]),
            (7, &[Front, End(6), Byte(0)]),
            (LAST, &[Byte(1)]),
        ],
        "1 0/0; 2 0/25; 7 0/12; 4294967294 0/1; next 4294967295 1 mark 6",
    ),
    // The greater number is in the file in front.
    (
        &[
            (2, &[Front, Put(3, b'a', 1), End(5), Byte(0)]),
            (1, &[Front, Put(9, b'a', 0), End(7), Byte(0)]),
        ],
        "1@2 24 x2; 1 24/36; 2 0/37; next 3 10 mark 7",
    ),
    // Of equal numbers the one that stands last counts.
    (
        &[
            (
                1,
                &[
                    Front,
                    Put(4, b'a', 0),
                    Put(4, b'b', 0),
                    Put(4, b'a', 2),
                    End(5),
                    Byte(0),
                ],
            ),
            (2, &[Front, Removal(4, b'b'), End(4), Byte(0)]),
        ],
        "1@50 26 x2; 2@2 12 x2 gone; 1 26/86; 2 12/24; next 3 5 mark 5",
    ),
    // A removal is the newest record, and what stands behind the closed gate isn't counted.
    (
        &[(
            1,
            &[
                Front,
                Removal(8, b'a'),
                End(3),
                Byte(1),
                Put(2, b'a', 3),
                Put(5, b'b', 0),
                End(1),
                Byte(0),
                Put(9, b'a', 0),
                End(9),
                Byte(0),
            ],
        )],
        "1@2 12 x2 gone; 1@51 24 x1; 1 36/119; next 2 9 mark 3",
    ),
    // The greatest numbers that there are.
    (
        &[(
            7,
            &[
                Front,
                Put(4_611_686_018_427_387_903, b'a', 0),
                End(2_305_843_009_213_693_951),
                Byte(0),
            ],
        )],
        "7@2 24 x1; 7 24/36; next 8 4611686018427387904 mark 2305843009213693951",
    ),
    // The first damage is the one that is named.
    (
        &[
            (7, &[Byte(1), Byte(0)]),
            (2, &[Front, Put(1, b'a', 0), Byte(9)]),
            (1, &[Front, Put(1, b'a', 0), End(1), Byte(0)]),
        ],
        "2@26 Tag(9)",
    ),
    (&[(2, &[Front, Put(1, b'a', 0)])], "2@26 Cut"),
    (
        &[
            (2, &[Front, Put(1, b'a', 0), End(1), Byte(7)]),
            (7, &[Byte(1), Byte(2)]),
        ],
        "7@1 Version(2)",
    ),
    (
        &[(
            1,
            &[
                Front,
                Removal(4_611_686_018_427_387_904, b'a'),
                End(1),
                Byte(0),
            ],
        )],
        "1@2 Sequence(4611686018427387904)",
    ),
];

/// The bytes of a part at the end.
fn push_part(bytes: &mut Vec<u8>, part: Part) -> Result<(), Fail> {
    match part {
        Front => bytes.extend_from_slice(&[1, 1])?,
        Put(seq, key, length) => {
            bytes.push(1)?;
            bytes.extend_from_slice(&seq.to_be_bytes())?;
            bytes.extend_from_slice(&[255; 8])?;
            bytes.extend_from_slice(&[0, 1])?;
            bytes.extend_from_slice(&length.to_be_bytes())?;
            bytes.push(key)?;
            for _ in 0..length {
                bytes.push(b'v')?;
            }
        }
        Removal(seq, key) => {
            bytes.push(2)?;
            bytes.extend_from_slice(&seq.to_be_bytes())?;
            bytes.extend_from_slice(&[0, 1, key])?;
        }
        End(moment) => {
            bytes.push(0)?;
            bytes.extend_from_slice(&moment.to_be_bytes())?;
        }
        Byte(byte) => bytes.push(byte)?,
    }
    Ok(())
}

/// Makes a file of these bytes, where there is none of its name.
fn make(host: &mut MemoryHost, name: FileName, bytes: &[u8]) -> Result<(), Fail>
    requires { IsFileName name }
{
    if host.file(name).is_none() {
        host.create(name)?;
    }
    match host.file(name) {
        Some(_) => Ok(host.write(name, 0, bytes)?),
        None => Ok(()),
    }
}

/// A host in memory with files that aren't data files of the main store.
fn host_of(alloc: Global, short: u64) -> Result<MemoryHost, Fail> {
    let mut host = MemoryHost::new(
        alloc,
        Vec::new(alloc),
        Vec::new(alloc),
        Vec::new(alloc),
        short,
    )?;
    let of_another = FileName {
        kind: FileKind::Log,
        store: 1,
        id: 2,
    };
    make(&mut host, of_another, &[1, 9])?;
    let tree = FileName {
        kind: FileKind::Tree,
        store: 0,
        id: 0,
    };
    make(&mut host, tree, b"tree")?;
    Ok(host)
}

/// Makes a data file.
fn make_log(rt: &impl Abort, host: &mut MemoryHost, number: u32, bytes: &[u8]) -> Result<(), Fail> {
    assert!(rt; 1 <= number && number <= LAST);
    make(host, log_name(number), bytes)
}

/// An index in the order of its entries.
type Rows = Vec<(IndexKey, IndexValue)>;

/// What is rebuilt by so many bits of the hash, where there are no more entries than so many.
fn rebuilt<H: Host>(
    alloc: Global,
    host: &mut H,
    bits: u32,
    most: usize,
) -> Result<(Rows, Found), StoreFault>
    requires { bits ≤ 32 }
{
    let mut tree = Tree::make(alloc, host, 0, bits, 8)?;
    let found = rebuild(alloc, host, 0, bits, &mut tree)?;
    let mut rows = Vec::new(alloc);
    let mut after = None;
    for _ in 0..most.saturating_add(1) {
        if let Some(row) = tree.next(host, after)? {
            rows.push(row).map_err(|_| StoreFault::Memory)?;
            after = Some(row.0);
        }
    }
    Ok((rows, found))
}

/// What was rebuilt, as text.
fn text_of(alloc: Global, rows: &[(IndexKey, IndexValue)], found: &Found) -> Result<String, Fail> {
    let mut text = String::new(alloc);
    for (place, value) in rows {
        let gone = if value.gone { " gone" } else { "" };
        let (length, count) = (value.length, value.count);
        let row = format!(in alloc; "{}@{} {length} x{count}{gone}; ", place.file, place.at)?;
        text.push_str(&row)?;
    }
    for row in found.files.rows() {
        let row = format!(in alloc; "{} {}/{}; ", row.number, row.live, row.size)?;
        text.push_str(&row)?;
    }
    let (next_file, next_seq, mark) = (found.next_file, found.next_seq, found.mark);
    let rest = format!(in alloc; "next {next_file} {next_seq} mark {mark}")?;
    text.push_str(&rest)?;
    Ok(text)
}

/// What is rebuilt, or its first damage, as text. The entries stand in the order of their places.
fn answer_of(alloc: Global, host: &mut MemoryHost, bits: u32) -> Result<String, Fail>
    requires { bits ≤ 32 }
{
    match rebuilt(alloc, host, bits, 9) {
        Ok((mut rows, found)) => {
            rows.sort_unstable_by_key(|row| (row.0.file, row.0.at));
            text_of(alloc, &rows, &found)
        }
        Err(StoreFault::Damaged(damage)) => {
            let (file, at, kind) = (damage.file.id, damage.at, damage.kind);
            Ok(format!(in alloc; "{file}@{at} {kind:?}")?)
        }
        Err(fault) => Err(fault.into()),
    }
}

#[test]
fn worked_files_are_rebuilt(rt: HostRuntime) -> Result<(), Fail> {
    let alloc = rt.alloc();
    for (files, want) in &WORKED {
        let mut host = host_of(alloc, 0)?;
        for (number, parts) in *files {
            let mut bytes = Vec::new(alloc);
            for part in *parts {
                push_part(&mut bytes, *part)?;
            }
            make_log(&rt, &mut host, *number, &bytes)?;
        }
        for bits in [0, 1, 32] {
            let answer = answer_of(alloc, &mut host, bits)?;
            assert_eq!(rt; answer.as_str(), *want, "{files:?} by {bits} bits");
        }
    }
    Ok(())
}

/// A record, as a plain reading finds it.
#[derive(Drop)]
struct Seen {
    key: Key,
    seq: u64,
    place: Place,
    gone: bool,
}

/// What a plain reading finds: each record and each file, and the greatest numbers.
#[derive(Drop)]
struct Plain {
    seen: Vec<Seen>,
    counts: Vec<FileCount>,
    next_file: u32,
    next_seq: u64,
    mark: u64,
}

impl Plain {
    /// One record more.
    fn see(&mut self, key: Key, seq: u64, place: Place, gone: bool) -> Result<(), StoreFault> {
        self.next_seq = self.next_seq.max(seq.saturating_add(1));
        let one = Seen {
            key,
            seq,
            place,
            gone,
        };
        self.seen.push(one).map_err(|_| StoreFault::Memory)
    }

    /// One item more.
    fn note(&mut self, one: Scanned) -> Result<(), StoreFault> {
        let place = one.place;
        match one.item {
            OwnItem::Put { seq, key, .. } => self.see(key, seq, place, false),
            OwnItem::Removal { seq, key } => self.see(key, seq, place, true),
            OwnItem::End { moment } => {
                self.mark = self.mark.max(moment);
                Ok(())
            }
        }
    }

    /// Whether no record of its key is newer.
    fn is_newest(&self, one: &Seen) -> bool {
        let rank = (one.seq, one.place.file, one.place.at);
        self.seen.iter().all(|other| other.key != one.key
            || (other.seq, other.place.file, other.place.at) <= rank)
    }

    /// How many records there are of a key.
    fn count(&self, key: &Key) -> u64 {
        self.seen.iter().filter(|other| other.key == *key).count() as u64
    }

    /// The index of these records.
    fn index(&self, alloc: Global, bits: u32) -> Result<Rows, Fail>
        requires { bits ≤ 32 }
    {
        let mut rows = Vec::new(alloc);
        for one in &self.seen {
            if self.is_newest(one) {
                let place = IndexKey {
                    hash: hash(&one.key, bits),
                    file: one.place.file,
                    at: one.place.at,
                };
                let value = IndexValue {
                    length: one.place.length,
                    count: self.count(&one.key),
                    gone: one.gone,
                };
                rows.push((place, value))?;
            }
        }
        rows.sort_unstable_by_key(|row| row.0);
        Ok(rows)
    }

    /// How many bytes of a file are live.
    fn live(&self, number: u32) -> u64 {
        let mut live = 0_u64;
        for one in &self.seen {
            if one.place.file == number && self.is_newest(one) {
                live = live.saturating_add(u64::from(one.place.length));
            }
        }
        live
    }

    /// Counts the live bytes of each file.
    fn count_live(&mut self) {
        for i in 0..self.counts.len() {
            self.counts[i].live = self.live(self.counts[i].number);
        }
    }
}

/// All that a scan has still to give.
fn read_on<H: Host>(
    host: &mut H,
    scan: &mut Scan,
    number: u32,
    plain: &mut Plain,
) -> Result<(), StoreFault>
    requires number { IsNumber number }
    requires sound { is_spoilt scan.old ≡ false }
    requires name { scanned_name scan.old ≡ log_name number }
    requires scans { IsTrue H.tells → IsScanOf scan.old (bytes_in (H.state host.old).files (log_name number)) }
{
    while let Some(one) = scan.next(host)? {
        plain.note(one)?;
    }
    Ok(())
}

/// What a plain reading finds of all files.
fn plain_of<H: Host>(alloc: Global, host: &mut H) -> Result<Plain, StoreFault> {
    let mut plain = Plain {
        seen: Vec::new(alloc),
        counts: Vec::new(alloc),
        next_file: 1,
        next_seq: 1,
        mark: 0,
    };
    for number in NUMBERS {
        if let Some(size) = host.size(log_name(number))? {
            let mut scan = Scan::new(alloc, log_name(number), size)?;
            read_on(host, &mut scan, number, &mut plain)?;
            let row = FileCount {
                number,
                size,
                live: 0,
            };
            plain.counts.push(row).map_err(|_| StoreFault::Memory)?;
            plain.next_file = number.saturating_add(1);
        }
    }
    plain.count_live();
    Ok(plain)
}

/// The next drawn number below a limit.
fn draw(state: &mut u32, limit: u32) -> u32
    requires { 0 < limit }
    ensures { result < limit }
{
    *state = state.wrapping_mul(1_664_525).wrapping_add(1_013_904_223);
    (*state >> 16) % limit
}

/// A drawn record: of few keys and few sequence numbers, so that each is drawn again.
fn draw_record(state: &mut u32) -> Part {
    let seq = u64::from(draw(state, 6));
    let key = b"abcde"[draw(state, 5) as usize];
    if draw(state, 3) == 0 {
        Removal(seq, key)
    } else {
        Put(seq, key, draw(state, 4))
    }
}

/// A drawn frame, and the gate behind it.
fn draw_frame(state: &mut u32, bytes: &mut Vec<u8>, gate: u8) -> Result<(), Fail> {
    for _ in 0..draw(state, 4) {
        push_part(bytes, draw_record(state))?;
    }
    push_part(bytes, End(u64::from(draw(state, 50))))?;
    push_part(bytes, Byte(gate))
}

/// A drawn file with a frame behind the closed gate. Some are cut short, and in some a byte is another one.
fn draw_file(alloc: Global, state: &mut u32) -> Result<Vec<u8>, Fail> {
    let mut bytes = Vec::new(alloc);
    push_part(&mut bytes, Front)?;
    for _ in 0..draw(state, 3) {
        draw_frame(state, &mut bytes, 1)?;
    }
    draw_frame(state, &mut bytes, 0)?;
    draw_frame(state, &mut bytes, 1)?;
    let at = draw(state, 200) as usize;
    let change = draw(state, 6);
    if change == 0 {
        bytes.truncate(at);
    } else if change == 1 && at < bytes.len() {
        bytes[at] = draw(state, 256) as u8;
    }
    Ok(bytes)
}

/// A host with drawn files.
fn draw_host(rt: &impl Abort, alloc: Global, state: &mut u32) -> Result<MemoryHost, Fail> {
    let mut host = host_of(alloc, u64::from(draw(state, 20)))?;
    for number in [7, LAST, 1, 2] {
        let bytes = draw_file(alloc, state)?;
        if draw(state, 4) != 0 {
            make_log(rt, &mut host, number, &bytes)?;
        }
    }
    Ok(host)
}

/// What is rebuilt is what a plain reading finds, damage too. Says whether the files are undamaged.
fn is_rebuilt(
    rt: &impl Abort,
    alloc: Global,
    host: &mut MemoryHost,
    bits: u32,
) -> Result<bool, Fail>
    requires { bits ≤ 32 }
{
    match plain_of(alloc, host) {
        Ok(plain) => {
            let wanted = plain.index(alloc, bits)?;
            let (rows, found) = rebuilt(alloc, host, bits, wanted.len())?;
            assert!(rt; rows == wanted, "{rows:?}, and not {wanted:?}");
            assert_eq!(rt; found.files.rows(), plain.counts.as_slice());
            let numbers = (found.next_file, found.next_seq, found.mark);
            assert_eq!(rt; numbers, (plain.next_file, plain.next_seq, plain.mark));
            Ok(true)
        }
        Err(StoreFault::Damaged(wanted)) => {
            match rebuilt(alloc, host, bits, 0) {
                Err(StoreFault::Damaged(damage)) => assert_eq!(rt; damage, wanted),
                _ => panic!(rt; "no damage, and not {wanted:?}"),
            }
            Ok(false)
        }
        Err(fault) => Err(fault.into()),
    }
}

#[test]
fn drawn_files_are_rebuilt_as_a_plain_reading_finds_them(rt: HostRuntime) -> Result<(), Fail> {
    let alloc = rt.alloc();
    let mut state = 1;
    let mut sound = 0_usize;
    for _ in 0..200 {
        let mut host = draw_host(&rt, alloc, &mut state)?;
        for bits in [0, 2, 32] {
            if is_rebuilt(&rt, alloc, &mut host, bits)? {
                sound = sound.saturating_add(1);
            }
        }
    }
    assert!(rt; 100 < sound && sound < 500, "{sound} of 600 are undamaged");
    Ok(())
}

/// Whether it ends with the fault of a disk whose call of this number fails, and else is as it should be.
fn ends_where_it_fails(
    rt: &impl Abort,
    alloc: Global,
    host: &MemoryHost,
    bits: u32,
    call: u64,
) -> Result<bool, Fail>
    requires { bits ≤ 32 }
{
    let files = host.image_at(host.turns(), 1)?;
    let fails = [call].to_vec(alloc)?;
    let mut failing = MemoryHost::new(alloc, files, fails, Vec::new(alloc), 0)?;
    match rebuilt(alloc, &mut failing, bits, 0) {
        Ok(_) => Ok(false),
        Err(fault) => {
            assert!(rt; matches!(&fault, StoreFault::Failed), "{fault:?}");
            Ok(true)
        }
    }
}

#[test]
fn it_ends_at_each_call_that_fails(rt: HostRuntime) -> Result<(), Fail> {
    let alloc = rt.alloc();
    let mut host = host_of(alloc, 0)?;
    for (number, parts) in WORKED[3].0 {
        let mut bytes = Vec::new(alloc);
        for part in *parts {
            push_part(&mut bytes, *part)?;
        }
        make_log(&rt, &mut host, *number, &bytes)?;
    }
    // The names, three calls for each of two files, and the names' sync; and a read for each entry of a record's hash,
    // until its key is found.
    for (bits, calls) in [(0, 11), (32, 10)] {
        for call in 1..20 {
            let failed = ends_where_it_fails(&rt, alloc, &host, bits, call)?;
            assert_eq!(rt; failed, call <= calls, "call {call} by {bits} bits");
        }
    }
    Ok(())
}
