// The parts read as a plain list of changes does, whatever waits for the index.
ghost use Rattle.std.specs.Prelude.{◌≡◌, ◌≤◌, ◌<◌, true, length, IsSome, IfOk, OnOk};
ghost use Rattle.cache_model.specs.Images.{log_name};
ghost use Rattle.record_format.specs.Changing.{HasUntil};
ghost use Rattle.compactor.specs.Counting.{IsFileNumber};
ghost use Rattle.compactor.specs.Indexing.{AreUsable};

use crate::Parts;
use append_log::Log;
use cache_model::{
    Change, Entry, FileCount, FileKind, FileName, Key, Place, StoreFault, Turned, Until, Value,
    hash,
};
use file_stats::Stats;
use host_memory::{DiskFile, MemoryHost};
use record_format::{OwnItem, encode_change};
use std::alloc::Global;
use std::process::Abort;
use std::test::Fail;
use temporary_table::{Requests, Table};
use tree_index::Tree;

/// The keys of the runs.
const KEYS: [&str; KEY_COUNT] = ["a", "b", "bb", "c", "cc", "bba", "0", "ab", "~"];

/// How many they are.
const KEY_COUNT: usize = 9;

/// A change of a key, or what a compaction does with it.
#[derive(Clone, Copy)]
enum Row {
    Put(usize),
    Remove(usize),
    /// Its newest record is copied to the other file. A key that has none is put.
    Copy(usize),
    /// One record less of it is counted.
    Less(usize),
}

/// A record that was written: its number, where it stands, and whether it removes the key.
#[derive(Clone, Copy)]
struct Written {
    number: u64,
    place: Place,
    gone: bool,
}

/// What the parts are told of a key: of a record, which is a copy of another one or not; or that one less is counted.
#[derive(Clone, Copy)]
struct Told {
    key: usize,
    written: Option<Written>,
    from: Option<Written>,
}

/// Three keys, of which the middle one is removed, put anew, copied and removed, and the first is copied between two puts
/// and behind them. Both count less.
const MIDDLE: [Row; 14] = [
    Row::Put(0),
    Row::Put(1),
    Row::Copy(0),
    Row::Put(0),
    Row::Put(3),
    Row::Remove(1),
    Row::Put(1),
    Row::Copy(1),
    Row::Remove(1),
    Row::Less(1),
    Row::Copy(0),
    Row::Less(0),
    Row::Copy(1),
    Row::Less(2),
];

/// Two keys, of which one is copied between two puts.
const SHORT: [Row; 7] = [
    Row::Put(0),
    Row::Put(1),
    Row::Copy(0),
    Row::Remove(1),
    Row::Put(0),
    Row::Less(0),
    Row::Copy(1),
];

/// The figures of both files at the beginning.
const FILES: [FileCount; 2] = [
    FileCount {
        number: 1,
        size: 5000,
        live: 0,
    },
    FileCount {
        number: 2,
        size: 5000,
        live: 0,
    },
];

/// The key with a number.
fn key_of(alloc: Global, key: usize) -> Result<Key, Fail> {
    Ok(Key::of(alloc, KEYS[key % KEY_COUNT].as_bytes())?)
}

fn change_of(alloc: Global, key: usize, gone: bool) -> Result<Change, Fail>
    ensures { IfOk result HasUntil }
{
    let key = key_of(alloc, key)?;
    if gone {
        return Ok(Change::Remove(key));
    }
    let value = Value::of(alloc, &[118])?;
    Ok(Change::Put(
        key,
        Entry {
            value,
            until: Until::Never,
        },
    ))
}

/// The number of a change, of which there are no more than a thousand.
fn number(index: usize) -> u64
    ensures { result ≤ 1000 }
{
    1 + index as u64 % 1000
}

/// Spells a record behind those of its file, and says where it stands.
fn spell(
    alloc: Global,
    bytes: &mut Vec<u8>,
    file: u32,
    key: usize,
    number: u64,
    gone: bool,
) -> Result<Written, Fail> {
    let at = bytes.len();
    encode_change(number.min(1000), &change_of(alloc, key, gone)?, bytes)?;
    Ok(Written {
        number,
        place: Place {
            file,
            at: u32::try_from(at).unwrap_or(0),
            length: u32::try_from(bytes.len().saturating_sub(at)).unwrap_or(0),
        },
        gone,
    })
}

/// The last record of a key that the parts were told of, where there is one.
fn last_of(told: &[Told], key: usize) -> Option<Written> {
    let mut last = None;
    for one in told {
        if one.key == key && one.written.is_some() {
            last = one.written;
        }
    }
    last
}

/// Spells what a row writes, a change to the file 1 and a copy to the file 2.
fn spell_row(
    alloc: Global,
    changes: &mut Vec<u8>,
    copies: &mut Vec<u8>,
    told: &[Told],
    number: u64,
    row: Row,
) -> Result<Told, Fail> {
    let (key, gone, from) = match row {
        Row::Put(key) => (key % KEY_COUNT, false, None),
        Row::Remove(key) => (key % KEY_COUNT, true, None),
        Row::Copy(key) => (key % KEY_COUNT, false, last_of(told, key % KEY_COUNT)),
        Row::Less(key) => {
            return Ok(Told {
                key: key % KEY_COUNT,
                written: None,
                from: None,
            });
        }
    };
    let written = match from {
        Some(from) => spell(alloc, copies, 2, key, from.number, from.gone)?,
        None => spell(alloc, changes, 1, key, number, gone)?,
    };
    Ok(Told {
        key,
        written: Some(written),
        from,
    })
}

/// The data files that rows make, and what the parts are to be told of each.
#[derive(Drop)]
struct Spelled {
    changes: Vec<u8>,
    copies: Vec<u8>,
    told: Vec<Told>,
}

fn spell_rows(alloc: Global, rows: &[Row]) -> Result<Spelled, Fail> {
    let mut changes = Vec::new(alloc);
    changes.resize(2, 1)?;
    let mut copies = Vec::new(alloc);
    copies.resize(2, 1)?;
    let mut told = Vec::new(alloc);
    for (index, row) in rows.iter().enumerate() {
        let one = spell_row(alloc, &mut changes, &mut copies, &told, number(index), *row)?;
        told.push(one)?;
    }
    Ok(Spelled {
        changes,
        copies,
        told,
    })
}

/// The name of a data file.
fn name_of(id: u32) -> FileName
    ensures { result ≡ log_name id }
{
    FileName {
        kind: FileKind::Log,
        store: 0,
        id,
    }
}

/// A host with these bytes as the data files 1 and 2, whose call of this number fails.
fn host_of(
    alloc: Global,
    changes: Vec<u8>,
    copies: Vec<u8>,
    fails: u64,
) -> Result<MemoryHost, Fail> {
    let mut files = Vec::new(alloc);
    files.push(DiskFile::new(name_of(1), changes))?;
    files.push(DiskFile::new(name_of(2), copies))?;
    let mut failing = Vec::new(alloc);
    failing.push(fails)?;
    Ok(MemoryHost::new(alloc, files, failing, Vec::new(alloc), 0)?)
}

/// Parts whose index is empty, with two files none of whose bytes is live.
fn parts_of(alloc: Global, host: &mut MemoryHost, bits: u32, queue: usize) -> Result<Parts, Fail>
    requires bits { bits ≤ 32 }
    requires queue { 1 ≤ queue }
    ensures usable { IfOk result AreUsable }
{
    Ok(Parts {
        log: Log::start(alloc, 0, 3, 1, 4096)?,
        tree: Tree::make(alloc, host, 0, bits, 8)?,
        table: Table::ordered_by(alloc, bits),
        requests: Requests::new(alloc, queue)?,
        stats: Stats::of(alloc, &FILES)?,
        spoilt: false,
    })
}

/// An index step, None where the disk failed. One that is refused for memory is taken again.
fn step(rt: &impl Abort, parts: &mut Parts, host: &mut MemoryHost) -> Result<Option<Turned>, Fail>
    requires usable { AreUsable parts.old }
    ensures usable { IfOk result (λ turned. IsSome turned → AreUsable parts.new) }
{
    match parts.index_step(host) {
        Ok(turned) => Ok(Some(turned)),
        Err(StoreFault::Failed) => {
            assert!(rt; parts.spoilt);
            Ok(None)
        }
        Err(StoreFault::Memory) => {
            assert!(rt; !parts.spoilt);
            Ok(Some(parts.index_step(host)?))
        }
        Err(fault) => Err(fault.into()),
    }
}

/// The number of a record, 0 where there is none.
fn number_in(found: &Option<OwnItem>) -> u64 {
    match found {
        Some(OwnItem::Put { seq, .. } | OwnItem::Removal { seq, .. }) => *seq,
        Some(OwnItem::End { .. }) | None => 0,
    }
}

/// The number of the newest record of a key, 0 where it has none, and None where the disk failed. A look-up that is refused
/// for memory is made again.
fn newest_of(
    rt: &impl Abort,
    parts: &mut Parts,
    host: &mut MemoryHost,
    key: &Key,
) -> Result<Option<u64>, Fail>
    requires usable { AreUsable parts.old }
    ensures usable { IfOk result (λ newest. IsSome newest → AreUsable parts.new) }
{
    match parts.record_of(host, key) {
        Ok(found) => Ok(Some(number_in(&found))),
        Err(StoreFault::Failed) => {
            assert!(rt; parts.spoilt);
            Ok(None)
        }
        Err(StoreFault::Memory) => {
            assert!(rt; !parts.spoilt);
            let found = parts.record_of(host, key)?;
            Ok(Some(number_in(&found)))
        }
        Err(fault) => Err(fault.into()),
    }
}

/// Whether each key's newest record has the number that is wanted, None where the disk failed.
fn finds(
    rt: &impl Abort,
    alloc: Global,
    parts: &mut Parts,
    host: &mut MemoryHost,
    newest: &[u64],
) -> Result<Option<bool>, Fail>
    requires usable { AreUsable parts.old }
    ensures usable { IfOk result (λ found. IsSome found → AreUsable parts.new) }
{
    let mut found = true;
    for (key, wanted) in newest.iter().enumerate() {
        let key = key_of(alloc, key)?;
        let Some(newest) = newest_of(rt, parts, host, &key)? else {
            return Ok(None);
        };
        found = found && newest == *wanted;
    }
    Ok(Some(found))
}

/// What the walk gives next: a key with the number of its newest record, or its end.
type Next = Option<(Key, u64)>;

/// The keys that have a record, in walk order, each behind its hash and with the number of its newest record.
fn ordered(alloc: Global, newest: &[u64], bits: u32) -> Result<Vec<(u32, Key, u64)>, Fail>
    requires { bits ≤ 32 }
{
    let mut rows = Vec::new(alloc);
    for (key, number) in newest.iter().enumerate() {
        if *number != 0 {
            let key = key_of(alloc, key)?;
            rows.push((hash(&key, bits), key, *number))?;
        }
    }
    rows.sort()?;
    Ok(rows)
}

/// A key with the number of its record.
fn row_of(found: Option<(Key, OwnItem)>) -> Next {
    match found {
        Some((key, item)) => Some((key, number_in(&Some(item)))),
        None => None,
    }
}

/// The next key behind another, None where the disk failed. A call that is refused for memory is made again.
fn next(
    rt: &impl Abort,
    parts: &mut Parts,
    host: &mut MemoryHost,
    after: Option<&Key>,
) -> Result<Option<Next>, Fail>
    requires usable { AreUsable parts.old }
    ensures usable { IfOk result (λ next. IsSome next → AreUsable parts.new) }
{
    match parts.next_record(host, after) {
        Ok(found) => Ok(Some(row_of(found))),
        Err(StoreFault::Failed) => {
            assert!(rt; parts.spoilt);
            Ok(None)
        }
        Err(StoreFault::Memory) => {
            assert!(rt; !parts.spoilt);
            let found = parts.next_record(host, after)?;
            Ok(Some(row_of(found)))
        }
        Err(fault) => Err(fault.into()),
    }
}

/// Whether the walk goes over these keys, None where the disk failed.
fn walks(
    rt: &impl Abort,
    parts: &mut Parts,
    host: &mut MemoryHost,
    rows: &[(u32, Key, u64)],
) -> Result<Option<bool>, Fail>
    requires usable { AreUsable parts.old }
    ensures usable { IfOk result (λ walked. IsSome walked → AreUsable parts.new) }
{
    let mut after = None;
    for (_, key, number) in rows {
        let Some(found) = next(rt, parts, host, after)? else {
            return Ok(None);
        };
        let is_next = found.is_some_and(|found| found.0 == *key && found.1 == *number);
        if !is_next {
            return Ok(Some(false));
        }
        after = Some(key);
    }
    let Some(found) = next(rt, parts, host, after)? else {
        return Ok(None);
    };
    Ok(Some(found.is_none()))
}

/// Whether the parts read as the changes so far do, by look-ups and by a walk, None where the disk failed.
fn reads(
    rt: &impl Abort,
    alloc: Global,
    parts: &mut Parts,
    host: &mut MemoryHost,
    newest: &[u64],
) -> Result<Option<bool>, Fail>
    requires usable { AreUsable parts.old }
    ensures usable { IfOk result (λ read. IsSome read → AreUsable parts.new) }
{
    let Some(found) = finds(rt, alloc, parts, host, newest)? else {
        return Ok(None);
    };
    let keys = ordered(alloc, newest, parts.tree.hash_bits())?;
    let Some(walked) = walks(rt, parts, host, &keys)? else {
        return Ok(None);
    };
    Ok(Some(found && walked))
}

/// Takes an index step where the queue is full. False where the disk failed.
fn make_room(rt: &impl Abort, parts: &mut Parts, host: &mut MemoryHost) -> Result<bool, Fail>
    requires usable { AreUsable parts.old }
    ensures usable { IfOk result (λ made. made ≡ true → AreUsable parts.new) }
{
    if !parts.requests.is_full() {
        return Ok(true);
    }
    Ok(step(rt, parts, host)?.is_some())
}

/// Where a record stands, in the file 1 or 2.
fn place_in(written: Written) -> Place
    ensures { IsFileNumber result.file }
{
    let file = if written.place.file == 2 { 2 } else { 1 };
    Place {
        file,
        ..written.place
    }
}

/// Notes a record, for which there is room. A seat that has no place is taken away once, and given anew.
fn note(parts: &mut Parts, key: &Key, written: Written) -> Result<(), Fail>
    requires usable { AreUsable parts.old }
    requires room { length parts.old.requests.waiting < parts.old.requests.limit }
    ensures usable { OnOk result (AreUsable parts.new) }
{
    parts.seat(key.copy()?)?;
    parts.unseat(key);
    parts.seat(key.copy()?)?;
    parts.note(key.copy()?, place_in(written), written.gone);
    Ok(())
}

/// Notes a copy of a record, for which there is room.
fn swap(parts: &mut Parts, key: &Key, from: Place, written: Written) -> Result<(), Fail>
    requires usable { AreUsable parts.old }
    requires room { length parts.old.requests.waiting < parts.old.requests.limit }
    ensures usable { OnOk result (AreUsable parts.new) }
{
    parts.seat(key.copy()?)?;
    parts.swap(key.copy()?, from, place_in(written), written.gone);
    Ok(())
}

/// Tells the parts, behind an index step where the queue is full. False where the disk failed.
fn tell(
    rt: &impl Abort,
    alloc: Global,
    parts: &mut Parts,
    host: &mut MemoryHost,
    one: &Told,
) -> Result<bool, Fail>
    requires usable { AreUsable parts.old }
    ensures usable { IfOk result (λ told. told ≡ true → AreUsable parts.new) }
{
    if !make_room(rt, parts, host)? {
        return Ok(false);
    }
    assert!(rt; !parts.requests.is_full());
    let key = key_of(alloc, one.key)?;
    match (one.written, one.from) {
        (Some(written), Some(from)) => swap(parts, &key, from.place, written)?,
        (Some(written), None) => note(parts, &key, written)?,
        (None, _) => parts.less(key),
    }
    Ok(true)
}

/// Whether it is told of a record whether it is its key's newest. True of what isn't a record.
fn tells_of(
    alloc: Global,
    parts: &mut Parts,
    host: &mut MemoryHost,
    told: &[Told],
    one: &Told,
) -> Result<bool, Fail>
    requires usable { AreUsable parts.old }
    ensures usable { OnOk result (AreUsable parts.new) }
{
    let Some(written) = one.written else {
        return Ok(true);
    };
    let key = key_of(alloc, one.key)?;
    let is_newest = parts.is_newest(host, &key, written.place)?;
    let is_last = last_of(told, one.key).is_some_and(|last| last.place == written.place);
    Ok(is_newest == is_last)
}

/// Whether it is told of each record so far whether it is its key's newest.
fn tells_newest(
    alloc: Global,
    parts: &mut Parts,
    host: &mut MemoryHost,
    told: &[Told],
) -> Result<bool, Fail>
    requires usable { AreUsable parts.old }
    ensures usable { OnOk result (AreUsable parts.new) }
{
    let mut right = true;
    for one in told {
        right = tells_of(alloc, parts, host, told, one)? && right;
    }
    Ok(right)
}

/// How many bytes of a file a record has, 0 where there is none.
fn length_in(file: u32, found: Option<Written>) -> u64 {
    match found {
        Some(written) if written.place.file == file => u64::from(written.place.length),
        Some(_) | None => 0,
    }
}

/// How many bytes of a file are of the last records of keys.
fn live_of(told: &[Told], file: u32) -> u64 {
    let mut live = 0u64;
    for key in 0..KEY_COUNT {
        live = live.saturating_add(length_in(file, last_of(told, key)));
    }
    live
}

/// Whether the index counts these many records of each key, under one entry each.
fn counts(
    alloc: Global,
    parts: &mut Parts,
    host: &mut MemoryHost,
    counted: &[u64],
) -> Result<bool, Fail>
    requires usable { AreUsable parts.old }
{
    let bits = parts.tree.hash_bits();
    let mut right = true;
    for (key, wanted) in counted.iter().enumerate() {
        let key = key_of(alloc, key)?;
        let entries = parts.tree.find(host, hash(&key, bits))?;
        let is_counted = entries.iter().any(|(_, value)| value.count == *wanted);
        let is_placed = parts.table.place_of(&key).is_some();
        right = right && !is_placed && is_counted == (*wanted != 0);
    }
    Ok(right)
}

/// How many entries the index has.
fn entries_of(parts: &mut Parts, host: &mut MemoryHost) -> Result<usize, Fail> {
    let mut after = None;
    for count in 0..1000 {
        match parts.tree.next(host, after)? {
            Some((at, _)) => after = Some(at),
            None => return Ok(count),
        }
    }
    Ok(1000)
}

/// How many records of a key are counted, once the parts are told.
fn counted_after(count: u64, one: &Told) -> u64 {
    if one.written.is_some() {
        return count.saturating_add(1);
    }
    if 1 < count { count - 1 } else { count }
}

/// Keeps the number of a key's newest record and how many of it are counted, once the parts are told.
fn keep(one: &Told, newest: &mut [u64], counted: &mut [u64]) {
    if let Some(written) = one.written
        && let Some(number) = newest.get_mut(one.key)
    {
        *number = written.number;
    }
    if let Some(count) = counted.get_mut(one.key) {
        *count = counted_after(*count, one);
    }
}

/// Applies what waits, and reads behind each step. False where the disk failed.
fn settles(
    rt: &impl Abort,
    alloc: Global,
    parts: &mut Parts,
    host: &mut MemoryHost,
    newest: &[u64],
) -> Result<bool, Fail>
    requires usable { AreUsable parts.old }
    ensures usable { IfOk result (λ settled. settled ≡ true → AreUsable parts.new) }
{
    for _ in 0..=parts.requests.len() {
        let waiting = parts.requests.len();
        let Some(turned) = step(rt, parts, host)? else {
            return Ok(false);
        };
        assert!(rt; (turned == Turned::Idle) == (waiting == 0));
        let Some(read) = reads(rt, alloc, parts, host, newest)? else {
            return Ok(false);
        };
        assert!(rt; read, "{waiting}");
    }
    Ok(true)
}

/// Looks at the index and at the figures, once none waits.
fn look(
    rt: &impl Abort,
    alloc: Global,
    parts: &mut Parts,
    host: &mut MemoryHost,
    told: &[Told],
    counted: &[u64],
) -> Result<(), Fail>
    requires usable { AreUsable parts.old }
{
    assert!(rt; parts.requests.is_empty());
    assert!(rt; tells_newest(alloc, parts, host, told)?);
    assert!(rt; counts(alloc, parts, host, counted)?);
    let keys = counted.iter().filter(|count| **count != 0).count();
    assert!(rt; entries_of(parts, host)? == keys);
    let rows = parts.stats.rows();
    assert!(rt; rows.iter().all(|row| row.live == live_of(told, row.number)));
    Ok(())
}

/// A run of rows, of each of which the parts are told, and then of index steps until none waits. After each the parts read
/// as the changes so far do. False where the disk failed.
fn run(
    rt: &impl Abort,
    alloc: Global,
    rows: &[Row],
    bits: u32,
    queue: usize,
    fails: u64,
) -> Result<bool, Fail>
    requires bits { bits ≤ 32 }
    requires queue { 1 ≤ queue }
{
    let Spelled {
        changes,
        copies,
        told,
    } = spell_rows(alloc, rows)?;
    let mut host = host_of(alloc, changes, copies, fails)?;
    let mut parts = parts_of(alloc, &mut host, bits, queue)?;
    let mut newest = Vec::from_elem(alloc, 0, KEY_COUNT)?;
    let mut counted = Vec::from_elem(alloc, 0u64, KEY_COUNT)?;
    for one in &told {
        if !tell(rt, alloc, &mut parts, &mut host, one)? {
            return Ok(false);
        }
        keep(one, &mut newest, &mut counted);
        let Some(read) = reads(rt, alloc, &mut parts, &mut host, &newest)? else {
            return Ok(false);
        };
        assert!(rt; read, "{bits} {queue}");
    }
    assert!(rt; tells_newest(alloc, &mut parts, &mut host, &told)?);
    if !settles(rt, alloc, &mut parts, &mut host, &newest)? {
        return Ok(false);
    }
    look(rt, alloc, &mut parts, &mut host, &told, &counted)?;
    Ok(true)
}

/// So many drawn rows.
fn drawn(alloc: Global, count: usize, start: u32) -> Result<Vec<Row>, Fail> {
    let mut state = start;
    let mut rows = Vec::new(alloc);
    for _ in 0..count {
        state = state.wrapping_mul(1_664_525).wrapping_add(1_013_904_223);
        let key = (state >> 16) as usize % KEY_COUNT;
        rows.push(match (state >> 20) % 8 {
            0 | 1 => Row::Remove(key),
            2 | 3 => Row::Copy(key),
            4 => Row::Less(key),
            _ => Row::Put(key),
        })?;
    }
    Ok(rows)
}

#[test]
fn changes_read_as_a_list(rt: HostRuntime) -> Result<(), Fail> {
    let alloc = rt.alloc();
    for bits in 0..=32 {
        assert!(&rt; run(&rt, alloc, &MIDDLE, bits, 4, 0)?);
    }
    for (bits, queue) in [(0, 1), (0, 4), (1, 2), (32, 1), (32, 4)] {
        assert!(&rt; run(&rt, alloc, &MIDDLE, bits, queue, 0)?);
        let rows = drawn(alloc, 40, bits)?;
        assert!(&rt; run(&rt, alloc, &rows, bits, queue, 0)?);
    }
    Ok(())
}

#[test]
fn a_swap_elsewhere_leaves_the_entry(rt: HostRuntime) -> Result<(), Fail> {
    let alloc = rt.alloc();
    let Spelled {
        changes,
        copies,
        told,
    } = spell_rows(alloc, &[Row::Put(0), Row::Copy(0), Row::Put(0)])?;
    let mut host = host_of(alloc, changes, copies, 0)?;
    let mut parts = parts_of(alloc, &mut host, 32, 4)?;
    let (Some(first), Some(copy), Some(last)) = (told.get(0), told.get(1), told.get(2)) else {
        return Ok(());
    };
    // The parts are told of the copy behind the put that makes it old.
    assert!(&rt; tell(&rt, alloc, &mut parts, &mut host, first)?);
    assert!(&rt; tell(&rt, alloc, &mut parts, &mut host, last)?);
    assert!(&rt; tell(&rt, alloc, &mut parts, &mut host, copy)?);
    parts.empty_queue(&mut host)?;
    let key = key_of(alloc, 0)?;
    let entries = parts.tree.find(&mut host, hash(&key, 32))?;
    let place = last_of(&told, 0).map(|last| (last.place.file, last.place.at));
    assert!(&rt; entries.len() == 1 && parts.requests.is_empty());
    assert!(&rt;
        entries.iter().all(|(at, value)| Some((at.file, at.at)) == place && value.count == 3)
    );
    assert!(&rt; parts.table.place_of(&key).is_none());
    let rows = parts.stats.rows();
    assert!(&rt;
        rows.iter()
            .all(|row| row.live == live_of(&told, row.number))
    );
    Ok(())
}

#[test]
fn a_disk_that_fails_spoils(rt: HostRuntime) -> Result<(), Fail> {
    let alloc = rt.alloc();
    let mut whole = false;
    for fails in 1..500 {
        let ended = run(&rt, alloc, &SHORT, 0, 2, fails)?;
        assert!(&rt; ended || !whole, "{fails}");
        whole = ended;
    }
    assert!(&rt; whole && !run(&rt, alloc, &SHORT, 0, 2, 1)?);
    Ok(())
}
