// What a log writes, byte by byte, and what each crash leaves of it.
ghost use Rattle.std.specs.Prelude.{◌≡◌, ◌≤◌, ◌<◌, ◌^◌, false, IfOk, OnOk, IsTrue};
ghost use Rattle.cache_model.specs.Files.{IsFileName, bytes_in};
ghost use Rattle.host_memory.specs.History.{memory_state};
ghost use Rattle.data_file.specs.Appending.{IsRecordSpelling};
ghost use Rattle.data_file.specs.Scanning.{scanned_name, is_spoilt, IsScanOf};
ghost use Rattle.record_format.specs.Changing.{HasUntil};
ghost use Rattle.append_log.specs.Current.{IsUsable, data_name, files_of, most_file_size, store_of};
ghost use Rattle.append_log.specs.Standing.{IsStanding, Starts};

use crate::Log;
use cache_disk::Host;
use cache_model::{
    BadKind, Change, Damage, Entry, FileKind, FileName, Key, Place, Spent, StoreFault, Until, Value,
};
use data_file::Scan;
use host_memory::{DiskFile, MemoryHost};
use record_format::{OwnItem, encode_change};
use std::alloc::Global;
use std::process::Abort;
use std::test::Fail;

/// A step of a run: a put of a value of so many bytes under the key `k`, a removal of it, a copy of such a put with this
/// number, a seal, a stamp with this moment, or a rotation.
#[derive(Clone, Copy)]
enum Act {
    Put(usize),
    Remove,
    Copy(u32, usize),
    Seal,
    Stamp(u32),
    Rotate,
}

/// Runs with the size that a file gets, the first step at moment 5: where each record stands, with its number as it is
/// fetched, and then the tail, the next numbers and the mark.
const RUNS: [(u64, &[Act], &str); 10] = [
    (
        79,
        &[Act::Put(10), Act::Put(10)],
        "1 2 34 is 1; 2 2 34 is 2; Some((2, 36, true)) next 3 3 mark 6",
    ),
    (
        80,
        &[Act::Put(10), Act::Put(10)],
        "1 2 34 is 1; 1 36 34 is 2; Some((1, 70, true)) next 2 3 mark 0",
    ),
    (
        81,
        &[Act::Put(10), Act::Put(10)],
        "1 2 34 is 1; 1 36 34 is 2; Some((1, 70, true)) next 2 3 mark 0",
    ),
    (
        89,
        &[Act::Put(10), Act::Seal, Act::Put(10)],
        "1 2 34 is 1; sealed; 2 2 34 is 2; Some((2, 36, true)) next 3 3 mark 6",
    ),
    (
        90,
        &[Act::Put(10), Act::Seal, Act::Put(10)],
        "1 2 34 is 1; sealed; 1 46 34 is 2; Some((1, 80, true)) next 2 3 mark 6",
    ),
    (
        91,
        &[Act::Put(10), Act::Seal, Act::Put(10), Act::Seal],
        "1 2 34 is 1; sealed; 1 46 34 is 2; sealed; Some((1, 90, false)) next 2 3 mark 8",
    ),
    (
        10,
        &[
            Act::Put(0),
            Act::Remove,
            Act::Rotate,
            Act::Rotate,
            Act::Put(0),
        ],
        "1 2 24 is 1; 2 2 12 is 2; Done; Idle; 3 2 24 is 3; Some((3, 26, true)) next 4 4 mark 7",
    ),
    (
        4096,
        &[Act::Put(65536), Act::Put(0), Act::Seal, Act::Seal],
        "1 2 65560 is 1; 2 2 24 is 2; sealed; sealed; Some((2, 36, false)) next 3 3 mark 7",
    ),
    (
        4096,
        &[Act::Seal, Act::Rotate],
        "sealed; Idle; None next 1 1 mark 0",
    ),
    (
        4096,
        &[Act::Put(3), Act::Seal, Act::Rotate],
        "1 2 27 is 1; sealed; Done; None next 2 2 mark 6",
    ),
];

/// Runs with copies and stamps, in the same way.
const STAMPED: [(u64, &[Act], &str); 15] = [
    (
        79,
        &[Act::Put(10), Act::Copy(7, 10)],
        "1 2 34 is 1; 2 2 34 is 7; Some((2, 36, true)) next 3 2 mark 6",
    ),
    (
        80,
        &[Act::Put(10), Act::Copy(7, 10)],
        "1 2 34 is 1; 1 36 34 is 7; Some((1, 70, true)) next 2 2 mark 0",
    ),
    (
        81,
        &[Act::Put(10), Act::Copy(7, 10)],
        "1 2 34 is 1; 1 36 34 is 7; Some((1, 70, true)) next 2 2 mark 0",
    ),
    (
        80,
        &[Act::Copy(7, 10), Act::Copy(7, 10), Act::Put(10), Act::Seal],
        "1 2 34 is 7; 1 36 34 is 7; 2 2 34 is 1; sealed; Some((2, 46, false)) next 3 2 mark 8",
    ),
    (
        55,
        &[Act::Put(10), Act::Seal, Act::Stamp(9)],
        "1 2 34 is 1; sealed; stamped; Some((2, 12, false)) next 3 2 mark 9",
    ),
    (
        56,
        &[Act::Put(10), Act::Seal, Act::Stamp(9)],
        "1 2 34 is 1; sealed; stamped; Some((1, 56, false)) next 2 2 mark 9",
    ),
    (
        57,
        &[Act::Put(10), Act::Seal, Act::Stamp(9)],
        "1 2 34 is 1; sealed; stamped; Some((1, 56, false)) next 2 2 mark 9",
    ),
    (
        10,
        &[Act::Put(10), Act::Stamp(9)],
        "1 2 34 is 1; stamped; Some((1, 46, false)) next 2 2 mark 9",
    ),
    (
        21,
        &[Act::Stamp(5), Act::Stamp(6)],
        "stamped; stamped; Some((2, 12, false)) next 3 1 mark 6",
    ),
    (
        22,
        &[Act::Stamp(5), Act::Stamp(6)],
        "stamped; stamped; Some((1, 22, false)) next 2 1 mark 6",
    ),
    (
        23,
        &[Act::Stamp(5), Act::Stamp(6)],
        "stamped; stamped; Some((1, 22, false)) next 2 1 mark 6",
    ),
    (
        10,
        &[Act::Stamp(5), Act::Stamp(5), Act::Copy(3, 0)],
        "stamped; stamped; 2 2 24 is 3; Some((2, 26, true)) next 3 1 mark 5",
    ),
    (
        4096,
        &[
            Act::Put(10),
            Act::Stamp(8),
            Act::Stamp(8),
            Act::Stamp(3),
            Act::Stamp(8),
        ],
        "1 2 34 is 1; stamped; stamped; stamped; stamped; Some((1, 66, false)) next 2 2 mark 8",
    ),
    (
        4096,
        &[Act::Copy(9, 0), Act::Stamp(6), Act::Seal, Act::Stamp(6)],
        "1 2 24 is 9; stamped; sealed; stamped; Some((1, 36, false)) next 2 1 mark 6",
    ),
    (
        4096,
        &[Act::Stamp(5), Act::Rotate, Act::Stamp(5), Act::Put(0)],
        "stamped; Done; stamped; 2 12 24 is 1; Some((2, 36, true)) next 3 2 mark 5",
    ),
];

fn host_of(alloc: Global) -> Result<MemoryHost, Fail>
    ensures { IfOk result (λ host. Starts 0 (memory_state host)) }
{
    Ok(MemoryHost::new(alloc, Vec::new(alloc), Vec::new(alloc), Vec::new(alloc), 0)?)
}

// A log that makes its first file over a host that has none.
fn started<H: Host>(
    alloc: Global,
    _host: &H,
    next_file: u32,
    next_seq: u64,
    file_size: u64,
) -> Result<Log, Fail>
    requires number { 1 ≤ next_file }
    requires next { next_seq ≤ 2 ^ 62 }
    requires limit { file_size ≤ most_file_size }
    requires starts { IsTrue H.tells → Starts 0 (H.state _host.now) }
    ensures usable { IfOk result (λ log. IsUsable (files_of log)) }
    ensures stands { IsTrue H.tells → IfOk result (λ log. IsStanding (files_of log) (H.state _host.now)) }
{
    Ok(Log::start(alloc, 0, next_file, next_seq, file_size)?)
}

// A put of a value of so many bytes, or a removal.
fn change_of(alloc: Global, key: &str, length: Option<usize>) -> Result<Change, Fail>
    ensures { IfOk result HasUntil }
{
    let key = Key::of(alloc, key.as_bytes())?;
    let Some(length) = length else {
        return Ok(Change::Remove(key));
    };
    let mut bytes = Vec::new(alloc);
    bytes.resize(length, 118)?;
    let value = Value::of(alloc, &bytes)?;
    Ok(Change::Put(
        key,
        Entry {
            value,
            until: Until::Never,
        },
    ))
}

// The spelling of a put of a value of so many bytes with this number.
fn item_of(alloc: Global, number: u32, length: usize) -> Result<Vec<u8>, Fail>
    ensures { IfOk result (λ item. IsRecordSpelling item.items) }
{
    let change = change_of(alloc, "k", Some(length))?;
    let mut item = Vec::new(alloc);
    encode_change(u64::from(number), &change, &mut item)?;
    Ok(item)
}

// The number of a record.
fn number_of(item: &OwnItem) -> u64 {
    match item {
        OwnItem::Put { seq, .. } | OwnItem::Removal { seq, .. } => *seq,
        OwnItem::End { .. } => 0,
    }
}

// What is fetched at a place that a log gave.
fn fetched<H: Host>(
    alloc: Global,
    log: &mut Log,
    host: &mut H,
    place: Place,
) -> Result<String, Fail>
    requires usable { IsUsable (files_of log.old) }
    requires stands { IsTrue H.tells → IsStanding (files_of log.old) (H.state host.old) }
    ensures usable { OnOk result (IsUsable (files_of log.new)) }
    ensures stands { OnOk result (IsTrue H.tells → IsStanding (files_of log.new) (H.state host.new)) }
{
    if place.file == 0 || place.file == u32::MAX {
        return Ok(format!(in alloc; "no file")?);
    }
    let item = log.fetch(host, place)?;
    Ok(format!(in alloc; "{}", number_of(&item))?)
}

// Writes a change, and says where it stands and what is fetched there.
fn put<H: Host>(
    alloc: Global,
    log: &mut Log,
    host: &mut H,
    length: Option<usize>,
    moment: u64,
) -> Result<String, Fail>
    requires usable { IsUsable (files_of log.old) }
    requires moment { moment < 2 ^ 61 }
    requires stands { IsTrue H.tells → IsStanding (files_of log.old) (H.state host.old) }
    ensures usable { OnOk result (IsUsable (files_of log.new)) }
    ensures stands { OnOk result (IsTrue H.tells → IsStanding (files_of log.new) (H.state host.new)) }
{
    let change = change_of(alloc, "k", length)?;
    let place = log.put_change(host, &change, moment)?;
    let seq = fetched(alloc, log, host, place)?;
    Ok(format!(in alloc; "{} {} {} is {seq}", place.file, place.at, place.length)?)
}

// Writes a copy, and says where it stands and what is fetched there.
fn copy<H: Host>(
    alloc: Global,
    log: &mut Log,
    host: &mut H,
    item: &[u8],
    moment: u64,
) -> Result<String, Fail>
    requires usable { IsUsable (files_of log.old) }
    requires item { IsRecordSpelling item.now }
    requires moment { moment < 2 ^ 61 }
    requires stands { IsTrue H.tells → IsStanding (files_of log.old) (H.state host.old) }
    ensures usable { OnOk result (IsUsable (files_of log.new)) }
    ensures stands { OnOk result (IsTrue H.tells → IsStanding (files_of log.new) (H.state host.new)) }
{
    let place = log.copy_item(host, item, moment)?;
    let seq = fetched(alloc, log, host, place)?;
    Ok(format!(in alloc; "{} {} {} is {seq}", place.file, place.at, place.length)?)
}

// Does one step, and says what it answered.
fn take_step<H: Host>(
    alloc: Global,
    log: &mut Log,
    host: &mut H,
    step: Act,
    moment: u64,
) -> Result<String, Fail>
    requires usable { IsUsable (files_of log.old) }
    requires moment { moment < 2 ^ 61 }
    requires stands { IsTrue H.tells → IsStanding (files_of log.old) (H.state host.old) }
    ensures usable { OnOk result (IsUsable (files_of log.new)) }
    ensures stands { OnOk result (IsTrue H.tells → IsStanding (files_of log.new) (H.state host.new)) }
{
    match step {
        Act::Put(length) => put(alloc, log, host, Some(length), moment),
        Act::Remove => put(alloc, log, host, None, moment),
        Act::Copy(number, length) => {
            let item = item_of(alloc, number, length)?;
            copy(alloc, log, host, &item, moment)
        }
        Act::Stamp(at) => {
            log.stamp(host, u64::from(at))?;
            Ok(format!(in alloc; "stamped")?)
        }
        Act::Seal => {
            log.seal(host, moment)?;
            Ok(format!(in alloc; "sealed")?)
        }
        Act::Rotate => {
            let turned = log.rotate(host, moment)?;
            Ok(format!(in alloc; "{turned:?}")?)
        }
    }
}

/// What was done of a run: the numbers of the records that were written, the greatest moment of a stamp, and after each step
/// the turn, how many records were written, whether none of them waits, and that moment.
#[derive(Drop)]
struct Past {
    numbers: Vec<u64>,
    stamped: u64,
    steps: Vec<(u64, usize, bool, u64)>,
    said: String,
}

// One step more in the past.
fn pass(past: &mut Past, log: &Log, turn: u64, step: Act, answer: &str) -> Result<(), Fail> {
    match step {
        Act::Put(_) | Act::Remove => past.numbers.push(log.next_seq().saturating_sub(1))?,
        Act::Copy(number, _) => past.numbers.push(u64::from(number))?,
        Act::Stamp(at) => past.stamped = past.stamped.max(u64::from(at)),
        Act::Seal | Act::Rotate => {}
    }
    let waits = matches!(log.tail(), Some((_, _, true)));
    past.steps
        .push((turn, past.numbers.len(), !waits, past.stamped))?;
    past.said.push_str(answer)?;
    past.said.push_str("; ")?;
    Ok(())
}

// Does the steps, the first at moment 5 and each a moment later.
fn run(alloc: Global, host: &mut MemoryHost, file_size: u64, acts: &[Act]) -> Result<Past, Fail>
    requires limit { file_size ≤ most_file_size }
    requires starts { Starts 0 (memory_state host.old) }
{
    let mut log = started(alloc, host, 1, 1, file_size)?;
    let mut past = Past {
        numbers: Vec::new(alloc),
        stamped: 0,
        steps: Vec::new(alloc),
        said: String::new(alloc),
    };
    let mut moment = 5;
    for step in acts {
        let answer = take_step(alloc, &mut log, host, *step, moment)?;
        moment = (moment + 1).min(1000);
        pass(&mut past, &log, host.turns(), *step, &answer)?;
    }
    let tail = format!(in alloc; "{:?} next {}", log.tail(), log.next_file())?;
    past.said.push_str(&tail)?;
    let rest = format!(in alloc; " {} mark {}", log.next_seq(), log.mark())?;
    past.said.push_str(&rest)?;
    Ok(past)
}

/// What counts in some files: how many records, and the greatest moment of a frame.
#[derive(Clone, Copy)]
struct Count {
    records: usize,
    mark: u64,
}

// What counts in a file more. Its records must have the numbers behind those that count before it.
fn counted_in<H: Host>(
    rt: &impl Abort,
    host: &mut H,
    scan: &mut Scan,
    number: u32,
    numbers: &[u64],
    from: Count,
) -> Result<Count, Fail>
    requires number { IsFileName (data_name 0 number) }
    requires sound { is_spoilt scan.old ≡ false }
    requires name { scanned_name scan.old ≡ data_name 0 number }
    requires scans { IsTrue H.tells → IsScanOf scan.old (bytes_in (H.state host.old).files (data_name 0 number)) }
{
    let mut count = from;
    while let Some(one) = scan.next(host)? {
        match one.item {
            OwnItem::Put { seq, .. } | OwnItem::Removal { seq, .. } => {
                let wanted = numbers.get(count.records).copied();
                assert!(rt; wanted == Some(seq), "{seq} in place of {wanted:?}");
                count.records = count.records.saturating_add(1);
            }
            OwnItem::End { moment } => count.mark = count.mark.max(moment),
        }
    }
    Ok(count)
}

// What counts in the first four files.
fn counted<H: Host>(
    rt: &impl Abort,
    alloc: Global,
    host: &mut H,
    numbers: &[u64],
) -> Result<Count, Fail> {
    let mut count = Count {
        records: 0,
        mark: 0,
    };
    for number in 1..5u32 {
        let name = FileName {
            kind: FileKind::Log,
            store: 0,
            id: number,
        };
        if let Some(size) = host.size(name)? {
            let mut scan = Scan::new(alloc, name, size)?;
            count = counted_in(rt, host, &mut scan, number, numbers, count)?;
        }
    }
    Ok(count)
}

// How many records count at the least and at the most at a turn: those that were sealed by the last step that was done,
// and those that were written by then. And the greatest moment of a stamp that was done.
fn bounds(past: &Past, turn: u64) -> (usize, usize, u64) {
    let (mut least, mut most, mut stamp) = (0, 0, 0);
    for (at, written, rests, stamped) in &past.steps {
        if *at <= turn {
            most = *written;
            stamp = *stamped;
            if *rests {
                least = *written;
            }
        }
    }
    (least, most, stamp)
}

fn image_holds(
    rt: &impl Abort,
    alloc: Global,
    host: &MemoryHost,
    past: &Past,
    turn: u64,
    choice: u64,
) -> Result<(), Fail> {
    assert!(rt; turn <= host.turns());
    let image = host.image_at(turn, choice)?;
    let mut left = MemoryHost::new(alloc, image, Vec::new(alloc), Vec::new(alloc), 7)?;
    let count = counted(rt, alloc, &mut left, &past.numbers)?;
    let (least, most, stamped) = bounds(past, turn);
    assert!(rt;
        least <= count.records && count.records <= most && stamped <= count.mark,
        "{turn} {choice}: {} and not {least} to {most}, mark {} for {stamped}",
        count.records,
        count.mark
    );
    Ok(())
}

// Whether a run says this, and each image at each turn holds what it must.
fn leaves(
    rt: &impl Abort,
    alloc: Global,
    file_size: u64,
    acts: &[Act],
    said: &str,
) -> Result<(), Fail> {
    assert!(rt; file_size <= 4096);
    let mut host = host_of(alloc)?;
    let past = run(alloc, &mut host, file_size, acts)?;
    assert_eq!(rt; past.said.as_str(), said);
    for turn in 0..=host.turns() {
        for choice in 0..8 {
            image_holds(rt, alloc, &host, &past, turn, choice)?;
        }
    }
    Ok(())
}

#[test]
fn runs_leave_what_they_say(rt: HostRuntime) -> Result<(), Fail> {
    let alloc = rt.alloc();
    for (file_size, acts, said) in &RUNS {
        leaves(&rt, alloc, *file_size, acts, said)?;
    }
    Ok(())
}

#[test]
fn copies_and_stamps_leave_what_they_say(rt: HostRuntime) -> Result<(), Fail> {
    let alloc = rt.alloc();
    for (file_size, acts, said) in &STAMPED {
        leaves(&rt, alloc, *file_size, acts, said)?;
    }
    Ok(())
}

/// Starts with the numbers of the next file and the next change, and a step: how often it is done, each time in a file of
/// its own, which number is spent then, and the turns that passed.
///
/// A file is made in four turns, a first record is written in two, and a frame is ended in four.
const ENDS: [(u32, u64, Act, usize, Spent, u64); 9] = [
    (1, 1 << 62, Act::Remove, 0, Spent::Sequence(1 << 62), 0),
    (
        u32::MAX,
        1 << 62,
        Act::Remove,
        0,
        Spent::Sequence(1 << 62),
        0,
    ),
    (u32::MAX, 7, Act::Remove, 0, Spent::Files(4_294_967_295), 0),
    (
        u32::MAX - 1,
        7,
        Act::Remove,
        1,
        Spent::Files(4_294_967_295),
        6,
    ),
    (
        u32::MAX,
        1 << 62,
        Act::Copy(7, 0),
        0,
        Spent::Files(4_294_967_295),
        0,
    ),
    (
        u32::MAX - 1,
        1 << 62,
        Act::Copy(7, 0),
        1,
        Spent::Files(4_294_967_295),
        6,
    ),
    (
        u32::MAX,
        1 << 62,
        Act::Stamp(0),
        0,
        Spent::Files(4_294_967_295),
        0,
    ),
    (
        u32::MAX,
        7,
        Act::Stamp(0),
        0,
        Spent::Files(4_294_967_295),
        0,
    ),
    (
        u32::MAX - 1,
        7,
        Act::Stamp(0),
        1,
        Spent::Files(4_294_967_295),
        8,
    ),
];

// Does a step at this moment, a stamp with it, and gives what it answered.
fn answer_of<H: Host>(
    alloc: Global,
    log: &mut Log,
    host: &mut H,
    step: Act,
    moment: u64,
) -> Result<Result<(), StoreFault>, Fail>
    requires usable { IsUsable (files_of log.old) }
    requires moment { moment < 2 ^ 61 }
    requires stands { IsTrue H.tells → IsStanding (files_of log.old) (H.state host.old) }
    ensures usable { IfOk result (λ answer. OnOk answer (IsUsable (files_of log.new))) }
    ensures stands { IfOk result (λ answer. OnOk answer (IsTrue H.tells → IsStanding (files_of log.new) (H.state host.new))) }
{
    if let Act::Stamp(_) = step {
        return Ok(log.stamp(host, moment));
    }
    if let Act::Copy(number, length) = step {
        let item = item_of(alloc, number, length)?;
        return match log.copy_item(host, &item, moment) {
            Ok(_) => Ok(Ok(())),
            Err(fault) => Ok(Err(fault)),
        };
    }
    let change = change_of(alloc, "k", None)?;
    match log.put_change(host, &change, moment) {
        Ok(_) => Ok(Ok(())),
        Err(fault) => Ok(Err(fault)),
    }
}

// How often a step is done until a number is spent, and which one. Nothing is written by the call that says so.
fn spent_after<H: Host>(
    alloc: Global,
    log: &mut Log,
    host: &mut H,
    step: Act,
) -> Result<(usize, Option<Spent>), Fail>
    requires usable { IsUsable (files_of log.old) }
    requires stands { IsTrue H.tells → IsStanding (files_of log.old) (H.state host.old) }
{
    match answer_of(alloc, log, host, step, 5)? {
        Ok(()) => {}
        Err(StoreFault::Spent(spent)) => return Ok((0, Some(spent))),
        Err(fault) => return Err(fault.into()),
    }
    match answer_of(alloc, log, host, step, 6)? {
        Ok(()) => Ok((2, None)),
        Err(StoreFault::Spent(spent)) => Ok((1, Some(spent))),
        Err(fault) => Err(fault.into()),
    }
}

#[test]
fn numbers_are_spent_before_anything_is_written(rt: HostRuntime) -> Result<(), Fail> {
    let alloc = rt.alloc();
    for (file, seq, step, count, spent, turns) in &ENDS {
        assert!(&rt; 1 <= *file && *seq <= 1 << 62);
        let mut host = host_of(alloc)?;
        let mut log = started(alloc, &host, *file, *seq, 10)?;
        assert!(&rt; !log.is_spoilt() && log.store() == 0 && log.current() == None);
        let ended = spent_after(alloc, &mut log, &mut host, *step)?;
        assert_eq!(&rt; ended, (*count, Some(*spent)));
        assert!(&rt; log.is_spoilt());
        assert_eq!(&rt; host.turns(), *turns);
    }
    Ok(())
}

/// A file of two frames: a removal of the key `a` with the number 7 at offset 2, and a put of `b` under `a` with the number
/// 8 at offset 24.
const TWO_FRAMES: [u8; 59] = [
    1, 1, 2, 0, 0, 0, 0, 0, 0, 0, 7, 0, 1, 97, 0, 0, 0, 0, 0, 0, 0, 0, 5, 1, 1, 0, 0, 0, 0, 0, 0,
    0, 8, 255, 255, 255, 255, 255, 255, 255, 255, 0, 1, 0, 0, 0, 1, 97, 98, 0, 0, 0, 0, 0, 0, 0, 0,
    6, 0,
];

/// Places of it, and what is found there: the number of the record, or the damage.
const PLACES: [(u32, u32, u32, Result<u64, BadKind>); 9] = [
    (1, 2, 12, Ok(7)),
    (1, 24, 25, Ok(8)),
    (1, 2, 13, Err(BadKind::Place)),
    (1, 2, 11, Err(BadKind::Cut)),
    (1, 14, 9, Err(BadKind::Place)),
    (1, 57, 12, Err(BadKind::Tag(6))),
    (1, 59, 12, Err(BadKind::Cut)),
    (1, 2, 0, Err(BadKind::Cut)),
    (2, 2, 12, Err(BadKind::Cut)),
];

// What is found at a place.
fn found<H: Host>(log: &mut Log, host: &mut H, place: Place) -> Result<Result<u64, Damage>, Fail>
    requires usable { IsUsable (files_of log.old) }
    requires name { IsFileName (data_name (store_of (files_of log.old)) place.file) }
{
    match log.fetch(host, place) {
        Ok(item) => Ok(Ok(number_of(&item))),
        Err(StoreFault::Damaged(damage)) => Ok(Err(damage)),
        Err(fault) => Err(fault.into()),
    }
}

#[test]
fn places_are_read_as_what_stands_there(rt: HostRuntime) -> Result<(), Fail> {
    let alloc = rt.alloc();
    for (file, at, length, wanted) in &PLACES {
        assert!(&rt; 1 <= *file && *file <= 2);
        let name = FileName {
            kind: FileKind::Log,
            store: 0,
            id: 1,
        };
        let mut files = Vec::new(alloc);
        files.push(DiskFile::new(name, Vec::from_slice(alloc, &TWO_FRAMES)?))?;
        let mut host = MemoryHost::new(alloc, files, Vec::new(alloc), Vec::new(alloc), 5)?;
        let mut log = Log::start(alloc, 0, 3, 9, 4096)?;
        let place = Place {
            file: *file,
            at: *at,
            length: *length,
        };
        let had = found(&mut log, &mut host, place)?;
        let wanted = match wanted {
            Ok(seq) => Ok(*seq),
            Err(kind) => Err(Damage {
                file: FileName { id: *file, ..name },
                at: u64::from(*at),
                kind: *kind,
            }),
        };
        assert!(&rt; had == wanted, "{file} {at} {length}: {had:?}");
        assert_eq!(&rt; log.is_spoilt(), wanted.is_err());
        assert_eq!(&rt; host.turns(), 0);
    }
    Ok(())
}
