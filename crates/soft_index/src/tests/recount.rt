// The figures of a store, beside those of a plain reading of its files.
ghost use Rattle.std.specs.Prelude.{OnOk, IsTrue};
ghost use Rattle.store_trait.specs.Calls.{IsReady};
ghost use Rattle.host_memory.specs.History.{memory_state};
ghost use Rattle.soft_index.specs.Index.{index_facts, index_means};

use crate::SoftIndex;
use cache_disk::Host;
use cache_model::{FileKind, FileName, Key, StoreFault};
use host_memory::MemoryHost;
use std::alloc::Global;
use std::process::Abort;
use std::test::Fail;
use store_trait::FileStore;

/// A record: its number, its key as a length and a number, and how many bytes it has.
#[derive(Clone, Copy, Debug)]
struct Record {
    seq: u64,
    key: (usize, u64),
    length: usize,
}

/// The number that some bytes spell, 0 for those that aren't there.
fn number_at(bytes: &[u8], at: usize, count: usize) -> u64 {
    let mut number = 0u64;
    for index in at..at.saturating_add(count) {
        let byte = bytes.get(index).copied().unwrap_or(0);
        number = number.wrapping_mul(256).wrapping_add(u64::from(byte));
    }
    number
}

/// The put or the removal at an offset.
fn record_at(bytes: &[u8], at: usize, is_put: bool) -> Record {
    let seq = number_at(bytes, at.saturating_add(1), 8);
    let behind = at.saturating_add(if is_put { 17 } else { 9 });
    let key = number_at(bytes, behind, 2) as usize;
    let value = if is_put {
        number_at(bytes, behind.saturating_add(2), 4) as usize
    } else {
        0
    };
    let head = if is_put { 23usize } else { 11 };
    Record {
        seq,
        key: (key, number_at(bytes, at.saturating_add(head), key)),
        length: head.saturating_add(key).saturating_add(value),
    }
}

/// The records of a file, sealed or not. An end of a frame has 9 bytes, and the next gate stands behind it.
fn records_of(bytes: &[u8], records: &mut Vec<Record>) -> Result<(), Fail> {
    let mut at = 2usize;
    for _ in 0..bytes.len() {
        let Some(tag) = bytes.get(at) else {
            return Ok(());
        };
        if *tag == 0 {
            at = at.saturating_add(10);
        } else {
            let record = record_at(bytes, at, *tag == 1);
            at = at.saturating_add(record.length);
            records.push(record)?;
        }
    }
    Ok(())
}

/// How many bytes the newest records of all keys have. Of two copies of a record the one in the later file is the newer one.
fn live_of(records: &[Record]) -> u64 {
    let mut live = 0u64;
    for (place, one) in records.iter().enumerate() {
        let is_old = records.iter().enumerate().any(|(at, other)| other.key == one.key
            && (other.seq, at) > (one.seq, place));
        if !is_old {
            live = live.saturating_add(one.length as u64);
        }
    }
    live
}

/// How many of the first files there are, how many bytes they have, and how many of these are live.
fn recount(alloc: Global, host: &MemoryHost) -> Result<(u64, u64, u64), Fail> {
    let mut records = Vec::new(alloc);
    let mut files = 0u64;
    let mut size = 0u64;
    for id in 1..100u32 {
        let name = FileName {
            kind: FileKind::Log,
            store: 0,
            id,
        };
        if let Some(bytes) = host.file(name) {
            files = files.saturating_add(1);
            size = size.saturating_add(bytes.len() as u64);
            records_of(bytes, &mut records)?;
        }
    }
    Ok((files, size, live_of(&records)))
}

/// Counts the files.
fn figures<H: Host, S: FileStore<H>>(
    store: &mut S,
    host: &mut H,
    moment: u64,
) -> Result<(u64, u64, u64), StoreFault>
    requires ready { IsReady (S.facts store.old) moment }
    requires stands { IsTrue H.tells → (S.means store.old (H.state host.old)).stands }
    ensures ready { OnOk result (IsReady (S.facts store.new) moment) }
    ensures stands { OnOk result (IsTrue H.tells → (S.means store.new (H.state host.new)).stands) }
{
    store.figures(host, moment)
}

/// The figures of a store are those of its files, and nothing waits for the index then.
pub(crate) fn counts_hold<F: Fn(&Key) -> bool + Drop>(
    rt: &impl Abort,
    alloc: Global,
    store: &mut SoftIndex<F>,
    host: &mut MemoryHost,
    moment: u64,
) -> Result<(), Fail>
    requires ready { IsReady (index_facts F.Fn store.old) moment }
    requires stands { (index_means store.old (memory_state host.old)).stands }
    ensures ready { OnOk result (IsReady (index_facts F.Fn store.new) moment) }
    ensures stands { OnOk result ((index_means store.new (memory_state host.new)).stands) }
{
    let had = figures(store, host, moment)?;
    let wanted = recount(alloc, host)?;
    assert!(rt; had == wanted, "{had:?}, and not {wanted:?}");
    assert!(rt; store.log.log.parts.requests.is_empty());
    Ok(())
}
