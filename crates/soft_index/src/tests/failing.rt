// A disk that fails while a store is opened and read.
ghost use Rattle.std.specs.Prelude.{◌≡◌, true, IfOk};
ghost use Rattle.store_trait.specs.Calls.{IsReady};
ghost use Rattle.host_memory.specs.History.{memory_state};
ghost use Rattle.soft_index.specs.Index.{index_facts, index_means};

use crate::SoftIndex;
use crate::tests::tables::{LAST, Way};
use crate::tests::{answer, settings_of};
use cache_model::{Answer, Key, StoreFault};
use host_memory::MemoryHost;
use std::alloc::Global;
use std::process::Abort;
use std::test::Fail;
use store_trait::Keyed;

/// Whether a key was read, and as it is wanted. False where the disk failed, and the store is spoilt.
fn is_read<F: Fn(&Key) -> bool + Drop>(
    rt: &impl Abort,
    alloc: Global,
    store: &mut SoftIndex<F>,
    host: &mut MemoryHost,
    key: &str,
    wanted: usize,
) -> Result<bool, Fail>
    requires ready { IsReady (index_facts F.Fn store.old) 3000 }
    requires stands { (index_means store.old (memory_state host.old)).stands }
    ensures ready { IfOk result (λ read. read ≡ true → IsReady (index_facts F.Fn store.new) 3000) }
    ensures stands { IfOk result (λ read. read ≡ true → (index_means store.new (memory_state host.new)).stands) }
{
    let key = Key::of(alloc, key.as_bytes())?;
    match answer(store, host, &key, LAST) {
        Ok(answer) => {
            let length = match answer {
                Answer::Known(entry) => entry.value.bytes().len(),
                Answer::Gone | Answer::Unknown => 0,
            };
            assert!(rt; length == wanted, "{length}");
            Ok(true)
        }
        Err(StoreFault::Failed) => {
            assert!(rt; store.is_spoilt());
            Ok(false)
        }
        Err(fault) => Err(fault.into()),
    }
}

/// How many keys of a run of `MIDDLE` are read before the disk fails.
fn count_reads<F: Fn(&Key) -> bool + Drop>(
    rt: &impl Abort,
    alloc: Global,
    store: &mut SoftIndex<F>,
    host: &mut MemoryHost,
) -> Result<usize, Fail>
    requires ready { IsReady (index_facts F.Fn store.old) 3000 }
    requires stands { (index_means store.old (memory_state host.old)).stands }
{
    if !is_read(rt, alloc, store, host, "a", 7)? {
        return Ok(0);
    }
    if !is_read(rt, alloc, store, host, "b", 8)? {
        return Ok(1);
    }
    if !is_read(rt, alloc, store, host, "bb", 9)? {
        return Ok(2);
    }
    Ok(3)
}

/// Opens what a run of `MIDDLE` left and reads its keys, on a disk whose call of this number fails. None where the opening
/// failed.
fn read_failing(
    rt: &impl Abort,
    alloc: Global,
    left: &MemoryHost,
    way: &Way,
    fails: u64,
) -> Result<Option<usize>, Fail> {
    let image = left.image_at(left.turns(), 1)?;
    let mut failing = Vec::new(alloc);
    failing.push(fails)?;
    let mut host = MemoryHost::new(alloc, image, failing, Vec::new(alloc), 0)?;
    let settings = settings_of(rt, alloc, way)?;
    match SoftIndex::start(alloc, &mut host, 0, &settings, |_: &Key| false) {
        Ok((mut store, mark)) => {
            assert!(rt; mark <= LAST);
            Ok(Some(count_reads(rt, alloc, &mut store, &mut host)?))
        }
        Err(StoreFault::Failed) => Ok(None),
        Err(fault) => Err(fault.into()),
    }
}

/// Each disk call of an opening and of three reads fails in its turn.
pub(crate) fn failures_spoil(
    rt: &impl Abort,
    alloc: Global,
    left: &MemoryHost,
    way: &Way,
) -> Result<(), Fail> {
    let mut before = None;
    let mut failed = 0usize;
    for fails in 1..100 {
        let read = read_failing(rt, alloc, left, way, fails)?;
        assert!(rt; before <= read, "{fails}");
        if read.is_some_and(|read| read < 3) {
            failed = failed.saturating_add(1);
        }
        before = read;
    }
    assert!(rt; before == Some(3) && 3 <= failed, "{failed}");
    Ok(())
}
