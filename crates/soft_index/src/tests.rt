// The store answers as one in memory does, over restarts and crashes.
ghost use Rattle.std.specs.Prelude.{◌≡◌, ◌≤◌, ◌<◌, ◌^◌, ℕ, IfOk, OnOk, IsTrue};
ghost use Rattle.store_trait.specs.Meaning.{IsChange};
ghost use Rattle.store_trait.specs.Calls.{IsReady};
ghost use Rattle.store_trait.specs.Heap.{heap_facts};
ghost use Rattle.cache_model.specs.Items.{IsUntil};
ghost use Rattle.host_memory.specs.History.{memory_state};
ghost use Rattle.soft_index.specs.Index.{IsRule, index_facts, index_means};
ghost use Rattle.soft_index.specs.Store.{AreInRange};

mod failing;
mod recount;
mod tables;

use crate::SoftIndex;
use crate::tests::failing::failures_spoil;
use crate::tests::recount::counts_hold;
use crate::tests::tables::{LAST, LONG, MIDDLE, Row, SHORT, Session, Table, WAYS, Way, way_of};
use cache_disk::Host;
use cache_model::{
    Activation, Answer, Change, Entry, FileKind, FileName, Key, Mode, Prefix, Settings, StepKind,
    StoreFault, Turned, Until, Value,
};
use host_memory::MemoryHost;
use std::alloc::Global;
use std::process::Abort;
use std::test::Fail;
use store_trait::{FileStore, HeapStore, Keyed, Store};

fn settings_of(rt: &impl Abort, alloc: Global, way: &Way) -> Result<Settings, Fail>
    ensures { IfOk result AreInRange }
{
    assert!(rt; way.hash_bits <= 32 && 1 <= way.queue && way.queue <= 65536);
    Ok(Settings {
        file_size: 4096,
        compact_below: 50,
        queue: way.queue,
        nodes: 8,
        hash_bits: way.hash_bits,
        sync_writes: way.sync_writes,
        mode: Mode::Through,
        behind_limit: 1,
        max_entries: 1,
        pump: 0,
        preload: false,
        publish: Prefix::of(alloc, b"")?,
        activation: Activation::Keep,
    })
}

fn until_of(end: Option<u32>) -> Until
    ensures { IsUntil result }
{
    match end {
        Some(end) => Until::At(u64::from(end)),
        None => Until::Never,
    }
}

fn change_of(alloc: Global, row: &Row) -> Result<Change, Fail>
    ensures { IfOk result (λ change. IsChange change) }
{
    let key = Key::of(alloc, row.0.as_bytes())?;
    let Some((text, times, end)) = row.1 else {
        return Ok(Change::Remove(key));
    };
    let value = Value::of(alloc, text.repeat(alloc, times)?.as_bytes())?;
    let until = until_of(end);
    Ok(Change::Put(key, Entry { value, until }))
}

/// Writes a change, once more where it was refused for memory.
fn write<H: Host, S: Store<H>>(
    store: &mut S,
    host: &mut H,
    change: &Change,
    moment: u64,
) -> Result<(), StoreFault>
    requires ready { IsReady (S.facts store.old) moment }
    requires stands { IsTrue H.tells → (S.means store.old (H.state host.old)).stands }
    requires change { IsChange change.now }
    ensures ready { OnOk result (IsReady (S.facts store.new) moment) }
    ensures stands { OnOk result (IsTrue H.tells → (S.means store.new (H.state host.new)).stands) }
{
    match store.write(host, change, moment) {
        Ok(()) => Ok(()),
        Err(fault) => {
            if store.is_spoilt() {
                return Err(fault);
            }
            store.write(host, change, moment)
        }
    }
}

/// Takes a step.
fn step<H: Host, S: Store<H>>(
    store: &mut S,
    host: &mut H,
    moment: u64,
    kind: StepKind,
) -> Result<Turned, StoreFault>
    requires ready { IsReady (S.facts store.old) moment }
    requires stands { IsTrue H.tells → (S.means store.old (H.state host.old)).stands }
    ensures ready { OnOk result (IsReady (S.facts store.new) moment) }
    ensures stands { OnOk result (IsTrue H.tells → (S.means store.new (H.state host.new)).stands) }
{
    store.step(host, moment, kind)
}

/// Compacts a file whole.
fn compact<H: Host, S: FileStore<H>>(
    store: &mut S,
    host: &mut H,
    moment: u64,
    file: u32,
) -> Result<Turned, StoreFault>
    requires ready { IsReady (S.facts store.old) moment }
    requires stands { IsTrue H.tells → (S.means store.old (H.state host.old)).stands }
    ensures ready { OnOk result (IsReady (S.facts store.new) moment) }
    ensures stands { OnOk result (IsTrue H.tells → (S.means store.new (H.state host.new)).stands) }
{
    store.compact_file(host, file, moment)
}

/// A read, made once more where it was refused for memory.
fn answer<H: Host, S: Store<H>>(
    store: &mut S,
    host: &mut H,
    key: &Key,
    moment: u64,
) -> Result<Answer, StoreFault>
    requires ready { IsReady (S.facts store.old) moment }
    requires stands { IsTrue H.tells → (S.means store.old (H.state host.old)).stands }
    ensures ready { OnOk result (IsReady (S.facts store.new) moment) }
    ensures stands { OnOk result (IsTrue H.tells → (S.means store.new (H.state host.new)).stands) }
{
    match store.load(host, key, moment) {
        Ok(answer) => Ok(answer),
        Err(fault) => {
            if store.is_spoilt() {
                return Err(fault);
            }
            store.load(host, key, moment)
        }
    }
}

/// What a store has of a key, as text.
fn load<H: Host, S: Store<H>>(
    alloc: Global,
    store: &mut S,
    host: &mut H,
    key: &str,
    moment: u64,
) -> Result<String, Fail>
    requires ready { IsReady (S.facts store.old) moment }
    requires stands { IsTrue H.tells → (S.means store.old (H.state host.old)).stands }
    ensures ready { OnOk result (IsReady (S.facts store.new) moment) }
    ensures stands { OnOk result (IsTrue H.tells → (S.means store.new (H.state host.new)).stands) }
{
    let key = Key::of(alloc, key.as_bytes())?;
    match answer(store, host, &key, moment)? {
        Answer::Known(entry) => {
            let bytes = entry.value.bytes();
            Ok(format!(in alloc; "{} {:?} {:?}", bytes.len(), bytes.first(), entry.until)?)
        }
        Answer::Gone => Ok(format!(in alloc; "gone")?),
        Answer::Unknown => Ok(format!(in alloc; "unknown")?),
    }
}

/// The first visible key behind another, as text.
fn next<H: Host, S: Store<H>>(
    alloc: Global,
    store: &mut S,
    host: &mut H,
    after: Option<&str>,
    moment: u64,
) -> Result<String, Fail>
    requires ready { IsReady (S.facts store.old) moment }
    requires stands { IsTrue H.tells → (S.means store.old (H.state host.old)).stands }
    ensures ready { OnOk result (IsReady (S.facts store.new) moment) }
    ensures stands { OnOk result (IsTrue H.tells → (S.means store.new (H.state host.new)).stands) }
{
    let after = match after {
        Some(after) => Some(Key::of(alloc, after.as_bytes())?),
        None => None,
    };
    match store.next_key(host, after.as_ref(), moment)? {
        Some(key) => Ok(format!(in alloc; "{:?}", key.bytes())?),
        None => Ok(format!(in alloc; "none")?),
    }
}

/// What a store has of three keys, and its walk from each.
fn seen<H: Host, S: Store<H>>(
    alloc: Global,
    store: &mut S,
    host: &mut H,
    keys: &[&'static str; 3],
    moment: u64,
) -> Result<String, Fail>
    requires ready { IsReady (S.facts store.old) moment }
    requires stands { IsTrue H.tells → (S.means store.old (H.state host.old)).stands }
    ensures ready { OnOk result (IsReady (S.facts store.new) moment) }
    ensures stands { OnOk result (IsTrue H.tells → (S.means store.new (H.state host.new)).stands) }
{
    let [a, b, c] = *keys;
    let one = load(alloc, store, host, a, moment)?;
    let two = load(alloc, store, host, b, moment)?;
    let three = load(alloc, store, host, c, moment)?;
    let first = next(alloc, store, host, None, moment)?;
    let second = next(alloc, store, host, Some(a), moment)?;
    let third = next(alloc, store, host, Some(b), moment)?;
    let last = next(alloc, store, host, Some(c), moment)?;
    Ok(format!(in alloc; "{one}, {two}, {three}: {first} {second} {third} {last}")?)
}

/// A store in memory, and the host that it is called with.
#[derive(Drop)]
struct InMemory {
    store: HeapStore,
    host: MemoryHost,
}

/// The store reads as the one in memory does.
fn reads_alike<F: Fn(&Key) -> bool + Drop>(
    rt: &impl Abort,
    alloc: Global,
    store: &mut SoftIndex<F>,
    heap: &mut InMemory,
    host: &mut MemoryHost,
    keys: &[&'static str; 3],
    moment: u64,
) -> Result<(), Fail>
    requires ready { IsReady (index_facts F.Fn store.old) moment }
    requires stands { (index_means store.old (memory_state host.old)).stands }
    requires heap { IsReady (heap_facts heap.old.store) moment }
    ensures ready { OnOk result (IsReady (index_facts F.Fn store.new) moment) }
    ensures stands { OnOk result ((index_means store.new (memory_state host.new)).stands) }
    ensures heap { OnOk result (IsReady (heap_facts heap.new.store) moment) }
{
    let had = seen(alloc, store, host, keys, moment)?;
    let wanted = seen(alloc, &mut heap.store, &mut heap.host, keys, moment)?;
    assert!(rt; had.as_str() == wanted.as_str(), "{had}, and not {wanted}");
    Ok(())
}

/// An index step, which is done exactly where a request waits.
fn index<F: Fn(&Key) -> bool + Drop>(
    rt: &impl Abort,
    store: &mut SoftIndex<F>,
    host: &mut MemoryHost,
    moment: u64,
) -> Result<(), Fail>
    requires ready { IsReady (index_facts F.Fn store.old) moment }
    requires stands { (index_means store.old (memory_state host.old)).stands }
    ensures ready { OnOk result (IsReady (index_facts F.Fn store.new) moment) }
    ensures stands { OnOk result ((index_means store.new (memory_state host.new)).stands) }
{
    let waiting = store.log.log.parts.requests.len();
    let turned = step(store, host, moment, StepKind::Index)?;
    assert!(rt; (turned == Turned::Done) == (waiting != 0), "{waiting}");
    assert!(rt; store.log.log.parts.requests.len() == waiting.saturating_sub(1));
    Ok(())
}

/// So many index steps.
fn index_often<F: Fn(&Key) -> bool + Drop>(
    rt: &impl Abort,
    store: &mut SoftIndex<F>,
    host: &mut MemoryHost,
    moment: u64,
    steps: usize,
) -> Result<(), Fail>
    requires ready { IsReady (index_facts F.Fn store.old) moment }
    requires stands { (index_means store.old (memory_state host.old)).stands }
    ensures ready { OnOk result (IsReady (index_facts F.Fn store.new) moment) }
    ensures stands { OnOk result ((index_means store.new (memory_state host.new)).stands) }
{
    for _ in 0..steps {
        index(rt, store, host, moment)?;
    }
    Ok(())
}

/// So many turns of a compaction.
fn compact_often<F: Fn(&Key) -> bool + Drop>(
    store: &mut SoftIndex<F>,
    host: &mut MemoryHost,
    moment: u64,
    turns: usize,
) -> Result<(), Fail>
    requires ready { IsReady (index_facts F.Fn store.old) moment }
    requires stands { (index_means store.old (memory_state host.old)).stands }
    ensures ready { OnOk result (IsReady (index_facts F.Fn store.new) moment) }
    ensures stands { OnOk result ((index_means store.new (memory_state host.new)).stands) }
{
    for _ in 0..turns {
        step(store, host, moment, StepKind::Compact)?;
    }
    Ok(())
}

/// Whether there is a data file of this number that isn't the current one.
fn is_closed<F: Fn(&Key) -> bool + Drop>(
    store: &SoftIndex<F>,
    host: &MemoryHost,
    file: u32,
) -> bool {
    store.log.log.parts.log.current() != Some(file) && host.file(data_file(file)).is_some()
}

/// Compacts a file whole, where one is named. It is gone then, unless it is the current one. Where no compaction was under
/// way this is done exactly where the file was a closed one.
fn compact_named<F: Fn(&Key) -> bool + Drop>(
    rt: &impl Abort,
    store: &mut SoftIndex<F>,
    host: &mut MemoryHost,
    moment: u64,
    named: u32,
) -> Result<(), Fail>
    requires ready { IsReady (index_facts F.Fn store.old) moment }
    requires stands { (index_means store.old (memory_state host.old)).stands }
    ensures ready { OnOk result (IsReady (index_facts F.Fn store.new) moment) }
    ensures stands { OnOk result ((index_means store.new (memory_state host.new)).stands) }
{
    if named == 0 {
        return Ok(());
    }
    let current = store.log.log.parts.log.current().unwrap_or(1);
    let file = named.min(current.saturating_sub(1).max(1));
    let was_closed = is_closed(store, host, file);
    let was_alone = store.log.run.is_none();
    let turned = compact(store, host, moment, file)?;
    assert!(rt; !is_closed(store, host, file), "{file}");
    assert!(rt;
        !was_alone || (turned == Turned::Done) == was_closed,
        "{file}"
    );
    Ok(())
}

/// Counts the files where index steps are taken: else the queue is to fill up.
fn count_now<F: Fn(&Key) -> bool + Drop>(
    rt: &impl Abort,
    alloc: Global,
    store: &mut SoftIndex<F>,
    host: &mut MemoryHost,
    moment: u64,
    steps: usize,
) -> Result<(), Fail>
    requires ready { IsReady (index_facts F.Fn store.old) moment }
    requires stands { (index_means store.old (memory_state host.old)).stands }
    ensures ready { OnOk result (IsReady (index_facts F.Fn store.new) moment) }
    ensures stands { OnOk result ((index_means store.new (memory_state host.new)).stands) }
{
    if steps == 0 {
        return Ok(());
    }
    counts_hold(rt, alloc, store, host, moment)
}

/// One change, which both stores then have, and index steps, compactions and a count of the files, which change nothing of
/// what is read.
fn row_holds<F: Fn(&Key) -> bool + Drop>(
    rt: &impl Abort,
    alloc: Global,
    store: &mut SoftIndex<F>,
    heap: &mut InMemory,
    host: &mut MemoryHost,
    keys: &[&'static str; 3],
    row: &Row,
    moment: u64,
    way: &Way,
) -> Result<(), Fail>
    requires ready { IsReady (index_facts F.Fn store.old) moment }
    requires stands { (index_means store.old (memory_state host.old)).stands }
    requires heap { IsReady (heap_facts heap.old.store) moment }
    ensures ready { OnOk result (IsReady (index_facts F.Fn store.new) moment) }
    ensures stands { OnOk result ((index_means store.new (memory_state host.new)).stands) }
    ensures heap { OnOk result (IsReady (heap_facts heap.new.store) moment) }
{
    let change = change_of(alloc, row)?;
    write(store, host, &change, moment)?;
    write(&mut heap.store, &mut heap.host, &change, moment)?;
    reads_alike(rt, alloc, store, heap, host, keys, moment)?;
    index_often(rt, store, host, moment, way.steps)?;
    compact_often(store, host, moment, way.turns)?;
    compact_named(rt, store, host, moment, way.file)?;
    reads_alike(rt, alloc, store, heap, host, keys, moment)?;
    count_now(rt, alloc, store, host, moment, way.steps)?;
    reads_alike(rt, alloc, store, heap, host, keys, moment)
}

/// The store of a directory, whose mark is no later than the moment.
fn open<F: Fn(&Key) -> bool + Drop>(
    rt: &impl Abort,
    alloc: Global,
    host: &mut MemoryHost,
    settings: &Settings,
    forget: F,
    moment: u64,
) -> Result<SoftIndex<F>, Fail>
    requires settings { AreInRange settings.now }
    requires rule { IsRule F.Fn forget }
    requires moment { moment < 2 ^ 61 }
    ensures ready { IfOk result (λ store. IsReady (index_facts F.Fn store) moment) }
    ensures stands { IfOk result (λ store. (index_means store (memory_state host.new)).stands) }
{
    let (store, mark) = SoftIndex::start(alloc, host, 0, settings, forget)?;
    assert!(rt; mark <= moment && !store.is_spoilt() && store.hash_bits() == settings.hash_bits);
    Ok(store)
}

/// A sync, and a rotation. With no current file a rotation is idle.
fn rests<H: Host, S: Store<H>>(
    store: &mut S,
    host: &mut H,
    moment: u64,
) -> Result<(Turned, Turned), StoreFault>
    requires ready { IsReady (S.facts store.old) moment }
    requires stands { IsTrue H.tells → (S.means store.old (H.state host.old)).stands }
    ensures ready { OnOk result (IsReady (S.facts store.new) moment) }
    ensures stands { OnOk result (IsTrue H.tells → (S.means store.new (H.state host.new)).stands) }
{
    let synced = store.sync(host, moment);
    if let Err(fault) = synced {
        return Err(fault);
    }
    let first = store.step(host, moment, StepKind::Rotate);
    match first {
        Ok(first) => match store.step(host, moment, StepKind::Rotate) {
            Ok(second) => Ok((first, second)),
            Err(fault) => Err(fault),
        },
        Err(fault) => Err(fault),
    }
}

/// Applies what waits for the index, and then syncs and rotates.
fn ends<F: Fn(&Key) -> bool + Drop>(
    rt: &impl Abort,
    store: &mut SoftIndex<F>,
    host: &mut MemoryHost,
    moment: u64,
) -> Result<(), Fail>
    requires ready { IsReady (index_facts F.Fn store.old) moment }
    requires stands { (index_means store.old (memory_state host.old)).stands }
    ensures ready { OnOk result (IsReady (index_facts F.Fn store.new) moment) }
    ensures stands { OnOk result ((index_means store.new (memory_state host.new)).stands) }
{
    index_often(rt, store, host, moment, 20)?;
    assert!(rt; store.log.log.parts.requests.is_empty());
    let turned = rests(store, host, moment)?;
    assert!(rt; turned == (Turned::Done, Turned::Idle));
    Ok(())
}

/// One session, which holds the same as the store in memory, from its opening on.
fn session_holds(
    rt: &impl Abort,
    alloc: Global,
    host: &mut MemoryHost,
    heap: &mut InMemory,
    way: &Way,
    keys: &[&'static str; 3],
    session: &Session,
) -> Result<(), Fail>
    requires heap { IsReady (heap_facts heap.old.store) session.now.0 }
    ensures heap { OnOk result (IsReady (heap_facts heap.new.store) session.now.0) }
{
    let moment = u64::from(session.0);
    let [one, two, three, four] = &session.1;
    let settings = settings_of(rt, alloc, way)?;
    let mut store = open(rt, alloc, host, &settings, |_| false, moment)?;
    counts_hold(rt, alloc, &mut store, host, moment)?;
    reads_alike(rt, alloc, &mut store, heap, host, keys, moment)?;
    row_holds(rt, alloc, &mut store, heap, host, keys, one, moment, way)?;
    row_holds(rt, alloc, &mut store, heap, host, keys, two, moment, way)?;
    row_holds(rt, alloc, &mut store, heap, host, keys, three, moment, way)?;
    row_holds(rt, alloc, &mut store, heap, host, keys, four, moment, way)?;
    counts_hold(rt, alloc, &mut store, host, moment)?;
    ends(rt, &mut store, host, moment)?;
    counts_hold(rt, alloc, &mut store, host, moment)
}

/// A host in memory without a file.
fn empty_host(alloc: Global) -> Result<MemoryHost, Fail> {
    Ok(MemoryHost::new(alloc, Vec::new(alloc), Vec::new(alloc), Vec::new(alloc), 0)?)
}

/// A store in memory without a key.
fn empty_heap(rt: &impl Abort, alloc: Global, way: &Way) -> Result<InMemory, Fail>
    ensures { IfOk result (λ heap. IsReady (heap_facts heap.store) 0) }
{
    assert!(rt; way.hash_bits <= 32);
    Ok(InMemory {
        store: HeapStore::new(alloc, way.hash_bits)?,
        host: empty_host(alloc)?,
    })
}

/// The sessions of a table, of which each opens what the one before left.
fn sessions_hold(
    rt: &impl Abort,
    alloc: Global,
    table: &Table,
    way: &Way,
) -> Result<MemoryHost, Fail> {
    let mut host = empty_host(alloc)?;
    let mut heap = empty_heap(rt, alloc, way)?;
    let keys = &table.keys;
    let [one, two, three] = &table.sessions;
    assert!(rt; one.0 <= two.0 && two.0 <= three.0);
    session_holds(rt, alloc, &mut host, &mut heap, way, keys, one)?;
    session_holds(rt, alloc, &mut host, &mut heap, way, keys, two)?;
    session_holds(rt, alloc, &mut host, &mut heap, way, keys, three)?;
    Ok(host)
}

/// The data file of this number.
fn data_file(number: u32) -> FileName {
    FileName {
        kind: FileKind::Log,
        store: 0,
        id: number,
    }
}

#[test]
fn sessions_hold_the_same_as_a_store_in_memory(rt: HostRuntime) -> Result<(), Fail> {
    for row in WAYS {
        let way = way_of(row);
        let left = sessions_hold(&rt, rt.alloc(), &LONG, &way)?;
        // A session of four changes ends before the compaction of three records does, where one turn follows each.
        assert!(&rt;
            left.file(data_file(1)).is_none() == (way.turns > 1 || way.file != 0),
            "{row:?}"
        );
        sessions_hold(&rt, rt.alloc(), &SHORT, &way)?;
        let left = sessions_hold(&rt, rt.alloc(), &MIDDLE, &way)?;
        failures_spoil(&rt, rt.alloc(), &left, &way)?;
    }
    Ok(())
}

/// What was answered by which turn: each change, after which the store in memory read three keys so, and each promise
/// that so many changes outlast a crash.
#[derive(Drop)]
struct Past {
    turns: Vec<u64>,
    texts: Vec<[String; 3]>,
    promises: Vec<(u64, usize)>,
}

fn texts<H: Host, S: Store<H>>(
    alloc: Global,
    store: &mut S,
    host: &mut H,
    keys: &[&'static str; 3],
    moment: u64,
) -> Result<[String; 3], Fail>
    requires ready { IsReady (S.facts store.old) moment }
    requires stands { IsTrue H.tells → (S.means store.old (H.state host.old)).stands }
    ensures ready { OnOk result (IsReady (S.facts store.new) moment) }
    ensures stands { OnOk result (IsTrue H.tells → (S.means store.new (H.state host.new)).stands) }
{
    let [a, b, c] = *keys;
    let one = load(alloc, store, host, a, moment)?;
    let two = load(alloc, store, host, b, moment)?;
    let three = load(alloc, store, host, c, moment)?;
    Ok([one, two, three])
}

/// A change to the store in memory, and what it then reads at the last moment.
fn note(
    alloc: Global,
    heap: &mut InMemory,
    past: &mut Past,
    keys: &[&'static str; 3],
    change: &Change,
    turn: u64,
) -> Result<(), Fail>
    requires change { IsChange change.now }
    requires heap { IsReady (heap_facts heap.old.store) 3000 }
    ensures heap { OnOk result (IsReady (heap_facts heap.new.store) 3000) }
{
    write(&mut heap.store, &mut heap.host, change, LAST)?;
    let read = texts(alloc, &mut heap.store, &mut heap.host, keys, LAST)?;
    past.turns.push(turn)?;
    past.texts.push(read)?;
    Ok(())
}

/// One change more in the past, and index steps and compactions behind it. Where changes are synced at once, its answer is
/// a promise.
fn row_passes<F: Fn(&Key) -> bool + Drop>(
    rt: &impl Abort,
    alloc: Global,
    store: &mut SoftIndex<F>,
    host: &mut MemoryHost,
    heap: &mut InMemory,
    past: &mut Past,
    way: &Way,
    keys: &[&'static str; 3],
    row: &Row,
    moment: u64,
) -> Result<(), Fail>
    requires ready { IsReady (index_facts F.Fn store.old) moment }
    requires stands { (index_means store.old (memory_state host.old)).stands }
    requires heap { IsReady (heap_facts heap.old.store) 3000 }
    ensures ready { OnOk result (IsReady (index_facts F.Fn store.new) moment) }
    ensures stands { OnOk result ((index_means store.new (memory_state host.new)).stands) }
    ensures heap { OnOk result (IsReady (heap_facts heap.new.store) 3000) }
{
    let change = change_of(alloc, row)?;
    write(store, host, &change, moment)?;
    note(alloc, heap, past, keys, &change, host.turns())?;
    if way.sync_writes {
        past.promises.push((host.turns(), past.turns.len()))?;
    }
    index_often(rt, store, host, moment, way.steps)?;
    compact_often(store, host, moment, way.turns)?;
    compact_named(rt, store, host, moment, way.file)
}

/// One session, whose changes are promised at its end.
fn session_passes(
    rt: &impl Abort,
    alloc: Global,
    host: &mut MemoryHost,
    heap: &mut InMemory,
    past: &mut Past,
    way: &Way,
    keys: &[&'static str; 3],
    session: &Session,
) -> Result<(), Fail>
    requires heap { IsReady (heap_facts heap.old.store) 3000 }
    ensures heap { OnOk result (IsReady (heap_facts heap.new.store) 3000) }
{
    let moment = u64::from(session.0);
    let [one, two, three, four] = &session.1;
    let settings = settings_of(rt, alloc, way)?;
    let mut store = open(rt, alloc, host, &settings, |_| false, moment)?;
    row_passes(
        rt, alloc, &mut store, host, heap, past, way, keys, one, moment,
    )?;
    row_passes(
        rt, alloc, &mut store, host, heap, past, way, keys, two, moment,
    )?;
    row_passes(
        rt, alloc, &mut store, host, heap, past, way, keys, three, moment,
    )?;
    row_passes(
        rt, alloc, &mut store, host, heap, past, way, keys, four, moment,
    )?;
    ends(rt, &mut store, host, moment)?;
    past.promises.push((host.turns(), past.turns.len()))?;
    Ok(())
}

/// Whether three keys read so after so many changes.
fn reads_as(past: &Past, count: usize, had: &[String; 3]) -> bool {
    match count.checked_sub(1) {
        Some(last) => past.texts.get(last) == Some(had),
        None => had.iter().all(|text| text.as_str() == "unknown"),
    }
}

/// Whether what a crash left of the keys is what they read after a number of changes: of those that were begun, and no
/// fewer than were promised.
fn is_left(past: &Past, turn: u64, had: &[String; 3]) -> bool {
    let done = past.turns.iter().filter(|at| **at <= turn).count();
    let promised = past.promises.iter().filter(|promise| promise.0 <= turn);
    let least = promised.map(|promise| promise.1).max().unwrap_or(0);
    for count in least..=done.saturating_add(1) {
        if reads_as(past, count, had) {
            return true;
        }
    }
    false
}

fn crash_holds(
    rt: &impl Abort,
    alloc: Global,
    host: &MemoryHost,
    past: &Past,
    settings: &Settings,
    keys: &[&'static str; 3],
    turn: u64,
    choice: u64,
) -> Result<(), Fail>
    requires settings { AreInRange settings.now }
{
    assert!(rt; turn <= host.turns());
    let image = host.image_at(turn, choice)?;
    let mut host = MemoryHost::new(alloc, image, Vec::new(alloc), Vec::new(alloc), 0)?;
    let mut store = open(rt, alloc, &mut host, settings, |_| false, LAST)?;
    let had = texts(alloc, &mut store, &mut host, keys, LAST)?;
    assert!(rt; is_left(past, turn, &had), "{turn} {choice} {had:?}");
    Ok(())
}

fn crashes_hold(rt: &impl Abort, alloc: Global, table: &Table, way: &Way) -> Result<(), Fail> {
    let mut host = empty_host(alloc)?;
    let mut heap = empty_heap(rt, alloc, way)?;
    let settings = settings_of(rt, alloc, way)?;
    let mut past = Past {
        turns: Vec::new(alloc),
        texts: Vec::new(alloc),
        promises: Vec::new(alloc),
    };
    let keys = &table.keys;
    let [one, two, three] = &table.sessions;
    session_passes(rt, alloc, &mut host, &mut heap, &mut past, way, keys, one)?;
    session_passes(rt, alloc, &mut host, &mut heap, &mut past, way, keys, two)?;
    session_passes(rt, alloc, &mut host, &mut heap, &mut past, way, keys, three)?;
    for turn in 0..=host.turns() {
        for choice in 0..8 {
            crash_holds(rt, alloc, &host, &past, &settings, keys, turn, choice)?;
        }
    }
    Ok(())
}

#[test]
fn crashes_leave_changes_that_were_begun(rt: HostRuntime) -> Result<(), Fail> {
    for (table, row) in [
        (&LONG, (32, 16, true, 0, 0, 0)),
        (&LONG, (3, 2, false, 1, 1, 1)),
        (&SHORT, (0, 1, true, 1, 0, 0)),
        (&SHORT, (32, 2, false, 0, 1, 0)),
        (&MIDDLE, (0, 2, false, 0, 1, u32::MAX)),
        (&MIDDLE, (3, 16, true, 0, 20, 0)),
    ] {
        crashes_hold(&rt, rt.alloc(), table, &way_of(row))?;
    }
    Ok(())
}
