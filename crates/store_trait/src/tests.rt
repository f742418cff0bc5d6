// A store in memory answers what is known from outside, asked as any store is.
ghost use Rattle.std.specs.Prelude.{◌≤◌, IfOk, OnOk, IsTrue};
ghost use Rattle.store_trait.specs.Meaning.{IsChange};
ghost use Rattle.store_trait.specs.Calls.{IsReady};
ghost use Rattle.store_trait.specs.Heap.{heap_facts};

use crate::{Entries, FileStore, HeapStore, Keyed, Store};
use cache_disk::Host;
use cache_model::{Answer, Change, Entry, Key, StepKind, StoreFault, Turned, Until, Value};
use host_memory::MemoryHost;
use std::alloc::Global;
use std::process::Abort;
use std::test::Fail;

const MOMENT: u64 = 1000;

/// A change of a key, a removal where there is no value, what is then had of the key, and the visible keys in walk order
/// by 32 bits of the hash and by none.
type Row = (
    &'static str,
    Option<&'static str>,
    &'static str,
    &'static str,
    &'static str,
);

/// The changes that some commands make. The hash of `y` is below that of `x`.
const ROWS: [Row; 8] = [
    ("a", Some("1"), "Known([49])", "a", "a"),
    ("a", Some("3"), "Known([51])", "a", "a"),
    ("a", Some("4"), "Known([52])", "a", "a"),
    ("a", None, "Gone", "", ""),
    ("x", Some("\0 "), "Known([0, 32])", "x", "x"),
    ("y", Some(""), "Known([])", "yx", "xy"),
    ("x", None, "Gone", "y", "y"),
    ("y", None, "Gone", "", ""),
];

fn change_of(alloc: Global, row: &Row) -> Result<Change, Fail>
    ensures { IfOk result (λ change. IsChange change) }
{
    let key = Key::of(alloc, row.0.as_bytes())?;
    Ok(match row.1 {
        Some(value) => Change::Put(
            key,
            Entry {
                value: Value::of(alloc, value.as_bytes())?,
                until: Until::Never,
            },
        ),
        None => Change::Remove(key),
    })
}

/// What a store has of a key after a change.
fn load_after<H: Host, S: Store<H>>(
    store: &mut S,
    host: &mut H,
    change: &Change,
    key: &Key,
    moment: u64,
) -> Result<Answer, StoreFault>
    requires ready { IsReady (S.facts store.old) moment }
    requires stands { IsTrue H.tells → (S.means store.old (H.state host.old)).stands }
    requires change { IsChange change.now }
    ensures ready { OnOk result (IsReady (S.facts store.new) moment) }
    ensures stands { OnOk result (IsTrue H.tells → (S.means store.new (H.state host.new)).stands) }
{
    let written = store.write(host, change, moment);
    if let Err(fault) = written {
        return Err(fault);
    }
    store.load(host, key, moment)
}

/// The first visible key behind another.
fn next_of<H: Host, S: Store<H>>(
    store: &mut S,
    host: &mut H,
    after: Option<&Key>,
    moment: u64,
) -> Result<Option<Key>, StoreFault>
    requires ready { IsReady (S.facts store.old) moment }
    requires stands { IsTrue H.tells → (S.means store.old (H.state host.old)).stands }
    ensures ready { OnOk result (IsReady (S.facts store.new) moment) }
    ensures stands { OnOk result (IsTrue H.tells → (S.means store.new (H.state host.new)).stands) }
{
    store.next_key(host, after, moment)
}

/// A sync and a step that has nothing to do.
fn rests<H: Host, S: Store<H>>(
    store: &mut S,
    host: &mut H,
    moment: u64,
) -> Result<Turned, StoreFault>
    requires ready { IsReady (S.facts store.old) moment }
    requires stands { IsTrue H.tells → (S.means store.old (H.state host.old)).stands }
    ensures ready { OnOk result (IsReady (S.facts store.new) moment) }
    ensures stands { OnOk result (IsTrue H.tells → (S.means store.new (H.state host.new)).stands) }
{
    let synced = store.sync(host, moment);
    if let Err(fault) = synced {
        return Err(fault);
    }
    store.step(host, moment, StepKind::Flush)
}

/// What a count of the files gives.
fn figures_of<H: Host, S: FileStore<H>>(
    store: &mut S,
    host: &mut H,
    moment: u64,
) -> Result<(u64, u64, u64), StoreFault>
    requires ready { IsReady (S.facts store.old) moment }
    requires stands { IsTrue H.tells → (S.means store.old (H.state host.old)).stands }
    ensures ready { OnOk result (IsReady (S.facts store.new) moment) }
    ensures stands { OnOk result (IsTrue H.tells → (S.means store.new (H.state host.new)).stands) }
{
    store.figures(host, moment)
}

/// The key behind one in the walk, where there is one.
fn behind(
    store: &mut HeapStore,
    host: &mut MemoryHost,
    key: &Option<Key>,
) -> Result<Option<Key>, StoreFault>
    requires { IsReady (heap_facts store.old) 1000 }
    ensures { OnOk result (IsReady (heap_facts store.new) 1000) }
{
    match key {
        Some(key) => next_of(store, host, Some(key), MOMENT),
        None => Ok(None),
    }
}

/// The first three keys of the walk, one behind the other.
fn walk(alloc: Global, store: &mut HeapStore, host: &mut MemoryHost) -> Result<Vec<u8>, Fail>
    requires { IsReady (heap_facts store.old) 1000 }
    ensures { OnOk result (IsReady (heap_facts store.new) 1000) }
{
    let first = next_of(store, host, None, MOMENT)?;
    let second = behind(store, host, &first)?;
    let third = behind(store, host, &second)?;
    let mut keys = Vec::new(alloc);
    for key in [first, second, third].iter().flatten() {
        keys.extend_from_slice(key.bytes())?;
    }
    Ok(keys)
}

/// What is had of a key, as text.
fn text_of(alloc: Global, answer: &Answer) -> Result<String, Fail> {
    Ok(match answer {
        Answer::Known(entry) => format!(in alloc; "Known({:?})", entry.value.bytes())?,
        Answer::Gone => format!(in alloc; "Gone")?,
        Answer::Unknown => format!(in alloc; "Unknown")?,
    })
}

/// One row, in a store with so many bits of the hash.
fn row_holds(
    rt: &impl Abort,
    alloc: Global,
    store: &mut HeapStore,
    host: &mut MemoryHost,
    row: &Row,
) -> Result<(), Fail>
    requires { IsReady (heap_facts store.old) 1000 }
    ensures { OnOk result (IsReady (heap_facts store.new) 1000) }
{
    let change = change_of(alloc, row)?;
    let key = Key::of(alloc, row.0.as_bytes())?;
    let answer = load_after(store, host, &change, &key, MOMENT)?;
    let text = text_of(alloc, &answer)?;
    assert!(rt; text.as_str() == row.2, "{row:?}: {text}");
    let keys = walk(alloc, store, host)?;
    let wanted = if store.hash_bits() == 0 { row.4 } else { row.3 };
    assert!(rt; keys.as_slice() == wanted.as_bytes(), "{row:?}: {keys:?}");
    Ok(())
}

fn rows_hold(rt: &impl Abort, alloc: Global, bits: u32) -> Result<(), Fail>
    requires { bits ≤ 32 }
{
    let mut host = MemoryHost::new(alloc, Vec::new(alloc), Vec::new(alloc), Vec::new(alloc), 0)?;
    let mut store = HeapStore::new(alloc, bits)?;
    for row in &ROWS {
        row_holds(rt, alloc, &mut store, &mut host, row)?;
    }
    let never = Key::of(alloc, b"b")?;
    let change = Change::Remove(Key::of(alloc, b"x")?);
    let answer = load_after(&mut store, &mut host, &change, &never, MOMENT)?;
    assert!(rt; text_of(alloc, &answer)?.as_str() == "Unknown");
    let figures = figures_of(&mut store, &mut host, MOMENT)?;
    assert!(rt; figures == (0, 0, 0), "{figures:?}");
    let turned = rests(&mut store, &mut host, MOMENT)?;
    assert!(rt; turned == Turned::Idle && !store.is_spoilt());
    Ok(())
}

#[test]
fn a_store_in_memory_answers(rt: HostRuntime) -> Result<(), Fail> {
    for bits in [32, 0] {
        rows_hold(&rt, rt.alloc(), bits)?;
    }
    Ok(())
}

#[test]
fn seats_are_kept_and_taken_away(rt: HostRuntime) -> Result<(), Fail> {
    let alloc = rt.alloc();
    let key = Key::of(alloc, b"k")?;
    let mut entries = Entries::new(alloc, 7);
    let seat = entries.seat(&key)?;
    assert!(rt; entries.get(&key)?.is_none() && entries.next(None, 0)?.is_none());
    entries.unseat(seat);
    let seat = entries.seat(&key)?;
    entries.fill(seat, None);
    assert!(rt; matches!(entries.get(&key)?, Some(None)) && entries.next(None, 0)?.is_none());
    let seat = entries.seat(&key)?;
    entries.unseat(seat);
    assert!(rt; matches!(entries.get(&key)?, Some(None)) && entries.hash_bits() == 7);
    Ok(())
}
