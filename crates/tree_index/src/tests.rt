// What each call answers, and a drawn run of calls beside a plain list.
ghost use Rattle.std.specs.Prelude.{◌<◌, ◌≤◌, IfOk};

use crate::Tree;
use cache_model::{IndexKey, IndexValue};
use host_memory::MemoryHost;
use std::alloc::Global;
use std::process::Abort;
use std::test::Fail;

/// The hash, the file and the offset.
type Key = (u32, u32, u32);

/// The length, the count and whether it is a removal.
type Held = (u32, u64, bool);

type Row = (IndexKey, IndexValue);

/// A call, and what it answers.
#[derive(Debug)]
enum Call {
    Insert(Key, Held, Option<Held>),
    Remove(Key, Option<Held>),
    Find(u32, &'static [(Key, Held)]),
    Next(Option<Key>, Option<(Key, Held)>),
}

/// Entries of several hashes.
const SEVERAL: [Call; 19] = [
    Call::Next(None, None),
    Call::Find(7, &[]),
    Call::Remove((7, 1, 1), None),
    Call::Insert((7, 1, 1), (24, 1, false), None),
    Call::Insert((6, 9, 40), (12, 2, true), None),
    Call::Insert((u32::MAX, 4_294_967_294, u32::MAX), (30, 1, false), None),
    Call::Insert((0, 1, 0), (8, u64::MAX, false), None),
    Call::Insert((7, 1, 1), (25, 3, true), Some((24, 1, false))),
    Call::Find(7, &[((7, 1, 1), (25, 3, true))]),
    Call::Find(5, &[]),
    Call::Find(8, &[]),
    Call::Find(0, &[((0, 1, 0), (8, u64::MAX, false))]),
    Call::Find(
        u32::MAX,
        &[((u32::MAX, 4_294_967_294, u32::MAX), (30, 1, false))],
    ),
    Call::Next(None, Some(((0, 1, 0), (8, u64::MAX, false)))),
    Call::Next(Some((0, 1, 0)), Some(((6, 9, 40), (12, 2, true)))),
    Call::Next(Some((6, 9, 41)), Some(((7, 1, 1), (25, 3, true)))),
    Call::Next(Some((u32::MAX, 4_294_967_294, u32::MAX)), None),
    Call::Remove((6, 9, 40), Some((12, 2, true))),
    Call::Next(Some((0, 1, 0)), Some(((7, 1, 1), (25, 3, true)))),
];

/// Entries of one hash alone.
const ALONE: [Call; 12] = [
    Call::Insert((0, 2, 5), (20, 1, false), None),
    Call::Insert((0, 1, 9), (21, 2, false), None),
    Call::Insert((0, 2, 1), (22, 3, true), None),
    Call::Find(
        0,
        &[
            ((0, 1, 9), (21, 2, false)),
            ((0, 2, 1), (22, 3, true)),
            ((0, 2, 5), (20, 1, false)),
        ],
    ),
    Call::Find(1, &[]),
    Call::Next(Some((0, 1, 8)), Some(((0, 1, 9), (21, 2, false)))),
    Call::Next(Some((0, 1, 9)), Some(((0, 2, 1), (22, 3, true)))),
    Call::Next(Some((0, 2, 5)), None),
    Call::Remove((0, 2, 1), Some((22, 3, true))),
    Call::Remove((0, 2, 1), None),
    Call::Find(
        0,
        &[((0, 1, 9), (21, 2, false)), ((0, 2, 5), (20, 1, false))],
    ),
    Call::Next(Some((0, 1, 9)), Some(((0, 2, 5), (20, 1, false)))),
];

fn key_of(key: Key) -> IndexKey {
    IndexKey {
        hash: key.0,
        file: key.1,
        at: key.2,
    }
}

fn value_of(held: Held) -> IndexValue {
    IndexValue {
        length: held.0,
        count: held.1,
        gone: held.2,
    }
}

fn row_of(row: &(Key, Held)) -> Row {
    (key_of(row.0), value_of(row.1))
}

fn host_of(alloc: Global) -> Result<MemoryHost, Fail> {
    Ok(MemoryHost::new(alloc, Vec::new(alloc), Vec::new(alloc), Vec::new(alloc), 0)?)
}

/// Whether these are the rows that are wanted.
fn are_rows(found: &[Row], wanted: &[(Key, Held)]) -> bool {
    found.len() == wanted.len()
        && found
            .iter()
            .zip(wanted.iter())
            .all(|(found, wanted)| *found == row_of(wanted))
}

/// Whether a call answers what it should.
fn answers(tree: &mut Tree, host: &mut MemoryHost, call: &Call) -> Result<bool, Fail> {
    Ok(match call {
        Call::Insert(key, held, before) => {
            tree.insert(host, key_of(*key), value_of(*held))? == before.map(value_of)
        }
        Call::Remove(key, before) => tree.remove(host, key_of(*key))? == before.map(value_of),
        Call::Find(hash, rows) => are_rows(&tree.find(host, *hash)?, rows),
        Call::Next(after, row) => {
            tree.next(host, after.map(key_of))? == row.as_ref().map(row_of)
        }
    })
}

/// A table of calls, one after another.
fn table_holds(rt: &impl Abort, alloc: Global, calls: &[Call]) -> Result<(), Fail> {
    let mut host = host_of(alloc)?;
    let mut tree = Tree::make(alloc, &mut host, 0, 32, 8)?;
    for call in calls {
        assert!(rt; answers(&mut tree, &mut host, call)?, "{call:?}");
    }
    assert!(rt; tree.levels() == 1 && tree.hash_bits() == 32 && !tree.is_spoilt());
    Ok(())
}

#[test]
fn calls_answer(rt: HostRuntime) -> Result<(), Fail> {
    table_holds(&rt, rt.alloc(), &SEVERAL)?;
    table_holds(&rt, rt.alloc(), &ALONE)
}

/// The next drawn number below a limit.
fn draw(state: &mut u32, limit: u32) -> u32
    requires { 0 < limit }
    ensures { result < limit }
{
    *state = state.wrapping_mul(1_664_525).wrapping_add(1_013_904_223);
    (*state >> 16) % limit
}

/// A drawn key: few enough that the same one is drawn again.
fn draw_key(state: &mut u32, hashes: u32) -> IndexKey
    requires { 0 < hashes }
{
    IndexKey {
        hash: draw(state, hashes),
        file: 1 + draw(state, 3),
        at: draw(state, 4),
    }
}

fn draw_value(state: &mut u32) -> IndexValue {
    IndexValue {
        length: draw(state, 100),
        count: 1 + u64::from(draw(state, 3)),
        gone: draw(state, 2) == 0,
    }
}

/// The rows on one side of a key, below it or above it.
fn side(alloc: Global, rows: &[Row], key: IndexKey, is_below: bool) -> Result<Vec<Row>, Fail> {
    let mut kept = Vec::new(alloc);
    for row in rows {
        if row.0 != key && (row.0 < key) == is_below {
            kept.push(*row)?;
        }
    }
    Ok(kept)
}

/// A list of rows with this under a key, or without it.
fn with(
    alloc: Global,
    rows: &[Row],
    key: IndexKey,
    value: Option<IndexValue>,
) -> Result<Vec<Row>, Fail> {
    let mut all = side(alloc, rows, key, true)?;
    if let Some(value) = value {
        all.push((key, value))?;
    }
    all.extend_from_slice(&side(alloc, rows, key, false)?)?;
    Ok(all)
}

/// What a list has under a key.
fn held(rows: &[Row], key: IndexKey) -> Option<IndexValue> {
    rows.iter().find(|row| row.0 == key).map(|row| row.1)
}

/// The first row of a list above a key, or of all.
fn above(rows: &[Row], after: Option<IndexKey>) -> Option<Row> {
    rows.iter()
        .find(|row| match after {
            Some(after) => row.0 > after,
            None => true,
        })
        .copied()
}

/// The rows of a list that have one hash.
fn of_hash(alloc: Global, rows: &[Row], hash: u32) -> Result<Vec<Row>, Fail> {
    let mut kept = Vec::new(alloc);
    for row in rows {
        if row.0.hash == hash {
            kept.push(*row)?;
        }
    }
    Ok(kept)
}

/// An insert into a tree. Where it is refused memory, the tree still gives the rows of its list.
fn put(
    rt: &impl Abort,
    alloc: Global,
    tree: &mut Tree,
    host: &mut MemoryHost,
    rows: &[Row],
    entry: Row,
) -> Result<Option<IndexValue>, Fail> {
    match tree.insert(host, entry.0, entry.1) {
        Ok(before) => Ok(before),
        Err(fault) => {
            gives(rt, alloc, tree, host, rows, entry.0)?;
            Err(Fail::from(fault))
        }
    }
}

/// One change of a tree, and the list as it is then.
fn change(
    rt: &impl Abort,
    alloc: Global,
    tree: &mut Tree,
    host: &mut MemoryHost,
    rows: &[Row],
    drawn: (IndexKey, Option<IndexValue>),
) -> Result<Vec<Row>, Fail> {
    let (key, value) = drawn;
    let before = match value {
        Some(value) => put(rt, alloc, tree, host, rows, (key, value))?,
        None => tree.remove(host, key)?,
    };
    assert!(rt; before == held(rows, key), "{drawn:?}: {before:?}");
    with(alloc, rows, key, value)
}

/// A tree gives the rows of a list: those of one hash, the one above a key, and the first of all.
fn gives(
    rt: &impl Abort,
    alloc: Global,
    tree: &mut Tree,
    host: &mut MemoryHost,
    rows: &[Row],
    key: IndexKey,
) -> Result<(), Fail> {
    let found = tree.find(host, key.hash)?;
    assert!(rt;
        found == of_hash(alloc, rows, key.hash)?,
        "{key:?}: {found:?}"
    );
    let next = tree.next(host, Some(key))?;
    assert!(rt; next == above(rows, Some(key)), "{key:?}: {next:?}");
    let first = tree.next(host, None)?;
    assert!(rt; first == above(rows, None), "{first:?}");
    Ok(())
}

/// A drawn run of calls, with keys of so many hashes.
fn run_holds(rt: &impl Abort, alloc: Global, hashes: u32) -> Result<(), Fail>
    requires { 0 < hashes }
{
    let mut host = host_of(alloc)?;
    let mut tree = Tree::make(alloc, &mut host, 0, 7, 8)?;
    let mut rows = Vec::new(alloc);
    let mut state = 1;
    for _ in 0..300 {
        let key = draw_key(&mut state, hashes);
        let value = if draw(&mut state, 3) == 0 {
            None
        } else {
            Some(draw_value(&mut state))
        };
        rows = change(rt, alloc, &mut tree, &mut host, &rows, (key, value))?;
        let asked = draw_key(&mut state, hashes);
        gives(rt, alloc, &mut tree, &mut host, &rows, asked)?;
    }
    Ok(())
}

#[test]
fn drawn_calls_answer_as_a_list_does(rt: HostRuntime) -> Result<(), Fail> {
    for hashes in [1, 5] {
        run_holds(&rt, rt.alloc(), hashes)?;
    }
    Ok(())
}

/// The keys of one hash, in which order each is taken out.
const ORDERS: [[Key; 3]; 6] = [
    [(7, 1, 1), (7, 1, 2), (7, 2, 0)],
    [(7, 1, 1), (7, 2, 0), (7, 1, 2)],
    [(7, 1, 2), (7, 1, 1), (7, 2, 0)],
    [(7, 1, 2), (7, 2, 0), (7, 1, 1)],
    [(7, 2, 0), (7, 1, 1), (7, 1, 2)],
    [(7, 2, 0), (7, 1, 2), (7, 1, 1)],
];

/// Keys of one hash come in an order, between those of two others, and go in each order.
fn come_and_go(rt: &impl Abort, alloc: Global, bits: u32, come: &[Key; 3]) -> Result<(), Fail>
    requires { bits ≤ 32 }
{
    let mut host = host_of(alloc)?;
    let mut tree = Tree::make(alloc, &mut host, 0, bits, 8)?;
    let mut rows = Vec::new(alloc);
    for key in [(6, 3, 3), (8, 0, 0)] {
        let entry = (key_of(key), Some(value_of((9, 1, false))));
        rows = change(rt, alloc, &mut tree, &mut host, &rows, entry)?;
    }
    for go in &ORDERS {
        for key in come {
            let entry = (key_of(*key), Some(value_of((key.2, 2, true))));
            rows = change(rt, alloc, &mut tree, &mut host, &rows, entry)?;
            gives(rt, alloc, &mut tree, &mut host, &rows, key_of(*key))?;
        }
        for key in go {
            rows = change(rt, alloc, &mut tree, &mut host, &rows, (key_of(*key), None))?;
            gives(rt, alloc, &mut tree, &mut host, &rows, key_of(*key))?;
        }
    }
    assert!(rt; rows.len() == 2 && tree.hash_bits() == bits);
    Ok(())
}

#[test]
fn keys_of_one_hash_come_and_go(rt: HostRuntime) -> Result<(), Fail> {
    for bits in [0, 32] {
        for come in &ORDERS {
            come_and_go(&rt, rt.alloc(), bits, come)?;
        }
    }
    Ok(())
}
