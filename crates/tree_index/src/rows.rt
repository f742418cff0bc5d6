// The entries of all hashes: a row under each hash that has some.
ghost use Rattle.std.specs.Prelude.{◌≡◌, IfOk, IfErr, OnOk, OnErr, Some, None};
ghost use Rattle.cache_model.specs.declared.faults.StoreFault.TheVariants.{Memory};
ghost use Rattle.tree_index.specs.Index.{value_at, IsNext};
ghost use Rattle.tree_index.specs.Starts.{row_start};
ghost use Rattle.tree_index.specs.Rows.{held_at, all_entries, AreKept, Changes};

use crate::row::{Row, alone_in, list, next_in, put_in, row_of, take_from};
use cache_model::{IndexKey, IndexValue, StoreFault};
use std::alloc::Global;
use std::collections::BTreeMap;
use std::collections::btree_map::Entry;
use std::ops::Bound;

/// The rows under their hashes.
pub(crate) type Rows = BTreeMap<u32, Row>;

/// The entries of one hash.
pub(crate) fn entries_of(
    alloc: Global,
    rows: &Rows,
    hash: u32,
) -> Result<Vec<(IndexKey, IndexValue)>, StoreFault>
    ensures found { IfOk result (λ found. found.items ≡ held_at rows.now hash) }
    ensures memory { IfErr result (λ fault. fault ≡ Memory) }
{
    match rows.get(&hash) {
        Some(row) => list(alloc, hash, row),
        None => Ok(Vec::new(alloc)),
    }
}

/// Puts a value under a key, and gives the one that it takes the place of.
pub(crate) fn put(
    alloc: Global,
    rows: &mut Rows,
    key: IndexKey,
    value: IndexValue,
) -> Result<Option<IndexValue>, StoreFault>
    requires kept { AreKept rows.old }
    ensures before { IfOk result (λ before. before ≡ value_at (held_at rows.old key.hash) key) }
    ensures put { OnOk result (Changes rows.old key (Some value) rows.new) }
    ensures same { OnErr result (Changes rows.old key (value_at (held_at rows.old key.hash) key) rows.new) }
    ensures memory { IfErr result (λ fault. fault ≡ Memory) }
{
    match rows.entry(key.hash) {
        Ok(Entry::Vacant(vacant)) => {
            vacant.insert(row_of(key, value));
            Ok(None)
        }
        Ok(Entry::Occupied(occupied)) => put_in(alloc, occupied.into_mut(), key, value),
        Err(_) => Err(StoreFault::Memory),
    }
}

/// Takes the entry of a key away, where there is one, and gives its value.
pub(crate) fn take(rows: &mut Rows, key: IndexKey) -> Option<IndexValue>
    requires kept { AreKept rows.old }
    ensures before { result ≡ value_at (held_at rows.old key.hash) key }
    ensures taken { Changes rows.old key None rows.new }
{
    match rows.entry(key.hash) {
        Ok(Entry::Occupied(occupied)) => {
            if let Some(value) = alone_in(occupied.get(), key) {
                occupied.remove();
                return Some(value);
            }
            take_from(occupied.into_mut(), key)
        }
        Ok(Entry::Vacant(_vacant)) => None,
        // Only a row that isn't there would want memory.
        Err(_) => None,
    }
}

// Where the rows with keys above one begin, or all. The first may have such a key or not.
fn row_start(after: Option<IndexKey>) -> Bound<u32>
    ensures { result ≡ row_start after }
{
    match after {
        Some(after) => Bound::Included(after.hash),
        None => Bound::Unbounded,
    }
}

/// The least entry above a key, or of all. It looks at two rows at most, since none is empty.
pub(crate) fn next(rows: &Rows, after: Option<IndexKey>) -> Option<(IndexKey, IndexValue)>
    requires kept { AreKept rows.now }
    ensures { IsNext (all_entries rows.now) after result }
{
    for (hash, row) in rows.range((row_start(after), Bound::Unbounded)) {
        if let Some(next) = next_in(*hash, row, after) {
            return Some(next);
        }
    }
    None
}
