// What stands under one hash: one entry, or several.
ghost use Rattle.std.specs.Prelude.{◌≡◌, ◌+◌, [], ◌∷◌, length, is_some, if◌then◌else◌, None, Some, IfSome, IfNone, IfOk, IfErr, OnOk, OnErr, IsTrue, ◌↔◌, option_map};
ghost use Rattle.std.specs.BTreeMap.{Updates, IsOrdered};
ghost use Rattle.std.specs.Range.Bound.{bound_map};
ghost use Rattle.cache_model.specs.declared.faults.StoreFault.TheVariants.{Memory};
ghost use Rattle.tree_index.specs.Index.{index_cmp, is_key, value_at, IsAbove, IsNext};
ghost use Rattle.tree_index.specs.Starts.{start_after};
ghost use Rattle.tree_index.specs.Rows.{entries_in, alone_in, IsKept, Rewrites};

use cache_model::{IndexKey, IndexValue, StoreFault};
use std::alloc::Global;
use std::collections::BTreeMap;
use std::ops::Bound;

/// What stands under one hash. Most hashes have one entry, so that it takes no memory of its own.
#[derive(Drop)]
pub(crate) enum Row {
    /// One entry, its fields side by side: so a row takes 24 bytes.
    One {
        gone: bool,
        file: u32,
        at: u32,
        length: u32,
        count: u64,
    },
    /// Several entries, with their whole keys.
    Several(Box<BTreeMap<IndexKey, IndexValue>>),
}

// A row of one entry.
pub(crate) fn row_of(key: IndexKey, value: IndexValue) -> Row
    ensures one { entries_in key.hash result ≡ (key, value) ∷ [] }
    ensures kept { IsKept key.hash result }
{
    Row::One {
        gone: value.gone,
        file: key.file,
        at: key.at,
        length: value.length,
        count: value.count,
    }
}

// Puts a value under a key among several, and gives the one that it takes the place of.
fn put_among(
    several: &mut BTreeMap<IndexKey, IndexValue>,
    key: IndexKey,
    value: IndexValue,
) -> Result<Option<IndexValue>, StoreFault>
    ensures before { IfOk result (λ before. before ≡ value_at several.old.entries key) }
    ensures updates { OnOk result (Updates index_cmp several.old several.new key (Some value)) }
    ensures len { IfOk result (λ before. length several.new.entries ≡ length several.old.entries + (if is_some before then 0 else 1)) }
    ensures ordered { IsOrdered index_cmp several.new }
    ensures same { OnErr result (several.new.entries ≡ several.old.entries) }
    ensures memory { IfErr result (λ fault. fault ≡ Memory) }
{
    match several.insert(key, value) {
        Ok(before) => Ok(before),
        Err(_) => Err(StoreFault::Memory),
    }
}

// A row of two entries of one hash.
fn several_of(
    alloc: Global,
    one: (IndexKey, IndexValue),
    other: (IndexKey, IndexValue),
) -> Result<Row, StoreFault>
    requires hash { one.0.hash ≡ other.0.hash }
    requires apart { one.0 ≡ other.0 → ⊥ }
    ensures both { IfOk result (Rewrites other.0.hash (one ∷ []) other.0 (Some other.1)) }
    ensures memory { IfErr result (λ fault. fault ≡ Memory) }
{
    let mut several = BTreeMap::new(alloc);
    if let Err(fault) = put_among(&mut several, one.0, one.1) {
        return Err(fault);
    }
    if let Err(fault) = put_among(&mut several, other.0, other.1) {
        return Err(fault);
    }
    match Box::new(alloc, several) {
        Ok(several) => Ok(Row::Several(several)),
        Err(_) => Err(StoreFault::Memory),
    }
}

// Puts an entry into a row of one, in its place where it has its key.
fn put_beside(
    alloc: Global,
    row: &mut Row,
    one: (IndexKey, IndexValue),
    entry: (IndexKey, IndexValue),
) -> Result<Option<IndexValue>, StoreFault>
    requires hash { one.0.hash ≡ entry.0.hash }
    requires one { entries_in entry.0.hash row.old ≡ one ∷ [] }
    ensures before { IfOk result (λ before. before ≡ value_at (one ∷ []) entry.0) }
    ensures put { OnOk result (Rewrites entry.0.hash (one ∷ []) entry.0 (Some entry.1) row.new) }
    ensures same { OnErr result (row.new ≡ row.old) }
    ensures memory { IfErr result (λ fault. fault ≡ Memory) }
{
    if one.0 == entry.0 {
        *row = row_of(entry.0, entry.1);
        return Ok(Some(one.1));
    }
    match several_of(alloc, one, entry) {
        Ok(several) => {
            *row = several;
            Ok(None)
        }
        Err(fault) => Err(fault),
    }
}

/// Puts a value under a key of the row's hash, and gives the one that it takes the place of.
pub(crate) fn put_in(
    alloc: Global,
    row: &mut Row,
    key: IndexKey,
    value: IndexValue,
) -> Result<Option<IndexValue>, StoreFault>
    requires kept { IsKept key.hash row.old }
    ensures before { IfOk result (λ before. before ≡ value_at (entries_in key.hash row.old) key) }
    ensures put { OnOk result (Rewrites key.hash (entries_in key.hash row.old) key (Some value) row.new) }
    ensures same { OnErr result (Rewrites key.hash (entries_in key.hash row.old) key (value_at (entries_in key.hash row.old) key) row.new) }
    ensures memory { IfErr result (λ fault. fault ≡ Memory) }
{
    match row {
        Row::One {
            gone,
            file,
            at,
            length,
            count,
        } => {
            let held = IndexKey {
                hash: key.hash,
                file: *file,
                at: *at,
            };
            let holds = IndexValue {
                length: *length,
                count: *count,
                gone: *gone,
            };
            put_beside(alloc, row, (held, holds), (key, value))
        }
        Row::Several(several) => put_among(several, key, value),
    }
}

/// What a row has under a key of its hash, where that is its only entry.
pub(crate) fn alone_in(row: &Row, key: IndexKey) -> Option<IndexValue>
    ensures { result ≡ alone_in key row.now }
{
    match row {
        Row::One {
            gone,
            file,
            at,
            length,
            count,
        } => {
            if *file != key.file || *at != key.at {
                return None;
            }
            Some(IndexValue {
                length: *length,
                count: *count,
                gone: *gone,
            })
        }
        Row::Several(_) => None,
    }
}

// The entry of several that is left alone.
fn left_of(several: &BTreeMap<IndexKey, IndexValue>) -> Option<(IndexKey, IndexValue)>
    ensures one { IfSome result (λ entry. several.now.entries ≡ entry ∷ []) }
    ensures more { IfNone result (length several.now.entries ≡ 1 → ⊥) }
{
    if several.len() != 1 {
        return None;
    }
    match several.first_key_value() {
        Some((key, value)) => Some((*key, *value)),
        None => None,
    }
}

/// Takes the entry of a key out of a row that has others.
pub(crate) fn take_from(row: &mut Row, key: IndexKey) -> Option<IndexValue>
    requires kept { IsKept key.hash row.old }
    requires others { alone_in key row.old ≡ None }
    ensures before { result ≡ value_at (entries_in key.hash row.old) key }
    ensures taken { Rewrites key.hash (entries_in key.hash row.old) key None row.new }
{
    match row {
        Row::One { .. } => None,
        Row::Several(several) => {
            let before = several.remove(&key);
            if let Some((left, holds)) = left_of(several) {
                *row = row_of(left, holds);
                return before;
            }
            before
        }
    }
}

// A list of one entry.
fn list_one(
    alloc: Global,
    entry: (IndexKey, IndexValue),
) -> Result<Vec<(IndexKey, IndexValue)>, StoreFault>
    ensures found { IfOk result (λ found. found.items ≡ entry ∷ []) }
    ensures memory { IfErr result (λ fault. fault ≡ Memory) }
{
    match vec![in alloc; entry] {
        Ok(found) => Ok(found),
        Err(_) => Err(StoreFault::Memory),
    }
}

// A list of several entries.
fn list_several(
    alloc: Global,
    several: &BTreeMap<IndexKey, IndexValue>,
) -> Result<Vec<(IndexKey, IndexValue)>, StoreFault>
    ensures found { IfOk result (λ found. found.items ≡ several.now.entries) }
    ensures memory { IfErr result (λ fault. fault ≡ Memory) }
{
    let mut found = Vec::new(alloc);
    for (key, value) in several.iter() {
        if found.push((*key, *value)).is_err() {
            return Err(StoreFault::Memory);
        }
    }
    Ok(found)
}

/// The entries of a row, in their order.
pub(crate) fn list(
    alloc: Global,
    hash: u32,
    row: &Row,
) -> Result<Vec<(IndexKey, IndexValue)>, StoreFault>
    ensures found { IfOk result (λ found. found.items ≡ entries_in hash row.now) }
    ensures memory { IfErr result (λ fault. fault ≡ Memory) }
{
    match row {
        Row::One {
            gone,
            file,
            at,
            length,
            count,
        } => {
            let key = IndexKey {
                hash,
                file: *file,
                at: *at,
            };
            let value = IndexValue {
                length: *length,
                count: *count,
                gone: *gone,
            };
            list_one(alloc, (key, value))
        }
        Row::Several(several) => list_several(alloc, several),
    }
}

// Whether a key is above another one, where there is one.
fn is_above(after: Option<IndexKey>, key: IndexKey) -> bool
    ensures { IsTrue result ↔ IsAbove after key }
{
    match after {
        Some(after) => after < key,
        None => true,
    }
}

// The one entry of a list, where it is above a key.
fn next_alone(
    entry: (IndexKey, IndexValue),
    after: Option<IndexKey>,
) -> Option<(IndexKey, IndexValue)>
    ensures { IsNext (entry ∷ []) after result }
{
    if is_above(after, entry.0) {
        return Some(entry);
    }
    None
}

// Where the keys above one begin, or all.
fn start_after(after: Option<&IndexKey>) -> Bound<&IndexKey>
    ensures { bound_map (λ key. key.now) result ≡ start_after (option_map (λ key. key.now) after.entry) }
{
    match after {
        Some(after) => Bound::Excluded(after),
        None => Bound::Unbounded,
    }
}

// The least of several entries above a key, or of all.
fn next_among(
    several: &BTreeMap<IndexKey, IndexValue>,
    after: Option<IndexKey>,
) -> Option<(IndexKey, IndexValue)>
    ensures { IsNext several.now.entries after result }
{
    let mut above = several.range((start_after(after.as_ref()), Bound::Unbounded));
    match above.next() {
        Some((key, value)) => Some((*key, *value)),
        None => None,
    }
}

/// The least entry of a row above a key, or of all.
pub(crate) fn next_in(
    hash: u32,
    row: &Row,
    after: Option<IndexKey>,
) -> Option<(IndexKey, IndexValue)>
    ensures { IsNext (entries_in hash row.now) after result }
{
    match row {
        Row::One {
            gone,
            file,
            at,
            length,
            count,
        } => {
            let key = IndexKey {
                hash,
                file: *file,
                at: *at,
            };
            let value = IndexValue {
                length: *length,
                count: *count,
                gone: *gone,
            };
            next_alone((key, value), after)
        }
        Row::Several(several) => next_among(several, after),
    }
}
