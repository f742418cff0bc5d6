// The walk over the keys that have records, by the table and the index.
ghost use Rattle.std.specs.Prelude.{◌≡◌, ◌≤◌, ℕ, All, None, Some, IsTrue, IfOk, IfErr, IsErrOf, option_map, option_and_then};
ghost use Rattle.cache_model.specs.declared.faults.StoreFault.TheVariants as fault;
ghost use Rattle.cache_model.specs.declared.faults.Spent.{Spent};
ghost use Rattle.cache_model.specs.declared.index.IndexKey.{IndexKey};
ghost use Rattle.cache_model.specs.declared.index.IndexValue.{IndexValue};
ghost use Rattle.cache_model.specs.Images.{key_of};
ghost use Rattle.cache_model.specs.Hash.{precedes, follows};
ghost use Rattle.cache_disk.specs.State.{Stands as IsSame};
ghost use Rattle.cache_disk.specs.Calls.{HasStoreCause};
ghost use Rattle.record_format.specs.Meaning.{own_item};
ghost use Rattle.append_log.specs.Current.{IsUsable, files_of, store_of};
ghost use Rattle.append_log.specs.Fetching.{with_spoilt};
ghost use Rattle.tree_index.specs.Index.{entries_of, value_at, AreOrdered};
ghost use Rattle.compactor.specs.Counting.{AreThere, IsFileNumber, Kept, counts_in};
ghost use Rattle.compactor.specs.Indexing.{AreIndexed, AreUsable};
ghost use Rattle.compactor.specs.Looking.{Looks, Walks};
ghost use Rattle.compactor.specs.declared.walking.Known.TheVariants.{Placed};
ghost use Rattle.compactor.specs.Finding.{spoils};
ghost use Rattle.compactor.specs.Walking.{AreHashed, IsFirstKey, IsNextKnown, Seeks, end_of, is_above, is_beyond, is_lower, is_nearer, known_by, leads, nearer, read_of, GivesNewest};

use crate::finding::entry_place;
use crate::parts::Parts;
use append_log::Log;
use cache_disk::Host;
use cache_model::{IndexKey, IndexValue, Key, StoreFault, hash};
use record_format::OwnItem;
use tree_index::Tree;

/// What is known of the next key of a walk.
#[derive(Debug, Drop)]
pub(crate) enum Known {
    /// It has a place in the table.
    Placed(Key),
    /// It has none, and this record is its newest.
    Read(Key, OwnItem),
}

// The key of a record.
fn key_of(item: &OwnItem) -> Option<&Key>
    ensures { option_map (λ key. key.now) result ≡ key_of (own_item item.now) }
{
    match item {
        OwnItem::Put { key, .. } | OwnItem::Removal { key, .. } => Some(key),
        OwnItem::End { .. } => None,
    }
}

// Whether a record's key stands behind another, or behind none, and before that of the best so far, where there is one.
fn is_nearer(item: &OwnItem, best: Option<&OwnItem>, after: Option<&Key>) -> bool
    ensures { result ≡ is_nearer (option_map (λ after. after.now) after.entry) (option_and_then (λ best. key_of (own_item best.now)) best.entry) (key_of (own_item item.now)) }
{
    let Some(key) = key_of(item) else {
        return false;
    };
    let is_behind = after.is_none_or(|after| after < key);
    is_behind && best.and_then(key_of).is_none_or(|best| key < best)
}

// The nearer of the best so far and a record.
fn nearer(best: Option<OwnItem>, item: OwnItem, after: Option<&Key>) -> Option<OwnItem>
    ensures { result ≡ nearer (option_map (λ after. after.now) after.entry) best item }
{
    if is_nearer(&item, best.as_ref(), after) {
        Some(item)
    } else {
        best
    }
}

// The record of the least key behind another, or of all, among those of some entries.
fn first_behind<H: Host>(
    log: &mut Log,
    host: &mut H,
    entries: &[(IndexKey, IndexValue)],
    after: Option<&Key>,
) -> Result<Option<OwnItem>, StoreFault>
    requires usable { IsUsable (files_of log.old) }
    requires main { store_of (files_of log.old) ≡ 0 }
    requires numbers { All (λ e. IsFileNumber e.0.file) entries.now }
    ensures log { files_of log.new ≡ with_spoilt (files_of log.old) (spoils result) }
    ensures stands { IsTrue H.tells → IsSame (H.state host.old) (H.state host.new) }
    ensures seeks { IsTrue H.tells → Seeks (IsFirstKey (H.state host.old).files (is_above (option_map (λ key. key.now) after.entry)) is_lower entries.now) entries.now (H.state host.old).files result }
    ensures unspent { (s : Spent) → IsErrOf result (fault.Spent s) → ⊥ }
    ensures cause { HasStoreCause (H.state host.old) (H.state host.new) result }
{
    let mut best = None;
    for (at, value) in entries {
        let item = match log.fetch(host, entry_place(*at, *value)) {
            Ok(item) => item,
            Err(fault) => return Err(fault),
        };
        best = nearer(best, item, after);
    }
    Ok(best)
}

// The record of the least key behind another, or of all, among those of a hash.
fn first_beside<H: Host>(
    log: &mut Log,
    tree: &mut Tree,
    host: &mut H,
    hash: u32,
    after: Option<&Key>,
) -> Result<Option<OwnItem>, StoreFault>
    requires usable { IsUsable (files_of log.old) }
    requires main { store_of (files_of log.old) ≡ 0 }
    requires numbers { (at : IndexKey) (value : IndexValue) → value_at tree.old.entries at ≡ Some value → IsFileNumber at.file }
    ensures tree { tree.new ≡ tree.old }
    ensures log { files_of log.new ≡ with_spoilt (files_of log.old) (spoils result) }
    ensures stands { IsTrue H.tells → IsSame (H.state host.old) (H.state host.new) }
    ensures seeks { IsTrue H.tells → let found = entries_of hash tree.old.entries in
        Seeks (IsFirstKey (H.state host.old).files (is_above (option_map (λ key. key.now) after.entry)) is_lower found) found (H.state host.old).files result }
    ensures unspent { (s : Spent) → IsErrOf result (fault.Spent s) → ⊥ }
    ensures cause { HasStoreCause (H.state host.old) (H.state host.new) result }
{
    match tree.find(host, hash) {
        Ok(entries) => first_behind(log, host, &entries, after),
        Err(fault) => Err(fault),
    }
}

// Behind all entries of a hash, where there is one.
fn end_of(hash: Option<u32>) -> Option<IndexKey>
    ensures { result ≡ option_map end_of hash }
{
    hash.map(|hash| IndexKey {
        hash,
        file: u32::MAX,
        at: u32::MAX,
    })
}

// The record of the first key in walk order whose hash is greater than this one, or of all.
fn first_beyond<H: Host>(
    log: &mut Log,
    tree: &mut Tree,
    host: &mut H,
    least: Option<u32>,
) -> Result<Option<OwnItem>, StoreFault>
    requires usable { IsUsable (files_of log.old) }
    requires main { store_of (files_of log.old) ≡ 0 }
    requires numbers { (at : IndexKey) (value : IndexValue) → value_at tree.old.entries at ≡ Some value → IsFileNumber at.file }
    requires ordered { AreOrdered tree.old.entries }
    ensures tree { tree.new ≡ tree.old }
    ensures log { files_of log.new ≡ with_spoilt (files_of log.old) (spoils result) }
    ensures stands { IsTrue H.tells → IsSame (H.state host.old) (H.state host.new) }
    ensures seeks { IsTrue H.tells → let bits = tree.old.bits in let entries = tree.old.entries in AreHashed (H.state host.old).files bits entries
        → Seeks (IsFirstKey (H.state host.old).files (is_beyond bits least) (precedes bits) entries) entries (H.state host.old).files result }
    ensures unspent { (s : Spent) → IsErrOf result (fault.Spent s) → ⊥ }
    ensures cause { HasStoreCause (H.state host.old) (H.state host.new) result }
{
    match tree.next(host, end_of(least)) {
        Ok(Some((next, _))) => first_beside(log, tree, host, next.hash, None),
        Ok(None) => Ok(None),
        Err(fault) => Err(fault),
    }
}

// The record of the first key behind another in walk order, or of all, among those of the index.
fn first_indexed<H: Host>(
    log: &mut Log,
    tree: &mut Tree,
    host: &mut H,
    after: Option<&Key>,
) -> Result<Option<OwnItem>, StoreFault>
    requires usable { IsUsable (files_of log.old) }
    requires main { store_of (files_of log.old) ≡ 0 }
    requires bits { tree.old.bits ≤ 32 }
    requires numbers { (at : IndexKey) (value : IndexValue) → value_at tree.old.entries at ≡ Some value → IsFileNumber at.file }
    requires ordered { AreOrdered tree.old.entries }
    ensures tree { tree.new ≡ tree.old }
    ensures log { files_of log.new ≡ with_spoilt (files_of log.old) (spoils result) }
    ensures stands { IsTrue H.tells → IsSame (H.state host.old) (H.state host.new) }
    ensures seeks { IsTrue H.tells → let bits = tree.old.bits in let entries = tree.old.entries in AreHashed (H.state host.old).files bits entries
        → Seeks (IsFirstKey (H.state host.old).files (follows bits (option_map (λ key. key.now) after.entry)) (precedes bits) entries) entries (H.state host.old).files result }
    ensures unspent { (s : Spent) → IsErrOf result (fault.Spent s) → ⊥ }
    ensures cause { HasStoreCause (H.state host.old) (H.state host.new) result }
{
    match after {
        Some(after) => {
            let hash = hash(after, tree.hash_bits());
            match first_beside(log, tree, host, hash, Some(after)) {
                Ok(Some(item)) => Ok(Some(item)),
                Ok(None) => first_beyond(log, tree, host, Some(hash)),
                Err(fault) => Err(fault),
            }
        }
        None => first_beyond(log, tree, host, None),
    }
}

// Whether a record's key stands before that of the table in walk order, where there is one.
fn leads(item: &OwnItem, placed: Option<&Key>, bits: u32) -> bool
    requires { bits ≤ 32 }
    ensures { result ≡ leads bits (option_map (λ placed. placed.now) placed.entry) (key_of (own_item item.now)) }
{
    match (key_of(item), placed) {
        (Some(key), Some(placed)) => (hash(key, bits), key) < (hash(placed, bits), placed),
        (Some(_), None) => true,
        (None, _) => false,
    }
}

// A record with its key.
fn read_of(item: OwnItem) -> Result<Option<Known>, StoreFault>
    ensures known { IfOk result (λ known. known ≡ read_of item) }
    ensures memory { IfErr result (λ given. given ≡ fault.Memory) }
{
    let Some(key) = key_of(&item) else {
        return Ok(None);
    };
    match key.copy() {
        Ok(key) => Ok(Some(Known::Read(key, item))),
        Err(_) => Err(StoreFault::Memory),
    }
}

// A key that has a place, where there is one.
fn placed_of(key: Option<&Key>) -> Result<Option<Known>, StoreFault>
    ensures known { IfOk result (λ known. known ≡ option_map Placed (option_map (λ key. key.now) key.entry)) }
    ensures memory { IfErr result (λ given. given ≡ fault.Memory) }
{
    let Some(key) = key else {
        return Ok(None);
    };
    match key.copy() {
        Ok(key) => Ok(Some(Known::Placed(key))),
        Err(_) => Err(StoreFault::Memory),
    }
}

// What is known by the next key that has a place and the next record of the index.
fn known_by(
    placed: Option<&Key>,
    indexed: Option<OwnItem>,
    bits: u32,
) -> Result<Option<Known>, StoreFault>
    requires { bits ≤ 32 }
    ensures known { IfOk result (λ known. known ≡ known_by bits (option_map (λ placed. placed.now) placed.entry) indexed) }
    ensures memory { IfErr result (λ given. given ≡ fault.Memory) }
{
    match indexed {
        Some(item) if leads(&item, placed, bits) => read_of(item),
        _ => placed_of(placed),
    }
}

impl Parts {
    // What is known of the first key behind another in walk order, or of all.
    fn next_known<H: Host>(
        &mut self,
        host: &mut H,
        after: Option<&Key>,
    ) -> Result<Option<Known>, StoreFault>
        requires usable { AreUsable self.old }
        ensures looks { Looks self.old self.new result }
        ensures stands { IsTrue H.tells → IsSame (H.state host.old) (H.state host.new) }
        ensures knows { IsTrue H.tells → let bits = self.old.tree.bits in let entries = self.old.tree.entries in AreHashed (H.state host.old).files bits entries
            → Seeks (IsNextKnown (H.state host.old).files bits self.old.table entries (option_map (λ key. key.now) after.entry)) entries (H.state host.old).files result }
        ensures unspent { (s : Spent) → IsErrOf result (fault.Spent s) → ⊥ }
        ensures cause { HasStoreCause (H.state host.old) (H.state host.new) result }
    {
        let bits = self.tree.hash_bits();
        let indexed = first_indexed(&mut self.log, &mut self.tree, host, after);
        self.spoilt = self.log.is_spoilt();
        match indexed {
            Ok(indexed) => known_by(self.table.next_placed(bits, after), indexed, bits),
            Err(fault) => Err(fault),
        }
    }

    /// The first key behind another in walk order that has a record, or the first of all, with its newest record.
    ///
    /// It reads the records of the index that have the hash of the key behind which it looks, and where none of these is
    /// behind it those of the next hash; and the record at the key's place in the table, where it has one. After a fault
    /// other than `Memory` the parts are spoilt.
    pub fn next_record<H: Host>(
        &mut self,
        host: &mut H,
        after: Option<&Key>,
    ) -> Result<Option<(Key, OwnItem)>, StoreFault>
        requires usable { AreUsable self.old }
        ensures looks { Looks self.old self.new result }
        ensures stands { IsTrue H.tells → IsSame (H.state host.old) (H.state host.new) }
        ensures walks { IsTrue H.tells → (kept : Kept) → AreIndexed (counts_in kept) self.old → AreThere (counts_in kept) (H.state host.old).files
            → Walks (counts_in kept) self.old.tree.bits (option_map (λ key. key.now) after.entry) result }
        ensures unspent { (s : Spent) → IsErrOf result (fault.Spent s) → ⊥ }
        ensures cause { HasStoreCause (H.state host.old) (H.state host.new) result }
    {
        match self.next_known(host, after) {
            Ok(Some(Known::Placed(key))) => self.record_with(host, key),
            Ok(Some(Known::Read(key, item))) => Ok(Some((key, item))),
            Ok(None) => Ok(None),
            Err(fault) => Err(fault),
        }
    }

    // A key with its newest record, None where it has none.
    fn record_with<H: Host>(
        &mut self,
        host: &mut H,
        key: Key,
    ) -> Result<Option<(Key, OwnItem)>, StoreFault>
        requires usable { AreUsable self.old }
        ensures looks { Looks self.old self.new result }
        ensures stands { IsTrue H.tells → IsSame (H.state host.old) (H.state host.new) }
        ensures finds { IsTrue H.tells → (kept : Kept) → AreIndexed (counts_in kept) self.old → AreThere (counts_in kept) (H.state host.old).files
            → GivesNewest (counts_in kept) key result }
        ensures unspent { (s : Spent) → IsErrOf result (fault.Spent s) → ⊥ }
        ensures cause { HasStoreCause (H.state host.old) (H.state host.new) result }
    {
        match self.record_of(host, &key) {
            Ok(Some(item)) => Ok(Some((key, item))),
            Ok(None) => Ok(None),
            Err(fault) => Err(fault),
        }
    }
}
