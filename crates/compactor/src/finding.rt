// The entry of a key in the index, among those of its hash.
ghost use Rattle.std.specs.Prelude.{◌≡◌, ◌≤◌, IsTrue, ℕ, All, Some, IfOk, IsErrOf};
ghost use Rattle.cache_model.specs.declared.faults.StoreFault.TheVariants as fault;
ghost use Rattle.cache_model.specs.declared.faults.Spent.{Spent};
ghost use Rattle.cache_model.specs.declared.index.IndexKey.{IndexKey};
ghost use Rattle.cache_model.specs.declared.index.IndexValue.{IndexValue};
ghost use Rattle.cache_model.specs.Hash.{hash};
ghost use Rattle.cache_disk.specs.Calls.{HasStoreCause};
ghost use Rattle.record_format.specs.Meaning.{own_item};
ghost use Rattle.append_log.specs.Current.{IsUsable, files_of, store_of};
ghost use Rattle.append_log.specs.Fetching.{with_spoilt};
ghost use Rattle.tree_index.specs.Index.{entries_of, value_at};
ghost use Rattle.compactor.specs.Counting.{IsFileNumber};
ghost use Rattle.compactor.specs.Entering.{IsHeld};
ghost use Rattle.compactor.specs.Finding.{IsAmong, Searches, entry_place, has_key, spoils};

use append_log::Log;
use cache_disk::Host;
use cache_model::{IndexKey, IndexValue, Key, Place, StoreFault, hash};
use record_format::OwnItem;
use tree_index::Tree;

/// An entry of the index, with the record that stands at its place.
#[derive(Debug, Drop)]
pub(crate) struct FoundEntry {
    pub(crate) at: IndexKey,
    pub(crate) value: IndexValue,
    pub(crate) item: OwnItem,
}

// Where the record of an entry stands.
pub(crate) fn entry_place(at: IndexKey, value: IndexValue) -> Place
    ensures { result ≡ entry_place at value }
{
    Place {
        file: at.file,
        at: at.at,
        length: value.length,
    }
}

// Whether a record is of a key.
fn has_key(item: &OwnItem, key: &Key) -> bool
    ensures { result ≡ has_key key.now (own_item item.now) }
{
    match item {
        OwnItem::Put { key: named, .. } | OwnItem::Removal { key: named, .. } => named == key,
        OwnItem::End { .. } => false,
    }
}

// The first of these entries whose record is of a key.
fn first_of_key<H: Host>(
    log: &mut Log,
    host: &mut H,
    entries: &[(IndexKey, IndexValue)],
    key: &Key,
) -> Result<Option<FoundEntry>, StoreFault>
    requires usable { IsUsable (files_of log.old) }
    requires main { store_of (files_of log.old) ≡ 0 }
    requires numbers { All (λ e. IsFileNumber e.0.file) entries.now }
    ensures log { files_of log.new ≡ with_spoilt (files_of log.old) (spoils result) }
    ensures among { IfOk result (IsAmong entries.now) }
    ensures searches { IsTrue H.tells → Searches key.now entries.now (H.state host.old) (H.state host.new) result }
    ensures unspent { (s : Spent) → IsErrOf result (fault.Spent s) → ⊥ }
    ensures cause { HasStoreCause (H.state host.old) (H.state host.new) result }
{
    for (at, value) in entries {
        let item = match log.fetch(host, entry_place(*at, *value)) {
            Ok(item) => item,
            Err(fault) => return Err(fault),
        };
        if has_key(&item, key) {
            return Ok(Some(FoundEntry {
                at: *at,
                value: *value,
                item,
            }));
        }
    }
    Ok(None)
}

/// The entry of a key in the index, None where it has none. It reads the records of the entries with the key's hash, up to
/// the one that is the key's.
pub(crate) fn find_entry<H: Host>(
    log: &mut Log,
    tree: &mut Tree,
    host: &mut H,
    key: &Key,
) -> Result<Option<FoundEntry>, StoreFault>
    requires usable { IsUsable (files_of log.old) }
    requires main { store_of (files_of log.old) ≡ 0 }
    requires bits { tree.old.bits ≤ 32 }
    requires numbers { (at : IndexKey) (value : IndexValue) → value_at tree.old.entries at ≡ Some value → IsFileNumber at.file }
    ensures tree { tree.new ≡ tree.old }
    ensures log { files_of log.new ≡ with_spoilt (files_of log.old) (spoils result) }
    ensures held { IfOk result (IsHeld tree.old.entries) }
    ensures searches { IsTrue H.tells → Searches key.now (entries_of (hash tree.old.bits key.now) tree.old.entries) (H.state host.old) (H.state host.new) result }
    ensures unspent { (s : Spent) → IsErrOf result (fault.Spent s) → ⊥ }
    ensures cause { HasStoreCause (H.state host.old) (H.state host.new) result }
{
    match tree.find(host, hash(key, tree.hash_bits())) {
        Ok(entries) => first_of_key(log, host, &entries, key),
        Err(fault) => Err(fault),
    }
}
