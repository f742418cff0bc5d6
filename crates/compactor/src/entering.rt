// Telling the index of a request.
ghost use Rattle.std.specs.Prelude.{◌≡◌, ◌≤◌, ℕ, Option, Some, None, IsTrue, option_map, IfOk, IfErr, OnOk, OnErr, IsErrOf};
ghost use Rattle.cache_model.specs.declared.faults.StoreFault.TheVariants as fault;
ghost use Rattle.cache_model.specs.declared.faults.Spent.{Spent};
ghost use Rattle.cache_model.specs.declared.faults.Damage.{Damage};
ghost use Rattle.cache_model.specs.declared.index.IndexKey.{IndexKey};
ghost use Rattle.cache_model.specs.declared.index.IndexValue.{IndexValue};
ghost use Rattle.cache_model.specs.Hash.{hash};
ghost use Rattle.cache_disk.specs.State.{Stands as IsSame};
ghost use Rattle.cache_disk.specs.Calls.{HasStoreCause};
ghost use Rattle.append_log.specs.Current.{IsUsable, files_of, store_of};
ghost use Rattle.append_log.specs.Fetching.{with_spoilt};
ghost use Rattle.temporary_table.specs.Queue.{key_of};
ghost use Rattle.tree_index.specs.Index.{entries_of, value_at};
ghost use Rattle.compactor.specs.declared.finding.FoundEntry.{FoundEntry};
ghost use Rattle.compactor.specs.Counting.{IsFileNumber};
ghost use Rattle.compactor.specs.Entering.{Drops, Enters, Puts, Settles, count_behind, entry_key, fresh_by, one_less, row_by, stale_by, stands_at, swapped, with_dead, with_live};
ghost use Rattle.compactor.specs.Finding.{IsDamagedEntry, IsEntryFor, spoils};

use crate::finding::{FoundEntry, find_entry};
use append_log::Log;
use cache_disk::Host;
use cache_model::{IndexKey, IndexValue, Key, Place, StoreFault, hash};
use file_stats::Stats;
use temporary_table::{Request, Table};
use tree_index::Tree;

/// What was put into the index, and what is to be taken out.
#[derive(Debug, Clone, Copy)]
pub(crate) struct Entered {
    /// The entry that was put, where none stood under its key.
    pub(crate) fresh: Option<(IndexKey, IndexValue)>,
    /// The entry that another takes the place of.
    pub(crate) stale: Option<(IndexKey, IndexValue)>,
}

// What a record of a key stands under in the index.
fn entry_key(bits: u32, key: &Key, to: Place) -> IndexKey
    requires { bits ≤ 32 }
    ensures { result ≡ entry_key bits key.now to }
{
    IndexKey {
        hash: hash(key, bits),
        file: to.file,
        at: to.at,
    }
}

// How many records of a key are counted, once one more is.
fn count_behind(found: Option<&FoundEntry>) -> u64
    ensures { result ≡ count_behind (option_map (λ found. found.now) found.entry) }
{
    match found {
        Some(found) => found.value.count.saturating_add(1),
        None => 1,
    }
}

// One less, where there is more than one.
fn one_less(count: u64) -> u64
    ensures { result ≡ one_less count }
{
    if 1 < count { count - 1 } else { count }
}

/// Whether these are the file and offset of a place.
pub(crate) fn stands_at(file: u32, at: u32, place: Place) -> bool
    ensures { result ≡ stands_at file at place }
{
    file == place.file && at == place.at
}

// The entry of a key, counting one more: at `to` where it was found at `from`, and else where it was.
fn swapped(
    bits: u32,
    key: &Key,
    from: Place,
    to: Place,
    found: &FoundEntry,
) -> (IndexKey, IndexValue)
    requires { bits ≤ 32 }
    ensures { result ≡ swapped bits key.now from to found.now }
{
    let count = found.value.count.saturating_add(1);
    if stands_at(found.at.file, found.at.at, from) {
        return (
            entry_key(bits, key, to),
            IndexValue {
                length: to.length,
                count,
                gone: found.value.gone,
            },
        );
    }
    (
        found.at,
        IndexValue {
            count,
            ..found.value
        },
    )
}

// What a request puts into the index, by the entry of its key that was found. None where it puts nothing.
fn row_by(
    bits: u32,
    request: &Request,
    found: Option<&FoundEntry>,
) -> Option<(IndexKey, IndexValue)>
    requires { bits ≤ 32 }
    ensures { result ≡ row_by bits request.now (option_map (λ found. found.now) found.entry) }
{
    match request {
        Request::Set { key, to, gone } => Some((
            entry_key(bits, key, *to),
            IndexValue {
                length: to.length,
                count: count_behind(found),
                gone: *gone,
            },
        )),
        Request::Swap { key, from, to } => {
            found.map(|found| swapped(bits, key, *from, *to, found))
        }
        Request::Drop { .. } => None,
        Request::Less { .. } => found.map(|found| {
            (
                found.at,
                IndexValue {
                    count: one_less(found.value.count),
                    ..found.value
                },
            )
        }),
    }
}

// The entry that was found, where another is put under another key.
fn stale_by(
    found: Option<&FoundEntry>,
    put: Option<(IndexKey, IndexValue)>,
) -> Option<(IndexKey, IndexValue)>
    ensures { result ≡ stale_by (option_map (λ found. found.now) found.entry) put }
{
    match (found, put) {
        (Some(found), Some((at, _))) if found.at != at => Some((found.at, found.value)),
        _ => None,
    }
}

// Puts an entry into the index, where there is one, and gives it where none stood under its key.
fn put<H: Host>(
    tree: &mut Tree,
    host: &mut H,
    row: Option<(IndexKey, IndexValue)>,
) -> Result<Option<(IndexKey, IndexValue)>, StoreFault>
    ensures puts { OnOk result (Puts row tree.old tree.new) }
    ensures fresh { IfOk result (λ fresh. fresh ≡ fresh_by tree.old.entries row) }
    ensures same { OnErr result (tree.new ≡ tree.old) }
    ensures memory { IfErr result (λ given. given ≡ fault.Memory) }
    ensures untouched { host.new ≡ host.old }
{
    let Some((at, value)) = row else {
        return Ok(None);
    };
    match tree.insert(host, at, value) {
        Ok(None) => Ok(row),
        Ok(Some(_)) => Ok(None),
        Err(fault) => Err(fault),
    }
}

/// Puts into the index what a request puts, by the entry of its key, and gives that entry where another takes its place.
///
/// A count goes on from that of the entry, and stands still at the greatest number; it is 1 where there was none.
pub(crate) fn enter<H: Host>(
    log: &mut Log,
    tree: &mut Tree,
    host: &mut H,
    request: &Request,
) -> Result<Entered, StoreFault>
    requires usable { IsUsable (files_of log.old) }
    requires main { store_of (files_of log.old) ≡ 0 }
    requires bits { tree.old.bits ≤ 32 }
    requires numbers { (at : IndexKey) (value : IndexValue) → value_at tree.old.entries at ≡ Some value → IsFileNumber at.file }
    ensures log { files_of log.new ≡ with_spoilt (files_of log.old) (spoils result) }
    ensures enters { IfOk result (λ entered. (found : Option FoundEntry) × Enters request.now found entered tree.old tree.new
        × (IsTrue H.tells → IsEntryFor (H.state host.old).files (key_of request.now) (entries_of (hash tree.old.bits (key_of request.now)) tree.old.entries) found)) }
    ensures same { OnErr result (tree.new ≡ tree.old) }
    ensures stands { IsTrue H.tells → IsSame (H.state host.old) (H.state host.new) }
    ensures damaged { IsTrue H.tells → (d : Damage) → IsErrOf result (fault.Damaged d) → IsDamagedEntry (H.state host.old).files (entries_of (hash tree.old.bits (key_of request.now)) tree.old.entries) d }
    ensures unspent { (s : Spent) → IsErrOf result (fault.Spent s) → ⊥ }
    ensures cause { HasStoreCause (H.state host.old) (H.state host.new) result }
{
    let found = match find_entry(log, tree, host, request.key()) {
        Ok(found) => found,
        Err(fault) => return Err(fault),
    };
    let row = row_by(tree.hash_bits(), request, found.as_ref());
    match put(tree, host, row) {
        Ok(fresh) => Ok(Entered {
            fresh,
            stale: stale_by(found.as_ref(), row),
        }),
        Err(fault) => Err(fault),
    }
}

/// Takes a stale entry out of the index, where there is one.
pub(crate) fn drop_entry<H: Host>(
    tree: &mut Tree,
    host: &mut H,
    stale: Option<(IndexKey, IndexValue)>,
) -> Result<(), StoreFault>
    ensures drops { OnOk result (Drops stale tree.old tree.new) }
    ensures same { OnErr result (tree.new ≡ tree.old) }
    ensures memory { IfErr result (λ given. given ≡ fault.Memory) }
    ensures untouched { host.new ≡ host.old }
{
    match stale {
        Some((at, _)) => match tree.remove(host, at) {
            Ok(_) => Ok(()),
            Err(fault) => Err(fault),
        },
        None => Ok(()),
    }
}

// The bytes of an entry are live, where there is one.
fn add_live(stats: &mut Stats, row: Option<(IndexKey, IndexValue)>)
    ensures rows { stats.new.rows ≡ with_live row stats.old.rows }
    ensures spare { stats.new.spare ≡ stats.old.spare }
{
    if let Some((at, value)) = row {
        stats.live(at.file, u64::from(value.length));
    }
}

// The bytes of an entry aren't live any more, where there is one.
fn take_live(stats: &mut Stats, row: Option<(IndexKey, IndexValue)>)
    ensures rows { stats.new.rows ≡ with_dead row stats.old.rows }
    ensures spare { stats.new.spare ≡ stats.old.spare }
{
    if let Some((at, value)) = row {
        stats.dead(at.file, u64::from(value.length));
    }
}

/// Brings the live bytes of the files up.
pub(crate) fn refigure(stats: &mut Stats, entered: Entered)
    ensures rows { stats.new.rows ≡ with_dead entered.stale (with_live entered.fresh stats.old.rows) }
    ensures spare { stats.new.spare ≡ stats.old.spare }
{
    add_live(stats, entered.fresh);
    take_live(stats, entered.stale);
}

/// Takes the seat of a request's key away, where its place is that to which the request puts it.
pub(crate) fn settle(table: &mut Table, request: &Request)
    ensures { Settles request.now table.old table.new }
{
    match request {
        Request::Set { key, to, .. } | Request::Swap { key, to, .. } => table.settle(key, *to),
        Request::Drop { .. } | Request::Less { .. } => {}
    }
}
