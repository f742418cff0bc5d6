// Writing a change.
ghost use Rattle.std.specs.Prelude.{◌≡◌, ◌+◌, ◌<◌, [], ℕ, List, length, false, if◌then◌else◌, IsTrue, IfErr, IfOk, OnOk, IsErrOf};
ghost use Rattle.cache_model.specs.declared.faults.StoreFault.TheVariants as fault;
ghost use Rattle.cache_model.specs.declared.faults.Spent.{Spent};
ghost use Rattle.cache_model.specs.Items.{Item};
ghost use Rattle.cache_model.specs.DataFiles.{Frame};
ghost use Rattle.cache_disk.specs.Calls.{HasStoreCause};
ghost use Rattle.store_trait.specs.Meaning.{changed, entry_of, key_of, IsChange};
ghost use Rattle.store_trait.specs.Keeping.{Keeps, SameContent};
ghost use Rattle.store_trait.specs.Calls.{Acts, IsReady, Plainly, DrawsOne};
ghost use Rattle.compactor.specs.Indexing.{is_removal};
ghost use Rattle.record_format.specs.Changing.{item_by};
ghost use Rattle.soft_index.specs.Growing.{Grows};
ghost use Rattle.soft_index.specs.Store.{IsPutIn, IsSpentBy, LogStands, Queues, closes, content_of, log_facts, log_means, number, spent_by};

use crate::log_store::LogStore;
use cache_disk::Host;
use cache_model::{Change, Key, StoreFault};
use compactor::count_written;

/// The key that a change changes.
pub(crate) fn key_of(change: &Change) -> &Key
    ensures { result.now ≡ key_of change.now }
{
    match change {
        Change::Put(key, _) | Change::Remove(key) => key,
    }
}

// Whether a change removes its key.
fn is_gone(change: &Change) -> bool
    ensures { (seq : ℕ) → result ≡ is_removal (item_by seq change.now) }
{
    match change {
        Change::Put(_, _) => false,
        Change::Remove(_) => true,
    }
}

/// Numbers a change, writes its record and notes its place, for which the queue has room. It isn't synced yet.
pub(crate) fn put<H: Host>(
    store: &mut LogStore,
    host: &mut H,
    change: &Change,
    moment: u64,
) -> Result<(), StoreFault>
    requires ready { IsReady (log_facts store.old) moment }
    requires room { length store.old.parts.requests.waiting < store.old.parts.requests.limit }
    requires stands { IsTrue H.tells → (log_means store.old (H.state host.old)).stands }
    requires change { IsChange change.now }
    ensures plain { Plainly (log_facts store.old) (log_facts store.new) moment result }
    ensures draws { DrawsOne (log_facts store.old) (log_facts store.new) result }
    ensures spent { IsSpentBy (spent_by store.old change.now) result }
    ensures number { OnOk result (number store.new ≡ (if closes store.old change.now then number store.old + 1 else number store.old)) }
    ensures queued { OnOk result (Queues store.old.parts.requests.limit (log_facts store.old).parts (log_facts store.new).parts) }
    ensures wrote { IsTrue H.tells → (frames : List Frame) (records : List Item) → LogStands store.old (H.state host.old) frames records
        → OnOk result (IsPutIn change.now moment frames records store.old store.new (H.state host.new)) }
    ensures told { IsTrue H.tells → Acts (log_facts store.old) (log_facts store.new)
        (log_means store.old (H.state host.old)) (log_means store.new (H.state host.new)) (H.state host.old) (H.state host.new) moment (changed change.now (content_of store.old (H.state host.old).files)) result }
    ensures content { IsTrue H.tells → OnOk result (SameContent (changed change.now (content_of store.old (H.state host.old).files)) (content_of store.new (H.state host.new).files)) }
    ensures unchanged { IsTrue H.tells → IsErrOf result fault.Memory → store.new.parts.spoilt ≡ false → SameContent (content_of store.old (H.state host.old).files) (content_of store.new (H.state host.new).files) }
    ensures kept { IsTrue H.tells → IsErrOf result fault.Memory → store.new.parts.spoilt ≡ false
        → Keeps (log_facts store.old) (H.state host.old).turn (H.state host.new).turn moment (log_means store.old (H.state host.old)) (log_means store.new (H.state host.new)) (content_of store.old (H.state host.old).files) }
    ensures cause { HasStoreCause (H.state host.old) (H.state host.new) result }
    ensures grows { IsTrue H.tells → store.new.parts.spoilt ≡ false → Grows store.old store.new (H.state host.old) (H.state host.new) }
{
    store.latest = moment;
    let Ok(key) = key_of(change).copy() else {
        return Err(StoreFault::Memory);
    };
    let Ok(seated) = key_of(change).copy() else {
        return Err(StoreFault::Memory);
    };
    let Ok(()) = store.parts.stats.reserve() else {
        return Err(StoreFault::Memory);
    };
    if let Err(fault) = store.parts.seat(seated) {
        return Err(fault);
    }
    let before = store.parts.log.tail();
    match store.parts.log.put_change(host, change, moment) {
        Ok(place) => {
            count_written(&mut store.parts.stats, before, store.parts.log.tail());
            store.parts.note(key, place, is_gone(change));
            Ok(())
        }
        Err(fault) => {
            store.parts.unseat(&key);
            store.parts.spoilt = store.parts.log.is_spoilt();
            Err(fault)
        }
    }
}
