// Copying the newest record of a key.
ghost use Rattle.std.specs.Prelude.{◌≡◌, ◌<◌, List, length, true, IsTrue, OnErr, OnOk};
ghost use Rattle.cache_model.specs.Items.{Item};
ghost use Rattle.cache_model.specs.DataFiles.{Frame};
ghost use Rattle.cache_disk.specs.Calls.{HasStoreCause};
ghost use Rattle.data_file.specs.Appending.{IsRecordSpelling};
ghost use Rattle.store_trait.specs.Calls.{IsReady, Plainly};
ghost use Rattle.soft_index.specs.Copied.{IsCopied, IsNewestOf, MakesFile};
ghost use Rattle.soft_index.specs.Store.{Queues, log_facts, log_means};

use crate::log_store::LogStore;
use cache_disk::Host;
use cache_model::{Key, Place, StoreFault};

/// Copies the newest record of a key, with its number, to the end of the log, and notes its place there, for which the
/// queue has room. It isn't synced yet.
pub(crate) fn copy<H: Host>(
    store: &mut LogStore,
    host: &mut H,
    key: Key,
    from: Place,
    gone: bool,
    item: &[u8],
    moment: u64,
) -> Result<Place, StoreFault>
    requires ready { IsReady (log_facts store.old) moment }
    requires room { length store.old.parts.requests.waiting < store.old.parts.requests.limit }
    requires item { IsRecordSpelling item.now }
    requires stands { IsTrue H.tells → (log_means store.old (H.state host.old)).stands }
    ensures plain { Plainly (log_facts store.old) (log_facts store.new) moment result }
    ensures spoilt { OnErr result (store.new.parts.spoilt ≡ true) }
    ensures makes { MakesFile store.old store.new result }
    ensures queued { OnOk result (Queues store.old.parts.requests.limit (log_facts store.old).parts (log_facts store.new).parts) }
    ensures told { IsTrue H.tells → (frames : List Frame) (records : List Item) (one : Item) → IsNewestOf store.old (H.state host.old) frames records key from gone item.now one
        → IsCopied store.old store.new (H.state host.old) (H.state host.new) frames records moment one result }
    ensures cause { HasStoreCause (H.state host.old) (H.state host.new) result }
{
    store.latest = moment;
    store.parts.copy(host, key, from, gone, item, moment)
}
