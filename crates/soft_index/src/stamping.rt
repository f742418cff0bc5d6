// Stamping the log.
ghost use Rattle.std.specs.Prelude.{◌≡◌, List, true, IsTrue, OnErr, OnOk};
ghost use Rattle.cache_model.specs.Items.{Item};
ghost use Rattle.cache_model.specs.DataFiles.{Frame};
ghost use Rattle.cache_disk.specs.Calls.{HasStoreCause};
ghost use Rattle.store_trait.specs.Calls.{IsReady, Plainly};
ghost use Rattle.soft_index.specs.Copied.{MakesFile};
ghost use Rattle.soft_index.specs.Stamped.{IsStampedIn, MarksFile};
ghost use Rattle.soft_index.specs.Store.{LogStands, log_facts, log_means};

use crate::log_store::LogStore;
use cache_disk::Host;
use cache_model::StoreFault;
use compactor::count_written;

/// Seals what waits, or an empty frame where nothing does, so that a counted frame of the log has this moment.
pub(crate) fn stamp<H: Host>(
    store: &mut LogStore,
    host: &mut H,
    moment: u64,
) -> Result<(), StoreFault>
    requires ready { IsReady (log_facts store.old) moment }
    requires stands { IsTrue H.tells → (log_means store.old (H.state host.old)).stands }
    ensures plain { Plainly (log_facts store.old) (log_facts store.new) moment result }
    ensures spoilt { OnErr result (store.new.parts.spoilt ≡ true) }
    ensures makes { MakesFile store.old store.new result }
    ensures rows { OnOk result (MarksFile (log_facts store.old).parts (log_facts store.new).parts) }
    ensures told { IsTrue H.tells → (frames : List Frame) (records : List Item) → LogStands store.old (H.state host.old) frames records
        → IsStampedIn store.old store.new (H.state host.old) (H.state host.new) frames records moment result }
    ensures cause { HasStoreCause (H.state host.old) (H.state host.new) result }
{
    store.latest = moment;
    let Ok(()) = store.parts.stats.reserve() else {
        store.parts.spoilt = true;
        return Err(StoreFault::Memory);
    };
    let before = store.parts.log.tail();
    if let Err(fault) = store.parts.log.stamp(host, moment) {
        store.parts.spoilt = true;
        return Err(fault);
    }
    count_written(&mut store.parts.stats, before, store.parts.log.tail());
    Ok(())
}
