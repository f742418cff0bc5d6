// Taking a closed data file away.
ghost use Rattle.std.specs.Prelude.{◌≡◌, [], List, true, IfErr, IsSome, IsTrue, OnErr, OnOk};
ghost use Rattle.cache_model.specs.Files.{IsFileName, file_in};
ghost use Rattle.cache_model.specs.Items.{Item};
ghost use Rattle.cache_model.specs.DataFiles.{Frame};
ghost use Rattle.cache_model.specs.Images.{log_name};
ghost use Rattle.cache_disk.specs.Calls.{HasStoreCause};
ghost use Rattle.data_file.specs.Appending.{IsHostly};
ghost use Rattle.store_trait.specs.Calls.{DrawsNone, IsReady, Plainly};
ghost use Rattle.soft_index.specs.Store.{LogStands, log_facts, log_means};
ghost use Rattle.soft_index.specs.Taken.{IsTakenIn, MayBeTaken, TakesAway};

use crate::log_store::LogStore;
use cache_disk::Host;
use cache_model::{FileKind, FileName, StoreFault};

// The data file of the main store with this number.
fn log_name(number: u32) -> FileName
    ensures { result ≡ log_name number }
{
    FileName {
        kind: FileKind::Log,
        store: 0,
        id: number,
    }
}

// Deletes a file, and has that outlast a crash.
fn delete_file<H: Host>(host: &mut H, name: FileName) -> Result<(), StoreFault>
    requires name { IsFileName name }
    requires there { IsTrue H.tells → IsSome (file_in (H.state host.old).files name) }
    ensures told { IsTrue H.tells → TakesAway name (H.state host.old) (H.state host.new) result }
    ensures faults { IfErr result IsHostly }
    ensures cause { HasStoreCause (H.state host.old) (H.state host.new) result }
{
    host.delete(name)?;
    host.sync_names()?;
    Ok(())
}

/// Takes a closed data file away that is there, and its row of the statistics. Nothing waits for the index.
pub(crate) fn take_away<H: Host>(
    store: &mut LogStore,
    host: &mut H,
    file: u32,
    moment: u64,
) -> Result<(), StoreFault>
    requires ready { IsReady (log_facts store.old) moment }
    requires name { IsFileName (log_name file) }
    requires there { IsTrue H.tells → IsSome (file_in (H.state host.old).files (log_name file)) }
    requires empty { store.old.parts.requests.waiting ≡ [] }
    requires stands { IsTrue H.tells → (log_means store.old (H.state host.old)).stands }
    ensures plain { Plainly (log_facts store.old) (log_facts store.new) moment result }
    ensures spoilt { OnErr result (store.new.parts.spoilt ≡ true) }
    ensures draws { DrawsNone (log_facts store.old) (log_facts store.new) }
    ensures rows { OnOk result ((log_facts store.new).parts ≡ (log_facts store.old).parts) }
    ensures told { IsTrue H.tells → (frames : List Frame) (records : List Item) → LogStands store.old (H.state host.old) frames records
        → MayBeTaken store.old (H.state host.old).files frames records file
        → IsTakenIn store.old store.new (H.state host.old) (H.state host.new) frames records file moment result }
    ensures cause { HasStoreCause (H.state host.old) (H.state host.new) result }
{
    store.latest = moment;
    if let Err(fault) = delete_file(host, log_name(file)) {
        store.parts.spoilt = true;
        return Err(fault);
    }
    store.parts.stats.forget_file(file);
    Ok(())
}
