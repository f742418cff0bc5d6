// The compaction of all files.
ghost use Rattle.std.specs.Prelude.{◌≡◌, None, Some, IfOk, IsErrOf, IsTrue, OnOk};
ghost use Rattle.cache_model.specs.declared.faults.StoreFault.TheVariants as fault;
ghost use Rattle.cache_disk.specs.Calls.{HasStoreCause};
ghost use Rattle.file_stats.specs.Figures.{numbers_of};
ghost use Rattle.store_trait.specs.Calls.{IsReady, Plainly};
ghost use Rattle.soft_index.specs.Running.{MayGoOn};
ghost use Rattle.soft_index.specs.Store.{log_facts};
ghost use Rattle.soft_index.specs.Sweeping.{AreToSweep, HasCompactedAll, HasSwept};
ghost use Rattle.soft_index.specs.Turns.{TakesNoNumber, run_facts, run_means};

use crate::compacting::{CompactingStore, compact_closed, end_run};
use crate::running::empty;
use crate::store::rotate;
use cache_disk::Host;
use cache_model::{FileCount, StoreFault};
use std::alloc::{AllocError, Global};

// The numbers of some files.
fn numbers(alloc: Global, rows: &[FileCount]) -> Result<Vec<u32>, AllocError>
    ensures { IfOk result (λ numbers. numbers.items ≡ numbers_of rows.now) }
{
    let mut numbers = Vec::new(alloc);
    for row in rows {
        numbers.push(row.number)?;
    }
    Ok(numbers)
}

// Compacts these files whole, one by one. After a fault the store may not be spoilt.
fn sweep<H: Host>(
    store: &mut CompactingStore,
    host: &mut H,
    files: Vec<u32>,
    moment: u64,
) -> Result<(), StoreFault>
    requires ready { IsReady (run_facts store.old) moment }
    requires none { store.old.run ≡ None }
    requires stands { IsTrue H.tells → (run_means store.old (H.state host.old)).stands }
    ensures plain { Plainly (log_facts store.old.log) (log_facts store.new.log) moment result }
    ensures goes { (store.new.threshold ≡ store.old.threshold) × MayGoOn store.new.run }
    ensures next { TakesNoNumber store.old.log store.new.log result }
    ensures ended { OnOk result (store.new.run ≡ None) }
    ensures told { IsTrue H.tells → AreToSweep files.items store.old.log (H.state host.old).files → HasSwept files.items store.old store.new (H.state host.old) (H.state host.new) moment result }
    ensures cause { HasStoreCause (H.state host.old) (H.state host.new) result }
{
    store.log.latest = moment;
    for file in files {
        if let Err(fault) = compact_closed(store, host, file, moment) {
            return Err(fault);
        }
    }
    Ok(())
}

/// Compacts all files: behind the compaction that is under way the current file is closed, and then each file that is there
/// is compacted whole. After a fault the store may not be spoilt.
pub(crate) fn compact_every<H: Host>(
    store: &mut CompactingStore,
    host: &mut H,
    moment: u64,
) -> Result<(), StoreFault>
    requires ready { IsReady (run_facts store.old) moment }
    requires stands { IsTrue H.tells → (run_means store.old (H.state host.old)).stands }
    ensures plain { Plainly (run_facts store.old) (run_facts store.new) moment result }
    ensures next { TakesNoNumber store.old.log store.new.log result }
    ensures told { IsTrue H.tells → HasCompactedAll store.old store.new (H.state host.old) (H.state host.new) moment result }
    ensures cause { HasStoreCause (H.state host.old) (H.state host.new) result }
{
    if let Err(fault) = end_run(store, host, moment) {
        return Err(fault);
    }
    if let Err(fault) = rotate(&mut store.log, host, moment) {
        return Err(fault);
    }
    if let Err(fault) = empty(&mut store.log, host, moment) {
        return Err(fault);
    }
    let Ok(files) = numbers(store.alloc, store.log.parts.stats.rows()) else {
        return Err(StoreFault::Memory);
    };
    sweep(store, host, files, moment)
}
