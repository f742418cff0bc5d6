// Opening a directory.
ghost use Rattle.std.specs.Prelude.{◌≡◌, IsTrue, IfOk, IfErr, IsErrOf, None, OnOk};
ghost use Rattle.cache_model.specs.declared.faults.StoreFault.TheVariants as fault;
ghost use Rattle.cache_model.specs.declared.faults.Spent.{Spent};
ghost use Rattle.cache_model.specs.declared.faults.Damage.{Damage};
ghost use Rattle.cache_model.specs.Files.{file_in};
ghost use Rattle.cache_model.specs.Images.{log_name};
ghost use Rattle.cache_disk.specs.State.{SameFiles, Silent, Moves};
ghost use Rattle.cache_disk.specs.Calls.{HasStoreCause};
ghost use Rattle.store_trait.specs.Keeping.{IsSettled};
ghost use Rattle.store_trait.specs.Calls.{IsReady};
ghost use Rattle.rebuild.specs.Rebuilt.{IsBounded};
ghost use Rattle.soft_index.specs.Opening.{IsMadeOf};
ghost use Rattle.soft_index.specs.Store.{AreInRange, IsFirstDamageOf, IsOpened, log_facts, log_means};

use crate::log_store::LogStore;
use append_log::Log;
use cache_disk::Host;
use cache_model::{Settings, StoreFault};
use compactor::Parts;
use file_stats::{Found, Stats};
use rebuild::rebuild;
use std::alloc::Global;
use temporary_table::{Requests, Table};
use tree_index::Tree;

// A store by what was found of its files, whose records the index has.
fn store_of(
    alloc: Global,
    found: Found,
    tree: Tree,
    settings: &Settings,
) -> Result<LogStore, StoreFault>
    requires settings { AreInRange settings.now }
    requires bounded { IsBounded settings.now.hash_bits tree found }
    ensures made { IfOk result (λ store. IsMadeOf found tree settings.now store) }
    ensures memory { IfErr result (λ given. given ≡ fault.Memory) }
{
    let Ok(requests) = Requests::new(alloc, settings.queue) else {
        return Err(StoreFault::Memory);
    };
    let Ok(stats) = Stats::of(alloc, found.files.rows()) else {
        return Err(StoreFault::Memory);
    };
    let log = Log::start(
        alloc,
        0,
        found.next_file,
        found.next_seq,
        settings.file_size,
    )?;
    Ok(LogStore {
        parts: Parts {
            log,
            tree,
            table: Table::ordered_by(alloc, settings.hash_bits),
            requests,
            stats,
            spoilt: false,
        },
        latest: found.mark,
        sync_writes: settings.sync_writes,
    })
}

impl LogStore {
    /// Opens the directory. Its mark is the store's `latest`.
    pub(crate) fn start<H: Host>(
        alloc: Global,
        host: &mut H,
        settings: &Settings,
    ) -> Result<LogStore, StoreFault>
        requires settings { AreInRange settings.now }
        ensures opened { IsTrue H.tells → IfOk result (λ store. IsOpened (H.state host.old).files (H.state host.new) settings.now store store.latest) }
        ensures stands { IsTrue H.tells → IfOk result (λ store. (log_means store (H.state host.new)).stands) }
        ensures settled { IsTrue H.tells → IfOk result (λ store. IsSettled (log_facts store) (log_means store (H.state host.new)) (H.state host.new).turn) }
        ensures zero { IsTrue H.tells → OnOk result (file_in (H.state host.new).files (log_name 0) ≡ None) }
        ensures damaged { IsTrue H.tells → (damage : Damage) → IsErrOf result (fault.Damaged damage) → IsFirstDamageOf (H.state host.old).files damage }
        ensures images { IsTrue H.tells → Moves (H.state host.old) (H.state host.new) SameFiles }
        ensures files { IsTrue H.tells → SameFiles (H.state host.old).files (H.state host.new).files }
        ensures silent { IsTrue H.tells → Silent (H.state host.old) (H.state host.new) }
        ensures ready { IfOk result (λ store. IsReady (log_facts store) store.latest) }
        ensures spent { (spent : Spent) → IsErrOf result (fault.Spent spent) → ⊥ }
        ensures cause { HasStoreCause (H.state host.old) (H.state host.new) result }
    {
        let mut tree = Tree::make(alloc, host, 0, settings.hash_bits, settings.nodes)?;
        match rebuild(alloc, host, 0, settings.hash_bits, &mut tree) {
            Ok(found) => store_of(alloc, found, tree, settings),
            Err(fault) => Err(fault),
        }
    }
}
