// The index and the figures of a store, from its data files alone.
ghost use Rattle.std.specs.Prelude.{◌≡◌, ◌≤◌, [], IsTrue, IfOk, OnOk, IsErrOf};
ghost use Rattle.cache_model.specs.declared.faults.StoreFault.TheVariants as fault;
ghost use Rattle.cache_model.specs.declared.faults.Spent.{Spent};
ghost use Rattle.cache_model.specs.declared.faults.Damage.{Damage};
ghost use Rattle.cache_model.specs.Images.{IsSound};
ghost use Rattle.cache_disk.specs.Calls.{AllLeft, HasStoreCause};
ghost use Rattle.rebuild.specs.Listing.{IsFirstDamageOf, SameLogs};
ghost use Rattle.rebuild.specs.Rebuilt.{IsBounded, IsRead, IsRebuilt};

use crate::data_files::{number_behind, numbers_of};
use crate::scanning::settle_all;
use cache_disk::Host;
use cache_model::StoreFault;
use file_stats::Found;
use std::alloc::Global;
use tree_index::Tree;

/// Fills an empty index from the data files of a store, and finds their figures. Only the main store is there yet.
///
/// Each data file is synced and then read, by ascending numbers, and then the names of all files are synced. A damaged
/// file ends it, and the fault names the first damage. Memory is taken for the entries and the rows, and for no more
/// records than two; where a key has many records each further one reads the one that is held once more. After a fault
/// the index is of no use.
pub fn rebuild<H: Host>(
    alloc: Global,
    host: &mut H,
    store: u8,
    bits: u32,
    tree: &mut Tree,
) -> Result<Found, StoreFault>
    requires main { store ≡ 0 }
    requires bits { bits ≤ 32 }
    requires fits { tree.old.bits ≡ bits }
    requires empty { tree.old.entries ≡ [] }
    ensures rebuilt { IsTrue H.tells → IfOk result (IsRebuilt (H.state host.old).files bits tree.new.entries) }
    ensures bounded { IfOk result (IsBounded bits tree.new) }
    ensures undamaged { IsTrue H.tells → OnOk result (IsSound (H.state host.old).files) }
    ensures damaged { IsTrue H.tells → (damage : Damage) → IsErrOf result (fault.Damaged damage) → IsFirstDamageOf (H.state host.old).files damage }
    ensures settled { IsTrue H.tells → OnOk result (AllLeft (H.state host.new) (SameLogs (H.state host.old).files)) }
    ensures read { IsTrue H.tells → IsRead (H.state host.old) (H.state host.new) }
    ensures spent { (spent : Spent) → IsErrOf result (fault.Spent spent) → ⊥ }
    ensures cause { HasStoreCause (H.state host.old) (H.state host.new) result }
{
    let _ = store;
    let names = host.names()?;
    let numbers = numbers_of(alloc, &names)?;
    match settle_all(alloc, host, bits, &numbers, tree) {
        Ok(figures) => figures.found(alloc, number_behind(&numbers)),
        Err(fault) => Err(fault),
    }
}
