// Walking the visible keys.
ghost use Rattle.std.specs.Prelude.{◌≡◌, IsTrue, IfOk, IsErrOf, option_map, ℕ, List};
ghost use Rattle.cache_model.specs.declared.faults.StoreFault.TheVariants as fault;
ghost use Rattle.cache_model.specs.declared.faults.Spent.{Spent};
ghost use Rattle.cache_disk.specs.State.{Stands as IsSame};
ghost use Rattle.cache_disk.specs.Calls.{HasStoreCause};
ghost use Rattle.compactor.specs.Counting.{Kept, AreThere, counts_in};
ghost use Rattle.compactor.specs.Indexing.{AreIndexed, AreUsable};
ghost use Rattle.compactor.specs.Looking.{Looks};
ghost use Rattle.soft_index.specs.Walking.{ShowsNext};

use crate::reading::is_shown;
use cache_disk::Host;
use cache_model::{Key, StoreFault};
use compactor::Parts;

/// The first visible key behind another in walk order, or the first of all.
///
/// Records without a visible entry are passed over one by one. On a host whose walk never ends it gives up after 2^64 - 1
/// of them.
pub(crate) fn next_shown<H: Host>(
    parts: &mut Parts,
    host: &mut H,
    after: Option<&Key>,
    moment: u64,
) -> Result<Option<Key>, StoreFault>
    requires usable { AreUsable parts.old }
    ensures looks { Looks parts.old parts.new result }
    ensures stands { IsTrue H.tells → IsSame (H.state host.old) (H.state host.new) }
    ensures shows { IsTrue H.tells → (kept : Kept) → AreIndexed (counts_in kept) parts.old → AreThere (counts_in kept) (H.state host.old).files
        → ShowsNext (counts_in kept) parts.old.tree.bits moment (option_map (λ key. key.now) after.entry) result }
    ensures unspent { (s : Spent) → IsErrOf result (fault.Spent s) → ⊥ }
    ensures cause { HasStoreCause (H.state host.old) (H.state host.new) result }
{
    let mut last: Option<Key> = None;
    for _ in 0..u64::MAX {
        match parts.next_record(host, last.as_ref().or(after)) {
            Ok(Some((key, item))) => {
                if is_shown(&item, moment) {
                    return Ok(Some(key));
                }
                last = Some(key);
            }
            Ok(None) => return Ok(None),
            Err(fault) => return Err(fault),
        }
    }
    Err(StoreFault::Memory)
}
