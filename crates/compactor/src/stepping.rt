// Applying requests to the index.
ghost use Rattle.std.specs.Prelude.{◌≡◌, false, IsTrue, OnOk, IsErrOf};
ghost use Rattle.cache_model.specs.declared.faults.StoreFault.TheVariants as fault;
ghost use Rattle.cache_model.specs.declared.faults.Spent.{Spent};
ghost use Rattle.cache_disk.specs.State.{Stands as IsSame};
ghost use Rattle.cache_disk.specs.Calls.{HasStoreCause};
ghost use Rattle.compactor.specs.Counting.{AreThere, Kept, counts_in};
ghost use Rattle.compactor.specs.Figuring.{AreFigured};
ghost use Rattle.compactor.specs.Indexing.{AreIndexed, AreUsable};
ghost use Rattle.compactor.specs.Raising.{Raises};
ghost use Rattle.compactor.specs.Stepping.{Empties, KeepsIndex, StepsIndex};

use crate::entering::{drop_entry, enter, refigure, settle};
use crate::parts::Parts;
use cache_disk::Host;
use cache_model::{StoreFault, Turned};

impl Parts {
    /// Applies the oldest request to the index. Idle where none waits.
    ///
    /// A key's count stands still at the greatest number, and a Less leaves 1 at the least. A Swap of a key whose entry isn't
    /// where it names it leaves it there. After a fault other than `Memory` the parts are spoilt, and they
    /// may be after `Memory`: where an entry was put and the one that it takes the place of couldn't be taken out.
    pub fn index_step<H: Host>(&mut self, host: &mut H) -> Result<Turned, StoreFault>
        requires usable { AreUsable self.old }
        ensures steps { StepsIndex self.old self.new result }
        ensures stands { IsTrue H.tells → IsSame (H.state host.old) (H.state host.new) }
        ensures keeps { IsTrue H.tells → (kept : Kept) → AreIndexed (counts_in kept) self.old → AreThere (counts_in kept) (H.state host.old).files → KeepsIndex (counts_in kept) self.new result }
        ensures raises { IsTrue H.tells → (kept : Kept) → AreIndexed (counts_in kept) self.old → AreThere (counts_in kept) (H.state host.old).files → OnOk result (Raises (counts_in kept) self.old self.new) }
        ensures figures { IsTrue H.tells → (kept : Kept) → AreIndexed (counts_in kept) self.old → AreThere (counts_in kept) (H.state host.old).files
            → AreFigured kept self.old → self.new.spoilt ≡ false → AreFigured kept self.new }
        ensures unspent { (s : Spent) → IsErrOf result (fault.Spent s) → ⊥ }
        ensures cause { HasStoreCause (H.state host.old) (H.state host.new) result }
    {
        let Some(request) = self.requests.first() else {
            return Ok(Turned::Idle);
        };
        let entered = match enter(&mut self.log, &mut self.tree, host, request) {
            Ok(entered) => entered,
            Err(fault) => {
                self.spoilt = self.log.is_spoilt();
                return Err(fault);
            }
        };
        if let Err(fault) = drop_entry(&mut self.tree, host, entered.stale) {
            self.spoilt = true;
            return Err(fault);
        }
        refigure(&mut self.stats, entered);
        settle(&mut self.table, request);
        self.requests.pop();
        Ok(Turned::Done)
    }

    /// Applies requests to the index until none waits.
    ///
    /// Where it ends with a fault, some of them may be applied.
    pub fn empty_queue<H: Host>(&mut self, host: &mut H) -> Result<(), StoreFault>
        requires usable { AreUsable self.old }
        ensures empties { Empties self.old self.new result }
        ensures stands { IsTrue H.tells → IsSame (H.state host.old) (H.state host.new) }
        ensures keeps { IsTrue H.tells → (kept : Kept) → AreIndexed (counts_in kept) self.old → AreThere (counts_in kept) (H.state host.old).files → KeepsIndex (counts_in kept) self.new result }
        ensures figures { IsTrue H.tells → (kept : Kept) → AreIndexed (counts_in kept) self.old → AreThere (counts_in kept) (H.state host.old).files
            → AreFigured kept self.old → self.new.spoilt ≡ false → AreFigured kept self.new }
        ensures unspent { (s : Spent) → IsErrOf result (fault.Spent s) → ⊥ }
        ensures cause { HasStoreCause (H.state host.old) (H.state host.new) result }
    {
        while !self.requests.is_empty() {
            if let Err(fault) = self.index_step(host) {
                return Err(fault);
            }
        }
        Ok(())
    }
}
