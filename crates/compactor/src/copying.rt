// Copying the newest record of a key.
ghost use Rattle.std.specs.Prelude.{◌≡◌, ◌<◌, ◌^◌, length, true, IsTrue, IfOk, OnErr};
ghost use Rattle.cache_model.specs.Items.{Item, IsRecord, spelling};
ghost use Rattle.cache_disk.specs.Calls.{HasStoreCause};
ghost use Rattle.data_file.specs.Appending.{IsRecordSpelling};
ghost use Rattle.append_log.specs.Current.{closes_before, files_of, file_spent};
ghost use Rattle.append_log.specs.Calls.{Goes, IsSpentBy, PutsBy, TakesFile};
ghost use Rattle.append_log.specs.Standing.{Held, IsStanding, Stands};
ghost use Rattle.compactor.specs.Copying.{Copies};
ghost use Rattle.compactor.specs.Indexing.{AreUsable};

use crate::Parts;
use crate::sizing::count_written;
use cache_disk::Host;
use cache_model::{Key, Place, StoreFault};

impl Parts {
    // The same, but that after a fault the parts may not be spoilt.
    fn copy_seated<H: Host>(
        &mut self,
        host: &mut H,
        key: Key,
        from: Place,
        gone: bool,
        item: &[u8],
        moment: u64,
    ) -> Result<Place, StoreFault>
        requires usable { AreUsable self.old }
        requires room { length self.old.requests.waiting < self.old.requests.limit }
        requires item { IsRecordSpelling item.now }
        requires moment { moment < 2 ^ 61 }
        requires stands { IsTrue H.tells → IsStanding (files_of self.old.log) (H.state host.old) }
        ensures copied { IfOk result (Copies key from gone (length item.now) moment self.old self.new) }
        ensures bits { self.new.tree.bits ≡ self.old.tree.bits }
        ensures limit { self.new.requests.limit ≡ self.old.requests.limit }
        ensures goes { Goes (files_of self.old.log) (files_of self.new.log) result }
        ensures takes { TakesFile (files_of self.old.log) (files_of self.new.log) }
        ensures told { IsTrue H.tells → (held : Held) (one : Item) → Stands (files_of self.old.log) (H.state host.old) held → IsRecord one → item.now ≡ spelling one
            → PutsBy (closes_before (files_of self.old.log) (length item.now)) one moment held (files_of self.old.log) (files_of self.new.log) (H.state host.old) (H.state host.new) result }
        ensures spent { IsSpentBy (file_spent (files_of self.old.log) (length item.now)) result }
        ensures cause { HasStoreCause (H.state host.old) (H.state host.new) result }
    {
        let Ok(seated) = key.copy() else {
            return Err(StoreFault::Memory);
        };
        let Ok(()) = self.stats.reserve() else {
            return Err(StoreFault::Memory);
        };
        if let Err(fault) = self.seat(seated) {
            return Err(fault);
        }
        let before = self.log.tail();
        match self.log.copy_item(host, item, moment) {
            Ok(place) => {
                count_written(&mut self.stats, before, self.log.tail());
                self.swap(key, from, place, gone);
                Ok(place)
            }
            Err(fault) => Err(fault),
        }
    }

    /// Copies a record of a key, with its number, to the end of the current file, or to the next one where that one would
    /// get too large, and gives its place there. It is the key's newest one, and stands at `from`; the queue isn't full.
    /// After a fault the parts may be used no more.
    pub fn copy<H: Host>(
        &mut self,
        host: &mut H,
        key: Key,
        from: Place,
        gone: bool,
        item: &[u8],
        moment: u64,
    ) -> Result<Place, StoreFault>
        requires usable { AreUsable self.old }
        requires room { length self.old.requests.waiting < self.old.requests.limit }
        requires item { IsRecordSpelling item.now }
        requires moment { moment < 2 ^ 61 }
        requires stands { IsTrue H.tells → IsStanding (files_of self.old.log) (H.state host.old) }
        ensures copied { IfOk result (Copies key from gone (length item.now) moment self.old self.new) }
        ensures spoilt { OnErr result (self.new.spoilt ≡ true) }
        ensures bits { self.new.tree.bits ≡ self.old.tree.bits }
        ensures limit { self.new.requests.limit ≡ self.old.requests.limit }
        ensures goes { Goes (files_of self.old.log) (files_of self.new.log) result }
        ensures takes { TakesFile (files_of self.old.log) (files_of self.new.log) }
        ensures told { IsTrue H.tells → (held : Held) (one : Item) → Stands (files_of self.old.log) (H.state host.old) held → IsRecord one → item.now ≡ spelling one
            → PutsBy (closes_before (files_of self.old.log) (length item.now)) one moment held (files_of self.old.log) (files_of self.new.log) (H.state host.old) (H.state host.new) result }
        ensures spent { IsSpentBy (file_spent (files_of self.old.log) (length item.now)) result }
        ensures cause { HasStoreCause (H.state host.old) (H.state host.new) result }
    {
        match self.copy_seated(host, key, from, gone, item, moment) {
            Ok(place) => Ok(place),
            Err(fault) => {
                self.spoilt = true;
                Err(fault)
            }
        }
    }
}
