// Stamping: a frame with a given moment, be it empty.
ghost use Rattle.std.specs.Prelude.{◌≡◌, ◌<◌, ◌≤◌, ◌^◌, true, false, is_some, IsTrue, OnOk, IsErrOf};
ghost use Rattle.cache_model.specs.declared.faults.StoreFault.TheVariants as fault;
ghost use Rattle.cache_model.specs.declared.faults.Spent.{Spent};
ghost use Rattle.cache_disk.specs.Calls.{HasStoreCause};
ghost use Rattle.append_log.specs.Current.{IsUsable, EndFits, is_full, is_stamped, next_file, stamp_spent};
ghost use Rattle.append_log.specs.Standing.{Held, IsStanding, Stands};
ghost use Rattle.append_log.specs.Calls.{Goes, IsSpentBy, IsStamped, IsStampedBy, Stamps, StampsBy, TakesFile};

use crate::log_files::LogFiles;
use cache_disk::Host;
use cache_model::{Spent, StoreFault};

impl LogFiles {
    // Whether nothing waits, and the last frame of the current file has this moment.
    fn is_stamped(&self, moment: u64) -> bool
        ensures { result ≡ is_stamped self.now moment }
    {
        match self.last {
            None => false,
            Some(last) => !self.unsealed && last == moment,
        }
    }

    // Whether an empty frame is too much for the current file, in which nothing waits.
    fn is_full(&self) -> bool
        requires usable { IsUsable self.now }
        ensures full { result ≡ is_full self.now.log self.now.unsealed self.now.file_size }
        ensures fits { result ≡ false → is_some self.now.log ≡ true → EndFits self.now.log self.now.file }
    {
        match &self.log {
            None => false,
            Some(log) => !self.unsealed && log.size() + 10 > self.file_size,
        }
    }

    // Ends a frame in the current file, or in the one that is made for it.
    fn stamp_here<H: Host>(&mut self, host: &mut H, moment: u64) -> Result<(), StoreFault>
        requires usable { IsUsable self.old }
        requires fits { EndFits self.old.log self.old.file }
        requires moment { moment < 2 ^ 61 }
        requires stands { IsTrue H.tells → IsStanding self.old (H.state host.old) }
        ensures goes { Goes self.old self.new result }
        ensures takes { TakesFile self.old self.new }
        ensures stamped { OnOk result (IsStampedBy false false moment self.old self.new) }
        ensures told { IsTrue H.tells → (held : Held) → Stands self.old (H.state host.old) held
            → StampsBy false false moment held self.old self.new (H.state host.old) (H.state host.new) result }
        ensures unspent { (s : Spent) → IsErrOf result (fault.Spent s) → ⊥ }
        ensures cause { HasStoreCause (H.state host.old) (H.state host.new) result }
    {
        if let Err(fault) = self.end_log(host, moment) {
            return Err(fault);
        }
        Ok(())
    }

    // Closes the current file, in which nothing waits, and ends an empty frame in the next one. Where that is refused the
    // log is spoilt: what is refused closes no file.
    fn stamp_behind<H: Host>(&mut self, host: &mut H, moment: u64) -> Result<(), StoreFault>
        requires usable { IsUsable self.old }
        requires there { is_some self.old.log ≡ true }
        requires sealed { self.old.unsealed ≡ false }
        requires number { next_file self.old.log self.old.file ≤ 4294967294 }
        requires moment { moment < 2 ^ 61 }
        requires stands { IsTrue H.tells → IsStanding self.old (H.state host.old) }
        ensures goes { Goes self.old self.new result }
        ensures takes { TakesFile self.old self.new }
        ensures stamped { OnOk result (IsStampedBy false true moment self.old self.new) }
        ensures told { IsTrue H.tells → (held : Held) → Stands self.old (H.state host.old) held
            → StampsBy false true moment held self.old self.new (H.state host.old) (H.state host.new) result }
        ensures unspent { (s : Spent) → IsErrOf result (fault.Spent s) → ⊥ }
        ensures cause { HasStoreCause (H.state host.old) (H.state host.new) result }
    {
        self.close();
        match self.stamp_here(host, moment) {
            Ok(()) => Ok(()),
            Err(fault) => {
                self.spoilt = true;
                Err(fault)
            }
        }
    }

    // Seals what waits, or an empty frame, which goes to the next file where it is too much for the current one. Where the
    // last frame has the moment already, nothing is done.
    pub(crate) fn stamp<H: Host>(&mut self, host: &mut H, moment: u64) -> Result<(), StoreFault>
        requires usable { IsUsable self.old }
        requires moment { moment < 2 ^ 61 }
        requires stands { IsTrue H.tells → IsStanding self.old (H.state host.old) }
        ensures goes { Goes self.old self.new result }
        ensures takes { TakesFile self.old self.new }
        ensures stamped { OnOk result (IsStamped moment self.old self.new) }
        ensures told { IsTrue H.tells → (held : Held) → Stands self.old (H.state host.old) held
            → Stamps moment held self.old self.new (H.state host.old) (H.state host.new) result }
        ensures spent { IsSpentBy (stamp_spent self.old moment) result }
        ensures cause { HasStoreCause (H.state host.old) (H.state host.new) result }
    {
        let idle = self.is_stamped(moment);
        if idle {
            return Ok(());
        }
        let full = self.is_full();
        if self.is_at_end(full) {
            self.spoilt = true;
            return Err(StoreFault::Spent(Spent::Files(u64::from(u32::MAX))));
        }
        if full {
            return self.stamp_behind(host, moment);
        }
        self.stamp_here(host, moment)
    }
}
