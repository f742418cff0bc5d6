// Sealing and closing the current file, and writing to the one that a record belongs into.
ghost use Rattle.std.specs.Prelude.{◌≡◌, ◌<◌, ◌≤◌, ◌^◌, ◌+◌, ℕ, length, true, false, None, is_some, IsTrue, IfOk, OnOk, IsErrOf};
ghost use Rattle.cache_model.specs.declared.faults.StoreFault.TheVariants as fault;
ghost use Rattle.cache_model.specs.declared.faults.Spent.{Spent};
ghost use Rattle.cache_model.specs.declared.replies.Turned.{Turned};
ghost use Rattle.cache_model.specs.Items.{Item, IsRecord, spelling};
ghost use Rattle.cache_disk.specs.Calls.{HasStoreCause};
ghost use Rattle.data_file.specs.Appending.{IsRecordSpelling};
ghost use Rattle.append_log.specs.Current.{IsUsable, Fits, file_spent, is_over, next_file};
ghost use Rattle.append_log.specs.Standing.{Held, IsStanding, Stands, sealed_held, turned_held};
ghost use Rattle.append_log.specs.Calls.{Goes, IsPutBy, IsSealed, IsSpentBy, IsTurned, IsWrittenBy, PutsBy, Seals, TakesFile, TakesNone, TakesOne};

use crate::log_files::LogFiles;
use cache_disk::Host;
use cache_model::{Place, Spent, StoreFault, Turned};

impl LogFiles {
    // Seals what waits.
    pub(crate) fn seal<H: Host>(&mut self, host: &mut H, moment: u64) -> Result<(), StoreFault>
        requires usable { IsUsable self.old }
        requires moment { moment < 2 ^ 61 }
        requires stands { IsTrue H.tells → IsStanding self.old (H.state host.old) }
        ensures goes { Goes self.old self.new result }
        ensures takes { TakesNone self.old self.new }
        ensures file { self.new.file ≡ self.old.file }
        ensures there { is_some self.new.log ≡ is_some self.old.log }
        ensures unsealed { OnOk result (self.new.unsealed ≡ false) }
        ensures sealed { OnOk result (IsSealed moment self.old self.new) }
        ensures told { IsTrue H.tells → (held : Held) → Stands self.old (H.state host.old) held
            → Seals moment held (λ answer. sealed_held self.old.unsealed moment held) self.old self.new (H.state host.old) (H.state host.new) result }
        ensures unspent { (s : Spent) → IsErrOf result (fault.Spent s) → ⊥ }
        ensures cause { HasStoreCause (H.state host.old) (H.state host.new) result }
    {
        if !self.unsealed {
            return Ok(());
        }
        if let Err(fault) = self.seal_log(host, moment) {
            return Err(fault);
        }
        Ok(())
    }

    // Seals and closes the current file: the next one is made at the next record.
    pub(crate) fn rotate<H: Host>(
        &mut self,
        host: &mut H,
        moment: u64,
    ) -> Result<Turned, StoreFault>
        requires usable { IsUsable self.old }
        requires moment { moment < 2 ^ 61 }
        requires stands { IsTrue H.tells → IsStanding self.old (H.state host.old) }
        ensures goes { Goes self.old self.new result }
        ensures takes { TakesNone self.old self.new }
        ensures closed { OnOk result (self.new.log ≡ None) }
        ensures number { OnOk result (self.new.file ≡ next_file self.old.log self.old.file) }
        ensures turned { IfOk result (λ turned. IsTurned moment turned self.old self.new) }
        ensures told { IsTrue H.tells → (held : Held) → Stands self.old (H.state host.old) held
            → Seals moment held (λ turned. turned_held turned self.old.unsealed self.old.file moment held) self.old self.new (H.state host.old) (H.state host.new) result }
        ensures unspent { (s : Spent) → IsErrOf result (fault.Spent s) → ⊥ }
        ensures cause { HasStoreCause (H.state host.old) (H.state host.new) result }
    {
        if !self.log.is_some() {
            return Ok(Turned::Idle);
        }
        if let Err(fault) = self.seal(host, moment) {
            return Err(fault);
        }
        self.close();
        Ok(Turned::Done)
    }

    // The next file takes the place of the current one.
    pub(crate) fn close(&mut self)
        requires usable { IsUsable self.old }
        requires there { is_some self.old.log ≡ true }
        requires sealed { self.old.unsealed ≡ false }
        ensures rest { self.new ≡ record self.old { log = None; last = None; file = self.old.file + 1 } }
        ensures small { self.old.file ≤ 4294967294 }
    {
        let Some(_log) = &self.log else {
            unreachable!()
        };
        self.log = None;
        self.last = None;
        self.file += 1;
    }

    // Writes a record to the current file, or to the one that is made for it.
    fn write<H: Host>(&mut self, host: &mut H, spelled: &[u8]) -> Result<Place, StoreFault>
        requires usable { IsUsable self.old }
        requires fits { Fits self.old.log self.old.file (length spelled.now) }
        requires short { length spelled.now ≤ 66583 }
        requires spelled { IsRecordSpelling spelled.now }
        requires stands { IsTrue H.tells → IsStanding self.old (H.state host.old) }
        ensures goes { Goes self.old self.new result }
        ensures takes { TakesFile self.old self.new }
        ensures file { self.new.file ≡ self.old.file }
        ensures written { (moment : ℕ) → IfOk result (λ place. IsWrittenBy self.old.next false (length spelled.now) moment self.old self.new place) }
        ensures told { IsTrue H.tells → (held : Held) (one : Item) (moment : ℕ) → Stands self.old (H.state host.old) held → IsRecord one → spelled.now ≡ spelling one
            → PutsBy false one moment held self.old self.new (H.state host.old) (H.state host.new) result }
        ensures unspent { (s : Spent) → IsErrOf result (fault.Spent s) → ⊥ }
        ensures cause { HasStoreCause (H.state host.old) (H.state host.new) result }
    {
        match self.log_record(host, spelled) {
            Ok(place) => Ok(place),
            Err(fault) => Err(fault),
        }
    }

    // Closes the current file, and writes a record to the next one. Where that is refused the log is spoilt: what is
    // refused closes no file.
    fn write_behind<H: Host>(
        &mut self,
        host: &mut H,
        spelled: &[u8],
        moment: u64,
    ) -> Result<Place, StoreFault>
        requires usable { IsUsable self.old }
        requires there { is_some self.old.log ≡ true }
        requires number { next_file self.old.log self.old.file ≤ 4294967294 }
        requires short { length spelled.now ≤ 66583 }
        requires spelled { IsRecordSpelling spelled.now }
        requires moment { moment < 2 ^ 61 }
        requires stands { IsTrue H.tells → IsStanding self.old (H.state host.old) }
        ensures goes { Goes self.old self.new result }
        ensures takes { TakesFile self.old self.new }
        ensures written { IfOk result (λ place. IsWrittenBy self.old.next true (length spelled.now) moment self.old self.new place) }
        ensures told { IsTrue H.tells → (held : Held) (one : Item) → Stands self.old (H.state host.old) held → IsRecord one → spelled.now ≡ spelling one
            → PutsBy true one moment held self.old self.new (H.state host.old) (H.state host.new) result }
        ensures unspent { (s : Spent) → IsErrOf result (fault.Spent s) → ⊥ }
        ensures cause { HasStoreCause (H.state host.old) (H.state host.new) result }
    {
        if let Err(fault) = self.rotate(host, moment) {
            return Err(fault);
        }
        match self.write(host, spelled) {
            Ok(place) => Ok(place),
            Err(fault) => {
                self.spoilt = true;
                Err(fault)
            }
        }
    }

    // Writes a record, to the next file where the current one is closed before it.
    pub(crate) fn write_checked<H: Host>(
        &mut self,
        host: &mut H,
        spelled: &[u8],
        moment: u64,
    ) -> Result<Place, StoreFault>
        requires usable { IsUsable self.old }
        requires short { length spelled.now ≤ 66583 }
        requires spelled { IsRecordSpelling spelled.now }
        requires moment { moment < 2 ^ 61 }
        requires stands { IsTrue H.tells → IsStanding self.old (H.state host.old) }
        ensures goes { Goes self.old self.new result }
        ensures takes { TakesFile self.old self.new }
        ensures written { IfOk result (λ place. IsWrittenBy self.old.next (is_over self.old.log self.old.file_size (length spelled.now)) (length spelled.now) moment self.old self.new place) }
        ensures told { IsTrue H.tells → (held : Held) (one : Item) → Stands self.old (H.state host.old) held → IsRecord one → spelled.now ≡ spelling one
            → PutsBy (is_over self.old.log self.old.file_size (length spelled.now)) one moment held self.old self.new (H.state host.old) (H.state host.new) result }
        ensures spent { IsSpentBy (file_spent self.old (length spelled.now)) result }
        ensures cause { HasStoreCause (H.state host.old) (H.state host.new) result }
    {
        let over = self.is_over(spelled.len());
        if self.is_at_end(over) {
            self.spoilt = true;
            return Err(StoreFault::Spent(Spent::Files(u64::from(u32::MAX))));
        }
        if over {
            return self.write_behind(host, spelled, moment);
        }
        self.write(host, spelled)
    }

    // Writes a record that has the next number, which is taken then.
    pub(crate) fn put_checked<H: Host>(
        &mut self,
        host: &mut H,
        spelled: &[u8],
        moment: u64,
    ) -> Result<Place, StoreFault>
        requires usable { IsUsable self.old }
        requires next { self.old.next < 2 ^ 62 }
        requires short { length spelled.now ≤ 66583 }
        requires spelled { IsRecordSpelling spelled.now }
        requires moment { moment < 2 ^ 61 }
        requires stands { IsTrue H.tells → IsStanding self.old (H.state host.old) }
        ensures goes { Goes self.old self.new result }
        ensures takes { TakesOne self.old self.new }
        ensures put { IfOk result (λ place. IsPutBy (is_over self.old.log self.old.file_size (length spelled.now)) (length spelled.now) moment self.old self.new place) }
        ensures told { IsTrue H.tells → (held : Held) (one : Item) → Stands self.old (H.state host.old) held → IsRecord one → spelled.now ≡ spelling one
            → PutsBy (is_over self.old.log self.old.file_size (length spelled.now)) one moment held self.old self.new (H.state host.old) (H.state host.new) result }
        ensures spent { IsSpentBy (file_spent self.old (length spelled.now)) result }
        ensures cause { HasStoreCause (H.state host.old) (H.state host.new) result }
    {
        match self.write_checked(host, spelled, moment) {
            Ok(place) => {
                self.next += 1;
                Ok(place)
            }
            Err(fault) => Err(fault),
        }
    }
}
