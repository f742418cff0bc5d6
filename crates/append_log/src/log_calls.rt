// A log, and its calls.
ghost use Rattle.std.specs.Prelude.{◌≡◌, ◌<◌, ◌≤◌, ◌^◌, length, IsTrue, IfOk, IfErr, OnOk, IsErrOf, false};
ghost use Rattle.cache_model.specs.declared.faults.StoreFault.TheVariants as fault;
ghost use Rattle.cache_model.specs.declared.faults.Spent.{Spent};
ghost use Rattle.cache_model.specs.declared.replies.Turned.{Turned};
ghost use Rattle.cache_disk.specs.Calls.{HasStoreCause};
ghost use Rattle.cache_model.specs.Items.{Item, IsRecord, spelling};
ghost use Rattle.record_format.specs.Changing.{HasUntil, item_by};
ghost use Rattle.data_file.specs.Appending.{IsRecordSpelling};
ghost use Rattle.append_log.specs.Current.{IsUsable, closes_before, current_by, file_spent, files_of, is_spoilt_log, is_unsealed, mark_of, most_file_size, next_file_of, next_seq_of, number_of, spent_by, stamp_spent, store_of, tail_of};
ghost use Rattle.append_log.specs.Standing.{Held, IsStanding, Stands, sealed_held, turned_held};
ghost use Rattle.append_log.specs.Calls.{Goes, IsCopied, IsNew, IsPut, IsSealed, IsSpentBy, IsStamped, IsTurned, Puts, PutsBy, Seals, Stamps, TakesFile, TakesNone, TakesOne};

use crate::log_files::LogFiles;
use cache_disk::Host;
use cache_model::{Change, Place, Spent, StoreFault, Turned};
use record_format::encode_change;
use std::alloc::Global;

// No record has more bytes.
const RECORD_LIMIT: usize = 66_583;

/// A log of changes over the data files of a store.
#[derive(Debug, Drop)]
pub struct Log {
    pub(crate) alloc: Global,
    // the spelling of the record in hand
    pub(crate) record: Vec<u8>,
    pub(crate) files: LogFiles,
}

impl Log {
    /// A log that makes no file yet. No file of the store may have the number of the next file or a greater one.
    ///
    /// It takes the memory of one record, which later changes are spelled into.
    pub fn start(
        alloc: Global,
        store: u8,
        next_file: u32,
        next_seq: u64,
        file_size: u64,
    ) -> Result<Log, StoreFault>
        requires number { 1 ≤ next_file }
        requires next { next_seq ≤ 2 ^ 62 }
        requires limit { file_size ≤ most_file_size }
        ensures new { IfOk result (λ log. IsNew store next_file next_seq file_size (files_of log)) }
        ensures memory { IfErr result (λ given. given ≡ fault.Memory) }
    {
        let Ok(record) = Vec::with_capacity(alloc, RECORD_LIMIT) else {
            return Err(StoreFault::Memory);
        };
        Ok(Log {
            alloc,
            record,
            files: LogFiles {
                store,
                next: next_seq,
                file: next_file,
                log: None,
                unsealed: false,
                last: None,
                mark: 0,
                file_size,
                spoilt: false,
            },
        })
    }

    /// Numbers a change and writes its record behind the last one, and says where it stands.
    ///
    /// Where the current file holds something, and its size, the record's length and 10 together exceed the size that a
    /// file gets, it is sealed and closed first, and the next file is made. The record counts in no image before a seal.
    /// Where a number is spent nothing is written.
    pub fn put_change<H: Host>(
        &mut self,
        host: &mut H,
        change: &Change,
        moment: u64,
    ) -> Result<Place, StoreFault>
        requires usable { IsUsable (files_of self.old) }
        requires change { HasUntil change.now }
        requires moment { moment < 2 ^ 61 }
        requires stands { IsTrue H.tells → IsStanding (files_of self.old) (H.state host.old) }
        ensures goes { Goes (files_of self.old) (files_of self.new) result }
        ensures takes { TakesOne (files_of self.old) (files_of self.new) }
        ensures put { IfOk result (λ place. IsPut change.now moment (files_of self.old) (files_of self.new) place) }
        ensures told { IsTrue H.tells → (held : Held) → Stands (files_of self.old) (H.state host.old) held
            → Puts change.now moment held (files_of self.old) (files_of self.new) (H.state host.old) (H.state host.new) result }
        ensures stands { IsTrue H.tells → is_spoilt_log (files_of self.new) ≡ false → IsStanding (files_of self.new) (H.state host.new) }
        ensures spent { IsSpentBy (spent_by (files_of self.old) change.now) result }
        ensures cause { HasStoreCause (H.state host.old) (H.state host.new) result }
    {
        if self.files.next == 1 << 62 {
            self.files.spoilt = true;
            return Err(StoreFault::Spent(Spent::Sequence(self.files.next)));
        }
        if let Err(fault) = self.spell(change) {
            return Err(fault);
        }
        self.files.put_checked(host, &self.record, moment)
    }

    // Spells the record of a change into the buffer.
    fn spell(&mut self, change: &Change) -> Result<(), StoreFault>
        requires next { self.old.files.next < 2 ^ 62 }
        requires change { HasUntil change.now }
        ensures files { self.new.files ≡ self.old.files }
        ensures spelled { OnOk result (self.new.record.items ≡ spelling (item_by self.old.files.next change.now)) }
        ensures record { IsRecord (item_by self.old.files.next change.now) }
        ensures short { length (spelling (item_by self.old.files.next change.now)) ≤ 66583 }
        ensures memory { IfErr result (λ given. given ≡ fault.Memory) }
    {
        self.record.clear();
        if encode_change(self.files.next, change, &mut self.record).is_err() {
            return Err(StoreFault::Memory);
        }
        Ok(())
    }

    /// Writes a record behind the last one, with the number that it has, and says where it stands. It closes the current
    /// file first as `put_change` does, and counts in no image before a seal either.
    pub fn copy_item<H: Host>(
        &mut self,
        host: &mut H,
        item: &[u8],
        moment: u64,
    ) -> Result<Place, StoreFault>
        requires usable { IsUsable (files_of self.old) }
        requires item { IsRecordSpelling item.now }
        requires moment { moment < 2 ^ 61 }
        requires stands { IsTrue H.tells → IsStanding (files_of self.old) (H.state host.old) }
        ensures goes { Goes (files_of self.old) (files_of self.new) result }
        ensures takes { TakesFile (files_of self.old) (files_of self.new) }
        ensures copied { IfOk result (λ place. IsCopied (length item.now) moment (files_of self.old) (files_of self.new) place) }
        ensures told { IsTrue H.tells → (held : Held) (one : Item) → Stands (files_of self.old) (H.state host.old) held → IsRecord one → item.now ≡ spelling one
            → PutsBy (closes_before (files_of self.old) (length item.now)) one moment held (files_of self.old) (files_of self.new) (H.state host.old) (H.state host.new) result }
        ensures stands { IsTrue H.tells → is_spoilt_log (files_of self.new) ≡ false → IsStanding (files_of self.new) (H.state host.new) }
        ensures spent { IsSpentBy (file_spent (files_of self.old) (length item.now)) result }
        ensures cause { HasStoreCause (H.state host.old) (H.state host.new) result }
    {
        self.files.write_checked(host, item, moment)
    }

    /// Seals what waits, with this moment. Where nothing waits it does nothing.
    pub fn seal<H: Host>(&mut self, host: &mut H, moment: u64) -> Result<(), StoreFault>
        requires usable { IsUsable (files_of self.old) }
        requires moment { moment < 2 ^ 61 }
        requires stands { IsTrue H.tells → IsStanding (files_of self.old) (H.state host.old) }
        ensures goes { Goes (files_of self.old) (files_of self.new) result }
        ensures takes { TakesNone (files_of self.old) (files_of self.new) }
        ensures sealed { OnOk result (IsSealed moment (files_of self.old) (files_of self.new)) }
        ensures told { IsTrue H.tells → (held : Held) → Stands (files_of self.old) (H.state host.old) held
            → Seals moment held (λ answer. sealed_held (is_unsealed (files_of self.old)) moment held) (files_of self.old) (files_of self.new) (H.state host.old) (H.state host.new) result }
        ensures stands { IsTrue H.tells → is_spoilt_log (files_of self.new) ≡ false → IsStanding (files_of self.new) (H.state host.new) }
        ensures unspent { (s : Spent) → IsErrOf result (fault.Spent s) → ⊥ }
        ensures cause { HasStoreCause (H.state host.old) (H.state host.new) result }
    {
        self.files.seal(host, moment)
    }

    /// Seals what waits, or an empty frame where nothing does, so that every image has a counted frame with this moment.
    /// Where the last frame of the current file has it already and nothing waits, it does nothing.
    ///
    /// Where an empty frame would carry the current file past the size that a file gets, the file is closed first, and the
    /// frame goes to the next one. Where a number is spent nothing is written.
    pub fn stamp<H: Host>(&mut self, host: &mut H, moment: u64) -> Result<(), StoreFault>
        requires usable { IsUsable (files_of self.old) }
        requires moment { moment < 2 ^ 61 }
        requires stands { IsTrue H.tells → IsStanding (files_of self.old) (H.state host.old) }
        ensures goes { Goes (files_of self.old) (files_of self.new) result }
        ensures takes { TakesFile (files_of self.old) (files_of self.new) }
        ensures stamped { OnOk result (IsStamped moment (files_of self.old) (files_of self.new)) }
        ensures told { IsTrue H.tells → (held : Held) → Stands (files_of self.old) (H.state host.old) held
            → Stamps moment held (files_of self.old) (files_of self.new) (H.state host.old) (H.state host.new) result }
        ensures stands { IsTrue H.tells → is_spoilt_log (files_of self.new) ≡ false → IsStanding (files_of self.new) (H.state host.new) }
        ensures spent { IsSpentBy (stamp_spent (files_of self.old) moment) result }
        ensures cause { HasStoreCause (H.state host.old) (H.state host.new) result }
    {
        self.files.stamp(host, moment)
    }

    /// Seals what waits, and closes the current file: the next record gets a new one. Idle where there is no current
    /// file.
    pub fn rotate<H: Host>(&mut self, host: &mut H, moment: u64) -> Result<Turned, StoreFault>
        requires usable { IsUsable (files_of self.old) }
        requires moment { moment < 2 ^ 61 }
        requires stands { IsTrue H.tells → IsStanding (files_of self.old) (H.state host.old) }
        ensures goes { Goes (files_of self.old) (files_of self.new) result }
        ensures takes { TakesNone (files_of self.old) (files_of self.new) }
        ensures turned { IfOk result (λ turned. IsTurned moment turned (files_of self.old) (files_of self.new)) }
        ensures told { IsTrue H.tells → (held : Held) → Stands (files_of self.old) (H.state host.old) held
            → Seals moment held (λ turned. turned_held turned (is_unsealed (files_of self.old)) (number_of (files_of self.old)) moment held) (files_of self.old) (files_of self.new) (H.state host.old) (H.state host.new) result }
        ensures stands { IsTrue H.tells → is_spoilt_log (files_of self.new) ≡ false → IsStanding (files_of self.new) (H.state host.new) }
        ensures unspent { (s : Spent) → IsErrOf result (fault.Spent s) → ⊥ }
        ensures cause { HasStoreCause (H.state host.old) (H.state host.new) result }
    {
        self.files.rotate(host, moment)
    }

    /// Whether it may be used no more.
    pub fn is_spoilt(&self) -> bool
        ensures { result ≡ is_spoilt_log (files_of self.now) }
    {
        self.files.spoilt
    }

    pub fn store(&self) -> u8
        ensures { result ≡ store_of (files_of self.now) }
    {
        self.files.store
    }

    /// The number of the current file.
    pub fn current(&self) -> Option<u32>
        ensures { result ≡ current_by (tail_of (files_of self.now)) }
    {
        match &self.files.log {
            None => None,
            Some(_) => Some(self.files.file),
        }
    }

    /// The number of the next file to be made.
    pub fn next_file(&self) -> u32
        requires { IsUsable (files_of self.now) }
        ensures { result ≡ next_file_of (files_of self.now) }
    {
        self.files.next_file()
    }

    /// The number of the next change.
    pub fn next_seq(&self) -> u64
        ensures { result ≡ next_seq_of (files_of self.now) }
    {
        self.files.next
    }

    /// The current file, its size, and whether something in it waits for a seal.
    pub fn tail(&self) -> Option<(u32, u64, bool)>
        ensures { result ≡ tail_of (files_of self.now) }
    {
        self.files.tail()
    }

    /// The greatest moment of a frame that this log sealed, or 0.
    pub fn mark(&self) -> u64
        ensures { result ≡ mark_of (files_of self.now) }
    {
        self.files.mark
    }
}
