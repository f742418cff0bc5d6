// Reading one record at its place.
ghost use Rattle.std.specs.Prelude.{◌≡◌, IsTrue, IsErrOf, IsSome};
ghost use Rattle.cache_model.specs.declared.faults.StoreFault.TheVariants as fault;
ghost use Rattle.cache_model.specs.declared.faults.Spent.{Spent};
ghost use Rattle.cache_model.specs.Files.{IsFileName, file_in};
ghost use Rattle.cache_model.specs.Items.{Item as Written};
ghost use Rattle.cache_disk.specs.Calls.{HasStoreCause};
ghost use Rattle.data_file.specs.Fetching.{Fetches};
ghost use Rattle.append_log.specs.Current.{IsUsable, data_name, files_of, number_of, store_of};
ghost use Rattle.append_log.specs.Standing.{Held, Stands, Wrote};
ghost use Rattle.append_log.specs.Fetching.{Gives, spoils_log, with_spoilt};

use crate::log_calls::Log;
use crate::log_files::data_name;
use cache_disk::Host;
use cache_model::{Place, StoreFault};
use data_file::read_record;
use record_format::OwnItem;

// Whether the log is spoilt by an answer.
fn spoils(answer: &Result<OwnItem, StoreFault>) -> bool
    ensures { result ≡ spoils_log answer.now }
{
    match answer {
        Ok(_) | Err(StoreFault::Memory) => false,
        Err(StoreFault::Failed | StoreFault::Spent(_) | StoreFault::Damaged(_)) => true,
    }
}

impl Log {
    /// The record at a place that this log gave. A place of another log's file is read too.
    ///
    /// `Damaged` comes where no record of the place's length stands there, and then the log is spoilt.
    pub fn fetch<H: Host>(&mut self, host: &mut H, place: Place) -> Result<OwnItem, StoreFault>
        requires usable { IsUsable (files_of self.old) }
        requires name { IsFileName (data_name (store_of (files_of self.old)) place.file) }
        ensures leaves { files_of self.new ≡ with_spoilt (files_of self.old) (spoils_log result) }
        ensures unspent { (s : Spent) → IsErrOf result (fault.Spent s) → ⊥ }
        ensures stands { IsTrue H.tells → (held : Held) → Stands (files_of self.old) (H.state host.old) held → Stands (files_of self.new) (H.state host.new) held }
        ensures told { IsTrue H.tells → Fetches (data_name (store_of (files_of self.old)) place.file) place (H.state host.old) (H.state host.new) result }
        ensures wrote { IsTrue H.tells → (held : Held) (item : Written) → Stands (files_of self.old) (H.state host.old) held → Wrote held (number_of (files_of self.old)) place item
            → IsSome (file_in (H.state host.old).files (data_name (store_of (files_of self.old)) place.file)) → Gives item result }
        ensures cause { HasStoreCause (H.state host.old) (H.state host.new) result }
    {
        let name = data_name(self.files.store, place.file);
        let result = read_record(self.alloc, host, name, place);
        self.files.spoilt = spoils(&result);
        result
    }
}
