// Writing to the current file, and making it.
ghost use Rattle.std.specs.Prelude.{◌≡◌, ◌<◌, ◌≤◌, ◌^◌, ◌+◌, ◌∷◌, ◌++◌, [], ℕ, List, length, max, true, false, is_some, IsTrue, IfOk, IfErr, OnOk, OnErr, IsErrOf, Some};
ghost use Rattle.cache_model.specs.declared.faults.StoreFault.TheVariants as fault;
ghost use Rattle.cache_model.specs.Items.{Item, IsRecord, spelling};
ghost use Rattle.cache_model.specs.DataFiles.{Frame, CountsFrames};
ghost use Rattle.cache_model.specs.Files.{IsFileName, file_in};
ghost use Rattle.cache_disk.specs.State.{SameBut, Silent, Moves, Stands};
ghost use Rattle.cache_disk.specs.Calls.{HasStoreCause, OnFile, AllLeft};
ghost use Rattle.data_file.specs.Appending.{IsRecordSpelling, CountsOneOf, IsFresh, IsHostly, next_place, sealed};
ghost use Rattle.append_log.specs.Current.{IsEnded, IsLogOf, IsFileOf, IsLogStanding, IsNewLog, EndFits, Fits, HasEndRoom, HasRoom, HasVersion, data_name, next_file, tail_of};
ghost use Rattle.append_log.specs.Calls.{ended_tail, stamped_tail};

use crate::log_files::{LogFiles, data_name};
use cache_disk::{Host, HostFault};
use cache_model::{FileName, Place, StoreFault};
use data_file::Appender;

impl LogFiles {
    // Begins the current file, which was created.
    fn begin_log<H: Host>(&mut self, host: &mut H, name: FileName) -> Result<(), StoreFault>
        requires sound { self.old.spoilt ≡ false }
        requires unsealed { self.old.unsealed ≡ false }
        requires name { IsFileName name }
        requires named { name ≡ data_name self.old.store self.old.file }
        requires fresh { IsTrue H.tells → IsFresh name (H.state host.old) }
        ensures rest { self.new ≡ record self.old { log = self.new.log; spoilt = self.new.spoilt } }
        ensures sound { OnOk result (self.new.spoilt ≡ false) }
        ensures spoilt { OnErr result (self.new.spoilt ≡ true) }
        ensures usable { OnOk result (IsLogOf self.new.store self.new.log self.new.file self.new.unsealed) }
        ensures made { OnOk result (next_file self.new.log self.new.file ≡ self.new.file + 1) }
        ensures new { OnOk result (IsNewLog self.new.log) }
        ensures room { (size : ℕ) → size ≤ 66583 → OnOk result (HasRoom self.new.log size) }
        ensures stands { IsTrue H.tells → OnOk result (IsLogStanding self.new.log (H.state host.new) [] []) }
        ensures images { IsTrue H.tells → Moves (H.state host.old) (H.state host.new) (OnFile name (CountsFrames [])) }
        ensures faults { IfErr result IsHostly }
        ensures others { IsTrue H.tells → SameBut name (H.state host.old).files (H.state host.new).files }
        ensures silent { IsTrue H.tells → Silent (H.state host.old) (H.state host.new) }
        ensures cause { HasStoreCause (H.state host.old) (H.state host.new) result }
    {
        self.spoilt = true;
        let log = Appender::begin(host, name)?;
        self.log = Some(log);
        self.spoilt = false;
        Ok(())
    }

    // Creates the current file and begins it, where it isn't made yet. Want of memory to create it leaves all as it was.
    fn make_log<H: Host>(&mut self, host: &mut H) -> Result<(), StoreFault>
        requires sound { self.old.spoilt ≡ false }
        requires usable { IsLogOf self.old.store self.old.log self.old.file self.old.unsealed }
        requires name { IsFileName (data_name self.old.store self.old.file) }
        requires stands { IsTrue H.tells → (frames : List Frame) × (records : List Item) × IsFileOf self.old.store self.old.log self.old.file (H.state host.old) frames records }
        ensures rest { self.new ≡ record self.old { log = self.new.log; spoilt = self.new.spoilt } }
        ensures sound { OnOk result (self.new.spoilt ≡ false) }
        ensures failed { OnErr result (self.new.spoilt ≡ false → self.new ≡ self.old) }
        ensures kept { IsTrue H.tells → OnErr result (self.new.spoilt ≡ false → Stands (H.state host.old) (H.state host.new)) }
        ensures memory { OnErr result (self.new.spoilt ≡ false → IsErrOf result fault.Memory) }
        ensures usable { OnOk result (IsLogOf self.new.store self.new.log self.new.file self.new.unsealed) }
        ensures made { OnOk result (next_file self.new.log self.new.file ≡ self.new.file + 1) }
        ensures new { OnOk result (is_some self.old.log ≡ false → IsNewLog self.new.log) }
        ensures room { (size : ℕ) → size ≤ 66583 → Fits self.old.log self.old.file size → OnOk result (HasRoom self.new.log size) }
        ensures stands { IsTrue H.tells → (frames : List Frame) (records : List Item)
            → IsFileOf self.old.store self.old.log self.old.file (H.state host.old) frames records
            → OnOk result (IsLogStanding self.new.log (H.state host.new) frames records) }
        ensures images { IsTrue H.tells → (frames : List Frame) (records : List Item)
            → IsFileOf self.old.store self.old.log self.old.file (H.state host.old) frames records
            → Moves (H.state host.old) (H.state host.new) (OnFile (data_name self.old.store self.old.file) (CountsFrames frames)) }
        ensures faults { IfErr result IsHostly }
        ensures others { IsTrue H.tells → SameBut (data_name self.old.store self.old.file) (H.state host.old).files (H.state host.new).files }
        ensures silent { IsTrue H.tells → Silent (H.state host.old) (H.state host.new) }
        ensures cause { HasStoreCause (H.state host.old) (H.state host.new) result }
    {
        if self.log.is_some() {
            return Ok(());
        }
        let name = data_name(self.store, self.file);
        match host.create(name) {
            Ok(()) => self.begin_log(host, name),
            Err(HostFault::Failed) => {
                self.spoilt = true;
                Err(StoreFault::Failed)
            }
            Err(HostFault::Memory) => Err(StoreFault::Memory),
        }
    }

    // Writes one record to the current file, which is made.
    fn write_record<H: Host>(&mut self, host: &mut H, spelled: &[u8]) -> Result<Place, StoreFault>
        requires sound { self.old.spoilt ≡ false }
        requires usable { IsLogOf self.old.store self.old.log self.old.file self.old.unsealed }
        requires room { HasRoom self.old.log (length spelled.now) }
        requires spelled { IsRecordSpelling spelled.now }
        requires stands { IsTrue H.tells → (frames : List Frame) × (records : List Item) × IsLogStanding self.old.log (H.state host.old) frames records }
        ensures rest { self.new ≡ record self.old { log = self.new.log; unsealed = self.new.unsealed; spoilt = self.new.spoilt } }
        ensures sound { OnOk result (self.new.spoilt ≡ false) }
        ensures tail { IfOk result (λ place. tail_of self.new ≡ Some (place.file, place.at + place.length, true)) }
        ensures length { IfOk result (λ place. place.length ≡ length spelled.now) }
        ensures at { IsTrue H.tells → (frames : List Frame) (records : List Item)
            → IsLogStanding self.old.log (H.state host.old) frames records
            → IfOk result (λ place. place.at ≡ next_place frames records) }
        ensures unsealed { OnOk result (self.new.unsealed ≡ true) }
        ensures usable { self.new.spoilt ≡ false → IsLogOf self.new.store self.new.log self.new.file self.new.unsealed }
        ensures begun { OnOk result (HasVersion self.new.log) }
        ensures made { next_file self.new.log self.new.file ≡ self.new.file + 1 }
        ensures failed { OnErr result (self.new.spoilt ≡ false → self.new ≡ self.old) }
        ensures kept { IsTrue H.tells → OnErr result (self.new.spoilt ≡ false → Stands (H.state host.old) (H.state host.new)) }
        ensures memory { OnErr result (self.new.spoilt ≡ false → IsErrOf result fault.Memory) }
        ensures stands { IsTrue H.tells → (frames : List Frame) (records : List Item) (one : Item)
            → IsLogStanding self.old.log (H.state host.old) frames records → IsRecord one → spelled.now ≡ spelling one
            → OnOk result (IsLogStanding self.new.log (H.state host.new) frames (records ++ one ∷ [])) }
        ensures images { IsTrue H.tells → (frames : List Frame) (records : List Item)
            → IsLogStanding self.old.log (H.state host.old) frames records
            → Moves (H.state host.old) (H.state host.new) (OnFile (data_name self.old.store self.old.file) (CountsFrames frames)) }
        ensures faults { IfErr result IsHostly }
        ensures others { IsTrue H.tells → SameBut (data_name self.old.store self.old.file) (H.state host.old).files (H.state host.new).files }
        ensures silent { IsTrue H.tells → Silent (H.state host.old) (H.state host.new) }
        ensures cause { HasStoreCause (H.state host.old) (H.state host.new) result }
    {
        let Some(log) = &mut self.log else {
            unreachable!()
        };
        match log.append(host, spelled) {
            Ok(place) => {
                self.unsealed = true;
                Ok(place)
            }
            Err(fault) => {
                self.spoilt = log.is_spoilt();
                Err(fault)
            }
        }
    }

    // Writes one record to the current file, which is made first where it isn't yet. Where memory is wanted once it was
    // made, the log is spoilt: what is refused makes no file.
    pub(crate) fn log_record<H: Host>(
        &mut self,
        host: &mut H,
        spelled: &[u8],
    ) -> Result<Place, StoreFault>
        requires sound { self.old.spoilt ≡ false }
        requires usable { IsLogOf self.old.store self.old.log self.old.file self.old.unsealed }
        requires some { 1 ≤ self.old.file }
        requires fits { Fits self.old.log self.old.file (length spelled.now) }
        requires ended { IsEnded self.old.log self.old.last self.old.mark }
        requires short { length spelled.now ≤ 66583 }
        requires spelled { IsRecordSpelling spelled.now }
        requires stands { IsTrue H.tells → (frames : List Frame) × (records : List Item) × IsFileOf self.old.store self.old.log self.old.file (H.state host.old) frames records }
        ensures rest { self.new ≡ record self.old { log = self.new.log; unsealed = self.new.unsealed; spoilt = self.new.spoilt } }
        ensures sound { OnOk result (self.new.spoilt ≡ false) }
        ensures tail { IfOk result (λ place. tail_of self.new ≡ Some (place.file, place.at + place.length, true)) }
        ensures length { IfOk result (λ place. place.length ≡ length spelled.now) }
        ensures at { IsTrue H.tells → (frames : List Frame) (records : List Item)
            → IsFileOf self.old.store self.old.log self.old.file (H.state host.old) frames records
            → IfOk result (λ place. place.at ≡ next_place frames records) }
        ensures unsealed { OnOk result (self.new.unsealed ≡ true) }
        ensures usable { self.new.spoilt ≡ false → IsLogOf self.new.store self.new.log self.new.file self.new.unsealed }
        ensures ended { OnOk result (IsEnded self.new.log self.new.last self.new.mark) }
        ensures made { next_file self.new.log self.new.file ≤ next_file self.old.log self.old.file + 1 }
        ensures later { next_file self.old.log self.old.file ≤ next_file self.new.log self.new.file }
        ensures current { OnOk result (next_file self.new.log self.new.file ≡ self.new.file + 1) }
        ensures failed { OnErr result (self.new.spoilt ≡ false → self.new ≡ self.old) }
        ensures kept { IsTrue H.tells → OnErr result (self.new.spoilt ≡ false → Stands (H.state host.old) (H.state host.new)) }
        ensures memory { OnErr result (self.new.spoilt ≡ false → IsErrOf result fault.Memory) }
        ensures stands { IsTrue H.tells → (frames : List Frame) (records : List Item) (one : Item)
            → IsFileOf self.old.store self.old.log self.old.file (H.state host.old) frames records → IsRecord one → spelled.now ≡ spelling one
            → OnOk result (IsLogStanding self.new.log (H.state host.new) frames (records ++ one ∷ [])) }
        ensures images { IsTrue H.tells → (frames : List Frame) (records : List Item)
            → IsFileOf self.old.store self.old.log self.old.file (H.state host.old) frames records
            → Moves (H.state host.old) (H.state host.new) (OnFile (data_name self.old.store self.old.file) (CountsFrames frames)) }
        ensures faults { IfErr result IsHostly }
        ensures others { IsTrue H.tells → SameBut (data_name self.old.store self.old.file) (H.state host.old).files (H.state host.new).files }
        ensures silent { IsTrue H.tells → Silent (H.state host.old) (H.state host.new) }
        ensures cause { HasStoreCause (H.state host.old) (H.state host.new) result }
    {
        if self.log.is_some() {
            return self.write_record(host, spelled);
        }
        if let Err(fault) = self.make_log(host) {
            return Err(fault);
        }
        match self.write_record(host, spelled) {
            Ok(place) => Ok(place),
            Err(fault) => {
                self.spoilt = true;
                Err(fault)
            }
        }
    }

    // Ends the frame in the making, or an empty one where nothing waits, in the current file, which is made.
    pub(crate) fn seal_log<H: Host>(&mut self, host: &mut H, moment: u64) -> Result<(), StoreFault>
        requires sound { self.old.spoilt ≡ false }
        requires usable { IsLogOf self.old.store self.old.log self.old.file self.old.unsealed }
        requires room { HasEndRoom self.old.log }
        requires moment { moment < 2 ^ 61 }
        requires stands { IsTrue H.tells → (frames : List Frame) × (records : List Item) × IsFileOf self.old.store self.old.log self.old.file (H.state host.old) frames records }
        ensures rest { self.new ≡ record self.old { log = self.new.log; unsealed = self.new.unsealed; last = self.new.last; mark = self.new.mark; spoilt = self.new.spoilt } }
        ensures sound { OnOk result (self.new.spoilt ≡ false) }
        ensures unsealed { OnOk result (self.new.unsealed ≡ false) }
        ensures usable { self.new.spoilt ≡ false → IsLogOf self.new.store self.new.log self.new.file self.new.unsealed }
        ensures made { next_file self.new.log self.new.file ≡ next_file self.old.log self.old.file }
        ensures tail { OnOk result (tail_of self.new ≡ ended_tail self.old.log self.old.file) }
        ensures last { OnOk result (self.new.last ≡ Some moment) }
        ensures mark { OnOk result (self.new.mark ≡ max self.old.mark moment) }
        ensures ended { OnOk result (IsEnded self.new.log self.new.last self.new.mark) }
        ensures there { is_some self.new.log ≡ is_some self.old.log }
        ensures failed { OnErr result (self.new.spoilt ≡ false → self.new ≡ self.old) }
        ensures kept { IsTrue H.tells → OnErr result (self.new.spoilt ≡ false → Stands (H.state host.old) (H.state host.new)) }
        ensures memory { OnErr result (self.new.spoilt ≡ false → IsErrOf result fault.Memory) }
        ensures stands { IsTrue H.tells → (frames : List Frame) (records : List Item)
            → IsFileOf self.old.store self.old.log self.old.file (H.state host.old) frames records
            → OnOk result (IsLogStanding self.new.log (H.state host.new) (sealed frames records moment) []) }
        ensures settled { IsTrue H.tells → OnOk result (AllLeft (H.state host.new) (λ image. file_in image (data_name self.old.store self.old.file) ≡ file_in (H.state host.new).files (data_name self.old.store self.old.file))) }
        ensures images { IsTrue H.tells → (frames : List Frame) (records : List Item)
            → IsFileOf self.old.store self.old.log self.old.file (H.state host.old) frames records
            → Moves (H.state host.old) (H.state host.new)
            (OnFile (data_name self.old.store self.old.file) (CountsOneOf frames (sealed frames records moment))) }
        ensures faults { IfErr result IsHostly }
        ensures others { IsTrue H.tells → SameBut (data_name self.old.store self.old.file) (H.state host.old).files (H.state host.new).files }
        ensures silent { IsTrue H.tells → Silent (H.state host.old) (H.state host.new) }
        ensures cause { HasStoreCause (H.state host.old) (H.state host.new) result }
    {
        let Some(log) = &mut self.log else {
            unreachable!()
        };
        if let Err(fault) = log.seal(host, moment) {
            self.spoilt = log.is_spoilt();
            return Err(fault);
        }
        self.unsealed = false;
        self.last = Some(moment);
        self.mark = self.mark.max(moment);
        Ok(())
    }

    // Ends a frame in the current file, which is made first where it isn't yet. Where memory is wanted once it was made, the
    // log is spoilt: what is refused makes no file.
    pub(crate) fn end_log<H: Host>(&mut self, host: &mut H, moment: u64) -> Result<(), StoreFault>
        requires sound { self.old.spoilt ≡ false }
        requires usable { IsLogOf self.old.store self.old.log self.old.file self.old.unsealed }
        requires some { 1 ≤ self.old.file }
        requires fits { EndFits self.old.log self.old.file }
        requires ended { IsEnded self.old.log self.old.last self.old.mark }
        requires moment { moment < 2 ^ 61 }
        requires stands { IsTrue H.tells → (frames : List Frame) × (records : List Item) × IsFileOf self.old.store self.old.log self.old.file (H.state host.old) frames records }
        ensures rest { self.new ≡ record self.old { log = self.new.log; unsealed = self.new.unsealed; last = self.new.last; mark = self.new.mark; spoilt = self.new.spoilt } }
        ensures sound { OnOk result (self.new.spoilt ≡ false) }
        ensures unsealed { OnOk result (self.new.unsealed ≡ false) }
        ensures usable { self.new.spoilt ≡ false → IsLogOf self.new.store self.new.log self.new.file self.new.unsealed }
        ensures made { next_file self.new.log self.new.file ≤ next_file self.old.log self.old.file + 1 }
        ensures later { next_file self.old.log self.old.file ≤ next_file self.new.log self.new.file }
        ensures current { OnOk result (next_file self.new.log self.new.file ≡ self.new.file + 1) }
        ensures there { OnOk result (is_some self.new.log ≡ true) }
        ensures tail { OnOk result (tail_of self.new ≡ stamped_tail false false self.old.file (tail_of self.old)) }
        ensures last { OnOk result (self.new.last ≡ Some moment) }
        ensures mark { OnOk result (self.new.mark ≡ max self.old.mark moment) }
        ensures ended { OnOk result (IsEnded self.new.log self.new.last self.new.mark) }
        ensures failed { OnErr result (self.new.spoilt ≡ false → self.new ≡ self.old) }
        ensures kept { IsTrue H.tells → OnErr result (self.new.spoilt ≡ false → Stands (H.state host.old) (H.state host.new)) }
        ensures memory { OnErr result (self.new.spoilt ≡ false → IsErrOf result fault.Memory) }
        ensures stands { IsTrue H.tells → (frames : List Frame) (records : List Item)
            → IsFileOf self.old.store self.old.log self.old.file (H.state host.old) frames records
            → OnOk result (IsLogStanding self.new.log (H.state host.new) (sealed frames records moment) []) }
        ensures settled { IsTrue H.tells → OnOk result (AllLeft (H.state host.new) (λ image. file_in image (data_name self.old.store self.old.file) ≡ file_in (H.state host.new).files (data_name self.old.store self.old.file))) }
        ensures images { IsTrue H.tells → (frames : List Frame) (records : List Item)
            → IsFileOf self.old.store self.old.log self.old.file (H.state host.old) frames records
            → Moves (H.state host.old) (H.state host.new)
            (OnFile (data_name self.old.store self.old.file) (CountsOneOf frames (sealed frames records moment))) }
        ensures faults { IfErr result IsHostly }
        ensures others { IsTrue H.tells → SameBut (data_name self.old.store self.old.file) (H.state host.old).files (H.state host.new).files }
        ensures silent { IsTrue H.tells → Silent (H.state host.old) (H.state host.new) }
        ensures cause { HasStoreCause (H.state host.old) (H.state host.new) result }
    {
        if self.log.is_some() {
            return self.seal_log(host, moment);
        }
        if let Err(fault) = self.make_log(host) {
            return Err(fault);
        }
        match self.seal_log(host, moment) {
            Ok(()) => Ok(()),
            Err(fault) => {
                self.spoilt = true;
                Err(fault)
            }
        }
    }
}
