// Writes one data file, frame by frame.
ghost use Rattle.std.specs.Prelude.{◌≡◌, ◌+◌, ◌-◌, ◌^◌, ◌<◌, ◌≤◌, List, [], ◌∷◌, ◌++◌, length, false, true, IsTrue, IsSome, None, IfOk, IfErr, OnOk, IsErrOf};
ghost use Rattle.cache_model.specs.declared.faults.StoreFault.TheVariants.{Failed, Memory};
ghost use Rattle.cache_model.specs.Files.{IsFileName, file_in, bytes_in};
ghost use Rattle.cache_model.specs.Items.{Item, IsRecord, spelling};
ghost use Rattle.cache_model.specs.DataFiles.{Frame, CountsFrames};
ghost use Rattle.cache_disk.specs.State.{SameBut, Silent, Moves, Stands};
ghost use Rattle.cache_disk.specs.Calls.{Wrote, DiskCause, HasStoreCause, OnFile, AllLeft};
ghost use Rattle.data_file.specs.Appending.{name_of, size_of, is_spoilt, due_bytes, ending, IsRecordSpelling, IsNewAppender, IsFresh, next_place, StandsFor, IsStanding, IsSettled, sealed, CountsOneOf, IsHostly};

use byteorder::{BigEndian, ByteOrder};
use cache_disk::{Host, HostFault};
use cache_model::{FileName, Place, StoreFault};

const CLOSED: u8 = 0;

const OPEN: u8 = 1;

const VERSION: u8 = 1;

const END: u8 = 0;

/// Writes one data file. What it writes counts only after `seal` opened the gate before it.
#[derive(Debug, Drop)]
pub struct Appender {
    name: FileName,
    size: u64,
    // where the last gate stands, which is closed
    gate: u64,
    // whether the version byte is in the file
    versioned: bool,
    spoilt: bool,
}

// What ends a frame, with the version byte before it.
fn ending(moment: u64) -> [u8; 11]
    ensures { result ≡ ending false moment }
{
    let mut bytes = [VERSION, END, 0, 0, 0, 0, 0, 0, 0, 0, CLOSED];
    BigEndian::write_u64(&mut bytes[2..10], moment);
    bytes
}

impl Appender {
    /// Makes the file, with its closed gate: what `create` of the host does, and then `begin`.
    pub fn make<H: Host>(host: &mut H, name: FileName) -> Result<Appender, StoreFault>
        requires name { IsFileName name }
        requires absent { IsTrue H.tells → AllLeft (H.state host.old) (λ image. file_in image name ≡ None) }
        ensures new { IfOk result (IsNewAppender name) }
        ensures stands { IsTrue H.tells → IfOk result (λ made. StandsFor made (H.state host.new) [] []) }
        ensures settled { IsTrue H.tells → OnOk result (IsSettled name (H.state host.new)) }
        ensures images { IsTrue H.tells → Moves (H.state host.old) (H.state host.new) (OnFile name (CountsFrames [])) }
        ensures faults { IfErr result IsHostly }
        ensures others { IsTrue H.tells → SameBut name (H.state host.old).files (H.state host.new).files }
        ensures silent { IsTrue H.tells → Silent (H.state host.old) (H.state host.new) }
        ensures cause { HasStoreCause (H.state host.old) (H.state host.new) result }
    {
        host.create(name)?;
        Appender::begin(host, name)
    }

    /// Writes the closed gate of a file that was created and is empty yet, and has it outlast a crash.
    pub fn begin<H: Host>(host: &mut H, name: FileName) -> Result<Appender, StoreFault>
        requires name { IsFileName name }
        requires fresh { IsTrue H.tells → IsFresh name (H.state host.old) }
        ensures new { IfOk result (IsNewAppender name) }
        ensures stands { IsTrue H.tells → IfOk result (λ made. StandsFor made (H.state host.new) [] []) }
        ensures settled { IsTrue H.tells → OnOk result (IsSettled name (H.state host.new)) }
        ensures images { IsTrue H.tells → Moves (H.state host.old) (H.state host.new) (OnFile name (CountsFrames [])) }
        ensures faults { IfErr result IsHostly }
        ensures others { IsTrue H.tells → SameBut name (H.state host.old).files (H.state host.new).files }
        ensures silent { IsTrue H.tells → Silent (H.state host.old) (H.state host.new) }
        ensures cause { HasStoreCause (H.state host.old) (H.state host.new) result }
    {
        host.write(name, 0, &[CLOSED])?;
        host.sync(name)?;
        host.sync_names()?;
        Ok(Appender {
            name,
            size: 1,
            gate: 0,
            versioned: false,
            spoilt: false,
        })
    }

    /// Writes one record past the end, and says where it stands. It doesn't count yet. After `Memory` where nothing was
    /// written the appender stands as before; after any other fault it is spoilt.
    pub fn append<H: Host>(&mut self, host: &mut H, item: &[u8]) -> Result<Place, StoreFault>
        requires sound { is_spoilt self.old ≡ false }
        requires name { IsFileName (name_of self.old) }
        requires item { IsRecordSpelling item.now }
        requires below { size_of self.old < 2 ^ 32 - 1 }
        requires stands { IsTrue H.tells → IsStanding self.old (H.state host.old) }
        ensures named { name_of self.new ≡ name_of self.old }
        ensures size { OnOk result (size_of self.new ≡ size_of self.old + due_bytes self.old + length item.now) }
        ensures begun { OnOk result (due_bytes self.new ≡ 0) }
        ensures file { IfOk result (λ place. place.file ≡ (name_of self.old).id) }
        ensures at { IfOk result (λ place. place.at ≡ size_of self.old + due_bytes self.old) }
        ensures length { IfOk result (λ place. place.length ≡ length item.now) }
        ensures sound { OnOk result (is_spoilt self.new ≡ false) }
        ensures failed { IsErrOf result StoreFault.Failed → is_spoilt self.new ≡ true }
        ensures memory { IsErrOf result StoreFault.Memory → is_spoilt self.new ≡ false → self.new ≡ self.old }
        ensures spoilt { IsTrue H.tells → IsErrOf result StoreFault.Memory → is_spoilt self.new ≡ true
            → (H.state host.old).turn < (H.state host.new).turn }
        ensures kept { IsTrue H.tells → IsErrOf result StoreFault.Memory → is_spoilt self.new ≡ false
            → Stands (H.state host.old) (H.state host.new) }
        ensures stands { IsTrue H.tells → (frames : List Frame) (records : List Item) (one : Item)
            → StandsFor self.old (H.state host.old) frames records → IsRecord one → item.now ≡ spelling one
            → OnOk result (StandsFor self.new (H.state host.new) frames (records ++ one ∷ [])) }
        ensures placed { IsTrue H.tells → (frames : List Frame) (records : List Item)
            → StandsFor self.old (H.state host.old) frames records
            → IfOk result (λ place. place.at ≡ next_place frames records) }
        ensures images { IsTrue H.tells → (frames : List Frame) (records : List Item)
            → StandsFor self.old (H.state host.old) frames records
            → Moves (H.state host.old) (H.state host.new) (OnFile (name_of self.old) (CountsFrames frames)) }
        ensures faults { IfErr result IsHostly }
        ensures others { IsTrue H.tells → SameBut (name_of self.old) (H.state host.old).files (H.state host.new).files }
        ensures silent { IsTrue H.tells → Silent (H.state host.old) (H.state host.new) }
        ensures cause { HasStoreCause (H.state host.old) (H.state host.new) result }
    {
        if self.versioned {
            self.write_behind(host, item)?;
            Ok(self.last(item.len()))
        } else {
            self.write_behind(host, &[VERSION])?;
            self.versioned = true;
            self.spoilt = true;
            self.write_behind(host, item)?;
            self.spoilt = false;
            Ok(self.last(item.len()))
        }
    }

    /// Ends the frame, and opens its gate once the frame and the next closed gate were synced. From Ok on it counts.
    /// After `Memory` where nothing was written the appender stands as before; after any other fault it is spoilt.
    pub fn seal<H: Host>(&mut self, host: &mut H, moment: u64) -> Result<(), StoreFault>
        requires sound { is_spoilt self.old ≡ false }
        requires name { IsFileName (name_of self.old) }
        requires moment { moment < 2 ^ 61 }
        requires below { size_of self.old < 2 ^ 32 }
        requires stands { IsTrue H.tells → IsStanding self.old (H.state host.old) }
        ensures named { name_of self.new ≡ name_of self.old }
        ensures size { OnOk result (size_of self.new ≡ size_of self.old + due_bytes self.old + 10) }
        ensures begun { OnOk result (due_bytes self.new ≡ 0) }
        ensures sound { OnOk result (is_spoilt self.new ≡ false) }
        ensures failed { IsErrOf result StoreFault.Failed → is_spoilt self.new ≡ true }
        ensures memory { IsErrOf result StoreFault.Memory → is_spoilt self.new ≡ false → self.new ≡ self.old }
        ensures spoilt { IsTrue H.tells → IsErrOf result StoreFault.Memory → is_spoilt self.new ≡ true
            → (H.state host.old).turn < (H.state host.new).turn }
        ensures kept { IsTrue H.tells → IsErrOf result StoreFault.Memory → is_spoilt self.new ≡ false
            → Stands (H.state host.old) (H.state host.new) }
        ensures stands { IsTrue H.tells → (frames : List Frame) (records : List Item)
            → StandsFor self.old (H.state host.old) frames records
            → OnOk result (StandsFor self.new (H.state host.new) (sealed frames records moment) []) }
        ensures settled { IsTrue H.tells → OnOk result (IsSettled (name_of self.old) (H.state host.new)) }
        ensures images { IsTrue H.tells → (frames : List Frame) (records : List Item)
            → StandsFor self.old (H.state host.old) frames records
            → Moves (H.state host.old) (H.state host.new)
            (OnFile (name_of self.old) (CountsOneOf frames (sealed frames records moment))) }
        ensures faults { IfErr result IsHostly }
        ensures others { IsTrue H.tells → SameBut (name_of self.old) (H.state host.old).files (H.state host.new).files }
        ensures silent { IsTrue H.tells → Silent (H.state host.old) (H.state host.new) }
        ensures cause { HasStoreCause (H.state host.old) (H.state host.new) result }
    {
        self.write_end(host, moment)?;
        self.spoilt = true;
        host.sync(self.name)?;
        host.write(self.name, self.gate, &[OPEN])?;
        host.sync(self.name)?;
        self.gate = self.size - 1;
        self.versioned = true;
        self.spoilt = false;
        Ok(())
    }

    // Writes the end of the frame and the next gate, which is closed.
    fn write_end<H: Host>(&mut self, host: &mut H, moment: u64) -> Result<(), HostFault>
        requires name { IsFileName self.old.name }
        requires room { self.old.size < 2 ^ 32 }
        requires there { IsTrue H.tells → IsSome (file_in (H.state host.old).files self.old.name) }
        requires inside { IsTrue H.tells → self.old.size ≤ length (bytes_in (H.state host.old).files self.old.name) }
        ensures grown { OnOk result (self.new ≡ record self.old { size = self.old.size + length (ending self.old.versioned moment) }) }
        ensures memory { IsErrOf result HostFault.Memory → self.new ≡ self.old }
        ensures failed { IsErrOf result HostFault.Failed → self.new ≡ record self.old { spoilt = true } }
        ensures told { IsTrue H.tells → Wrote self.old.name self.old.size (ending self.old.versioned moment)
            (H.state host.old) (H.state host.new) result }
        ensures cause { DiskCause (H.state host.old) (H.state host.new) result }
    {
        let bytes = ending(moment);
        if self.versioned {
            self.write_behind(host, &bytes[1..])
        } else {
            self.write_behind(host, &bytes)
        }
    }

    // The place of the last so many bytes.
    fn last(&self, length: usize) -> Place
        requires within { length ≤ self.now.size }
        requires at { self.now.size - length < 2 ^ 32 }
        requires length { length < 2 ^ 32 }
        ensures { result ≡ record { file = self.now.name.id; at = self.now.size - length; length = length } }
    {
        Place {
            file: self.name.id,
            at: (self.size - length as u64) as u32,
            length: length as u32,
        }
    }

    // Writes bytes past the end. After `Memory` nothing has changed.
    fn write_behind<H: Host>(&mut self, host: &mut H, bytes: &[u8]) -> Result<(), HostFault>
        requires name { IsFileName self.old.name }
        requires room { self.old.size + length bytes.now < 2 ^ 64 }
        requires there { IsTrue H.tells → IsSome (file_in (H.state host.old).files self.old.name) }
        requires inside { IsTrue H.tells → self.old.size ≤ length (bytes_in (H.state host.old).files self.old.name) }
        ensures grown { OnOk result (self.new ≡ record self.old { size = self.old.size + length bytes.now }) }
        ensures memory { IsErrOf result HostFault.Memory → self.new ≡ self.old }
        ensures failed { IsErrOf result HostFault.Failed → self.new ≡ record self.old { spoilt = true } }
        ensures told { IsTrue H.tells → Wrote self.old.name self.old.size bytes.now (H.state host.old) (H.state host.new) result }
        ensures cause { DiskCause (H.state host.old) (H.state host.new) result }
    {
        match host.write(self.name, self.size, bytes) {
            Ok(()) => {
                self.size += bytes.len() as u64;
                Ok(())
            }
            Err(HostFault::Failed) => {
                self.spoilt = true;
                Err(HostFault::Failed)
            }
            Err(HostFault::Memory) => Err(HostFault::Memory),
        }
    }

    pub fn is_spoilt(&self) -> bool
        ensures { result ≡ is_spoilt self.now }
    {
        self.spoilt
    }

    /// The bytes of the file.
    pub fn size(&self) -> u64
        ensures { result ≡ size_of self.now }
    {
        self.size
    }

    pub fn name(&self) -> FileName
        ensures { result ≡ name_of self.now }
    {
        self.name
    }
}
