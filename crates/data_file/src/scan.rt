// Reads a data file item by item.
ghost use Rattle.std.specs.Prelude.{◌≡◌, ◌+◌, ◌-◌, ◌<◌, ◌≤◌, ◌^◌, ◌↔◌, length, drop, slice_index, false, true, IsTrue, IfOk, IfSome, OnOk, OnErr, IsErrOf};
ghost use Rattle.cache_model.specs.declared.faults.Spent.{Spent};
ghost use Rattle.cache_model.specs.declared.faults.StoreFault.TheVariants.{Memory};
ghost use Rattle.cache_model.specs.Files.{IsFileName, bytes_in};
ghost use Rattle.cache_disk.specs.State.{Stands};
ghost use Rattle.cache_disk.specs.Calls.{HasStoreCause};
ghost use Rattle.record_format.specs.Meaning.{own_item, item_in, AreParts};
ghost use Rattle.cache_model.specs.Items.{IsItem, spelling};
ghost use Rattle.data_file.specs.Windows.{shown_bytes, AsksFor};
ghost use Rattle.data_file.specs.Scanning.{scanned_name, is_spoilt, left_of, read_to, rest_of, IsScanOf, stage_behind, HasGiven, HasGoneOn, HasFound, HasPassed, IsGiven, Begins};

use crate::window::Window;
use cache_disk::Host;
use cache_model::{BadKind, Damage, FileName, Place, StoreFault};
use record_format::{Item, OwnItem, Step, decode, own};
use std::alloc::Global;

const OPEN: u8 = 1;

const VERSION: u8 = 1;

/// An item that begins at this offset or above has no place.
const PLACE_LIMIT: u64 = 1 << 32;

/// What is due at the offset of a scan.
#[derive(Clone, Copy, Debug, PartialEq, Eq)]
enum Stage {
    /// The first gate of the file.
    Front,
    /// An item of a counted frame.
    Item,
    /// The gate behind a counted frame.
    Gate,
    /// Nothing more is counted.
    End,
}

/// An item of a file, with the place where it stands.
#[derive(Debug, Drop)]
pub struct Scanned {
    pub place: Place,
    pub item: OwnItem,
}

/// Gives the items of the counted frames of one file, one after another, or its first damage.
#[derive(Debug, Drop)]
pub struct Scan {
    alloc: Global,
    window: Window,
    stage: Stage,
    spoilt: bool,
}

// Whether the first gate of a file that begins with these bytes is open, and a byte stands behind it.
fn opens(bytes: &[u8]) -> bool
    ensures { IsTrue result ↔ ((2 ≤ length bytes.now) × (slice_index bytes.now 0 ≡ 1)) }
{
    bytes.len() >= 2 && bytes[0] == OPEN
}

// What is due at the front of a file with so many bytes.
fn stage_in_front(size: u64) -> Stage
    ensures short { size < 2 → result ≡ Stage.End }
    ensures long { 2 ≤ size → result ≡ Stage.Front }
{
    if size < 2 { Stage::End } else { Stage::Front }
}

// What is due behind an item.
fn stage_behind(item: &OwnItem) -> Stage
    ensures { result ≡ stage_behind (own_item item.now) }
{
    match item {
        OwnItem::End { .. } => Stage::Gate,
        _ => Stage::Item,
    }
}

impl Scan {
    /// A scan of a file with so many bytes, from its front on.
    pub fn new(alloc: Global, name: FileName, size: u64) -> Result<Scan, StoreFault>
        ensures named { IfOk result (λ scan. scanned_name scan ≡ name) }
        ensures sound { IfOk result (λ scan. is_spoilt scan ≡ false) }
        ensures begins { IfOk result (λ scan. Begins size scan) }
        ensures memory { OnErr result (result ≡ Err Memory) }
    {
        let window = Window::new(alloc, name, size)?;
        Ok(Scan {
            alloc,
            window,
            stage: stage_in_front(size),
            spoilt: false,
        })
    }

    /// Goes on with another file, as a new scan of it does. The memory that the scan has serves for all of its files.
    pub fn reopen(&mut self, name: FileName, size: u64)
        ensures named { scanned_name self.new ≡ name }
        ensures sound { is_spoilt self.new ≡ false }
        ensures begins { Begins size self.new }
    {
        self.window.reopen(name, size);
        self.stage = stage_in_front(size);
        self.spoilt = false;
    }

    /// The next item of the counted frames, None behind the last. After a fault the scan is spoilt.
    pub fn next<H: Host>(&mut self, host: &mut H) -> Result<Option<Scanned>, StoreFault>
        requires sound { is_spoilt self.old ≡ false }
        requires name { IsFileName (scanned_name self.old) }
        requires scans { IsTrue H.tells → IsScanOf self.old (bytes_in (H.state host.old).files (scanned_name self.old)) }
        ensures named { scanned_name self.new ≡ scanned_name self.old }
        ensures sound { OnOk result (is_spoilt self.new ≡ false) }
        ensures spoilt { OnErr result (is_spoilt self.new ≡ true) }
        ensures goes { IfOk result (λ found. IfSome found (λ _. left_of self.new < left_of self.old)) }
        ensures limits { IfOk result (λ found. IfSome found (IsGiven (scanned_name self.old))) }
        ensures told { IsTrue H.tells → HasGoneOn self.old self.new (H.state host.old) (H.state host.new) result }
        ensures spent { (spent : Spent) → IsErrOf result (StoreFault.Spent spent) → ⊥ }
        ensures cause { HasStoreCause (H.state host.old) (H.state host.new) result }
    {
        self.spoilt = true;
        let found = self.find(host)?;
        self.spoilt = false;
        Ok(found)
    }

    /// Whether it may be used no more.
    pub fn is_spoilt(&self) -> bool
        ensures { result ≡ is_spoilt self.now }
    {
        self.spoilt
    }

    // The next item.
    fn find<H: Host>(&mut self, host: &mut H) -> Result<Option<Scanned>, StoreFault>
        requires name { IsFileName (scanned_name self.old) }
        requires scans { IsTrue H.tells → IsScanOf self.old (bytes_in (H.state host.old).files (scanned_name self.old)) }
        ensures named { scanned_name self.new ≡ scanned_name self.old }
        ensures spoilt { is_spoilt self.new ≡ is_spoilt self.old }
        ensures goes { IfOk result (λ found. IfSome found (λ _. left_of self.new < left_of self.old)) }
        ensures limits { IfOk result (λ found. IfSome found (IsGiven (scanned_name self.old))) }
        ensures stands { IsTrue H.tells → Stands (H.state host.old) (H.state host.new) }
        ensures reads { read_to self.old ≤ read_to self.new }
        ensures asked { IsTrue H.tells → OnOk result (AsksFor (H.state host.old) (H.state host.new) (read_to self.new - read_to self.old)) }
        ensures told { IsTrue H.tells → HasGiven self.old self.new (bytes_in (H.state host.old).files (scanned_name self.old)) result }
        ensures spent { (spent : Spent) → IsErrOf result (StoreFault.Spent spent) → ⊥ }
        ensures cause { HasStoreCause (H.state host.old) (H.state host.new) result }
    {
        if self.pass(host)? {
            Ok(Some(self.item(host)?))
        } else {
            Ok(None)
        }
    }

    // Passes the gate that is due, if one is, and says whether an item is due behind it.
    fn pass<H: Host>(&mut self, host: &mut H) -> Result<bool, StoreFault>
        requires name { IsFileName self.old.window.name }
        requires scans { IsTrue H.tells → IsScanOf self.old (bytes_in (H.state host.old).files self.old.window.name) }
        ensures named { self.new.window.name ≡ self.old.window.name }
        ensures spoilt { self.new.spoilt ≡ self.old.spoilt }
        ensures left { left_of self.new ≤ left_of self.old }
        ensures stands { IsTrue H.tells → Stands (H.state host.old) (H.state host.new) }
        ensures reads { read_to self.old ≤ read_to self.new }
        ensures asked { IsTrue H.tells → OnOk result (AsksFor (H.state host.old) (H.state host.new) (read_to self.new - read_to self.old)) }
        ensures told { IsTrue H.tells → HasPassed self.old self.new (bytes_in (H.state host.old).files self.old.window.name) result }
        ensures spent { (spent : Spent) → IsErrOf result (StoreFault.Spent spent) → ⊥ }
        ensures cause { HasStoreCause (H.state host.old) (H.state host.new) result }
    {
        match self.stage {
            Stage::Front => self.pass_front(host),
            Stage::Item => Ok(true),
            Stage::Gate => self.pass_gate(host),
            Stage::End => Ok(false),
        }
    }

    // Passes the first gate and the version, where the gate is open.
    fn pass_front<H: Host>(&mut self, host: &mut H) -> Result<bool, StoreFault>
        requires name { IsFileName self.old.window.name }
        requires due { self.old.stage ≡ Stage.Front }
        requires scans { IsTrue H.tells → IsScanOf self.old (bytes_in (H.state host.old).files self.old.window.name) }
        ensures named { self.new.window.name ≡ self.old.window.name }
        ensures spoilt { self.new.spoilt ≡ self.old.spoilt }
        ensures left { left_of self.new ≤ left_of self.old }
        ensures stands { IsTrue H.tells → Stands (H.state host.old) (H.state host.new) }
        ensures reads { read_to self.old ≤ read_to self.new }
        ensures asked { IsTrue H.tells → OnOk result (AsksFor (H.state host.old) (H.state host.new) (read_to self.new - read_to self.old)) }
        ensures told { IsTrue H.tells → HasPassed self.old self.new (bytes_in (H.state host.old).files self.old.window.name) result }
        ensures spent { (spent : Spent) → IsErrOf result (StoreFault.Spent spent) → ⊥ }
        ensures cause { HasStoreCause (H.state host.old) (H.state host.new) result }
    {
        self.window.fill(host)?;
        let bytes = self.window.bytes();
        if !opens(bytes) {
            self.stage = Stage::End;
            return Ok(false);
        }
        let version = bytes[1];
        if version != VERSION {
            return Err(self.damage(1, BadKind::Version(version)));
        }
        self.window.forget(2);
        self.stage = Stage::Item;
        Ok(true)
    }

    // Passes the gate behind a frame, where it is open.
    fn pass_gate<H: Host>(&mut self, host: &mut H) -> Result<bool, StoreFault>
        requires name { IsFileName self.old.window.name }
        requires due { self.old.stage ≡ Stage.Gate }
        requires scans { IsTrue H.tells → IsScanOf self.old (bytes_in (H.state host.old).files self.old.window.name) }
        ensures named { self.new.window.name ≡ self.old.window.name }
        ensures spoilt { self.new.spoilt ≡ self.old.spoilt }
        ensures left { left_of self.new ≤ left_of self.old }
        ensures stands { IsTrue H.tells → Stands (H.state host.old) (H.state host.new) }
        ensures reads { read_to self.old ≤ read_to self.new }
        ensures asked { IsTrue H.tells → OnOk result (AsksFor (H.state host.old) (H.state host.new) (read_to self.new - read_to self.old)) }
        ensures told { IsTrue H.tells → HasPassed self.old self.new (bytes_in (H.state host.old).files self.old.window.name) result }
        ensures spent { (spent : Spent) → IsErrOf result (StoreFault.Spent spent) → ⊥ }
        ensures cause { HasStoreCause (H.state host.old) (H.state host.new) result }
    {
        self.window.fill(host)?;
        let bytes = self.window.bytes();
        if bytes.is_empty() {
            return Err(self.damage(self.window.at, BadKind::Cut));
        }
        if bytes[0] != OPEN {
            self.stage = Stage::End;
            return Ok(false);
        }
        self.window.forget(1);
        self.stage = Stage::Item;
        Ok(true)
    }

    // The item that is due.
    fn item<H: Host>(&mut self, host: &mut H) -> Result<Scanned, StoreFault>
        requires name { IsFileName self.old.window.name }
        requires due { IsTrue H.tells → self.old.stage ≡ Stage.Item }
        requires scans { IsTrue H.tells → IsScanOf self.old (bytes_in (H.state host.old).files self.old.window.name) }
        ensures named { self.new.window.name ≡ self.old.window.name }
        ensures spoilt { self.new.spoilt ≡ self.old.spoilt }
        ensures goes { OnOk result (left_of self.new < left_of self.old) }
        ensures limits { IfOk result (IsGiven self.old.window.name) }
        ensures stands { IsTrue H.tells → Stands (H.state host.old) (H.state host.new) }
        ensures reads { read_to self.old ≤ read_to self.new }
        ensures asked { IsTrue H.tells → OnOk result (AsksFor (H.state host.old) (H.state host.new) (read_to self.new - read_to self.old)) }
        ensures told { IsTrue H.tells → HasFound self.old self.new (bytes_in (H.state host.old).files self.old.window.name) result }
        ensures spent { (spent : Spent) → IsErrOf result (StoreFault.Spent spent) → ⊥ }
        ensures cause { HasStoreCause (H.state host.old) (H.state host.new) result }
    {
        if self.window.at >= PLACE_LIMIT {
            return Err(self.damage(self.window.at, BadKind::Place));
        }
        self.window.fill(host)?;
        match decode(self.window.bytes(), 0) {
            Step::Whole(item, size) => self.give(item, size),
            Step::Cut => Err(self.damage(self.window.at, BadKind::Cut)),
            Step::Bad(kind) => Err(self.damage(self.window.at, kind)),
        }
    }

    // The item at the front of the window, with so many bytes.
    fn give(&mut self, item: Item, size: usize) -> Result<Scanned, StoreFault>
        requires some { 1 ≤ size }
        requires within { size ≤ length (shown_bytes self.old.window) }
        requires parts { AreParts size item }
        requires limits { IsItem (item_in (shown_bytes self.old.window) item) }
        requires sized { size ≡ length (spelling (item_in (shown_bytes self.old.window) item)) }
        requires below { self.old.window.at < 2 ^ 32 }
        requires small { size < 2 ^ 32 }
        ensures named { self.new.window.name ≡ self.old.window.name }
        ensures spoilt { self.new.spoilt ≡ self.old.spoilt }
        ensures sized { self.new.window.size ≡ self.old.window.size }
        ensures at { OnOk result (self.new.window.at ≡ self.old.window.at + size) }
        ensures shown { OnOk result (shown_bytes self.new.window ≡ drop size (shown_bytes self.old.window)) }
        ensures reads { read_to self.new ≡ read_to self.old }
        ensures limits { IfOk result (IsGiven self.old.window.name) }
        ensures placed { IfOk result (λ one. one.place.at ≡ self.old.window.at) }
        ensures given { IfOk result (λ one. own_item one.item ≡ item_in (shown_bytes self.old.window) item) }
        ensures stage { IfOk result (λ one. self.new.stage ≡ stage_behind (own_item one.item)) }
        ensures memory { OnErr result (result ≡ Err Memory) }
    {
        let item = match own(self.alloc, self.window.bytes(), item) {
            Ok(item) => item,
            Err(_) => return Err(StoreFault::Memory),
        };
        let place = Place {
            file: self.window.name.id,
            at: self.window.at as u32,
            length: size as u32,
        };
        self.stage = stage_behind(&item);
        self.window.forget(size);
        Ok(Scanned { place, item })
    }

    // The fault that names this damage of the file.
    fn damage(&self, at: u64, kind: BadKind) -> StoreFault
        ensures { result ≡ StoreFault.Damaged record { file = self.now.window.name; at = at; kind = kind } }
    {
        StoreFault::Damaged(Damage {
            file: self.window.name,
            at,
            kind,
        })
    }
}

#[cfg(test)]
mod tests;
