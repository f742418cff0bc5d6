// The bytes of a file from an offset on, as far as they were read.
ghost use Rattle.std.specs.Prelude.{◌≡◌, ◌≤◌, ◌<◌, ◌+◌, ◌-◌, ◌^◌, vec_len, length, drop, take, IfOk, OnOk, OnErr, IsTrue, false, []};
ghost use Rattle.cache_model.specs.declared.faults.StoreFault.TheVariants.{Memory};
ghost use Rattle.cache_model.specs.Files.{IsFileName, bytes_in};
ghost use Rattle.cache_disk.specs.State.{Stands};
ghost use Rattle.cache_disk.specs.Calls.{DiskCause, Read};

use cache_disk::{Host, HostFault};
use cache_model::{FileName, StoreFault};
use std::alloc::Global;

/// No item has more bytes.
pub const ITEM_LIMIT: usize = 66_583;

// How many bytes are read at once, where the file has so many.
const READ_SIZE: usize = 65_536;

// How many bytes a window has room for.
const ROOM: usize = ITEM_LIMIT + READ_SIZE;

/// A part of a file, which is read on and forgotten from its front.
#[derive(Debug, Drop)]
pub struct Window {
    pub name: FileName,
    /// How many bytes the file has.
    pub size: u64,
    /// The offset of the first byte of the window.
    pub at: u64,
    // what was read, of which so many bytes are forgotten
    bytes: Vec<u8>,
    forgotten: usize,
    // takes what is read
    buffer: Vec<u8>,
    ghost used: { forgotten ≤ vec_len bytes },
    ghost inside: { at + (vec_len bytes - forgotten) ≤ size },
    ghost fixed: { vec_len buffer ≡ 65536 },
}

// Room for so many bytes.
fn room(alloc: Global, count: usize) -> Result<Vec<u8>, StoreFault>
    ensures empty { IfOk result (λ bytes. bytes.items ≡ []) }
    ensures memory { OnErr result (result ≡ Err Memory) }
{
    match Vec::with_capacity(alloc, count) {
        Ok(bytes) => Ok(bytes),
        Err(_) => Err(StoreFault::Memory),
    }
}

// So many zeros.
fn zeros(alloc: Global, count: usize) -> Result<Vec<u8>, StoreFault>
    ensures long { IfOk result (λ bytes. vec_len bytes ≡ count) }
    ensures memory { OnErr result (result ≡ Err Memory) }
{
    match Vec::from_elem(alloc, 0, count) {
        Ok(bytes) => Ok(bytes),
        Err(_) => Err(StoreFault::Memory),
    }
}

// Reads into the front of a buffer, so many bytes at most.
fn read_into<H: Host>(
    host: &mut H,
    name: FileName,
    at: u64,
    buffer: &mut [u8],
    wanted: usize,
) -> Result<usize, HostFault>
    requires name { IsFileName name }
    requires room { wanted ≤ length buffer.old }
    ensures within { IfOk result (λ count. count ≤ wanted) }
    ensures told { IsTrue H.tells → Read name at (take wanted buffer.old) (take wanted buffer.new) (H.state host.old) (H.state host.new) result }
    ensures cause { DiskCause (H.state host.old) (H.state host.new) result }
{
    host.read(name, at, &mut buffer[..wanted])
}

impl Window {
    ghost use Rattle.data_file.specs.Windows.{shown_bytes, known_to, ShowsFile, IsFull, AsksFor};

    /// A window at the front of a file of this size, of which nothing was read yet.
    pub fn new(alloc: Global, name: FileName, size: u64) -> Result<Window, StoreFault>
        ensures named { IfOk result (λ window. window.name ≡ name) }
        ensures sized { IfOk result (λ window. window.size ≡ size) }
        ensures front { IfOk result (λ window. window.at ≡ 0) }
        ensures empty { IfOk result (λ window. length (shown_bytes window) ≡ 0) }
        ensures memory { OnErr result (result ≡ Err Memory) }
    {
        let bytes = room(alloc, ROOM)?;
        let buffer = zeros(alloc, READ_SIZE)?;
        Ok(Window {
            name,
            size,
            at: 0,
            bytes,
            forgotten: 0,
            buffer,
        })
    }

    /// Goes to the front of another file of this size, of which nothing was read yet. The room stays.
    pub fn reopen(&mut self, name: FileName, size: u64)
        ensures named { self.new.name ≡ name }
        ensures sized { self.new.size ≡ size }
        ensures front { self.new.at ≡ 0 }
        ensures empty { length (shown_bytes self.new) ≡ 0 }
    {
        self.name = name;
        self.size = size;
        self.at = 0;
        self.bytes.clear();
        self.forgotten = 0;
    }

    /// The bytes of the window.
    pub fn bytes(&self) -> &[u8]
        ensures { result.now ≡ shown_bytes self.now }
    {
        &self.bytes[self.forgotten..]
    }

    /// Forgets so many bytes in front.
    pub fn forget(&mut self, count: usize)
        requires { count ≤ length (shown_bytes self.old) }
        ensures at { self.new.at ≡ self.old.at + count }
        ensures rest { shown_bytes self.new ≡ drop count (shown_bytes self.old) }
        ensures named { self.new.name ≡ self.old.name }
        ensures sized { self.new.size ≡ self.old.size }
        ensures known { known_to self.new ≡ known_to self.old }
    {
        self.at += count as u64;
        self.forgotten += count;
    }

    /// Reads on until the window has the bytes of any item, or the file has no more.
    pub fn fill<H: Host>(&mut self, host: &mut H) -> Result<(), HostFault>
        requires name { IsFileName self.old.name }
        requires shows { IsTrue H.tells → ShowsFile self.old (bytes_in (H.state host.old).files self.old.name) }
        ensures named { self.new.name ≡ self.old.name }
        ensures sized { self.new.size ≡ self.old.size }
        ensures at { self.new.at ≡ self.old.at }
        ensures stands { IsTrue H.tells → Stands (H.state host.old) (H.state host.new) }
        ensures shows { IsTrue H.tells → OnOk result (ShowsFile self.new (bytes_in (H.state host.old).files self.old.name)) }
        ensures full { IsTrue H.tells → OnOk result (IsFull self.new) }
        ensures reads { known_to self.old ≤ known_to self.new }
        ensures asked { IsTrue H.tells → OnOk result (AsksFor (H.state host.old) (H.state host.new) (known_to self.new - known_to self.old)) }
        ensures cause { DiskCause (H.state host.old) (H.state host.new) result }
    {
        while self.bytes().len() < ITEM_LIMIT {
            if !self.read_on(host)? {
                break;
            }
        }
        Ok(())
    }

    // Reads some bytes more, or says that the file has no more.
    fn read_on<H: Host>(&mut self, host: &mut H) -> Result<bool, HostFault>
        requires name { IsFileName self.old.name }
        requires shows { IsTrue H.tells → ShowsFile self.old (bytes_in (H.state host.old).files self.old.name) }
        ensures named { self.new.name ≡ self.old.name }
        ensures sized { self.new.size ≡ self.old.size }
        ensures at { self.new.at ≡ self.old.at }
        ensures more { IfOk result (λ more. IsTrue more → known_to self.old < known_to self.new) }
        ensures stands { IsTrue H.tells → Stands (H.state host.old) (H.state host.new) }
        ensures shows { IsTrue H.tells → OnOk result (ShowsFile self.new (bytes_in (H.state host.old).files self.old.name)) }
        ensures reads { known_to self.old ≤ known_to self.new }
        ensures asked { IsTrue H.tells → OnOk result (AsksFor (H.state host.old) (H.state host.new) (known_to self.new - known_to self.old)) }
        ensures whole { IsTrue H.tells → IfOk result (λ more. more ≡ false → known_to self.new ≡ self.new.size) }
        ensures cause { DiskCause (H.state host.old) (H.state host.new) result }
    {
        let known = self.at + self.bytes().len() as u64;
        let left = self.size - known;
        if left == 0 {
            return Ok(false);
        }
        let wanted = left.min(READ_SIZE as u64) as usize;
        self.make_room(wanted);
        let count = read_into(host, self.name, known, &mut self.buffer, wanted)?;
        match self.bytes.extend_from_slice(&self.buffer[..count]) {
            Ok(()) => Ok(count > 0),
            Err(_) => Err(HostFault::Memory),
        }
    }

    // Makes room for so many bytes behind those of the window, which are moved only where there is none.
    fn make_room(&mut self, wanted: usize)
        requires { wanted ≤ 65536 }
        ensures same { shown_bytes self.new ≡ shown_bytes self.old }
        ensures named { self.new.name ≡ self.old.name }
        ensures sized { self.new.size ≡ self.old.size }
        ensures at { self.new.at ≡ self.old.at }
    {
        if self.bytes.len() > ROOM - wanted {
            self.pull();
        }
    }

    // Moves the bytes of the window to the front of their room.
    fn pull(&mut self)
        ensures pulled { self.new.forgotten ≡ 0 }
        ensures same { self.new.bytes.items ≡ shown_bytes self.old }
        ensures named { self.new.name ≡ self.old.name }
        ensures sized { self.new.size ≡ self.old.size }
        ensures at { self.new.at ≡ self.old.at }
    {
        let left = self.bytes.len() - self.forgotten;
        self.bytes.rotate_left(self.forgotten);
        self.bytes.truncate(left);
        self.forgotten = 0;
    }
}
