// Reading one record at its place.
ghost use Rattle.std.specs.Prelude.{◌≡◌, ◌≤◌, ◌<◌, ◌+◌, ◌-◌, ◌^◌, ℕ, List, None, IsTrue, IfOk, OnOk, IsErrOf, length, take, drop};
ghost use Rattle.cache_model.specs.declared.faults.StoreFault.TheVariants as fault;
ghost use Rattle.cache_model.specs.declared.faults.Spent.{Spent};
ghost use Rattle.cache_model.specs.declared.faults.Damage.{Damage};
ghost use Rattle.cache_model.specs.Files.{IsFileName, bytes_in};
ghost use Rattle.cache_model.specs.Items.{front, whole};
ghost use Rattle.cache_disk.specs.State.{Stands as IsSame};
ghost use Rattle.cache_disk.specs.Calls.{HasStoreCause, DiskCause, Read};
ghost use Rattle.record_format.specs.Meaning.{item_in, own_item};
ghost use Rattle.data_file.specs.Fetching.{AsksAtMost, Fetches, Lasts, is_record, wrong_with};

use cache_disk::{Host, HostFault};
use cache_model::{BadKind, Damage, FileName, Place, StoreFault};
use record_format::{Item, OwnItem, Step, decode, own};
use std::alloc::Global;

// The fault that names this damage.
fn damage(name: FileName, place: Place, kind: BadKind) -> StoreFault
    ensures { result ≡ fault.Damaged record { file = name; at = place.at; kind = kind } }
{
    StoreFault::Damaged(Damage {
        file: name,
        at: u64::from(place.at),
        kind,
    })
}

// Whether an item is a record.
fn is_record(item: &Item) -> bool
    ensures { (bytes : List ℕ) → result ≡ is_record (item_in bytes item.now) }
{
    !matches!(item, Item::End { .. })
}

// Reads into a part of a buffer, from its offset to its end.
fn read_part<H: Host>(
    host: &mut H,
    name: FileName,
    at: u64,
    buffer: &mut [u8],
    known: usize,
) -> Result<usize, HostFault>
    requires name { IsFileName name }
    requires room { known ≤ length buffer.old }
    requires small { at + known < 2 ^ 64 }
    ensures within { IfOk result (λ count. known + count ≤ length buffer.old) }
    ensures long { length buffer.new ≡ length buffer.old }
    ensures told { IsTrue H.tells → Read name (at + known) (drop known buffer.old) (drop known buffer.new) (H.state host.old) (H.state host.new) result }
    ensures front { take known buffer.new ≡ take known buffer.old }
    ensures cause { DiskCause (H.state host.old) (H.state host.new) result }
{
    host.read(name, at + known as u64, &mut buffer[known..])
}

// Fills a buffer with the bytes of a file from an offset on, and says how many there are. One that isn't full has all
// that the file has there.
fn fill<H: Host>(
    host: &mut H,
    name: FileName,
    at: u64,
    buffer: &mut [u8],
) -> Result<usize, HostFault>
    requires name { IsFileName name }
    requires at { at + length buffer.old < 2 ^ 64 }
    ensures within { IfOk result (λ known. known ≤ length buffer.old) }
    ensures long { length buffer.new ≡ length buffer.old }
    ensures stands { IsTrue H.tells → IsSame (H.state host.old) (H.state host.new) }
    ensures bytes { IsTrue H.tells → IfOk result (λ known. take known buffer.new ≡ take (length buffer.old) (drop at (bytes_in (H.state host.old).files name))) }
    ensures asked { IsTrue H.tells → OnOk result ((H.state host.old).asked (H.state host.old).turn + length buffer.old ≤ (H.state host.new).asked (H.state host.old).turn) }
    ensures most { IsTrue H.tells → AsksAtMost name at (length buffer.old) (H.state host.old) (H.state host.new) }
    ensures short_reads { IsTrue H.tells → Lasts (H.state host.old).short_reads (H.state host.new).short_reads }
    ensures cause { DiskCause (H.state host.old) (H.state host.new) result }
{
    let mut known = 0;
    while known < buffer.len() {
        let count = read_part(host, name, at, buffer, known)?;
        if count == 0 {
            return Ok(known);
        }
        known += count;
    }
    Ok(known)
}

// The record that these bytes are, which were read at a place.
fn record_in(
    alloc: Global,
    bytes: &[u8],
    name: FileName,
    place: Place,
) -> Result<OwnItem, StoreFault>
    ensures given { IfOk result (λ item. front bytes.now ≡ whole (own_item item) place.length) }
    ensures sound { OnOk result (wrong_with place.length (front bytes.now) ≡ None) }
    ensures damaged { (d : Damage) → IsErrOf result (fault.Damaged d) → (d.file ≡ name) × (d.at ≡ place.at) × (wrong_with place.length (front bytes.now) ≡ Some d.kind) }
    ensures failed { IsErrOf result fault.Failed → ⊥ }
    ensures unspent { (s : Spent) → IsErrOf result (fault.Spent s) → ⊥ }
{
    match decode(bytes, 0) {
        Step::Whole(item, size) => {
            if size != place.length as usize || !is_record(&item) {
                return Err(damage(name, place, BadKind::Place));
            }
            match own(alloc, bytes, item) {
                Ok(item) => Ok(item),
                Err(_) => Err(StoreFault::Memory),
            }
        }
        Step::Cut => Err(damage(name, place, BadKind::Cut)),
        Step::Bad(kind) => Err(damage(name, place, kind)),
    }
}

/// Reads the record at a place of a file. It asks for the bytes of the place and no others, but where a read gives fewer
/// bytes than it could.
///
/// `Damaged` comes where no record of the place's length stands there.
pub fn read_record<H: Host>(
    alloc: Global,
    host: &mut H,
    name: FileName,
    place: Place,
) -> Result<OwnItem, StoreFault>
    requires name { IsFileName name }
    ensures told { IsTrue H.tells → Fetches name place (H.state host.old) (H.state host.new) result }
    ensures unspent { (s : Spent) → IsErrOf result (fault.Spent s) → ⊥ }
    ensures cause { HasStoreCause (H.state host.old) (H.state host.new) result }
{
    let Ok(mut buffer) = Vec::from_elem(alloc, 0, place.length as usize) else {
        return Err(StoreFault::Memory);
    };
    let known = fill(host, name, u64::from(place.at), &mut buffer)?;
    record_in(alloc, &buffer[..known], name, place)
}
