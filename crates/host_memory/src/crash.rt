// The files that a crash leaves, by choice: the turns are gone through again on a copy of the first files.
ghost use Rattle.std.specs.Prelude.{◌≡◌, ℕ, Bool, unwrap_or, List, length, IfOk, IfErr, OnOk, IsTrue, OnErr};
ghost use Rattle.std.specs.Map.{set_value};
ghost use Rattle.cache_model.specs.Files.{bytes_in, is_name};
ghost use Rattle.cache_disk.specs.Calls.{Torn};
ghost use Rattle.cache_disk.specs.declared.host.HostFault.TheVariants.{Memory};
ghost use Rattle.host_memory.specs.Crashes.{names_settle, names_settled_by, settles, settled_by, Crashes, AreWellNamed, is_well_named};
ghost use Rattle.host_memory.specs.Files.{are_named_apart};
ghost use Rattle.host_memory.specs.Turns.{MayBeLeft};

use crate::directory::{add, copies, is_same, place_of, remove, write_in};
use crate::{Call, DiskFile, Turn};
use cache_disk::HostFault;
use cache_model::FileName;
use std::alloc::Global;

// What is chosen for a file: whether it is there, where its name was made or deleted since the names were synced, and
// what it holds, where bytes were written since it was synced.
#[derive(Debug, Drop)]
pub(crate) struct Pick {
    pub(crate) file: DiskFile,
    pub(crate) there: bool,
}

// Whether the file is to be there.
fn is_there(picks: &[Pick], name: FileName) -> bool {
    for pick in picks {
        if pick.file.is_named(name) {
            return pick.there;
        }
    }
    false
}

// What the file is to hold.
fn target_of(picks: &[Pick], name: FileName) -> &[u8] {
    for pick in picks {
        if pick.file.is_named(name) {
            return pick.file.bytes();
        }
    }
    &[]
}

// Whether a call settles the names. None where that hangs on what comes later.
fn settles_names(call: &Call) -> Option<bool>
    ensures { (later : Bool) → names_settled_by call.now later ≡ unwrap_or result later }
{
    match call {
        Call::SyncNames(true) => Some(true),
        _ => None,
    }
}

// Whether a call settles a file. None where that hangs on what comes later.
fn settles_file(call: &Call, name: FileName) -> Option<bool>
    ensures { (later : Bool) → settled_by name call.now later ≡ unwrap_or result later }
{
    match call {
        Call::Sync(other, true) if is_same(*other, name) => Some(true),
        Call::Create(other) if is_same(*other, name) => Some(false),
        Call::Delete(other) if is_same(*other, name) => Some(false),
        _ => None,
    }
}

// Whether a sync of the names succeeds in these turns.
fn will_settle_names(turns: &[Turn]) -> bool
    ensures { result ≡ names_settle turns.now }
{
    for turn in turns {
        if let Some(settled) = settles_names(&turn.call) {
            return settled;
        }
    }
    false
}

// Whether a sync of the file succeeds in these turns, before it is made or deleted.
fn will_settle(turns: &[Turn], name: FileName) -> bool
    ensures { result ≡ settles name turns.now }
{
    for turn in turns {
        if let Some(settled) = settles_file(&turn.call, name) {
            return settled;
        }
    }
    false
}

// A write of so many bytes at an offset that a crash cuts short: as much of the target as there is in the range.
fn tear_in(
    files: &mut Vec<DiskFile>,
    name: FileName,
    at: u64,
    count: usize,
    target: &[u8],
) -> Result<(), HostFault>
    ensures torn { OnOk result ((w : List ℕ) × Torn at count (bytes_in files.old.items name) w × (files.new.items ≡ set_value (is_name name) files.old.items w)) }
    ensures memory { IfErr result (λ fault. fault ≡ Memory) }
{
    let Some(i) = place_of(files, name) else {
        return Ok(());
    };
    files[i].tear(at, count, target)
}

// What a call leaves of the image, where these turns come next.
fn crash(
    alloc: Global,
    image: &mut Vec<DiskFile>,
    call: &Call,
    turns: &[Turn],
    picks: &[Pick],
) -> Result<(), HostFault>
    ensures crashes { OnOk result (Crashes turns.now call.now image.old.items image.new.items) }
    ensures memory { IfErr result (λ fault. fault ≡ Memory) }
{
    match call {
        Call::Create(name) => {
            let there = will_settle_names(turns) || is_there(picks, *name);
            remove(image, *name);
            if there {
                return add(image, *name, Vec::new(alloc));
            }
        }
        Call::Write(name, at, bytes) => {
            if will_settle(turns, *name) {
                return write_in(image, *name, *at, bytes);
            }
            return tear_in(image, *name, *at, bytes.len(), target_of(picks, *name));
        }
        Call::Delete(name) => {
            if will_settle_names(turns) || will_settle(turns, *name) || !is_there(picks, *name) {
                remove(image, *name);
            }
        }
        _ => {}
    }
    Ok(())
}

// The files that a crash after these turns leaves, by these picks.
pub(crate) fn crashed(
    alloc: Global,
    files: &[DiskFile],
    turns: &[Turn],
    picks: &[Pick],
) -> Result<Vec<DiskFile>, HostFault>
    requires apart { IsTrue (are_named_apart files.now) }
    requires named { AreWellNamed turns.now }
    ensures left { IfOk result (λ image. MayBeLeft files.now turns.now image.items) }
    ensures apart { IfOk result (λ image. IsTrue (are_named_apart image.items)) }
    ensures memory { IfErr result (λ fault. fault ≡ Memory) }
{
    let mut image = copies(alloc, files)?;
    for i in 0..turns.len() {
        crash(alloc, &mut image, &turns[i].call, &turns[i + 1..], picks)?;
    }
    Ok(image)
}
