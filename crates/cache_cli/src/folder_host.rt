// One directory of the operating system, and the standard output.
ghost use Rattle.std.specs.Prelude.{◌≡◌, ◌↔◌, ◌≤◌, [], All, length, IsOk, IfOk, IfErr};
ghost use Rattle.std.specs.IoError.{error_kind};
ghost use Rattle.cache_model.specs.Files.{IsFileName};
ghost use Rattle.cache_disk.specs.Calls.{HasCause};

use crate::handles::{Handles, MOST_TRIES, again};
use cache_disk::{Host, HostFault};
use cache_model::FileName;
use cache_script::file_name_of;
use std::alloc::{AllocError, Global};
use std::fs::{File, Files};
use std::io::ErrorKind;
use std::os::unix::fs::FileExt;
use std::path::Path;
use std::{fs, io};

// The greatest offset that the platform takes.
const MOST_OFFSET: u64 = (1 << 63) - 1;

// What a failure means that left everything as it was.
fn fault_of(error: &io::Error) -> HostFault
    ensures { (result ≡ HostFault.Memory) ↔ (error_kind error.now ≡ ErrorKind.OutOfMemory) }
{
    match error.kind() {
        ErrorKind::OutOfMemory => HostFault::Memory,
        _ => HostFault::Failed,
    }
}

// What became of a call that may have changed something, whatever it answered.
fn done(outcome: io::Result<()>) -> Result<(), HostFault>
    ensures ok { IsOk result ↔ IsOk outcome }
    ensures failed { IfErr result (λ fault. fault ≡ HostFault.Failed) }
{
    outcome.map_err(|_| HostFault::Failed)
}

// The files of a directory. A name that has none of the texts is passed over; one that isn't UTF-8 is a failure.
fn listed<R: Files + AllocGlobal + Clone + Drop>(
    rt: &R,
    directory: &str,
) -> io::Result<Vec<FileName>>
    ensures { IfOk result (λ names. All IsFileName names.items) }
{
    let mut names = Vec::new(rt.alloc());
    for entry in fs::read_dir(rt, directory)? {
        let found = file_name_of(rt.alloc(), entry?.file_name())?;
        if let Some(name) = found {
            names.push(name)?;
        }
    }
    Ok(names)
}

// The same, and again where a signal came between, or too many files were open.
fn listed_again<R: Files + AllocGlobal + Clone + Drop>(
    rt: &R,
    handles: &mut Handles,
) -> io::Result<Vec<FileName>>
    ensures { IfOk result (λ names. All IsFileName names.items) }
{
    for _ in 1..MOST_TRIES {
        match listed(rt, handles.directory()) {
            Err(error) if handles.may_try_again(&error) => {}
            answer => return answer,
        }
    }
    listed(rt, handles.directory())
}

// A file that is made.
fn made<R: Files<File = File>>(rt: &R, handles: &mut Handles, path: Path<'_>) -> io::Result<File> {
    handles.with_room(&|| File::create_new(rt, path))
}

// Reads once, and again where a signal came between.
fn read_some(file: &File, at: u64, buf: &mut [u8]) -> Result<usize, HostFault>
    ensures { IfOk result (λ n. n ≤ length buf.old) }
{
    if at > MOST_OFFSET {
        return Ok(0);
    }
    for _ in 0..MOST_TRIES {
        match file.read_at(buf, at) {
            Ok(n) => return Ok(n),
            Err(error) if error.kind() == ErrorKind::Interrupted => {}
            Err(_) => break,
        }
    }
    Err(HostFault::Failed)
}

/// A directory of the operating system as a host, with the standard output.
///
/// The directory isn't made: where it isn't there, the first call that looks into it fails. Its files are opened at
/// their first use, and those that were used last are kept open. A call that a signal interrupts is made again, and so
/// is one that finds too many files open, once some are closed. What stands in the files isn't told to any contract:
/// other programs may write them.
#[derive(Drop)]
pub struct FolderHost<R> {
    rt: R,
    handles: Handles,
    disk_faults: u64,
    say_faults: u64,
}

impl<R: Drop> FolderHost<R> {
    /// The host of this directory. It looks at nothing yet.
    pub fn new(rt: R, alloc: Global, directory: String) -> Result<FolderHost<R>, AllocError> {
        Ok(FolderHost {
            rt,
            handles: Handles::new(alloc, directory)?,
            disk_faults: 0,
            say_faults: 0,
        })
    }

    // Counts a fault of the disk, where this is one.
    fn counted<T: Drop>(&mut self, outcome: Result<T, HostFault>) -> Result<T, HostFault>
        ensures same { result ≡ outcome }
        ensures cause { HasCause self.old.disk_faults self.new.disk_faults self.old.say_faults self.new.say_faults result }
    {
        if let Err(HostFault::Failed) = outcome {
            self.disk_faults = self.disk_faults.saturating_add(1);
        }
        outcome
    }
}

impl<R: Files<File = File> + AllocGlobal + Print + Clone + Drop> Host for FolderHost<R> {
    ghost use Rattle.std.specs.Prelude.{false, None};

    ghost tells = { false };

    // Only the counts of faults say anything.
    ghost state = { λ host. record {
      files = [];
      turn = 0;
      left = λ _ _. Unit {0};
      said = λ _. None;
      put_out = λ _. 0;
      asked = λ _. 0;
      disk_faults = host.disk_faults;
      say_faults = host.say_faults;
      short_reads = 0;
    } };

    ghost reads_now = { λ _ _. tt };

    fn names(&mut self) -> Result<Vec<FileName>, HostFault> {
        let outcome = match listed_again(&self.rt, &mut self.handles) {
            Ok(names) => Ok(names),
            Err(error) => Err(fault_of(&error)),
        };
        self.counted(outcome)
    }

    fn size(&mut self, name: FileName) -> Result<Option<u64>, HostFault> {
        let outcome = match self.handles.size(&self.rt, name) {
            Ok(size) => Ok(Some(size)),
            Err(error) if error.kind() == ErrorKind::NotFound => Ok(None),
            Err(error) => Err(fault_of(&error)),
        };
        self.counted(outcome)
    }

    fn read(&mut self, name: FileName, at: u64, buf: &mut [u8]) -> Result<usize, HostFault> {
        let outcome = match self.handles.file(&self.rt, name) {
            Ok(file) => read_some(file, at, buf),
            Err(error) if error.kind() == ErrorKind::NotFound => Ok(0),
            Err(error) => Err(fault_of(&error)),
        };
        self.counted(outcome)
    }

    fn create(&mut self, name: FileName) -> Result<(), HostFault> {
        let outcome = match self.handles.path_of(name) {
            Ok(path) => match made(&self.rt, &mut self.handles, path.as_path()) {
                Ok(file) => {
                    self.handles.keep(name, file);
                    Ok(())
                }
                Err(_) => Err(HostFault::Failed),
            },
            Err(_) => Err(HostFault::Memory),
        };
        self.counted(outcome)
    }

    fn write(&mut self, name: FileName, at: u64, bytes: &[u8]) -> Result<(), HostFault> {
        let outcome = match self.handles.file(&self.rt, name) {
            Ok(file) => done(file.write_all_at(bytes, at)),
            Err(error) => Err(fault_of(&error)),
        };
        self.counted(outcome)
    }

    fn sync(&mut self, name: FileName) -> Result<(), HostFault> {
        let outcome = match self.handles.file(&self.rt, name) {
            Ok(file) => done(file.sync_data()),
            Err(error) => Err(fault_of(&error)),
        };
        self.counted(outcome)
    }

    fn delete(&mut self, name: FileName) -> Result<(), HostFault> {
        let outcome = match self.handles.path_of(name) {
            Ok(path) => {
                self.handles.close(name);
                done(again(&|| fs::remove_file(&self.rt, path.as_path())))
            }
            Err(_) => Err(HostFault::Memory),
        };
        self.counted(outcome)
    }

    fn sync_names(&mut self) -> Result<(), HostFault> {
        let outcome = match self.handles.folder(&self.rt) {
            Ok(folder) => done(folder.sync_all()),
            Err(error) => Err(fault_of(&error)),
        };
        self.counted(outcome)
    }

    fn say(&mut self, bytes: &[u8]) -> Result<(), HostFault> {
        match self.rt.write_all(bytes) {
            Ok(()) => Ok(()),
            Err(_) => {
                self.say_faults = self.say_faults.saturating_add(1);
                Err(HostFault::Failed)
            }
        }
    }
}

#[cfg(test)]
mod tests;
