// A disk and an output, with all that contracts say of them.
ghost use Rattle.std.specs.Prelude.{◌≤◌, ◌^◌, ◌<◌, ◌≡◌, List, ℕ, Bool, All, length, IfOk, IsTrue, IsSome, IsNone, None};
ghost use Rattle.cache_model.specs.Files.{IsFileName, file_in, bytes_in};
ghost use Rattle.cache_disk.specs.State.{HostState};
ghost use Rattle.cache_disk.specs.Faults.{store_fault};
ghost use Rattle.cache_disk.specs.Calls.{AllLeft, DiskCause, SayCause, Listed, Sized, Read, Created, Wrote, Synced, Deleted, SyncedNames, Said};

use cache_model::{FileName, StoreFault};

/// Why a call of a host didn't do its work.
#[derive(Clone, Copy, Debug, PartialEq, Eq)]
pub enum HostFault {
    /// The disk, or the output, failed.
    Failed,
    /// Memory was wanted. The call changed nothing.
    Memory,
}

impl From<HostFault> for StoreFault {
    ghost from_gives = { λ fault given. given ≡ store_fault fault };

    fn from(fault: HostFault) -> Self {
        match fault {
            HostFault::Failed => StoreFault::Failed,
            HostFault::Memory => StoreFault::Memory,
        }
    }
}

/// One directory of files, and an output.
///
/// What a host stands for is a `HostState`, which speaks of contents only where `tells` is true.
pub trait Host {
    /// Whether it tells its contents.
    ghost tells: { Bool };

    /// What it stands for.
    ghost state: { Self → HostState };

    /// The files of the directory, each once, in any order.
    fn names(&mut self) -> Result<Vec<FileName>, HostFault>
        ensures names { IfOk result (λ names. All IsFileName names.items) }
        ensures told { IsTrue tells → Listed (state self.old) (state self.new) result }
        ensures cause { DiskCause (state self.old) (state self.new) result };

    /// The size of a file in bytes, None where there is no such file.
    fn size(&mut self, name: FileName) -> Result<Option<u64>, HostFault>
        requires { IsFileName name }
        ensures told { IsTrue tells → Sized name (state self.old) (state self.new) result }
        ensures cause { DiskCause (state self.old) (state self.new) result };

    /// Puts the bytes of a file from an offset on into the front of the buffer, and says how many. They may be fewer
    /// than the buffer has room for, but are none only at the end of the file, or where there is no such file.
    fn read(&mut self, name: FileName, at: u64, buf: &mut [u8]) -> Result<usize, HostFault>
        requires { IsFileName name }
        ensures within { IfOk result (λ n. n ≤ length buf.old) }
        ensures told { IsTrue tells → Read name at buf.old buf.new (state self.old) (state self.new) result }
        ensures cause { DiskCause (state self.old) (state self.new) result };

    /// Makes an empty file. No such file is there, nor may a crash leave one.
    fn create(&mut self, name: FileName) -> Result<(), HostFault>
        requires name { IsFileName name }
        requires absent { IsTrue tells → AllLeft (state self.old) (λ image. file_in image name ≡ None) }
        ensures told { IsTrue tells → Created name (state self.old) (state self.new) result }
        ensures cause { DiskCause (state self.old) (state self.new) result };

    /// Writes all of the bytes at an offset, which isn't above the size. The file is there.
    fn write(&mut self, name: FileName, at: u64, bytes: &[u8]) -> Result<(), HostFault>
        requires name { IsFileName name }
        requires there { IsTrue tells → IsSome (file_in (state self.old).files name) }
        requires inside { IsTrue tells → at ≤ length (bytes_in (state self.old).files name) }
        ensures told { IsTrue tells → Wrote name at bytes.now (state self.old) (state self.new) result }
        ensures cause { DiskCause (state self.old) (state self.new) result };

    /// After Ok a crash leaves the file, where it leaves it, as it reads. The file is there.
    fn sync(&mut self, name: FileName) -> Result<(), HostFault>
        requires name { IsFileName name }
        requires there { IsTrue tells → IsSome (file_in (state self.old).files name) }
        ensures told { IsTrue tells → Synced name (state self.old) (state self.new) result }
        ensures cause { DiskCause (state self.old) (state self.new) result };

    /// Takes the file away, which is there.
    fn delete(&mut self, name: FileName) -> Result<(), HostFault>
        requires name { IsFileName name }
        requires there { IsTrue tells → IsSome (file_in (state self.old).files name) }
        ensures told { IsTrue tells → Deleted name (state self.old) (state self.new) result }
        ensures cause { DiskCause (state self.old) (state self.new) result };

    /// After Ok a crash leaves just the files that are there.
    fn sync_names(&mut self) -> Result<(), HostFault>
        ensures told { IsTrue tells → SyncedNames (state self.old) (state self.new) result }
        ensures cause { DiskCause (state self.old) (state self.new) result };

    /// Says the bytes at once. What is said stays said.
    fn say(&mut self, bytes: &[u8]) -> Result<(), HostFault>
        ensures told { IsTrue tells → Said bytes.now (state self.old) (state self.new) result }
        ensures cause { SayCause (state self.old) (state self.new) result };

    /// The disk as it reads is one of those that a crash may leave.
    ghost reads_now: { (host : Self) → IsTrue tells → (state host).left (state host).turn (state host).files };
}
