// The files of a directory that are open.
use cache_model::{FileKind, FileName};
use cache_script::file_name_text;
use lru::LruCache;
use std::alloc::{AllocError, Global};
use std::fs::{File, Files, OpenOptions};
use std::io::ErrorKind;
use std::num::NonZeroUsize;
use std::path::{Path, PathBuf};
use std::{fs, io};

// How many files are kept open at most.
const MOST_OPEN: usize = 64;

/// How often a call is made at most that a signal interrupts each time.
pub const MOST_TRIES: u32 = 1_000;

// The platform's numbers for too many open files: of the process, and of the machine.
const TOO_MANY_HERE: i32 = 24;

const TOO_MANY_AT_ALL: i32 = 23;

// A file's name as a key: a number for its kind, its store and its id.
type HandleKey = (u8, u8, u32);

fn key_of(name: FileName) -> HandleKey {
    let kind = match name.kind {
        FileKind::Log => 0,
        FileKind::Base => 1,
        FileKind::Rules => 2,
        FileKind::Tree => 3,
    };
    (kind, name.store, name.id)
}

/// What a call of the platform answers. One that a signal interrupted is made again, but not without end. (Interrupted
/// opens, writes and syncs of a file std makes again by itself.)
pub fn again<T: Drop, F: Fn() -> io::Result<T>>(call: &F) -> io::Result<T>
    requires { F.IsAlwaysCallable call.now }
{
    for _ in 1..MOST_TRIES {
        match call() {
            Err(error) if error.kind() == ErrorKind::Interrupted => {}
            answer => return answer,
        }
    }
    call()
}

/// One directory, and those of its files that are open. Each is opened at its first use and kept open; where too many
/// are, the one that was used longest ago is closed.
#[derive(Drop)]
pub struct Handles {
    alloc: Global,
    directory: String,
    folder: Option<File>,
    open: LruCache<HandleKey, File>,
}

impl Handles {
    /// The files of this directory, none of them open.
    pub fn new(alloc: Global, directory: String) -> Result<Handles, AllocError> {
        let most = NonZeroUsize::new(MOST_OPEN).unwrap();
        Ok(Handles {
            alloc,
            directory,
            folder: None,
            open: LruCache::new(alloc, most)?,
        })
    }

    /// The directory as it was given.
    pub fn directory(&self) -> &str {
        self.directory.as_str()
    }

    /// The path of a file.
    pub fn path_of(&self, name: FileName) -> Result<PathBuf, AllocError> {
        let text = file_name_text(self.alloc, name)?;
        Path::new(self.directory.as_str()).join(self.alloc, text)
    }

    /// The directory itself, opened where it isn't open yet.
    pub fn folder<R: Files<File = File>>(&mut self, rt: &R) -> io::Result<&File> {
        let folder = match self.folder.take() {
            Some(folder) => folder,
            None => {
                let path = self.directory.clone()?;
                self.with_room(&|| File::open(rt, path.as_str()))?
            }
        };
        Ok(self.folder.insert(folder))
    }

    /// The size of a file in bytes.
    pub fn size<R: Files<File = File>>(&mut self, rt: &R, name: FileName) -> io::Result<u64> {
        let data = match self.open.get(&key_of(name)) {
            Some(file) => again(&|| file.metadata())?,
            None => {
                let path = self.path_of(name)?;
                again(&|| fs::metadata(rt, path.as_path()))?
            }
        };
        Ok(data.len())
    }

    /// The file, which is opened where it isn't open yet. One that can't be written is opened for reading alone.
    pub fn file<R: Files<File = File>>(&mut self, rt: &R, name: FileName) -> io::Result<&File> {
        let key = key_of(name);
        if !self.open.contains(&key) {
            let path = self.path_of(name)?;
            let file = self.with_room(&|| open_file(rt, path.as_path()))?;
            self.open.put(key, file)?;
        }
        match self.open.get(&key) {
            Some(file) => Ok(file),
            None => Err(io::Error::from(ErrorKind::Other)),
        }
    }

    /// Keeps a file open that was just made, where there is memory for it.
    pub fn keep(&mut self, name: FileName, file: File) {
        let _ = self.open.put(key_of(name), file);
    }

    /// Closes the file where it is open.
    pub fn close(&mut self, name: FileName) {
        self.open.pop(&key_of(name));
    }

    /// What a call answers that opens a file. Where a signal interrupted it, or too many files are open, it is made again.
    pub fn with_room<T: Drop, F: Fn() -> io::Result<T>>(&mut self, call: &F) -> io::Result<T>
        requires { F.IsAlwaysCallable call.now }
    {
        for _ in 1..MOST_TRIES {
            match call() {
                Err(error) if self.may_try_again(&error) => {}
                answer => return answer,
            }
        }
        call()
    }

    /// Whether a call may be made again that failed so: a signal interrupted it, or too many files were open, of which some
    /// are closed now.
    pub fn may_try_again(&mut self, error: &io::Error) -> bool {
        if error.kind() == ErrorKind::Interrupted {
            return true;
        }
        if !is_too_many(error) || self.open.is_empty() {
            return false;
        }
        self.close_half();
        true
    }

    // Closes the half of the files that were used longest ago.
    fn close_half(&mut self) {
        let most = self.open.cap();
        match NonZeroUsize::new(self.open.len() / 2) {
            Some(half) => {
                self.open.resize(half);
                self.open.resize(most);
            }
            None => self.open.clear(),
        }
    }
}

// Whether a call was refused because too many files are open.
fn is_too_many(error: &io::Error) -> bool {
    matches!(error.raw_os_error(), Some(TOO_MANY_HERE | TOO_MANY_AT_ALL))
}

fn open_file<R: Files<File = File>>(rt: &R, path: Path<'_>) -> io::Result<File> {
    match OpenOptions::new().read(true).write(true).open(rt, path) {
        Err(error) if error.kind() == ErrorKind::PermissionDenied => File::open(rt, path),
        Err(error) if error.kind() == ErrorKind::ReadOnlyFilesystem => File::open(rt, path),
        answer => answer,
    }
}
