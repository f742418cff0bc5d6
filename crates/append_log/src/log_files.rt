// What a log knows of its files.
ghost use Rattle.std.specs.Prelude.{◌≡◌, ◌≤◌, ◌<◌, ◌^◌, ◌+◌, ◌&&◌, ◌==◌, false, true, is_some};
ghost use Rattle.append_log.specs.Current.{IsUsable, Fits, data_name, is_over, makes_file, next_file, next_file_of, tail_of};

use cache_model::{FileKind, FileName};
use data_file::Appender;

/// What writes the data files of a store, one after another.
#[derive(Debug, Drop)]
pub struct LogFiles {
    pub(crate) store: u8,
    // the next sequence number
    pub(crate) next: u64,
    // the number of the current file, or of the one to be made
    pub(crate) file: u32,
    // what writes the current file
    pub(crate) log: Option<Appender>,
    // whether something in it waits for a seal
    pub(crate) unsealed: bool,
    // the moment of the last frame of the current file
    pub(crate) last: Option<u64>,
    // the greatest moment of a frame that was sealed
    pub(crate) mark: u64,
    // how large a file gets before the next one is begun
    pub(crate) file_size: u64,
    pub(crate) spoilt: bool,
}

/// The data file of a store with this number.
pub(crate) fn data_name(store: u8, number: u32) -> FileName
    ensures { result ≡ data_name store number }
{
    FileName {
        kind: FileKind::Log,
        store,
        id: number,
    }
}

impl LogFiles {
    // Whether the current file is closed before a record of so many bytes.
    pub(crate) fn is_over(&self, bytes: usize) -> bool
        requires usable { IsUsable self.now }
        requires short { bytes ≤ 66583 }
        ensures over { result ≡ is_over self.now.log self.now.file_size bytes }
        ensures fits { result ≡ false → is_some self.now.log ≡ true → Fits self.now.log self.now.file bytes }
    {
        match &self.log {
            None => false,
            Some(log) => log.size() > 1 && log.size() + bytes as u64 + 10 > self.file_size,
        }
    }

    // Whether a file is to be made, and the last number that a file may have is taken.
    pub(crate) fn is_at_end(&self, over: bool) -> bool
        requires usable { IsUsable self.now }
        ensures at_end { result ≡ (makes_file self.now.log over && next_file self.now.log self.now.file == 4294967295) }
        ensures small { self.now.file < 2 ^ 32 }
    {
        match &self.log {
            None => self.file == u32::MAX,
            Some(_) => over && self.file == u32::MAX - 1,
        }
    }

    // The number of the next file to be made.
    pub(crate) fn next_file(&self) -> u32
        requires usable { IsUsable self.now }
        ensures { result ≡ next_file_of self.now }
    {
        match &self.log {
            None => self.file,
            Some(_) => self.file + 1,
        }
    }

    // The current file, its size and whether something in it waits for a seal.
    pub(crate) fn tail(&self) -> Option<(u32, u64, bool)>
        ensures { result ≡ tail_of self.now }
    {
        match &self.log {
            None => None,
            Some(log) => Some((self.file, log.size(), self.unsealed)),
        }
    }
}
