// The rows of data files while they are read.
ghost use Rattle.std.specs.Prelude.{◌≡◌, ◌<◌, ◌++◌, ◌∷◌, [], All, OnOk, IfOk, IfErr, map};
ghost use Rattle.cache_model.specs.declared.faults.StoreFault.TheVariants as fault;
ghost use Rattle.rebuild.specs.Rows.{IsPlaceOf, grown, grown_by, new_row, numbers_of, shrunk, shrunk_by};

use cache_model::{FileCount, StoreFault};
use file_stats::FileList;
use std::alloc::Global;
use std::marker::Model;

/// The rows of the data files so far, by ascending numbers.
#[derive(Drop)]
pub(crate) struct Rows {
    rows: Vec<FileCount>,
}

impl Model for Rows {
    ghost use Rattle.std.specs.Prelude.{List};
    ghost use Rattle.cache_model.specs.declared.files.FileCount.{FileCount};
    ghost use Rattle.file_stats.specs.Counts.{AreCounts};

    ghost Value = { List FileCount };

    ghost view = { λ rows. rows.rows.items };

    ghost invariant = { λ rows. AreCounts rows.rows.items };
}

// A row, where so many more bytes are live: no more than the file has.
fn grown_by(row: FileCount, bytes: u32) -> FileCount
    ensures { result ≡ grown_by bytes row }
{
    let live = row.live.saturating_add(u64::from(bytes));
    FileCount {
        live: live.min(row.size),
        ..row
    }
}

// A row, where so many fewer bytes are live.
fn shrunk_by(row: FileCount, bytes: u32) -> FileCount
    ensures { result ≡ shrunk_by bytes row }
{
    FileCount {
        live: row.live.saturating_sub(u64::from(bytes)),
        ..row
    }
}

impl Rows {
    /// No rows.
    pub(crate) fn new(alloc: Global) -> Rows
        ensures { result ≡ [] }
    {
        Rows {
            rows: Vec::new(alloc),
        }
    }

    /// One file more, whose number is above all so far. None of its bytes is live yet.
    pub(crate) fn add(&mut self, number: u32, size: u64) -> Result<(), StoreFault>
        requires { All (λ n. n < number) (numbers_of self.old) }
        ensures added { OnOk result (self.new ≡ self.old ++ new_row number size ∷ []) }
        ensures memory { IfErr result (λ given. given ≡ fault.Memory) }
    {
        let row = FileCount {
            number,
            size,
            live: 0,
        };
        match self.rows.push(row) {
            Ok(()) => Ok(()),
            Err(_) => Err(StoreFault::Memory),
        }
    }

    // The place of a file's row.
    fn place_of(&self, number: u32) -> Option<usize>
        ensures { IsPlaceOf number self.now result }
    {
        match self.rows.binary_search_by_key(&number, |row| row.number) {
            Ok(place) => Some(place),
            Err(_) => None,
        }
    }

    /// So many more bytes of a file are live. They are no more than the file has.
    pub(crate) fn grow(&mut self, number: u32, bytes: u32)
        ensures { self.new ≡ map (grown number bytes) self.old }
    {
        if let Some(place) = self.place_of(number) {
            self.rows[place] = grown_by(self.rows[place], bytes);
        }
    }

    /// So many fewer bytes of a file are live.
    pub(crate) fn shrink(&mut self, number: u32, bytes: u32)
        ensures { self.new ≡ map (shrunk number bytes) self.old }
    {
        if let Some(place) = self.place_of(number) {
            self.rows[place] = shrunk_by(self.rows[place], bytes);
        }
    }

    /// The rows as a list of files.
    pub(crate) fn list(&self, alloc: Global) -> Result<FileList, StoreFault>
        ensures equal { IfOk result (λ list. list ≡ self.now) }
        ensures memory { IfErr result (λ given. given ≡ fault.Memory) }
    {
        match FileList::of(alloc, &self.rows) {
            Ok(list) => Ok(list),
            Err(_) => Err(StoreFault::Memory),
        }
    }
}
