// The figures of a store's data files, kept up to date.
ghost use Rattle.std.specs.Prelude.{◌≡◌, ◌⊎◌, ℕ, ◌+◌, ◌-◌, ◌*◌, ◌^◌, ◌<◌, ◌≤◌, min, All, Contains, HoldsAt, IfErr, IfOk, OnErr, OnOk, length, insert, map, slice_set, take};
ghost use Rattle.cache_model.specs.declared.faults.ModelFault.TheVariants.{Memory};
ghost use Rattle.file_stats.specs.Classes.{AreClassesOf};
ghost use Rattle.file_stats.specs.Counts.{AreCounts};
ghost use Rattle.file_stats.specs.Figures.{IsLeastCandidate, IsRaised, bytes_of, capped, grown, grown_by, lengthened, lengthened_by, live_bytes_of, new_row, numbers_of, raised_by, shrunk, shrunk_by, with_new, without};
ghost use Rattle.file_stats.specs.Keeping.{IsPlaceOf};

use crate::classes::{Classes, FREE, class_of};
use cache_model::{FileCount, ModelFault};
use std::alloc::Global;
use std::marker::Model;

/// The figures of a store's data files, kept up to date file by file. No call walks over all files, except where a file
/// is forgotten, or where one comes in below another number or needs room.
#[derive(Debug, Drop)]
pub struct Stats {
    rows: Vec<FileCount>,
    // The classes of the rows, place by place. Those behind the rows are free, and have room for more rows.
    classes: Classes,
    // The sizes of all files together, and their live bytes.
    bytes: u128,
    live: u128,
}

impl Model for Stats {
    ghost use Rattle.std.specs.Prelude.{length, vec_capacity};
    ghost use Rattle.file_stats.specs.Figures.{Figures};

    ghost Value = { Figures };

    ghost use Rattle.file_stats.specs.Keeping.{AreKept, figures_of};

    ghost view = { λ stats. figures_of stats.rows.items (length stats.classes) };

    ghost invariant = { λ stats. AreKept stats.rows.items (vec_capacity stats.rows) stats.classes stats.bytes stats.live };
}

// The row of a file none of whose bytes is live.
fn new_row(number: u32, size: u64) -> FileCount
    ensures { result ≡ new_row number size }
{
    FileCount {
        number,
        size,
        live: 0,
    }
}

// A row, where the file has so many more bytes.
fn lengthened_by(row: FileCount, bytes: u64) -> FileCount
    requires { row.size + bytes < 2 ^ 64 }
    ensures { result ≡ lengthened_by bytes row }
{
    FileCount {
        size: row.size + bytes,
        ..row
    }
}

// A row, where the file has at least so many bytes.
fn raised_by(row: FileCount, size: u64) -> FileCount
    ensures { result ≡ raised_by size row }
{
    FileCount {
        size: row.size.max(size),
        ..row
    }
}

// A row, where so many more bytes are live: no more than the file has.
fn grown_by(row: FileCount, bytes: u64) -> FileCount
    ensures { result ≡ grown_by bytes row }
{
    let live = row.live.saturating_add(bytes);
    FileCount {
        live: live.min(row.size),
        ..row
    }
}

// A row, where so many fewer bytes are live.
fn shrunk_by(row: FileCount, bytes: u64) -> FileCount
    ensures { result ≡ shrunk_by bytes row }
{
    FileCount {
        live: row.live.saturating_sub(bytes),
        ..row
    }
}

// The sizes of all files together, and their live bytes.
fn sums_of(rows: &[FileCount]) -> (u128, u128)
    requires { All (λ row. row.live ≤ row.size) rows.now }
    ensures bytes { result.0 ≡ bytes_of rows.now }
    ensures live { result.1 ≡ live_bytes_of rows.now }
    ensures fit { All (λ row. row.size < 2 ^ 64) rows.now }
{
    let mut bytes = 0;
    let mut live = 0;
    for row in rows {
        bytes += u128::from(row.size);
        live += u128::from(row.live);
    }
    (bytes, live)
}

// A number, or the greatest one of 64 bits where it is above that.
fn capped(number: u128) -> u64
    ensures { result ≡ capped number }
{
    number.min(u128::from(u64::MAX)) as u64
}

// Keeps the classes where a row has come in at a place: in one leaf where no row is behind it, else in all of them.
fn class_new(classes: &mut Classes, rows: &[FileCount], place: usize)
    requires within { (place < length rows.now) × (length rows.now ≤ length classes.old) }
    requires live { All (λ row. row.live ≤ row.size) rows.now }
    requires before { place + 1 ≡ length rows.now → AreClassesOf (take place rows.now) classes.old }
    ensures places { length classes.new ≡ length classes.old }
    ensures classes { AreClassesOf rows.now classes.new }
{
    if place + 1 == rows.len() {
        classes.set(place, class_of(rows[place]));
    } else {
        classes.fill(rows);
    }
}

impl Stats {
    /// The figures of these files.
    pub fn of(alloc: Global, files: &[FileCount]) -> Result<Stats, ModelFault>
        requires { AreCounts files.now }
        ensures rows { IfOk result (λ stats. stats.rows ≡ files.now) }
        ensures memory { IfErr result (λ fault. fault ≡ Memory) }
    {
        let Ok(mut classes) = Classes::new(alloc, files.len()) else {
            return Err(ModelFault::Memory);
        };
        let Ok(mut rows) = Vec::with_capacity(alloc, classes.len()) else {
            return Err(ModelFault::Memory);
        };
        let Ok(()) = rows.extend_from_slice(files) else {
            return Err(ModelFault::Memory);
        };
        classes.fill(files);
        let (bytes, live) = sums_of(files);
        Ok(Stats {
            rows,
            classes,
            bytes,
            live,
        })
    }

    /// The rows.
    pub fn rows(&self) -> &[FileCount]
        ensures rows { result.now ≡ self.now.rows }
        ensures counts { AreCounts self.now.rows }
    {
        &self.rows
    }

    /// Makes room for a new file, where there is none.
    pub fn reserve(&mut self) -> Result<(), ModelFault>
        ensures rows { self.new.rows ≡ self.old.rows }
        ensures spare { self.old.spare ≤ self.new.spare }
        ensures room { OnOk result (1 ≤ self.new.spare) }
        ensures same { OnErr result (self.new ≡ self.old) }
        ensures memory { IfErr result (λ fault. fault ≡ Memory) }
    {
        if self.rows.len() < self.classes.len() {
            return Ok(());
        }
        let alloc = *self.rows.allocator();
        let Ok(mut classes) = Classes::new(alloc, self.rows.len() + 1) else {
            return Err(ModelFault::Memory);
        };
        let Ok(()) = self.rows.reserve_exact(classes.len() - self.rows.len()) else {
            return Err(ModelFault::Memory);
        };
        classes.fill(&self.rows);
        self.classes = classes;
        Ok(())
    }

    // The place of a file's row, or the place where a row of it would stand.
    fn place_of(&self, file: u32) -> Result<usize, usize>
        ensures { IsPlaceOf file self.now.rows result }
    {
        self.rows.binary_search_by_key(&file, |row| row.number)
    }

    // Gives the file at a place other figures.
    fn replace(&mut self, place: usize, row: FileCount)
        requires place { (place < length self.old.rows) × HoldsAt (λ old. old.number ≡ row.number) self.old.rows place }
        requires live { row.live ≤ row.size }
        ensures { self.new ≡ record self.old { rows = slice_set self.old.rows place row } }
    {
        let old = self.rows[place];
        self.bytes = self.bytes - u128::from(old.size) + u128::from(row.size);
        self.live = self.live - u128::from(old.live) + u128::from(row.live);
        self.classes.set(place, class_of(row));
        self.rows[place] = row;
    }

    // Puts the row of a new file at a place.
    fn put_new(&mut self, place: usize, row: FileCount)
        requires room { 1 ≤ self.old.spare }
        requires place { place ≤ length self.old.rows }
        requires counts { AreCounts (insert self.old.rows place row) }
        ensures { self.new ≡ record { rows = insert self.old.rows place row; spare = self.old.spare - 1 } }
    {
        self.bytes += u128::from(row.size);
        self.live += u128::from(row.live);
        self.rows.insert(place, row).unwrap();
        class_new(&mut self.classes, &self.rows, place);
    }

    /// A file gets so many more bytes. One that has no row gets a row without live bytes, for which there is room.
    pub fn grow(&mut self, file: u32, bytes: u64)
        requires room { Contains (numbers_of self.old.rows) file ⊎ (1 ≤ self.old.spare) }
        requires fits { All (λ row. row.number ≡ file → row.size + bytes < 2 ^ 64) self.old.rows }
        ensures had { Contains (numbers_of self.old.rows) file → self.new ≡ record self.old { rows = map (lengthened file bytes) self.old.rows } }
        ensures new { (Contains (numbers_of self.old.rows) file → ⊥) → self.new ≡ record { rows = with_new (new_row file bytes) self.old.rows; spare = self.old.spare - 1 } }
    {
        match self.place_of(file) {
            Ok(place) => {
                let row = self.rows[place];
                self.replace(place, lengthened_by(row, bytes));
            }
            Err(place) => self.put_new(place, new_row(file, bytes)),
        }
    }

    /// A file has so many bytes, where it had fewer. One that has no row gets a row without live bytes, where there is room.
    pub fn raise(&mut self, file: u32, size: u64)
        ensures { IsRaised file size self.old self.new }
    {
        match self.place_of(file) {
            Ok(place) => {
                let row = self.rows[place];
                self.replace(place, raised_by(row, size));
            }
            Err(place) if self.rows.len() < self.classes.len() => {
                self.put_new(place, new_row(file, size));
            }
            Err(_) => {}
        }
    }

    /// So many more bytes of a file are live. A caller whose sums keep to the sizes never meets the limit, that no more
    /// bytes are live than the file has.
    pub fn live(&mut self, file: u32, bytes: u64)
        ensures { self.new ≡ record self.old { rows = map (grown file bytes) self.old.rows } }
    {
        if let Ok(place) = self.place_of(file) {
            let row = self.rows[place];
            self.replace(place, grown_by(row, bytes));
        }
    }

    /// So many fewer bytes of a file are live. A caller whose sums keep to the sizes never meets the limit, that none is
    /// live where fewer were than these.
    pub fn dead(&mut self, file: u32, bytes: u64)
        ensures { self.new ≡ record self.old { rows = map (shrunk file bytes) self.old.rows } }
    {
        if let Ok(place) = self.place_of(file) {
            let row = self.rows[place];
            self.replace(place, shrunk_by(row, bytes));
        }
    }

    /// Takes the row of a file away, where it has one.
    pub fn forget_file(&mut self, file: u32)
        ensures rows { self.new.rows ≡ without file self.old.rows }
        ensures spare { self.old.spare ≤ self.new.spare }
    {
        if let Ok(place) = self.place_of(file) {
            let row = self.rows.remove(place);
            self.bytes -= u128::from(row.size);
            self.live -= u128::from(row.live);
            self.classes.fill(&self.rows);
        }
    }

    /// How many files there are, how many bytes they have, and how many of these are live, each of them 2^64 - 1 where it
    /// is above that.
    pub fn totals(&self) -> (u64, u64, u64)
        ensures files { result.0 ≡ capped (length self.now.rows) }
        ensures bytes { result.1 ≡ capped (bytes_of self.now.rows) }
        ensures live { result.2 ≡ capped (live_bytes_of self.now.rows) }
    {
        (
            self.rows.len() as u64,
            capped(self.bytes),
            capped(self.live),
        )
    }

    /// The least number of a file other than the current one, of whose bytes fewer than so many percent are live.
    pub fn candidate(&self, threshold: u64, current: Option<u32>) -> Option<u32>
        ensures { IsLeastCandidate threshold current self.now.rows result }
    {
        let limit = threshold.min(u64::from(FREE)) as u8;
        let first = self.classes.first_below(limit)?;
        let number = self.rows[first].number;
        if current != Some(number) {
            return Some(number);
        }
        let second = self.classes.next_below(first, limit)?;
        Some(self.rows[second].number)
    }
}

#[cfg(test)]
mod tests;
