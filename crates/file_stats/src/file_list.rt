// Data files with their sizes and live bytes, and what an opening finds of them.
ghost use Rattle.std.specs.Prelude.{◌≡◌, IfOk, IfErr};
ghost use Rattle.cache_model.specs.declared.faults.ModelFault.TheVariants.{Memory};
ghost use Rattle.file_stats.specs.Counts.{AreCounts};

use cache_model::{FileCount, ModelFault};
use std::alloc::Global;
use std::marker::Model;

/// The figures of several data files, by ascending numbers.
#[derive(Debug, Drop)]
pub struct FileList {
    rows: Vec<FileCount>,
}

impl Model for FileList {
    ghost use Rattle.std.specs.Prelude.{List};
    ghost use Rattle.cache_model.specs.declared.files.FileCount.{FileCount};
    ghost use Rattle.file_stats.specs.Counts.{AreCounts};

    ghost Value = { List FileCount };

    ghost view = { λ list. list.rows.items };

    ghost invariant = { λ list. AreCounts list.rows.items };
}

impl FileList {
    /// A list of these rows.
    pub fn of(alloc: Global, rows: &[FileCount]) -> Result<FileList, ModelFault>
        requires { AreCounts rows.now }
        ensures equal { IfOk result (λ list. list ≡ rows.now) }
        ensures memory { IfErr result (λ fault. fault ≡ Memory) }
    {
        let rows = Vec::from_slice(alloc, rows).map_err(|_| ModelFault::Memory)?;
        Ok(FileList { rows })
    }

    /// The rows.
    pub fn rows(&self) -> &[FileCount]
        ensures rows { result.now ≡ self.now }
        ensures counts { AreCounts self.now }
    {
        &self.rows
    }
}

/// What is found of the data files when a store is opened.
#[derive(Debug, Drop)]
pub struct Found {
    pub files: FileList,
    /// The number that the next data file gets.
    pub next_file: u32,
    /// The sequence number that the next change gets.
    pub next_seq: u64,
    /// The greatest moment of a frame that counts, 0 where none does.
    pub mark: u64,
}
