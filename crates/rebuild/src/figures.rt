// What is found of data files beside the index.
ghost use Rattle.std.specs.Prelude.{◌≡◌, ◌+◌, ◌^◌, ◌<◌, ◌≤◌, [], IfOk, IfErr, max};
ghost use Rattle.cache_model.specs.declared.faults.StoreFault.TheVariants as fault;

use crate::rows::Rows;
use cache_model::StoreFault;
use file_stats::Found;
use std::alloc::Global;

/// The figures of the items that were taken so far: the rows of their files, the next sequence number and the mark.
#[derive(Drop)]
pub(crate) struct Figures {
    pub(crate) rows: Rows,
    pub(crate) next_seq: u64,
    pub(crate) mark: u64,
    ghost next_some: { 1 ≤ next_seq },
    ghost next_fits: { next_seq ≤ 4611686018427387904 },
    ghost mark_fits: { mark < 2305843009213693952 },
}

impl Figures {
    /// The figures of no item.
    pub(crate) fn new(alloc: Global) -> Figures
        ensures rows { result.rows ≡ [] }
        ensures next { result.next_seq ≡ 1 }
        ensures mark { result.mark ≡ 0 }
    {
        Figures {
            rows: Rows::new(alloc),
            next_seq: 1,
            mark: 0,
        }
    }

    /// One sequence number more.
    pub(crate) fn number(&mut self, seq: u64)
        requires { seq < 2 ^ 62 }
        ensures rows { self.new.rows ≡ self.old.rows }
        ensures next { self.new.next_seq ≡ max self.old.next_seq (seq + 1) }
        ensures mark { self.new.mark ≡ self.old.mark }
    {
        if self.next_seq <= seq {
            self.next_seq = seq + 1;
        }
    }

    /// One end of a frame more.
    pub(crate) fn pass(&mut self, moment: u64)
        requires { moment < 2 ^ 61 }
        ensures rows { self.new.rows ≡ self.old.rows }
        ensures next { self.new.next_seq ≡ self.old.next_seq }
        ensures mark { self.new.mark ≡ max self.old.mark moment }
    {
        if self.mark < moment {
            self.mark = moment;
        }
    }

    /// What is found, where the next file gets this number.
    pub(crate) fn found(&self, alloc: Global, next_file: u32) -> Result<Found, StoreFault>
        ensures rows { IfOk result (λ found. found.files ≡ self.now.rows) }
        ensures file { IfOk result (λ found. found.next_file ≡ next_file) }
        ensures next { IfOk result (λ found. found.next_seq ≡ self.now.next_seq) }
        ensures mark { IfOk result (λ found. found.mark ≡ self.now.mark) }
        ensures memory { IfErr result (λ given. given ≡ fault.Memory) }
    {
        match self.rows.list(alloc) {
            Ok(files) => Ok(Found {
                files,
                next_file,
                next_seq: self.next_seq,
                mark: self.mark,
            }),
            Err(fault) => Err(fault),
        }
    }
}
