// The parts of a store, and what stands for its newest records.
ghost use Rattle.std.specs.Prelude.{◌≡◌, ◌≤◌, ◌<◌, ◌^◌, [], List, length, false, Some, None, IsSome, IsTrue, IfOk, IfErr, OnOk, OnErr, IsErrOf, ℕ};
ghost use Rattle.cache_model.specs.declared.faults.StoreFault.TheVariants as fault;
ghost use Rattle.cache_model.specs.declared.faults.Spent.{Spent};
ghost use Rattle.cache_disk.specs.State.{Stands as IsSame};
ghost use Rattle.cache_disk.specs.Calls.{HasStoreCause};
ghost use Rattle.append_log.specs.Current.{files_of};
ghost use Rattle.temporary_table.specs.Places.{place_of, seat_of};
ghost use Rattle.compactor.specs.Counting.{Kept, AreThere, counts_in};
ghost use Rattle.compactor.specs.Indexing.{AreIndexed, AreUsable};
ghost use Rattle.compactor.specs.Stepping.{Notes, NotesCopy, NotesLess, Seats};

use append_log::Log;
use cache_disk::Host;
use cache_model::{Key, Place, StoreFault};
use file_stats::Stats;
use temporary_table::{Request, Requests, Table};
use tree_index::Tree;

/// What a store is made of. Its newest records are found by the table, where the index doesn't have them yet, and else by
/// the index; the queue has what the index is still to be told.
#[derive(Drop)]
pub struct Parts {
    /// Writes the records of the main store.
    pub log: Log,
    pub tree: Tree,
    pub table: Table,
    pub requests: Requests,
    /// The sizes of the data files, and how many of their bytes are of records that the index has an entry of.
    pub stats: Stats,
    /// Whether they may be used no more.
    pub spoilt: bool,
}

impl Parts {
    /// Gives a key a seat, so that its place can be noted without taking memory.
    pub fn seat(&mut self, key: Key) -> Result<(), StoreFault>
        ensures seats { Seats key self.old self.new }
        ensures seated { OnOk result (IsSome (seat_of self.new.table key)) }
        ensures memory { IfErr result (λ given. given ≡ fault.Memory) }
    {
        match self.table.seat(key) {
            Ok(()) => Ok(()),
            Err(_) => Err(StoreFault::Memory),
        }
    }

    /// Takes a key's seat away where no place was noted.
    pub fn unseat(&mut self, key: &Key)
        ensures seats { Seats key.now self.old self.new }
        ensures unseated { place_of self.old.table key.now ≡ None → seat_of self.new.table key.now ≡ None }
    {
        self.table.unseat(key);
    }

    /// Notes the place of a key's newest record, which is to be put into the index. The key has a seat, and the queue
    /// isn't full. It takes no memory.
    ///
    /// An index step takes a key's seat away where it settles its place: so it is taken before the key is seated.
    pub fn note(&mut self, key: Key, place: Place, gone: bool)
        requires seat { IsSome (seat_of self.old.table key) }
        requires room { length self.old.requests.waiting < self.old.requests.limit }
        ensures notes { Notes key place gone self.old self.new }
    {
        self.table.set(&key, place, gone);
        self.requests.push(Request::Set {
            key,
            to: place,
            gone,
        });
    }

    /// Notes the place of a copy of a key's newest record, which the index is to be told of in place of `from`. The key has
    /// a seat, and the queue isn't full. It takes no memory.
    pub fn swap(&mut self, key: Key, from: Place, to: Place, gone: bool)
        requires seat { IsSome (seat_of self.old.table key) }
        requires room { length self.old.requests.waiting < self.old.requests.limit }
        ensures notes { NotesCopy key from to gone self.old self.new }
    {
        self.table.set(&key, to, gone);
        self.requests.push(Request::Swap { key, from, to });
    }

    /// Notes that one record less of a key is to be counted. The queue isn't full. It takes no memory.
    pub fn less(&mut self, key: Key)
        requires room { length self.old.requests.waiting < self.old.requests.limit }
        ensures notes { NotesLess key self.old self.new }
    {
        self.requests.push(Request::Less { key });
    }
}
