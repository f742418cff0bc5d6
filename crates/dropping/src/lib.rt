//! When a data file may go, as laws: each function's contract is a fact, and its body is empty.
#![tactic(auto)]

ghost use Rattle.std.specs.Prelude.{ℕ, Result};
ghost use Rattle.cache_disk.specs.declared.host.HostFault.{HostFault};
ghost use Rattle.cache_model.specs.Images.{log_name};
ghost use Rattle.cache_disk.specs.State.{Moves};
ghost use Rattle.cache_disk.specs.Calls.{AllLeft, Deleted, SyncedNames};
ghost use Rattle.dropping.specs.Going.{MayGo, AreAlike, FilesMayGo, OutdoneFilesMayGo, PendingDeletionsKeep, CopiesKeep};

use cache_disk::Host;

/// A data file loses nothing at the mark where each of its records is either outdone, by a newer record of its key in
/// another data file, or hidden: no other data file has a record of its key, and the key's newest record is a removal or
/// a put that has expired at the mark. Where the mark is the same without such a file, each key has the same reading
/// without it at each moment from the mark on.
///
/// A removal that isn't outdone has to stay as long as another data file has a record of its key, however old: without
/// the removal that record would be read again.
pub fn files_may_go()
    ensures { FilesMayGo }
{}

/// Without a data file whose records are all outdone each key has the very entry that it has with it, at whatever moment
/// it is looked at.
pub fn outdone_files_may_go()
    ensures { OutdoneFilesMayGo }
{}

/// A data file may go where it loses nothing at some moment that another data file's frame keeps as its end, and has no
/// frame of a later moment itself. Then the mark is the same without it. A deletion is pending until the names are
/// synced: till then a crash may leave the file or not. Either way the mark is the same, and each key has the same
/// reading from the mark on.
pub fn pending_deletions_keep()
    ensures { PendingDeletionsKeep }
{}

/// From the deletion of a data file that may go to the sync of the names, whatever both calls answer, each image that a
/// crash may leave at any turn has the mark and the readings of one that a crash might leave before.
pub fn reclaims<H: Host>()
    ensures { (old mid new : H) (number : ℕ) (deleted synced : Result (Unit {0}) HostFault)
        → AllLeft (H.state old) (λ image. MayGo image number)
        → Deleted (log_name number) (H.state old) (H.state mid) deleted
        → SyncedNames (H.state mid) (H.state new) synced
        → Moves (H.state old) (H.state new) AreAlike }
{}

/// A copy of a key's newest record has the same sequence number and says the same. So however many copies come, in
/// whichever files and at whichever offsets, the key's entry stays.
pub fn copies_keep()
    ensures { CopiesKeep }
{}
