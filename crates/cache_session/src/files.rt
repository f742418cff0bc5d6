// Commands on the files of the store: what a count of them gives, and the compaction of one or of all.
ghost use Rattle.std.specs.Prelude.{◌≡◌, false, IsTrue};
ghost use Rattle.cache_disk.specs.Calls.{HasStoreCause};
ghost use Rattle.cache_model.specs.declared.commands.Command.TheVariants.{Stats, CompactAll, CompactFile};
ghost use Rattle.store_trait.specs.Calls.{IsReady, Plainly};
ghost use Rattle.cache_session.specs.Turns.{TurnsShown};

use cache_disk::Host;
use cache_model::{Figures, Reply, StoreFault};
use store_trait::FileStore;

/// Counts the files. No change waits to be written, and nothing is held in memory beside the store.
pub(crate) fn stats<H: Host, S: FileStore<H>>(
    store: &mut S,
    host: &mut H,
    moment: u64,
) -> Result<Reply, StoreFault>
    requires ready { IsReady (S.facts store.old) moment }
    requires stands { IsTrue H.tells → (S.means store.old (H.state host.old)).stands }
    ensures plain { Plainly (S.facts store.old) (S.facts store.new) moment result }
    ensures stands { IsTrue H.tells → (S.facts store.new).spoilt ≡ false → (S.means store.new (H.state host.new)).stands }
    ensures turns { IsTrue H.tells → TurnsShown Stats (S.facts store.old) (S.facts store.new) (S.facts store.new).spoilt
        (S.means store.old (H.state host.old)) (S.means store.new (H.state host.new)) (H.state host.old) (H.state host.new) moment result }
    ensures cause { HasStoreCause (H.state host.old) (H.state host.new) result }
{
    match store.figures(host, moment) {
        Ok((files, bytes, live)) => Ok(Reply::Stats(Figures {
            files,
            bytes,
            live,
            pending: 0,
            held: 0,
        })),
        Err(fault) => Err(fault),
    }
}

/// Compacts a file, behind the compaction that is under way.
pub(crate) fn compact_file<H: Host, S: FileStore<H>>(
    store: &mut S,
    host: &mut H,
    file: u32,
    moment: u64,
) -> Result<Reply, StoreFault>
    requires ready { IsReady (S.facts store.old) moment }
    requires stands { IsTrue H.tells → (S.means store.old (H.state host.old)).stands }
    ensures plain { Plainly (S.facts store.old) (S.facts store.new) moment result }
    ensures stands { IsTrue H.tells → (S.facts store.new).spoilt ≡ false → (S.means store.new (H.state host.new)).stands }
    ensures turns { IsTrue H.tells → TurnsShown (CompactFile file) (S.facts store.old) (S.facts store.new) (S.facts store.new).spoilt
        (S.means store.old (H.state host.old)) (S.means store.new (H.state host.new)) (H.state host.old) (H.state host.new) moment result }
    ensures cause { HasStoreCause (H.state host.old) (H.state host.new) result }
{
    match store.compact_file(host, file, moment) {
        Ok(turned) => Ok(Reply::Turned(turned)),
        Err(fault) => Err(fault),
    }
}

/// Compacts all files, behind the compaction that is under way.
pub(crate) fn compact_all<H: Host, S: FileStore<H>>(
    store: &mut S,
    host: &mut H,
    moment: u64,
) -> Result<Reply, StoreFault>
    requires ready { IsReady (S.facts store.old) moment }
    requires stands { IsTrue H.tells → (S.means store.old (H.state host.old)).stands }
    ensures plain { Plainly (S.facts store.old) (S.facts store.new) moment result }
    ensures stands { IsTrue H.tells → (S.facts store.new).spoilt ≡ false → (S.means store.new (H.state host.new)).stands }
    ensures turns { IsTrue H.tells → TurnsShown CompactAll (S.facts store.old) (S.facts store.new) (S.facts store.new).spoilt
        (S.means store.old (H.state host.old)) (S.means store.new (H.state host.new)) (H.state host.old) (H.state host.new) moment result }
    ensures cause { HasStoreCause (H.state host.old) (H.state host.new) result }
{
    match store.compact_all(host, moment) {
        Ok(()) => Ok(Reply::Compacted),
        Err(fault) => Err(fault),
    }
}
