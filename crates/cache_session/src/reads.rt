// Commands that read a key.
ghost use Rattle.std.specs.Prelude.{◌≡◌, false, IsTrue, is_some, if◌then◌else◌};
ghost use Rattle.cache_disk.specs.Calls.{HasStoreCause};
ghost use Rattle.cache_model.specs.Plain.{found};
ghost use Rattle.cache_model.specs.declared.commands.Command.TheVariants.{Get, Has};
ghost use Rattle.cache_model.specs.declared.replies.Reply.TheVariants.{Yes, No};
ghost use Rattle.store_trait.specs.Calls.{IsReady, Plainly};
ghost use Rattle.cache_session.specs.Turns.{TurnsShown};

use crate::calls::peek;
use cache_disk::Host;
use cache_model::{Entry, Key, Reply, StoreFault};
use store_trait::Store;

/// The reply to a read.
fn found(entry: Option<Entry>) -> Reply
    ensures { result ≡ found entry }
{
    match entry {
        Some(entry) => Reply::Found(entry.value),
        None => Reply::Nothing,
    }
}

/// Whether there is an entry.
fn yes_or_no(entry: Option<Entry>) -> Reply
    ensures { result ≡ (if is_some entry then Yes else No) }
{
    match entry {
        Some(_) => Reply::Yes,
        None => Reply::No,
    }
}

/// Reads a key.
pub(crate) fn get<H: Host, S: Store<H>>(
    store: &mut S,
    host: &mut H,
    key: &Key,
    moment: u64,
) -> Result<Reply, StoreFault>
    requires ready { IsReady (S.facts store.old) moment }
    requires stands { IsTrue H.tells → (S.means store.old (H.state host.old)).stands }
    ensures plain { Plainly (S.facts store.old) (S.facts store.new) moment result }
    ensures stands { IsTrue H.tells → (S.facts store.new).spoilt ≡ false → (S.means store.new (H.state host.new)).stands }
    ensures turns { IsTrue H.tells → TurnsShown (Get key.now) (S.facts store.old) (S.facts store.new) (S.facts store.new).spoilt
        (S.means store.old (H.state host.old)) (S.means store.new (H.state host.new)) (H.state host.old) (H.state host.new) moment result }
    ensures cause { HasStoreCause (H.state host.old) (H.state host.new) result }
{
    match peek(store, host, key, moment) {
        Ok(entry) => Ok(found(entry)),
        Err(fault) => Err(fault),
    }
}

/// Whether a key is visible.
pub(crate) fn has<H: Host, S: Store<H>>(
    store: &mut S,
    host: &mut H,
    key: &Key,
    moment: u64,
) -> Result<Reply, StoreFault>
    requires ready { IsReady (S.facts store.old) moment }
    requires stands { IsTrue H.tells → (S.means store.old (H.state host.old)).stands }
    ensures plain { Plainly (S.facts store.old) (S.facts store.new) moment result }
    ensures stands { IsTrue H.tells → (S.facts store.new).spoilt ≡ false → (S.means store.new (H.state host.new)).stands }
    ensures turns { IsTrue H.tells → TurnsShown (Has key.now) (S.facts store.old) (S.facts store.new) (S.facts store.new).spoilt
        (S.means store.old (H.state host.old)) (S.means store.new (H.state host.new)) (H.state host.old) (H.state host.new) moment result }
    ensures cause { HasStoreCause (H.state host.old) (H.state host.new) result }
{
    match peek(store, host, key, moment) {
        Ok(entry) => Ok(yes_or_no(entry)),
        Err(fault) => Err(fault),
    }
}
