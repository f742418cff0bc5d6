// Commands that write without a condition: a put, what settles the store, and a step of an actor.
ghost use Rattle.std.specs.Prelude.{◌≡◌, ◌||◌, false, IsTrue, OnOk, ◌<◌, ◌^◌};
ghost use Rattle.cache_disk.specs.Calls.{HasStoreCause};
ghost use Rattle.cache_model.specs.Commands.{IsLifespan};
ghost use Rattle.cache_model.specs.Plain.{until_of};
ghost use Rattle.cache_model.specs.declared.commands.Command.TheVariants.{Put, Sync, Stop, Step};
ghost use Rattle.store_trait.specs.Meaning.{IsChange};
ghost use Rattle.store_trait.specs.Calls.{IsReady, Plainly};
ghost use Rattle.cache_session.specs.Changing.{put_of};
ghost use Rattle.cache_session.specs.Turns.{TurnsShown, gives_up};

use crate::calls::{apply, settle};
use cache_disk::Host;
use cache_model::{Change, Entry, Key, Lifespan, Reply, StepKind, StoreFault, Turned, Value};
use expiry::until_of;
use store_trait::Store;

/// The change that puts a value with a lifespan that begins now.
pub(crate) fn put_of(key: Key, value: Value, lifespan: Lifespan, moment: u64) -> Change
    requires moment { moment < 2 ^ 61 }
    requires lifespan { IsLifespan lifespan }
    ensures change { result ≡ put_of key value (until_of moment lifespan) }
    ensures until { IsChange result }
{
    let until = until_of(moment, lifespan);
    Change::Put(key, Entry { value, until })
}

/// Puts a value under a key.
pub(crate) fn put<H: Host, S: Store<H>>(
    store: &mut S,
    host: &mut H,
    key: Key,
    value: Value,
    lifespan: Lifespan,
    moment: u64,
) -> Result<Reply, StoreFault>
    requires ready { IsReady (S.facts store.old) moment }
    requires stands { IsTrue H.tells → (S.means store.old (H.state host.old)).stands }
    requires lifespan { IsLifespan lifespan }
    ensures plain { Plainly (S.facts store.old) (S.facts store.new) moment result }
    ensures stands { IsTrue H.tells → (S.facts store.new).spoilt ≡ false → (S.means store.new (H.state host.new)).stands }
    ensures turns { IsTrue H.tells → TurnsShown (Put key value lifespan) (S.facts store.old) (S.facts store.new) (S.facts store.new).spoilt
        (S.means store.old (H.state host.old)) (S.means store.new (H.state host.new)) (H.state host.old) (H.state host.new) moment result }
    ensures cause { HasStoreCause (H.state host.old) (H.state host.new) result }
{
    let change = put_of(key, value, lifespan, moment);
    match apply(store, host, &change, moment) {
        Ok(()) => Ok(Reply::Done),
        Err(fault) => Err(fault),
    }
}

/// Makes what the store has outlast a crash.
pub(crate) fn sync<H: Host, S: Store<H>>(
    store: &mut S,
    host: &mut H,
    moment: u64,
) -> Result<Reply, StoreFault>
    requires ready { IsReady (S.facts store.old) moment }
    requires stands { IsTrue H.tells → (S.means store.old (H.state host.old)).stands }
    ensures plain { Plainly (S.facts store.old) (S.facts store.new) moment result }
    ensures stands { IsTrue H.tells → (S.facts store.new).spoilt ≡ false → (S.means store.new (H.state host.new)).stands }
    ensures turns { IsTrue H.tells → TurnsShown Sync (S.facts store.old) (S.facts store.new) (S.facts store.new).spoilt
        (S.means store.old (H.state host.old)) (S.means store.new (H.state host.new)) (H.state host.old) (H.state host.new) moment result }
    ensures cause { HasStoreCause (H.state host.old) (H.state host.new) result }
{
    match settle(store, host, moment) {
        Ok(()) => Ok(Reply::Done),
        Err(fault) => Err(fault),
    }
}

/// Makes what the store has outlast a crash, at the end of a session.
pub(crate) fn stop<H: Host, S: Store<H>>(
    store: &mut S,
    host: &mut H,
    moment: u64,
) -> Result<Reply, StoreFault>
    requires ready { IsReady (S.facts store.old) moment }
    requires stands { IsTrue H.tells → (S.means store.old (H.state host.old)).stands }
    ensures plain { Plainly (S.facts store.old) (S.facts store.new) moment result }
    ensures stands { IsTrue H.tells → (S.facts store.new).spoilt ≡ false → (S.means store.new (H.state host.new)).stands }
    ensures turns { IsTrue H.tells → TurnsShown Stop (S.facts store.old) (S.facts store.new) (S.facts store.new).spoilt
        (S.means store.old (H.state host.old)) (S.means store.new (H.state host.new)) (H.state host.old) (H.state host.new) moment result }
    ensures cause { HasStoreCause (H.state host.old) (H.state host.new) result }
{
    match settle(store, host, moment) {
        Ok(()) => Ok(Reply::Stopped),
        Err(fault) => Err(fault),
    }
}

/// Whether a step gives up what is held in memory.
fn gives_up(kind: StepKind) -> bool
    ensures { result ≡ gives_up kind }
{
    matches!(kind, StepKind::Evict | StepKind::Reap)
}

/// Takes a step of an actor. Nothing is held in memory beside the store, so there is nothing to give up. Where the step
/// fails `broken` says so.
pub(crate) fn step<H: Host, S: Store<H>>(
    store: &mut S,
    host: &mut H,
    broken: &mut bool,
    kind: StepKind,
    moment: u64,
) -> Result<Reply, StoreFault>
    requires ready { IsReady (S.facts store.old) moment }
    requires stands { IsTrue H.tells → (S.means store.old (H.state host.old)).stands }
    requires whole { broken.old ≡ false }
    ensures plain { Plainly (S.facts store.old) (S.facts store.new) moment result }
    ensures whole { OnOk result (broken.new ≡ false) }
    ensures stands { IsTrue H.tells → (broken.new || (S.facts store.new).spoilt) ≡ false → (S.means store.new (H.state host.new)).stands }
    ensures turns { IsTrue H.tells → TurnsShown (Step kind) (S.facts store.old) (S.facts store.new) (broken.new || (S.facts store.new).spoilt)
        (S.means store.old (H.state host.old)) (S.means store.new (H.state host.new)) (H.state host.old) (H.state host.new) moment result }
    ensures cause { HasStoreCause (H.state host.old) (H.state host.new) result }
{
    if gives_up(kind) {
        return Ok(Reply::Turned(Turned::Idle));
    }
    match store.step(host, moment, kind) {
        Ok(turned) => Ok(Reply::Turned(turned)),
        Err(fault) => {
            *broken = true;
            Err(fault)
        }
    }
}
