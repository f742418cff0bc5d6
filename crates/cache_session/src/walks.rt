// Walks over the visible keys.
ghost use Rattle.std.specs.Prelude.{◌≡◌, ◌||◌, IsTrue, OnOk, false, option_map};
ghost use Rattle.cache_disk.specs.Calls.{HasStoreCause};
ghost use Rattle.cache_model.specs.declared.commands.Command.TheVariants.{Clear, Size, Keys};
ghost use Rattle.store_trait.specs.Meaning.{key_of};
ghost use Rattle.store_trait.specs.Calls.{IsReady, Plainly};
ghost use Rattle.cache_session.specs.Turns.{TurnsShown};
ghost use Rattle.cache_session.specs.Walks.{ClearedOne, WalkedOne, ListedOne};

use crate::calls::{apply, first};
use cache_disk::Host;
use cache_model::{Change, Key, KeyList, Reply, StoreFault};
use std::alloc::Global;
use store_trait::Store;

/// The key of a change.
fn into_key(change: Change) -> Key
    ensures { result ≡ key_of change }
{
    match change {
        Change::Put(key, _) => key,
        Change::Remove(key) => key,
    }
}

/// Removes the first visible key behind another, and puts it in that one's place. False where there is none.
fn clear_one<H: Host, S: Store<H>>(
    store: &mut S,
    host: &mut H,
    after: &mut Option<Key>,
    moment: u64,
) -> Result<bool, StoreFault>
    requires ready { IsReady (S.facts store.old) moment }
    requires stands { IsTrue H.tells → (S.means store.old (H.state host.old)).stands }
    ensures plain { Plainly (S.facts store.old) (S.facts store.new) moment result }
    ensures cleared { IsTrue H.tells → ClearedOne after.old after.new (S.facts store.old) (S.facts store.new)
        (S.means store.old (H.state host.old)) (S.means store.new (H.state host.new)) (H.state host.old) (H.state host.new) moment result }
    ensures cause { HasStoreCause (H.state host.old) (H.state host.new) result }
{
    let next = match first(store, host, after.as_ref(), moment) {
        Ok(next) => next,
        Err(fault) => return Err(fault),
    };
    let Some(key) = next else {
        return Ok(false);
    };
    let change = Change::Remove(key);
    match apply(store, host, &change, moment) {
        Ok(()) => {
            *after = Some(into_key(change));
            Ok(true)
        }
        Err(fault) => Err(fault),
    }
}

/// Removes each visible key. Where that stops halfway `broken` says so.
pub(crate) fn clear<H: Host, S: Store<H>>(
    store: &mut S,
    host: &mut H,
    broken: &mut bool,
    moment: u64,
) -> Result<Reply, StoreFault>
    requires ready { IsReady (S.facts store.old) moment }
    requires stands { IsTrue H.tells → (S.means store.old (H.state host.old)).stands }
    requires whole { broken.old ≡ false }
    ensures plain { Plainly (S.facts store.old) (S.facts store.new) moment result }
    ensures whole { OnOk result (broken.new ≡ false) }
    ensures stands { IsTrue H.tells → (broken.new || (S.facts store.new).spoilt) ≡ false → (S.means store.new (H.state host.new)).stands }
    ensures turns { IsTrue H.tells → TurnsShown Clear (S.facts store.old) (S.facts store.new) (broken.new || (S.facts store.new).spoilt)
        (S.means store.old (H.state host.old)) (S.means store.new (H.state host.new)) (H.state host.old) (H.state host.new) moment result }
    ensures cause { HasStoreCause (H.state host.old) (H.state host.new) result }
{
    let mut after: Option<Key> = None;
    for count in 0..u64::MAX {
        match clear_one(store, host, &mut after, moment) {
            Ok(true) => {}
            Ok(false) => return Ok(Reply::Cleared(count)),
            Err(fault) => {
                *broken = true;
                return Err(fault);
            }
        }
    }
    *broken = true;
    Err(StoreFault::Memory)
}

/// Puts the first visible key behind another in that one's place. False where there is none.
fn walk_one<H: Host, S: Store<H>>(
    store: &mut S,
    host: &mut H,
    after: &mut Option<Key>,
    moment: u64,
) -> Result<bool, StoreFault>
    requires ready { IsReady (S.facts store.old) moment }
    requires stands { IsTrue H.tells → (S.means store.old (H.state host.old)).stands }
    ensures plain { Plainly (S.facts store.old) (S.facts store.new) moment result }
    ensures walked { IsTrue H.tells → WalkedOne after.old after.new (S.facts store.old) (S.facts store.new)
        (S.means store.old (H.state host.old)) (S.means store.new (H.state host.new)) (H.state host.old) (H.state host.new) moment result }
    ensures cause { HasStoreCause (H.state host.old) (H.state host.new) result }
{
    match first(store, host, after.as_ref(), moment) {
        Ok(Some(key)) => {
            *after = Some(key);
            Ok(true)
        }
        Ok(None) => Ok(false),
        Err(fault) => Err(fault),
    }
}

/// Counts the visible keys.
pub(crate) fn size<H: Host, S: Store<H>>(
    store: &mut S,
    host: &mut H,
    moment: u64,
) -> Result<Reply, StoreFault>
    requires ready { IsReady (S.facts store.old) moment }
    requires stands { IsTrue H.tells → (S.means store.old (H.state host.old)).stands }
    ensures plain { Plainly (S.facts store.old) (S.facts store.new) moment result }
    ensures stands { IsTrue H.tells → (S.facts store.new).spoilt ≡ false → (S.means store.new (H.state host.new)).stands }
    ensures turns { IsTrue H.tells → TurnsShown Size (S.facts store.old) (S.facts store.new) (S.facts store.new).spoilt
        (S.means store.old (H.state host.old)) (S.means store.new (H.state host.new)) (H.state host.old) (H.state host.new) moment result }
    ensures cause { HasStoreCause (H.state host.old) (H.state host.new) result }
{
    let mut after: Option<Key> = None;
    for count in 0..u64::MAX {
        match walk_one(store, host, &mut after, moment) {
            Ok(true) => {}
            Ok(false) => return Ok(Reply::Size(count)),
            Err(fault) => return Err(fault),
        }
    }
    Err(StoreFault::Memory)
}

/// Adds the first visible key behind the last of a list to it. False where there is none.
fn list_one<H: Host, S: Store<H>>(
    store: &mut S,
    host: &mut H,
    list: &mut KeyList,
    moment: u64,
) -> Result<bool, StoreFault>
    requires ready { IsReady (S.facts store.old) moment }
    requires stands { IsTrue H.tells → (S.means store.old (H.state host.old)).stands }
    ensures plain { Plainly (S.facts store.old) (S.facts store.new) moment result }
    ensures listed { IsTrue H.tells → ListedOne list.old list.new (S.facts store.old) (S.facts store.new)
        (S.means store.old (H.state host.old)) (S.means store.new (H.state host.new)) (H.state host.old) (H.state host.new) moment result }
    ensures cause { HasStoreCause (H.state host.old) (H.state host.new) result }
{
    match first(store, host, list.keys().last(), moment) {
        Ok(Some(key)) => match list.push(key) {
            Ok(()) => Ok(true),
            Err(_) => Err(StoreFault::Memory),
        },
        Ok(None) => Ok(false),
        Err(fault) => Err(fault),
    }
}

/// The visible keys, in the order of their bytes.
pub(crate) fn keys<H: Host, S: Store<H>>(
    store: &mut S,
    host: &mut H,
    alloc: Global,
    moment: u64,
) -> Result<Reply, StoreFault>
    requires ready { IsReady (S.facts store.old) moment }
    requires stands { IsTrue H.tells → (S.means store.old (H.state host.old)).stands }
    ensures plain { Plainly (S.facts store.old) (S.facts store.new) moment result }
    ensures stands { IsTrue H.tells → (S.facts store.new).spoilt ≡ false → (S.means store.new (H.state host.new)).stands }
    ensures turns { IsTrue H.tells → TurnsShown Keys (S.facts store.old) (S.facts store.new) (S.facts store.new).spoilt
        (S.means store.old (H.state host.old)) (S.means store.new (H.state host.new)) (H.state host.old) (H.state host.new) moment result }
    ensures cause { HasStoreCause (H.state host.old) (H.state host.new) result }
{
    let mut list = KeyList::new(alloc);
    for _ in 0..u64::MAX {
        match list_one(store, host, &mut list, moment) {
            Ok(true) => {}
            Ok(false) => {
                list.sort();
                return Ok(Reply::Keys(list));
            }
            Err(fault) => return Err(fault),
        }
    }
    Err(StoreFault::Memory)
}
