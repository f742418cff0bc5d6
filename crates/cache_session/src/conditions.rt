// Commands that change a key where something holds of it.
ghost use Rattle.std.specs.Prelude.{◌≡◌, false, IsTrue, Some, None, option_map, if◌then◌else◌};
ghost use Rattle.std.specs.Str.{bytes_eq};
ghost use Rattle.cache_disk.specs.Calls.{HasStoreCause};
ghost use Rattle.cache_model.specs.Commands.{IsLifespan};
ghost use Rattle.cache_model.specs.declared.commands.Command.TheVariants.{PutAbsent, Replace, ReplaceIf, Remove, RemoveIf};
ghost use Rattle.cache_model.specs.declared.replies.Reply.TheVariants.{Differs};
ghost use Rattle.store_trait.specs.Meaning.{IsChange, key_of};
ghost use Rattle.store_trait.specs.Calls.{IsReady, Plainly};
ghost use Rattle.cache_session.specs.Conditions.{refusal, WroteWhere};
ghost use Rattle.cache_session.specs.Turns.{TurnsShown};

use crate::calls::{apply, peek};
use crate::writes::put_of;
use cache_disk::Host;
use cache_model::{Change, Entry, Key, Lifespan, Reply, StoreFault, Value};
use store_trait::Store;

/// What is to hold of a key for its change to be made.
#[derive(Debug, Drop)]
pub(crate) enum Condition {
    /// It isn't visible.
    Unseen,
    /// It is visible.
    Visible,
    /// It is visible with this value.
    HasValue(Value),
}

/// Why the condition doesn't hold of a key's visible entry. None where it holds.
fn refusal(condition: &Condition, entry: Option<&Entry>) -> Option<Reply>
    ensures { result ≡ refusal condition.now (option_map (λ e. e.now) entry.entry) }
{
    match (condition, entry) {
        (Condition::Unseen, None) | (Condition::Visible, Some(_)) => None,
        (Condition::Unseen, Some(_)) => Some(Reply::Kept),
        (Condition::Visible | Condition::HasValue(_), None) => Some(Reply::Nothing),
        (Condition::HasValue(value), Some(entry)) => differs(value, &entry.value),
    }
}

/// The refusal where a value isn't the wanted one.
fn differs(wanted: &Value, value: &Value) -> Option<Reply>
    ensures { result ≡ (if bytes_eq value.now wanted.now then None else Some Differs) }
{
    if value.bytes() == wanted.bytes() {
        None
    } else {
        Some(Reply::Differs)
    }
}

/// The key of a change.
pub(crate) fn key_of(change: &Change) -> &Key
    ensures { result.now ≡ key_of change.now }
{
    match change {
        Change::Put(key, _) | Change::Remove(key) => key,
    }
}

/// Makes a change where the condition holds of its key.
fn write_where<H: Host, S: Store<H>>(
    store: &mut S,
    host: &mut H,
    condition: &Condition,
    change: &Change,
    moment: u64,
) -> Result<Reply, StoreFault>
    requires ready { IsReady (S.facts store.old) moment }
    requires stands { IsTrue H.tells → (S.means store.old (H.state host.old)).stands }
    requires change { IsChange change.now }
    ensures plain { Plainly (S.facts store.old) (S.facts store.new) moment result }
    ensures wrote { IsTrue H.tells → WroteWhere condition.now change.now (S.facts store.old) (S.facts store.new) (S.facts store.new).spoilt
        (S.means store.old (H.state host.old)) (S.means store.new (H.state host.new)) (H.state host.old) (H.state host.new) moment result }
    ensures cause { HasStoreCause (H.state host.old) (H.state host.new) result }
{
    let entry = match peek(store, host, key_of(change), moment) {
        Ok(entry) => entry,
        Err(fault) => return Err(fault),
    };
    match refusal(condition, entry.as_ref()) {
        Some(reply) => Ok(reply),
        None => match apply(store, host, change, moment) {
            Ok(()) => Ok(Reply::Done),
            Err(fault) => Err(fault),
        },
    }
}

/// Puts a value under a key, where it isn't visible.
pub(crate) fn put_absent<H: Host, S: Store<H>>(
    store: &mut S,
    host: &mut H,
    key: Key,
    value: Value,
    lifespan: Lifespan,
    moment: u64,
) -> Result<Reply, StoreFault>
    requires ready { IsReady (S.facts store.old) moment }
    requires stands { IsTrue H.tells → (S.means store.old (H.state host.old)).stands }
    requires lifespan { IsLifespan lifespan }
    ensures plain { Plainly (S.facts store.old) (S.facts store.new) moment result }
    ensures stands { IsTrue H.tells → (S.facts store.new).spoilt ≡ false → (S.means store.new (H.state host.new)).stands }
    ensures turns { IsTrue H.tells → TurnsShown (PutAbsent key value lifespan) (S.facts store.old) (S.facts store.new) (S.facts store.new).spoilt
        (S.means store.old (H.state host.old)) (S.means store.new (H.state host.new)) (H.state host.old) (H.state host.new) moment result }
    ensures cause { HasStoreCause (H.state host.old) (H.state host.new) result }
{
    let change = put_of(key, value, lifespan, moment);
    write_where(store, host, &Condition::Unseen, &change, moment)
}

/// Puts a value under a key, where it is visible.
pub(crate) fn replace<H: Host, S: Store<H>>(
    store: &mut S,
    host: &mut H,
    key: Key,
    value: Value,
    lifespan: Lifespan,
    moment: u64,
) -> Result<Reply, StoreFault>
    requires ready { IsReady (S.facts store.old) moment }
    requires stands { IsTrue H.tells → (S.means store.old (H.state host.old)).stands }
    requires lifespan { IsLifespan lifespan }
    ensures plain { Plainly (S.facts store.old) (S.facts store.new) moment result }
    ensures stands { IsTrue H.tells → (S.facts store.new).spoilt ≡ false → (S.means store.new (H.state host.new)).stands }
    ensures turns { IsTrue H.tells → TurnsShown (Replace key value lifespan) (S.facts store.old) (S.facts store.new) (S.facts store.new).spoilt
        (S.means store.old (H.state host.old)) (S.means store.new (H.state host.new)) (H.state host.old) (H.state host.new) moment result }
    ensures cause { HasStoreCause (H.state host.old) (H.state host.new) result }
{
    let change = put_of(key, value, lifespan, moment);
    write_where(store, host, &Condition::Visible, &change, moment)
}

/// Puts a value under a key, where it is visible with the old one.
pub(crate) fn replace_if<H: Host, S: Store<H>>(
    store: &mut S,
    host: &mut H,
    key: Key,
    old: Value,
    value: Value,
    lifespan: Lifespan,
    moment: u64,
) -> Result<Reply, StoreFault>
    requires ready { IsReady (S.facts store.old) moment }
    requires stands { IsTrue H.tells → (S.means store.old (H.state host.old)).stands }
    requires lifespan { IsLifespan lifespan }
    ensures plain { Plainly (S.facts store.old) (S.facts store.new) moment result }
    ensures stands { IsTrue H.tells → (S.facts store.new).spoilt ≡ false → (S.means store.new (H.state host.new)).stands }
    ensures turns { IsTrue H.tells → TurnsShown (ReplaceIf key old value lifespan) (S.facts store.old) (S.facts store.new) (S.facts store.new).spoilt
        (S.means store.old (H.state host.old)) (S.means store.new (H.state host.new)) (H.state host.old) (H.state host.new) moment result }
    ensures cause { HasStoreCause (H.state host.old) (H.state host.new) result }
{
    let change = put_of(key, value, lifespan, moment);
    write_where(store, host, &Condition::HasValue(old), &change, moment)
}

/// Removes a key, where it is visible.
pub(crate) fn remove<H: Host, S: Store<H>>(
    store: &mut S,
    host: &mut H,
    key: Key,
    moment: u64,
) -> Result<Reply, StoreFault>
    requires ready { IsReady (S.facts store.old) moment }
    requires stands { IsTrue H.tells → (S.means store.old (H.state host.old)).stands }
    ensures plain { Plainly (S.facts store.old) (S.facts store.new) moment result }
    ensures stands { IsTrue H.tells → (S.facts store.new).spoilt ≡ false → (S.means store.new (H.state host.new)).stands }
    ensures turns { IsTrue H.tells → TurnsShown (Remove key) (S.facts store.old) (S.facts store.new) (S.facts store.new).spoilt
        (S.means store.old (H.state host.old)) (S.means store.new (H.state host.new)) (H.state host.old) (H.state host.new) moment result }
    ensures cause { HasStoreCause (H.state host.old) (H.state host.new) result }
{
    let change = Change::Remove(key);
    write_where(store, host, &Condition::Visible, &change, moment)
}

/// Removes a key, where it is visible with this value.
pub(crate) fn remove_if<H: Host, S: Store<H>>(
    store: &mut S,
    host: &mut H,
    key: Key,
    old: Value,
    moment: u64,
) -> Result<Reply, StoreFault>
    requires ready { IsReady (S.facts store.old) moment }
    requires stands { IsTrue H.tells → (S.means store.old (H.state host.old)).stands }
    ensures plain { Plainly (S.facts store.old) (S.facts store.new) moment result }
    ensures stands { IsTrue H.tells → (S.facts store.new).spoilt ≡ false → (S.means store.new (H.state host.new)).stands }
    ensures turns { IsTrue H.tells → TurnsShown (RemoveIf key old) (S.facts store.old) (S.facts store.new) (S.facts store.new).spoilt
        (S.means store.old (H.state host.old)) (S.means store.new (H.state host.new)) (H.state host.old) (H.state host.new) moment result }
    ensures cause { HasStoreCause (H.state host.old) (H.state host.new) result }
{
    let change = Change::Remove(key);
    write_where(store, host, &Condition::HasValue(old), &change, moment)
}
