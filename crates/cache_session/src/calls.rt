// The calls of a store, by the changes that they make.
ghost use Rattle.std.specs.Prelude.{◌≡◌, IsTrue, IfOk, OnOk, [], ◌∷◌, List, ℕ, option_map};
ghost use Rattle.cache_disk.specs.Calls.{HasStoreCause};
ghost use Rattle.store_trait.specs.Meaning.{IsChange, read_in, seen};
ghost use Rattle.store_trait.specs.Keeping.{IsOnly};
ghost use Rattle.store_trait.specs.Calls.{IsReady, Plainly, IsNextKey};
ghost use Rattle.cache_session.specs.Turns.{Did, by_changes, by_sync};

use cache_disk::Host;
use cache_model::{Answer, Change, Entry, Key, StoreFault};
use store_trait::Store;

/// The visible entry of a key.
pub(crate) fn peek<H: Host, S: Store<H>>(
    store: &mut S,
    host: &mut H,
    key: &Key,
    moment: u64,
) -> Result<Option<Entry>, StoreFault>
    requires ready { IsReady (S.facts store.old) moment }
    requires stands { IsTrue H.tells → (S.means store.old (H.state host.old)).stands }
    ensures plain { Plainly (S.facts store.old) (S.facts store.new) moment result }
    ensures did { IsTrue H.tells → Did by_changes (S.facts store.old) (S.facts store.new) (S.facts store.new).spoilt
        (S.means store.old (H.state host.old)) (S.means store.new (H.state host.new)) (H.state host.old) (H.state host.new) moment [] result }
    ensures entry { IsTrue H.tells → IfOk result (λ entry. entry ≡ seen moment (read_in (S.means store.old (H.state host.old)).content key.now)) }
    ensures cause { HasStoreCause (H.state host.old) (H.state host.new) result }
{
    match store.load(host, key, moment) {
        Ok(Answer::Known(entry)) => Ok(Some(entry)),
        Ok(Answer::Gone | Answer::Unknown) => Ok(None),
        Err(fault) => Err(fault),
    }
}

/// Makes a change.
pub(crate) fn apply<H: Host, S: Store<H>>(
    store: &mut S,
    host: &mut H,
    change: &Change,
    moment: u64,
) -> Result<(), StoreFault>
    requires ready { IsReady (S.facts store.old) moment }
    requires stands { IsTrue H.tells → (S.means store.old (H.state host.old)).stands }
    requires change { IsChange change.now }
    ensures plain { Plainly (S.facts store.old) (S.facts store.new) moment result }
    ensures did { IsTrue H.tells → Did by_changes (S.facts store.old) (S.facts store.new) (S.facts store.new).spoilt
        (S.means store.old (H.state host.old)) (S.means store.new (H.state host.new)) (H.state host.old) (H.state host.new) moment (change.now ∷ []) result }
    ensures cause { HasStoreCause (H.state host.old) (H.state host.new) result }
{
    store.write(host, change, moment)
}

/// Makes what the store has outlast a crash.
pub(crate) fn settle<H: Host, S: Store<H>>(
    store: &mut S,
    host: &mut H,
    moment: u64,
) -> Result<(), StoreFault>
    requires ready { IsReady (S.facts store.old) moment }
    requires stands { IsTrue H.tells → (S.means store.old (H.state host.old)).stands }
    ensures plain { Plainly (S.facts store.old) (S.facts store.new) moment result }
    ensures did { IsTrue H.tells → Did by_sync (S.facts store.old) (S.facts store.new) (S.facts store.new).spoilt
        (S.means store.old (H.state host.old)) (S.means store.new (H.state host.new)) (H.state host.old) (H.state host.new) moment [] result }
    ensures settled { IsTrue H.tells → OnOk result ((key : List ℕ) → IsOnly (S.facts store.new) (S.means store.new (H.state host.new)) (H.state host.new).turn key) }
    ensures cause { HasStoreCause (H.state host.old) (H.state host.new) result }
{
    store.sync(host, moment)
}

/// The first visible key behind another in walk order, or the first of all.
pub(crate) fn first<H: Host, S: Store<H>>(
    store: &mut S,
    host: &mut H,
    after: Option<&Key>,
    moment: u64,
) -> Result<Option<Key>, StoreFault>
    requires ready { IsReady (S.facts store.old) moment }
    requires stands { IsTrue H.tells → (S.means store.old (H.state host.old)).stands }
    ensures plain { Plainly (S.facts store.old) (S.facts store.new) moment result }
    ensures did { IsTrue H.tells → Did by_changes (S.facts store.old) (S.facts store.new) (S.facts store.new).spoilt
        (S.means store.old (H.state host.old)) (S.means store.new (H.state host.new)) (H.state host.old) (H.state host.new) moment [] result }
    ensures next { IsTrue H.tells → IfOk result (λ next. IsNextKey (S.facts store.old).bits moment (S.means store.old (H.state host.old)).content (option_map (λ key. key.now) after.entry) next) }
    ensures cause { HasStoreCause (H.state host.old) (H.state host.new) result }
{
    store.next_key(host, after, moment)
}
