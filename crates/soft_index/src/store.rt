// A store over the data files of a directory, with an index of its records.
ghost use Rattle.std.specs.Prelude.{◌≡◌, ◌+◌, ◌<◌, [], ℕ, List, length, false, if◌then◌else◌, IsTrue, IfOk, OnErr, OnOk, IsErrOf, option_map, true};
ghost use Rattle.cache_model.specs.declared.faults.StoreFault.TheVariants as fault;
ghost use Rattle.cache_model.specs.declared.faults.Spent.{Spent};
ghost use Rattle.cache_model.specs.declared.commands.StepKind.TheVariants.{Index, Rotate};
ghost use Rattle.cache_model.specs.Items.{Item};
ghost use Rattle.cache_model.specs.DataFiles.{Frame};
ghost use Rattle.cache_model.specs.Images.{log_name};
ghost use Rattle.cache_disk.specs.State.{SameBut};
ghost use Rattle.cache_disk.specs.State.{Stands as IsSame};
ghost use Rattle.append_log.specs.Current as append;
ghost use Rattle.cache_disk.specs.Calls.{HasStoreCause};
ghost use Rattle.compactor.specs.Stepping.{Pops};
ghost use Rattle.store_trait.specs.Meaning.{Content, IsChange};
ghost use Rattle.store_trait.specs.Keeping.{SameContent};
ghost use Rattle.store_trait.specs.Calls.{Acts, DrawsBy, DrawsNone, DrawsOne, Figured, IsReady, Loaded, Plainly, Stepped, SyncedStore, Walked, Written};
ghost use Rattle.soft_index.specs.Growing.{Grows};
ghost use Rattle.soft_index.specs.Store.{IsSpentBy, IsWritten, LogStands, MakesRoom, Rotates, closed_frames, content_of, log_facts, log_means, next_file, number, spent_by, waiting, writer};
ghost use Rattle.soft_index.specs.Laws.{log_holds, log_carries};

use crate::log_store::LogStore;
use crate::reading::answer_by;
use crate::walking::next_shown;
use crate::writing::put;
use cache_disk::Host;
use cache_model::{Answer, Change, Key, StepKind, StoreFault, Turned};
use compactor::count_written;
use store_trait::{Keyed, ReadStore, Store};

impl Keyed for LogStore {
    ghost facts = { log_facts };

    ghost means = { log_means };

    fn hash_bits(&self) -> u32 {
        self.parts.tree.hash_bits()
    }

    fn is_spoilt(&self) -> bool {
        self.parts.spoilt
    }
}

impl LogStore {
    /// The greatest moment of its calls, or its mark.
    pub(crate) fn latest(&self) -> u64
        ensures { result ≡ (log_facts self.now).latest }
    {
        self.latest
    }

    /// Counts the data files, once the index was told of all that waits for it.
    pub(crate) fn figures<H: Host>(
        &mut self,
        host: &mut H,
        moment: u64,
    ) -> Result<(u64, u64, u64), StoreFault>
        requires ready { IsReady (log_facts self.old) moment }
        requires stands { IsTrue H.tells → (log_means self.old (H.state host.old)).stands }
        ensures plain { Plainly (log_facts self.old) (log_facts self.new) moment result }
        ensures spoilt { OnErr result ((log_facts self.new).spoilt ≡ true) }
        ensures draws { DrawsNone (log_facts self.old) (log_facts self.new) }
        ensures told { IsTrue H.tells → Figured (log_facts self.old) (log_facts self.new)
            (log_means self.old (H.state host.old)) (log_means self.new (H.state host.new)) (H.state host.old) (H.state host.new) moment result }
        ensures cause { HasStoreCause (H.state host.old) (H.state host.new) result }
        ensures grows { IsTrue H.tells → self.new.parts.spoilt ≡ false → Grows self.old self.new (H.state host.old) (H.state host.new) }
    {
        self.latest = moment;
        if let Err(fault) = self.parts.empty_queue(host) {
            self.parts.spoilt = true;
            return Err(fault);
        }
        Ok(self.parts.stats.totals())
    }
}

impl<H: Host> ReadStore<H> for LogStore {
    fn load(&mut self, host: &mut H, key: &Key, moment: u64) -> Result<Answer, StoreFault>
        requires ready { IsReady (log_facts self.old) moment }
        requires stands { IsTrue H.tells → (log_means self.old (H.state host.old)).stands }
        ensures plain { Plainly (log_facts self.old) (log_facts self.new) moment result }
        ensures draws { DrawsNone (log_facts self.old) (log_facts self.new) }
        ensures told { IsTrue H.tells → Loaded key.now (log_facts self.old) (log_facts self.new)
            (log_means self.old (H.state host.old)) (log_means self.new (H.state host.new)) (H.state host.old) (H.state host.new) moment result }
        ensures cause { HasStoreCause (H.state host.old) (H.state host.new) result }
        ensures grows { IsTrue H.tells → self.new.parts.spoilt ≡ false → Grows self.old self.new (H.state host.old) (H.state host.new) }
    {
        self.latest = moment;
        match self.parts.record_of(host, key) {
            Ok(found) => Ok(answer_by(found, moment)),
            Err(fault) => Err(fault),
        }
    }

    fn next_key(
        &mut self,
        host: &mut H,
        after: Option<&Key>,
        moment: u64,
    ) -> Result<Option<Key>, StoreFault>
        requires ready { IsReady (log_facts self.old) moment }
        requires stands { IsTrue H.tells → (log_means self.old (H.state host.old)).stands }
        ensures plain { Plainly (log_facts self.old) (log_facts self.new) moment result }
        ensures draws { DrawsNone (log_facts self.old) (log_facts self.new) }
        ensures told { IsTrue H.tells → Walked (option_map (λ key. key.now) after.entry) (log_facts self.old) (log_facts self.new)
            (log_means self.old (H.state host.old)) (log_means self.new (H.state host.new)) (H.state host.old) (H.state host.new) moment result }
        ensures cause { HasStoreCause (H.state host.old) (H.state host.new) result }
        ensures grows { IsTrue H.tells → self.new.parts.spoilt ≡ false → Grows self.old self.new (H.state host.old) (H.state host.new) }
    {
        self.latest = moment;
        next_shown(&mut self.parts, host, after, moment)
    }

    ghost holds_now = { λ store host told sound stands. log_holds store (H.state host) stands.0 stands.1 sound stands.2 };

    ghost frame = { λ store host later told leaves. log_carries store (H.state host) (H.state later) leaves };
}

impl<H: Host> Store<H> for LogStore {
    fn write(&mut self, host: &mut H, change: &Change, moment: u64) -> Result<(), StoreFault>
        requires ready { IsReady (log_facts self.old) moment }
        requires stands { IsTrue H.tells → (log_means self.old (H.state host.old)).stands }
        requires change { IsChange change.now }
        ensures plain { Plainly (log_facts self.old) (log_facts self.new) moment result }
        ensures draws { DrawsOne (log_facts self.old) (log_facts self.new) result }
        ensures told { IsTrue H.tells → Written change.now (log_facts self.old) (log_facts self.new)
            (log_means self.old (H.state host.old)) (log_means self.new (H.state host.new)) (H.state host.old) (H.state host.new) moment result }
        ensures cause { HasStoreCause (H.state host.old) (H.state host.new) result }
        ensures spent { IsSpentBy (spent_by self.old change.now) result }
        ensures wrote { IsTrue H.tells → (frames : List Frame) (records : List Item) → LogStands self.old (H.state host.old) frames records
            → OnOk result (IsWritten change.now moment frames records self.old self.new (H.state host.new)) }
        ensures grows { IsTrue H.tells → self.new.parts.spoilt ≡ false → Grows self.old self.new (H.state host.old) (H.state host.new) }
    {
        if let Some(spent) = self.parts.log.spent_by(change) {
            self.latest = moment;
            self.parts.spoilt = true;
            return Err(StoreFault::Spent(spent));
        }
        if let Err(fault) = make_room(self, host, moment) {
            return Err(fault);
        }
        enter(self, host, change, moment)
    }

    fn sync(&mut self, host: &mut H, moment: u64) -> Result<(), StoreFault>
        requires ready { IsReady (log_facts self.old) moment }
        requires stands { IsTrue H.tells → (log_means self.old (H.state host.old)).stands }
        ensures plain { Plainly (log_facts self.old) (log_facts self.new) moment result }
        ensures draws { DrawsNone (log_facts self.old) (log_facts self.new) }
        ensures told { IsTrue H.tells → SyncedStore (log_facts self.old) (log_facts self.new)
            (log_means self.old (H.state host.old)) (log_means self.new (H.state host.new)) (H.state host.old) (H.state host.new) moment result }
        ensures cause { HasStoreCause (H.state host.old) (H.state host.new) result }
        ensures grows { IsTrue H.tells → self.new.parts.spoilt ≡ false → Grows self.old self.new (H.state host.old) (H.state host.new) }
    {
        seal(self, host, moment)
    }

    fn step(&mut self, host: &mut H, moment: u64, kind: StepKind) -> Result<Turned, StoreFault>
        requires ready { IsReady (log_facts self.old) moment }
        requires stands { IsTrue H.tells → (log_means self.old (H.state host.old)).stands }
        ensures plain { Plainly (log_facts self.old) (log_facts self.new) moment result }
        ensures draws { DrawsBy kind (log_facts self.old) (log_facts self.new) result }
        ensures told { IsTrue H.tells → Stepped kind (log_facts self.old) (log_facts self.new)
            (log_means self.old (H.state host.old)) (log_means self.new (H.state host.new)) (H.state host.old) (H.state host.new) moment result }
        ensures cause { HasStoreCause (H.state host.old) (H.state host.new) result }
        ensures grows { IsTrue H.tells → self.new.parts.spoilt ≡ false → Grows self.old self.new (H.state host.old) (H.state host.new) }
    {
        if let StepKind::Rotate = kind {
            return rotate(self, host, moment);
        }
        if let StepKind::Index = kind {
            return index(self, host, moment);
        }
        self.latest = moment;
        Ok(Turned::Idle)
    }
}

// Applies the oldest request to the index.
fn index<H: Host>(store: &mut LogStore, host: &mut H, moment: u64) -> Result<Turned, StoreFault>
    requires ready { IsReady (log_facts store.old) moment }
    requires stands { IsTrue H.tells → (log_means store.old (H.state host.old)).stands }
    ensures plain { Plainly (log_facts store.old) (log_facts store.new) moment result }
    ensures draws { DrawsNone (log_facts store.old) (log_facts store.new) }
    ensures log { store.new.parts.spoilt ≡ false → append.files_of store.new.parts.log ≡ append.files_of store.old.parts.log }
    ensures limit { store.new.parts.requests.limit ≡ store.old.parts.requests.limit }
    ensures latest { store.new.latest ≡ moment }
    ensures popped { IfOk result (λ turned. Pops turned store.old.parts.requests.waiting store.new.parts.requests.waiting) }
    ensures waits { OnErr result (store.new.parts.spoilt ≡ false → store.new.parts.requests.waiting ≡ store.old.parts.requests.waiting) }
    ensures unspent { (s : Spent) → IsErrOf result (fault.Spent s) → ⊥ }
    ensures still { IsTrue H.tells → IsSame (H.state host.old) (H.state host.new) }
    ensures kept { IsTrue H.tells → store.new.parts.spoilt ≡ false → (frames : List Frame) (records : List Item) → LogStands store.old (H.state host.old) frames records → LogStands store.new (H.state host.new) frames records }
    ensures acts { IsTrue H.tells → (wanted : Content) → Acts (log_facts store.old) (log_facts store.new)
        (log_means store.old (H.state host.old)) (log_means store.new (H.state host.new)) (H.state host.old) (H.state host.new) moment wanted result }
    ensures told { IsTrue H.tells → Stepped Index (log_facts store.old) (log_facts store.new)
        (log_means store.old (H.state host.old)) (log_means store.new (H.state host.new)) (H.state host.old) (H.state host.new) moment result }
    ensures cause { HasStoreCause (H.state host.old) (H.state host.new) result }
{
    store.latest = moment;
    store.parts.index_step(host)
}

/// Sees to it that the queue has room for one request more: where it is full, the oldest is applied to the index.
pub(crate) fn make_room<H: Host>(
    store: &mut LogStore,
    host: &mut H,
    moment: u64,
) -> Result<(), StoreFault>
    requires ready { IsReady (log_facts store.old) moment }
    requires stands { IsTrue H.tells → (log_means store.old (H.state host.old)).stands }
    ensures plain { Plainly (log_facts store.old) (log_facts store.new) moment result }
    ensures draws { DrawsNone (log_facts store.old) (log_facts store.new) }
    ensures log { store.new.parts.spoilt ≡ false → append.files_of store.new.parts.log ≡ append.files_of store.old.parts.log }
    ensures limit { store.new.parts.requests.limit ≡ store.old.parts.requests.limit }
    ensures latest { store.new.latest ≡ moment }
    ensures room { OnOk result (length store.new.parts.requests.waiting < store.new.parts.requests.limit) }
    ensures rows { store.new.parts.spoilt ≡ false → MakesRoom store.old.parts.requests.limit (log_facts store.old).parts (log_facts store.new).parts }
    ensures unspent { (s : Spent) → IsErrOf result (fault.Spent s) → ⊥ }
    ensures still { IsTrue H.tells → IsSame (H.state host.old) (H.state host.new) }
    ensures kept { IsTrue H.tells → store.new.parts.spoilt ≡ false → (frames : List Frame) (records : List Item) → LogStands store.old (H.state host.old) frames records → LogStands store.new (H.state host.new) frames records }
    ensures content { IsTrue H.tells → store.new.parts.spoilt ≡ false → SameContent (content_of store.old (H.state host.old).files) (content_of store.new (H.state host.new).files) }
    ensures told { IsTrue H.tells → (wanted : Content) → Acts (log_facts store.old) (log_facts store.new)
        (log_means store.old (H.state host.old)) (log_means store.new (H.state host.new)) (H.state host.old) (H.state host.new) moment wanted result }
    ensures cause { HasStoreCause (H.state host.old) (H.state host.new) result }
{
    if !store.parts.requests.is_full() {
        store.latest = moment;
        return Ok(());
    }
    match index(store, host, moment) {
        Ok(_) => Ok(()),
        Err(fault) => Err(fault),
    }
}

// Writes a change for which the queue has room, and syncs it, where changes are synced at once.
fn enter<H: Host>(
    store: &mut LogStore,
    host: &mut H,
    change: &Change,
    moment: u64,
) -> Result<(), StoreFault>
    requires ready { IsReady (log_facts store.old) moment }
    requires room { length store.old.parts.requests.waiting < store.old.parts.requests.limit }
    requires stands { IsTrue H.tells → (log_means store.old (H.state host.old)).stands }
    requires change { IsChange change.now }
    ensures plain { Plainly (log_facts store.old) (log_facts store.new) moment result }
    ensures draws { DrawsOne (log_facts store.old) (log_facts store.new) result }
    ensures told { IsTrue H.tells → Written change.now (log_facts store.old) (log_facts store.new)
        (log_means store.old (H.state host.old)) (log_means store.new (H.state host.new)) (H.state host.old) (H.state host.new) moment result }
    ensures cause { HasStoreCause (H.state host.old) (H.state host.new) result }
    ensures grows { IsTrue H.tells → store.new.parts.spoilt ≡ false → Grows store.old store.new (H.state host.old) (H.state host.new) }
    ensures spent { IsSpentBy (spent_by store.old change.now) result }
    ensures wrote { IsTrue H.tells → (frames : List Frame) (records : List Item) → LogStands store.old (H.state host.old) frames records
        → OnOk result (IsWritten change.now moment frames records store.old store.new (H.state host.new)) }
{
    if let Err(fault) = put(store, host, change, moment) {
        return Err(fault);
    }
    if !store.sync_writes {
        return Ok(());
    }
    if let Err(fault) = seal(store, host, moment) {
        store.parts.spoilt = true;
        return Err(fault);
    }
    Ok(())
}

// Seals what was written.
fn seal<H: Host>(store: &mut LogStore, host: &mut H, moment: u64) -> Result<(), StoreFault>
    requires ready { IsReady (log_facts store.old) moment }
    requires stands { IsTrue H.tells → (log_means store.old (H.state host.old)).stands }
    ensures plain { Plainly (log_facts store.old) (log_facts store.new) moment result }
    ensures draws { DrawsNone (log_facts store.old) (log_facts store.new) }
    ensures parts { (store.new.parts.table ≡ store.old.parts.table) × (store.new.parts.tree ≡ store.old.parts.tree) × (store.new.parts.requests ≡ store.old.parts.requests) }
    ensures number { OnOk result (number store.new ≡ number store.old) }
    ensures unspent { (s : Spent) → IsErrOf result (fault.Spent s) → ⊥ }
    ensures wrote { IsTrue H.tells → (frames : List Frame) (records : List Item) → LogStands store.old (H.state host.old) frames records
        → OnOk result (LogStands store.new (H.state host.new) (closed_frames (waiting store.old) frames records moment) []) }
    ensures others { IsTrue H.tells → SameBut (log_name (number store.old)) (H.state host.old).files (H.state host.new).files }
    ensures told { IsTrue H.tells → SyncedStore (log_facts store.old) (log_facts store.new)
        (log_means store.old (H.state host.old)) (log_means store.new (H.state host.new)) (H.state host.old) (H.state host.new) moment result }
    ensures cause { HasStoreCause (H.state host.old) (H.state host.new) result }
    ensures grows { IsTrue H.tells → store.new.parts.spoilt ≡ false → Grows store.old store.new (H.state host.old) (H.state host.new) }
{
    store.latest = moment;
    let before = store.parts.log.tail();
    if let Err(fault) = store.parts.log.seal(host, moment) {
        store.parts.spoilt = store.parts.log.is_spoilt();
        return Err(fault);
    }
    count_written(&mut store.parts.stats, before, store.parts.log.tail());
    Ok(())
}

/// Seals and closes the current file: the next one is made at the next record.
pub(crate) fn rotate<H: Host>(
    store: &mut LogStore,
    host: &mut H,
    moment: u64,
) -> Result<Turned, StoreFault>
    requires ready { IsReady (log_facts store.old) moment }
    requires stands { IsTrue H.tells → (log_means store.old (H.state host.old)).stands }
    ensures plain { Plainly (log_facts store.old) (log_facts store.new) moment result }
    ensures draws { DrawsNone (log_facts store.old) (log_facts store.new) }
    ensures rows { IfOk result (λ turned. Rotates turned (log_facts store.old).parts (log_facts store.new).parts) }
    ensures next { OnOk result (next_file (writer store.new) (number store.new) ≡ next_file (writer store.old) (number store.old)) }
    ensures content { IsTrue H.tells → OnOk result (SameContent (content_of store.old (H.state host.old).files) (content_of store.new (H.state host.new).files)) }
    ensures told { IsTrue H.tells → Stepped Rotate (log_facts store.old) (log_facts store.new)
        (log_means store.old (H.state host.old)) (log_means store.new (H.state host.new)) (H.state host.old) (H.state host.new) moment result }
    ensures cause { HasStoreCause (H.state host.old) (H.state host.new) result }
    ensures grows { IsTrue H.tells → store.new.parts.spoilt ≡ false → Grows store.old store.new (H.state host.old) (H.state host.new) }
{
    store.latest = moment;
    let before = store.parts.log.tail();
    match store.parts.log.rotate(host, moment) {
        Ok(turned) => {
            count_written(&mut store.parts.stats, before, store.parts.log.tail());
            Ok(turned)
        }
        Err(fault) => {
            store.parts.spoilt = store.parts.log.is_spoilt();
            Err(fault)
        }
    }
}
