// A compaction of one data file, turn by turn.
ghost use Rattle.std.specs.Prelude.{◌≡◌, ℕ, ◌+◌, ◌<◌, ◌≤◌, List, [], ◌∷◌, length, min, true, false, IsTrue, IfOk, IfSome, OnErr, OnOk, IsErrOf, MatchOption, None, Some};
ghost use Rattle.cache_model.specs.declared.faults.StoreFault.TheVariants as fault;
ghost use Rattle.cache_model.specs.declared.faults.Spent.{Spent};
ghost use Rattle.cache_model.specs.declared.faults.Damage.{Damage};
ghost use Rattle.cache_model.specs.Files.{IsFileName, bytes_in};
ghost use Rattle.cache_model.specs.Items.{IsItem, Item};
ghost use Rattle.cache_model.specs.DataFiles.{Frame};
ghost use Rattle.cache_model.specs.Images.{key_of, log_name};
ghost use Rattle.cache_disk.specs.State.{Stands as IsSame};
ghost use Rattle.cache_disk.specs.Calls.{HasStoreCause};
ghost use Rattle.record_format.specs.Meaning.{own_item};
ghost use Rattle.data_file.specs.Scanning.{IsGiven};
ghost use Rattle.append_log.specs.Current as append;
ghost use Rattle.data_file.proofs.Frame.{placed_of};
ghost use Rattle.compactor.specs.Counting.{IsNewestBy};
ghost use Rattle.compactor.specs.Passing.{records_left};
ghost use Rattle.compactor.specs.Indexing.{is_removal};
ghost use Rattle.compactor.specs.Recounting.{IsRecounted, is_record};
ghost use Rattle.store_trait.specs.Calls.{DrawsNone, IsReady, Plainly};
ghost use Rattle.soft_index.specs.Copied.{MakesFile};
ghost use Rattle.soft_index.specs.Running.{BeginsOn, HasActed, HasLooked, HasRead, HoldsRun, IsBegun, IsStill, IsUsableRun, LooksRows, MayGoOn, due_of};
ghost use Rattle.soft_index.specs.Store.{Holds, LogStands, Queues, current_of, log_facts, log_means, number, writer};

use crate::copying::copy;
use crate::log_store::LogStore;
use crate::stamping::stamp;
use crate::store::make_room;
use crate::taking::take_away;
use cache_disk::Host;
use cache_model::{FileKind, FileName, Key, StoreFault};
use compactor::next_record;
use data_file::{Scan, Scanned};
use record_format::{OwnItem, encode};
use std::alloc::Global;

/// A compaction of one data file, which is under way.
#[derive(Drop)]
pub(crate) struct Run {
    pub(crate) file: u32,
    // gives the records of the file
    pub(crate) scan: Scan,
    // the keys of the records that were looked at
    pub(crate) looked: Vec<Key>,
    // whether the log was stamped behind the last of them
    pub(crate) is_stamped: bool,
}

/// The name of the data file with this number, where that is below the next one that a data file may get.
pub(crate) fn data_file_name(number: u32, next: u32) -> Option<FileName>
    ensures { MatchOption result ((1 ≤ number) × (number < next) → ⊥) (λ name. (name ≡ log_name number) × IsFileName name) }
{
    if number == 0 || number >= next {
        return None;
    }
    Some(FileName {
        kind: FileKind::Log,
        store: 0,
        id: number,
    })
}

/// A compaction of a data file, of which nothing was read yet. None where it isn't there.
pub(crate) fn begin<H: Host>(
    alloc: Global,
    host: &mut H,
    file: u32,
    name: FileName,
) -> Result<Option<Run>, StoreFault>
    requires name { (name ≡ log_name file) × IsFileName name }
    ensures begun { IfOk result (λ begun. IfSome begun (IsBegun file)) }
    ensures still { IsTrue H.tells → IsSame (H.state host.old) (H.state host.new) }
    ensures scans { IsTrue H.tells → IfOk result (BeginsOn (H.state host.old).files file) }
    ensures undamaged { (d : Damage) → IsErrOf result (fault.Damaged d) → ⊥ }
    ensures unspent { (s : Spent) → IsErrOf result (fault.Spent s) → ⊥ }
    ensures cause { HasStoreCause (H.state host.old) (H.state host.new) result }
{
    let Some(size) = host.size(name)? else {
        return Ok(None);
    };
    let scan = Scan::new(alloc, name, size)?;
    Ok(Some(Run {
        file,
        scan,
        looked: Vec::new(alloc),
        is_stamped: false,
    }))
}

// The key of a record.
fn key_of_record(item: &OwnItem) -> Option<&Key>
    ensures { MatchOption result (key_of (own_item item.now) ≡ None) (λ key. key_of (own_item item.now) ≡ Some key.now) }
{
    match item {
        OwnItem::Put { key, .. } | OwnItem::Removal { key, .. } => Some(key),
        OwnItem::End { .. } => None,
    }
}

// Whether a record removes its key.
fn is_removal(item: &OwnItem) -> bool
    ensures { result ≡ is_removal (own_item item.now) }
{
    match item {
        OwnItem::Put { .. } | OwnItem::End { .. } => false,
        OwnItem::Removal { .. } => true,
    }
}

// Copies a record of a key, which is its newest.
fn copy_record<H: Host>(
    store: &mut LogStore,
    host: &mut H,
    alloc: Global,
    key: &Key,
    one: &Scanned,
    moment: u64,
) -> Result<(), StoreFault>
    requires ready { IsReady (log_facts store.old) moment }
    requires item { IsItem (own_item one.now.item) }
    requires of_key { key_of (own_item one.now.item) ≡ Some key.now }
    requires stands { IsTrue H.tells → (log_means store.old (H.state host.old)).stands }
    ensures plain { Plainly (log_facts store.old) (log_facts store.new) moment result }
    ensures makes { MakesFile store.old store.new result }
    ensures queued { OnOk result (Queues store.old.parts.requests.limit (log_facts store.old).parts (log_facts store.new).parts) }
    ensures told { IsTrue H.tells → (frames : List Frame) (records : List Item) → LogStands store.old (H.state host.old) frames records → (one.now.place.file ≡ number store.old → ⊥)
        → IsNewestBy (Holds (number store.old) (placed_of frames records) (H.state host.old).files) key.now one.now.place.file one.now.place.at (own_item one.now.item)
        → HasLooked store.old store.new (H.state host.old) (H.state host.new) frames records moment one.now.place.file one.now.place.at (own_item one.now.item) result }
    ensures cause { HasStoreCause (H.state host.old) (H.state host.new) result }
{
    let Ok(key) = key.copy() else {
        store.latest = moment;
        return Err(StoreFault::Memory);
    };
    let mut spelled = Vec::new(alloc);
    let Ok(()) = encode(&one.item, &mut spelled) else {
        store.latest = moment;
        return Err(StoreFault::Memory);
    };
    if let Err(fault) = make_room(store, host, moment) {
        return Err(fault);
    }
    let gone = is_removal(&one.item);
    match copy(store, host, key, one.place, gone, &spelled, moment) {
        Ok(_) => Ok(()),
        Err(fault) => Err(fault),
    }
}

// Looks at a record of the file: where it is its key's newest it is copied.
fn look_at<H: Host>(
    store: &mut LogStore,
    host: &mut H,
    alloc: Global,
    key: &Key,
    one: &Scanned,
    moment: u64,
) -> Result<(), StoreFault>
    requires ready { IsReady (log_facts store.old) moment }
    requires item { IsItem (own_item one.now.item) }
    requires of_key { key_of (own_item one.now.item) ≡ Some key.now }
    requires stands { IsTrue H.tells → (log_means store.old (H.state host.old)).stands }
    ensures plain { Plainly (log_facts store.old) (log_facts store.new) moment result }
    ensures makes { MakesFile store.old store.new result }
    ensures rows { OnOk result (LooksRows store.old.parts.requests.limit (log_facts store.old).parts (log_facts store.new).parts) }
    ensures told { IsTrue H.tells → (frames : List Frame) (records : List Item) → LogStands store.old (H.state host.old) frames records
        → Holds (number store.old) (placed_of frames records) (H.state host.old).files one.now.place.file one.now.place.at (own_item one.now.item) → (one.now.place.file ≡ number store.old → ⊥)
        → HasLooked store.old store.new (H.state host.old) (H.state host.new) frames records moment one.now.place.file one.now.place.at (own_item one.now.item) result }
    ensures cause { HasStoreCause (H.state host.old) (H.state host.new) result }
{
    store.latest = moment;
    match store.parts.is_newest(host, key, one.place) {
        Ok(true) => copy_record(store, host, alloc, key, one, moment),
        Ok(false) => Ok(()),
        Err(fault) => Err(fault),
    }
}

/// Applies all requests to the index.
pub(crate) fn empty<H: Host>(
    store: &mut LogStore,
    host: &mut H,
    moment: u64,
) -> Result<(), StoreFault>
    requires ready { IsReady (log_facts store.old) moment }
    requires stands { IsTrue H.tells → (log_means store.old (H.state host.old)).stands }
    ensures plain { Plainly (log_facts store.old) (log_facts store.new) moment result }
    ensures draws { DrawsNone (log_facts store.old) (log_facts store.new) }
    ensures log { OnOk result (append.files_of store.new.parts.log ≡ append.files_of store.old.parts.log) }
    ensures emptied { OnOk result (store.new.parts.requests.waiting ≡ []) }
    ensures latest { store.new.latest ≡ moment }
    ensures rows { IsTrue H.tells → (frames : List Frame) (records : List Item) → LogStands store.old (H.state host.old) frames records
        → OnOk result (IsRecounted (H.state host.old).files (current_of (writer store.old) (number store.old)) store.new.parts.stats.rows) }
    ensures still { IsTrue H.tells → IsSame (H.state host.old) (H.state host.new) }
    ensures told { IsTrue H.tells → (frames : List Frame) (records : List Item) → LogStands store.old (H.state host.old) frames records → IsStill store.old store.new (H.state host.old) (H.state host.new) frames records moment result }
    ensures cause { HasStoreCause (H.state host.old) (H.state host.new) result }
{
    store.latest = moment;
    store.parts.empty_queue(host)
}

// Queues that one record less of a key is to be counted. Where the queue is full, the oldest request is applied before.
fn lower_one<H: Host>(
    store: &mut LogStore,
    host: &mut H,
    key: Key,
    moment: u64,
) -> Result<(), StoreFault>
    requires ready { IsReady (log_facts store.old) moment }
    requires stands { IsTrue H.tells → (log_means store.old (H.state host.old)).stands }
    ensures plain { Plainly (log_facts store.old) (log_facts store.new) moment result }
    ensures draws { DrawsNone (log_facts store.old) (log_facts store.new) }
    ensures log { OnOk result (append.files_of store.new.parts.log ≡ append.files_of store.old.parts.log) }
    ensures limit { store.new.parts.requests.limit ≡ store.old.parts.requests.limit }
    ensures queued { OnOk result (length store.new.parts.requests.waiting ≡ min (length store.old.parts.requests.waiting + 1) store.old.parts.requests.limit) }
    ensures still { IsTrue H.tells → IsSame (H.state host.old) (H.state host.new) }
    ensures told { IsTrue H.tells → (frames : List Frame) (records : List Item) → LogStands store.old (H.state host.old) frames records → IsStill store.old store.new (H.state host.old) (H.state host.new) frames records moment result }
    ensures cause { HasStoreCause (H.state host.old) (H.state host.new) result }
{
    if let Err(fault) = make_room(store, host, moment) {
        return Err(fault);
    }
    store.parts.less(key);
    Ok(())
}

// Queues for each key that one record less of it is to be counted.
fn lower<H: Host>(
    store: &mut LogStore,
    host: &mut H,
    looked: Vec<Key>,
    moment: u64,
) -> Result<(), StoreFault>
    requires ready { IsReady (log_facts store.old) moment }
    requires empty { store.old.parts.requests.waiting ≡ [] }
    requires stands { IsTrue H.tells → (log_means store.old (H.state host.old)).stands }
    ensures plain { Plainly (log_facts store.old) (log_facts store.new) moment result }
    ensures draws { DrawsNone (log_facts store.old) (log_facts store.new) }
    ensures log { OnOk result (append.files_of store.new.parts.log ≡ append.files_of store.old.parts.log) }
    ensures queued { OnOk result (length store.new.parts.requests.waiting ≡ min (length looked.items) store.old.parts.requests.limit) }
    ensures still { IsTrue H.tells → IsSame (H.state host.old) (H.state host.new) }
    ensures told { IsTrue H.tells → (frames : List Frame) (records : List Item) → LogStands store.old (H.state host.old) frames records → IsStill store.old store.new (H.state host.old) (H.state host.new) frames records moment result }
    ensures cause { HasStoreCause (H.state host.old) (H.state host.new) result }
{
    store.latest = moment;
    for key in looked {
        if let Err(fault) = lower_one(store, host, key, moment) {
            return Err(fault);
        }
    }
    Ok(())
}

/// Takes the file of a compaction away, once no entry of the index names it, and then lowers the counts of its keys.
pub(crate) fn reclaim<H: Host>(
    store: &mut LogStore,
    host: &mut H,
    run: Run,
    moment: u64,
) -> Result<Option<Run>, StoreFault>
    requires ready { IsReady (log_facts store.old) moment }
    requires run { IsUsableRun run }
    requires stamped { run.is_stamped ≡ true }
    requires held { IsTrue H.tells → HoldsRun (Some run) store.old (H.state host.old) }
    requires stands { IsTrue H.tells → (log_means store.old (H.state host.old)).stands }
    ensures plain { Plainly (log_facts store.old) (log_facts store.new) moment result }
    ensures draws { DrawsNone (log_facts store.old) (log_facts store.new) }
    ensures ended { IfOk result (λ next. next ≡ None) }
    ensures told { IsTrue H.tells → run.is_stamped ≡ true → HoldsRun (Some run) store.old (H.state host.old) → HasActed run store.old store.new (H.state host.old) (H.state host.new) moment result }
    ensures cause { HasStoreCause (H.state host.old) (H.state host.new) result }
{
    if let Err(fault) = empty(store, host, moment) {
        return Err(fault);
    }
    if let Err(fault) = take_away(store, host, run.file, moment) {
        return Err(fault);
    }
    match lower(store, host, run.looked, moment) {
        Ok(()) => Ok(None),
        Err(fault) => Err(fault),
    }
}

/// Looks at the next record of the file of a compaction.
pub(crate) fn look<H: Host>(
    store: &mut LogStore,
    host: &mut H,
    alloc: Global,
    mut run: Run,
    one: &Scanned,
    moment: u64,
) -> Result<Option<Run>, StoreFault>
    requires ready { IsReady (log_facts store.old) moment }
    requires run { IsUsableRun run }
    requires given { IsGiven (log_name run.file) one.now }
    requires record { IsTrue (is_record (own_item one.now.item)) }
    requires stands { IsTrue H.tells → (log_means store.old (H.state host.old)).stands }
    ensures plain { Plainly (log_facts store.old) (log_facts store.new) moment result }
    ensures makes { MakesFile store.old store.new result }
    ensures run { IfOk result MayGoOn }
    ensures due { IfOk result (λ next. due_of next ≡ due_of (Some run)) }
    ensures told { IsTrue H.tells → (was : Run) → HoldsRun (Some was) store.old (H.state host.old) → HasRead was run (H.state host.old).files
        → records_left was.scan (bytes_in (H.state host.old).files (log_name was.file)) ≡ (one.now.place.at, own_item one.now.item) ∷ records_left run.scan (bytes_in (H.state host.old).files (log_name was.file))
        → HasActed was store.old store.new (H.state host.old) (H.state host.new) moment result }
    ensures cause { HasStoreCause (H.state host.old) (H.state host.new) result }
{
    let Some(key) = key_of_record(&one.item) else {
        return Ok(Some(run));
    };
    let Ok(looked) = key.copy() else {
        store.latest = moment;
        return Err(StoreFault::Memory);
    };
    let Ok(()) = run.looked.push(looked) else {
        store.latest = moment;
        return Err(StoreFault::Memory);
    };
    match look_at(store, host, alloc, key, one, moment) {
        Ok(()) => Ok(Some(run)),
        Err(fault) => Err(fault),
    }
}

/// Stamps the log, behind the last record of the file of a compaction.
pub(crate) fn mark<H: Host>(
    store: &mut LogStore,
    host: &mut H,
    mut run: Run,
    moment: u64,
) -> Result<Option<Run>, StoreFault>
    requires ready { IsReady (log_facts store.old) moment }
    requires run { IsUsableRun run }
    requires stands { IsTrue H.tells → (log_means store.old (H.state host.old)).stands }
    ensures plain { Plainly (log_facts store.old) (log_facts store.new) moment result }
    ensures makes { MakesFile store.old store.new result }
    ensures run { IfOk result MayGoOn }
    ensures due { IfOk result (λ next. due_of next ≡ 1) }
    ensures told { IsTrue H.tells → (was : Run) → HoldsRun (Some was) store.old (H.state host.old) → HasRead was run (H.state host.old).files
        → records_left was.scan (bytes_in (H.state host.old).files (log_name was.file)) ≡ []
        → HasActed was store.old store.new (H.state host.old) (H.state host.new) moment result }
    ensures cause { HasStoreCause (H.state host.old) (H.state host.new) result }
{
    match stamp(store, host, moment) {
        Ok(()) => {
            run.is_stamped = true;
            Ok(Some(run))
        }
        Err(fault) => Err(fault),
    }
}

/// One action of a compaction, which then goes on or has ended.
pub(crate) fn act<H: Host>(
    store: &mut LogStore,
    host: &mut H,
    alloc: Global,
    mut run: Run,
    moment: u64,
) -> Result<Option<Run>, StoreFault>
    requires ready { IsReady (log_facts store.old) moment }
    requires run { IsUsableRun run }
    requires stands { IsTrue H.tells → HoldsRun (Some run) store.old (H.state host.old) }
    ensures plain { Plainly (log_facts store.old) (log_facts store.new) moment result }
    ensures makes { MakesFile store.old store.new result }
    ensures run { IfOk result MayGoOn }
    ensures goes { IfOk result (λ next. due_of next < due_of (Some run)) }
    ensures told { IsTrue H.tells → HasActed run store.old store.new (H.state host.old) (H.state host.new) moment result }
    ensures cause { HasStoreCause (H.state host.old) (H.state host.new) result }
{
    store.latest = moment;
    if run.is_stamped {
        return reclaim(store, host, run, moment);
    }
    match next_record(&mut run.scan, host) {
        Ok(Some(one)) => look(store, host, alloc, run, &one, moment),
        Ok(None) => mark(store, host, run, moment),
        Err(fault) => {
            store.parts.spoilt = true;
            Err(fault)
        }
    }
}
