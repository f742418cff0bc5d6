// A store over the data files of a directory, which compacts them.
ghost use Rattle.std.specs.Prelude.{◌≡◌, ◌<◌, List, IsTrue, IfOk, IsErrOf, OnOk, None, Some};
ghost use Rattle.cache_model.specs.declared.commands.StepKind.TheVariants.{Compact};
ghost use Rattle.cache_model.specs.declared.replies.Turned.TheVariants.{Done};
ghost use Rattle.cache_model.specs.declared.faults.StoreFault.TheVariants as fault;
ghost use Rattle.cache_model.specs.declared.faults.Spent.{Spent};
ghost use Rattle.cache_model.specs.declared.faults.Damage.{Damage};
ghost use Rattle.store_trait.specs.Keeping.{IsSettled};
ghost use Rattle.rebuild.specs.Rebuilt.{IsRead};
ghost use Rattle.cache_model.specs.Items.{Item};
ghost use Rattle.cache_model.specs.DataFiles.{Frame};
ghost use Rattle.cache_disk.specs.Calls.{HasStoreCause};
ghost use Rattle.store_trait.specs.Meaning.{IsChange};
ghost use Rattle.store_trait.specs.Calls.{DrawsBy, DrawsNone, DrawsOne, IsReady, Plainly, Stepped, Written};
ghost use Rattle.soft_index.specs.Store.{AreInRange, IsFirstDamageOf, IsOpened, IsSpentBy, IsWritten, LogStands, log_facts, number, spent_by};
ghost use Rattle.soft_index.specs.Turns.{HasCompacted, HasEnded, HasGoneOn, HasTurned, TakesNoNumber, TurnMakes, run_facts, run_means};
ghost use Rattle.soft_index.specs.Copied.{MakesFile};
ghost use Rattle.soft_index.specs.Running.{HasBegun, HasBegunOver, HoldsRun, IsUsableRun, MayGoOn, due_of};
ghost use Rattle.soft_index.specs.RunLaws.{run_carries, run_holds};
ghost use Rattle.soft_index.specs.Sweeping.{HasRunOver};

use crate::log_store::LogStore;
use crate::running::{Run, act, begin, data_file_name, empty};
use crate::sweeping::compact_every;
use cache_disk::Host;
use cache_model::{Answer, Change, Key, Settings, StepKind, StoreFault, Turned};
use std::alloc::Global;
use store_trait::{FileStore, Keyed, ReadStore, Store};

/// A store over the data files of a directory, which compacts the files that have few live bytes. It forgets no key.
#[derive(Drop)]
pub(crate) struct CompactingStore {
    pub(crate) log: LogStore,
    pub(crate) alloc: Global,
    // below how many percent of live bytes a file is compacted
    pub(crate) threshold: u64,
    // the compaction that is under way
    pub(crate) run: Option<Run>,
}

impl CompactingStore {
    /// Opens the directory. Its mark is the store's `latest`.
    pub(crate) fn start<H: Host>(
        alloc: Global,
        host: &mut H,
        settings: &Settings,
    ) -> Result<CompactingStore, StoreFault>
        requires settings { AreInRange settings.now }
        ensures opened { IsTrue H.tells → IfOk result (λ store. IsOpened (H.state host.old).files (H.state host.new) settings.now store.log store.log.latest) }
        ensures stands { IsTrue H.tells → IfOk result (λ store. (run_means store (H.state host.new)).stands) }
        ensures settled { IsTrue H.tells → IfOk result (λ store. IsSettled (run_facts store) (run_means store (H.state host.new)) (H.state host.new).turn) }
        ensures idle { IfOk result (λ store. (store.run ≡ None) × (store.threshold ≡ settings.now.compact_below)) }
        ensures damaged { IsTrue H.tells → (damage : Damage) → IsErrOf result (fault.Damaged damage) → IsFirstDamageOf (H.state host.old).files damage }
        ensures read { IsTrue H.tells → IsRead (H.state host.old) (H.state host.new) }
        ensures ready { IfOk result (λ store. IsReady (run_facts store) store.log.latest) }
        ensures spent { (spent : Spent) → IsErrOf result (fault.Spent spent) → ⊥ }
        ensures cause { HasStoreCause (H.state host.old) (H.state host.new) result }
    {
        match LogStore::start(alloc, host, settings) {
            Ok(log) => Ok(CompactingStore {
                log,
                alloc,
                threshold: settings.compact_below,
                run: None,
            }),
            Err(fault) => Err(fault),
        }
    }

    /// The greatest moment of its calls, or its mark.
    pub(crate) fn latest(&self) -> u64
        ensures { result ≡ (run_facts self.now).latest }
    {
        self.log.latest()
    }
}

impl Keyed for CompactingStore {
    ghost facts = { run_facts };

    ghost means = { run_means };

    fn hash_bits(&self) -> u32 {
        self.log.hash_bits()
    }

    fn is_spoilt(&self) -> bool {
        self.log.is_spoilt()
    }
}

impl<H: Host> ReadStore<H> for CompactingStore {
    fn load(&mut self, host: &mut H, key: &Key, moment: u64) -> Result<Answer, StoreFault> {
        self.log.load(host, key, moment)
    }

    fn next_key(
        &mut self,
        host: &mut H,
        after: Option<&Key>,
        moment: u64,
    ) -> Result<Option<Key>, StoreFault> {
        self.log.next_key(host, after, moment)
    }

    ghost holds_now = { λ store host told sound stands. run_holds store (H.state host) sound stands };

    ghost frame = { λ store host later told leaves. run_carries store (H.state host) (H.state later) leaves };
}

impl<H: Host> Store<H> for CompactingStore {
    fn write(&mut self, host: &mut H, change: &Change, moment: u64) -> Result<(), StoreFault>
        requires ready { IsReady (run_facts self.old) moment }
        requires stands { IsTrue H.tells → (run_means self.old (H.state host.old)).stands }
        requires change { IsChange change.now }
        ensures plain { Plainly (run_facts self.old) (run_facts self.new) moment result }
        ensures draws { DrawsOne (run_facts self.old) (run_facts self.new) result }
        ensures told { IsTrue H.tells → Written change.now (run_facts self.old) (run_facts self.new)
            (run_means self.old (H.state host.old)) (run_means self.new (H.state host.new)) (H.state host.old) (H.state host.new) moment result }
        ensures cause { HasStoreCause (H.state host.old) (H.state host.new) result }
        ensures spent { IsSpentBy (spent_by self.old.log change.now) result }
        ensures wrote { IsTrue H.tells → (frames : List Frame) (records : List Item) → LogStands self.old.log (H.state host.old) frames records
            → OnOk result (IsWritten change.now moment frames records self.old.log self.new.log (H.state host.new)) }
    {
        self.log.write(host, change, moment)
    }

    fn sync(&mut self, host: &mut H, moment: u64) -> Result<(), StoreFault> {
        self.log.sync(host, moment)
    }

    fn step(&mut self, host: &mut H, moment: u64, kind: StepKind) -> Result<Turned, StoreFault> {
        if let StepKind::Compact = kind {
            return take_turn(self, host, moment);
        }
        self.log.step(host, moment, kind)
    }
}

impl<H: Host> FileStore<H> for CompactingStore {
    fn figures(&mut self, host: &mut H, moment: u64) -> Result<(u64, u64, u64), StoreFault> {
        self.log.figures(host, moment)
    }

    fn compact_file(&mut self, host: &mut H, file: u32, moment: u64) -> Result<Turned, StoreFault> {
        match compact_whole(self, host, file, moment) {
            Ok(turned) => Ok(turned),
            Err(fault) => {
                self.log.parts.spoilt = true;
                Err(fault)
            }
        }
    }

    fn compact_all(&mut self, host: &mut H, moment: u64) -> Result<(), StoreFault> {
        match compact_every(self, host, moment) {
            Ok(()) => Ok(()),
            Err(fault) => {
                self.log.parts.spoilt = true;
                Err(fault)
            }
        }
    }
}

// The compaction of the candidate, of which nothing was read yet. None where no file is one. The queue is emptied first.
fn begin_next<H: Host>(
    store: &mut LogStore,
    host: &mut H,
    alloc: Global,
    threshold: u64,
    moment: u64,
) -> Result<Option<Run>, StoreFault>
    requires ready { IsReady (log_facts store.old) moment }
    requires stands { IsTrue H.tells → HoldsRun None store.old (H.state host.old) }
    ensures plain { Plainly (log_facts store.old) (log_facts store.new) moment result }
    ensures draws { DrawsNone (log_facts store.old) (log_facts store.new) }
    ensures run { IfOk result MayGoOn }
    ensures told { IsTrue H.tells → HasBegun threshold store.old store.new (H.state host.old) (H.state host.new) moment result }
    ensures cause { HasStoreCause (H.state host.old) (H.state host.new) result }
{
    if let Err(fault) = empty(store, host, moment) {
        return Err(fault);
    }
    let current = store.parts.log.current();
    let Some(file) = store.parts.stats.candidate(threshold, current) else {
        return Ok(None);
    };
    let Some(name) = data_file_name(file, store.parts.log.next_file()) else {
        return Ok(None);
    };
    match begin(alloc, host, file, name) {
        Ok(begun) => Ok(begun),
        Err(fault) => {
            store.parts.spoilt = true;
            Err(fault)
        }
    }
}

// One action of a compaction that was taken out of the store, and is put back where it goes on. After a fault the store may
// not be spoilt.
fn go_on<H: Host>(
    store: &mut CompactingStore,
    host: &mut H,
    run: Run,
    moment: u64,
) -> Result<Turned, StoreFault>
    requires ready { IsReady (log_facts store.old.log) moment }
    requires taken { store.old.run ≡ None }
    requires run { IsUsableRun run }
    requires stands { IsTrue H.tells → HoldsRun (Some run) store.old.log (H.state host.old) }
    ensures plain { Plainly (log_facts store.old.log) (log_facts store.new.log) moment result }
    ensures makes { MakesFile store.old.log store.new.log result }
    ensures goes { (store.new.threshold ≡ store.old.threshold) × MayGoOn store.new.run }
    ensures done { IfOk result (λ turned. turned ≡ Done) }
    ensures shrinks { OnOk result (due_of store.new.run < due_of (Some run)) }
    ensures told { IsTrue H.tells → HasGoneOn run store.old store.new (H.state host.old) (H.state host.new) moment result }
    ensures cause { HasStoreCause (H.state host.old) (H.state host.new) result }
{
    match act(&mut store.log, host, store.alloc, run, moment) {
        Ok(next) => {
            store.run = next;
            Ok(Turned::Done)
        }
        Err(fault) => Err(fault),
    }
}

// The first turn of a compaction, of the candidate. Idle where no file is one. After a fault the store may not be spoilt.
fn first_turn<H: Host>(
    store: &mut CompactingStore,
    host: &mut H,
    moment: u64,
) -> Result<Turned, StoreFault>
    requires ready { IsReady (log_facts store.old.log) moment }
    requires none { store.old.run ≡ None }
    requires stands { IsTrue H.tells → HoldsRun None store.old.log (H.state host.old) }
    ensures plain { Plainly (log_facts store.old.log) (log_facts store.new.log) moment result }
    ensures makes { TurnMakes store.old.log store.new.log result }
    ensures goes { (store.new.threshold ≡ store.old.threshold) × MayGoOn store.new.run }
    ensures told { IsTrue H.tells → HasTurned store.old store.new (H.state host.old) (H.state host.new) moment result }
    ensures cause { HasStoreCause (H.state host.old) (H.state host.new) result }
{
    match begin_next(&mut store.log, host, store.alloc, store.threshold, moment) {
        Ok(Some(run)) => go_on(store, host, run, moment),
        Ok(None) => Ok(Turned::Idle),
        Err(fault) => Err(fault),
    }
}

// One turn of a compaction. After a fault the store may not be spoilt.
fn turn<H: Host>(
    store: &mut CompactingStore,
    host: &mut H,
    moment: u64,
) -> Result<Turned, StoreFault>
    requires ready { IsReady (run_facts store.old) moment }
    requires stands { IsTrue H.tells → (run_means store.old (H.state host.old)).stands }
    ensures plain { Plainly (run_facts store.old) (run_facts store.new) moment result }
    ensures makes { TurnMakes store.old.log store.new.log result }
    ensures told { IsTrue H.tells → HasTurned store.old store.new (H.state host.old) (H.state host.new) moment result }
    ensures cause { HasStoreCause (H.state host.old) (H.state host.new) result }
{
    match store.run.take() {
        Some(run) => go_on(store, host, run, moment),
        None => first_turn(store, host, moment),
    }
}

// One turn of a compaction. A fault of it leaves the store spoilt.
fn take_turn<H: Host>(
    store: &mut CompactingStore,
    host: &mut H,
    moment: u64,
) -> Result<Turned, StoreFault>
    requires ready { IsReady (run_facts store.old) moment }
    requires stands { IsTrue H.tells → (run_means store.old (H.state host.old)).stands }
    ensures plain { Plainly (run_facts store.old) (run_facts store.new) moment result }
    ensures draws { DrawsBy Compact (run_facts store.old) (run_facts store.new) result }
    ensures told { IsTrue H.tells → Stepped Compact (run_facts store.old) (run_facts store.new)
        (run_means store.old (H.state host.old)) (run_means store.new (H.state host.new)) (H.state host.old) (H.state host.new) moment result }
    ensures cause { HasStoreCause (H.state host.old) (H.state host.new) result }
{
    match turn(store, host, moment) {
        Ok(turned) => Ok(turned),
        Err(fault) => {
            store.log.parts.spoilt = true;
            Err(fault)
        }
    }
}

/// Ends the compaction that is under way, where one is. After a fault the store may not be spoilt.
pub(crate) fn end_run<H: Host>(
    store: &mut CompactingStore,
    host: &mut H,
    moment: u64,
) -> Result<(), StoreFault>
    requires ready { IsReady (run_facts store.old) moment }
    requires stands { IsTrue H.tells → (run_means store.old (H.state host.old)).stands }
    ensures plain { Plainly (log_facts store.old.log) (log_facts store.new.log) moment result }
    ensures goes { (store.new.threshold ≡ store.old.threshold) × MayGoOn store.new.run }
    ensures next { TakesNoNumber store.old.log store.new.log result }
    ensures ended { OnOk result (store.new.run ≡ None) }
    ensures told { IsTrue H.tells → HasEnded store.old store.new (H.state host.old) (H.state host.new) moment result }
    ensures cause { HasStoreCause (H.state host.old) (H.state host.new) result }
{
    store.log.latest = moment;
    while let Some(run) = store.run.take() {
        if let Err(fault) = go_on(store, host, run, moment) {
            return Err(fault);
        }
    }
    Ok(())
}

// The compaction of a closed file, of which nothing was read yet. None where the file isn't one. The queue is emptied first.
fn begin_over<H: Host>(
    store: &mut LogStore,
    host: &mut H,
    alloc: Global,
    file: u32,
    moment: u64,
) -> Result<Option<Run>, StoreFault>
    requires ready { IsReady (log_facts store.old) moment }
    requires stands { IsTrue H.tells → HoldsRun None store.old (H.state host.old) }
    ensures plain { Plainly (log_facts store.old) (log_facts store.new) moment result }
    ensures draws { DrawsNone (log_facts store.old) (log_facts store.new) }
    ensures number { OnOk result (number store.new ≡ number store.old) }
    ensures run { IfOk result MayGoOn }
    ensures told { IsTrue H.tells → HasBegunOver file store.old store.new (H.state host.old) (H.state host.new) moment result }
    ensures cause { HasStoreCause (H.state host.old) (H.state host.new) result }
{
    if let Err(fault) = empty(store, host, moment) {
        return Err(fault);
    }
    if store.parts.log.current() == Some(file) {
        return Ok(None);
    }
    let Some(name) = data_file_name(file, store.parts.log.next_file()) else {
        return Ok(None);
    };
    match begin(alloc, host, file, name) {
        Ok(begun) => Ok(begun),
        Err(fault) => {
            store.parts.spoilt = true;
            Err(fault)
        }
    }
}

/// Takes all turns of a run over a closed file. Idle where the file isn't one. No run is under way. After a fault the store
/// may not be spoilt.
pub(crate) fn compact_closed<H: Host>(
    store: &mut CompactingStore,
    host: &mut H,
    file: u32,
    moment: u64,
) -> Result<Turned, StoreFault>
    requires ready { IsReady (run_facts store.old) moment }
    requires none { store.old.run ≡ None }
    requires stands { IsTrue H.tells → (run_means store.old (H.state host.old)).stands }
    ensures plain { Plainly (log_facts store.old.log) (log_facts store.new.log) moment result }
    ensures goes { (store.new.threshold ≡ store.old.threshold) × MayGoOn store.new.run }
    ensures next { TakesNoNumber store.old.log store.new.log result }
    ensures ended { OnOk result (store.new.run ≡ None) }
    ensures told { IsTrue H.tells → HasRunOver file store.old store.new (H.state host.old) (H.state host.new) moment result }
    ensures cause { HasStoreCause (H.state host.old) (H.state host.new) result }
{
    match begin_over(&mut store.log, host, store.alloc, file, moment) {
        Ok(Some(run)) => {
            store.run = Some(run);
            match end_run(store, host, moment) {
                Ok(()) => Ok(Turned::Done),
                Err(fault) => Err(fault),
            }
        }
        Ok(None) => Ok(Turned::Idle),
        Err(fault) => Err(fault),
    }
}

// Compacts a file whole, behind the compaction that is under way. After a fault the store may not be spoilt.
fn compact_whole<H: Host>(
    store: &mut CompactingStore,
    host: &mut H,
    file: u32,
    moment: u64,
) -> Result<Turned, StoreFault>
    requires ready { IsReady (run_facts store.old) moment }
    requires stands { IsTrue H.tells → (run_means store.old (H.state host.old)).stands }
    ensures plain { Plainly (run_facts store.old) (run_facts store.new) moment result }
    ensures next { TakesNoNumber store.old.log store.new.log result }
    ensures told { IsTrue H.tells → HasCompacted file store.old store.new (H.state host.old) (H.state host.new) moment result }
    ensures cause { HasStoreCause (H.state host.old) (H.state host.new) result }
{
    match end_run(store, host, moment) {
        Ok(()) => compact_closed(store, host, file, moment),
        Err(fault) => Err(fault),
    }
}
