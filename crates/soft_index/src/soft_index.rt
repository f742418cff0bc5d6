// The store with its rule: which keys may be forgotten.
ghost use Rattle.std.specs.Prelude.{◌≡◌, ◌↔◌, ℕ, List, IsTrue, IfOk, OnOk, IsErrOf};
ghost use Rattle.cache_model.specs.declared.faults.StoreFault.TheVariants as fault;
ghost use Rattle.cache_model.specs.declared.faults.Spent.{Spent};
ghost use Rattle.cache_model.specs.declared.faults.Damage.{Damage};
ghost use Rattle.cache_disk.specs.Calls.{HasStoreCause};
ghost use Rattle.store_trait.specs.Keeping.{IsSettled};
ghost use Rattle.store_trait.specs.Calls.{DrawsNone, DrawsOne, IsReady, Loaded, Plainly, Written};
ghost use Rattle.store_trait.specs.Meaning.{IsChange};
ghost use Rattle.cache_model.specs.Items.{Item};
ghost use Rattle.cache_model.specs.DataFiles.{Frame};
ghost use Rattle.soft_index.specs.Index.{IsRead, IsRule, IsStarted, index_facts, index_means, log_of, rule_of};
ghost use Rattle.soft_index.specs.Store.{IsFirstDamageOf};
ghost use Rattle.soft_index.specs.Rule.{Allows, IsRuled, Keeps, holds_ruled};
ghost use Rattle.cache_model.specs.declared.entries.Answer.TheVariants.{Gone};
ghost use Rattle.soft_index.specs.Store.{AreInRange, IsSpentBy, IsWritten, LogStands, spent_by};
ghost use Rattle.soft_index.specs.RunLaws.{run_carries, run_holds};
ghost use Rattle.soft_index.specs.Turns.{run_facts, run_means};

use crate::compacting::CompactingStore;
use cache_disk::Host;
use cache_model::{Answer, Change, Key, Settings, StepKind, StoreFault, Turned};
use std::alloc::Global;
use store_trait::{FileStore, Keyed, ReadStore, Store};

/// The store over the data files of a directory, with a rule that says which keys may be forgotten once they aren't
/// visible any more.
#[derive(Drop)]
pub struct SoftIndex<F> {
    pub(crate) log: CompactingStore,
    pub(crate) forget: F,
}

impl<F: Fn(&Key) -> bool> Keyed for SoftIndex<F> {
    ghost facts = { index_facts F.Fn };

    ghost means = { index_means };

    fn hash_bits(&self) -> u32 {
        self.log.hash_bits()
    }

    fn is_spoilt(&self) -> bool {
        self.log.is_spoilt()
    }
}

impl<F: Fn(&Key) -> bool + Drop> SoftIndex<F> {
    /// Opens the store of a directory, and gives its mark. The rule says which keys may be forgotten.
    ///
    /// Each data file is synced and then read, in the order of their numbers, and then the names of all files are synced;
    /// a damaged one ends it, and the fault names the first damage. Files of other kinds and of other stores are passed over. Only the main store is there yet.
    pub fn start<H: Host>(
        alloc: Global,
        host: &mut H,
        store: u8,
        settings: &Settings,
        forget: F,
    ) -> Result<(SoftIndex<F>, u64), StoreFault>
        requires main { store ≡ 0 }
        requires settings { AreInRange settings.now }
        requires rule { IsRule F.Fn forget }
        ensures started { IsTrue H.tells → IfOk result (λ p. IsStarted (H.state host.old).files settings.now (index_facts F.Fn p.0) (index_means p.0 (H.state host.new)) p.1) }
        ensures settled { IsTrue H.tells → IfOk result (λ p. IsSettled (index_facts F.Fn p.0) (index_means p.0 (H.state host.new)) (H.state host.new).turn) }
        ensures ready { IfOk result (λ p. IsReady (index_facts F.Fn p.0) p.1) }
        ensures rule { IfOk result (λ p. (key : List ℕ) → ((index_facts F.Fn p.0).forgets key ↔ Allows F.Fn forget key)) }
        ensures damaged { IsTrue H.tells → (damage : Damage) → IsErrOf result (fault.Damaged damage) → IsFirstDamageOf (H.state host.old).files damage }
        ensures read { IsTrue H.tells → IsRead (H.state host.old) (H.state host.new) }
        ensures spent { (spent : Spent) → IsErrOf result (fault.Spent spent) → ⊥ }
        ensures cause { HasStoreCause (H.state host.old) (H.state host.new) result }
    {
        let _ = store;
        match CompactingStore::start(alloc, host, settings) {
            Ok(log) => {
                let mark = log.latest();
                Ok((SoftIndex { log, forget }, mark))
            }
            Err(fault) => Err(fault),
        }
    }

    // What is answered of a key by the rule, where the store that keeps every key answers so.
    fn by_rule(&self, key: &Key, answer: Answer) -> Answer
        requires { F.IsAlwaysCallable self.now.forget }
        ensures { IsRuled F.Fn self.now.forget key.now answer result }
    {
        if let Answer::Gone = answer {
            if (self.forget)(key) {
                return Answer::Unknown;
            }
            return Answer::Gone;
        }
        answer
    }
}

impl<F: Fn(&Key) -> bool, H: Host> ReadStore<H> for SoftIndex<F> {
    /// What is answered Gone is kept by the rule, and what it allows is Unknown.
    fn load(&mut self, host: &mut H, key: &Key, moment: u64) -> Result<Answer, StoreFault>
        requires ready { IsReady (index_facts F.Fn self.old) moment }
        requires stands { IsTrue H.tells → (index_means self.old (H.state host.old)).stands }
        ensures plain { Plainly (index_facts F.Fn self.old) (index_facts F.Fn self.new) moment result }
        ensures draws { DrawsNone (index_facts F.Fn self.old) (index_facts F.Fn self.new) }
        ensures told { IsTrue H.tells → Loaded key.now (index_facts F.Fn self.old) (index_facts F.Fn self.new)
            (index_means self.old (H.state host.old)) (index_means self.new (H.state host.new)) (H.state host.old) (H.state host.new) moment result }
        ensures cause { HasStoreCause (H.state host.old) (H.state host.new) result }
        ensures kept { IfOk result (λ answer. answer ≡ Gone → Keeps F.Fn (rule_of self.old) key.now) }
    {
        match self.log.load(host, key, moment) {
            Ok(answer) => Ok(self.by_rule(key, answer)),
            Err(fault) => Err(fault),
        }
    }

    fn next_key(
        &mut self,
        host: &mut H,
        after: Option<&Key>,
        moment: u64,
    ) -> Result<Option<Key>, StoreFault> {
        self.log.next_key(host, after, moment)
    }

    ghost holds_now = { λ store host told sound stands. holds_ruled (run_facts store.log) _ _ (run_means store.log (H.state host)) (H.state host).turn (run_holds store.log (H.state host) sound stands) };

    ghost frame = { λ store host later told leaves. run_carries store.log (H.state host) (H.state later) leaves };
}

impl<F: Fn(&Key) -> bool, H: Host> Store<H> for SoftIndex<F> {
    /// A change is numbered and written to the current file, or to the next one where that one would get too large.
    fn write(&mut self, host: &mut H, change: &Change, moment: u64) -> Result<(), StoreFault>
        requires ready { IsReady (index_facts F.Fn self.old) moment }
        requires stands { IsTrue H.tells → (index_means self.old (H.state host.old)).stands }
        requires change { IsChange change.now }
        ensures plain { Plainly (index_facts F.Fn self.old) (index_facts F.Fn self.new) moment result }
        ensures draws { DrawsOne (index_facts F.Fn self.old) (index_facts F.Fn self.new) result }
        ensures told { IsTrue H.tells → Written change.now (index_facts F.Fn self.old) (index_facts F.Fn self.new)
            (index_means self.old (H.state host.old)) (index_means self.new (H.state host.new)) (H.state host.old) (H.state host.new) moment result }
        ensures cause { HasStoreCause (H.state host.old) (H.state host.new) result }
        ensures spent { IsSpentBy (spent_by (log_of self.old) change.now) result }
        ensures wrote { IsTrue H.tells → (frames : List Frame) (records : List Item) → LogStands (log_of self.old) (H.state host.old) frames records
            → OnOk result (IsWritten change.now moment frames records (log_of self.old) (log_of self.new) (H.state host.new)) }
    {
        self.log.write(host, change, moment)
    }

    fn sync(&mut self, host: &mut H, moment: u64) -> Result<(), StoreFault> {
        self.log.sync(host, moment)
    }

    fn step(&mut self, host: &mut H, moment: u64, kind: StepKind) -> Result<Turned, StoreFault> {
        self.log.step(host, moment, kind)
    }
}

impl<F: Fn(&Key) -> bool, H: Host> FileStore<H> for SoftIndex<F> {
    /// The index is told first of all that waits for it.
    fn figures(&mut self, host: &mut H, moment: u64) -> Result<(u64, u64, u64), StoreFault> {
        self.log.figures(host, moment)
    }

    /// It ends a compaction that is under way first.
    fn compact_file(&mut self, host: &mut H, file: u32, moment: u64) -> Result<Turned, StoreFault> {
        self.log.compact_file(host, file, moment)
    }

    /// It ends a compaction that is under way first, and closes the current file.
    fn compact_all(&mut self, host: &mut H, moment: u64) -> Result<(), StoreFault> {
        self.log.compact_all(host, moment)
    }
}
