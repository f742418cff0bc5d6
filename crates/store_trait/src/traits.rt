// The traits of stores.
ghost use Rattle.std.specs.Prelude.{◌≡◌, ◌≤◌, ◌<◌, IsTrue, OnErr, option_map, true, false};
ghost use Rattle.cache_disk.specs.State.{HostState};
ghost use Rattle.cache_disk.specs.Calls.{HasStoreCause};
ghost use Rattle.store_trait.specs.Meaning.{StoreFacts, StoreState, IsChange};
ghost use Rattle.store_trait.specs.Keeping.{Leaves, Carries, HoldsNow};
ghost use Rattle.store_trait.specs.Calls.{IsReady, Plainly, DrawsBy, DrawsNone, DrawsOne, Loaded, Walked, Written, SyncedStore, Stepped, Figured, CompactedAll, CompactedFile, TakesNone};

use cache_disk::Host;
use cache_model::{Answer, Change, Key, StepKind, StoreFault, Turned};

/// What a store stands for, and what can be asked of it without a host.
pub trait Keyed {
    /// What is known of it whatever the host tells.
    ghost facts: { Self → StoreFacts };

    /// What it stands for on a host that tells its contents.
    ghost means: { Self → HostState → StoreState };

    /// How many bits of the keys' hash the walk order has.
    fn hash_bits(&self) -> u32
        ensures { result ≡ (facts self.now).bits };

    /// Whether it may be used no more.
    fn is_spoilt(&self) -> bool
        ensures { result ≡ (facts self.now).spoilt };
}

/// A store that can be read.
pub trait ReadStore<H: Host>: Keyed {
    /// What the store has of a key.
    fn load(&mut self, host: &mut H, key: &Key, moment: u64) -> Result<Answer, StoreFault>
        requires ready { IsReady (Self.facts self.old) moment }
        requires stands { IsTrue H.tells → (Self.means self.old (H.state host.old)).stands }
        ensures plain { Plainly (Self.facts self.old) (Self.facts self.new) moment result }
        ensures draws { DrawsNone (Self.facts self.old) (Self.facts self.new) }
        ensures told { IsTrue H.tells → Loaded key.now (Self.facts self.old) (Self.facts self.new)
            (Self.means self.old (H.state host.old)) (Self.means self.new (H.state host.new)) (H.state host.old) (H.state host.new) moment result }
        ensures cause { HasStoreCause (H.state host.old) (H.state host.new) result };

    /// The first visible key behind another in walk order, or the first of all.
    fn next_key(
        &mut self,
        host: &mut H,
        after: Option<&Key>,
        moment: u64,
    ) -> Result<Option<Key>, StoreFault>
        requires ready { IsReady (Self.facts self.old) moment }
        requires stands { IsTrue H.tells → (Self.means self.old (H.state host.old)).stands }
        ensures plain { Plainly (Self.facts self.old) (Self.facts self.new) moment result }
        ensures draws { DrawsNone (Self.facts self.old) (Self.facts self.new) }
        ensures told { IsTrue H.tells → Walked (option_map (λ key. key.now) after.entry) (Self.facts self.old) (Self.facts self.new)
            (Self.means self.old (H.state host.old)) (Self.means self.new (H.state host.new)) (H.state host.old) (H.state host.new) moment result }
        ensures cause { HasStoreCause (H.state host.old) (H.state host.new) result };

    /// What holds between two calls.
    ghost holds_now: { (store : Self) (host : H) → IsTrue H.tells
        → (Self.facts store).spoilt ≡ false
        → (Self.means store (H.state host)).stands
        → HoldsNow (Self.facts store) (Self.means store (H.state host)) (H.state host).turn };

    /// Calls that leave its own files alone leave what it stands for.
    ghost frame: { (store : Self) (host later : H) → IsTrue H.tells
        → Leaves (Self.facts store).owns true (H.state host) (H.state later)
        → Carries (H.state host).turn (H.state later).turn (Self.means store (H.state host)) (Self.means store (H.state later)) };
}

/// A store that can be changed.
pub trait Store<H: Host>: ReadStore<H> {
    /// Makes the change the content of its key.
    fn write(&mut self, host: &mut H, change: &Change, moment: u64) -> Result<(), StoreFault>
        requires ready { IsReady (Self.facts self.old) moment }
        requires stands { IsTrue H.tells → (Self.means self.old (H.state host.old)).stands }
        requires change { IsChange change.now }
        ensures plain { Plainly (Self.facts self.old) (Self.facts self.new) moment result }
        ensures draws { DrawsOne (Self.facts self.old) (Self.facts self.new) result }
        ensures told { IsTrue H.tells → Written change.now (Self.facts self.old) (Self.facts self.new)
            (Self.means self.old (H.state host.old)) (Self.means self.new (H.state host.new)) (H.state host.old) (H.state host.new) moment result }
        ensures cause { HasStoreCause (H.state host.old) (H.state host.new) result };

    /// After Ok a crash leaves the content.
    fn sync(&mut self, host: &mut H, moment: u64) -> Result<(), StoreFault>
        requires ready { IsReady (Self.facts self.old) moment }
        requires stands { IsTrue H.tells → (Self.means self.old (H.state host.old)).stands }
        ensures plain { Plainly (Self.facts self.old) (Self.facts self.new) moment result }
        ensures draws { DrawsNone (Self.facts self.old) (Self.facts self.new) }
        ensures told { IsTrue H.tells → SyncedStore (Self.facts self.old) (Self.facts self.new)
            (Self.means self.old (H.state host.old)) (Self.means self.new (H.state host.new)) (H.state host.old) (H.state host.new) moment result }
        ensures cause { HasStoreCause (H.state host.old) (H.state host.new) result };

    /// One action of a background actor.
    fn step(&mut self, host: &mut H, moment: u64, kind: StepKind) -> Result<Turned, StoreFault>
        requires ready { IsReady (Self.facts self.old) moment }
        requires stands { IsTrue H.tells → (Self.means self.old (H.state host.old)).stands }
        ensures plain { Plainly (Self.facts self.old) (Self.facts self.new) moment result }
        ensures draws { DrawsBy kind (Self.facts self.old) (Self.facts self.new) result }
        ensures told { IsTrue H.tells → Stepped kind (Self.facts self.old) (Self.facts self.new)
            (Self.means self.old (H.state host.old)) (Self.means self.new (H.state host.new)) (H.state host.old) (H.state host.new) moment result }
        ensures cause { HasStoreCause (H.state host.old) (H.state host.new) result };
}

/// A store of files, which can be counted and compacted.
pub trait FileStore<H: Host>: Store<H> {
    /// Counts the files: how many there are, how many bytes they have, and how many of these are live. After each fault,
    /// also after want of memory, the store may be used no more.
    fn figures(&mut self, host: &mut H, moment: u64) -> Result<(u64, u64, u64), StoreFault>
        requires ready { IsReady (Self.facts self.old) moment }
        requires stands { IsTrue H.tells → (Self.means self.old (H.state host.old)).stands }
        ensures plain { Plainly (Self.facts self.old) (Self.facts self.new) moment result }
        ensures spoilt { OnErr result ((Self.facts self.new).spoilt ≡ true) }
        ensures draws { DrawsNone (Self.facts self.old) (Self.facts self.new) }
        ensures told { IsTrue H.tells → Figured (Self.facts self.old) (Self.facts self.new)
            (Self.means self.old (H.state host.old)) (Self.means self.new (H.state host.new)) (H.state host.old) (H.state host.new) moment result }
        ensures cause { HasStoreCause (H.state host.old) (H.state host.new) result };

    /// Compacts a file: ends a compaction that is under way, and then takes all turns of one over this file. Idle where
    /// that isn't a closed file then, as where it isn't there. After each fault, also after want of memory, the store may
    /// be used no more.
    fn compact_file(&mut self, host: &mut H, file: u32, moment: u64) -> Result<Turned, StoreFault>
        requires ready { IsReady (Self.facts self.old) moment }
        requires stands { IsTrue H.tells → (Self.means self.old (H.state host.old)).stands }
        ensures plain { Plainly (Self.facts self.old) (Self.facts self.new) moment result }
        ensures spoilt { OnErr result ((Self.facts self.new).spoilt ≡ true) }
        ensures draws { TakesNone (Self.facts self.old) (Self.facts self.new) result }
        ensures told { IsTrue H.tells → CompactedFile file (Self.facts self.old) (Self.facts self.new)
            (Self.means self.old (H.state host.old)) (Self.means self.new (H.state host.new)) (H.state host.old) (H.state host.new) moment result }
        ensures cause { HasStoreCause (H.state host.old) (H.state host.new) result };

    /// Compacts all files: ends a compaction that is under way, closes the current file, and then takes all turns of one
    /// over each file that is there then, by their numbers. After each fault, also after want of memory, the store may be
    /// used no more.
    fn compact_all(&mut self, host: &mut H, moment: u64) -> Result<(), StoreFault>
        requires ready { IsReady (Self.facts self.old) moment }
        requires stands { IsTrue H.tells → (Self.means self.old (H.state host.old)).stands }
        ensures plain { Plainly (Self.facts self.old) (Self.facts self.new) moment result }
        ensures spoilt { OnErr result ((Self.facts self.new).spoilt ≡ true) }
        ensures draws { TakesNone (Self.facts self.old) (Self.facts self.new) result }
        ensures told { IsTrue H.tells → CompactedAll (Self.facts self.old) (Self.facts self.new)
            (Self.means self.old (H.state host.old)) (Self.means self.new (H.state host.new)) (H.state host.old) (H.state host.new) moment result }
        ensures cause { HasStoreCause (H.state host.old) (H.state host.new) result };
}
