// A store in memory.
ghost use Rattle.std.specs.Prelude.{◌≡◌, ◌≤◌, [], MatchResult, IfOk, IfErr, OnOk, OnErr, Ok, Err, option_map};
ghost use Rattle.cache_model.specs.declared.faults.ModelFault.TheVariants.{Memory};
ghost use Rattle.cache_model.specs.declared.faults.StoreFault.TheVariants as fault;
ghost use Rattle.store_trait.specs.Meaning.{read_in, changed};
ghost use Rattle.store_trait.specs.Keeping.{SameContent};
ghost use Rattle.store_trait.specs.Calls.{IsAnswer};
ghost use Rattle.store_trait.specs.Heap.{heap_content, heap_facts, heap_means, heap_carries, heap_possible};

use crate::entries::is_visible;
use crate::{Entries, FileStore, Keyed, ReadStore, Store};
use cache_disk::Host;
use cache_model::{Answer, Change, Entry, Key, ModelFault, StepKind, StoreFault, Turned};
use std::alloc::Global;

/// A store in memory, which no crash spares. Its only fault is want of memory, and it is never spoilt.
#[derive(Drop)]
pub struct HeapStore {
    entries: Entries,
    latest: u64,
}

impl HeapStore {
    /// A store with no content, walked by `bits` bits of the keys' hash. It takes no memory yet, so it isn't refused.
    pub fn new(alloc: Global, bits: u32) -> Result<HeapStore, ModelFault>
        requires { bits ≤ 32 }
        ensures { MatchResult result
            (λ store. ((heap_facts store).bits ≡ bits) × (heap_content store ≡ []) × ((heap_facts store).latest ≡ 0))
            (λ fault. ⊥) }
    {
        Ok(HeapStore {
            entries: Entries::new(alloc, bits),
            latest: 0,
        })
    }

    // What the store answers of a key.
    fn answer(&self, key: &Key, moment: u64) -> Result<Answer, ModelFault>
        ensures answer { IfOk result (λ answer. IsAnswer ⊥ moment (read_in self.now.entries.content key.now) answer) }
        ensures memory { IfErr result (λ fault. fault ≡ Memory) }
    {
        answer_of(self.entries.get(key)?, moment)
    }
}

/// What is answered of what is held under a key: Unknown where nothing is, Gone where nothing visible is.
pub fn answer_of(held: Option<&Option<Entry>>, moment: u64) -> Result<Answer, ModelFault>
    ensures answer { IfOk result (λ answer. IsAnswer ⊥ moment (option_map (λ e. e.now) held.entry) answer) }
    ensures memory { IfErr result (λ fault. fault ≡ Memory) }
{
    match held {
        None => Ok(Answer::Unknown),
        Some(None) => Ok(Answer::Gone),
        Some(Some(entry)) => {
            if is_visible(entry.until, moment) {
                Ok(Answer::Known(entry.copy()?))
            } else {
                Ok(Answer::Gone)
            }
        }
    }
}

// Makes a change of what is held.
fn change_held(entries: &mut Entries, change: &Change) -> Result<(), ModelFault>
    ensures changed { OnOk result (SameContent (changed change.now entries.old.content) entries.new.content) }
    ensures bits { entries.new.bits ≡ entries.old.bits }
    ensures same { OnErr result (entries.new ≡ entries.old) }
    ensures memory { IfErr result (λ fault. fault ≡ Memory) }
{
    let (key, held) = match change {
        Change::Put(key, entry) => (key, Some(entry.copy()?)),
        Change::Remove(key) => (key, None),
    };
    let seat = entries.seat(key)?;
    entries.fill(seat, held);
    Ok(())
}

// Want of memory, as a store answers it.
fn memory_only(made: Result<(), ModelFault>) -> Result<(), StoreFault>
    ensures ok { OnOk made (result ≡ Ok tt) }
    ensures memory { OnErr made (result ≡ Err fault.Memory) }
{
    match made {
        Ok(()) => Ok(()),
        Err(_) => Err(StoreFault::Memory),
    }
}

impl Keyed for HeapStore {
    ghost facts = { heap_facts };

    ghost means = { heap_means };

    fn hash_bits(&self) -> u32 {
        self.entries.hash_bits()
    }

    fn is_spoilt(&self) -> bool {
        false
    }
}

impl<H: Host> ReadStore<H> for HeapStore {
    fn load(&mut self, _host: &mut H, key: &Key, moment: u64) -> Result<Answer, StoreFault> {
        self.latest = moment;
        self.answer(key, moment).map_err(|_| StoreFault::Memory)
    }

    fn next_key(
        &mut self,
        _host: &mut H,
        after: Option<&Key>,
        moment: u64,
    ) -> Result<Option<Key>, StoreFault> {
        self.latest = moment;
        self.entries
            .next(after, moment)
            .map_err(|_| StoreFault::Memory)
    }

    ghost holds_now = { λ store host told sound stands. heap_possible store (H.state host) };

    ghost frame = { λ store host later told leaves. heap_carries store (H.state host) (H.state later) leaves.images.later };
}

impl<H: Host> Store<H> for HeapStore {
    fn write(&mut self, _host: &mut H, change: &Change, moment: u64) -> Result<(), StoreFault> {
        self.latest = moment;
        memory_only(change_held(&mut self.entries, change))
    }

    fn sync(&mut self, _host: &mut H, moment: u64) -> Result<(), StoreFault> {
        self.latest = moment;
        Ok(())
    }

    fn step(&mut self, _host: &mut H, moment: u64, _kind: StepKind) -> Result<Turned, StoreFault> {
        self.latest = moment;
        Ok(Turned::Idle)
    }
}

impl<H: Host> FileStore<H> for HeapStore {
    fn figures(&mut self, _host: &mut H, moment: u64) -> Result<(u64, u64, u64), StoreFault> {
        self.latest = moment;
        Ok((0, 0, 0))
    }

    fn compact_file(
        &mut self,
        _host: &mut H,
        _file: u32,
        moment: u64,
    ) -> Result<Turned, StoreFault> {
        self.latest = moment;
        Ok(Turned::Idle)
    }

    fn compact_all(&mut self, _host: &mut H, moment: u64) -> Result<(), StoreFault> {
        self.latest = moment;
        Ok(())
    }
}
