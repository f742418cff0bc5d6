// The background steps that a run takes, seen by a store that notes them.
ghost use Rattle.store_trait.specs.Heap.{heap_facts, heap_means, heap_carries, heap_possible};

use super::*;
use cache_model::{Answer, Change, Key, StepKind, Turned};
use host_memory::{MemoryHost, MemorySource};
use std::cell::RefCell;
use std::process::Abort;
use std::rc::Rc;
use std::test::Fail;
use store_trait::{HeapStore, Keyed, ReadStore, Store};

// The steps that are asked of a store, in their repeated order. Behind `Compact` comes `Reap`, which asks nothing of it.
const ORDER: [StepKind; 3] = [StepKind::Index, StepKind::Flush, StepKind::Compact];

// A store in memory that notes the steps that are asked of it.
#[derive(Drop)]
struct NotingStore {
    store: HeapStore,
    notes: Rc<RefCell<Vec<StepKind>>>,
    // How many steps it takes before it refuses one for want of memory.
    most: usize,
}

impl NotingStore {
    // Notes a step. False says that it is one too many.
    fn takes(&self, kind: StepKind) -> bool {
        let Ok(mut notes) = self.notes.try_borrow_mut() else {
            return false;
        };
        notes.push(kind).is_ok() && notes.len() <= self.most
    }
}

impl Keyed for NotingStore {
    ghost facts = { λ noting. heap_facts noting.store };

    ghost means = { λ noting. heap_means noting.store };

    fn hash_bits(&self) -> u32 {
        self.store.hash_bits()
    }

    fn is_spoilt(&self) -> bool {
        self.store.is_spoilt()
    }
}

impl<H: Host> ReadStore<H> for NotingStore {
    fn load(&mut self, host: &mut H, key: &Key, moment: u64) -> Result<Answer, StoreFault> {
        self.store.load(host, key, moment)
    }

    fn next_key(
        &mut self,
        host: &mut H,
        after: Option<&Key>,
        moment: u64,
    ) -> Result<Option<Key>, StoreFault> {
        self.store.next_key(host, after, moment)
    }

    ghost holds_now = { λ noting host told sound stands. heap_possible noting.store (H.state host) };

    ghost frame = { λ noting host later told leaves. heap_carries noting.store (H.state host) (H.state later) leaves.images.later };
}

impl<H: Host> Store<H> for NotingStore {
    fn write(&mut self, host: &mut H, change: &Change, moment: u64) -> Result<(), StoreFault> {
        self.store.write(host, change, moment)
    }

    fn sync(&mut self, host: &mut H, moment: u64) -> Result<(), StoreFault> {
        self.store.sync(host, moment)
    }

    fn step(&mut self, host: &mut H, moment: u64, kind: StepKind) -> Result<Turned, StoreFault> {
        if self.takes(kind) {
            self.store.step(host, moment, kind)
        } else {
            Err(StoreFault::Memory)
        }
    }
}

impl<H: Host> FileStore<H> for NotingStore {
    fn figures(&mut self, host: &mut H, moment: u64) -> Result<(u64, u64, u64), StoreFault> {
        self.store.figures(host, moment)
    }

    fn compact_file(&mut self, host: &mut H, file: u32, moment: u64) -> Result<Turned, StoreFault> {
        self.store.compact_file(host, file, moment)
    }

    fn compact_all(&mut self, host: &mut H, moment: u64) -> Result<(), StoreFault> {
        self.store.compact_all(host, moment)
    }
}

// What a run is given: how many steps follow an answer, how many are taken before one is refused, and the script. What
// comes of it: what is said, how many steps were asked of the store, and how it ends.
type Row = (u64, usize, &'static str, &'static str, usize, Status);

const ALL: usize = usize::MAX;

const ROWS: [Row; 9] = [
    (
        0,
        ALL,
        "put a b\nget a\n",
        "opened 0\nok\nvalue b\nstopped\n",
        0,
        Status::Done,
    ),
    // No step follows the line that a session begins with, nor the last answer.
    (5, ALL, "", "opened 0\nstopped\n", 0, Status::Done),
    (
        1,
        ALL,
        "put a b\nget a\n",
        "opened 0\nok\nvalue b\nstopped\n",
        2,
        Status::Done,
    ),
    (
        1,
        ALL,
        "put a b\nstop\nget a\n",
        "opened 0\nok\nstopped\n",
        1,
        Status::Done,
    ),
    (
        7,
        ALL,
        "put a b\nhalt\nget a\n",
        "opened 0\nok\nhalted\n",
        6,
        Status::Done,
    ),
    // Steps follow refusals too, and their order goes on from line to line.
    (
        5,
        ALL,
        "put a\nget %.\nat 3\nat 2\nsync\nsize\n",
        "opened 0\nrefused syntax\nrefused key 0\nok\nrefused past 3\nok\nsize 0\nstopped\n",
        23,
        Status::Done,
    ),
    (
        1000,
        ALL,
        "size\nsize\n",
        "opened 0\nsize 0\nsize 0\nstopped\n",
        1500,
        Status::Done,
    ),
    // One that is refused for want of memory ends the run behind the answer.
    (
        2,
        2,
        "put a b\nget a\nget a\n",
        "opened 0\nok\nvalue b\n",
        3,
        Status::NoMemory,
    ),
    (
        1000,
        700,
        "size\nsize\n",
        "opened 0\nsize 0\n",
        701,
        Status::NoMemory,
    ),
];

// Whether these are the first steps in their repeated order.
fn are_in_order(steps: &[StepKind]) -> bool {
    steps
        .iter()
        .zip(ORDER.iter().cycle())
        .all(|(step, wanted)| step == wanted)
}

// Runs a script over a store that notes its steps, and compares what comes of it.
fn comes_out(rt: &impl Abort, alloc: Global, row: &Row) -> Result<(), Fail> {
    let (pump, most, script, said, count, status) = row;
    let notes = Rc::new(alloc, RefCell::new(Vec::new(alloc)))?;
    let store = NotingStore {
        store: HeapStore::new(alloc, 32)?,
        notes: notes.clone()?,
        most: *most,
    };
    let none = Vec::new(alloc);
    let mut host = MemoryHost::new(alloc, none, Vec::new(alloc), Vec::new(alloc), 0)?;
    let script = script.as_bytes().to_vec(alloc)?;
    let mut script = MemorySource::new(alloc, script, Vec::new(alloc))?;
    let ran = run_store(alloc, store, 0, *pump, &mut host, &mut script);
    let ended = match ran.result {
        Ok(()) => Status::Done,
        Err(status) => status,
    };
    assert_eq!(rt; ended, *status, "{row:?}");
    assert_eq!(rt; host.said(), said.as_bytes(), "{row:?}");
    let taken = notes
        .try_replace(Vec::new(alloc))
        .expect(rt, "the run is over");
    assert_eq!(rt; taken.len(), *count, "{row:?}");
    assert!(rt; are_in_order(&taken), "{row:?}");
    Ok(())
}

#[test]
fn steps_follow_answers(rt: HostRuntime) -> Result<(), Fail> {
    for row in &ROWS {
        comes_out(&rt, rt.alloc(), row)?;
    }
    Ok(())
}
