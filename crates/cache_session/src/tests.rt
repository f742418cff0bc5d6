// What a session answers over a store in memory, with ample memory: what the plain map answers.
ghost use Rattle.std.specs.Prelude.{◌≤◌, IfOk};
ghost use Rattle.cache_model.specs.Commands.{IsCommand};
ghost use Rattle.store_trait.specs.Heap.{heap_facts};
ghost use Rattle.cache_session.specs.Turns.{IsBuilt, IsFit, store_of, is_broken, moment_of};

use crate::{Event, Session};
use cache_model::{Command, Key, Lifespan, PlainCache, Prefix, Reply, StepKind, Value};
use host_memory::MemoryHost;
use std::alloc::Global;
use std::process::Abort;
use std::test::Fail;
use store_trait::HeapStore;

/// What a row asks for. Its key, its value and the value that it wants stand beside it.
#[derive(Clone, Copy, Debug)]
enum Verb {
    At(u32),
    Put,
    PutFor(u32),
    PutAbsent,
    Replace,
    ReplaceIf,
    Get,
    Has,
    Remove,
    RemoveIf,
    Size,
    Keys,
    Clear,
    Step(StepKind),
    Evict,
    Sync,
    Stats,
    CompactFile(u32),
    CompactAll,
    Stop,
    Halt,
}

type Row = (Verb, &'static str, &'static str, &'static str);

/// Conditions on what is there.
const CONDITIONS: [Row; 20] = [
    (Verb::PutAbsent, "a", "1", ""),
    (Verb::PutAbsent, "a", "2", ""),
    (Verb::Replace, "a", "3", ""),
    (Verb::Replace, "b", "1", ""),
    (Verb::ReplaceIf, "a", "9", "1"),
    (Verb::ReplaceIf, "a", "4", "3"),
    (Verb::Has, "a", "", ""),
    (Verb::Has, "b", "", ""),
    (Verb::RemoveIf, "a", "", "3"),
    (Verb::RemoveIf, "b", "", "3"),
    (Verb::RemoveIf, "a", "", "4"),
    (Verb::Remove, "a", "", ""),
    (Verb::Put, "x", "\0 ", ""),
    (Verb::Get, "x", "", ""),
    (Verb::Put, "y", "", ""),
    (Verb::Get, "y", "", ""),
    (Verb::Keys, "-", "", ""),
    (Verb::Size, "-", "", ""),
    (Verb::Clear, "-", "", ""),
    (Verb::Size, "-", "", ""),
];

/// Lifespans and moments from 1000 on.
const LIFESPANS: [Row; 9] = [
    (Verb::PutFor(10), "k", "v", ""),
    (Verb::At(1009), "-", "", ""),
    (Verb::Get, "k", "", ""),
    (Verb::At(1010), "-", "", ""),
    (Verb::Get, "k", "", ""),
    (Verb::At(1005), "-", "", ""),
    (Verb::At(1010), "-", "", ""),
    (Verb::PutFor(0), "k", "v", ""),
    (Verb::Get, "k", "", ""),
];

/// What settles the store, and what leaves it.
const ENDS: [Row; 12] = [
    (Verb::Put, "k", "v", ""),
    (Verb::Step(StepKind::Index), "-", "", ""),
    (Verb::Step(StepKind::Compact), "-", "", ""),
    (Verb::Step(StepKind::Reap), "-", "", ""),
    (Verb::Evict, "k", "", ""),
    (Verb::Stats, "-", "", ""),
    (Verb::CompactFile(1), "-", "", ""),
    (Verb::CompactAll, "-", "", ""),
    (Verb::Sync, "-", "", ""),
    (Verb::Get, "k", "", ""),
    (Verb::Stop, "-", "", ""),
    (Verb::Halt, "-", "", ""),
];

/// What a mix of commands is drawn from.
const MIX: [Verb; 20] = [
    Verb::Put,
    Verb::Put,
    Verb::PutFor(3),
    Verb::PutFor(40),
    Verb::PutAbsent,
    Verb::Replace,
    Verb::ReplaceIf,
    Verb::Get,
    Verb::Get,
    Verb::Has,
    Verb::Remove,
    Verb::RemoveIf,
    Verb::Size,
    Verb::Keys,
    Verb::Keys,
    Verb::Clear,
    Verb::Sync,
    Verb::Stats,
    Verb::CompactFile(1),
    Verb::CompactAll,
];

const KEYS: [&str; 6] = ["a", "b", "ab", "c", "\0", "key"];

const VALUES: [&str; 3] = ["", "1", "value"];

/// What is answered where the plain map doesn't say: a store in memory has no files, and nothing to do for its actors.
fn unsaid(verb: Verb) -> &'static str {
    match verb {
        Verb::Stats => "Stats(Figures { files: 0, bytes: 0, live: 0, pending: 0, held: 0 })",
        _ => "Turned(Idle)",
    }
}

/// A session with the plain map that it is to answer like.
#[derive(Drop)]
struct Pair {
    session: Session<HeapStore>,
    host: MemoryHost,
    plain: PlainCache,
    ghost fit: { IsFit (heap_facts (store_of session)) (is_broken session) (moment_of session) },
}

fn command_of(verb: Verb, key: Key, value: Value, old: Value) -> Command
    ensures within { IsCommand result }
    ensures built { IsBuilt result }
{
    match verb {
        Verb::At(moment) => Command::At(u64::from(moment)),
        Verb::Put => Command::Put(key, value, Lifespan::Endless),
        Verb::PutFor(units) => Command::Put(key, value, Lifespan::Of(u64::from(units))),
        Verb::PutAbsent => Command::PutAbsent(key, value, Lifespan::Endless),
        Verb::Replace => Command::Replace(key, value, Lifespan::Endless),
        Verb::ReplaceIf => Command::ReplaceIf(key, old, value, Lifespan::Endless),
        Verb::Get => Command::Get(key),
        Verb::Has => Command::Has(key),
        Verb::Remove => Command::Remove(key),
        Verb::RemoveIf => Command::RemoveIf(key, old),
        Verb::Size => Command::Size,
        Verb::Keys => Command::Keys,
        Verb::Clear => Command::Clear,
        Verb::Step(kind) => Command::Step(kind),
        Verb::Evict => Command::Evict(key),
        Verb::Sync => Command::Sync,
        Verb::Stats => Command::Stats,
        Verb::CompactFile(file) => Command::CompactFile(file),
        Verb::CompactAll => Command::CompactAll,
        Verb::Stop => Command::Stop,
        Verb::Halt => Command::Halt,
    }
}

fn command_in(alloc: Global, row: &Row) -> Result<Command, Fail>
    ensures within { IfOk result (λ command. IsCommand command) }
    ensures built { IfOk result (λ command. IsBuilt command) }
{
    let (verb, key, value, old) = row;
    let key = Key::of(alloc, key.as_bytes())?;
    let value = Value::of(alloc, value.as_bytes())?;
    let old = Value::of(alloc, old.as_bytes())?;
    Ok(command_of(*verb, key, value, old))
}

impl Pair {
    fn new(alloc: Global, bits: u32, moment: u32) -> Result<Pair, Fail>
        requires { bits ≤ 32 }
    {
        let none = Vec::new(alloc);
        let host = MemoryHost::new(alloc, Vec::new(alloc), none, Vec::new(alloc), 0)?;
        let store = HeapStore::new(alloc, bits)?;
        let moment = u64::from(moment);
        Ok(Pair {
            session: Session::new(alloc, store, moment),
            host,
            plain: PlainCache::new(alloc, moment),
        })
    }

    /// Takes a turn in both.
    fn turn(self, rt: &impl Abort, alloc: Global, row: &Row) -> Result<Pair, Fail> {
        let Pair {
            mut session,
            mut host,
            mut plain,
        } = self;
        let publish = Prefix::of(alloc, &[])?;
        let said = plain.step(&publish, command_in(alloc, row)?)?;
        let event = Event::Client(command_in(alloc, row)?);
        let reply = session.turn(&mut host, event)?;
        let text = format!(in alloc; "{reply:?}")?;
        let wanted = match said {
            Some(said) => format!(in alloc; "{said:?}")?,
            None => String::from_str(alloc, unsaid(row.0))?,
        };
        assert!(rt;
            text.as_str() == wanted.as_str(),
            "{row:?}: {text} and not {wanted}"
        );
        Ok(Pair {
            session,
            host,
            plain,
        })
    }
}

fn says(rt: &impl Abort, alloc: Global, bits: u32, rows: &[Row]) -> Result<(), Fail>
    requires { bits ≤ 32 }
{
    let mut pair = Pair::new(alloc, bits, 1000)?;
    for row in rows {
        pair = pair.turn(rt, alloc, row)?;
    }
    assert!(rt; !pair.session.is_spoilt() && pair.session.moment() >= 1000);
    Ok(())
}

/// The next of a row of numbers that go through all.
fn next_number(number: u32) -> u32 {
    number.wrapping_mul(1_664_525).wrapping_add(1_013_904_223)
}

/// One of some, by a number.
fn pick<T: Copy>(some: &[T], number: u32) -> Option<T> {
    if some.is_empty() {
        return None;
    }
    let at = (number >> 8) as usize % some.len();
    some.get(at).copied()
}

fn row_of(number: u32) -> Option<Row> {
    let verb = pick(&MIX, number)?;
    let second = next_number(number);
    let key = pick(&KEYS, second)?;
    let third = next_number(second);
    let value = pick(&VALUES, third)?;
    let old = pick(&VALUES, next_number(third))?;
    Some((verb, key, value, old))
}

fn says_mix(rt: &impl Abort, alloc: Global, bits: u32) -> Result<(), Fail>
    requires { bits ≤ 32 }
{
    let mut pair = Pair::new(alloc, bits, 1000)?;
    let mut number = 20_261_201;
    for turn in 0u32..400 {
        if let Some(row) = row_of(number) {
            pair = pair.turn(rt, alloc, &row)?;
        }
        pair = pair.turn(rt, alloc, &(Verb::At(1000 + turn), "-", "", ""))?;
        number = next_number(number);
    }
    Ok(())
}

#[test]
fn a_session_answers_as_the_plain_map(rt: HostRuntime) -> Result<(), Fail> {
    for bits in [0, 7, 32] {
        says(&rt, rt.alloc(), bits, &CONDITIONS)?;
        says(&rt, rt.alloc(), bits, &LIFESPANS)?;
        says(&rt, rt.alloc(), bits, &ENDS)?;
        says_mix(&rt, rt.alloc(), bits)?;
    }
    Ok(())
}

#[test]
fn an_actor_is_answered(rt: HostRuntime) -> Result<(), Fail> {
    let alloc = rt.alloc();
    let Pair {
        mut session,
        mut host,
        plain: _,
    } = Pair::new(alloc, 0, 1000)?;
    let reply = session.turn(&mut host, Event::Actor(StepKind::Flush))?;
    assert!(rt; matches!(reply, Reply::Turned(_)));
    Ok(())
}
