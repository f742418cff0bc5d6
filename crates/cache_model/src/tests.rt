// What the parts of this crate answer on small inputs and at the limits, with ample memory.
ghost use Rattle.std.specs.Prelude.{IfOk};
ghost use Rattle.cache_model.specs.Commands.{IsCommand};

use crate::{
    Command, Entry, Key, KeyList, Lifespan, ModelFault, PlainCache, Prefix, Reply, Until, Value,
    hash,
};
use std::alloc::Global;
use std::process::Abort;
use std::test::Fail;

/// What a row asks for, with its key, value and wanted value in the row.
#[derive(Clone, Copy, Debug)]
enum Verb {
    At(u32),
    Put,
    PutFor(u32),
    PutAbsent,
    Replace,
    ReplaceIf,
    Get,
    Has,
    Remove,
    RemoveIf,
    Size,
    Keys,
    Clear,
    Export,
    Stats,
}

type Row = (Verb, &'static str, &'static str, &'static str, &'static str);

/// Conditions on what is there.
const CONDITIONS: [Row; 20] = [
    (Verb::PutAbsent, "a", "1", "", "Some(Done)"),
    (Verb::PutAbsent, "a", "2", "", "Some(Kept)"),
    (Verb::Replace, "a", "3", "", "Some(Done)"),
    (Verb::Replace, "b", "1", "", "Some(Nothing)"),
    (Verb::ReplaceIf, "a", "9", "1", "Some(Differs)"),
    (Verb::ReplaceIf, "a", "4", "3", "Some(Done)"),
    (Verb::Has, "a", "", "", "Some(Yes)"),
    (Verb::Has, "b", "", "", "Some(No)"),
    (Verb::RemoveIf, "a", "", "3", "Some(Differs)"),
    (Verb::RemoveIf, "b", "", "3", "Some(Nothing)"),
    (Verb::RemoveIf, "a", "", "4", "Some(Done)"),
    (Verb::Remove, "a", "", "", "Some(Nothing)"),
    (Verb::Put, "x", "\0 ", "", "Some(Done)"),
    (
        Verb::Get,
        "x",
        "",
        "",
        "Some(Found(Value { bytes: [0, 32] }))",
    ),
    (Verb::Put, "y", "", "", "Some(Done)"),
    (Verb::Get, "y", "", "", "Some(Found(Value { bytes: [] }))"),
    (
        Verb::Keys,
        "-",
        "",
        "",
        "Some(Keys(KeyList { keys: [Key { bytes: [120] }, Key { bytes: [121] }] }))",
    ),
    (Verb::Size, "-", "", "", "Some(Size(2))"),
    (Verb::Clear, "-", "", "", "Some(Cleared(2))"),
    (Verb::Size, "-", "", "", "Some(Size(0))"),
];

/// Lifespans from the moment 1000 on.
const LIFESPANS: [Row; 9] = [
    (Verb::PutFor(10), "k", "v", "", "Some(Done)"),
    (Verb::At(1009), "-", "", "", "Some(Done)"),
    (
        Verb::Get,
        "k",
        "",
        "",
        "Some(Found(Value { bytes: [118] }))",
    ),
    (Verb::At(1010), "-", "", "", "Some(Done)"),
    (Verb::Get, "k", "", "", "Some(Nothing)"),
    (Verb::Put, "a", "b", "", "Some(Done)"),
    (Verb::Get, "a", "", "", "Some(Found(Value { bytes: [98] }))"),
    (Verb::PutFor(0), "a", "b", "", "Some(Done)"),
    (Verb::Get, "a", "", "", "Some(Nothing)"),
];

/// Moments from 3 on, and what the plain map doesn't say.
const MOMENTS: [Row; 6] = [
    (Verb::At(9), "-", "", "", "Some(Done)"),
    (Verb::At(5), "-", "", "", "Some(Past(9))"),
    (Verb::At(9), "-", "", "", "Some(Done)"),
    (Verb::Put, "c", "d", "", "Some(Done)"),
    (Verb::Export, "-", "", "", "Some(Exported(1))"),
    (Verb::Stats, "-", "", "", "None"),
];

fn command_of(verb: Verb, key: Key, value: Value, old: Value) -> Command
    ensures { IsCommand result }
{
    match verb {
        Verb::At(moment) => Command::At(u64::from(moment)),
        Verb::Put => Command::Put(key, value, Lifespan::Endless),
        Verb::PutFor(units) => Command::Put(key, value, Lifespan::Of(u64::from(units))),
        Verb::PutAbsent => Command::PutAbsent(key, value, Lifespan::Endless),
        Verb::Replace => Command::Replace(key, value, Lifespan::Endless),
        Verb::ReplaceIf => Command::ReplaceIf(key, old, value, Lifespan::Endless),
        Verb::Get => Command::Get(key),
        Verb::Has => Command::Has(key),
        Verb::Remove => Command::Remove(key),
        Verb::RemoveIf => Command::RemoveIf(key, old),
        Verb::Size => Command::Size,
        Verb::Keys => Command::Keys,
        Verb::Clear => Command::Clear,
        Verb::Export => Command::Export,
        Verb::Stats => Command::Stats,
    }
}

fn says(rt: &impl Abort, alloc: Global, moment: u32, rows: &[Row]) -> Result<(), Fail> {
    let publish = Prefix::of(alloc, &[])?;
    let mut cache = PlainCache::new(alloc, u64::from(moment));
    for (verb, key, value, old, said) in rows {
        let key = Key::of(alloc, key.as_bytes())?;
        let value = Value::of(alloc, value.as_bytes())?;
        let old = Value::of(alloc, old.as_bytes())?;
        let reply = cache.step(&publish, command_of(*verb, key, value, old))?;
        let text = format!(in alloc; "{reply:?}")?;
        assert!(rt; text.as_str() == *said, "{verb:?}: {text}");
    }
    Ok(())
}

#[test]
fn plain_map_answers(rt: HostRuntime) -> Result<(), Fail> {
    says(&rt, rt.alloc(), 1000, &CONDITIONS)?;
    says(&rt, rt.alloc(), 1000, &LIFESPANS)?;
    says(&rt, rt.alloc(), 3, &MOMENTS)?;
    Ok(())
}

fn key_is_of(rt: &impl Abort, alloc: Global, length: usize, fits: bool) -> Result<(), Fail> {
    let bytes = vec![in alloc; 97u8; length]?;
    match Key::of(alloc, &bytes) {
        Ok(key) => {
            let copy = key.copy()?;
            assert!(rt; fits && copy.bytes() == bytes.as_slice());
        }
        Err(ModelFault::KeyLength(n)) => assert!(rt; !fits && n == length),
        Err(fault) => assert!(rt; false, "{fault:?}"),
    }
    Ok(())
}

fn value_is_of(rt: &impl Abort, alloc: Global, length: usize, fits: bool) -> Result<(), Fail> {
    let bytes = vec![in alloc; 98u8; length]?;
    match Value::of(alloc, &bytes) {
        Ok(value) => {
            let until = Until::At(7);
            let copy = Entry { value, until }.copy()?;
            assert!(rt; fits && copy.value.bytes() == bytes.as_slice() && copy.until == until);
        }
        Err(ModelFault::ValueLength(n)) => assert!(rt; !fits && n == length),
        Err(fault) => assert!(rt; false, "{fault:?}"),
    }
    Ok(())
}

fn prefix_is_of(rt: &impl Abort, alloc: Global, length: u16) -> Result<(), Fail> {
    let bytes = vec![in alloc; 99u8; usize::from(length)]?;
    if bytes.len() <= 1024 {
        let prefix = Prefix::of(alloc, &bytes)?;
        assert!(rt; prefix.bytes() == bytes.as_slice());
    }
    Ok(())
}

#[test]
fn lengths_have_limits(rt: HostRuntime) -> Result<(), Fail> {
    for (length, fits) in [(0, false), (1, true), (1024, true), (1025, false)] {
        key_is_of(&rt, rt.alloc(), length, fits)?;
    }
    for (length, fits) in [(0, true), (1, true), (65536, true), (65537, false)] {
        value_is_of(&rt, rt.alloc(), length, fits)?;
    }
    for length in [0, 1, 1024] {
        prefix_is_of(&rt, rt.alloc(), length)?;
    }
    Ok(())
}

#[test]
fn a_list_keeps_its_order_until_it_is_sorted(rt: HostRuntime) -> Result<(), Fail> {
    let mut list = KeyList::new(rt.alloc());
    list.push(Key::of(rt.alloc(), b"b")?)?;
    list.push(Key::of(rt.alloc(), b"a")?)?;
    assert_eq!(rt; list.keys().len(), 2);
    assert!(rt; list.keys()[0].bytes() == b"b".as_slice());
    assert!(rt; list.keys()[1].bytes() == b"a".as_slice());
    list.sort();
    let text = format!(in rt.alloc(); "{list:?}")?;
    assert!(rt; text.as_str() == "KeyList { keys: [Key { bytes: [97] }, Key { bytes: [98] }] }");
    Ok(())
}

#[test]
fn keys_have_their_hashes(rt: HostRuntime) -> Result<(), Fail> {
    for (text, whole, low) in [("a", 0xe40c_292c, 0x2c), ("foobar", 0xbf9c_f968, 0x68)] {
        let key = Key::of(rt.alloc(), text.as_bytes())?;
        assert_eq!(rt; hash(&key, 32), whole, "{text}");
        assert_eq!(rt; hash(&key, 8), low, "{text}");
        assert_eq!(rt; hash(&key, 0), 0, "{text}");
    }
    Ok(())
}
