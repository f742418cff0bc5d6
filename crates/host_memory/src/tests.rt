// What no clause says: worked rows, and that each call succeeds where memory is ample.
ghost use Rattle.std.specs.Prelude.{◌≡◌, ◌≤◌, ◌<◌, length, true, IsSome, IsTrue, None};
ghost use Rattle.cache_model.specs.Files.{IsFileName, file_in, bytes_in};
ghost use Rattle.host_memory.specs.History.{memory_state};

use crate::*;
use cache_disk::{Host, HostFault, Source, SourceFault};
use cache_model::{FileKind, FileName};
use std::test::Fail;

const LOG: FileName = FileName {
    kind: FileKind::Log,
    store: 0,
    id: 1,
};

const BASE: FileName = FileName {
    kind: FileKind::Base,
    store: 0,
    id: 0,
};

// A call, most of them on the log.
#[derive(Clone, Copy, Debug)]
enum Step {
    Names,
    Size,
    Read(u64),
    Create,
    Write(u64, &'static [u8]),
    WriteBase(u64, &'static [u8]),
    Sync,
    SyncBase,
    Delete,
    SyncNames,
    Say(&'static [u8]),
}

// Makes the call where its condition holds, and answers a number: of names, of bytes, or 0.
fn take(host: &mut MemoryHost, step: Step, buf: &mut [u8; 8]) -> Result<u64, HostFault> {
    match step {
        Step::Names => Ok(host.names()?.len() as u64),
        Step::Size => Ok(host.size(LOG)?.unwrap_or(99)),
        Step::Read(at) => Ok(host.read(LOG, at, buf)? as u64),
        Step::Create => create(host),
        Step::Write(at, bytes) => write(host, LOG, at, bytes),
        Step::WriteBase(at, bytes) => write(host, BASE, at, bytes),
        Step::Sync => sync(host, LOG),
        Step::SyncBase => sync(host, BASE),
        Step::Delete => delete(host),
        Step::SyncNames => host.sync_names().map(|_| 0),
        Step::Say(bytes) => host.say(bytes).map(|_| 0),
    }
}

fn create(host: &mut MemoryHost) -> Result<u64, HostFault> {
    match host.file(LOG) {
        Some(_) => Ok(98),
        None => host.create(LOG).map(|_| 0),
    }
}

fn write(host: &mut MemoryHost, name: FileName, at: u64, bytes: &[u8]) -> Result<u64, HostFault>
    requires { IsFileName name }
{
    match host.file(name) {
        Some(old) if at <= old.len() as u64 => host.write(name, at, bytes).map(|_| 0),
        _ => Ok(98),
    }
}

fn sync(host: &mut MemoryHost, name: FileName) -> Result<u64, HostFault>
    requires { IsFileName name }
{
    match host.file(name) {
        Some(_) => host.sync(name).map(|_| 0),
        None => Ok(98),
    }
}

fn delete(host: &mut MemoryHost) -> Result<u64, HostFault> {
    match host.file(LOG) {
        Some(_) => host.delete(LOG).map(|_| 0),
        None => Ok(98),
    }
}

// Disk calls 4 and 10 fail, and so does the second say; no read gives more than 3 bytes.
const ROWS: [(Step, Result<u64, HostFault>); 19] = [
    (Step::Create, Ok(0)),
    (Step::Write(0, b"hello"), Ok(0)),
    (Step::Size, Ok(5)),
    (Step::Read(0), Err(HostFault::Failed)),
    (Step::Read(0), Ok(3)),
    (Step::Read(3), Ok(2)),
    (Step::Read(9), Ok(0)),
    (Step::Write(3, b"p you"), Ok(0)),
    (Step::Size, Ok(8)),
    (Step::Sync, Err(HostFault::Failed)),
    (Step::Sync, Ok(0)),
    (Step::Read(5), Ok(3)),
    (Step::Names, Ok(1)),
    (Step::SyncNames, Ok(0)),
    (Step::Say(b"one "), Ok(0)),
    (Step::Say(b"two "), Err(HostFault::Failed)),
    (Step::Say(b"three"), Ok(0)),
    (Step::Delete, Ok(0)),
    (Step::Size, Ok(99)),
];

#[test]
fn calls_and_failures(rt: HostRuntime) -> Result<(), Fail> {
    let alloc = rt.alloc();
    let mut host = MemoryHost::new(
        alloc,
        Vec::new(alloc),
        [4, 10].to_vec(alloc)?,
        [2].to_vec(alloc)?,
        3,
    )?;
    let mut buf = [0; 8];
    for (step, want) in ROWS {
        assert_eq!(rt; take(&mut host, step, &mut buf), want, "at {step:?}");
    }
    assert_eq!(rt; buf.as_slice(), b"you\0\0\0\0\0".as_slice());
    assert_eq!(rt; host.said(), b"one three".as_slice());
    assert_eq!(rt; host.turns(), 10);
    Ok(())
}

#[test]
fn a_source_in_pieces(rt: HostRuntime) -> Result<(), Fail> {
    let alloc = rt.alloc();
    let source = MemorySource::new(alloc, b"abcdefgh".to_vec(alloc)?, [2].to_vec(alloc)?)?;
    let mut source = source.in_pieces(3);
    let mut buf = [0; 5];
    let answers = [Ok(3), Err(SourceFault::Failed), Ok(3), Ok(2), Ok(0)];
    for want in answers {
        assert_eq!(rt; source.fill(&mut buf), want);
    }
    assert_eq!(rt; buf.as_slice(), b"ghf\0\0".as_slice());
    assert_eq!(rt; source.faults(), 1);
    Ok(())
}

// After so many turns, by this choice: the bytes of the log, where it is there, and of the base.
const IMAGES: [(u64, u64, Option<&[u8]>, &[u8]); 14] = [
    (0, 1, None, b"abc"),
    (1, 1, Some(&[]), b"abc"),
    (2, 3, Some(&[1, 1, 1]), b"abc"),
    (3, 0, None, b"abc"),
    (3, 1, Some(&[7, 8, 9]), b"abXYZ"),
    (3, 2, Some(&[0, 0, 0]), b"ab\0\0\0"),
    (3, 3, Some(&[1, 1, 1]), b"ab\x01\x01\x01"),
    (3, 5, Some(&[210, 79, 113]), &[97, 98, 116, 231, 68]),
    (3, 8, Some(&[243]), &[97, 98, 173, 19, 224]),
    (3, 9, None, &[97, 98, 254, 60]),
    (4, 0, None, b"abXYZ"),
    (5, 0, Some(&[]), b"abXYZ"),
    (6, 1, None, b"abXYZ"),
    (6, 2, Some(&[0, 0, 0]), b"abXYZ"),
];

#[test]
fn images_by_choice(rt: HostRuntime) -> Result<(), Fail> {
    let alloc = rt.alloc();
    let files = vec![in alloc; DiskFile::new(BASE, b"abc".to_vec(alloc)?)]?;
    let mut host = MemoryHost::new(alloc, files, Vec::new(alloc), Vec::new(alloc), 0)?;
    let mut buf = [0; 8];
    let steps = [
        Step::Create,
        Step::Write(0, &[7, 8, 9]),
        Step::WriteBase(2, b"XYZ"),
        Step::SyncBase,
        Step::SyncNames,
        Step::Delete,
    ];
    for step in steps {
        assert_eq!(rt; take(&mut host, step, &mut buf), Ok(0), "at {step:?}");
    }
    for (turn, choice, log, base) in IMAGES {
        assert!(rt; turn <= host.turns());
        let image = host.image_at(turn, choice)?;
        assert_eq!(rt; bytes_of(&image, LOG), log, "the log at {turn} by {choice}");
        assert_eq!(rt;
            bytes_of(&image, BASE),
            Some(base),
            "the base at {turn} by {choice}"
        );
    }
    Ok(())
}

fn bytes_of(image: &[DiskFile], name: FileName) -> Option<&[u8]> {
    image
        .iter()
        .find(|file| file.name() == name)
        .map(|file| file.bytes())
}
