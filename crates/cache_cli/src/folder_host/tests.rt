ghost use Rattle.cache_model.specs.Files.{IsFileName};

use super::*;
use cache_model::FileKind;
use std::cell::Cell;
use std::path::PathBuf;
use std::process::Abort;
use std::test::Fail;
use std::{env, process};

const LOG: FileName = FileName {
    kind: FileKind::Log,
    store: 0,
    id: 7,
};

const TREE: FileName = FileName {
    kind: FileKind::Tree,
    store: 3,
    id: 0,
};

const OTHER: FileName = FileName {
    kind: FileKind::Base,
    store: 1,
    id: 0,
};

// Names that are none of the texts that a file may have.
const STRAY: [&str; 14] = [
    "s00-0000000001.log",
    "s256-0000000001.log",
    "s-0000000001.log",
    "s0-0000000000.log",
    "s0-4294967295.log",
    "s0-1.log",
    "s0-00000000001.log",
    "s0-+000000001.log",
    "s0-0000000001.LOG",
    "s01.tree",
    "base2.dat",
    "base00.dat",
    "cache.toml.old",
    "notes",
];

// A fresh folder of the test's own.
fn fresh_folder(rt: &HostRuntime) -> io::Result<PathBuf> {
    let name = format!(in rt.alloc(); "cache_cli-{}", process::id(rt.process()))?;
    let folder = env::temp_dir(rt)?.join(rt.alloc(), name)?;
    let _ = fs::remove_dir_all(rt, folder.as_path());
    fs::create_dir(rt, folder.as_path())?;
    Ok(folder)
}

type Folder = FolderHost<HostRuntime>;

fn host_of(rt: &HostRuntime, folder: &PathBuf) -> io::Result<Folder> {
    let directory = String::from_str(rt.alloc(), folder.as_str())?;
    Ok(FolderHost::new(rt.clone()?, rt.alloc(), directory)?)
}

fn put_stray_files(rt: &HostRuntime, folder: &PathBuf) -> io::Result<()> {
    for stray in STRAY {
        fs::write(rt, folder.join(rt.alloc(), stray)?, "stray")?;
    }
    Ok(())
}

// A file that isn't there, and one that is made, written and synced.
fn writes(rt: &impl Abort, host: &mut Folder) {
    assert_eq!(rt; host.names().map(|names| names.len()), Ok(0));
    assert_eq!(rt; host.size(LOG), Ok(None));
    assert_eq!(rt; host.create(LOG), Ok(()));
    assert_eq!(rt; host.write(LOG, 0, b"abcd"), Ok(()));
    assert_eq!(rt; host.write(LOG, 3, b"xyz"), Ok(()));
    assert_eq!(rt; host.write(LOG, 6, b""), Ok(()));
    assert_eq!(rt; host.sync(LOG), Ok(()));
    assert_eq!(rt; host.create(TREE), Ok(()));
    assert_eq!(rt; host.sync_names(), Ok(()));
    assert_eq!(rt; host.names().map(|names| names.len()), Ok(2));
    assert_eq!(rt; host.say(b""), Ok(()));
}

// What was written, at each offset.
fn reads(rt: &impl Abort, host: &mut Folder) {
    let table = [
        (LOG, 0, 4, *b"abcx"),
        (LOG, 2, 4, *b"cxyz"),
        (LOG, 5, 1, *b"z..."),
        (LOG, 6, 0, *b"...."),
        (LOG, 1 << 63, 0, *b"...."),
        (TREE, 0, 0, *b"...."),
        (OTHER, 0, 0, *b"...."),
    ];
    for (name, at, count, bytes) in table {
        let mut buf = *b"....";
        assert_eq!(rt; host.read(name, at, &mut buf), Ok(count), "at {at}");
        assert_eq!(rt; buf, bytes, "at {at}");
    }
    assert_eq!(rt; host.size(LOG), Ok(Some(6)));
    assert_eq!(rt; host.size(OTHER), Ok(None));
    assert_eq!(rt; (host.disk_faults, host.say_faults), (0, 0));
}

// Each call on what isn't there, and the making of what is, is a fault and is counted.
fn counts_faults(rt: &impl Abort, host: &mut Folder) {
    assert_eq!(rt; host.delete(TREE), Ok(()));
    assert_eq!(rt; host.sync_names(), Ok(()));
    assert_eq!(rt; host.size(TREE), Ok(None));
    let failed = Err(HostFault::Failed);
    assert_eq!(rt; host.create(LOG), failed);
    assert_eq!(rt; host.delete(TREE), failed);
    assert_eq!(rt; host.write(TREE, 0, b"a"), failed);
    assert_eq!(rt; host.sync(TREE), failed);
    assert_eq!(rt; host.write(LOG, 1 << 63, b"a"), failed);
    assert_eq!(rt; (host.disk_faults, host.say_faults), (5, 0));
}

// One of many files, whose number is one above this.
fn other_log(number: u8) -> FileName
    ensures { IsFileName result }
{
    FileName {
        kind: FileKind::Log,
        store: 2,
        id: u32::from(number) + 1,
    }
}

// Looks at a file that has one byte, which tells it from others.
fn reads_own(rt: &impl Abort, host: &mut Folder, id: u8) {
    let mut buf = [0u8];
    assert_eq!(rt; host.read(other_log(id), 0, &mut buf), Ok(1), "file {id}");
    assert_eq!(rt; buf, [id]);
}

// More files than are kept open, each with its own byte. The first one is used again and again.
fn opens_many(rt: &impl Abort, host: &mut Folder) {
    for id in 101..=255u8 {
        assert_eq!(rt; host.create(other_log(id)), Ok(()));
        assert_eq!(rt; host.write(other_log(id), 0, &[id]), Ok(()));
        reads_own(rt, host, 101);
    }
    for id in 102..=255u8 {
        reads_own(rt, host, id);
        reads_own(rt, host, 101);
    }
    assert_eq!(rt; host.names().map(|names| names.len()), Ok(156));
}

// How many files the process has open, that of the count itself among them.
fn open_files(rt: &HostRuntime) -> io::Result<usize> {
    let mut count = 0usize;
    for entry in fs::read_dir(rt, "/proc/self/fd")? {
        entry?;
        count = count.saturating_add(1);
    }
    Ok(count)
}

// Takes a file away behind the host's back: what is open still shows its byte, and what isn't is gone.
fn shows_when_gone(
    rt: &HostRuntime,
    host: &mut Folder,
    folder: &PathBuf,
    id: u8,
) -> io::Result<bool> {
    let name = format!(in rt.alloc(); "s2-{:010}.log", u32::from(id) + 1)?;
    fs::remove_file(rt, folder.join(rt.alloc(), name)?)?;
    let mut buf = [0u8];
    Ok(host.read(other_log(id), 0, &mut buf) == Ok(1))
}

#[test]
fn does_what_the_disk_does(rt: HostRuntime) -> Result<(), Fail> {
    let folder = fresh_folder(&rt)?;
    put_stray_files(&rt, &folder)?;
    let mut host = host_of(&rt, &folder)?;
    // It has no file open yet.
    let mut other = host_of(&rt, &folder)?;
    writes(&rt, &mut host);
    reads(&rt, &mut host);
    reads(&rt, &mut other);
    counts_faults(&rt, &mut host);
    let before = open_files(&rt)?;
    opens_many(&rt, &mut host);
    assert!(rt; open_files(&rt)?.saturating_sub(before) <= 64);
    // The last 63 files are kept and the one that was used all the time, which is used here before each of them.
    for (id, is_kept) in [(192, false), (193, true), (255, true), (101, true)] {
        assert_eq!(rt;
            shows_when_gone(&rt, &mut host, &folder, id)?,
            is_kept,
            "file {id}"
        );
    }
    fs::remove_dir_all(&rt, folder.as_path())?;
    // Now the directory isn't there.
    assert_eq!(rt; other.names().err(), Some(HostFault::Failed));
    assert_eq!(rt; other.create(TREE).err(), Some(HostFault::Failed));
    assert_eq!(rt; other.disk_faults, 2);
    Ok(())
}

// The platform's numbers for an interrupt, and for too many open files.
const INTERRUPT: i32 = 4;

const TOO_MANY: i32 = 24;

// A call that fails so many times.
fn failing(left: &Cell<u32>, number: i32) -> io::Result<u32> {
    match left.get() {
        0 => Ok(7),
        some => {
            left.set(some - 1);
            Err(io::Error::from_raw_os_error(number))
        }
    }
}

#[test]
fn calls_are_made_again(rt: HostRuntime) -> Result<(), Fail> {
    for (interrupts, want) in [
        (0, Ok(7)),
        (1, Ok(7)),
        (999, Ok(7)),
        (1_000, Err(ErrorKind::Interrupted)),
        (1_000_000, Err(ErrorKind::Interrupted)),
    ] {
        let left = Cell::new(interrupts);
        let answer = again(&|| failing(&left, INTERRUPT)).map_err(|error| error.kind());
        assert_eq!(rt; answer, want, "{interrupts} interrupts");
        let mut handles = Handles::new(rt.alloc(), String::new(rt.alloc()))?;
        left.set(interrupts);
        let answer = handles
            .with_room(&|| failing(&left, INTERRUPT))
            .map_err(|error| error.kind());
        assert_eq!(rt; answer, want, "{interrupts} interrupts where there is room");
    }
    Ok(())
}

#[test]
fn files_are_closed_for_others(rt: HostRuntime) -> Result<(), Fail> {
    // With as many files kept, how often a call may find too many open: each time half of those kept are closed.
    for (kept, most) in [(0, 0), (1, 1), (2, 2), (3, 2), (64, 7)] {
        for (refused, is_made) in [(most, true), (most + 1, false)] {
            let mut handles = Handles::new(rt.alloc(), String::new(rt.alloc()))?;
            for id in 0..kept {
                handles.keep(other_log(id), File::open(&rt, "/")?);
            }
            let left = Cell::new(refused);
            let answer = handles.with_room(&|| failing(&left, TOO_MANY));
            assert_eq!(rt; answer.is_ok(), is_made, "{kept} kept, {refused} refusals");
        }
    }
    Ok(())
}
