// Runs by settings that are handed in: where files end, what is written and not yet sealed, what a step does, what a count
// of the files gives, which files compactions leave, and that the steps behind the answers make no difference where no
// file is compacted.
ghost use Rattle.std.specs.Prelude.{◌≤◌, IfOk};
ghost use Rattle.cache_model.specs.Settings.{AreInRange};

use super::tests::{
    FIRST, NamedBytes, ONE_PUT, Part, SECOND, THIRD, TWO_PUTS, directory_of, name_of, script_of,
    words_of,
};
use super::*;
use cache_model::Settings;
use host_memory::{MemoryHost, MemorySource};
use std::process::Abort;
use std::test::Fail;

const WORDS: [&str; 2] = ["--at", "1000"];

// The least size at which a file may end.
const LEAST: u64 = 4096;

// Two puts under `k` of `v1` and `v2` at the moment 1000: the first in a frame that counts, the second behind its closed
// gate.
const SYNCED_AND_NOT: &[u8] = &[
    1, 1, 1, 0, 0, 0, 0, 0, 0, 0, 1, 255, 255, 255, 255, 255, 255, 255, 255, 0, 1, 0, 0, 0, 2, 107,
    118, 49, 0, 0, 0, 0, 0, 0, 0, 3, 232, 0, 1, 0, 0, 0, 0, 0, 0, 0, 2, 255, 255, 255, 255, 255,
    255, 255, 255, 0, 1, 0, 0, 0, 2, 107, 118, 50,
];

// A put of `c` under `a` with the number 2, alone in its file.
const SECOND_PUT: &[u8] = &[
    1, 1, 1, 0, 0, 0, 0, 0, 0, 0, 2, 255, 255, 255, 255, 255, 255, 255, 255, 0, 1, 0, 0, 0, 1, 97,
    99, 0, 0, 0, 0, 0, 0, 0, 3, 232, 0,
];

// The first put behind a closed gate, and nothing behind it.
const NOT_SEALED: &[u8] = &[
    0, 1, 1, 0, 0, 0, 0, 0, 0, 0, 1, 255, 255, 255, 255, 255, 255, 255, 255, 0, 1, 0, 0, 0, 1, 97,
    98,
];

// What the compaction of a file leaves of three puts of `x` under `a` and one of `v1` under `k`: the third and the fourth,
// as they were numbered. Behind them stands a put of `v2` under `k`, in the same frame.
const COPIES_AND_PUT: &[u8] = &[
    1, 1, 1, 0, 0, 0, 0, 0, 0, 0, 3, 255, 255, 255, 255, 255, 255, 255, 255, 0, 1, 0, 0, 0, 1, 97,
    120, 1, 0, 0, 0, 0, 0, 0, 0, 4, 255, 255, 255, 255, 255, 255, 255, 255, 0, 1, 0, 0, 0, 2, 107,
    118, 49, 1, 0, 0, 0, 0, 0, 0, 0, 5, 255, 255, 255, 255, 255, 255, 255, 255, 0, 1, 0, 0, 0, 2,
    107, 118, 50, 0, 0, 0, 0, 0, 0, 0, 3, 232, 0,
];

// The newest records of three keys at the moment 1003: a put of `2` under `b` that ended then, with the number 2, the
// removal of `c` with the number 4, and a put of `4` under `a` with the number 5.
const NEWEST_OF_EACH: &[u8] = &[
    1, 1, 1, 0, 0, 0, 0, 0, 0, 0, 2, 0, 0, 0, 0, 0, 0, 3, 235, 0, 1, 0, 0, 0, 1, 98, 50, 2, 0, 0,
    0, 0, 0, 0, 0, 4, 0, 1, 99, 1, 0, 0, 0, 0, 0, 0, 0, 5, 255, 255, 255, 255, 255, 255, 255, 255,
    0, 1, 0, 0, 0, 1, 97, 52, 0, 0, 0, 0, 0, 0, 0, 3, 235, 0,
];

// The removal of `k` with the number 2, alone in its file.
const REMOVAL: &[u8] = &[
    1, 1, 2, 0, 0, 0, 0, 0, 0, 0, 2, 0, 1, 107, 0, 0, 0, 0, 0, 0, 0, 3, 232, 0,
];

// A stamp, alone in its file.
const STAMP: &[u8] = &[1, 1, 0, 0, 0, 0, 0, 0, 0, 3, 232, 0];

// A stamp, and a frame with puts of `2` under `a` and of `3` under `b`, as they were numbered.
const STAMP_AND_COPIES: &[u8] = &[
    1, 1, 0, 0, 0, 0, 0, 0, 0, 3, 232, 1, 1, 0, 0, 0, 0, 0, 0, 0, 2, 255, 255, 255, 255, 255, 255,
    255, 255, 0, 1, 0, 0, 0, 1, 97, 50, 1, 0, 0, 0, 0, 0, 0, 0, 3, 255, 255, 255, 255, 255, 255,
    255, 255, 0, 1, 0, 0, 0, 1, 98, 51, 0, 0, 0, 0, 0, 0, 0, 3, 232, 0,
];

// The settings with other sizes of files, with or without a sync of each change, and with so many steps behind each answer.
pub(super) fn settings_of(
    alloc: Global,
    beyond: u8,
    sync_writes: bool,
    pump: u64,
) -> Result<Settings, Fail>
    requires { pump ≤ 1000 }
    ensures { IfOk result AreInRange }
{
    let defaults = Settings::defaults(alloc)?;
    Ok(Settings {
        file_size: LEAST + u64::from(beyond),
        sync_writes,
        pump,
        ..defaults
    })
}

// Runs the program by these settings, and says how it ends.
pub(super) fn serve_lines(
    alloc: Global,
    settings: &Settings,
    host: &mut MemoryHost,
    script: Vec<u8>,
) -> Result<Status, Fail>
    requires range { AreInRange settings.now }
{
    let words = words_of(alloc, &WORDS)?;
    let mut script = MemorySource::new(alloc, script, Vec::new(alloc))?;
    Ok(serve_with(alloc, &words, settings, host, &mut script))
}

// A run over an empty directory: whether each change is synced, the script, what it says, and the files that stand then.
type Run = (bool, &'static str, &'static str, &'static [NamedBytes]);

const RUNS: [Run; 9] = [
    // What isn't sealed stays behind its closed gate.
    (
        false,
        "put k v1\nsync\nput k v2\nhalt\n",
        "opened 1000\nok\nok\nok\nhalted\n",
        &[(FIRST, SYNCED_AND_NOT)],
    ),
    (
        false,
        "put a b\nhalt\n",
        "opened 1000\nok\nhalted\n",
        &[(FIRST, NOT_SEALED)],
    ),
    // The end of the script seals it.
    (
        false,
        "put a b\n",
        "opened 1000\nok\nstopped\n",
        &[(FIRST, ONE_PUT)],
    ),
    (
        false,
        "put a b\nsync\nsync\nhalt\n",
        "opened 1000\nok\nok\nok\nhalted\n",
        &[(FIRST, ONE_PUT)],
    ),
    // So does the end of the file.
    (
        false,
        "put a b\nstep rotate\nhalt\n",
        "opened 1000\nok\ndone\nhalted\n",
        &[(FIRST, ONE_PUT)],
    ),
    // Without changes there is nothing to sync, and no file.
    (
        false,
        "sync\nstep rotate\n",
        "opened 1000\nok\nidle\nstopped\n",
        &[],
    ),
    // A step closes the file that is written, where there is one.
    (
        true,
        "step rotate\nstep index\nput a b\nstep rotate\nstep rotate\n",
        "opened 1000\nidle\nidle\nok\ndone\nidle\nstopped\n",
        &[(FIRST, ONE_PUT)],
    ),
    // What is live is the newest record of each key, also where it isn't sealed yet.
    (
        false,
        "put k v1\nsync\nput k v2\nstats\nhalt\n",
        "opened 1000\nok\nok\nok\nstats files 1 bytes 64 live 26 pending 0 held 0\nhalted\n",
        &[(FIRST, SYNCED_AND_NOT)],
    ),
    (
        true,
        "put a b\nstep\nstep Rotate\nstep rotate x\nsync x\nsync\n",
        "opened 1000\nok\nrefused syntax\nrefused syntax\nrefused syntax\nrefused syntax\nok\nstopped\n",
        &[(FIRST, ONE_PUT)],
    ),
];

// Runs that leave a file of which nothing is live: steps behind the answers would compact it.
const DEAD: [Run; 2] = [
    (
        true,
        "put a b\nstep rotate\nput a c\n",
        "opened 1000\nok\ndone\nok\nstopped\n",
        &[(FIRST, ONE_PUT), (SECOND, SECOND_PUT)],
    ),
    (
        true,
        "stats\nput a b\nstats\nstep rotate\nput a c\nstats\n",
        "opened 1000\nstats files 0 bytes 0 live 0 pending 0 held 0\nok\nstats files 1 bytes 37 live 25 pending 0 held 0\ndone\nok\nstats files 2 bytes 74 live 25 pending 0 held 0\nstopped\n",
        &[(FIRST, ONE_PUT), (SECOND, SECOND_PUT)],
    ),
];

// Runs that compact files line by line.
const COMPACTED: [Run; 9] = [
    // A turn is idle where there is no file, and where only the one that is written has few live bytes.
    (
        true,
        "step compact\nput a b\nput a A\nstep compact\n",
        "opened 1000\nidle\nok\nok\nidle\nstopped\n",
        &[(FIRST, TWO_PUTS)],
    ),
    // So it is where most bytes are live. Once none is, each turn takes one action.
    (
        true,
        "put a b\nstep rotate\nstep compact\nput a c\nstep compact\nstep compact\nstep compact\nstep compact\n",
        "opened 1000\nok\ndone\nidle\nok\ndone\ndone\ndone\nidle\nstopped\n",
        &[(SECOND, SECOND_PUT)],
    ),
    // Two records are passed over, two are copied, and then the file goes. What is put between is newer than its copy.
    (
        true,
        "put a x\nput a x\nput a x\nput k v1\nstep rotate\nstep index\nstep index\nstep index\nstep index\nstep compact\nstep compact\nstep compact\nstep compact\nput k v2\nstep index\nstep index\nstep index\nstep index\nget k\nstep compact\nstep compact\nstep compact\nstats\n",
        "opened 1000\nok\nok\nok\nok\ndone\ndone\ndone\ndone\ndone\ndone\ndone\ndone\ndone\nok\ndone\ndone\ndone\nidle\nvalue v2\ndone\ndone\nidle\nstats files 1 bytes 89 live 51 pending 0 held 0\nstopped\n",
        &[(SECOND, COPIES_AND_PUT)],
    ),
    // A record is copied where it is its key's newest, also one that expired and one that removes its key. What was put
    // before them isn't.
    (
        true,
        "put a 1\nput b 2 ttl 3\nput c 3\nat 1003\nremove c\nput a 4\nstep rotate\nstep compact\nstep compact\nstep compact\nstep compact\nstep compact\nstep compact\nstep compact\nstep compact\nkeys\n",
        "opened 1000\nok\nok\nok\nok\nok\nok\ndone\ndone\ndone\ndone\ndone\ndone\ndone\ndone\nidle\nkeys a\nstopped\n",
        &[(SECOND, NEWEST_OF_EACH)],
    ),
    // A file that is named is compacted whole, where it's there.
    (
        true,
        "put k v1\nstep rotate\nremove k\nstep rotate\ncompact 1\ncompact 1\ncompact 9\n",
        "opened 1000\nok\ndone\nok\ndone\ndone\nidle\nidle\nstopped\n",
        &[(SECOND, REMOVAL), (THIRD, STAMP)],
    ),
    // The one that is written isn't, and nothing waits for the index then. No file has these other numbers, or could.
    (
        true,
        "put a b\ncompact 1\nstep index\ncompact 0\ncompact 2\ncompact 4294967295\ncompact 4294967296\nget a\nstep index\n",
        "opened 1000\nok\nidle\nidle\nidle\nidle\nidle\nrefused syntax\nvalue b\nidle\nstopped\n",
        &[(FIRST, ONE_PUT)],
    ),
    // The compaction of the file that is named was under way, so that the file is gone once that has ended.
    (
        true,
        "put a b\nstep rotate\nput a c\nstep compact\ncompact 1\nstep index\nstep compact\nget a\nkeys\n",
        "opened 1000\nok\ndone\nok\ndone\nidle\nidle\nidle\nvalue c\nkeys a\nstopped\n",
        &[(SECOND, SECOND_PUT)],
    ),
    // That of another one was. Both of the records that are copied then are live, and two requests wait behind it.
    (
        true,
        "put a 1\nstep rotate\nput a 2\nput b 3\nstep rotate\nstep compact\ncompact 2\nget a\nget b\nstep index\nstep index\nstep index\nstep compact\nkeys\nstats\n",
        "opened 1000\nok\ndone\nok\nok\ndone\ndone\ndone\nvalue 2\nvalue 3\ndone\ndone\nidle\nidle\nkeys a b\nstats files 1 bytes 72 live 50 pending 0 held 0\nstopped\n",
        &[(THIRD, STAMP_AND_COPIES)],
    ),
    // All files are, the one that was written too. What two requests wait for are the records of the last one.
    (
        true,
        "compact\nput a 1\nstep rotate\nput a 2\nput b 3\ncompact\nget a\nget b\nstep index\nstep index\nstep index\nstep compact\nkeys\nstats\n",
        "opened 1000\ncompacted\nok\ndone\nok\nok\ncompacted\nvalue 2\nvalue 3\ndone\ndone\nidle\nidle\nkeys a b\nstats files 1 bytes 72 live 50 pending 0 held 0\nstopped\n",
        &[(THIRD, STAMP_AND_COPIES)],
    ),
];

// A run whose steps behind the answers compact the file.
const COMPACTED_BEHIND: [Run; 1] = [(
    true,
    "put a b\nstep rotate\nput a c\n",
    "opened 1000\nok\ndone\nok\nstopped\n",
    &[(SECOND, SECOND_PUT)],
)];

// A host over an empty directory.
fn empty_host(rt: &impl Abort, alloc: Global) -> Result<MemoryHost, Fail> {
    let files = directory_of(rt, alloc, None)?;
    Ok(MemoryHost::new(alloc, files, Vec::new(alloc), Vec::new(alloc), 0)?)
}

// Just these files stand, each with its bytes.
fn has_files(
    rt: &impl Abort,
    alloc: Global,
    host: &mut MemoryHost,
    files: &[NamedBytes],
) -> Result<(), Fail> {
    assert_eq!(rt; host.names()?.len(), files.len(), "{files:?}");
    for (text, bytes) in files {
        let name = name_of(rt, alloc, text)?;
        assert_eq!(rt; host.file(name), Some(*bytes), "{text}");
    }
    Ok(())
}

// With so many steps behind each answer the runs come out.
fn runs_come_out(rt: &impl Abort, alloc: Global, pump: u64, runs: &[Run]) -> Result<(), Fail>
    requires { pump ≤ 1000 }
{
    for (sync_writes, script, said, files) in runs {
        let settings = settings_of(alloc, 0, *sync_writes, pump)?;
        let mut host = empty_host(rt, alloc)?;
        let script = script.as_bytes().to_vec(alloc)?;
        let status = serve_lines(alloc, &settings, &mut host, script)?;
        assert_eq!(rt; status, Status::Done, "{said} by {pump}");
        assert_eq!(rt; host.said(), said.as_bytes(), "by {pump}");
        has_files(rt, alloc, &mut host, files)?;
    }
    Ok(())
}

#[test]
fn runs_by_settings_come_out(rt: HostRuntime) -> Result<(), Fail> {
    runs_come_out(&rt, rt.alloc(), 0, &DEAD)?;
    runs_come_out(&rt, rt.alloc(), 0, &COMPACTED)?;
    runs_come_out(&rt, rt.alloc(), 1000, &COMPACTED_BEHIND)?;
    runs_come_out(&rt, rt.alloc(), 0, &RUNS)?;
    runs_come_out(&rt, rt.alloc(), 1, &RUNS)?;
    runs_come_out(&rt, rt.alloc(), 5, &RUNS)?;
    runs_come_out(&rt, rt.alloc(), 1000, &RUNS)
}

// What wasn't sealed is read by no later run, and what was is.
#[test]
fn a_later_run_reads_what_was_synced(rt: HostRuntime) -> Result<(), Fail> {
    let alloc = rt.alloc();
    let settings = settings_of(alloc, 0, false, 1)?;
    let files = directory_of(&rt, alloc, Some((FIRST, SYNCED_AND_NOT)))?;
    let mut host = MemoryHost::new(alloc, files, Vec::new(alloc), Vec::new(alloc), 0)?;
    let status = serve_lines(alloc, &settings, &mut host, b"get k\n".to_vec(alloc)?)?;
    assert_eq!(rt; status, Status::Done);
    assert_eq!(rt; host.said(), b"opened 1000\nvalue v1\nstopped\n".as_slice());
    assert_eq!(rt; host.names()?.len(), 1);
    Ok(())
}

// Three puts, the first of 4,000 bytes, the second of so many, the third of one: at how many bytes beyond 4,096 a file
// ends, whether each change is synced, and how large the two files are then.
type Sized = (u8, bool, usize, usize, usize);

const SIZES: [Sized; 9] = [
    // With the second put the file has 4,095, 4,096 or 4,097 bytes, or it goes into the next file.
    (0, true, 25, 4095, 37),
    (0, true, 26, 4096, 37),
    (0, true, 27, 4036, 98),
    (1, true, 26, 4096, 37),
    (1, true, 27, 4097, 37),
    (1, true, 28, 4036, 99),
    // Two puts in one frame.
    (0, false, 36, 4096, 37),
    (0, false, 37, 4036, 98),
    (1, false, 37, 4097, 37),
];

#[test]
fn files_end_at_their_size(rt: HostRuntime) -> Result<(), Fail> {
    let alloc = rt.alloc();
    for row in SIZES {
        let (beyond, sync_writes, second, first_size, second_size) = row;
        let script = script_of(
            alloc,
            &[
                Part::Text("put k "),
                Part::Many(b'a', 4000),
                Part::Text("\nput k "),
                Part::Many(b'b', second),
                Part::Text("\nput k c\nget k\n"),
            ],
        )?;
        let settings = settings_of(alloc, beyond, sync_writes, 1)?;
        let mut host = empty_host(&rt, alloc)?;
        let status = serve_lines(alloc, &settings, &mut host, script)?;
        assert_eq!(rt; status, Status::Done, "{row:?}");
        assert_eq!(rt;
            host.said(),
            b"opened 1000\nok\nok\nok\nvalue c\nstopped\n".as_slice()
        );
        assert_eq!(rt; host.names()?.len(), 2, "{row:?}");
        for (text, size) in [(FIRST, first_size), (SECOND, second_size)] {
            let name = name_of(&rt, alloc, text)?;
            let bytes = host.file(name).expect(&rt, "a data file");
            assert_eq!(rt; bytes.len(), size, "{row:?}");
        }
    }
    Ok(())
}
