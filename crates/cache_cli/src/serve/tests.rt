// Whole runs in memory: how they end, what they say, and which files stand then.
ghost use Rattle.std.specs.Prelude.{IsTrue, IfOk};
ghost use Rattle.cache_model.specs.Files.{IsFileName};
ghost use Rattle.host_memory.specs.Files.{are_named_apart};

use super::*;
use cache_model::FileName;
use cache_script::file_name_of;
use host_memory::{DiskFile, MemoryHost, MemorySource};
use std::process::Abort;
use std::test::Fail;

// A file of a directory: its name and its bytes.
pub(super) type NamedBytes = (&'static str, &'static [u8]);

// The first data file with one frame, at the moment 1000, whose put of `b` under `a` has the number 1.
pub(super) const ONE_PUT: &[u8] = &[
    1, 1, 1, 0, 0, 0, 0, 0, 0, 0, 1, 255, 255, 255, 255, 255, 255, 255, 255, 0, 1, 0, 0, 0, 1, 97,
    98, 0, 0, 0, 0, 0, 0, 0, 3, 232, 0,
];

// The same frame with its gate closed.
const CLOSED_PUT: &[u8] = &[
    0, 1, 1, 0, 0, 0, 0, 0, 0, 0, 1, 255, 255, 255, 255, 255, 255, 255, 255, 0, 1, 0, 0, 0, 1, 97,
    98, 0, 0, 0, 0, 0, 0, 0, 3, 232, 0,
];

// The file of one put, and behind it a put of `A` under `a` with the number 2.
pub(super) const TWO_PUTS: &[u8] = &[
    1, 1, 1, 0, 0, 0, 0, 0, 0, 0, 1, 255, 255, 255, 255, 255, 255, 255, 255, 0, 1, 0, 0, 0, 1, 97,
    98, 0, 0, 0, 0, 0, 0, 0, 3, 232, 1, 1, 0, 0, 0, 0, 0, 0, 0, 2, 255, 255, 255, 255, 255, 255,
    255, 255, 0, 1, 0, 0, 0, 1, 97, 65, 0, 0, 0, 0, 0, 0, 0, 3, 232, 0,
];

// A put of `v` under `k` that ends at 1010.
const SHORT_PUT: &[u8] = &[
    1, 1, 1, 0, 0, 0, 0, 0, 0, 0, 1, 0, 0, 0, 0, 0, 0, 3, 242, 0, 1, 0, 0, 0, 1, 107, 118, 0, 0, 0,
    0, 0, 0, 0, 3, 232, 0,
];

// A put of `c` under `a` with the number 2.
const NEXT_PUT: &[u8] = &[
    1, 1, 1, 0, 0, 0, 0, 0, 0, 0, 2, 255, 255, 255, 255, 255, 255, 255, 255, 0, 1, 0, 0, 0, 1, 97,
    99, 0, 0, 0, 0, 0, 0, 0, 3, 232, 0,
];

// What a run is given. A call is numbered from 1, so that the number 0 stands for none that fails. No fill gives more
// bytes than a piece has, where that isn't 0.
#[derive(Clone, Copy, Debug)]
struct Given {
    words: &'static [&'static str],
    file: Option<NamedBytes>,
    script: &'static str,
    disk_fail: u64,
    say_fail: u64,
    fill_fail: u64,
    piece: usize,
}

// An empty script over an empty directory, where nothing fails.
const PLAIN: Given = Given {
    words: &["--at", "1000"],
    file: None,
    script: "",
    disk_fail: 0,
    say_fail: 0,
    fill_fail: 0,
    piece: 0,
};

// What comes of a run: how it ends, what it said, and all files that stand then.
#[derive(Clone, Copy, Debug)]
struct Outcome {
    status: Status,
    said: &'static str,
    files: &'static [NamedBytes],
}

// The names of the data files.
pub(super) const FIRST: &str = "s0-0000000001.log";

pub(super) const SECOND: &str = "s0-0000000002.log";

pub(super) const THIRD: &str = "s0-0000000003.log";

pub(super) const FOURTH: &str = "s0-0000000004.log";

const LAST: &str = "s0-4294967294.log";

// Lines over an empty directory.
const LINES: [(Given, Outcome); 6] = [
    (
        PLAIN,
        Outcome {
            status: Status::Done,
            said: "opened 1000\nstopped\n",
            files: &[],
        },
    ),
    (
        Given {
            script: "put a b\n",
            ..PLAIN
        },
        Outcome {
            status: Status::Done,
            said: "opened 1000\nok\nstopped\n",
            files: &[(FIRST, ONE_PUT)],
        },
    ),
    (
        Given {
            script: "put a b\nget a\nput\nput a %41\n",
            ..PLAIN
        },
        Outcome {
            status: Status::Done,
            said: "opened 1000\nok\nvalue b\nrefused syntax\nok\nstopped\n",
            files: &[(FIRST, TWO_PUTS)],
        },
    ),
    (
        Given {
            script: "put k v ttl 10\nat 1009\nget k\nat 1010\nget k\n",
            ..PLAIN
        },
        Outcome {
            status: Status::Done,
            said: "opened 1000\nok\nok\nvalue v\nok\nnone\nstopped\n",
            files: &[(FIRST, SHORT_PUT)],
        },
    ),
    (
        Given {
            words: &["--at", "3"],
            script: "at 9\nat 5\nat 9\n",
            ..PLAIN
        },
        Outcome {
            status: Status::Done,
            said: "opened 3\nok\nrefused past 9\nok\nstopped\n",
            files: &[],
        },
    ),
    // A line may end in a CR too, and behind a line that stops the run nothing is done.
    (
        Given {
            script: "put a b\r\nhas a\r\nstop\nput a c\n",
            ..PLAIN
        },
        Outcome {
            status: Status::Done,
            said: "opened 1000\nok\nyes\nstopped\n",
            files: &[(FIRST, ONE_PUT)],
        },
    ),
];

// A line, and what is said of it.
type Answered = (&'static str, &'static str);

// Each line of a client once at least, in one run.
const TALK: [Answered; 19] = [
    ("putabsent a 1", "ok"),
    ("putabsent a 2", "kept"),
    ("replace a 3", "ok"),
    ("replace b 1", "none"),
    ("replaceif a 1 9", "differs"),
    ("replaceif a 3 4", "ok"),
    ("has a", "yes"),
    ("has b", "no"),
    ("removeif a 3", "differs"),
    ("removeif b 3", "none"),
    ("removeif a 4", "ok"),
    ("remove a", "none"),
    ("put x %00%20", "ok"),
    ("get x", "value %00%20"),
    ("put y %.", "ok"),
    ("get y", "value %."),
    ("keys", "keys x y"),
    ("size", "size 2"),
    ("clear", "cleared 2"),
];

// What is said by a run on the files of that one.
const TALK_AFTER: [Answered; 4] = [
    ("size", "size 0"),
    ("keys", "keys"),
    ("get x", "none"),
    ("has y", "no"),
];

// Lines that are refused, one run of them.
const REFUSALS: [Answered; 13] = [
    ("put", "refused syntax"),
    ("", "refused syntax"),
    ("put a", "refused syntax"),
    ("put a b c", "refused syntax"),
    ("put a %4", "refused syntax"),
    ("get %.", "refused key 0"),
    ("put %. b", "refused key 0"),
    ("put a c ttl 2305843009213693952", "refused ttl"),
    ("at 2305843009213693952", "refused syntax"),
    ("at 999", "refused past 1000"),
    ("clear a", "refused syntax"),
    ("remove", "refused syntax"),
    ("stop a", "refused syntax"),
];

// A part of a script: some text, or a byte so many times.
#[derive(Clone, Copy, Debug)]
pub(super) enum Part {
    Text(&'static str),
    Many(u8, usize),
}

// Scripts with keys, values and lines at their limits and beyond, and what is said.
const LONG: [(&[Part], &str); 2] = [
    (
        &[
            Part::Text("put "),
            Part::Many(b'a', 1024),
            Part::Text(" "),
            Part::Many(b'b', 65_536),
            Part::Text("\nput "),
            Part::Many(b'a', 1025),
            Part::Text(" b\nput a "),
            Part::Many(b'b', 65_537),
            Part::Text("\nsize\n"),
        ],
        "opened 1000\nok\nrefused key 1025\nrefused value 65537\nsize 1\nstopped\n",
    ),
    (
        &[
            Part::Text("put a b ttl -7\n"),
            Part::Many(b'x', 1_048_577),
            Part::Text("\nget a\nput a b ttl 0\nget a\n"),
        ],
        "opened 1000\nok\nrefused long\nvalue b\nok\nnone\nstopped\n",
    ),
];

// Calls that fail, and words that are none.
const FAULTS: [(Given, Outcome); 6] = [
    (
        Given {
            disk_fail: 1,
            ..PLAIN
        },
        Outcome {
            status: Status::DiskFailed,
            said: "",
            files: &[],
        },
    ),
    (
        Given {
            say_fail: 1,
            ..PLAIN
        },
        Outcome {
            status: Status::SayFailed,
            said: "",
            files: &[],
        },
    ),
    (
        Given {
            fill_fail: 1,
            ..PLAIN
        },
        Outcome {
            status: Status::ScriptFailed,
            said: "opened 1000\n",
            files: &[],
        },
    ),
    (
        Given {
            script: "put a b\nget a\n",
            fill_fail: 2,
            piece: 8,
            ..PLAIN
        },
        Outcome {
            status: Status::ScriptFailed,
            said: "opened 1000\nok\n",
            files: &[(FIRST, ONE_PUT)],
        },
    ),
    (
        Given {
            words: &["--at"],
            ..PLAIN
        },
        Outcome {
            status: Status::Usage,
            said: "",
            files: &[],
        },
    ),
    (
        Given {
            words: &["--at", "1", "--at", "2"],
            ..PLAIN
        },
        Outcome {
            status: Status::Usage,
            said: "",
            files: &[],
        },
    ),
];

// Scripts over a directory with a data file.
const OPENINGS: [(Given, Outcome); 5] = [
    (
        Given {
            file: Some((FIRST, &[1])),
            script: "put a b\n",
            ..PLAIN
        },
        Outcome {
            status: Status::Done,
            said: "opened 1000\nok\nstopped\n",
            files: &[(FIRST, &[1]), (SECOND, ONE_PUT)],
        },
    ),
    (
        Given {
            file: Some((FIRST, CLOSED_PUT)),
            script: "get a\n",
            ..PLAIN
        },
        Outcome {
            status: Status::Done,
            said: "opened 1000\nnone\nstopped\n",
            files: &[(FIRST, CLOSED_PUT)],
        },
    ),
    (
        Given {
            file: Some((LAST, &[0])),
            script: "put a b\n",
            ..PLAIN
        },
        Outcome {
            status: Status::Spent,
            said: "opened 1000\n",
            files: &[(LAST, &[0])],
        },
    ),
    (
        Given {
            words: &["--at", "5"],
            file: Some((FIRST, ONE_PUT)),
            script: "get a\n",
            ..PLAIN
        },
        Outcome {
            status: Status::Done,
            said: "opened 1000\nvalue b\nstopped\n",
            files: &[(FIRST, ONE_PUT)],
        },
    ),
    (
        Given {
            file: Some((FIRST, ONE_PUT)),
            script: "put a c\n",
            ..PLAIN
        },
        Outcome {
            status: Status::Done,
            said: "opened 1000\nok\nstopped\n",
            files: &[(FIRST, ONE_PUT), (SECOND, NEXT_PUT)],
        },
    ),
];

// Data files that are damaged, and what is said of them.
const DAMAGES: [(&[u8], &str); 3] = [
    (&[1, 1, 1, 0, 0], "damaged s0-0000000001.log 2 cut\n"),
    (&[1, 2], "damaged s0-0000000001.log 1 version\n"),
    (&[1, 1], "damaged s0-0000000001.log 2 cut\n"),
];

// Files that a directory may not have yet.
const OTHERS: [&str; 3] = ["s0.tree", "s7.tree", "base1.dat"];

// The file's name with this text.
pub(super) fn name_of(rt: &impl Abort, alloc: Global, text: &str) -> Result<FileName, Fail>
    ensures { IfOk result IsFileName }
{
    Ok(file_name_of(alloc, text)?.expect(rt, "a file's name"))
}

// A directory with one file at most.
pub(super) fn directory_of(
    rt: &impl Abort,
    alloc: Global,
    file: Option<NamedBytes>,
) -> Result<Vec<DiskFile>, Fail>
    ensures { IfOk result (λ files. IsTrue (are_named_apart files.items)) }
{
    match file {
        Some((text, bytes)) => {
            let name = name_of(rt, alloc, text)?;
            Ok(vec![in alloc; DiskFile::new(name, bytes.to_vec(alloc)?)]?)
        }
        None => Ok(Vec::new(alloc)),
    }
}

// A host with one file at most.
fn host_of(rt: &impl Abort, alloc: Global, given: &Given) -> Result<MemoryHost, Fail> {
    let files = directory_of(rt, alloc, given.file)?;
    let disk_fail = vec![in alloc; given.disk_fail]?;
    let say_fail = vec![in alloc; given.say_fail]?;
    Ok(MemoryHost::new(alloc, files, disk_fail, say_fail, 0)?)
}

pub(super) fn words_of(alloc: Global, texts: &[&str]) -> Result<Vec<String>, Fail> {
    let mut words = Vec::new(alloc);
    for text in texts {
        words.push(String::from_str(alloc, text)?)?;
    }
    Ok(words)
}

// Runs the program with these words, and says how it ends.
pub(super) fn serve_script(
    alloc: Global,
    words: &[&str],
    host: &mut MemoryHost,
    script: MemorySource,
) -> Result<Status, Fail> {
    let words = words_of(alloc, words)?;
    let mut script = script;
    Ok(serve(alloc, &words, host, &mut script))
}

// Runs the program on what it is given, and says how it ends.
fn run_on(alloc: Global, given: &Given, host: &mut MemoryHost) -> Result<Status, Fail> {
    let bytes = given.script.as_bytes().to_vec(alloc)?;
    let script = MemorySource::new(alloc, bytes, vec![in alloc; given.fill_fail]?)?;
    serve_script(alloc, given.words, host, script.in_pieces(given.piece))
}

// Runs the program, and compares what comes of it.
fn comes_out(rt: &impl Abort, alloc: Global, given: &Given, outcome: &Outcome) -> Result<(), Fail> {
    let mut host = host_of(rt, alloc, given)?;
    let status = run_on(alloc, given, &mut host)?;
    assert_eq!(rt; status, outcome.status, "{given:?}");
    assert_eq!(rt; host.said(), outcome.said.as_bytes(), "{given:?}");
    assert_eq!(rt; host.names()?.len(), outcome.files.len(), "{given:?}");
    for (text, bytes) in outcome.files {
        let name = name_of(rt, alloc, text)?;
        assert_eq!(rt; host.file(name), Some(*bytes), "{given:?}");
    }
    Ok(())
}

fn all_come_out(rt: &impl Abort, alloc: Global, rows: &[(Given, Outcome)]) -> Result<(), Fail> {
    for (given, outcome) in rows {
        comes_out(rt, alloc, given, outcome)?;
    }
    Ok(())
}

#[test]
fn runs_come_out(rt: HostRuntime) -> Result<(), Fail> {
    all_come_out(&rt, rt.alloc(), &LINES)?;
    all_come_out(&rt, rt.alloc(), &FAULTS)?;
    all_come_out(&rt, rt.alloc(), &OPENINGS)
}

#[test]
fn damage_is_named(rt: HostRuntime) -> Result<(), Fail> {
    for (bytes, said) in DAMAGES {
        let given = Given {
            file: Some((FIRST, bytes)),
            script: "put a b\n",
            ..PLAIN
        };
        let mut host = host_of(&rt, rt.alloc(), &given)?;
        let status = run_on(rt.alloc(), &given, &mut host)?;
        assert_eq!(rt; status, Status::Damaged, "at {bytes:?}");
        assert_eq!(rt; host.said(), said.as_bytes(), "at {bytes:?}");
        assert_eq!(rt; host.names()?.len(), 1, "at {bytes:?}");
        let name = name_of(&rt, rt.alloc(), FIRST)?;
        assert_eq!(rt; host.file(name), Some(bytes), "at {bytes:?}");
    }
    Ok(())
}

#[test]
fn other_files_are_refused(rt: HostRuntime) -> Result<(), Fail> {
    for text in OTHERS {
        let given = Given {
            file: Some((text, &[])),
            script: "put a b\n",
            ..PLAIN
        };
        let mut host = host_of(&rt, rt.alloc(), &given)?;
        let status = run_on(rt.alloc(), &given, &mut host)?;
        assert_eq!(rt; status, Status::Usage, "at {text}");
        assert_eq!(rt; host.said(), b"".as_slice(), "at {text}");
        assert_eq!(rt; host.turns(), 0, "at {text}");
    }
    Ok(())
}

// The lines of a talk, or what a run on them says.
fn joined(alloc: Global, words: &[&str]) -> Result<Vec<u8>, Fail> {
    let mut lines = Vec::new(alloc);
    for word in words {
        lines.extend_from_slice(word.as_bytes())?;
        lines.push(b'\n')?;
    }
    Ok(lines)
}

// Runs the program on a talk from the moment 1000 on, and compares what is said.
fn talks(
    rt: &impl Abort,
    alloc: Global,
    host: &mut MemoryHost,
    talk: &[Answered],
) -> Result<(), Fail> {
    let mut lines = Vec::new(alloc);
    let mut said = vec![in alloc; "opened 1000"]?;
    for (line, answer) in talk {
        lines.push(*line)?;
        said.push(*answer)?;
    }
    said.push("stopped")?;
    let script = MemorySource::new(alloc, joined(alloc, &lines)?, Vec::new(alloc))?;
    let status = serve_script(alloc, PLAIN.words, host, script)?;
    assert_eq!(rt; status, Status::Done);
    let said = joined(alloc, &said)?;
    assert_eq!(rt; host.said(), said.as_slice());
    Ok(())
}

// The host of a run on the files that an earlier one left.
fn later_host(alloc: Global, host: &MemoryHost) -> Result<MemoryHost, Fail> {
    // Everything as it reads.
    let image = host.image_at(host.turns(), 1)?;
    Ok(MemoryHost::new(alloc, image, Vec::new(alloc), Vec::new(alloc), 0)?)
}

#[test]
fn later_runs_read_what_was_changed(rt: HostRuntime) -> Result<(), Fail> {
    let alloc = rt.alloc();
    let mut host = host_of(&rt, alloc, &PLAIN)?;
    talks(&rt, alloc, &mut host, &TALK)?;
    talks(&rt, alloc, &mut later_host(alloc, &host)?, &TALK_AFTER)?;
    let given = Given {
        file: Some((FIRST, ONE_PUT)),
        ..PLAIN
    };
    let mut host = host_of(&rt, alloc, &given)?;
    talks(&rt, alloc, &mut host, &[("put a c", "ok")])?;
    talks(
        &rt,
        alloc,
        &mut later_host(alloc, &host)?,
        &[("get a", "value c")],
    )
}

// Refused lines change no file, and no entry.
#[test]
fn refusals_change_nothing(rt: HostRuntime) -> Result<(), Fail> {
    let alloc = rt.alloc();
    let given = Given {
        file: Some((FIRST, ONE_PUT)),
        ..PLAIN
    };
    let mut host = host_of(&rt, alloc, &given)?;
    talks(&rt, alloc, &mut host, &REFUSALS)?;
    assert_eq!(rt; host.names()?.len(), 1);
    assert_eq!(rt; host.file(name_of(&rt, alloc, FIRST)?), Some(ONE_PUT));
    let mut later = later_host(alloc, &host)?;
    talks(
        &rt,
        alloc,
        &mut later,
        &[("keys", "keys a"), ("get a", "value b")],
    )
}

// The bytes of a script.
pub(super) fn script_of(alloc: Global, parts: &[Part]) -> Result<Vec<u8>, Fail> {
    let mut script = Vec::new(alloc);
    for part in parts {
        match part {
            Part::Text(text) => script.extend_from_slice(text.as_bytes())?,
            Part::Many(byte, count) => {
                for _ in 0..*count {
                    script.push(*byte)?;
                }
            }
        }
    }
    Ok(script)
}

#[test]
fn long_lines_come_out(rt: HostRuntime) -> Result<(), Fail> {
    let alloc = rt.alloc();
    for (parts, said) in LONG {
        let mut host = host_of(&rt, alloc, &PLAIN)?;
        let script = MemorySource::new(alloc, script_of(alloc, parts)?, Vec::new(alloc))?;
        let status = serve_script(alloc, PLAIN.words, &mut host, script)?;
        assert_eq!(rt; status, Status::Done, "{parts:?}");
        assert_eq!(rt; host.said(), said.as_bytes(), "{parts:?}");
        // A later run begins at the mark.
        let given = Given {
            words: &["--at", "5"],
            ..PLAIN
        };
        let mut later = later_host(alloc, &host)?;
        assert_eq!(rt;
            run_on(alloc, &given, &mut later)?,
            Status::Done,
            "{parts:?}"
        );
        assert_eq!(rt; later.said(), b"opened 1000\nstopped\n".as_slice());
    }
    Ok(())
}

// The line `halt` is answered, and nothing else is done at it or behind it.
#[test]
fn halt_writes_nothing(rt: HostRuntime) -> Result<(), Fail> {
    let alloc = rt.alloc();
    let given = Given {
        script: "put a b\nhalt\nput a c\n",
        ..PLAIN
    };
    let mut host = host_of(&rt, alloc, &given)?;
    assert_eq!(rt; run_on(alloc, &given, &mut host)?, Status::Done);
    assert_eq!(rt; host.said(), b"opened 1000\nok\nhalted\n".as_slice());
    // The last turn is what is said of it.
    let before = host.image_at(host.turns().saturating_sub(1), 1)?;
    assert_eq!(rt; before.len(), 1);
    assert_eq!(rt; before[0].bytes(), ONE_PUT);
    assert_eq!(rt; host.file(before[0].name()), Some(ONE_PUT));
    assert_eq!(rt; host.names()?.len(), 1);
    Ok(())
}

// Each kind of line, over the file of one put, and what is said where nothing fails.
const SCRIPT: &str = "get a\nput b c\nput\nput a d\nget a\nget b\n";

const SAID: &str = "opened 1000\nvalue b\nok\nrefused syntax\nok\nvalue d\nvalue c\nstopped\n";

#[test]
fn pieces_make_no_difference(rt: HostRuntime) -> Result<(), Fail> {
    for piece in [0, 1, 2, 3] {
        let given = Given {
            file: Some((FIRST, ONE_PUT)),
            script: SCRIPT,
            piece,
            ..PLAIN
        };
        let mut host = host_of(&rt, rt.alloc(), &given)?;
        assert_eq!(rt;
            run_on(rt.alloc(), &given, &mut host)?,
            Status::Done,
            "in {piece}"
        );
        assert_eq!(rt; host.said(), SAID.as_bytes(), "in {piece}");
    }
    Ok(())
}

// How many calls of the disk the script makes: the size of a settings file, the names twice, a sync of the data file and of
// the names, its size and its bytes; for the first put the file, its gate, a sync of both kinds, the version, the record,
// the end, a sync, the gate and a sync; for the second put the record, the end, a sync, the gate and a sync; for each of
// three reads the record; and for the step of the index behind the second read the record of `a` that had an entry, as a
// turn of a compaction had taken the first put into the index.
const DISK_CALLS: u64 = 7 + 10 + 5 + 3 + 1;

#[test]
fn each_call_of_the_disk_fails_in_turn(rt: HostRuntime) -> Result<(), Fail> {
    for number in 1..=DISK_CALLS + 1 {
        let given = Given {
            file: Some((FIRST, ONE_PUT)),
            script: SCRIPT,
            disk_fail: number,
            ..PLAIN
        };
        let mut host = host_of(&rt, rt.alloc(), &given)?;
        let status = run_on(rt.alloc(), &given, &mut host)?;
        assert!(rt; SAID.as_bytes().starts_with(host.said()), "call {number}");
        if number <= DISK_CALLS {
            assert_eq!(rt; status, Status::DiskFailed, "call {number}");
        } else {
            assert_eq!(rt; status, Status::Done, "call {number}");
            assert_eq!(rt; host.said(), SAID.as_bytes());
        }
    }
    Ok(())
}

mod settings;
