// Runs over directories with a settings file.
use super::*;

const RULES: &str = "cache.toml";

const WRONG: NamedBytes = (RULES, b"pump = 1001");

const RIGHT: NamedBytes = (RULES, b"pump = 7\n");

// One put over the settings file, which stays as it is: what the words, the settings and failing calls of the disk come
// to. The file's size is asked first, then the file is read, and then the directory is listed.
const ROWS: [(Given, Outcome); 7] = [
    (
        Given {
            file: Some(RIGHT),
            script: "put a b\n",
            ..PLAIN
        },
        Outcome {
            status: Status::Done,
            said: "opened 1000\nok\nstopped\n",
            files: &[RIGHT, (FIRST, ONE_PUT)],
        },
    ),
    (
        Given {
            file: Some(WRONG),
            script: "put a b\n",
            ..PLAIN
        },
        Outcome {
            status: Status::Settings,
            said: "",
            files: &[WRONG],
        },
    ),
    (
        Given {
            file: Some((RULES, b"\xff")),
            script: "put a b\n",
            ..PLAIN
        },
        Outcome {
            status: Status::Settings,
            said: "",
            files: &[(RULES, b"\xff")],
        },
    ),
    // The words come first.
    (
        Given {
            words: &["--at"],
            file: Some(WRONG),
            ..PLAIN
        },
        Outcome {
            status: Status::Usage,
            said: "",
            files: &[WRONG],
        },
    ),
    (
        Given {
            file: Some(WRONG),
            disk_fail: 1,
            ..PLAIN
        },
        Outcome {
            status: Status::DiskFailed,
            said: "",
            files: &[WRONG],
        },
    ),
    (
        Given {
            file: Some(RIGHT),
            disk_fail: 2,
            ..PLAIN
        },
        Outcome {
            status: Status::DiskFailed,
            said: "",
            files: &[RIGHT],
        },
    ),
    (
        Given {
            file: Some(RIGHT),
            disk_fail: 3,
            ..PLAIN
        },
        Outcome {
            status: Status::DiskFailed,
            said: "",
            files: &[RIGHT],
        },
    ),
];

#[test]
fn settings_come_out(rt: HostRuntime) -> Result<(), Fail> {
    all_come_out(&rt, rt.alloc(), &ROWS)
}

// Wrong settings take no turn of the host.
#[test]
fn wrong_settings_change_nothing(rt: HostRuntime) -> Result<(), Fail> {
    let given = Given {
        file: Some(WRONG),
        script: "put a b\n",
        ..PLAIN
    };
    let mut host = host_of(&rt, rt.alloc(), &given)?;
    assert_eq!(rt; run_on(rt.alloc(), &given, &mut host)?, Status::Settings);
    assert_eq!(rt; host.turns(), 0);
    Ok(())
}

const LOOSE: NamedBytes = (RULES, b"sync_writes = false\npump = 0\n");

// The first data file: a frame with a put of `v1` under `k`, and one in the making, whose gate is closed, with a put of
// `v2`.
const LOOSE_PUTS: &[u8] = &[
    1, 1, 1, 0, 0, 0, 0, 0, 0, 0, 1, 255, 255, 255, 255, 255, 255, 255, 255, 0, 1, 0, 0, 0, 2, 107,
    118, 49, 0, 0, 0, 0, 0, 0, 0, 3, 232, 0, 1, 0, 0, 0, 0, 0, 0, 0, 2, 255, 255, 255, 255, 255,
    255, 255, 255, 0, 1, 0, 0, 0, 2, 107, 118, 50,
];

// Without synced writes a put counts from the next sync on.
#[test]
fn sync_writes_is_in_force(rt: HostRuntime) -> Result<(), Fail> {
    let alloc = rt.alloc();
    let given = Given {
        file: Some(LOOSE),
        script: "put k v1\nsync\nput k v2\nhalt\n",
        ..PLAIN
    };
    let outcome = Outcome {
        status: Status::Done,
        said: "opened 1000\nok\nok\nok\nhalted\n",
        files: &[LOOSE, (FIRST, LOOSE_PUTS)],
    };
    comes_out(&rt, alloc, &given, &outcome)?;
    let mut host = host_of(&rt, alloc, &given)?;
    assert_eq!(rt; run_on(alloc, &given, &mut host)?, Status::Done);
    let mut later = later_host(alloc, &host)?;
    talks(&rt, alloc, &mut later, &[("get k", "value v1")])
}

// The puts of three values, the first of which fill a file to its last byte.
const FULL: [Part; 5] = [
    Part::Text("put k "),
    Part::Many(b'a', 4_000),
    Part::Text("\nput k "),
    Part::Many(b'b', 26),
    Part::Text("\nput k c\n"),
];

#[test]
fn file_size_is_in_force(rt: HostRuntime) -> Result<(), Fail> {
    let alloc = rt.alloc();
    let given = Given {
        file: Some((RULES, b"file_size = 4096\npump = 0\n")),
        ..PLAIN
    };
    let mut host = host_of(&rt, alloc, &given)?;
    let script = MemorySource::new(alloc, script_of(alloc, &FULL)?, Vec::new(alloc))?;
    let status = serve_script(alloc, PLAIN.words, &mut host, script)?;
    assert_eq!(rt; status, Status::Done);
    assert_eq!(rt;
        host.said(),
        b"opened 1000\nok\nok\nok\nstopped\n".as_slice()
    );
    assert_eq!(rt; host.names()?.len(), 3);
    for (text, size) in [(FIRST, 4_096), (SECOND, 37)] {
        let name = name_of(&rt, alloc, text)?;
        assert_eq!(rt;
            host.file(name).map(|bytes| bytes.len()),
            Some(size),
            "{text}"
        );
    }
    Ok(())
}

// With no bits of the hash all keys have one hash, and they are kept apart.
#[test]
fn hash_bits_is_in_force(rt: HostRuntime) -> Result<(), Fail> {
    let alloc = rt.alloc();
    let given = Given {
        file: Some((RULES, b"hash_bits = 0\npump = 5\n")),
        ..PLAIN
    };
    let mut host = host_of(&rt, alloc, &given)?;
    talks(
        &rt,
        alloc,
        &mut host,
        &[
            ("put a 1", "ok"),
            ("put b 2", "ok"),
            ("remove a", "ok"),
            ("get a", "none"),
            ("get b", "value 2"),
            ("keys", "keys b"),
        ],
    )
}
