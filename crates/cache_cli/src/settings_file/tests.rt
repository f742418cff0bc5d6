// What texts give, and which are wrong.
use super::*;
use std::process::Abort;
use std::test::Fail;

// A setting, values that it takes with what shows of them, and values that it doesn't take.
type Row = (
    &'static str,
    &'static [(&'static str, &'static str)],
    &'static [&'static str],
);

// Each setting at the ends of its range and one past them.
const RANGES: [Row; 12] = [
    (
        "file_size",
        &[
            ("4096", "4096"),
            ("16777216", "16777216"),
            ("0x1000", "4096"),
        ],
        &["4095", "16777217", "-4096", "0"],
    ),
    (
        "compact_below",
        &[("1", "1"), ("99", "99"), ("+50", "50")],
        &["0", "100", "-1"],
    ),
    ("queue", &[("1", "1"), ("65536", "65536")], &["0", "65537"]),
    ("nodes", &[("8", "8"), ("65_536", "65536")], &["7", "65537"]),
    ("hash_bits", &[("0", "0"), ("32", "32")], &["-1", "33"]),
    (
        "sync_writes",
        &[("true", "true"), ("false", "false")],
        &["0", "\"true\""],
    ),
    (
        "mode",
        &[
            ("\"through\"", "Through"),
            ("'behind'", "Behind"),
            ("\"passivation\"", "Passivation"),
        ],
        &["\"Through\"", "\"\"", "\"through \""],
    ),
    (
        "behind_limit",
        &[("1", "1"), ("65536", "65536")],
        &["0", "65537"],
    ),
    (
        "max_entries",
        &[("1", "1"), ("1000000", "1000000")],
        &["0", "1000001", "1_000_001"],
    ),
    ("pump", &[("0", "0"), ("1_000", "1000")], &["-1", "1001"]),
    (
        "preload",
        &[("true", "true"), ("false", "false")],
        &["1", "\"false\""],
    ),
    (
        "activation",
        &[("\"keep\"", "Keep")],
        &["\"remove\"", "\"keep \""],
    ),
];

// Values of each type that no setting has, and those of the other types.
const NO_TYPE: [&str; 6] = ["{}", "[]", "[1]", "16.0", "1979-05-27", "07:32:00"];

const NUMBERS: [&str; 2] = ["true", "\"16\""];

const TRUTHS: [&str; 2] = ["1", "\"true\""];

const STRINGS: [&str; 2] = ["16", "true"];

// Texts that give the defaults.
const DEFAULTS: [&str; 8] = [
    "",
    "\n",
    "# nothing\n\t# here",
    "# nothing\r\n\r\n",
    "\u{feff}",
    "file_size = 16777216\r\nsync_writes = true\r\npump = 1\r\n",
    "compact_below = 50\nqueue = 1000\nnodes = 64\nhash_bits = 32\nmode = \"through\"\nbehind_limit = 1024",
    "max_entries = 1000\npreload = false\npublish = \"\"\nactivation = \"keep\"\n",
];

// Texts of settings that are in force, and what shows of them.
const IN_FORCE: [(&str, &str); 11] = [
    ("file_size = 4096", "file_size: 4096,"),
    ("compact_below = 49", "compact_below: 49,"),
    ("pump = 0", "pump: 0,"),
    ("pump = 1000 # the most", "pump: 1000,"),
    ("\"pump\" = 3", "pump: 3,"),
    ("\tpump=0b11\r\n", "pump: 3,"),
    ("hash_bits = 0", "hash_bits: 0,"),
    ("hash_bits = 0x1F", "hash_bits: 31,"),
    ("sync_writes = false", "sync_writes: false,"),
    (
        "pump = 2\nsync_writes = false\nfile_size = 5000",
        "file_size: 5000,",
    ),
    (
        "pump = 2\nsync_writes = false\nfile_size = 5000",
        "pump: 2,",
    ),
];

// Texts that are wrong.
const WRONG: [&str; 27] = [
    // No document.
    "pump",
    "pump =",
    "pump = 1 2",
    "pump = 01",
    "pump = 1__0",
    "pump = 9223372036854775808",
    "pump = 1 sync_writes = true",
    "pump = 1\rsync_writes = true",
    // Twice.
    "pump = 1\npump = 1",
    "pump = 1\n\"pump\" = 1",
    "pump = 1\npump.a = 1",
    // Other names, and names that aren't at the top.
    "Pump = 1",
    "pumps = 1",
    "\"\" = 1",
    "\"pump \" = 1",
    "file-size = 4096",
    "[pump]",
    "[settings]\npump = 1",
    "[[pump]]",
    "settings.pump = 1",
    "pump.steps = 1",
    // In their ranges, and not built yet.
    "nodes = 8",
    "mode = \"behind\"",
    "behind_limit = 1",
    "max_entries = 1000000",
    "preload = true",
    "publish = \"a\"",
];

// What a text gives before it is asked what is in force.
fn given(alloc: Global, text: &[u8]) -> Result<Option<Settings>, Fail> {
    let table = toml::table_from_slice(alloc, text)?;
    let standard = Settings::defaults(alloc)?;
    let Some(bytes) = string_at(&table, "publish", PUBLISH_LIMIT, standard.publish.bytes()) else {
        return Ok(None);
    };
    let publish = Prefix::of(alloc, bytes)?;
    Ok(settings_of(&table, &standard, publish))
}

// Whether the bytes are wrong.
fn is_wrong(alloc: Global, bytes: &[u8]) -> bool {
    matches!(read_settings(alloc, bytes), Err(SettingsFault::Wrong))
}

// What shows of the settings that are read from a text.
fn shown(alloc: Global, text: &str) -> Result<String, Fail> {
    let settings = read_settings(alloc, text.as_bytes())?;
    Ok(format!(in alloc; "{settings:?}")?)
}

fn check_row<R: Abort>(rt: &R, alloc: Global, row: &Row) -> Result<(), Fail> {
    let (name, taken, refused) = row;
    for (value, shown) in *taken {
        let text = format!(in alloc; "{name} = {value}")?;
        let settings = given(alloc, text.as_bytes())?.ok_or("a value in its range")?;
        let all = format!(in alloc; "{settings:?}")?;
        let part = format!(in alloc; "{name}: {shown}")?;
        assert!(rt; all.as_str().contains(part.as_str()), "{text}");
    }
    check_wrong(rt, alloc, name, refused)
}

fn check_wrong<R: Abort>(
    rt: &R,
    alloc: Global,
    name: &str,
    values: &[&'static str],
) -> Result<(), Fail> {
    for value in values {
        let text = format!(in alloc; "{name} = {value}")?;
        assert!(rt; given(alloc, text.as_bytes())?.is_none(), "{text}");
        assert!(rt; is_wrong(alloc, text.as_bytes()), "{text}");
    }
    Ok(())
}

// The values of other types than a setting's.
fn check_types<R: Abort>(rt: &R, alloc: Global, name: &str) -> Result<(), Fail> {
    check_wrong(rt, alloc, name, &NO_TYPE)?;
    let others = match name {
        "sync_writes" | "preload" => &TRUTHS,
        "mode" | "publish" | "activation" => &STRINGS,
        _ => &NUMBERS,
    };
    check_wrong(rt, alloc, name, others)
}

#[test]
fn ranges(rt: HostRuntime) -> Result<(), Fail> {
    let alloc = rt.alloc();
    for row in &RANGES {
        check_row(&rt, alloc, row)?;
    }
    Ok(())
}

#[test]
fn types(rt: HostRuntime) -> Result<(), Fail> {
    let alloc = rt.alloc();
    for name in &NAMES {
        check_types(&rt, alloc, name)?;
    }
    Ok(())
}

#[test]
fn texts(rt: HostRuntime) -> Result<(), Fail> {
    let alloc = rt.alloc();
    let defaults = Settings::defaults(alloc)?;
    let defaults = format!(in alloc; "{defaults:?}")?;
    for text in &DEFAULTS {
        assert_eq!(rt; shown(alloc, text)?.as_str(), defaults.as_str(), "{text}");
    }
    for (text, part) in &IN_FORCE {
        assert!(rt; shown(alloc, text)?.as_str().contains(part), "{text}");
    }
    for text in &WRONG {
        assert!(rt; is_wrong(alloc, text.as_bytes()), "{text}");
    }
    Ok(())
}

// A setting, and a comment of spaces that makes a file of so many bytes.
fn padded(alloc: Global, size: usize) -> Result<Vec<u8>, Fail> {
    let mut bytes = Vec::from_slice(alloc, b"pump = 7\n#")?;
    bytes.resize(size, b' ')?;
    Ok(bytes)
}

// A text of `publish` with so many bytes in its string.
fn publish_of(alloc: Global, size: usize) -> Result<Vec<u8>, Fail> {
    let mut bytes = Vec::from_slice(alloc, b"publish = \"")?;
    for _ in 0..size {
        bytes.push(b'a')?;
    }
    bytes.push(b'"')?;
    Ok(bytes)
}

#[test]
fn sizes_and_bytes(rt: HostRuntime) -> Result<(), Fail> {
    let alloc = rt.alloc();
    assert_eq!(rt; read_settings(alloc, &padded(alloc, 4096)?)?.pump, 7);
    assert!(rt; is_wrong(alloc, &padded(alloc, 4097)?));
    assert!(rt; given(alloc, &publish_of(alloc, 1024)?)?.is_some());
    assert!(rt; given(alloc, &publish_of(alloc, 1025)?)?.is_none());
    assert!(rt; is_wrong(alloc, &publish_of(alloc, 1024)?));
    assert!(rt; is_wrong(alloc, &publish_of(alloc, 1025)?));
    assert!(rt; is_wrong(alloc, b"# \xff"));
    assert!(rt; is_wrong(alloc, b"publish = \"\xc3\""));
    assert!(rt; is_wrong(alloc, b"# \0"));
    Ok(())
}
