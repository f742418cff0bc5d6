// What lines mean, what is said, and how a script is cut into lines, with ample memory.
ghost use Rattle.std.specs.Prelude.{[], false};

use crate::{
    LineFault, LineReader, Taken, damaged_line, opened_line, read_line, write_fault, write_reply,
};
use cache_disk::{Source, SourceFault};
use cache_model::{
    BadKind, Damage, Figures, FileKind, FileName, Key, KeyList, Reply, Turned, Value,
};
use std::alloc::{AllocError, Global};
use std::process::Abort;
use std::test::Fail;

/// Lines without keys, and what is read of them.
const SOLE_LINES: [(&str, &str); 58] = [
    ("at 0", "Ok(At(0))"),
    ("at 00000000000000000007", "Ok(At(7))"),
    ("at 000000000000000000007", "Err(Syntax)"),
    ("at 2305843009213693951", "Ok(At(2305843009213693951))"),
    ("at 2305843009213693952", "Err(Syntax)"),
    ("at 18446744073709551616", "Err(Syntax)"),
    ("at -1", "Err(Syntax)"),
    ("at +1", "Err(Syntax)"),
    ("at 1 2", "Err(Syntax)"),
    ("at", "Err(Syntax)"),
    ("size", "Ok(Size)"),
    ("keys", "Ok(Keys)"),
    ("clear", "Ok(Clear)"),
    ("sync", "Ok(Sync)"),
    ("sync x", "Err(Syntax)"),
    ("sync ", "Err(Syntax)"),
    ("compact", "Ok(CompactAll)"),
    ("compact ", "Err(Syntax)"),
    ("compact 0", "Ok(CompactFile(0))"),
    ("compact 00000000000000000007", "Ok(CompactFile(7))"),
    ("compact 4294967295", "Ok(CompactFile(4294967295))"),
    ("compact 4294967296", "Err(Syntax)"),
    ("compact 18446744073709551616", "Err(Syntax)"),
    ("compact -1", "Err(Syntax)"),
    ("compact 1 2", "Err(Syntax)"),
    ("compact 1 ", "Err(Syntax)"),
    ("compact a", "Err(Syntax)"),
    ("stats", "Ok(Stats)"),
    ("stats 1", "Err(Syntax)"),
    ("step index", "Ok(Step(Index))"),
    ("step rotate", "Ok(Step(Rotate))"),
    ("step", "Err(Syntax)"),
    ("step ", "Err(Syntax)"),
    ("step rotate x", "Err(Syntax)"),
    ("step  rotate", "Err(Syntax)"),
    ("step rotate ", "Err(Syntax)"),
    ("step Rotate", "Err(Syntax)"),
    ("step index x", "Err(Syntax)"),
    ("step Index", "Err(Syntax)"),
    ("step inde", "Err(Syntax)"),
    ("step flush", "Err(Syntax)"),
    ("step compact", "Ok(Step(Compact))"),
    ("step compac", "Err(Syntax)"),
    ("step Compact", "Err(Syntax)"),
    ("step compact x", "Err(Syntax)"),
    ("step evict", "Err(Syntax)"),
    ("step reap", "Err(Syntax)"),
    ("stop", "Ok(Stop)"),
    ("halt", "Ok(Halt)"),
    ("size ", "Err(Syntax)"),
    ("keys 1", "Err(Syntax)"),
    ("Stop", "Err(Syntax)"),
    ("stop\r", "Err(Syntax)"),
    (" halt", "Err(Syntax)"),
    ("", "Err(Syntax)"),
    ("\r", "Err(Syntax)"),
    (" ", "Err(Syntax)"),
    ("sizes", "Err(Syntax)"),
];

/// Lines that name a key, and what is read of them.
const KEY_LINES: [(&str, &str); 29] = [
    ("get a", "Ok(Get(Key { bytes: [97] }))"),
    ("has ~!", "Ok(Has(Key { bytes: [126, 33] }))"),
    ("remove %41", "Ok(Remove(Key { bytes: [65] }))"),
    (
        "get x%2Fy%2fz",
        "Ok(Get(Key { bytes: [120, 47, 121, 47, 122] }))",
    ),
    ("get %00%fF%25", "Ok(Get(Key { bytes: [0, 255, 37] }))"),
    ("get %.", "Err(Key(0))"),
    ("get a%.", "Err(Syntax)"),
    ("get %.a", "Err(Syntax)"),
    ("get %.%.", "Err(Syntax)"),
    ("get %", "Err(Syntax)"),
    ("get a%6", "Err(Syntax)"),
    ("get %6g", "Err(Syntax)"),
    ("get %g6", "Err(Syntax)"),
    ("get %%41", "Err(Syntax)"),
    ("get a\u{7f}", "Err(Syntax)"),
    ("get \u{e9}", "Err(Syntax)"),
    ("get a\r", "Err(Syntax)"),
    ("get a b", "Err(Syntax)"),
    ("get  a", "Err(Syntax)"),
    ("get a ", "Err(Syntax)"),
    ("get ", "Err(Syntax)"),
    ("get", "Err(Syntax)"),
    (
        "removeif a b",
        "Ok(RemoveIf(Key { bytes: [97] }, Value { bytes: [98] }))",
    ),
    (
        "removeif a %.",
        "Ok(RemoveIf(Key { bytes: [97] }, Value { bytes: [] }))",
    ),
    ("removeif a", "Err(Syntax)"),
    ("removeif a b c", "Err(Syntax)"),
    ("removeif %. %.", "Err(Key(0))"),
    ("removeif %. %", "Err(Syntax)"),
    ("evict a", "Err(Syntax)"),
];

/// Lines that put a value, and what is read of them.
const PUT_LINES: [(&str, &str); 30] = [
    (
        "put a b",
        "Ok(Put(Key { bytes: [97] }, Value { bytes: [98] }, Endless))",
    ),
    (
        "put a %.",
        "Ok(Put(Key { bytes: [97] }, Value { bytes: [] }, Endless))",
    ),
    (
        "put a ttl",
        "Ok(Put(Key { bytes: [97] }, Value { bytes: [116, 116, 108] }, Endless))",
    ),
    (
        "put a ttl ttl 5",
        "Ok(Put(Key { bytes: [97] }, Value { bytes: [116, 116, 108] }, Of(5)))",
    ),
    ("put a ttl 5", "Err(Syntax)"),
    ("put a b ttl", "Err(Syntax)"),
    ("put a b ttl ", "Err(Syntax)"),
    ("put a b ttl 5 6", "Err(Syntax)"),
    ("put a b TTL 5", "Err(Syntax)"),
    ("put a b 5", "Err(Syntax)"),
    (
        "put a b ttl 0",
        "Ok(Put(Key { bytes: [97] }, Value { bytes: [98] }, Of(0)))",
    ),
    (
        "put a b ttl -7",
        "Ok(Put(Key { bytes: [97] }, Value { bytes: [98] }, Endless))",
    ),
    ("put a b ttl -", "Err(Syntax)"),
    ("put a b ttl --7", "Err(Syntax)"),
    ("put a b ttl +7", "Err(Syntax)"),
    (
        "put a b ttl 2305843009213693951",
        "Ok(Put(Key { bytes: [97] }, Value { bytes: [98] }, Of(2305843009213693951)))",
    ),
    ("put a b ttl 2305843009213693952", "Err(Ttl)"),
    ("put a b ttl 9999999999999999999", "Err(Ttl)"),
    ("put a b ttl 18446744073709551621", "Err(Ttl)"),
    (
        "put a b ttl 00000000000000000009",
        "Ok(Put(Key { bytes: [97] }, Value { bytes: [98] }, Of(9)))",
    ),
    ("put a b ttl 99999999999999999999", "Err(Ttl)"),
    ("put a b ttl 000000000000000000009", "Err(Syntax)"),
    (
        "put a b ttl -99999999999999999999",
        "Ok(Put(Key { bytes: [97] }, Value { bytes: [98] }, Endless))",
    ),
    ("put a b ttl -000000000000000000009", "Err(Syntax)"),
    ("put %. b ttl 2305843009213693952", "Err(Key(0))"),
    ("put %. b ttl x", "Err(Syntax)"),
    (
        "putabsent a b",
        "Ok(PutAbsent(Key { bytes: [97] }, Value { bytes: [98] }, Endless))",
    ),
    (
        "replace a b ttl 1",
        "Ok(Replace(Key { bytes: [97] }, Value { bytes: [98] }, Of(1)))",
    ),
    (
        "replaceif a b c ttl 3",
        "Ok(ReplaceIf(Key { bytes: [97] }, Value { bytes: [98] }, Value { bytes: [99] }, Of(3)))",
    ),
    ("replaceif a b", "Err(Syntax)"),
];

fn reads(rt: &impl Abort, alloc: Global, lines: &[(&str, &str)]) -> Result<(), Fail> {
    for (line, want) in lines {
        let read = read_line(alloc, line.as_bytes());
        let text = format!(in alloc; "{read:?}")?;
        assert!(rt; text.as_str() == *want, "{line}: {text}");
    }
    Ok(())
}

#[test]
fn lines_are_commands_or_refused(rt: HostRuntime) -> Result<(), Fail> {
    reads(&rt, rt.alloc(), &SOLE_LINES)?;
    reads(&rt, rt.alloc(), &KEY_LINES)?;
    reads(&rt, rt.alloc(), &PUT_LINES)?;
    Ok(())
}

/// A line: a text, a piece so many times, another text and its piece, and why the line is refused.
type Sized = (
    &'static str,
    &'static str,
    usize,
    &'static str,
    usize,
    Option<LineFault>,
);

/// Keys and values at their limits.
const SIZED_LINES: [Sized; 14] = [
    ("get ", "k", 1024, "", 0, None),
    ("get ", "k", 1025, "", 0, Some(LineFault::Key(1025))),
    ("get ", "%6b", 1024, "", 0, None),
    ("get ", "%6B", 1025, "", 0, Some(LineFault::Key(1025))),
    ("put k ", "v", 65535, "", 0, None),
    ("put k ", "v", 65536, "", 0, None),
    ("put k ", "v", 65537, "", 0, Some(LineFault::Value(65537))),
    ("put k ", "%00", 65536, "", 0, None),
    ("put k ", "%00", 65537, "", 0, Some(LineFault::Value(65537))),
    ("put ", "k", 1025, " ", 65537, Some(LineFault::Key(1025))),
    (
        "replaceif k ",
        "o",
        65538,
        " ",
        65537,
        Some(LineFault::Value(65538)),
    ),
    (
        "replaceif k ",
        "o",
        65536,
        " ",
        65537,
        Some(LineFault::Value(65537)),
    ),
    (
        "removeif k ",
        "o",
        65537,
        "",
        0,
        Some(LineFault::Value(65537)),
    ),
    (
        "put k ",
        "v",
        65537,
        " ttl 9999999999999999999",
        0,
        Some(LineFault::Value(65537)),
    ),
];

fn extend(line: &mut Vec<u8>, text: &str, piece: &str, count: usize) -> Result<(), AllocError> {
    line.extend_from_slice(text.as_bytes())?;
    for _ in 0..count {
        line.extend_from_slice(piece.as_bytes())?;
    }
    Ok(())
}

#[test]
fn keys_and_values_have_limits(rt: HostRuntime) -> Result<(), Fail> {
    for (text, piece, count, behind, more, want) in SIZED_LINES {
        let mut line = Vec::new(rt.alloc());
        extend(&mut line, text, piece, count)?;
        extend(&mut line, behind, "w", more)?;
        let fault = read_line(rt.alloc(), &line).err();
        assert_eq!(rt; fault, want, "{text} {piece} {count}");
    }
    Ok(())
}

#[test]
fn each_reply_has_its_text(rt: HostRuntime) -> Result<(), Fail> {
    let mut out = Vec::new(rt.alloc());
    let mut keys = KeyList::new(rt.alloc());
    write_reply(&Reply::Keys(KeyList::new(rt.alloc())), &mut out)?;
    keys.push(Key::of(rt.alloc(), b"a")?)?;
    keys.push(Key::of(rt.alloc(), b"b c%\xff")?)?;
    let figures = Figures {
        files: 1,
        bytes: 20,
        live: 3,
        pending: 0,
        held: 18_446_744_073_709_551_615,
    };
    let replies = [
        Reply::Done,
        Reply::Kept,
        Reply::Nothing,
        Reply::Differs,
        Reply::Found(Value::of(rt.alloc(), b"")?),
        Reply::Found(Value::of(rt.alloc(), b"~\x7f !\n%\x00z")?),
        Reply::Yes,
        Reply::No,
        Reply::Size(0),
        Reply::Keys(keys),
        Reply::Cleared(12),
        Reply::Turned(Turned::Done),
        Reply::Turned(Turned::Idle),
        Reply::Compacted,
        Reply::Stats(figures),
        Reply::Exported(7),
        Reply::Past(2_305_843_009_213_693_951),
        Reply::Stopped,
        Reply::Halted,
    ];
    for reply in &replies {
        write_reply(reply, &mut out)?;
    }
    for fault in [
        LineFault::Syntax,
        LineFault::Key(0),
        LineFault::Value(65537),
        LineFault::Ttl,
        LineFault::Memory,
    ] {
        write_fault(&fault, &mut out)?;
    }
    let want =
        "keys\nok\nkept\nnone\ndiffers\nvalue %.\nvalue ~%7f%20!%0a%25%00z\nyes\nno\nsize 0\nkeys a b%20c%25%ff\ncleared 12\ndone\nidle\ncompacted\nstats files 1 bytes 20 live 3 pending 0 held 18446744073709551615\nexported 7\nrefused past 2305843009213693951\nstopped\nhalted\nrefused syntax\nrefused key 0\nrefused value 65537\nrefused ttl\nrefused memory\n";
    assert_eq!(rt; out.as_slice(), want.as_bytes());
    let file = FileName {
        kind: FileKind::Log,
        store: 0,
        id: 1,
    };
    let damage = Damage {
        file,
        at: 27,
        kind: BadKind::Tag(7),
    };
    let line = damaged_line(rt.alloc(), "s0-0000000001.log", &damage)?;
    assert_eq!(rt; line.as_str(), "damaged s0-0000000001.log 27 tag\n");
    assert_eq!(rt; opened_line(rt.alloc(), 42)?.as_str(), "opened 42\n");
    Ok(())
}

/// Bytes that are handed in in pieces.
#[derive(Drop)]
struct Pieces<'a> {
    left: &'a [u8],
    piece: usize,
}

impl<'a> Source for Pieces<'a> {
    ghost tells = { false };

    ghost rest = { λ source. [] };

    ghost faults = { λ source. 0 };

    fn fill(&mut self, buf: &mut [u8]) -> Result<usize, SourceFault> {
        let count = self.piece.min(self.left.len()).min(buf.len());
        let (front, rest) = self.left.split_at(count);
        buf[..count].copy_from_slice(front);
        self.left = rest;
        Ok(count)
    }
}

// The lines of an input that comes in pieces, each with a bar behind it.
fn lines_in(alloc: Global, input: &[u8], piece: usize) -> Result<Vec<u8>, Fail> {
    let mut reader = LineReader::new(alloc)?;
    let mut source = Pieces { left: input, piece };
    let mut lines = Vec::new(alloc);
    for _ in 0..20 {
        match reader.next(&mut source)? {
            Taken::Line => lines.extend_from_slice(reader.line())?,
            Taken::Long => lines.extend_from_slice(b"long")?,
            Taken::End | Taken::Spent => return Ok(lines),
        }
        lines.push(b'|')?;
    }
    Ok(lines)
}

#[test]
fn scripts_are_cut_into_lines(rt: HostRuntime) -> Result<(), Fail> {
    for (input, want) in [
        ("", ""),
        ("a", "a|"),
        ("a\n", "a|"),
        ("\n", "|"),
        ("\r", "|"),
        ("\r\r", "\r|"),
        ("a\r", "a|"),
        ("a\nbc\r\n\r\n\n\rx\rc\r\r\nlast\r", "a|bc|||\rx\rc\r|last|"),
    ] {
        for piece in [1, 2, 3, 65536, 100_000] {
            let lines = lines_in(rt.alloc(), input.as_bytes(), piece)?;
            assert_eq!(rt; lines.as_slice(), want.as_bytes(), "{input:?} by {piece}");
        }
    }
    Ok(())
}

#[test]
fn lines_have_a_limit(rt: HostRuntime) -> Result<(), Fail> {
    for (count, end, long) in [
        (1_048_575, "\n", false),
        (1_048_576, "\n", false),
        (1_048_577, "\n", true),
        (1_048_576, "\r\n", false),
        (1_048_577, "\r\n", true),
        (1_048_576, "\r\r\n", true),
        (1_048_576, "", false),
        (1_048_577, "", true),
        (1_048_576, "\r", false),
        (1_048_577, "\r", true),
        (3_000_000, "\n", true),
    ] {
        let mut input = vec![in rt.alloc(); b'x'; count]?;
        input.extend_from_slice(end.as_bytes())?;
        let lines = lines_in(rt.alloc(), &input, 100_000)?;
        let want = if long { 5 } else { count + 1 };
        assert_eq!(rt; lines.len(), want, "{count} {end:?}");
    }
    Ok(())
}
