use super::*;
use std::test::Fail;

fn name(kind: FileKind, store: u8, id: u32) -> FileName {
    FileName { kind, store, id }
}

#[test]
fn prints_and_reads_each_kind(rt: HostRuntime) -> Result<(), Fail> {
    let table = [
        ("cache.toml", name(FileKind::Rules, 0, 0)),
        ("s0-0000000001.log", name(FileKind::Log, 0, 1)),
        ("s10-0000000042.log", name(FileKind::Log, 10, 42)),
        (
            "s255-4294967294.log",
            name(FileKind::Log, 255, 4_294_967_294),
        ),
        ("s0.tree", name(FileKind::Tree, 0, 0)),
        ("s255.tree", name(FileKind::Tree, 255, 0)),
        ("base0.dat", name(FileKind::Base, 0, 0)),
        ("base1.dat", name(FileKind::Base, 1, 0)),
    ];
    for (text, name) in table {
        assert_eq!(rt; file_name_text(rt.alloc(), name)?.as_str(), text);
        assert_eq!(rt; file_name_of(rt.alloc(), text)?, Some(name), "at {text}");
    }
    for text in [
        "",
        "s",
        "s.tree",
        "base.dat",
        "s256.tree",
        "s+1.tree",
        "s01.tree",
        "s00-0000000001.log",
        "s0-1.log",
        "s0-00000000001.log",
        "base00.dat",
        "s0-.log",
        "s0-0000000000.log",
    ] {
        assert_eq!(rt; file_name_of(rt.alloc(), text)?, None, "at {text}");
    }
    Ok(())
}
