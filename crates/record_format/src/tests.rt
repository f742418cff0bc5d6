// What the bytes of items are, with each number at its last good and its first bad value.
ghost use Rattle.std.specs.Prelude.{◌<◌};

use crate::{
    Item, OwnItem, Span, Step, decode, encode, own, spelling_is_read_back, spelling_is_unambiguous,
    whole_is_spelled,
};
use cache_model::{BadKind, Key, Until, Value};
use std::alloc::{AllocError, Global};
use std::test::Fail;

// A tag and numbers as they stand in a put or a removal, then so many bytes of 9.
fn bytes_of(alloc: Global, parts: &[&[u8]], room: usize) -> Result<Vec<u8>, AllocError> {
    let mut bytes = Vec::new(alloc);
    for part in parts {
        bytes.extend_from_slice(part)?;
    }
    for _ in 0..room {
        bytes.push(9)?;
    }
    Ok(bytes)
}

const LAST: [u8; 8] = [0x3f, 0xff, 0xff, 0xff, 0xff, 0xff, 0xff, 0xff];

const PAST: [u8; 8] = [0x40, 0, 0, 0, 0, 0, 0, 0];

const NEVER: [u8; 8] = [0xff; 8];

const ALMOST: [u8; 8] = [0xff, 0xff, 0xff, 0xff, 0xff, 0xff, 0xff, 0xfe];

const SEVEN: [u8; 8] = [0, 0, 0, 0, 0, 0, 0, 7];

fn whole_put(seq: u64, until: Until, key: usize, value: usize) -> Step
    requires key { key < 100000 }
    requires value { value < 100000 }
{
    let at = 23 + key;
    let item = Item::Put {
        seq,
        until,
        key: Span {
            at: 23,
            length: key,
        },
        value: Span { at, length: value },
    };
    Step::Whole(item, 23 + key + value)
}

#[test]
fn puts(rt: HostRuntime) -> Result<(), Fail> {
    let last = (1 << 62) - 1;
    let one: [u8; 2] = [0, 1];
    let two: [u8; 4] = [0, 0, 0, 2];
    let cases = [
        (SEVEN, NEVER, one, two, 3, whole_put(7, Until::Never, 1, 2)),
        (SEVEN, NEVER, one, two, 9, whole_put(7, Until::Never, 1, 2)),
        (SEVEN, NEVER, one, two, 2, Step::Cut),
        (
            LAST,
            LAST,
            one,
            two,
            3,
            whole_put(last, Until::At(last), 1, 2),
        ),
        (
            PAST,
            PAST,
            one,
            two,
            3,
            Step::Bad(BadKind::Sequence(1 << 62)),
        ),
        (LAST, PAST, one, two, 3, Step::Bad(BadKind::Until(1 << 62))),
        (
            LAST,
            ALMOST,
            [0, 0],
            two,
            0,
            Step::Bad(BadKind::Until(u64::MAX - 1)),
        ),
        (
            LAST,
            NEVER,
            [0, 0],
            two,
            3,
            Step::Bad(BadKind::KeyLength(0)),
        ),
        (
            SEVEN,
            NEVER,
            [4, 0],
            [0; 4],
            1024,
            whole_put(7, Until::Never, 1024, 0),
        ),
        (SEVEN, NEVER, [4, 0], [0; 4], 1023, Step::Cut),
        (
            SEVEN,
            NEVER,
            [4, 1],
            [0, 1, 0, 1],
            0,
            Step::Bad(BadKind::KeyLength(1025)),
        ),
        (
            SEVEN,
            NEVER,
            one,
            [0, 1, 0, 0],
            65537,
            whole_put(7, Until::Never, 1, 65536),
        ),
        (SEVEN, NEVER, one, [0, 1, 0, 0], 65536, Step::Cut),
        (
            SEVEN,
            NEVER,
            one,
            [0, 1, 0, 1],
            0,
            Step::Bad(BadKind::ValueLength(65537)),
        ),
    ];
    for (i, (seq, until, key, value, room, want)) in cases.iter().enumerate() {
        let bytes = bytes_of(rt.alloc(), &[&[1], seq, until, key, value], *room)?;
        assert_eq!(rt; decode(&bytes, 0), *want, "case {i}");
    }
    Ok(())
}

#[test]
fn removals_and_ends(rt: HostRuntime) -> Result<(), Fail> {
    let key = Span { at: 11, length: 2 };
    let last: [u8; 8] = [0x1f, 0xff, 0xff, 0xff, 0xff, 0xff, 0xff, 0xff];
    let late: [u8; 8] = [0x20, 0, 0, 0, 0, 0, 0, 0];
    let two: [u8; 2] = [0, 2];
    let cases = [
        (
            2,
            SEVEN,
            two,
            2,
            Step::Whole(Item::Removal { seq: 7, key }, 13),
        ),
        (2, SEVEN, two, 1, Step::Cut),
        (2, PAST, two, 2, Step::Bad(BadKind::Sequence(1 << 62))),
        (2, SEVEN, [0, 0], 2, Step::Bad(BadKind::KeyLength(0))),
        (2, SEVEN, [4, 1], 2, Step::Bad(BadKind::KeyLength(1025))),
        (
            0,
            last,
            two,
            0,
            Step::Whole(
                Item::End {
                    moment: (1 << 61) - 1,
                },
                9,
            ),
        ),
        (0, late, two, 0, Step::Bad(BadKind::Moment(1 << 61))),
        (3, SEVEN, two, 0, Step::Bad(BadKind::Tag(3))),
    ];
    for (i, (tag, number, length, room, want)) in cases.iter().enumerate() {
        let bytes = bytes_of(rt.alloc(), &[&[*tag], number, length], *room)?;
        assert_eq!(rt; decode(&bytes, 0), *want, "case {i}");
    }
    let end: [u8; 8] = [0; 8];
    let removal: [u8; 10] = [2; 10];
    assert_eq!(rt; decode(&end, 0), Step::Cut);
    assert_eq!(rt; decode(&end, 8), Step::Cut);
    assert_eq!(rt; decode(&removal, 0), Step::Cut);
    Ok(())
}

// A file of one frame with a put of `b` under `a`: its gate, the version, the put, the end and the next gate.
const FILE: [u8; 37] = [
    1, 1, 1, 0, 0, 0, 0, 0, 0, 0, 1, 255, 255, 255, 255, 255, 255, 255, 255, 0, 1, 0, 0, 0, 1, 97,
    98, 0, 0, 0, 0, 0, 0, 0, 3, 232, 0,
];

#[test]
fn worked_file(rt: HostRuntime) -> Result<(), Fail> {
    let put = OwnItem::Put {
        seq: 1,
        until: Until::Never,
        key: Key::of(rt.alloc(), b"a")?,
        value: Value::of(rt.alloc(), b"b")?,
    };
    let mut file = [1, 1].to_vec(rt.alloc())?;
    encode(&put, &mut file)?;
    encode(&OwnItem::End { moment: 1000 }, &mut file)?;
    file.push(0)?;
    assert_eq!(rt; file.as_slice(), FILE.as_slice());
    let removal = OwnItem::Removal {
        seq: 2,
        key: Key::of(rt.alloc(), b"a")?,
    };
    let mut bytes = Vec::new(rt.alloc());
    encode(&removal, &mut bytes)?;
    assert_eq!(rt;
        bytes.as_slice(),
        [2, 0, 0, 0, 0, 0, 0, 0, 2, 0, 1, 97].as_slice()
    );
    Ok(())
}

#[test]
fn largest_put(rt: HostRuntime) -> Result<(), Fail> {
    let key = Key::of(rt.alloc(), &[5; 1024])?;
    let value = Value::of(rt.alloc(), &bytes_of(rt.alloc(), &[], 65536)?)?;
    let put = OwnItem::Put {
        seq: 7,
        until: Until::At(8),
        key,
        value,
    };
    let mut out = Vec::new(rt.alloc());
    encode(&put, &mut out)?;
    assert_eq!(rt; out.len(), 66583);
    match decode(&out, 0) {
        Step::Whole(item, size) => {
            assert_eq!(rt;
                Step::Whole(item, size),
                whole_put(7, Until::At(8), 1024, 65536)
            );
            let mut again = Vec::new(rt.alloc());
            encode(&own(rt.alloc(), &out, item)?, &mut again)?;
            assert_eq!(rt; again.as_slice(), out.as_slice());
        }
        step => assert_eq!(rt; step, Step::Cut, "it is whole"),
    }
    spelling_is_read_back();
    spelling_is_unambiguous();
    whole_is_spelled();
    Ok(())
}
