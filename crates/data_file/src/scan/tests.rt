// Files of every shape that a scan has to pass, item by item.
ghost use Rattle.std.specs.Prelude.{◌≡◌, None, IsTrue, false};
ghost use Rattle.cache_model.specs.Files.{file_in, bytes_in};
ghost use Rattle.cache_disk.specs.Calls.{AllLeft};
ghost use Rattle.data_file.specs.Scanning.{scanned_name, is_spoilt, IsScanOf};

use super::*;
use cache_model::{BadKind, Damage, FileKind};
use host_memory::MemoryHost;
use std::test::Fail;

const NAME: FileName = FileName {
    kind: FileKind::Log,
    store: 0,
    id: 1,
};

// An open gate and the version.
const FRONT: &[u8] = &[1, 1];

// A removal of the key `a`, with the number 7.
const REMOVAL: &[u8] = &[2, 0, 0, 0, 0, 0, 0, 0, 7, 0, 1, 97];

// The end of a frame at the moment 5.
const ENDING: &[u8] = &[0, 0, 0, 0, 0, 0, 0, 0, 5];

const OPENED: &[u8] = &[1];

const CLOSED: &[u8] = &[0];

// Where an item stands, and whether it ends a frame.
type Seen = (u32, bool);

// All that a scan has still to give.
fn all_given<H: Host>(alloc: Global, host: &mut H, scan: &mut Scan) -> Result<Vec<Seen>, StoreFault>
    requires sound { is_spoilt scan.old ≡ false }
    requires name { scanned_name scan.old ≡ NAME }
    requires scans { IsTrue H.tells → IsScanOf scan.old (bytes_in (H.state host.old).files NAME) }
{
    let mut given = Vec::new(alloc);
    while let Some(Scanned { place, item }) = scan.next(host)? {
        let seen = (place.at, matches!(&item, OwnItem::End { .. }));
        given.push(seen).map_err(|_| StoreFault::Memory)?;
    }
    Ok(given)
}

// All that is given of a file with these bytes.
fn given<H: Host>(alloc: Global, host: &mut H, bytes: &[u8]) -> Result<Vec<Seen>, StoreFault>
    requires { IsTrue H.tells → AllLeft (H.state host.old) (λ image. file_in image NAME ≡ None) }
{
    host.create(NAME)?;
    host.write(NAME, 0, bytes)?;
    let mut scan = Scan::new(alloc, NAME, bytes.len() as u64)?;
    all_given(alloc, host, &mut scan)
}

// The same over a host whose reads give no more bytes than that; 0 is no limit.
fn given_of(alloc: Global, bytes: &[u8], short: u64) -> Result<Vec<Seen>, StoreFault> {
    let mut host = MemoryHost::new(
        alloc,
        Vec::new(alloc),
        Vec::new(alloc),
        Vec::new(alloc),
        short,
    )?;
    given(alloc, &mut host, bytes)
}

// Some bytes one after another.
fn joined(alloc: Global, parts: &[&[u8]]) -> Result<Vec<u8>, Fail> {
    let mut bytes = Vec::new(alloc);
    for part in parts {
        bytes.extend_from_slice(part)?;
    }
    Ok(bytes)
}

#[test]
fn files_of_every_shape(rt: HostRuntime) -> Result<(), Fail> {
    let alloc = rt.alloc();
    let cases: [(&[&[u8]], &[Seen]); 9] = [
        (&[], &[]),
        (&[CLOSED], &[]),
        (&[OPENED], &[]),
        (&[&[7]], &[]),
        // An open gate, the version, and an empty frame.
        (&[FRONT, ENDING, CLOSED], &[(2, true)]),
        (
            &[FRONT, ENDING, OPENED, ENDING, CLOSED],
            &[(2, true), (12, true)],
        ),
        // Two records in one frame.
        (
            &[FRONT, REMOVAL, REMOVAL, ENDING, CLOSED],
            &[(2, false), (14, false), (26, true)],
        ),
        // What stands behind a closed gate isn't looked at, whatever it is.
        (
            &[FRONT, REMOVAL, ENDING, CLOSED, REMOVAL, ENDING, OPENED],
            &[(2, false), (14, true)],
        ),
        (&[CLOSED, &[1], REMOVAL, ENDING, OPENED], &[]),
    ];
    for (i, (parts, want)) in cases.iter().enumerate() {
        let bytes = joined(alloc, parts)?;
        for short in [0, 1, 5] {
            let seen = given_of(alloc, &bytes, short)?;
            assert_eq!(rt; seen.as_slice(), *want, "case {i}, reads of {short}");
        }
    }
    Ok(())
}

#[test]
fn files_that_end_too_soon(rt: HostRuntime) -> Result<(), Fail> {
    let alloc = rt.alloc();
    let cases: [(&[&[u8]], u32, BadKind); 7] = [
        // Behind the version, within a record, and behind one.
        (&[FRONT], 2, BadKind::Cut),
        (&[FRONT, &[2, 0, 0]], 2, BadKind::Cut),
        (&[FRONT, REMOVAL], 14, BadKind::Cut),
        // Behind an end there is no gate.
        (&[FRONT, REMOVAL, ENDING], 23, BadKind::Cut),
        // Behind an open gate there is no frame.
        (&[FRONT, REMOVAL, ENDING, OPENED], 24, BadKind::Cut),
        (&[FRONT, REMOVAL, ENDING, OPENED, &[9]], 24, BadKind::Tag(9)),
        (&[&[1, 0]], 1, BadKind::Version(0)),
    ];
    for (i, (parts, at, kind)) in cases.iter().enumerate() {
        let bytes = joined(alloc, parts)?;
        let want = Damage {
            file: NAME,
            at: u64::from(*at),
            kind: *kind,
        };
        for short in [0, 1, 5] {
            match given_of(alloc, &bytes, short) {
                Err(StoreFault::Damaged(damage)) => {
                    assert_eq!(rt; damage, want, "case {i}, reads of {short}")
                }
                _ => panic!(rt; "case {i}, reads of {short}: no damage"),
            }
        }
    }
    Ok(())
}

#[test]
fn many_frames(rt: HostRuntime) -> Result<(), Fail> {
    let alloc = rt.alloc();
    let mut bytes = joined(alloc, &[FRONT])?;
    for _ in 0..5000 {
        bytes.extend_from_slice(REMOVAL)?;
        bytes.extend_from_slice(ENDING)?;
        bytes.extend_from_slice(OPENED)?;
    }
    bytes.extend_from_slice(ENDING)?;
    bytes.extend_from_slice(CLOSED)?;
    let seen = given_of(alloc, &bytes, 0)?;
    assert_eq!(rt; seen.len(), 10_001);
    for (at, one) in seen.iter().enumerate() {
        // Each frame but the last takes 22 bytes, and its end begins at its 12th.
        let place = 2 + at / 2 * 22 + at % 2 * 12;
        let ends = at % 2 == 1 || at == 10_000;
        assert_eq!(rt; *one, (place as u32, ends));
    }
    Ok(())
}

#[test]
fn a_record_at_the_end_of_what_is_read_at_once(rt: HostRuntime) -> Result<(), Fail> {
    let alloc = rt.alloc();
    // The record begins and ends before, across and behind the offset up to which the first read goes.
    for begins in 65_500..65_560_u32 {
        let length = begins - 26;
        let size = length.to_be_bytes();
        let parts = [
            FRONT,
            &[1, 0, 0, 0, 0, 0, 0, 0, 1],
            &[255; 8],
            &[0, 1],
            &size,
        ];
        let mut bytes = joined(alloc, &parts)?;
        bytes.push(b'k')?;
        for _ in 0..length {
            bytes.push(b'v')?;
        }
        bytes.extend_from_slice(REMOVAL)?;
        bytes.extend_from_slice(ENDING)?;
        bytes.extend_from_slice(CLOSED)?;
        let seen = given_of(alloc, &bytes, 0)?;
        let want = [(2, false), (begins, false), (begins + 12, true)];
        assert_eq!(rt; seen.as_slice(), want.as_slice(), "a record at {begins}");
    }
    Ok(())
}

// All that is given of a file with these bytes by a scan that goes on with it.
fn given_next<H: Host>(
    alloc: Global,
    host: &mut H,
    scan: &mut Scan,
    bytes: &[u8],
) -> Result<Vec<Seen>, StoreFault>
    requires { IsTrue H.tells → AllLeft (H.state host.old) (λ image. file_in image NAME ≡ None) }
{
    host.create(NAME)?;
    host.write(NAME, 0, bytes)?;
    scan.reopen(NAME, bytes.len() as u64);
    all_given(alloc, host, scan)
}

#[test]
fn one_scan_for_many_files(rt: HostRuntime) -> Result<(), Fail> {
    let alloc = rt.alloc();
    let mut scan = Scan::new(alloc, NAME, 0)?;
    // Nothing of a file, damaged or not, is left for the next one.
    let cases: [(&[&[u8]], Option<&[Seen]>); 6] = [
        (
            &[FRONT, REMOVAL, ENDING, CLOSED],
            Some(&[(2, false), (14, true)]),
        ),
        (&[FRONT, REMOVAL, &[9]], None),
        (&[FRONT, ENDING, CLOSED], Some(&[(2, true)])),
        (&[], Some(&[])),
        (&[OPENED, &[7]], None),
        (
            &[FRONT, REMOVAL, REMOVAL, ENDING, CLOSED],
            Some(&[(2, false), (14, false), (26, true)]),
        ),
    ];
    for (i, (parts, want)) in cases.iter().enumerate() {
        let mut host = MemoryHost::new(
            alloc,
            Vec::new(alloc),
            Vec::new(alloc),
            Vec::new(alloc),
            5,
        )?;
        let bytes = joined(alloc, parts)?;
        let seen = given_next(alloc, &mut host, &mut scan, &bytes).ok();
        assert_eq!(rt; seen.as_deref(), *want, "case {i}");
    }
    Ok(())
}
