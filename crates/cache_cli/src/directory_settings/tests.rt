// The settings of directories in memory.
ghost use Rattle.std.specs.Prelude.{IsTrue, IfOk};
ghost use Rattle.host_memory.specs.Files.{are_named_apart};

use super::*;
use host_memory::{DiskFile, MemoryHost};
use std::process::Abort;
use std::test::Fail;

// The bytes of the settings file, where there is one; the most bytes that a read gives, 0 for any number; the number of
// the disk call that fails, 0 for none; and the setting `pump` or the status that comes of it.
type Row = (Option<&'static [u8]>, u64, u64, Result<u64, Status>);

// A comment as long as a settings file may be, and one byte more.
const LONGEST: [u8; 4096] = [b'#'; 4096];

const TOO_LONG: [u8; 4097] = [b'#'; 4097];

// 17 bytes.
const PUMP: &[u8] = b"# steps\npump = 7\n";

const ROWS: [Row; 18] = [
    (None, 0, 0, Ok(1)),
    (Some(b""), 0, 0, Ok(1)),
    (Some(b""), 1, 0, Ok(1)),
    (Some(PUMP), 0, 0, Ok(7)),
    (Some(PUMP), 1, 0, Ok(7)),
    (Some(PUMP), 16, 0, Ok(7)),
    (Some(PUMP), 17, 0, Ok(7)),
    (Some(b"pump = 1001"), 4, 0, Err(Status::Settings)),
    (Some(b"pump"), 0, 0, Err(Status::Settings)),
    (Some(b"\xff"), 0, 0, Err(Status::Settings)),
    (Some(&LONGEST), 0, 0, Ok(1)),
    (Some(&LONGEST), 1000, 0, Ok(1)),
    (Some(&TOO_LONG), 0, 0, Err(Status::Settings)),
    // The size, and each of two reads.
    (None, 0, 1, Err(Status::DiskFailed)),
    (Some(PUMP), 10, 1, Err(Status::DiskFailed)),
    (Some(PUMP), 10, 2, Err(Status::DiskFailed)),
    (Some(PUMP), 10, 3, Err(Status::DiskFailed)),
    (Some(PUMP), 10, 4, Ok(7)),
];

// A directory with one file at most.
fn files_of(alloc: Global, file: Option<&[u8]>) -> Result<Vec<DiskFile>, Fail>
    ensures { IfOk result (λ files. IsTrue (are_named_apart files.items)) }
{
    match file {
        Some(bytes) => Ok(vec![in alloc; DiskFile::new(NAME, bytes.to_vec(alloc)?)]?),
        None => Ok(Vec::new(alloc)),
    }
}

fn check_row<R: Abort>(rt: &R, alloc: Global, row: &Row) -> Result<(), Fail> {
    let (file, short, disk_fail, wanted) = *row;
    let files = files_of(alloc, file)?;
    let disk_fail = vec![in alloc; disk_fail]?;
    let mut host = MemoryHost::new(alloc, files, disk_fail, Vec::new(alloc), short)?;
    let pump = settings_in(alloc, &mut host).map(|settings| settings.pump);
    assert!(rt; pump == wanted, "{row:?}");
    assert!(rt; host.file(NAME) == file, "{row:?}");
    assert!(rt; host.said().is_empty() && host.turns() == 0, "{row:?}");
    Ok(())
}

#[test]
fn settings_of_directories(rt: HostRuntime) -> Result<(), Fail> {
    let alloc = rt.alloc();
    for row in &ROWS {
        check_row(&rt, alloc, row)?;
    }
    Ok(())
}
