// A list of files is had back as it was given, and what is found carries it.
use crate::{FileList, Found};
use cache_model::FileCount;
use std::process::Abort;
use std::test::Fail;

const NONE: [FileCount; 0] = [];

const ONE: [FileCount; 1] = [FileCount {
    number: 1,
    size: 0,
    live: 0,
}];

const THREE: [FileCount; 3] = [
    FileCount {
        number: 1,
        size: 89,
        live: 51,
    },
    FileCount {
        number: 2,
        size: 24,
        live: 24,
    },
    FileCount {
        number: 4_294_967_294,
        size: 12,
        live: 0,
    },
];

#[test]
fn rows_are_kept(rt: HostRuntime) -> Result<(), Fail> {
    let alloc = rt.alloc();
    assert!(rt; FileList::of(alloc, &NONE)?.rows() == NONE.as_slice());
    assert!(rt; FileList::of(alloc, &ONE)?.rows() == ONE.as_slice());
    assert!(rt; FileList::of(alloc, &THREE)?.rows() == THREE.as_slice());
    Ok(())
}

#[test]
fn what_is_found_carries_its_files(rt: HostRuntime) -> Result<(), Fail> {
    let found = Found {
        files: FileList::of(rt.alloc(), &THREE)?,
        next_file: 5,
        next_seq: 4,
        mark: 1000,
    };
    assert!(rt; found.files.rows()[1].live == 24 && found.files.rows().len() == 3);
    assert!(rt; found.next_file == 5 && found.next_seq == 4 && found.mark == 1000);
    Ok(())
}
