// What stands in files that were written, byte by byte.
ghost use Rattle.std.specs.Prelude.{◌≡◌, None, IsTrue};
ghost use Rattle.cache_model.specs.Files.{file_in};
ghost use Rattle.cache_disk.specs.Calls.{AllLeft};

use super::*;
use cache_disk::Host;
use cache_model::{FileKind, FileName, Place, StoreFault};
use host_memory::MemoryHost;
use std::test::Fail;

const NAME: FileName = FileName {
    kind: FileKind::Log,
    store: 0,
    id: 1,
};

// A removal of the key `a`, with the number 7.
const REMOVAL: [u8; 12] = [2, 0, 0, 0, 0, 0, 0, 0, 7, 0, 1, 97];

// A put of `b` under the key `a`, with the number 8, that is never over.
const PUT: [u8; 25] = [
    1, 0, 0, 0, 0, 0, 0, 0, 8, 255, 255, 255, 255, 255, 255, 255, 255, 0, 1, 0, 0, 0, 1, 97, 98,
];

// Two frames of a record each, at the moments 5 and 6.
const TWO_FRAMES: [u8; 59] = [
    1, 1, 2, 0, 0, 0, 0, 0, 0, 0, 7, 0, 1, 97, 0, 0, 0, 0, 0, 0, 0, 0, 5, 1, 1, 0, 0, 0, 0, 0, 0,
    0, 8, 255, 255, 255, 255, 255, 255, 255, 255, 0, 1, 0, 0, 0, 1, 97, 98, 0, 0, 0, 0, 0, 0, 0, 0,
    6, 0,
];

fn write_two<H: Host>(host: &mut H) -> Result<[Place; 2], StoreFault>
    requires { IsTrue H.tells → AllLeft (H.state host.old) (λ image. file_in image NAME ≡ None) }
{
    let mut appender = Appender::make(host, NAME)?;
    let first = appender.append(host, &REMOVAL)?;
    appender.seal(host, 5)?;
    let second = appender.append(host, &PUT)?;
    appender.seal(host, 6)?;
    Ok([first, second])
}

fn write_empty<H: Host>(host: &mut H) -> Result<Appender, StoreFault>
    requires { IsTrue H.tells → AllLeft (H.state host.old) (λ image. file_in image NAME ≡ None) }
{
    let mut appender = Appender::make(host, NAME)?;
    appender.seal(host, 9)?;
    Ok(appender)
}

#[test]
fn frames_are_written(rt: HostRuntime) -> Result<(), Fail> {
    let alloc = rt.alloc();
    let mut host = MemoryHost::new(alloc, Vec::new(alloc), Vec::new(alloc), Vec::new(alloc), 0)?;
    let places = write_two(&mut host)?;
    assert_eq!(rt;
        places,
        [
            Place {
                file: 1,
                at: 2,
                length: 12
            },
            Place {
                file: 1,
                at: 24,
                length: 25
            }
        ]
    );
    assert_eq!(rt; host.file(NAME), Some(TWO_FRAMES.as_slice()));
    Ok(())
}

#[test]
fn an_empty_frame_is_written(rt: HostRuntime) -> Result<(), Fail> {
    let alloc = rt.alloc();
    let mut host = MemoryHost::new(alloc, Vec::new(alloc), Vec::new(alloc), Vec::new(alloc), 0)?;
    let appender = write_empty(&mut host)?;
    assert_eq!(rt; appender.size(), 12);
    assert_eq!(rt; appender.name(), NAME);
    assert_eq!(rt; appender.is_spoilt(), false);
    assert_eq!(rt;
        host.file(NAME),
        Some([1, 1, 0, 0, 0, 0, 0, 0, 0, 0, 9, 0].as_slice())
    );
    Ok(())
}
