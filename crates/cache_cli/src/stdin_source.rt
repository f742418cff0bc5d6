// The standard input.
ghost use Rattle.std.specs.Prelude.{◌≤◌, length, [], IfOk};

use cache_disk::{Source, SourceFault};
use std::io::{ErrorKind, Read};

/// The standard input as a source. What comes from it isn't told to any contract.
#[derive(Drop)]
pub struct StdinSource<R: Input> {
    reader: R::Reader,
    faults: u64,
}

impl<R: Input> StdinSource<R> {
    /// The standard input, from where it stands on.
    pub fn new(rt: &R) -> StdinSource<R> {
        StdinSource {
            reader: rt.reader(),
            faults: 0,
        }
    }
}

// Takes what the platform gives at once, and tries again where a signal came between.
fn read_some<T: Read>(reader: &mut T, buf: &mut [u8]) -> Result<usize, SourceFault>
    ensures { IfOk result (λ n. n ≤ length buf.old) }
{
    for _ in 0..u64::MAX {
        match reader.read(buf) {
            Ok(n) => return Ok(n),
            Err(error) if error.kind() == ErrorKind::Interrupted => {}
            Err(_) => break,
        }
    }
    Err(SourceFault::Failed)
}

impl<R: Input> Source for StdinSource<R> {
    ghost use Rattle.std.specs.Prelude.{false};

    ghost tells = { false };

    ghost rest = { λ _. [] };

    ghost faults = { λ source. source.faults };

    fn fill(&mut self, buf: &mut [u8]) -> Result<usize, SourceFault> {
        let outcome = read_some(&mut self.reader, buf);
        if outcome.is_err() {
            self.faults = self.faults.saturating_add(1);
        }
        outcome
    }
}
