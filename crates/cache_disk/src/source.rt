// Where a script comes from.
ghost use Rattle.std.specs.Prelude.{◌≤◌, List, ℕ, Bool, length, IfOk, IsTrue};
ghost use Rattle.cache_disk.specs.Source.{Filled, SourceCause};

/// Why no input came.
#[derive(Clone, Copy, Debug, PartialEq, Eq)]
pub enum SourceFault {
    Failed,
}

/// A source of bytes.
pub trait Source {
    /// Whether it tells its bytes.
    ghost tells: { Bool };

    /// The bytes that are left.
    ghost rest: { Self → List ℕ };

    /// How often it has failed, a count that never falls.
    ghost faults: { Self → ℕ };

    /// Takes some of the bytes that are left, and says how many. `Ok(0)` for a buffer that isn't empty is the end.
    fn fill(&mut self, buf: &mut [u8]) -> Result<usize, SourceFault>
        ensures within { IfOk result (λ n. n ≤ length buf.old) }
        ensures told { IsTrue tells → Filled (rest self.old) (rest self.new) buf.old buf.new result }
        ensures cause { SourceCause (faults self.old) (faults self.new) result };
}
