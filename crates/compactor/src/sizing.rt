// Keeping the sizes of the data files.
ghost use Rattle.std.specs.Prelude.{◌≡◌};
ghost use Rattle.compactor.specs.Sizing.{CountsWritten, RaisesTo, closed_size, closed_tail, sized_tail};

use file_stats::Stats;

// The size of a file that was closed: the end of a frame has 10 bytes.
fn closed_size(size: u64, unsealed: bool) -> u64
    ensures { result ≡ closed_size size unsealed }
{
    if unsealed {
        size.saturating_add(10)
    } else {
        size
    }
}

// A file that was closed, with its size.
fn closed_tail(
    before: Option<(u32, u64, bool)>,
    after: Option<(u32, u64, bool)>,
) -> Option<(u32, u64)>
    ensures { result ≡ closed_tail before after }
{
    let (file, size, unsealed) = before?;
    match after {
        Some((next, _, _)) if next == file => None,
        _ => Some((file, closed_size(size, unsealed))),
    }
}

// The current file with its size.
fn sized_tail(after: Option<(u32, u64, bool)>) -> Option<(u32, u64)>
    ensures { result ≡ sized_tail after }
{
    let (file, size, _) = after?;
    Some((file, size))
}

// A file has at least so many bytes, where one is given.
fn raise_to(stats: &mut Stats, end: Option<(u32, u64)>)
    ensures { RaisesTo end stats.old stats.new }
{
    if let Some((file, size)) = end {
        stats.raise(file, size);
    }
}

/// Brings the sizes of the files up to what was written, by the log's current file before and after it: of one that was
/// closed, where something in it waited, and of the current one, which may be new.
pub fn count_written(
    stats: &mut Stats,
    before: Option<(u32, u64, bool)>,
    after: Option<(u32, u64, bool)>,
)
    ensures { CountsWritten before after stats.old stats.new }
{
    raise_to(stats, closed_tail(before, after));
    raise_to(stats, sized_tail(after));
}
