// The figures against a plain table of sizes and live bytes, over drawn scripts, and at the ends of 64 bits.
ghost use Rattle.std.specs.Prelude.{◌≡◌, ◌+◌, ◌<◌, ◌^◌, All, IsTrue};

use super::Stats;
use cache_model::{FileCount, ModelFault};
use std::process::Abort;
use std::test::Fail;

// How many numbers files may have in a script.
const NUMBERS: u32 = 300;

// The seeds of the scripts, how many steps each has, and how many of the numbers it takes.
const SCRIPTS: [(u64, u32, u64); 4] = [(1, 400, 4), (2, 900, 40), (3, 1500, 300), (4, 700, 1)];

// Some of these bring live bytes to just a percentage of a size.
const BYTES: [u64; 8] = [0, 0, 1, 2, 50, 100, 100, 300];

const THRESHOLDS: [u64; 7] = [0, 1, 49, 50, 51, 100, 18_446_744_073_709_551_615];

// The size and the live bytes of each file by its number, where it has a row.
#[derive(Drop)]
struct Plain {
    files: Vec<Option<(u64, u64)>>,
}

impl Plain {
    fn file(&self, number: u32) -> Option<(u64, u64)> {
        self.files.get(number as usize).copied().flatten()
    }

    fn put(&mut self, number: u32, figures: Option<(u64, u64)>) {
        if let Some(file) = self.files.get_mut(number as usize) {
            *file = figures;
        }
    }

    fn is_candidate(&self, number: u32, threshold: u64, current: Option<u32>) -> bool {
        let Some((size, live)) = self.file(number) else {
            return false;
        };
        let part = u128::from(live).wrapping_mul(100);
        part < u128::from(threshold).wrapping_mul(u128::from(size)) && current != Some(number)
    }

    fn candidate(&self, threshold: u64, current: Option<u32>) -> Option<u32> {
        for number in 0..NUMBERS {
            if self.is_candidate(number, threshold, current) {
                return Some(number);
            }
        }
        None
    }

    fn totals(&self) -> (u64, u64, u64) {
        let mut totals = (0u64, 0u64, 0u64);
        for number in 0..NUMBERS {
            if let Some((size, live)) = self.file(number) {
                totals.0 = totals.0.saturating_add(1);
                totals.1 = totals.1.saturating_add(size);
                totals.2 = totals.2.saturating_add(live);
            }
        }
        totals
    }
}

// Numbers that are drawn.
#[derive(Drop)]
struct Draws(u64);

impl Draws {
    fn next(&mut self, limit: u64) -> u64
        requires { 0 < limit }
        ensures { result < limit }
    {
        self.0 = self
            .0
            .wrapping_mul(6_364_136_223_846_793_005)
            .wrapping_add(1_442_695_040_888_963_407);
        (self.0 >> 33) % limit
    }
}

// Whether so many bytes more fit into the size of a file.
fn fits(rows: &[FileCount], file: u32, bytes: u64) -> bool
    ensures { IsTrue result → All (λ row. row.number ≡ file → row.size + bytes < 2 ^ 64) rows.now }
{
    rows.iter()
        .all(|row| row.number != file || row.size <= u64::MAX - bytes)
}

// How many new files there is room for.
fn spare_of(stats: &Stats) -> usize
    ensures { result ≡ stats.now.spare }
{
    stats.classes.len() - stats.rows.len()
}

// More bytes for a file, where they fit: room is made before, and a new file takes just one place of it.
fn grow(
    rt: &impl Abort,
    stats: &mut Stats,
    plain: &mut Plain,
    file: u32,
    bytes: u64,
) -> Result<(), ModelFault> {
    let had = plain.file(file);
    stats.reserve()?;
    let spare = spare_of(stats);
    if fits(stats.rows(), file, bytes) {
        stats.grow(file, bytes);
        let (size, live) = had.unwrap_or((0, 0));
        plain.put(file, Some((size.saturating_add(bytes), live)));
        let taken = if had.is_some() { 0 } else { 1 };
        assert!(rt;
            spare_of(stats).checked_add(taken) == Some(spare),
            "a place for file {file}"
        );
    }
    Ok(())
}

// One change of both that is drawn.
fn change(
    rt: &impl Abort,
    stats: &mut Stats,
    plain: &mut Plain,
    file: u32,
    draws: &mut Draws,
) -> Result<(), ModelFault> {
    let bytes = BYTES[draws.next(8) as usize];
    let had = plain.file(file);
    match draws.next(8) {
        0..=2 => return grow(rt, stats, plain, file, bytes),
        3..=4 => {
            stats.live(file, bytes);
            let grown = |(size, live): (u64, u64)| (size, live.saturating_add(bytes).min(size));
            plain.put(file, had.map(grown));
        }
        5..=6 => {
            stats.dead(file, bytes);
            let shrunk = |(size, live): (u64, u64)| (size, live.saturating_sub(bytes));
            plain.put(file, had.map(shrunk));
        }
        _ => {
            let spare = spare_of(stats);
            stats.forget_file(file);
            plain.put(file, None);
            assert!(rt; spare <= spare_of(stats), "places without file {file}");
        }
    }
    Ok(())
}

// Both have the same rows, totals and candidates.
fn compare(rt: &impl Abort, stats: &Stats, plain: &Plain, drawn: u32) {
    let rows = stats.rows();
    let mut place = 0usize;
    for number in 0..NUMBERS {
        if let Some((size, live)) = plain.file(number) {
            let row = FileCount { number, size, live };
            assert!(rt; rows.get(place).copied() == Some(row), "file {number}");
            place = place.saturating_add(1);
        }
    }
    assert!(rt; place == rows.len(), "no further file");
    assert!(rt; stats.totals() == plain.totals(), "the totals");
    for threshold in THRESHOLDS {
        let least = plain.candidate(threshold, None);
        for current in [None, least, Some(drawn)] {
            let candidate = stats.candidate(threshold, current);
            assert!(rt;
                candidate == plain.candidate(threshold, current),
                "below {threshold}"
            );
        }
    }
}

#[test]
fn figures_are_those_of_a_plain_table(rt: HostRuntime) -> Result<(), Fail> {
    for (seed, steps, numbers) in SCRIPTS {
        let mut draws = Draws(seed);
        let mut stats = Stats::of(rt.alloc(), &[])?;
        let mut plain = Plain {
            files: vec![in rt.alloc(); None; NUMBERS as usize]?,
        };
        for step in 0..steps {
            let file = draws.next(numbers.max(1)) as u32;
            change(&rt, &mut stats, &mut plain, file, &mut draws)?;
            if step % 3 == 0 {
                compare(&rt, &stats, &plain, file);
            }
        }
        compare(&rt, &stats, &plain, 0);
        let made = Stats::of(rt.alloc(), stats.rows())?;
        compare(&rt, &made, &plain, 1);
    }
    Ok(())
}

const MOST: u64 = 18_446_744_073_709_551_615;

const LARGE: [FileCount; 3] = [
    FileCount {
        number: 0,
        size: MOST,
        live: MOST,
    },
    FileCount {
        number: 7,
        size: MOST,
        live: MOST - 1,
    },
    FileCount {
        number: 4_294_967_295,
        size: 0,
        live: 0,
    },
];

// A threshold and a current file, and the candidate of the files above.
const CANDIDATES: [(u64, Option<u32>, Option<u32>); 7] = [
    (0, None, None),
    (99, None, None),
    (100, None, Some(7)),
    (100, Some(7), None),
    (101, None, Some(0)),
    (MOST, Some(0), Some(7)),
    (MOST, Some(7), Some(0)),
];

#[test]
fn figures_hold_at_the_ends(rt: HostRuntime) -> Result<(), Fail> {
    let mut stats = Stats::of(rt.alloc(), &LARGE)?;
    assert!(rt; stats.rows() == LARGE.as_slice());
    assert!(rt; stats.totals() == (3, MOST, MOST));
    for (threshold, current, candidate) in CANDIDATES {
        assert!(rt;
            stats.candidate(threshold, current) == candidate,
            "below {threshold}"
        );
    }
    stats.live(0, MOST);
    stats.live(3, MOST);
    stats.dead(3, MOST);
    assert!(rt; stats.rows() == LARGE.as_slice());
    stats.dead(7, MOST);
    assert!(rt; stats.totals() == (3, MOST, MOST));
    assert!(rt; stats.candidate(1, None) == Some(7));
    stats.forget_file(0);
    assert!(rt; stats.totals() == (2, MOST, 0));
    stats.forget_file(7);
    assert!(rt; stats.totals() == (1, 0, 0));
    Ok(())
}
