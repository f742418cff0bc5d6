// Crashes at each turn of a run. A change that was answered outlasts them, and of the one that wasn't there is all or
// nothing, but of a `clear` there are any of its removals: the files read as the plain map does. A step makes no
// difference to what is read.
ghost use Rattle.std.specs.Prelude.{IsTrue};
ghost use Rattle.host_memory.specs.Files.{are_named_apart};

use super::plain_reader::Records;
use super::tests::{
    FIRST, FOURTH, NamedBytes, ONE_PUT, SECOND, THIRD, directory_of, name_of, serve_script,
};
use super::with_settings::{serve_lines, settings_of};
use cache_model::{PlainCache, Prefix, Status};
use cache_script::{opened_line, read_line, write_reply};
use host_memory::{DiskFile, MemoryHost, MemorySource};
use std::alloc::Global;
use std::process::Abort;
use std::test::Fail;

// The first moment of all runs, and one that is later than all their changes.
pub(super) const FIRST_MOMENT: u64 = 1000;

pub(super) const LATER: u64 = 1011;

const WORDS: [&str; 2] = ["--at", "1000"];

// The keys, in the order of their bytes.
pub(super) const KEYS: [&str; 3] = ["a", "b", "c"];

// The lines that read them, at the moment of an opening and at the later one.
const READS: [&str; 9] = [
    "keys", "get a", "get b", "get c", "at 1011", "keys", "get a", "get b", "get c",
];

// A line that changes something or asks for a step, and the moment at which it's done.
type Change = (u64, &'static str);

// What the lines begin with that the plain map doesn't answer.
const STEP: &str = "step ";

const COMPACT: &str = "compact ";

// A script of changes over a directory with one file at most, which holds the stored ones: how many steps follow an
// answer, and the files that stand at the end.
#[derive(Clone, Copy, Debug)]
struct Scenario {
    file: Option<NamedBytes>,
    stored: &'static [Change],
    changes: &'static [Change],
    pump: u8,
    left: &'static [&'static str],
}

const ONE_MORE: Scenario = Scenario {
    file: Some((FIRST, ONE_PUT)),
    stored: &[(1000, "put a b")],
    changes: &[(1005, "put a c ttl 5")],
    pump: 1,
    left: &[FIRST, SECOND],
};

const MANY: Scenario = Scenario {
    file: None,
    stored: &[],
    changes: &[
        (1000, "put a 1"),
        (1000, "put b 22 ttl 10"),
        (1000, "put c 3 ttl 2"),
        (1002, "replace a 44 ttl 9"),
        (1002, "putabsent c 5 ttl 20"),
        (1002, "remove b"),
        (1002, "put b 6"),
        (1004, "clear"),
        (1004, "put b 7"),
        (1004, "put a 8 ttl 0"),
        (1004, "put a 9 ttl 7"),
        (1004, "removeif b 7"),
    ],
    pump: 1,
    left: &[FIRST],
};

// The compaction of a file passes over two records and copies two, and one of their keys is put before it ends.
const COMPACTED: Scenario = Scenario {
    file: None,
    stored: &[],
    changes: &[
        (1000, "put a x"),
        (1000, "put a x"),
        (1000, "put a x"),
        (1000, "put b v1"),
        (1000, "step rotate"),
        (1000, "step index"),
        (1000, "step index"),
        (1000, "step index"),
        (1000, "step index"),
        (1000, "step compact"),
        (1000, "step compact"),
        (1000, "step compact"),
        (1000, "step compact"),
        (1000, "put b v2"),
        (1000, "step index"),
        (1000, "step index"),
        (1000, "step index"),
        (1000, "step index"),
        (1000, "step compact"),
        (1000, "step compact"),
        (1000, "step compact"),
    ],
    pump: 0,
    left: &[SECOND],
};

// The file has records that later ones of their keys follow, a put that expired, a removal and a put that is visible.
const EVERY_FATE: Scenario = Scenario {
    file: None,
    stored: &[],
    changes: &[
        (1000, "put a 1"),
        (1000, "put b 2 ttl 3"),
        (1000, "put c 3"),
        (1003, "remove c"),
        (1003, "put a 4"),
        (1003, "step rotate"),
        (1003, "step compact"),
        (1003, "step compact"),
        (1003, "step compact"),
        (1003, "step compact"),
        (1003, "step compact"),
        (1003, "step compact"),
        (1003, "step compact"),
    ],
    pump: 0,
    left: &[SECOND],
};

// A file is compacted, and then the one that its records were copied to.
const TWICE: Scenario = Scenario {
    file: None,
    stored: &[],
    changes: &[
        (1000, "put a 1"),
        (1000, "put a 2 ttl 9"),
        (1000, "put b 3"),
        (1000, "step rotate"),
        (1000, "step compact"),
        (1000, "step compact"),
        (1000, "step compact"),
        (1000, "step compact"),
        (1000, "step compact"),
        (1000, "step rotate"),
        (1002, "put b 4"),
        (1002, "put c 5 ttl 2"),
        (1002, "step compact"),
        (1002, "step compact"),
        (1002, "step compact"),
        (1002, "step compact"),
    ],
    pump: 0,
    left: &[THIRD],
};

// Files are named to be compacted: one whose compaction is under way, one that is there, and one that isn't. Then all are.
const NAMED: Scenario = Scenario {
    file: None,
    stored: &[],
    changes: &[
        (1000, "put a 1"),
        (1000, "put a 2"),
        (1000, "put b 3 ttl 3"),
        (1000, "put a 4 ttl 9"),
        (1000, "step rotate"),
        (1000, "put c 5"),
        (1000, "step compact"),
        (1002, "compact 1"),
        (1002, "step rotate"),
        (1003, "remove c"),
        (1003, "compact 2"),
        (1003, "compact 2"),
        (1003, "compact"),
    ],
    pump: 0,
    left: &[FOURTH],
};

// The plain map with what is said of the lines on it.
#[derive(Debug, Drop)]
pub(super) struct PlainRun {
    map: PlainCache,
    said: Vec<u8>,
}

impl PlainRun {
    // Over an empty map.
    pub(super) fn begin(alloc: Global) -> PlainRun {
        PlainRun {
            map: PlainCache::new(alloc, FIRST_MOMENT),
            said: Vec::new(alloc),
        }
    }

    // Answers a line.
    pub(super) fn answer(
        &mut self,
        rt: &impl Abort,
        alloc: Global,
        line: &str,
    ) -> Result<(), Fail> {
        self.answer_bytes(rt, alloc, line.as_bytes())
    }

    // Answers a line that is given as bytes.
    pub(super) fn answer_bytes(
        &mut self,
        rt: &impl Abort,
        alloc: Global,
        line: &[u8],
    ) -> Result<(), Fail> {
        let Ok(command) = read_line(alloc, line) else {
            panic!(rt; "no command: {line:?}");
        };
        let publish = Prefix::of(alloc, &[])?;
        let reply = self.map.step(&publish, command)?;
        write_reply(&reply.expect(rt, "a client's line"), &mut self.said)?;
        Ok(())
    }

    // Does a change at its moment.
    fn change(&mut self, rt: &impl Abort, alloc: Global, change: Change) -> Result<(), Fail> {
        let (moment, line) = change;
        self.answer(rt, alloc, format!(in alloc; "at {moment}")?.as_str())?;
        if line.starts_with(STEP) || line.starts_with(COMPACT) {
            return Ok(());
        }
        self.answer(rt, alloc, line)
    }

    // Removes some of the keys at a moment: those whose bits are set.
    fn remove(
        &mut self,
        rt: &impl Abort,
        alloc: Global,
        moment: u64,
        keys: u8,
    ) -> Result<(), Fail> {
        let mut bits = keys;
        for line in ["remove a", "remove b", "remove c"] {
            if bits % 2 == 1 {
                self.change(rt, alloc, (moment, line))?;
            }
            bits /= 2;
        }
        Ok(())
    }

    // What a run says that opens the map at a moment and reads the keys.
    pub(super) fn reading(
        mut self,
        rt: &impl Abort,
        alloc: Global,
        mark: u64,
    ) -> Result<Vec<u8>, Fail> {
        self.said = opened_line(alloc, mark)?.into_bytes();
        for line in READS {
            self.answer(rt, alloc, line)?;
        }
        self.said.extend_from_slice(b"stopped\n")?;
        Ok(self.said)
    }
}

// What may be said of the keys, where so many changes were answered at least and so many at most.
#[derive(Debug, Drop)]
struct Reading {
    least: usize,
    most: usize,
    said: Vec<u8>,
}

// A scenario's run without a crash, and what is to be read of it.
#[derive(Debug, Drop)]
struct Course {
    host: MemoryHost,
    // For each change the turn from which on it was answered.
    answered: Vec<u64>,
    readings: Vec<Reading>,
}

impl Scenario {
    // The lines of the first changes, each behind its moment where that's another one.
    fn lines(&self, alloc: Global, count: usize) -> Result<String, Fail> {
        let mut lines = String::new(alloc);
        let mut last = FIRST_MOMENT;
        for (moment, line) in self.changes.iter().take(count) {
            if *moment != last {
                lines.push_str(format!(in alloc; "at {moment}\n")?.as_str())?;
                last = *moment;
            }
            lines.push_str(format!(in alloc; "{line}\n")?.as_str())?;
        }
        Ok(lines)
    }

    // The host after a run of the first changes.
    fn host_after(&self, rt: &impl Abort, alloc: Global, count: usize) -> Result<MemoryHost, Fail> {
        let files = directory_of(rt, alloc, self.file)?;
        let mut host = MemoryHost::new(alloc, files, Vec::new(alloc), Vec::new(alloc), 0)?;
        let lines = self.lines(alloc, count)?;
        let settings = settings_of(alloc, 0, true, u64::from(self.pump))?;
        let status = serve_lines(alloc, &settings, &mut host, lines.into_bytes())?;
        assert_eq!(rt; status, Status::Done, "the run of {count} changes");
        Ok(host)
    }

    // The plain map after the first changes, and the moment of the last one.
    fn plain_after(
        &self,
        rt: &impl Abort,
        alloc: Global,
        count: usize,
    ) -> Result<(PlainRun, u64), Fail> {
        let mut run = PlainRun::begin(alloc);
        let mut mark = FIRST_MOMENT;
        for change in self.stored.iter().chain(self.changes.iter().take(count)) {
            run.change(rt, alloc, *change)?;
            mark = change.0;
        }
        Ok((run, mark))
    }

    // Adds what may be said after the first changes.
    fn push_reading(
        &self,
        rt: &impl Abort,
        alloc: Global,
        count: usize,
        readings: &mut Vec<Reading>,
    ) -> Result<(), Fail> {
        let (run, mark) = self.plain_after(rt, alloc, count)?;
        readings.push(Reading {
            least: count.saturating_sub(1),
            most: count,
            said: run.reading(rt, alloc, mark)?,
        })?;
        Ok(())
    }

    // Adds what may be said where a `clear` behind the first changes stops after any of its removals.
    fn push_removals(
        &self,
        rt: &impl Abort,
        alloc: Global,
        count: usize,
        moment: u64,
        readings: &mut Vec<Reading>,
    ) -> Result<(), Fail> {
        for keys in 1..8 {
            let (mut run, _) = self.plain_after(rt, alloc, count)?;
            run.remove(rt, alloc, moment, keys)?;
            readings.push(Reading {
                least: count,
                most: count,
                said: run.reading(rt, alloc, moment)?,
            })?;
        }
        Ok(())
    }

    // What may be said, by how many changes were answered.
    fn readings(&self, rt: &impl Abort, alloc: Global) -> Result<Vec<Reading>, Fail> {
        let mut readings = Vec::new(alloc);
        self.push_reading(rt, alloc, 0, &mut readings)?;
        for (count, (moment, line)) in self.changes.iter().enumerate() {
            if *line == "clear" {
                self.push_removals(rt, alloc, count, *moment, &mut readings)?;
            }
            self.push_reading(rt, alloc, count + 1, &mut readings)?;
        }
        Ok(readings)
    }

    // Just these files stand after the run.
    fn has_left(&self, rt: &impl Abort, alloc: Global, host: &MemoryHost) -> Result<(), Fail> {
        let last = host.image_at(host.turns(), 1)?;
        assert_eq!(rt; last.len(), self.left.len(), "{self:?}");
        for text in self.left {
            let name = name_of(rt, alloc, text)?;
            assert!(rt; host.file(name).is_some(), "{text}");
        }
        Ok(())
    }

    // The run, and what its changes come to.
    fn course(&self, rt: &impl Abort, alloc: Global) -> Result<Course, Fail> {
        let mut answered = Vec::new(alloc);
        for count in 1..=self.changes.len() {
            // Behind the last answer it says only that it stopped.
            answered.push(self.host_after(rt, alloc, count)?.turns().saturating_sub(1))?;
        }
        Ok(Course {
            host: self.host_after(rt, alloc, self.changes.len())?,
            answered,
            readings: self.readings(rt, alloc)?,
        })
    }
}

// What a run on these files says that reads the keys.
pub(super) fn said_of_run(
    rt: &impl Abort,
    alloc: Global,
    image: Vec<DiskFile>,
) -> Result<Vec<u8>, Fail>
    requires apart { IsTrue (are_named_apart image.items) }
{
    let mut host = MemoryHost::new(alloc, image, Vec::new(alloc), Vec::new(alloc), 0)?;
    let mut lines = String::new(alloc);
    for line in READS {
        lines.push_str(format!(in alloc; "{line}\n")?.as_str())?;
    }
    let script = MemorySource::new(alloc, lines.into_bytes(), Vec::new(alloc))?;
    let status = serve_script(alloc, &WORDS, &mut host, script)?;
    assert_eq!(rt; status, Status::Done, "the run of the reads");
    Ok(host.said().to_vec(alloc)?)
}

impl Course {
    // Whether it may be said of what a crash at this turn leaves.
    fn allows(&self, turn: u64, said: &[u8]) -> bool {
        let answered = self.answered.iter().filter(|at| **at <= turn).count();
        self.readings.iter().any(|reading| {
            reading.least <= answered && answered <= reading.most && reading.said.as_slice() == said
        })
    }

    // Crashes at a turn, and reads what each choice leaves by a run and plainly.
    fn reads_after(&self, rt: &impl Abort, alloc: Global, turn: u64) -> Result<(), Fail> {
        for choice in 0..=7 {
            assert!(rt; turn <= self.host.turns());
            let image = self.host.image_at(turn, choice)?;
            let plainly = Records::read(rt, alloc, &image)?.reading(alloc)?;
            assert!(rt;
                self.allows(turn, &plainly),
                "read plainly at turn {turn} by {choice}"
            );
            let said = said_of_run(rt, alloc, image)?;
            assert!(rt; self.allows(turn, &said), "at turn {turn} by {choice}");
        }
        Ok(())
    }
}

// Crashes at each turn of the runs.
fn are_read_after(rt: &impl Abort, alloc: Global, scenarios: &[Scenario]) -> Result<(), Fail> {
    for scenario in scenarios {
        let course = scenario.course(rt, alloc)?;
        scenario.has_left(rt, alloc, &course.host)?;
        for turn in 0..=course.host.turns() {
            course.reads_after(rt, alloc, turn)?;
        }
    }
    Ok(())
}

#[test]
fn a_crash_leaves_what_was_answered(rt: HostRuntime) -> Result<(), Fail> {
    are_read_after(&rt, rt.alloc(), &[ONE_MORE, MANY])
}

#[test]
fn a_crash_while_a_file_is_compacted_changes_no_answer(rt: HostRuntime) -> Result<(), Fail> {
    are_read_after(&rt, rt.alloc(), &[COMPACTED, EVERY_FATE])
}

#[test]
fn a_crash_amid_two_compactions_changes_no_answer(rt: HostRuntime) -> Result<(), Fail> {
    are_read_after(&rt, rt.alloc(), &[TWICE, NAMED])
}
