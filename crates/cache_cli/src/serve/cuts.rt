// Crashes at each turn of a run whose changes aren't synced one by one, with five background steps behind each answer: all
// keys read as after one cut of its commands, which holds those up to the last `sync` that was answered.
use super::crashes::{FIRST_MOMENT, PlainRun, said_of_run};
use super::plain_reader::Records;
use super::tests::{Part, directory_of, script_of};
use super::with_settings::{serve_lines, settings_of};
use cache_model::Status;
use host_memory::MemoryHost;
use std::alloc::Global;
use std::process::Abort;
use std::test::Fail;

// A line: its text, how many bytes `v` stand behind it, and the moment when it is done.
type Line = (&'static str, usize, u64);

// The lines of the script. A file ends at 4,096 bytes.
const LINES: [Line; 22] = [
    ("put a 1", 0, 1000),
    ("put b 2 ttl 10", 0, 1000),
    ("sync", 0, 1000),
    ("put c ", 2000, 1000),
    ("remove a", 0, 1000),
    ("at 1003", 0, 1003),
    // This one closes the file, with the changes before it.
    ("put a ", 2100, 1003),
    ("put b 5 ttl 4", 0, 1003),
    ("step rotate", 0, 1003),
    ("removeif b 5", 0, 1003),
    ("clear", 0, 1003),
    ("put c 7 ttl 2", 0, 1003),
    ("put b 8", 0, 1003),
    ("at 1004", 0, 1004),
    ("sync", 0, 1004),
    ("put a 9 ttl 3", 0, 1004),
    ("at 1006", 0, 1006),
    ("replace c 1", 0, 1006),
    ("step rotate", 0, 1006),
    ("sync", 0, 1006),
    ("putabsent c 3", 0, 1006),
    ("remove b", 0, 1006),
];

// The line that does nothing else than to end the run.
const END: &str = "halt\n";

// The line that the plain map doesn't answer.
const ROTATE: &str = "step rotate";

// The line that promises the lines before it.
const SYNC: &str = "sync";

// Adds a line to a script, its end aside.
fn push_line(alloc: Global, line: Line, script: &mut Vec<u8>) -> Result<(), Fail> {
    script.extend_from_slice(line.0.as_bytes())?;
    script.extend_from_slice(&script_of(alloc, &[Part::Many(b'v', line.1)])?)?;
    Ok(())
}

// The host after a run of the first lines.
fn host_after(rt: &impl Abort, alloc: Global, count: usize) -> Result<MemoryHost, Fail> {
    let files = directory_of(rt, alloc, None)?;
    let mut host = MemoryHost::new(alloc, files, Vec::new(alloc), Vec::new(alloc), 0)?;
    let mut script = Vec::new(alloc);
    for line in LINES.iter().take(count) {
        push_line(alloc, *line, &mut script)?;
        script.push(b'\n')?;
    }
    script.extend_from_slice(END.as_bytes())?;
    let settings = settings_of(alloc, 0, false, 5)?;
    let status = serve_lines(alloc, &settings, &mut host, script)?;
    assert_eq!(rt; status, Status::Done, "the run of {count} lines");
    Ok(host)
}

// The plain map after the first lines.
fn plain_after(rt: &impl Abort, alloc: Global, count: usize) -> Result<PlainRun, Fail> {
    let mut run = PlainRun::begin(alloc);
    for line in LINES.iter().take(count).filter(|line| line.0 != ROTATE) {
        let mut bytes = Vec::new(alloc);
        push_line(alloc, *line, &mut bytes)?;
        run.answer_bytes(rt, alloc, &bytes)?;
    }
    Ok(run)
}

// What is read where so many lines count, by a run that begins at a moment that was first reached by a later line.
#[derive(Debug, Drop)]
struct Cut {
    count: usize,
    reached: usize,
    said: Vec<u8>,
}

// A run without a crash, and what is to be read of it.
#[derive(Debug, Drop)]
struct Course {
    host: MemoryHost,
    // For each line the turn from which on it was answered.
    answered: Vec<u64>,
    cuts: Vec<Cut>,
}

// The moments that are reached from so many lines on, each with how many lines reach it.
fn moments_from(alloc: Global, count: usize) -> Result<Vec<(usize, u64)>, Fail> {
    let mut last = FIRST_MOMENT;
    for line in LINES.iter().take(count) {
        last = line.2;
    }
    let mut moments = vec![in alloc; (count, last)]?;
    for (index, line) in LINES.iter().enumerate().skip(count) {
        if line.2 != last {
            last = line.2;
            moments.push((index + 1, last))?;
        }
    }
    Ok(moments)
}

// All cuts of the lines, at each moment of a later line.
fn all_cuts(rt: &impl Abort, alloc: Global) -> Result<Vec<Cut>, Fail> {
    let mut cuts = Vec::new(alloc);
    for count in 0..=LINES.len() {
        for (reached, moment) in &moments_from(alloc, count)? {
            let mut run = plain_after(rt, alloc, count)?;
            run.answer(rt, alloc, format!(in alloc; "at {moment}")?.as_str())?;
            cuts.push(Cut {
                count,
                reached: *reached,
                said: run.reading(rt, alloc, *moment)?,
            })?;
        }
    }
    Ok(cuts)
}

fn run_of_lines(rt: &impl Abort, alloc: Global) -> Result<Course, Fail> {
    let mut answered = Vec::new(alloc);
    for count in 1..=LINES.len() {
        // Behind the last answer it says only that it halted.
        answered.push(host_after(rt, alloc, count)?.turns().saturating_sub(1))?;
    }
    Ok(Course {
        host: host_after(rt, alloc, LINES.len())?,
        answered,
        cuts: all_cuts(rt, alloc)?,
    })
}

// How many of the first answered lines are promised: those up to the last `sync`.
fn promised_of(answered: usize) -> usize {
    let mut promised = 0;
    for (index, line) in LINES.iter().take(answered).enumerate() {
        if line.0 == SYNC {
            promised = index + 1;
        }
    }
    promised
}

impl Course {
    // How many lines were answered by a turn.
    fn answered_by(&self, turn: u64) -> usize {
        self.answered.iter().filter(|at| **at <= turn).count()
    }

    // Whether it may be said of what a crash at this turn leaves: all keys at one cut of the lines that were answered and
    // the one in hand, no older than the last answered `sync`.
    fn allows(&self, turn: u64, said: &[u8]) -> bool {
        let answered = self.answered_by(turn);
        let least = promised_of(answered);
        let most = answered.saturating_add(1);
        self.cuts.iter().any(|cut| {
            least <= cut.count
                && cut.count <= most
                && cut.reached <= most
                && cut.said.as_slice() == said
        })
    }

    // Crashes at a turn, and reads what each choice leaves by a run and plainly.
    fn reads_after(&self, rt: &impl Abort, alloc: Global, turn: u64) -> Result<(), Fail> {
        for choice in 0..=7 {
            assert!(rt; turn <= self.host.turns());
            let image = self.host.image_at(turn, choice)?;
            let plainly = Records::read(rt, alloc, &image)?.reading(alloc)?;
            assert!(rt;
                self.allows(turn, &plainly),
                "read plainly at turn {turn} by {choice}"
            );
            let said = said_of_run(rt, alloc, image)?;
            assert!(rt; self.allows(turn, &said), "at turn {turn} by {choice}");
        }
        Ok(())
    }
}

#[test]
fn a_crash_leaves_one_cut(rt: HostRuntime) -> Result<(), Fail> {
    let alloc = rt.alloc();
    let course = run_of_lines(&rt, alloc)?;
    for turn in 0..=course.host.turns() {
        course.reads_after(&rt, alloc, turn)?;
    }
    // Of four files, which were closed by their size and by steps, two were compacted, and the last two lines stand behind
    // a closed gate.
    let image = course.host.image_at(course.host.turns(), 1)?;
    assert_eq!(&rt; image.len(), 2);
    let said = said_of_run(&rt, alloc, image)?;
    let is_whole = course
        .cuts
        .iter()
        .any(|cut| cut.count == LINES.len() && cut.said == said);
    assert!(&rt; !is_whole);
    Ok(())
}
