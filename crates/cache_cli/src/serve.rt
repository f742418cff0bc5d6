// A run: from the words to the end of the script.
ghost use Rattle.std.specs.Prelude.{◌≡◌, ◌⊎◌, ◌^◌, ◌<◌, ◌≤◌, [], ℕ, Bool, List, map, string_bytes, false, true, Some, None, max, if◌then◌else◌, nat_lt, IsTrue, IfErr};
ghost use Rattle.cache_model.specs.Lines.{lines_of};
ghost use Rattle.cache_model.specs.Images.{IsSound};
ghost use Rattle.cache_model.specs.Settings.{AreInRange};
ghost use Rattle.cache_model.specs.declared.replies.Status.TheVariants as status;
ghost use Rattle.cache_model.specs.declared.settings.Settings.{Settings};
ghost use Rattle.cache_disk.specs.State.{Stands};
ghost use Rattle.store_trait.specs.Keeping.{Leaves};
ghost use Rattle.store_trait.specs.Calls.{IsReady};
ghost use Rattle.soft_index.specs.Store.{owns_file};
ghost use Rattle.cache_session.specs.Turns.{store_of, moment_of, is_broken, IsFit};
ghost use Rattle.cache_cli.specs.Causes.{CauseOf, WholeCauseOf, HostCauseOf, HasHostCause, HasCause};
ghost use Rattle.cache_cli.specs.Foreign.{IsForeign};
ghost use Rattle.cache_cli.specs.DirectorySettings.{HasSettings, EndsBySettings};
ghost use Rattle.cache_cli.specs.Talk.{Course};
ghost use Rattle.cache_cli.specs.Run.{view, view_by};
ghost use Rattle.cache_cli.specs.Opening.{Begins, Finished};
ghost use Rattle.cache_cli.specs.Ends.{IsUnused, EndsForeign, EndsRefused};
ghost use Rattle.cache_cli.specs.Serving.{course_by, Serves};
ghost use Rattle.cache_cli.specs.Words.{words_moment};

use crate::directory_settings::settings_in;
use crate::foreign::is_foreign;
use crate::pump::Pump;
use crate::run::answer_script;
use crate::saying::{say_answer, tell_damage};
use crate::words::moment_of;
use cache_disk::{Host, Source};
use cache_model::{Key, Settings, Status, StoreFault};
use cache_script::{LineReader, opened_line};
use cache_session::Session;
use soft_index::SoftIndex;
use std::alloc::Global;
use store_trait::FileStore;

/// Runs the store on a script: the whole program, over any host and source. `words` are those behind the directory.
///
/// The settings are those of the directory's settings file, and the defaults where it has none.
pub fn serve<H: Host, I: Source>(
    alloc: Global,
    words: &[String],
    host: &mut H,
    script: &mut I,
) -> Status
    // Other words than `--at` and a moment.
    ensures usage { words_moment (map string_bytes words.now) ≡ None
        → (result ≡ status.Usage) × (IsTrue H.tells → Stands (H.state host.old) (H.state host.new)) }
    // With good words: a settings file that gives no settings.
    ensures settings { IsTrue H.tells → (given : ℕ) → words_moment (map string_bytes words.now) ≡ Some given
        → EndsBySettings result (H.state host.old) (H.state host.new) }
    // With good words and settings: a directory with an index or a base file.
    ensures foreign { IsTrue H.tells → IsForeign (H.state host.old).files → (given : ℕ) → words_moment (map string_bytes words.now) ≡ Some given
        → (settings : Settings) → HasSettings (H.state host.old).files settings → EndsForeign result }
    // With good words and settings: a directory that is damaged is refused.
    ensures refused { IsTrue H.tells → (IsForeign (H.state host.old).files → ⊥) → (IsSound (H.state host.old).files → ⊥)
        → (given : ℕ) → words_moment (map string_bytes words.now) ≡ Some given
        → (settings : Settings) → HasSettings (H.state host.old).files settings → EndsRefused result }
    // With good words and settings: what is said, by the status, and what a crash may leave at each turn.
    ensures serves { IsTrue H.tells → IsTrue I.tells → (given : ℕ) → words_moment (map string_bytes words.now) ≡ Some given
        → (settings : Settings) → HasSettings (H.state host.old).files settings
        → Serves result (H.state host.old) (H.state host.new) (course_by settings (H.state host.old) given (lines_of (I.rest script.old))) }
    // Files that aren't the store's are left alone, as they read and in what a crash may leave.
    ensures others { IsTrue H.tells → IsTrue I.tells → Leaves owns_file false (H.state host.old) (H.state host.new) }
    // A failure only where its count rose, and no other answer where one did.
    ensures cause { WholeCauseOf result (H.state host.old) (H.state host.new) (I.faults script.old) (I.faults script.new) }
{
    match moment_of(words) {
        Some(_) => match settings_in(alloc, host) {
            Ok(settings) => serve_with(alloc, words, &settings, host, script),
            Err(status) => status,
        },
        None => Status::Usage,
    }
}

/// The same by settings that are handed in, whatever the settings file says: `file_size`, `compact_below`, `sync_writes`,
/// `hash_bits`, `queue` and `pump` are in force. It never ends with the status Settings.
///
/// Where changes aren't synced at once, only `sync` and `stop` promise them: a crash may leave a key as after any prefix
/// of its changes from the last such answer on.
pub fn serve_with<H: Host, I: Source>(
    alloc: Global,
    words: &[String],
    settings: &Settings,
    host: &mut H,
    script: &mut I,
) -> Status
    requires range { AreInRange settings.now }
    // Other words than `--at` and a moment.
    ensures usage { words_moment (map string_bytes words.now) ≡ None
        → (result ≡ status.Usage) × (IsTrue H.tells → IsUnused (course_by settings.now (H.state host.old) 0 []) (H.state host.new)) }
    // With good words: a directory with an index or a base file.
    ensures foreign { IsTrue H.tells → IsForeign (H.state host.old).files → (given : ℕ) → words_moment (map string_bytes words.now) ≡ Some given → EndsForeign result }
    // With good words: a directory that is damaged is refused.
    ensures refused { IsTrue H.tells → (IsForeign (H.state host.old).files → ⊥) → (IsSound (H.state host.old).files → ⊥)
        → (given : ℕ) → words_moment (map string_bytes words.now) ≡ Some given → EndsRefused result }
    // With good words: what is said, by the status, and what a crash may leave at each turn. It is told from a host that
    // the run begins on, or an earlier one since which nothing changed.
    ensures serves { IsTrue H.tells → IsTrue I.tells → (given : ℕ) → words_moment (map string_bytes words.now) ≡ Some given
        → (from : H) → Stands (H.state from) (H.state host.old)
        → Serves result (H.state from) (H.state host.new) (course_by settings.now (H.state from) given (lines_of (I.rest script.old))) }
    // Files that aren't the store's are left alone, as they read and in what a crash may leave.
    ensures others { IsTrue H.tells → IsTrue I.tells → Leaves owns_file false (H.state host.old) (H.state host.new) }
    // A failure only where its count rose, and no other answer where one did.
    ensures cause { CauseOf result (H.state host.old) (H.state host.new) (I.faults script.old) (I.faults script.new) }
{
    match moment_of(words) {
        Some(given) => serve_from(alloc, given, settings, host, script),
        None => Status::Usage,
    }
}

// The later one of the moment that was given and the mark of the files.
fn start_moment(given: u64, mark: u64) -> u64
    ensures { result ≡ max given mark }
{
    if given < mark { mark } else { given }
}

// Runs the store on a script from a moment on, where the directory has no index and no base file.
fn serve_from<H: Host, I: Source>(
    alloc: Global,
    given: u64,
    settings: &Settings,
    host: &mut H,
    script: &mut I,
) -> Status
    requires given { given < 2 ^ 61 }
    requires range { AreInRange settings.now }
    ensures foreign { IsTrue H.tells → IsForeign (H.state host.old).files → EndsForeign result }
    ensures refused { IsTrue H.tells → (IsForeign (H.state host.old).files → ⊥) → (IsSound (H.state host.old).files → ⊥) → EndsRefused result }
    ensures serves { IsTrue H.tells → IsTrue I.tells → (from : H) → Stands (H.state from) (H.state host.old)
        → Serves result (H.state from) (H.state host.new) (course_by settings.now (H.state from) given (lines_of (I.rest script.old))) }
    ensures cause { CauseOf result (H.state host.old) (H.state host.new) (I.faults script.old) (I.faults script.new) }
{
    match is_foreign(host) {
        Ok(false) => serve_store(alloc, given, settings, host, script),
        Ok(true) => Status::Usage,
        Err(status) => status,
    }
}

// Opens the store and runs it on a script from a moment on.
fn serve_store<H: Host, I: Source>(
    alloc: Global,
    given: u64,
    settings: &Settings,
    host: &mut H,
    script: &mut I,
) -> Status
    requires given { given < 2 ^ 61 }
    requires range { AreInRange settings.now }
    ensures refused { IsTrue H.tells → (IsSound (H.state host.old).files → ⊥) → EndsRefused result }
    ensures serves { IsTrue H.tells → IsTrue I.tells → (from : H) → Stands (H.state from) (H.state host.old)
        → Serves result (H.state from) (H.state host.new) (course_by settings.now (H.state from) given (lines_of (I.rest script.old))) }
    ensures cause { CauseOf result (H.state host.old) (H.state host.new) (I.faults script.old) (I.faults script.new) }
{
    match SoftIndex::start(alloc, host, 0, settings, |_key: &Key| true) {
        Ok((store, mark)) => {
            let moment = start_moment(given, mark);
            let ran = run_store(alloc, store, moment, settings.pump, host, script);
            match ran.result {
                Ok(()) => Status::Done,
                Err(status) => status,
            }
        }
        Err(StoreFault::Failed) => Status::DiskFailed,
        Err(StoreFault::Memory) => Status::NoMemory,
        Err(StoreFault::Spent(_)) => Status::Spent,
        Err(StoreFault::Damaged(damage)) => tell_damage(alloc, host, &damage),
    }
}

// The session as a run left it, and what the run ended with.
#[derive(Drop)]
struct Ran<S> {
    session: Session<S>,
    result: Result<(), Status>,
}

// Runs a store that was opened on a script from a moment on, with so many background steps behind each answer, and gives
// the session as it leaves it.
fn run_store<H: Host, I: Source, S: FileStore<H>>(
    alloc: Global,
    store: S,
    moment: u64,
    pump: u64,
    host: &mut H,
    script: &mut I,
) -> Ran<S>
    requires ready { IsReady (S.facts store) moment }
    requires stands { IsTrue H.tells → (S.means store (H.state host.old)).stands }
    ensures finished { IsTrue H.tells → IsTrue I.tells → (course : Course) (ordered : Bool)
        → course.lines ≡ lines_of (I.rest script.old) → course.pace.pump ≡ pump
        → Begins course ordered (view (S.facts store) (S.means store (H.state host.old)) (H.state host.old) moment)
        → Finished (H.state host.old) course ordered (view_by S.facts S.means result.session (H.state host.new)) result.result }
    ensures cause { HasCause (H.state host.old) (H.state host.new) (I.faults script.old) (I.faults script.new) result.result }
{
    let mut session = Session::new(alloc, store, moment);
    let result = answer_from_opening(alloc, &mut session, pump, host, script);
    Ran { session, result }
}

// Says that the directory is open, and answers the script, with so many background steps behind each answer.
fn answer_from_opening<H: Host, I: Source, S: FileStore<H>>(
    alloc: Global,
    session: &mut Session<S>,
    pump: u64,
    host: &mut H,
    script: &mut I,
) -> Result<(), Status>
    requires fit { IsFit (S.facts (store_of session.old)) (is_broken session.old) (moment_of session.old) }
    requires stands { IsTrue H.tells → (S.means (store_of session.old) (H.state host.old)).stands }
    ensures finished { IsTrue H.tells → IsTrue I.tells → (course : Course) (ordered : Bool)
        → course.lines ≡ lines_of (I.rest script.old) → course.pace.pump ≡ pump
        → Begins course ordered (view_by S.facts S.means session.old (H.state host.old))
        → Finished (H.state host.old) course ordered (view_by S.facts S.means session.new (H.state host.new)) result }
    ensures cause { HasCause (H.state host.old) (H.state host.new) (I.faults script.old) (I.faults script.new) result }
{
    let Ok(line) = opened_line(alloc, session.moment()) else {
        return Err(Status::NoMemory);
    };
    if let Err(status) = say_answer(session, host, line.as_bytes()) {
        return Err(status);
    }
    let Ok(mut reader) = LineReader::new(alloc) else {
        return Err(Status::NoMemory);
    };
    let mut pump = Pump::new(pump);
    answer_script(alloc, session, &mut pump, &mut reader, host, script)
}

#[cfg(test)]
mod crashes;
#[cfg(test)]
mod cuts;
#[cfg(test)]
mod noting;
#[cfg(test)]
mod plain_reader;
#[cfg(test)]
mod tests;
#[cfg(test)]
mod with_settings;
