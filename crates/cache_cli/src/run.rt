// One line of a script after another, and its answer.
ghost use Rattle.std.specs.Prelude.{◌≡◌, ◌<◌, ◌++◌, ◌&&◌, ◌||◌, [], ◌∷◌, ℕ, Bool, List, Some, None, false, true, not, IsTrue, IfOk, OnOk, Result};
ghost use Rattle.cache_model.specs.Commands.{IsCommand};
ghost use Rattle.cache_model.specs.Lines.{meaning_of, content_meaning, asks, refuses};
ghost use Rattle.cache_model.specs.Replies.{replies, long};
ghost use Rattle.cache_model.specs.Transcript.{may_be_refused, ends_talk};
ghost use Rattle.cache_script.specs.LineReader.{units_taken};
ghost use Rattle.cache_session.specs.Turns.{store_of, moment_of, is_broken, IsBuilt, IsFit};
ghost use Rattle.cache_cli.specs.Causes.{HasHostCause, HasCause};
ghost use Rattle.cache_cli.specs.Talk.{Course, Talk, next_command, asked_in};
ghost use Rattle.cache_cli.specs.Saying.{is_memory};
ghost use Rattle.cache_cli.specs.Run.{view_by, IsTalking, Does, Answered, LongAnswered, Closed};
ghost use Rattle.cache_cli.specs.Steps.{IsTalkingOn, AnsweredNext, IsPaced, Stepped, Ran};

use crate::pump::{Pump, take_steps};
use crate::saying::{end_by, say_answer, say_refusal, say_reply};
use cache_disk::{Host, Source};
use cache_model::{Command, Reply, Status, StoreFault};
use cache_script::{LineFault, LineReader, ReadFault, Taken, read_line};
use cache_session::{Event, Session};
use std::alloc::Global;
use store_trait::{FileStore, Keyed};

// Whether a command may be refused for want of memory: those that speak of the whole store never are.
fn may_be_refused(command: &Command) -> bool
    ensures { result ≡ may_be_refused command.now }
{
    !matches!(
        command,
        Command::Size
            | Command::Keys
            | Command::Clear
            | Command::Sync
            | Command::CompactAll
            | Command::Stats
            | Command::Export
            | Command::Stop
    )
}

// Whether the talk goes on behind a reply.
fn goes_on(reply: &Reply) -> bool
    ensures { result ≡ not (ends_talk (replies reply.now)) }
{
    !matches!(reply, Reply::Stopped | Reply::Halted)
}

// Whether a fault is answered as a refusal: want of memory where the command may be refused and the session can go on.
fn is_refusal<S: Keyed>(refusable: bool, session: &Session<S>, fault: &StoreFault) -> bool
    ensures { result ≡ (refusable && not (is_broken session.now || (S.facts (store_of session.now)).spoilt) && is_memory fault.now) }
{
    refusable && !session.is_spoilt() && matches!(fault, StoreFault::Memory)
}

// Does a command, and gives its reply; None where it is refused for want of memory.
fn do_command<H: Host, S: FileStore<H>>(
    alloc: Global,
    session: &mut Session<S>,
    host: &mut H,
    command: Command,
) -> Result<Option<Reply>, Status>
    requires fit { IsFit (S.facts (store_of session.old)) (is_broken session.old) (moment_of session.old) }
    requires stands { IsTrue H.tells → (S.means (store_of session.old) (H.state host.old)).stands }
    requires command { IsCommand command }
    requires built { IsBuilt command }
    ensures fit { OnOk result (IsFit (S.facts (store_of session.new)) (is_broken session.new) (moment_of session.new)) }
    ensures stands { IsTrue H.tells → OnOk result (S.means (store_of session.new) (H.state host.new)).stands }
    ensures does { IsTrue H.tells → (from : H) (course : Course) (ordered : Bool) (left : List (List ℕ)) (talk : Talk)
        → (talking : IsTalking (H.state from) course ordered left talk (view_by S.facts S.means session.old (H.state host.old)))
        → next_command left ≡ command ∷ []
        → Does (H.state from) course ordered left talk command talking.0.turned (view_by S.facts S.means session.old (H.state host.old)) (view_by S.facts S.means session.new (H.state host.new)) result }
    ensures cause { HasHostCause (H.state host.old) (H.state host.new) result }
{
    let refusable = may_be_refused(&command);
    match session.turn(host, Event::Client(command)) {
        Ok(reply) => Ok(Some(reply)),
        Err(fault) => {
            if is_refusal(refusable, session, &fault) {
                Ok(None)
            } else {
                Err(end_by(alloc, host, fault))
            }
        }
    }
}

// Does the command of a line, and answers it. False says that the talk is over.
fn answer<H: Host, S: FileStore<H>>(
    alloc: Global,
    session: &mut Session<S>,
    host: &mut H,
    command: Command,
) -> Result<bool, Status>
    requires fit { IsFit (S.facts (store_of session.old)) (is_broken session.old) (moment_of session.old) }
    requires stands { IsTrue H.tells → (S.means (store_of session.old) (H.state host.old)).stands }
    requires command { IsCommand command }
    requires built { IsBuilt command }
    ensures fit { OnOk result (IsFit (S.facts (store_of session.new)) (is_broken session.new) (moment_of session.new)) }
    ensures stands { IsTrue H.tells → OnOk result (S.means (store_of session.new) (H.state host.new)).stands }
    ensures answered { IsTrue H.tells → (from : H) (course : Course) (ordered : Bool) (line : List ℕ) (left : List (List ℕ)) (talk : Talk)
        → IsTalking (H.state from) course ordered (line ∷ left) talk (view_by S.facts S.means session.old (H.state host.old))
        → meaning_of line ≡ asks command
        → Answered (H.state from) course ordered left (talk.answered ++ line ∷ []) (asked_in course talk) (view_by S.facts S.means session.new (H.state host.new)) result }
    ensures cause { HasHostCause (H.state host.old) (H.state host.new) result }
{
    match do_command(alloc, session, host, command) {
        Ok(Some(reply)) => match say_reply(alloc, session, host, &reply) {
            Ok(()) => Ok(goes_on(&reply)),
            Err(status) => Err(status),
        },
        Ok(None) => match say_refusal(alloc, session, host, &LineFault::Memory) {
            Ok(()) => Ok(true),
            Err(status) => Err(status),
        },
        Err(status) => Err(status),
    }
}

// Answers the end of the script, which counts as a line `stop`.
fn answer_end<H: Host, S: FileStore<H>>(
    alloc: Global,
    session: &mut Session<S>,
    host: &mut H,
) -> Result<(), Status>
    requires fit { IsFit (S.facts (store_of session.old)) (is_broken session.old) (moment_of session.old) }
    requires stands { IsTrue H.tells → (S.means (store_of session.old) (H.state host.old)).stands }
    ensures ended { IsTrue H.tells → (from : H) (course : Course) (ordered : Bool) (talk : Talk)
        → IsTalking (H.state from) course ordered [] talk (view_by S.facts S.means session.old (H.state host.old))
        → Closed (H.state from) course ordered talk (view_by S.facts S.means session.new (H.state host.new)) result }
    ensures cause { HasHostCause (H.state host.old) (H.state host.new) result }
{
    match do_command(alloc, session, host, Command::Stop) {
        Ok(Some(reply)) => say_reply(alloc, session, host, &reply),
        Ok(None) => Err(Status::NoMemory),
        Err(status) => Err(status),
    }
}

// Answers one line, its end aside. False says that the talk is over.
fn answer_line<H: Host, S: FileStore<H>>(
    alloc: Global,
    session: &mut Session<S>,
    host: &mut H,
    line: &[u8],
) -> Result<bool, Status>
    requires fit { IsFit (S.facts (store_of session.old)) (is_broken session.old) (moment_of session.old) }
    requires stands { IsTrue H.tells → (S.means (store_of session.old) (H.state host.old)).stands }
    ensures fit { OnOk result (IsFit (S.facts (store_of session.new)) (is_broken session.new) (moment_of session.new)) }
    ensures stands { IsTrue H.tells → OnOk result (S.means (store_of session.new) (H.state host.new)).stands }
    ensures answered { IsTrue H.tells → (from : H) (course : Course) (ordered : Bool) (raw : List ℕ) (left : List (List ℕ)) (talk : Talk)
        → IsTalking (H.state from) course ordered (raw ∷ left) talk (view_by S.facts S.means session.old (H.state host.old))
        → meaning_of raw ≡ content_meaning line.now
        → Answered (H.state from) course ordered left (talk.answered ++ raw ∷ []) (asked_in course talk) (view_by S.facts S.means session.new (H.state host.new)) result }
    ensures cause { HasHostCause (H.state host.old) (H.state host.new) result }
{
    match read_line(alloc, line) {
        Ok(command) => answer(alloc, session, host, command),
        Err(fault) => match say_refusal(alloc, session, host, &fault) {
            Ok(()) => Ok(true),
            Err(status) => Err(status),
        },
    }
}

// Says that a line is too long.
fn refuse_long<H: Host, S: FileStore<H>>(session: &Session<S>, host: &mut H) -> Result<(), Status>
    ensures stands { IsTrue H.tells → (S.means (store_of session.now) (H.state host.old)).stands → (S.means (store_of session.now) (H.state host.new)).stands }
    ensures answered { IsTrue H.tells → (from : H) (course : Course) (ordered : Bool) (raw : List ℕ) (left : List (List ℕ)) (talk : Talk)
        → IsTalking (H.state from) course ordered (raw ∷ left) talk (view_by S.facts S.means session.now (H.state host.old))
        → meaning_of raw ≡ refuses long
        → LongAnswered (H.state from) course ordered left (talk.answered ++ raw ∷ []) (asked_in course talk) (view_by S.facts S.means session.now (H.state host.new)) result }
    ensures cause { HasHostCause (H.state host.old) (H.state host.new) result }
{
    say_answer(session, host, b"refused long\n")
}

// Takes the next line and answers it. False says that the talk is over.
fn answer_next<H: Host, I: Source, S: FileStore<H>>(
    alloc: Global,
    session: &mut Session<S>,
    reader: &mut LineReader,
    host: &mut H,
    script: &mut I,
) -> Result<bool, Status>
    requires fit { IsFit (S.facts (store_of session.old)) (is_broken session.old) (moment_of session.old) }
    requires stands { IsTrue H.tells → (S.means (store_of session.old) (H.state host.old)).stands }
    ensures fit { IfOk result (λ more. more ≡ true → IsFit (S.facts (store_of session.new)) (is_broken session.new) (moment_of session.new)) }
    ensures stands { IsTrue H.tells → IfOk result (λ more. more ≡ true → (S.means (store_of session.new) (H.state host.new)).stands) }
    ensures units { IfOk result (λ more. more ≡ true → units_taken reader.old < units_taken reader.new) }
    ensures answered { IsTrue H.tells → IsTrue I.tells → (from : H) (course : Course) (ordered : Bool) (talk : Talk)
        → IsTalkingOn (H.state from) course ordered talk (view_by S.facts S.means session.old (H.state host.old)) reader.old (I.rest script.old)
        → AnsweredNext (H.state from) course ordered (asked_in course talk) (view_by S.facts S.means session.new (H.state host.new)) reader.new (I.rest script.new) result }
    ensures cause { HasCause (H.state host.old) (H.state host.new) (I.faults script.old) (I.faults script.new) result }
{
    match reader.next(script) {
        Ok(Taken::Line) => answer_line(alloc, session, host, reader.line()),
        Ok(Taken::Long) => match refuse_long(session, host) {
            Ok(()) => Ok(true),
            Err(status) => Err(status),
        },
        Ok(Taken::End) => match answer_end(alloc, session, host) {
            Ok(()) => Ok(false),
            Err(status) => Err(status),
        },
        Ok(Taken::Spent) => Err(Status::LinesSpent),
        Err(ReadFault::Failed) => Err(Status::ScriptFailed),
        Err(ReadFault::Memory) => Err(Status::NoMemory),
    }
}

// Takes the next line, answers it, and takes the background steps behind the answer. False says that the talk is over.
fn step_on<H: Host, I: Source, S: FileStore<H>>(
    alloc: Global,
    session: &mut Session<S>,
    pump: &mut Pump,
    reader: &mut LineReader,
    host: &mut H,
    script: &mut I,
) -> Result<bool, Status>
    requires fit { IsFit (S.facts (store_of session.old)) (is_broken session.old) (moment_of session.old) }
    requires stands { IsTrue H.tells → (S.means (store_of session.old) (H.state host.old)).stands }
    ensures fit { IfOk result (λ more. more ≡ true → IsFit (S.facts (store_of session.new)) (is_broken session.new) (moment_of session.new)) }
    ensures stands { IsTrue H.tells → IfOk result (λ more. more ≡ true → (S.means (store_of session.new) (H.state host.new)).stands) }
    ensures units { IfOk result (λ more. more ≡ true → units_taken reader.old < units_taken reader.new) }
    ensures stepped { IsTrue H.tells → IsTrue I.tells → (from : H) (course : Course) (ordered : Bool) (talk : Talk)
        → IsTalkingOn (H.state from) course ordered talk (view_by S.facts S.means session.old (H.state host.old)) reader.old (I.rest script.old)
        → IsPaced course (asked_in course talk) pump.old
        → Stepped (H.state from) course ordered (view_by S.facts S.means session.new (H.state host.new)) pump.new reader.new (I.rest script.new) result }
    ensures cause { HasCause (H.state host.old) (H.state host.new) (I.faults script.old) (I.faults script.new) result }
{
    match answer_next(alloc, session, reader, host, script) {
        Ok(true) => match take_steps(alloc, session, pump, host) {
            Ok(()) => Ok(true),
            Err(status) => Err(status),
        },
        Ok(false) => Ok(false),
        Err(status) => Err(status),
    }
}

/// Answers the lines of a script in turn, to its end, or to a line that ends the talk. The background steps that follow
/// each answer but the last go on with the next one.
pub fn answer_script<H: Host, I: Source, S: FileStore<H>>(
    alloc: Global,
    session: &mut Session<S>,
    pump: &mut Pump,
    reader: &mut LineReader,
    host: &mut H,
    script: &mut I,
) -> Result<(), Status>
    requires fit { IsFit (S.facts (store_of session.old)) (is_broken session.old) (moment_of session.old) }
    requires stands { IsTrue H.tells → (S.means (store_of session.old) (H.state host.old)).stands }
    ensures ran { IsTrue H.tells → IsTrue I.tells → (from : H) (course : Course) (ordered : Bool) (talk : Talk)
        → IsTalkingOn (H.state from) course ordered talk (view_by S.facts S.means session.old (H.state host.old)) reader.old (I.rest script.old)
        → IsPaced course (asked_in course talk) pump.old
        → Ran (H.state from) course ordered (view_by S.facts S.means session.new (H.state host.new)) result }
    ensures cause { HasCause (H.state host.old) (H.state host.new) (I.faults script.old) (I.faults script.new) result }
{
    'lines: while step_on(alloc, session, pump, reader, host, script)? {}
    Ok(())
}
