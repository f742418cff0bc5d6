// One line of a script, as a command.
ghost use Rattle.std.specs.Prelude.{◌≡◌, option_map, IfOk, IfErr, List, ℕ, Some};
ghost use Rattle.cache_model.specs.Commands.{IsCommand, HasLine};
ghost use Rattle.cache_model.specs.Lines.{content_meaning, within_limits, ttl_refusal, takes_nothing, takes_moment, takes_file, takes_none_or, takes_key, takes_key_value, takes_entry, takes_exchange, takes_step};
ghost use Rattle.cache_model.specs.Plain.{Plain};
ghost use Rattle.cache_model.specs.Replies.{refused};
ghost use Rattle.cache_model.specs.Transcript.{Answers};
ghost use Rattle.cache_model.specs.declared.commands.Command.TheVariants.{At, CompactAll, CompactFile, ReplaceIf, RemoveIf};
ghost use Rattle.cache_script.specs.Reading.{Reads};
ghost use Rattle.cache_script.specs.Refusals.{refusal_of};
ghost use Rattle.cache_script.specs.Rows.{put_command, key_command, sole_command, row_arguments};

use crate::LineFault;
use crate::numbers::{number_of, ttl_of};
use crate::rows::{KeyKind, PutKind, Row, SoleKind, row_of, step_of};
use crate::tokens::Token;
use crate::words::Words;
use cache_model::{Command, Lifespan};
use std::alloc::Global;

/// A moment and a number of units are below this.
const UNITS_END: u64 = 1 << 61;

/// The command of a line without its end, which isn't long.
pub fn read_line(alloc: Global, line: &[u8]) -> Result<Command, LineFault>
    ensures read { Reads (content_meaning line.now) result }
    ensures limits { IfOk result IsCommand }
    ensures known { IfOk result HasLine }
    ensures refused { IfErr result (λ fault. (publish : List ℕ) (plain : Plain) → Answers publish plain (content_meaning line.now) (refused (refusal_of fault))) }
{
    let mut words = Words::of(line);
    let Some(name) = words.next() else {
        return Err(LineFault::Syntax);
    };
    match row_of(name) {
        Some(row) => read_row(alloc, row, &mut words),
        None => Err(LineFault::Syntax),
    }
}

// The command of a row.
fn read_row(alloc: Global, row: Row, words: &mut Words<'_>) -> Result<Command, LineFault>
    ensures read { Reads (within_limits (row_arguments row words.old)) result }
    ensures limits { IfOk result IsCommand }
{
    match row {
        Row::Moment => read_moment(words),
        Row::Compact => read_compaction(words),
        Row::Put(kind) => read_put(alloc, kind, words),
        Row::Exchange => read_exchange(alloc, words),
        Row::Key(kind) => read_key(alloc, kind, words),
        Row::RemoveIf => read_remove_if(alloc, words),
        Row::Step => read_step(words),
        Row::Sole(kind) => read_sole(kind, words),
    }
}

// A command that stands alone.
fn read_sole(kind: SoleKind, words: &Words<'_>) -> Result<Command, LineFault>
    ensures read { Reads (within_limits (takes_nothing (sole_command kind) words.now)) result }
    ensures limits { IfOk result IsCommand }
{
    if words.is_done() {
        Ok(kind.command())
    } else {
        Err(LineFault::Syntax)
    }
}

// The command that sets the moment.
fn read_moment(words: &mut Words<'_>) -> Result<Command, LineFault>
    ensures read { Reads (within_limits (takes_moment At words.old)) result }
    ensures limits { IfOk result IsCommand }
{
    let Some(word) = words.next() else {
        return Err(LineFault::Syntax);
    };
    let Some(moment) = number_of(word) else {
        return Err(LineFault::Syntax);
    };
    if moment < UNITS_END && words.is_done() {
        Ok(Command::At(moment))
    } else {
        Err(LineFault::Syntax)
    }
}

// The command that compacts a file.
fn read_file(words: &mut Words<'_>) -> Result<Command, LineFault>
    ensures read { Reads (within_limits (takes_file CompactFile words.old)) result }
    ensures limits { IfOk result IsCommand }
{
    let Some(word) = words.next() else {
        return Err(LineFault::Syntax);
    };
    let Some(number) = number_of(word) else {
        return Err(LineFault::Syntax);
    };
    match u32::try_from(number) {
        Ok(file) if words.is_done() => Ok(Command::CompactFile(file)),
        Ok(_) | Err(_) => Err(LineFault::Syntax),
    }
}

// The command that compacts all files, or one.
fn read_compaction(words: &mut Words<'_>) -> Result<Command, LineFault>
    ensures read { Reads (within_limits (takes_none_or CompactAll (takes_file CompactFile) words.old)) result }
    ensures limits { IfOk result IsCommand }
{
    if words.is_done() {
        Ok(Command::CompactAll)
    } else {
        read_file(words)
    }
}

// A step.
fn read_step(words: &mut Words<'_>) -> Result<Command, LineFault>
    ensures read { Reads (within_limits (takes_step words.old)) result }
    ensures limits { IfOk result IsCommand }
{
    let Some(name) = words.next() else {
        return Err(LineFault::Syntax);
    };
    let Some(kind) = step_of(name) else {
        return Err(LineFault::Syntax);
    };
    if words.is_done() {
        Ok(Command::Step(kind))
    } else {
        Err(LineFault::Syntax)
    }
}

// A command that has a key alone.
fn read_key(alloc: Global, kind: KeyKind, words: &mut Words<'_>) -> Result<Command, LineFault>
    ensures read { Reads (within_limits (takes_key (key_command kind) words.old)) result }
    ensures limits { IfOk result IsCommand }
{
    let Some(key) = words.token() else {
        return Err(LineFault::Syntax);
    };
    if !words.is_done() {
        return Err(LineFault::Syntax);
    }
    make_key(alloc, kind, &key)
}

// The command of a key, where it is within its limits.
fn make_key(alloc: Global, kind: KeyKind, key: &Token<'_>) -> Result<Command, LineFault>
    ensures read { Reads (within_limits (Some (key_command kind key.now))) result }
    ensures limits { IfOk result IsCommand }
{
    if let Some(fault) = key.key_fault() {
        return Err(fault);
    }
    match key.key(alloc) {
        Ok(key) => Ok(kind.command(key)),
        Err(_) => Err(LineFault::Memory),
    }
}

// The removal of a key where it has a value.
fn read_remove_if(alloc: Global, words: &mut Words<'_>) -> Result<Command, LineFault>
    ensures read { Reads (within_limits (takes_key_value RemoveIf words.old)) result }
    ensures limits { IfOk result IsCommand }
{
    let Some(key) = words.token() else {
        return Err(LineFault::Syntax);
    };
    let Some(old) = words.token() else {
        return Err(LineFault::Syntax);
    };
    if !words.is_done() {
        return Err(LineFault::Syntax);
    }
    make_remove_if(alloc, &key, &old)
}

// The removal of a key where it has a value, where both are within their limits.
fn make_remove_if(alloc: Global, key: &Token<'_>, old: &Token<'_>) -> Result<Command, LineFault>
    ensures read { Reads (within_limits (Some (RemoveIf key.now old.now))) result }
    ensures limits { IfOk result IsCommand }
{
    if let Some(fault) = key.key_fault().or(old.value_fault()) {
        return Err(fault);
    }
    match (key.key(alloc), old.value(alloc)) {
        (Ok(key), Ok(old)) => Ok(Command::RemoveIf(key, old)),
        _ => Err(LineFault::Memory),
    }
}

// A command that puts a value under a key.
fn read_put(alloc: Global, kind: PutKind, words: &mut Words<'_>) -> Result<Command, LineFault>
    ensures read { Reads (within_limits (takes_entry (put_command kind) words.old)) result }
    ensures limits { IfOk result IsCommand }
{
    let Some(key) = words.token() else {
        return Err(LineFault::Syntax);
    };
    let Some(value) = words.token() else {
        return Err(LineFault::Syntax);
    };
    match ttl_of(words) {
        Some(lifespan) => make_put(alloc, kind, &key, &value, lifespan),
        None => Err(LineFault::Syntax),
    }
}

// The put of a value under a key, where all is within its limits.
fn make_put(
    alloc: Global,
    kind: PutKind,
    key: &Token<'_>,
    value: &Token<'_>,
    lifespan: Lifespan,
) -> Result<Command, LineFault>
    ensures read { Reads (within_limits (Some (put_command kind key.now value.now lifespan))) result }
    ensures limits { IfOk result IsCommand }
{
    let fault = value.value_fault().or(ttl_fault(lifespan));
    if let Some(fault) = key.key_fault().or(fault) {
        return Err(fault);
    }
    match (key.key(alloc), value.value(alloc)) {
        (Ok(key), Ok(value)) => Ok(kind.command(key, value, lifespan)),
        _ => Err(LineFault::Memory),
    }
}

// The command that puts a new value under a key where it has an old one.
fn read_exchange(alloc: Global, words: &mut Words<'_>) -> Result<Command, LineFault>
    ensures read { Reads (within_limits (takes_exchange ReplaceIf words.old)) result }
    ensures limits { IfOk result IsCommand }
{
    let Some(key) = words.token() else {
        return Err(LineFault::Syntax);
    };
    let Some(old) = words.token() else {
        return Err(LineFault::Syntax);
    };
    let Some(value) = words.token() else {
        return Err(LineFault::Syntax);
    };
    match ttl_of(words) {
        Some(lifespan) => make_exchange(alloc, &key, &old, &value, lifespan),
        None => Err(LineFault::Syntax),
    }
}

// The put of a new value under a key where it has an old one, where all is within its limits.
fn make_exchange(
    alloc: Global,
    key: &Token<'_>,
    old: &Token<'_>,
    value: &Token<'_>,
    lifespan: Lifespan,
) -> Result<Command, LineFault>
    ensures read { Reads (within_limits (Some (ReplaceIf key.now old.now value.now lifespan))) result }
    ensures limits { IfOk result IsCommand }
{
    let fault = value.value_fault().or(ttl_fault(lifespan));
    if let Some(fault) = key.key_fault().or(old.value_fault().or(fault)) {
        return Err(fault);
    }
    match (key.key(alloc), old.value(alloc), value.value(alloc)) {
        (Ok(key), Ok(old), Ok(value)) => Ok(Command::ReplaceIf(key, old, value, lifespan)),
        _ => Err(LineFault::Memory),
    }
}

// Why a lifespan is refused, where it is.
fn ttl_fault(lifespan: Lifespan) -> Option<LineFault>
    ensures { option_map refusal_of result ≡ ttl_refusal lifespan }
{
    match lifespan {
        Lifespan::Of(units) if units >= UNITS_END => Some(LineFault::Ttl),
        _ => None,
    }
}
