// A script, line by line, in whatever pieces its source hands it in.
ghost use Rattle.std.specs.Prelude.{◌≡◌, ◌+◌, ◌++◌, ◌<◌, ◌≤◌, ◌^◌, [], length, true, false, IfOk, OnOk, IsTrue, IsErrOf};
ghost use Rattle.cache_model.specs.Lines.{content_of};
ghost use Rattle.cache_disk.specs.Source.{SourceCause};
ghost use Rattle.cache_script.specs.declared.line_reader.ReadFault.TheVariants.{Failed};

use crate::words::first_of;
use cache_disk::{Source, SourceFault};
use std::alloc::Global;

/// The most bytes of a line, its end aside.
const LINE_LIMIT: u64 = 1_048_576;

/// The most bytes of a line that are kept: one more, which may be a carriage return at its end.
const KEPT_LIMIT: u64 = LINE_LIMIT + 1;

/// A line takes a unit of input for each so many bytes, and one for its end.
const UNIT: u64 = 1_048_577;

/// How many units one run takes.
const UNITS: u64 = 1 << 32;

/// How many bytes are asked for at once.
const BUFFER: usize = 65536;

/// What was taken from the input.
#[derive(Clone, Copy, Debug, PartialEq, Eq)]
pub enum Taken {
    /// A line, which `line` gives.
    Line,
    /// A line that is too long.
    Long,
    /// Nothing: the input is at its end.
    End,
    /// No line: as much input was taken as one run takes.
    Spent,
}

/// Why nothing was taken. The reader isn't used again.
#[derive(Clone, Copy, Debug, PartialEq, Eq)]
pub enum ReadFault {
    Failed,
    Memory,
}

/// Takes lines from a source.
#[derive(Drop)]
pub struct LineReader {
    buffer: Vec<u8>,
    // What of the buffer isn't taken yet.
    at: usize,
    end: usize,
    // The line that is being taken, as far as it is kept, and how many bytes it has so far.
    line: Vec<u8>,
    taken: u64,
    // How many units the lines took that were taken before.
    units: u64,
    ghost in_order: { at ≤ end },
    ghost in_buffer: { end ≤ length buffer.items },
    ghost some_room: { 0 < length buffer.items },
    ghost whole_run: { units ≤ 4294967296 },
}

// Adds a piece to a line, which then has so many bytes, unless these are too many to be kept.
fn extend_line(line: &mut Vec<u8>, taken: u64, piece: &[u8]) -> Result<(), ReadFault>
    ensures line { OnOk result (taken ≤ 1048577 → line.new.items ≡ line.old.items ++ piece.now) }
    ensures memory { IsErrOf result Failed → ⊥ }
{
    if taken > KEPT_LIMIT {
        return Ok(());
    }
    line.extend_from_slice(piece).map_err(|_| ReadFault::Memory)
}

// Takes off the carriage return at the end of a line, where it has one.
fn cut_return(line: &mut Vec<u8>)
    ensures { line.new.items ≡ content_of line.old.items }
{
    if line.ends_with(b"\r") {
        line.pop();
    }
}

impl LineReader {
    ghost use Rattle.cache_script.specs.LineReader.{pending, unread, line_taken, units_taken, IsNew, Refilled, Fetched, Keeps, TakesPiece, IsSpent, HasUnits, EndsLine, EndsInput, Takes, Advances, ReadCause};
    ghost use Rattle.cache_script.specs.declared.line_reader.Taken.TheVariants.{Spent};

    /// A reader that has taken nothing.
    pub fn new(alloc: Global) -> Result<LineReader, ReadFault>
        ensures new { IfOk result IsNew }
        ensures memory { IsErrOf result Failed → ⊥ }
    {
        let buffer = vec![in alloc; 0; BUFFER].map_err(|_| ReadFault::Memory)?;
        Ok(LineReader {
            buffer,
            at: 0,
            end: 0,
            line: Vec::new(alloc),
            taken: 0,
            units: 0,
        })
    }

    /// The line that was taken last, without its end.
    pub fn line(&self) -> &[u8]
        ensures { result.now ≡ line_taken self.now }
    {
        &self.line
    }

    // Whether as much was taken as one run takes.
    fn is_spent(&self) -> bool
        ensures spent { result ≡ true → IsSpent self.now }
        ensures more { result ≡ false → HasUnits self.now }
    {
        self.units + self.taken / UNIT >= UNITS
    }

    // Fills the buffer, of which everything is taken, and says with how many bytes.
    fn refill<S: Source>(&mut self, source: &mut S) -> Result<usize, SourceFault>
        requires { self.old.at ≡ self.old.end }
        ensures told { IsTrue S.tells → Refilled self.old self.new (S.rest source.old) (S.rest source.new) result }
        ensures some { IfOk result (λ n. self.new.at + n ≡ self.new.end) }
        ensures line { (self.new.line ≡ self.old.line) × (self.new.taken ≡ self.old.taken) × (self.new.units ≡ self.old.units) }
        ensures cause { SourceCause (S.faults source.old) (S.faults source.new) result }
    {
        let count = source.fill(&mut self.buffer)?;
        self.at = 0;
        self.end = count;
        Ok(count)
    }

    // Fills the buffer where everything in it is taken, and says whether anything is pending.
    fn fetch<S: Source>(&mut self, source: &mut S) -> Result<bool, ReadFault>
        ensures told { IsTrue S.tells → IfOk result (λ some. Fetched some (unread self.old (S.rest source.old)) (unread self.new (S.rest source.new))) }
        ensures some { IfOk result (λ some. some ≡ true → self.new.at < self.new.end) }
        ensures line { (self.new.line ≡ self.old.line) × (self.new.taken ≡ self.old.taken) × (self.new.units ≡ self.old.units) }
        ensures cause { ReadCause (S.faults source.old) (S.faults source.new) result }
    {
        if self.at < self.end {
            return Ok(true);
        }
        match self.refill(source) {
            Ok(count) => Ok(count > 0),
            Err(SourceFault::Failed) => Err(ReadFault::Failed),
        }
    }

    // Takes so many of the bytes that are pending, as a part of the line.
    fn keep(&mut self, count: usize) -> Result<(), ReadFault>
        requires within { count ≤ length (pending self.old) }
        requires taken { self.old.taken < 2 ^ 53 }
        ensures kept { OnOk result (Keeps count self.old self.new) }
        ensures memory { IsErrOf result Failed → ⊥ }
        ensures units { self.new.units ≡ self.old.units }
    {
        let end = self.at + count;
        let taken = self.taken + count as u64;
        extend_line(&mut self.line, taken, &self.buffer[self.at..end])?;
        self.taken = taken;
        self.at = end;
        Ok(())
    }

    // Takes what the buffer has of the line, and says whether the line's end was met.
    fn take_piece(&mut self) -> Result<bool, ReadFault>
        requires { self.old.taken < 2 ^ 53 }
        ensures taken { IfOk result (λ ended. TakesPiece ended self.old self.new) }
        ensures memory { IsErrOf result Failed → ⊥ }
        ensures units { self.new.units ≡ self.old.units }
    {
        match first_of(&self.buffer[self.at..self.end], b'\n') {
            Some(count) => {
                self.keep(count)?;
                self.at += 1;
                Ok(true)
            }
            None => {
                self.keep(self.end - self.at)?;
                Ok(false)
            }
        }
    }

    // Notes that the end of the line was met, and says what was taken.
    fn end_line(&mut self) -> Taken
        ensures spent { result ≡ Spent → IsSpent self.old }
        ensures kept { EndsLine result self.old self.new }
    {
        if self.is_spent() {
            return Taken::Spent;
        }
        self.units += 1 + self.taken / UNIT;
        if self.taken > KEPT_LIMIT {
            return Taken::Long;
        }
        cut_return(&mut self.line);
        if self.line.len() as u64 <= LINE_LIMIT {
            Taken::Line
        } else {
            Taken::Long
        }
    }

    // Notes that the end of the input was met, and says what was taken.
    fn end_input(&mut self) -> Taken
        ensures { EndsInput result self.old self.new }
    {
        if self.taken == 0 {
            Taken::End
        } else {
            self.end_line()
        }
    }

    /// Takes the next line. Its line feed, which the last one may lack, and one carriage return in front of that aren't
    /// part of it. A line that is too long is passed over up to its end, in memory for the longest line.
    pub fn next<S: Source>(&mut self, source: &mut S) -> Result<Taken, ReadFault>
        ensures told { IsTrue S.tells → IfOk result (λ taken. Takes taken (unread self.old (S.rest source.old)) (unread self.new (S.rest source.new)) (units_taken self.old) self.new) }
        ensures units { IfOk result (λ taken. Advances taken (units_taken self.old) (units_taken self.new)) }
        ensures cause { ReadCause (S.faults source.old) (S.faults source.new) result }
    {
        self.line.clear();
        self.taken = 0;
        while !self.is_spent() {
            if !self.fetch(source)? {
                return Ok(self.end_input());
            }
            if self.take_piece()? {
                return Ok(self.end_line());
            }
        }
        Ok(Taken::Spent)
    }
}
