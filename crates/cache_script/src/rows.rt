// The commands that a line can ask for, each with its name and what stands behind it.
ghost use Rattle.std.specs.Prelude.{◌≡◌, List, ℕ, MatchOption, None};
ghost use Rattle.std.specs.Map.{lookup};
ghost use Rattle.std.specs.Str.{bytes_eq};
ghost use Rattle.cache_model.specs.Lines.{row_command, command_rows, step_rows};
ghost use Rattle.cache_script.specs.Rows.{put_command, key_command, sole_command, row_arguments};

use cache_model::{Command, Key, Lifespan, StepKind, Value};

/// A command that puts a value under a key.
#[derive(Clone, Copy)]
pub enum PutKind {
    Put,
    PutAbsent,
    Replace,
}

impl PutKind {
    /// The command of this kind.
    pub fn command(self, key: Key, value: Value, lifespan: Lifespan) -> Command
        ensures { result ≡ put_command self key value lifespan }
    {
        match self {
            PutKind::Put => Command::Put(key, value, lifespan),
            PutKind::PutAbsent => Command::PutAbsent(key, value, lifespan),
            PutKind::Replace => Command::Replace(key, value, lifespan),
        }
    }
}

/// A command that has a key alone.
#[derive(Clone, Copy)]
pub enum KeyKind {
    Get,
    Has,
    Remove,
}

impl KeyKind {
    /// The command of this kind.
    pub fn command(self, key: Key) -> Command
        ensures { result ≡ key_command self key }
    {
        match self {
            KeyKind::Get => Command::Get(key),
            KeyKind::Has => Command::Has(key),
            KeyKind::Remove => Command::Remove(key),
        }
    }
}

/// A command that stands alone.
#[derive(Clone, Copy)]
pub enum SoleKind {
    Size,
    Keys,
    Clear,
    Sync,
    Stats,
    Stop,
    Halt,
}

impl SoleKind {
    /// The command of this kind.
    pub fn command(self) -> Command
        ensures { result ≡ sole_command self }
    {
        match self {
            SoleKind::Size => Command::Size,
            SoleKind::Keys => Command::Keys,
            SoleKind::Clear => Command::Clear,
            SoleKind::Sync => Command::Sync,
            SoleKind::Stats => Command::Stats,
            SoleKind::Stop => Command::Stop,
            SoleKind::Halt => Command::Halt,
        }
    }
}

/// What stands behind a command's name.
#[derive(Clone, Copy)]
pub enum Row {
    /// A moment.
    Moment,
    /// Nothing, or the number of a file.
    Compact,
    /// A key, a value and what lifespan it has.
    Put(PutKind),
    /// A key, an old value, a new one and what lifespan it has.
    Exchange,
    /// A key.
    Key(KeyKind),
    /// A key and the value that it is to have.
    RemoveIf,
    /// The name of a step.
    Step,
    /// Nothing.
    Sole(SoleKind),
}

/// The step of a name, where lines can ask for it.
pub fn step_of(name: &[u8]) -> Option<StepKind>
    ensures { result ≡ lookup (bytes_eq name.now) step_rows }
{
    if name == b"index".as_slice() {
        Some(StepKind::Index)
    } else if name == b"compact".as_slice() {
        Some(StepKind::Compact)
    } else if name == b"rotate".as_slice() {
        Some(StepKind::Rotate)
    } else {
        None
    }
}

/// The row of a command's name, where there is one.
pub fn row_of(name: &[u8]) -> Option<Row>
    ensures { MatchOption result
        ((words : List (List ℕ)) → row_command command_rows name.now words ≡ None)
        (λ row. (words : List (List ℕ)) → row_command command_rows name.now words ≡ row_arguments row words) }
{
    if name == b"at".as_slice() {
        Some(Row::Moment)
    } else if name == b"put".as_slice() {
        Some(Row::Put(PutKind::Put))
    } else if name == b"putabsent".as_slice() {
        Some(Row::Put(PutKind::PutAbsent))
    } else if name == b"replace".as_slice() {
        Some(Row::Put(PutKind::Replace))
    } else if name == b"replaceif".as_slice() {
        Some(Row::Exchange)
    } else if name == b"get".as_slice() {
        Some(Row::Key(KeyKind::Get))
    } else if name == b"has".as_slice() {
        Some(Row::Key(KeyKind::Has))
    } else if name == b"remove".as_slice() {
        Some(Row::Key(KeyKind::Remove))
    } else if name == b"removeif".as_slice() {
        Some(Row::RemoveIf)
    } else if name == b"size".as_slice() {
        Some(Row::Sole(SoleKind::Size))
    } else if name == b"keys".as_slice() {
        Some(Row::Sole(SoleKind::Keys))
    } else if name == b"clear".as_slice() {
        Some(Row::Sole(SoleKind::Clear))
    } else if name == b"step".as_slice() {
        Some(Row::Step)
    } else if name == b"sync".as_slice() {
        Some(Row::Sole(SoleKind::Sync))
    } else if name == b"compact".as_slice() {
        Some(Row::Compact)
    } else if name == b"stats".as_slice() {
        Some(Row::Sole(SoleKind::Stats))
    } else if name == b"stop".as_slice() {
        Some(Row::Sole(SoleKind::Stop))
    } else if name == b"halt".as_slice() {
        Some(Row::Sole(SoleKind::Halt))
    } else {
        None
    }
}
