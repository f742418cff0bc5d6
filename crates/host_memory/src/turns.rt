// The record of the calls that took a turn.
ghost use Rattle.std.specs.Prelude.{◌≡◌, ◌<◌, ◌++◌, ◌∷◌, [], vec_len, vec_capacity};

use cache_model::FileName;

/// A call that took a turn, with what it asked for. Of those where it matters, whether it succeeded.
#[derive(Debug, Drop)]
pub enum Call {
    Create(FileName),
    /// The bytes at an offset.
    Write(FileName, u64, Vec<u8>),
    Sync(FileName, bool),
    Delete(FileName),
    SyncNames(bool),
    Say(Vec<u8>, bool),
}

/// A turn: the call that took it, and how many bytes the reads had asked for by then.
#[derive(Debug, Drop)]
pub struct Turn {
    pub call: Call,
    pub asked: u128,
}

// Adds a turn, for which there is room.
pub(crate) fn note(turns: &mut Vec<Turn>, call: Call, asked: u128)
    requires { vec_len turns.old < vec_capacity turns.old }
    ensures { turns.new.items ≡ turns.old.items ++ record { call = call; asked = asked } ∷ [] }
{
    turns.push(Turn { call, asked }).unwrap()
}
