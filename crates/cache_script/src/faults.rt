// Why a line is refused.

/// Why a line is no command that can be done.
#[derive(Clone, Copy, Debug, PartialEq, Eq)]
pub enum LineFault {
    /// It isn't in the grammar of lines.
    Syntax,
    /// Its key has so many bytes, which is out of the limits of keys.
    Key(usize),
    /// A value in it has so many bytes, which is above the limit of values.
    Value(usize),
    /// Its lifespan is too long.
    Ttl,
    /// Memory was wanted for its key or a value.
    Memory,
}
