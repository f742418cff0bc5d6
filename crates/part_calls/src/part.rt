// A part that is called, and the calls of a run.
ghost use Rattle.std.specs.Prelude.{◌≤◌, IfOk};

use std::alloc::AllocError;

/// A part of the index, with its keys and the kind of its calls.
pub trait Part {
    /// Makes the call with a number. Whether it found or did what it was to.
    fn is_answered(&mut self, call: u32) -> Result<bool, AllocError>;
}

/// How many of so many calls found or did what they were to.
pub fn answered<P: Part>(part: &mut P, calls: u32) -> Result<u32, AllocError>
    ensures within { IfOk result (λ count. count ≤ calls) }
{
    let mut count = 0;
    for call in 0..calls {
        if part.is_answered(call)? {
            count += 1;
        }
    }
    Ok(count)
}
