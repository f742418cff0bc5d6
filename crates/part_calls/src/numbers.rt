// The keys of a part, by their numbers from 0 on.
ghost use Rattle.std.specs.Prelude.{◌<◌};

use cache_model::{Key, Place};
use std::alloc::{AllocError, Global};

/// A number that goes with another one, a different one for each, in no order.
pub fn scattered(number: u32) -> u32 {
    let first = (number ^ (number >> 16)).wrapping_mul(0x85eb_ca6b);
    let second = (first ^ (first >> 13)).wrapping_mul(0xc2b2_ae35);
    second ^ (second >> 16)
}

/// The number of the key that the call with a number asks for, of so many keys.
pub fn drawn(call: u32, keys: u32) -> u32
    requires { 0 < keys }
    ensures { result < keys }
{
    scattered(!call) % keys
}

/// The key with a number.
pub fn key_of(alloc: Global, number: u32) -> Result<Key, AllocError> {
    Key::of(alloc, &scattered(number).to_be_bytes()).map_err(|_| AllocError)
}

/// The place of the record of the key with a number.
pub fn place_of(number: u32) -> Place {
    Place {
        file: 1,
        at: number,
        length: 30,
    }
}
