// The hash of keys: FNV-1a with 32 bits.
ghost use Rattle.std.specs.Prelude.{◌≡◌, ◌≤◌, ◌<◌, ◌^◌, ◌%◌};
ghost use Rattle.cache_model.specs.Hash.{hash, hash_on};

use crate::Key;

/// The hash of a key, cut to its low `bits` bits, 0 to 32. With 0 bits it is 0.
#[tactic(auto, unfolding(crate::specs::Hash::hash))]
pub fn hash(key: &Key, bits: u32) -> u32
    requires { bits ≤ 32 }
    ensures hash { result ≡ hash bits key.now }
    ensures below { result < 2 ^ bits }
{
    cut(hash_all(key.bytes()), bits)
}

// FNV-1a of some bytes.
fn hash_all(bytes: &[u8]) -> u32
    ensures { result ≡ hash_on 2166136261 bytes.now }
{
    let mut hash: u32 = 2_166_136_261;
    for byte in bytes {
        hash = (hash ^ u32::from(*byte)).wrapping_mul(16_777_619);
    }
    hash
}

// The low bits of a number.
fn cut(number: u32, bits: u32) -> u32
    requires { bits ≤ 32 }
    ensures { result ≡ number % 2 ^ bits }
{
    (u64::from(number) % (1u64 << bits)) as u32
}
