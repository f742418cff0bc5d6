// Keys, values and prefixes: lists of bytes within the limits of `specs/Limits.antt`.
ghost use Rattle.std.specs.Prelude.{◌≡◌, ◌⊎◌, length, IfOk, IfErr, MatchResult};
ghost use Rattle.cache_model.specs.Limits.{IsKeyLength, IsValueLength};
ghost use Rattle.std.specs.Prelude.{nat_eq, Some};
ghost use Rattle.std.specs.Ordering.{nat_cmp};
ghost use Rattle.std.specs.Cmp.{partial_equiv_from_equiv};
ghost use Rattle.std.specs.Cmp.Lexicographic.{pointwise, slice_cmp, nat_list_eq_equiv, nat_list_cmp_total, texts_ties, texts_po};
ghost use Rattle.std.proofs.Common.{rules};
ghost use Rattle.cache_model.specs.declared.faults.ModelFault.TheVariants.{KeyLength, ValueLength, Memory};

use crate::ModelFault;
use std::alloc::Global;
use std::cmp::Ordering;
use std::marker::Model;

/// The greatest length of a key and of a prefix, in bytes. The least of a key is 1.
pub const KEY_LIMIT: usize = 1024;

/// The greatest length of a value, in bytes.
pub const VALUE_LIMIT: usize = 65536;

/// A key: 1 to 1,024 bytes of any kind.
#[derive(Debug, Drop)]
pub struct Key {
    bytes: Vec<u8>,
}

impl Model for Key {
    ghost use Rattle.std.specs.Prelude.{List, ℕ, length};
    ghost use Rattle.cache_model.specs.Limits.{IsKeyLength};

    ghost Value = { List ℕ };

    ghost view = { λ key. key.bytes.items };

    ghost invariant = { λ key. IsKeyLength (length key.bytes.items) };
}

impl Key {
    /// A key of these bytes. `KeyLength` carries their number.
    pub fn of(alloc: Global, bytes: &[u8]) -> Result<Key, ModelFault>
        // Out of its limits a length is refused as such, and within them only for want of memory.
        ensures { MatchResult result
            (λ key. IsKeyLength (length bytes.now) × (key ≡ bytes.now))
            (λ fault. (IsKeyLength (length bytes.now) × (fault ≡ Memory))
            ⊎ (¬ IsKeyLength (length bytes.now) × (fault ≡ KeyLength (length bytes.now)))) }
    {
        if bytes.is_empty() || bytes.len() > KEY_LIMIT {
            return Err(ModelFault::KeyLength(bytes.len()));
        }
        let bytes = Vec::from_slice(alloc, bytes).map_err(|_| ModelFault::Memory)?;
        Ok(Key { bytes })
    }

    /// Another key of the same bytes.
    pub fn copy(&self) -> Result<Key, ModelFault>
        ensures equal { IfOk result (λ key. key ≡ self.now) }
        ensures memory { IfErr result (λ fault. fault ≡ Memory) }
    {
        let bytes = self.bytes.clone().map_err(|_| ModelFault::Memory)?;
        Ok(Key { bytes })
    }

    /// The bytes of the key.
    pub fn bytes(&self) -> &[u8]
        ensures bytes { result.now ≡ self.now }
        ensures within { IsKeyLength (length self.now) }
    {
        &self.bytes
    }
}

// Keys are compared by their bytes.
impl PartialEq for Key {
    ghost eq = { pointwise nat_eq };

    ghost laws = { partial_equiv_from_equiv nat_list_eq_equiv };

    fn eq(&self, other: &Key) -> bool {
        self.bytes() == other.bytes()
    }
}

impl Eq for Key {
    ghost laws = { nat_list_eq_equiv };
}

impl PartialOrd for Key {
    ghost partial_cmp = { λ one other. Some (slice_cmp nat_cmp one other) };

    ghost laws = { texts_po };

    fn partial_cmp(&self, other: &Key) -> Option<Ordering> {
        Some(self.cmp(other))
    }
}

impl Ord for Key {
    ghost cmp = { slice_cmp nat_cmp };

    ghost total = { nat_list_cmp_total };

    ghost matches_partial_cmp = { Prim.search rules };

    ghost matches_eq = { texts_ties };

    fn cmp(&self, other: &Key) -> Ordering {
        self.bytes().cmp(other.bytes())
    }
}

/// A value: 0 to 65,536 bytes of any kind.
#[derive(Debug, Drop)]
pub struct Value {
    bytes: Vec<u8>,
}

impl Model for Value {
    ghost use Rattle.std.specs.Prelude.{List, ℕ, length};
    ghost use Rattle.cache_model.specs.Limits.{IsValueLength};

    ghost Value = { List ℕ };

    ghost view = { λ value. value.bytes.items };

    ghost invariant = { λ value. IsValueLength (length value.bytes.items) };
}

impl Value {
    /// A value of these bytes. `ValueLength` carries their number.
    pub fn of(alloc: Global, bytes: &[u8]) -> Result<Value, ModelFault>
        // Above its limit a length is refused as such, and within it only for want of memory.
        ensures { MatchResult result
            (λ value. IsValueLength (length bytes.now) × (value ≡ bytes.now))
            (λ fault. (IsValueLength (length bytes.now) × (fault ≡ Memory))
            ⊎ (¬ IsValueLength (length bytes.now) × (fault ≡ ValueLength (length bytes.now)))) }
    {
        if bytes.len() > VALUE_LIMIT {
            return Err(ModelFault::ValueLength(bytes.len()));
        }
        let bytes = Vec::from_slice(alloc, bytes).map_err(|_| ModelFault::Memory)?;
        Ok(Value { bytes })
    }

    /// Another value of the same bytes.
    pub fn copy(&self) -> Result<Value, ModelFault>
        ensures equal { IfOk result (λ value. value ≡ self.now) }
        ensures memory { IfErr result (λ fault. fault ≡ Memory) }
    {
        let bytes = self.bytes.clone().map_err(|_| ModelFault::Memory)?;
        Ok(Value { bytes })
    }

    /// The bytes of the value.
    pub fn bytes(&self) -> &[u8]
        ensures bytes { result.now ≡ self.now }
        ensures within { IsValueLength (length self.now) }
    {
        &self.bytes
    }
}

/// What the admitted keys begin with: 0 to 1,024 bytes.
#[derive(Debug, Drop)]
pub struct Prefix {
    bytes: Vec<u8>,
}

impl Model for Prefix {
    ghost use Rattle.std.specs.Prelude.{List, ℕ, length, ◌≤◌};

    ghost Value = { List ℕ };

    ghost view = { λ prefix. prefix.bytes.items };

    ghost invariant = { λ prefix. length prefix.bytes.items ≤ 1024 };
}

impl Prefix {
    ghost use Rattle.std.specs.Prelude.{◌≤◌};

    /// A prefix of these bytes.
    pub fn of(alloc: Global, bytes: &[u8]) -> Result<Prefix, ModelFault>
        requires { length bytes.now ≤ 1024 }
        ensures equal { IfOk result (λ prefix. prefix ≡ bytes.now) }
        ensures memory { IfErr result (λ fault. fault ≡ Memory) }
    {
        let bytes = Vec::from_slice(alloc, bytes).map_err(|_| ModelFault::Memory)?;
        Ok(Prefix { bytes })
    }

    /// The bytes of the prefix.
    pub fn bytes(&self) -> &[u8]
        ensures bytes { result.now ≡ self.now }
        ensures within { length self.now ≤ 1024 }
    {
        &self.bytes
    }
}
