// The index: rows under the hashes of keys, in memory.
ghost use Rattle.std.specs.Prelude.{◌≡◌, ◌≤◌, [], IfOk, IfErr, OnOk, OnErr, Some, None, false};
ghost use Rattle.cache_model.specs.declared.faults.StoreFault.TheVariants.{Memory};
ghost use Rattle.tree_index.specs.Index.{entries_of, value_at, AreOrdered, IsNext, Sets};

use crate::rows::{Rows, entries_of, next, put, take};
use cache_disk::Host;
use cache_model::{IndexKey, IndexValue, StoreFault};
use std::alloc::Global;
use std::collections::BTreeMap;
use std::marker::Model;

/// An index: an ordered map from `IndexKey` to `IndexValue`, with a row for each hash. It is held in memory for now, so
/// that it makes no file and calls no host; a call that wants memory and gets none leaves it as it was.
#[derive(Drop)]
pub struct Tree {
    alloc: Global,
    bits: u32,
    rows: Rows,
}

impl Model for Tree {
    ghost use Rattle.tree_index.specs.Index.{Index};

    ghost Value = { Index };

    ghost use Rattle.tree_index.specs.Kept.{index_of, IsKeptWell};

    ghost view = { index_of };

    ghost invariant = { IsKeptWell };
}

impl Tree {
    /// An empty index of the store, which goes by `bits` bits of the keys' hash.
    pub fn make<H: Host>(
        alloc: Global,
        _host: &mut H,
        _store: u8,
        bits: u32,
        _nodes: usize,
    ) -> Result<Tree, StoreFault>
        requires { bits ≤ 32 }
        ensures bits { IfOk result (λ tree. tree.bits ≡ bits) }
        ensures empty { IfOk result (λ tree. tree.entries ≡ []) }
        ensures memory { IfErr result (λ fault. fault ≡ Memory) }
        ensures untouched { _host.new ≡ _host.old }
    {
        Ok(Tree {
            alloc,
            bits,
            rows: BTreeMap::new(alloc),
        })
    }

    /// How many bits of the keys' hash it goes by.
    pub fn hash_bits(&self) -> u32
        ensures { result ≡ self.now.bits }
    {
        self.bits
    }

    /// How many levels it has.
    pub fn levels(&self) -> u32
        ensures { result ≡ 1 }
    {
        1
    }

    /// Whether it may be used no more.
    pub fn is_spoilt(&self) -> bool
        ensures { result ≡ false }
    {
        false
    }

    /// All entries of one hash, in their order.
    pub fn find<H: Host>(
        &mut self,
        _host: &mut H,
        hash: u32,
    ) -> Result<Vec<(IndexKey, IndexValue)>, StoreFault>
        ensures found { IfOk result (λ found. found.items ≡ entries_of hash self.old.entries) }
        ensures ordered { AreOrdered self.old.entries }
        ensures same { self.new ≡ self.old }
        ensures memory { IfErr result (λ fault. fault ≡ Memory) }
        ensures untouched { _host.new ≡ _host.old }
    {
        entries_of(self.alloc, &self.rows, hash)
    }

    /// Puts a value under a key, and gives the one that it takes the place of.
    pub fn insert<H: Host>(
        &mut self,
        _host: &mut H,
        key: IndexKey,
        value: IndexValue,
    ) -> Result<Option<IndexValue>, StoreFault>
        ensures before { IfOk result (λ before. before ≡ value_at self.old.entries key) }
        ensures sets { OnOk result (Sets key (Some value) self.old self.new) }
        ensures same { OnErr result (self.new ≡ self.old) }
        ensures memory { IfErr result (λ fault. fault ≡ Memory) }
        ensures untouched { _host.new ≡ _host.old }
    {
        put(self.alloc, &mut self.rows, key, value)
    }

    /// Takes the entry of a key away, where there is one, and gives its value.
    pub fn remove<H: Host>(
        &mut self,
        _host: &mut H,
        key: IndexKey,
    ) -> Result<Option<IndexValue>, StoreFault>
        ensures before { IfOk result (λ before. before ≡ value_at self.old.entries key) }
        ensures sets { OnOk result (Sets key None self.old self.new) }
        ensures same { OnErr result (self.new ≡ self.old) }
        ensures memory { IfErr result (λ fault. fault ≡ Memory) }
        ensures untouched { _host.new ≡ _host.old }
    {
        Ok(take(&mut self.rows, key))
    }

    /// The least entry above a key, or of all.
    pub fn next<H: Host>(
        &mut self,
        _host: &mut H,
        after: Option<IndexKey>,
    ) -> Result<Option<(IndexKey, IndexValue)>, StoreFault>
        ensures next { IfOk result (λ next. IsNext self.old.entries after next) }
        ensures same { self.new ≡ self.old }
        ensures memory { IfErr result (λ fault. fault ≡ Memory) }
        ensures untouched { _host.new ≡ _host.old }
    {
        Ok(next(&self.rows, after))
    }
}
