// Calls of the index as an ordered map.
ghost use Rattle.std.specs.Prelude.{◌<◌};

use crate::numbers::{drawn, scattered};
use crate::part::Part;
use cache_model::{IndexKey, IndexValue, StoreFault};
use host_memory::MemoryHost;
use std::alloc::{AllocError, Global};
use tree_index::Tree;

/// A call of a tree.
#[derive(Clone, Copy)]
pub enum TreeCall {
    /// Looks for the entries of a hash that has one.
    Find,
    /// Puts a new entry.
    Insert,
    /// Takes an entry away, another one each time.
    Remove,
    /// Looks for the entry above one that is there.
    Next,
}

/// A tree with entries of so many hashes, one each.
#[derive(Drop)]
pub struct TreePart {
    host: MemoryHost,
    tree: Tree,
    call: TreeCall,
    keys: u32,
    ghost some: { 0 < keys },
}

// The entry that a key with a number has.
fn entry_of(number: u32) -> (IndexKey, IndexValue) {
    let key = IndexKey {
        hash: scattered(number),
        file: 1,
        at: number,
    };
    let value = IndexValue {
        length: 30,
        count: 1,
        gone: false,
    };
    (key, value)
}

// What a call of a tree lacks where it fails.
fn lacking(_fault: StoreFault) -> AllocError {
    AllocError
}

// Puts the entry of a key with a number. Whether it is new.
fn put(tree: &mut Tree, host: &mut MemoryHost, number: u32) -> Result<bool, AllocError> {
    let (key, value) = entry_of(number);
    let before = tree.insert(host, key, value).map_err(lacking)?;
    Ok(before.is_none())
}

impl TreePart {
    /// A tree of so many entries.
    pub fn new(alloc: Global, call: TreeCall, keys: u32) -> Result<TreePart, AllocError>
        requires { 0 < keys }
    {
        let made = MemoryHost::new(alloc, Vec::new(alloc), Vec::new(alloc), Vec::new(alloc), 0);
        let mut host = made.map_err(|_| AllocError)?;
        let mut tree = Tree::make(alloc, &mut host, 0, 32, 1).map_err(lacking)?;
        for number in 0..keys {
            put(&mut tree, &mut host, number)?;
        }
        Ok(TreePart {
            host,
            tree,
            call,
            keys,
        })
    }
}

impl Part for TreePart {
    fn is_answered(&mut self, call: u32) -> Result<bool, AllocError> {
        let TreePart {
            host,
            tree,
            call: kind,
            keys,
        } = self;
        let (asked, _) = entry_of(drawn(call, *keys));
        Ok(match kind {
            TreeCall::Find => !tree.find(host, asked.hash).map_err(lacking)?.is_empty(),
            TreeCall::Insert => put(tree, host, keys.wrapping_add(call))?,
            TreeCall::Remove => {
                let (key, _) = entry_of(call);
                tree.remove(host, key).map_err(lacking)?.is_some()
            }
            TreeCall::Next => tree.next(host, Some(asked)).map_err(lacking)?.is_some(),
        })
    }
}
