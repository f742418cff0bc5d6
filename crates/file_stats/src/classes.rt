// The classes of files by how much of them is live, with a tree above them that leads to the first class below a limit.
ghost use Rattle.std.specs.Prelude.{◌≡◌, ℕ, ◌+◌, ◌*◌, ◌/◌, ◌%◌, ◌^◌, ◌<◌, ◌≤◌, ◌↔◌, All, IfOk, IsTrue, length, slice_index, slice_set};
ghost use Rattle.file_stats.specs.Classes.{AreClassesOf, IsFirst, IsFirstBelow, IsSettledFrom, SameLeaves, class_at, class_of};

use cache_model::FileCount;
use std::alloc::{AllocError, Global};
use std::marker::Model;

/// The class of a file without a byte, and of a place without a row. It is above all others.
pub(crate) const FREE: u8 = 101;

// No tree is as high as this: so many leaves fit into no memory.
const TOO_HIGH: u32 = 60;

/// The classes at so many places.
#[derive(Debug, Drop)]
pub(crate) struct Classes {
    // Node 1 is the root, and the children of node i are 2i and 2i + 1: a node is the lesser of its two. The upper half
    // are the leaves, in order. Node 0 isn't used.
    nodes: Vec<u8>,
    // How many levels there are below the root.
    height: u32,
}

impl Model for Classes {
    ghost use Rattle.std.specs.Prelude.{List, ℕ};
    ghost use Rattle.file_stats.specs.Classes.{IsTree, leaves_of};

    ghost Value = { List ℕ };

    ghost view = { λ classes. leaves_of classes.height classes.nodes.items };

    ghost invariant = { λ classes. IsTree classes.height classes.nodes.items };
}

/// How many percent of a file's bytes are live, rounded down.
pub(crate) fn class_of(row: FileCount) -> u8
    requires { row.live ≤ row.size }
    ensures { result ≡ class_of row }
{
    if row.size == 0 {
        return FREE;
    }
    (u128::from(row.live) * 100 / u128::from(row.size)) as u8
}

// The class at a place.
fn class_at(rows: &[FileCount], place: usize) -> u8
    requires { All (λ row. row.live ≤ row.size) rows.now }
    ensures { result ≡ class_at rows.now place }
{
    match rows.get(place) {
        Some(row) => class_of(*row),
        None => FREE,
    }
}

// Writes the classes of rows into the leaves.
fn write_leaves(nodes: &mut [u8], rows: &[FileCount])
    requires { All (λ row. row.live ≤ row.size) rows.now }
    ensures { (place : ℕ) → place < length nodes.old / 2 → slice_index nodes.new (length nodes.old / 2 + place) ≡ class_at rows.now place }
{
    let half = nodes.len() / 2;
    for place in 0..half {
        nodes[half + place] = class_at(rows, place);
    }
}

// Makes each node that has children the lesser of them.
fn settle(nodes: &mut [u8])
    ensures settled { IsSettledFrom 1 nodes.new }
    ensures leaves { SameLeaves nodes.old nodes.new }
{
    let mut at = nodes.len() / 2;
    while at > 1 {
        at -= 1;
        nodes[at] = nodes[2 * at].min(nodes[2 * at + 1]);
    }
}

// Writes a leaf, and settles the nodes above it.
fn put(nodes: &mut [u8], leaf: usize, class: u8)
    requires even { length nodes.old % 2 ≡ 0 }
    requires leaf { (leaf < length nodes.old) × (length nodes.old ≤ 2 * leaf) }
    requires settled { IsSettledFrom 1 nodes.old }
    ensures settled { IsSettledFrom 1 nodes.new }
    ensures leaves { SameLeaves (slice_set nodes.old leaf class) nodes.new }
{
    nodes[leaf] = class;
    let mut at = leaf;
    while at > 1 {
        at /= 2;
        nodes[at] = nodes[2 * at].min(nodes[2 * at + 1]);
    }
}

// The first leaf below a node whose class is below the limit, as that of the node is. It is so many levels lower.
fn first_under(nodes: &[u8], node: usize, levels: u32, limit: u8) -> usize
    requires settled { IsSettledFrom 1 nodes.now }
    requires within { (1 ≤ node) × ((node + 1) * 2 ^ levels ≤ length nodes.now) }
    requires below { slice_index nodes.now node < limit }
    ensures { IsFirst limit (node * 2 ^ levels) ((node + 1) * 2 ^ levels) nodes.now result }
{
    let mut at = node;
    for _level in 0..levels {
        at *= 2;
        if nodes[at] >= limit {
            at += 1;
        }
    }
    at
}

// Whether a node is a left child and its neighbour on the right is below the limit.
fn right_is_below(nodes: &[u8], at: usize, limit: u8) -> bool
    requires even { length nodes.now % 2 ≡ 0 }
    requires within { at < length nodes.now }
    ensures { IsTrue result ↔ ((at % 2 ≡ 0) × (slice_index nodes.now (at + 1) < limit)) }
{
    at % 2 == 0 && nodes[at + 1] < limit
}

// The first leaf behind one whose class is below the limit.
fn next_behind(nodes: &[u8], leaf: usize, height: u32, limit: u8) -> Option<usize>
    requires count { length nodes.now ≡ 2 ^ (height + 1) }
    requires settled { IsSettledFrom 1 nodes.now }
    requires leaf { (2 ^ height ≤ leaf) × (leaf < length nodes.now) }
    ensures { IsFirstBelow limit (leaf + 1) (length nodes.now) nodes.now result }
{
    let mut at = leaf;
    for level in 0..height {
        if right_is_below(nodes, at, limit) {
            return Some(first_under(nodes, at + 1, level, limit));
        }
        at /= 2;
    }
    None
}

impl Classes {
    // Free places, two to the height of them.
    fn of_height(alloc: Global, height: u32) -> Result<Classes, AllocError>
        requires { height < 60 }
        ensures { IfOk result (λ classes. length classes ≡ 2 ^ height) }
    {
        let nodes = vec![in alloc; FREE; 2 << height]?;
        Ok(Classes { nodes, height })
    }

    /// Free places, as many as asked for or more.
    pub(crate) fn new(alloc: Global, wanted: usize) -> Result<Classes, AllocError>
        ensures { IfOk result (λ classes. wanted ≤ length classes) }
    {
        for height in 0..TOO_HIGH {
            if wanted <= 1 << height {
                return Classes::of_height(alloc, height);
            }
        }
        Err(AllocError)
    }

    /// How many places there are.
    pub(crate) fn len(&self) -> usize
        ensures { result ≡ length self.now }
    {
        self.nodes.len() / 2
    }

    /// Makes the classes those of these rows. The places behind them get free.
    pub(crate) fn fill(&mut self, rows: &[FileCount])
        requires { All (λ row. row.live ≤ row.size) rows.now }
        ensures places { length self.new ≡ length self.old }
        ensures classes { AreClassesOf rows.now self.new }
    {
        write_leaves(&mut self.nodes, rows);
        settle(&mut self.nodes);
    }

    /// Changes one class.
    pub(crate) fn set(&mut self, place: usize, class: u8)
        requires { place < length self.old }
        ensures { self.new ≡ slice_set self.old place class }
    {
        let leaf = self.nodes.len() / 2 + place;
        put(&mut self.nodes, leaf, class);
    }

    /// The first place whose class is below the limit.
    pub(crate) fn first_below(&self, limit: u8) -> Option<usize>
        ensures { IsFirstBelow limit 0 (length self.now) self.now result }
    {
        if self.nodes[1] >= limit {
            return None;
        }
        Some(first_under(&self.nodes, 1, self.height, limit) - self.nodes.len() / 2)
    }

    /// The first such place behind this one.
    pub(crate) fn next_below(&self, place: usize, limit: u8) -> Option<usize>
        requires { place < length self.now }
        ensures { IsFirstBelow limit (place + 1) (length self.now) self.now result }
    {
        let half = self.nodes.len() / 2;
        let leaf = next_behind(&self.nodes, half + place, self.height, limit)?;
        Some(leaf - half)
    }
}
