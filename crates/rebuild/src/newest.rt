// Taking one record into the index.
ghost use Rattle.std.specs.Prelude.{◌≡◌, ◌^◌, ◌≤◌, All, Some, IsTrue, IfOk, OnOk, IfErr, IsErrOf};
ghost use Rattle.cache_model.specs.declared.faults.StoreFault.TheVariants as fault;
ghost use Rattle.cache_model.specs.declared.faults.Spent.{Spent};
ghost use Rattle.cache_model.specs.declared.faults.Damage.{Damage};
ghost use Rattle.cache_model.specs.Items.{Item};
ghost use Rattle.cache_model.specs.Hash.{hash};
ghost use Rattle.cache_disk.specs.State.{Stands};
ghost use Rattle.cache_disk.specs.Calls.{HasStoreCause};
ghost use Rattle.record_format.specs.Meaning.{own_item};
ghost use Rattle.tree_index.specs.Index.{AreOrdered, Sets};
ghost use Rattle.rebuild.specs.Listing.{IsNumber};
ghost use Rattle.rebuild.specs.Rebuilt.{AreNumbered, IsInOrder};
ghost use Rattle.rebuild.specs.Rows.{numbers_of};
ghost use Rattle.rebuild.specs.Reading.{AreRecords, Begins, IsAmongThese, IsEntry, IsHeldAmong, IsHeldOf, Keeps, Raises, Replaces, StandsAt, Takes, one_more, place_by, raised, sequence_for, value_by};

use crate::data_files::log_name;
use crate::rows::Rows;
use cache_disk::Host;
use cache_model::{IndexKey, IndexValue, Key, Place, StoreFault, hash};
use data_file::read_record;
use record_format::OwnItem;
use std::alloc::Global;
use tree_index::Tree;

/// A record of a data file, without its value.
#[derive(Drop)]
pub(crate) struct Record {
    pub(crate) key: Key,
    pub(crate) seq: u64,
    pub(crate) place: Place,
    /// Whether it removes its key.
    pub(crate) gone: bool,
}

/// An entry that an index holds of a key, and the sequence number of the record that it stands for.
#[derive(Clone, Copy)]
struct Held {
    place: IndexKey,
    value: IndexValue,
    seq: u64,
}

impl Record {
    // Where it has its entry, by the hash of its key.
    fn index_key(&self, hash: u32) -> IndexKey
        ensures { result ≡ place_by hash self.now }
    {
        IndexKey {
            hash,
            file: self.place.file,
            at: self.place.at,
        }
    }

    // Its entry, where so many records of its key count.
    fn index_value(&self, count: u64) -> IndexValue
        ensures { result ≡ value_by self.now count }
    {
        IndexValue {
            length: self.place.length,
            count,
            gone: self.gone,
        }
    }
}

// A count and one more. It stands still at its end.
fn one_more(count: u64) -> u64
    ensures { result ≡ one_more count }
{
    count.saturating_add(1)
}

// The same entry, where one record more counts.
fn raised(value: IndexValue) -> IndexValue
    ensures { result ≡ raised value }
{
    IndexValue {
        count: one_more(value.count),
        ..value
    }
}

// The sequence number of an item, where it is a record of this key.
fn sequence_for(item: &OwnItem, key: &Key) -> Option<u64>
    ensures { result ≡ sequence_for key.now (own_item item.now) }
{
    let (seq, other) = match item {
        OwnItem::Put { seq, key, .. } | OwnItem::Removal { seq, key } => (*seq, key),
        OwnItem::End { .. } => return None,
    };
    if *other == *key { Some(seq) } else { None }
}

// The sequence number of the record that an entry stands for, where it is of this key.
fn sequence_at<H: Host>(
    alloc: Global,
    host: &mut H,
    place: IndexKey,
    length: u32,
    key: &Key,
) -> Result<Option<u64>, StoreFault>
    requires { IsNumber place.file }
    ensures stands { IsTrue H.tells → Stands (H.state host.old) (H.state host.new) }
    ensures read { IsTrue H.tells → (item : Item) → StandsAt (H.state host.old).files place length item → IfOk result (λ seq. seq ≡ sequence_for key.now item) }
    ensures undamaged { IsTrue H.tells → (item : Item) → StandsAt (H.state host.old).files place length item → (d : Damage) → IsErrOf result (fault.Damaged d) → ⊥ }
    ensures unspent { (s : Spent) → IsErrOf result (fault.Spent s) → ⊥ }
    ensures cause { HasStoreCause (H.state host.old) (H.state host.new) result }
{
    let at = Place {
        file: place.file,
        at: place.at,
        length,
    };
    let item = read_record(alloc, host, log_name(place.file), at)?;
    Ok(sequence_for(&item, key))
}

// What these entries hold of a key: the first one that stands for a record of it.
fn held_among<H: Host>(
    alloc: Global,
    host: &mut H,
    found: &[(IndexKey, IndexValue)],
    key: &Key,
) -> Result<Option<Held>, StoreFault>
    requires numbers { All (λ row. IsNumber row.0.file) found.now }
    requires records { IsTrue H.tells → All (λ row. (item : Item) × StandsAt (H.state host.old).files row.0 row.1.length item) found.now }
    ensures stands { IsTrue H.tells → Stands (H.state host.old) (H.state host.new) }
    ensures among { IfOk result (IsAmongThese found.now) }
    ensures held { IsTrue H.tells → IfOk result (IsHeldAmong (H.state host.old).files found.now key.now) }
    ensures undamaged { IsTrue H.tells → (d : Damage) → IsErrOf result (fault.Damaged d) → ⊥ }
    ensures unspent { (s : Spent) → IsErrOf result (fault.Spent s) → ⊥ }
    ensures cause { HasStoreCause (H.state host.old) (H.state host.new) result }
{
    for (place, value) in found {
        match sequence_at(alloc, host, *place, value.length, key) {
            Ok(Some(seq)) => {
                return Ok(Some(Held {
                    place: *place,
                    value: *value,
                    seq,
                }));
            }
            Ok(None) => {}
            Err(fault) => return Err(fault),
        }
    }
    Ok(None)
}

// What the index holds of a key with this hash.
fn held_of<H: Host>(
    alloc: Global,
    host: &mut H,
    tree: &mut Tree,
    hash: u32,
    key: &Key,
) -> Result<Option<Held>, StoreFault>
    requires numbered { AreNumbered tree.old.entries }
    requires records { IsTrue H.tells → AreRecords (H.state host.old).files tree.old.entries }
    ensures same { tree.new ≡ tree.old }
    ensures ordered { AreOrdered tree.old.entries }
    ensures stands { IsTrue H.tells → Stands (H.state host.old) (H.state host.new) }
    ensures entry { IfOk result (IsEntry tree.old.entries) }
    ensures held { IsTrue H.tells → IfOk result (IsHeldOf (H.state host.old).files tree.old.entries hash key.now) }
    ensures undamaged { IsTrue H.tells → (d : Damage) → IsErrOf result (fault.Damaged d) → ⊥ }
    ensures unspent { (s : Spent) → IsErrOf result (fault.Spent s) → ⊥ }
    ensures cause { HasStoreCause (H.state host.old) (H.state host.new) result }
{
    let found = tree.find(host, hash)?;
    held_among(alloc, host, &found, key)
}

// Takes the first record of its key.
fn begin<H: Host>(
    host: &mut H,
    tree: &mut Tree,
    rows: &mut Rows,
    hash: u32,
    one: &Record,
) -> Result<(), StoreFault>
    ensures begins { OnOk result (Begins hash one.now tree.old tree.new rows.old rows.new) }
    ensures memory { IfErr result (λ given. given ≡ fault.Memory) }
    ensures untouched { host.new ≡ host.old }
{
    if let Err(fault) = tree.insert(host, one.index_key(hash), one.index_value(1)) {
        return Err(fault);
    }
    rows.grow(one.place.file, one.place.length);
    Ok(())
}

// Takes a record that isn't older than the one of its key that is held. Its entry is there before the older one goes, so
// that the key has one at any moment.
fn replace<H: Host>(
    host: &mut H,
    tree: &mut Tree,
    rows: &mut Rows,
    hash: u32,
    held: &Held,
    one: &Record,
) -> Result<(), StoreFault>
    ensures replaces { OnOk result (Replaces held.now hash one.now tree.old tree.new rows.old rows.new) }
    ensures memory { IfErr result (λ given. given ≡ fault.Memory) }
    ensures untouched { host.new ≡ host.old }
{
    let value = one.index_value(one_more(held.value.count));
    if let Err(fault) = tree.insert(host, one.index_key(hash), value) {
        return Err(fault);
    }
    if let Err(fault) = tree.remove(host, held.place) {
        return Err(fault);
    }
    rows.grow(one.place.file, one.place.length);
    rows.shrink(held.place.file, held.value.length);
    Ok(())
}

// Counts a record that is older than the one of its key that is held.
fn raise<H: Host>(host: &mut H, tree: &mut Tree, held: &Held) -> Result<(), StoreFault>
    ensures raises { OnOk result (Sets held.now.place (Some (raised held.now.value)) tree.old tree.new) }
    ensures memory { IfErr result (λ given. given ≡ fault.Memory) }
    ensures untouched { host.new ≡ host.old }
{
    match tree.insert(host, held.place, raised(held.value)) {
        Ok(_) => Ok(()),
        Err(fault) => Err(fault),
    }
}

// Takes a record by what is held of its key. Of two records with one sequence number the one that is taken later is the
// newer: files are read by ascending numbers, and each from its front on.
fn keep<H: Host>(
    host: &mut H,
    tree: &mut Tree,
    rows: &mut Rows,
    hash: u32,
    held: Option<Held>,
    one: &Record,
) -> Result<(), StoreFault>
    ensures keeps { OnOk result (Keeps held hash one.now tree.old tree.new rows.old rows.new) }
    ensures memory { IfErr result (λ given. given ≡ fault.Memory) }
    ensures untouched { host.new ≡ host.old }
{
    match held {
        None => begin(host, tree, rows, hash, one),
        Some(held) => {
            if held.seq <= one.seq {
                replace(host, tree, rows, hash, &held, one)
            } else {
                raise(host, tree, &held)
            }
        }
    }
}

/// Takes a record into the index, which has one entry for each key, that of its newest record. The records of the
/// entries of its hash are read to compare their keys.
pub(crate) fn take_record<H: Host>(
    alloc: Global,
    host: &mut H,
    bits: u32,
    tree: &mut Tree,
    rows: &mut Rows,
    one: &Record,
) -> Result<(), StoreFault>
    requires bits { bits ≤ 32 }
    requires number { IsNumber one.now.place.file }
    requires in_order { IsInOrder bits tree.old }
    requires records { IsTrue H.tells → AreRecords (H.state host.old).files tree.old.entries }
    ensures in_order { OnOk result (IsInOrder bits tree.new) }
    ensures numbers { OnOk result (numbers_of rows.new ≡ numbers_of rows.old) }
    ensures stands { IsTrue H.tells → Stands (H.state host.old) (H.state host.new) }
    ensures takes { IsTrue H.tells → OnOk result (Takes (H.state host.old).files bits one.now tree.old tree.new rows.old rows.new) }
    ensures undamaged { IsTrue H.tells → (d : Damage) → IsErrOf result (fault.Damaged d) → ⊥ }
    ensures unspent { (s : Spent) → IsErrOf result (fault.Spent s) → ⊥ }
    ensures cause { HasStoreCause (H.state host.old) (H.state host.new) result }
{
    let hash = hash(&one.key, bits);
    let held = held_of(alloc, host, tree, hash, &one.key)?;
    keep(host, tree, rows, hash, held, one)
}
