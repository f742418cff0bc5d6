// Seats under the hashes of their keys, so that they stand in walk order: by the hash, and then by the key's bytes.
ghost use Rattle.std.specs.Prelude.{◌≡◌, ℕ, List, Bool, None, Some, IsSome, IfOk, IfErr, OnOk, OnErr, option_map, true, false, IsTrue, ◌↔◌};
ghost use Rattle.std.specs.BTreeMap.{get, Updates, IsOrdered};
ghost use Rattle.std.specs.declared.ops.Bound.TheVariants.{Unbounded, Excluded};
ghost use Rattle.std.specs.Ordering.{nat_cmp};
ghost use Rattle.cache_model.specs.declared.faults.ModelFault.TheVariants.{Memory};
ghost use Rattle.temporary_table.specs.Places.{placed, seated};
ghost use Rattle.std.specs.Range.Bound.{bound_map};
ghost use Rattle.temporary_table.specs.Walking.{earlier};
ghost use Rattle.temporary_table.specs.Searching.{start_after, first_in, first_beside, first_from};
ghost use Rattle.temporary_table.specs.Buckets.{key_cmp, seat_in, seat_at, AreOrdered, Refills, Fills, Moves};

use cache_model::{Key, ModelFault, Place};
use std::alloc::Global;
use std::collections::BTreeMap;
use std::ops::Bound;

/// What a seat has: a place and whether the key is gone there, or nothing yet.
pub(crate) type Seat = Option<(Place, bool)>;

/// The seats of the keys of one hash.
pub(crate) type Bucket = BTreeMap<Key, Seat>;

/// The buckets under their hashes.
pub(crate) type Buckets = BTreeMap<u32, Bucket>;

/// The seat of a key under a hash.
pub(crate) fn find<'a>(buckets: &'a Buckets, hash: u32, key: &Key) -> Option<&'a Seat>
    ensures { option_map (λ seat. seat.now) result ≡ seat_at buckets.now hash key.now }
{
    match buckets.get(&hash) {
        Some(bucket) => bucket.get(key),
        None => None,
    }
}

/// Whether a seat has this place.
pub(crate) fn is_placed_at(seat: Option<&Seat>, to: Place) -> bool
    ensures { IsTrue result ↔ ((gone : Bool) × (placed (option_map (λ seat. seat.now) seat.entry) ≡ Some (to, gone))) }
{
    match seat {
        Some(Some((place, _))) => *place == to,
        Some(None) | None => false,
    }
}

/// Whether there is a seat, and it has no place.
pub(crate) fn is_unplaced(seat: Option<&Seat>) -> bool
    ensures { IsTrue result ↔ (option_map (λ seat. seat.now) seat.entry ≡ Some None) }
{
    match seat {
        Some(None) => true,
        Some(Some(_)) | None => false,
    }
}

// A seat without a place in a bucket. Where one stands there already, it gives way.
fn put_seat(bucket: &mut Bucket, key: Key) -> Result<(), ModelFault>
    ensures put { OnOk result (Updates key_cmp bucket.old bucket.new key (Some None)) }
    ensures same { OnErr result ((bucket.new.entries ≡ bucket.old.entries) × (get key_cmp bucket.old key ≡ None)) }
    ensures ordered { IsOrdered key_cmp bucket.new }
    ensures memory { IfErr result (λ fault. fault ≡ Memory) }
{
    match bucket.insert(key, None) {
        Ok(_) => Ok(()),
        Err(_) => Err(ModelFault::Memory),
    }
}

// A seat for a key in a bucket, where it has none.
fn seat_beside(bucket: &mut Bucket, key: Key) -> Result<(), ModelFault>
    requires ordered { IsOrdered key_cmp bucket.old }
    ensures seated { OnOk result (Refills bucket.old key (seated (get key_cmp bucket.old key)) bucket.new) }
    ensures same { OnErr result (Refills bucket.old key (get key_cmp bucket.old key) bucket.new) }
    ensures memory { IfErr result (λ fault. fault ≡ Memory) }
{
    if bucket.contains_key(&key) {
        return Ok(());
    }
    put_seat(bucket, key)
}

// A bucket with one seat.
fn bucket_of(alloc: Global, key: Key) -> Result<Bucket, ModelFault>
    ensures one { IfOk result (λ bucket. Fills key (Some None) bucket) }
    ensures memory { IfErr result (λ fault. fault ≡ Memory) }
{
    let mut bucket = BTreeMap::new(alloc);
    match put_seat(&mut bucket, key) {
        Ok(()) => Ok(bucket),
        Err(fault) => Err(fault),
    }
}

// A seat for a key whose hash has a bucket.
fn seat_within(buckets: &mut Buckets, hash: u32, key: Key) -> Result<(), ModelFault>
    requires bucket { IsSome (get nat_cmp buckets.old hash) }
    requires ordered { AreOrdered buckets.old }
    ensures seated { OnOk result (Moves buckets.old hash key (seated (seat_at buckets.old hash key)) buckets.new) }
    ensures same { OnErr result (Moves buckets.old hash key (seat_at buckets.old hash key) buckets.new) }
    ensures memory { IfErr result (λ fault. fault ≡ Memory) }
{
    match buckets.get_mut(&hash) {
        Some(bucket) => seat_beside(bucket, key),
        None => Ok(()),
    }
}

// A seat for a key whose hash has no bucket.
fn seat_alone(alloc: Global, buckets: &mut Buckets, hash: u32, key: Key) -> Result<(), ModelFault>
    requires bucket { get nat_cmp buckets.old hash ≡ None }
    requires ordered { AreOrdered buckets.old }
    ensures seated { OnOk result (Moves buckets.old hash key (Some None) buckets.new) }
    ensures same { OnErr result (Moves buckets.old hash key None buckets.new) }
    ensures memory { IfErr result (λ fault. fault ≡ Memory) }
{
    let bucket = match bucket_of(alloc, key) {
        Ok(bucket) => bucket,
        Err(fault) => return Err(fault),
    };
    match buckets.insert(hash, bucket) {
        Ok(_) => Ok(()),
        Err(_) => Err(ModelFault::Memory),
    }
}

/// A seat for a key under its hash, where it has none.
pub(crate) fn seat_under(
    alloc: Global,
    buckets: &mut Buckets,
    hash: u32,
    key: Key,
) -> Result<(), ModelFault>
    requires ordered { AreOrdered buckets.old }
    ensures seated { OnOk result (Moves buckets.old hash key (seated (seat_at buckets.old hash key)) buckets.new) }
    ensures same { OnErr result (Moves buckets.old hash key (seat_at buckets.old hash key) buckets.new) }
    ensures memory { IfErr result (λ fault. fault ≡ Memory) }
{
    if buckets.contains_key(&hash) {
        return seat_within(buckets, hash, key);
    }
    seat_alone(alloc, buckets, hash, key)
}

// Sets the place of a key that has a seat in a bucket.
fn set_in(bucket: &mut Bucket, key: &Key, place: (Place, bool))
    requires seat { IsSome (get key_cmp bucket.old key.now) }
    ensures set { Refills bucket.old key.now (Some (Some place)) bucket.new }
{
    if let Some(seat) = bucket.get_mut(key) {
        *seat = Some(place);
    }
}

/// Sets the place of a key that has a seat under its hash.
pub(crate) fn set_under(buckets: &mut Buckets, hash: u32, key: &Key, place: (Place, bool))
    requires seat { IsSome (seat_at buckets.old hash key.now) }
    requires ordered { AreOrdered buckets.old }
    ensures set { Moves buckets.old hash key.now (Some (Some place)) buckets.new }
{
    if let Some(bucket) = buckets.get_mut(&hash) {
        set_in(bucket, key, place);
    }
}

// Takes the seat of a key out of a bucket.
fn take_from(bucket: &mut Bucket, key: &Key)
    ensures taken { Refills bucket.old key.now None bucket.new }
{
    let _ = bucket.remove(key);
}

// Takes the seat of a key away, and leaves its bucket.
fn take_within(buckets: &mut Buckets, hash: u32, key: &Key)
    requires ordered { AreOrdered buckets.old }
    ensures taken { Moves buckets.old hash key.now None buckets.new }
{
    if let Some(bucket) = buckets.get_mut(&hash) {
        take_from(bucket, key);
    }
}

// Whether the bucket under a hash has no seat.
fn is_bare(buckets: &Buckets, hash: u32) -> bool
    ensures { result ≡ true → (key : List ℕ) → seat_at buckets.now hash key ≡ None }
{
    match buckets.get(&hash) {
        Some(bucket) => bucket.is_empty(),
        None => false,
    }
}

// Takes the bucket under a hash away where it has no seat.
fn drop_bare(buckets: &mut Buckets, hash: u32)
    requires ordered { AreOrdered buckets.old }
    ensures seats { (other_hash : ℕ) (other : List ℕ) → seat_at buckets.new other_hash other ≡ seat_at buckets.old other_hash other }
    ensures ordered { AreOrdered buckets.new }
{
    if is_bare(buckets, hash) {
        let _ = buckets.remove(&hash);
    }
}

/// Takes the seat of a key away, and its bucket where it was the last there.
pub(crate) fn take_under(buckets: &mut Buckets, hash: u32, key: &Key)
    requires ordered { AreOrdered buckets.old }
    ensures taken { Moves buckets.old hash key.now None buckets.new }
{
    take_within(buckets, hash, key);
    drop_bare(buckets, hash);
}

// Where the keys behind one begin, or all.
fn start_after(after: Option<&Key>) -> Bound<&Key>
    ensures { bound_map (λ key. key.now) result ≡ start_after (option_map (λ key. key.now) after.entry) }
{
    match after {
        Some(after) => Bound::Excluded(after),
        None => Bound::Unbounded,
    }
}

// The first key of a bucket that has a place, behind one of them or of all.
fn first_in<'a>(bucket: &'a Bucket, after: Option<&Key>) -> Option<&'a Key>
    ensures { option_map (λ key. key.now) result ≡ first_in (option_map (λ key. key.now) after.entry) bucket.now }
{
    for (key, seat) in bucket.range((start_after(after), Bound::Unbounded)) {
        if seat.is_some() {
            return Some(key);
        }
    }
    None
}

// The first key that has a place in the bucket of another key's hash, behind that key.
fn first_beside<'a>(buckets: &'a Buckets, hash: u32, after: &Key) -> Option<&'a Key>
    ensures { option_map (λ key. key.now) result ≡ first_beside hash after.now buckets.now }
{
    match buckets.get(&hash) {
        Some(bucket) => first_in(bucket, Some(after)),
        None => None,
    }
}

// The first key that has a place in the buckets from one on.
fn first_from(buckets: &Buckets, start: Bound<u32>) -> Option<&Key>
    ensures { option_map (λ key. key.now) result ≡ first_from start buckets.now }
{
    for (_hash, bucket) in buckets.range((start, Bound::Unbounded)) {
        if let Some(key) = first_in(bucket, None) {
            return Some(key);
        }
    }
    None
}

/// The first key that has a place behind another key of this hash.
pub(crate) fn first_behind<'a>(buckets: &'a Buckets, hash: u32, after: &Key) -> Option<&'a Key>
    ensures { option_map (λ key. key.now) result ≡ earlier (first_beside hash after.now buckets.now) (first_from (Excluded hash) buckets.now) }
{
    match first_beside(buckets, hash, after) {
        Some(key) => Some(key),
        None => first_from(buckets, Bound::Excluded(hash)),
    }
}

/// The first key that has a place.
pub(crate) fn first(buckets: &Buckets) -> Option<&Key>
    ensures { option_map (λ key. key.now) result ≡ first_from Unbounded buckets.now }
{
    first_from(buckets, Bound::Unbounded)
}
