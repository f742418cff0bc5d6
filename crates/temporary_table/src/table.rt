// The table of newest places.
ghost use Rattle.std.specs.Prelude.{◌≡◌, ◌≤◌, Bool, [], None, Some, IsSome, OnOk, OnErr, IfErr, option_map};
ghost use Rattle.cache_model.specs.declared.faults.ModelFault.TheVariants.{Memory};
ghost use Rattle.temporary_table.specs.Places.{seat_of, place_of, Reseats, Stays, seated, unseated};
ghost use Rattle.temporary_table.specs.Searching.{next_in};
ghost use Rattle.temporary_table.specs.Walking.{IsNextPlaced};

use crate::buckets::{
    Buckets, find, first, first_behind, is_placed_at, is_unplaced, seat_under, set_under,
    take_under,
};
use crate::scanning::nearest;
use cache_model::{Key, ModelFault, Place, hash};
use std::alloc::Global;
use std::collections::BTreeMap;
use std::marker::Model;

/// The newest places of the keys that the index doesn't have yet. A key is seated first, which may want memory; its place
/// is then set, and set anew, without taking any.
#[derive(Drop)]
pub struct Table {
    alloc: Global,
    bits: u32,
    buckets: Buckets,
}

impl Model for Table {
    ghost use Rattle.temporary_table.specs.Places.{Places};

    ghost Value = { Places };

    ghost use Rattle.temporary_table.specs.Buckets.{places_of, IsKeptWell};

    ghost view = { places_of };

    ghost invariant = { IsKeptWell };
}

impl Table {
    /// No key seated, walked by all 32 bits of the keys' hash. It takes no memory.
    pub fn new(alloc: Global) -> Table
        ensures bits { result.bits ≡ 32 }
        ensures empty { result.seats ≡ [] }
    {
        Table::ordered_by(alloc, 32)
    }

    /// No key seated, walked by `bits` bits of the keys' hash. It takes no memory.
    pub fn ordered_by(alloc: Global, bits: u32) -> Table
        requires { bits ≤ 32 }
        ensures bits { result.bits ≡ bits }
        ensures empty { result.seats ≡ [] }
    {
        Table {
            alloc,
            bits,
            buckets: BTreeMap::new(alloc),
        }
    }

    /// Gives a key a seat without a place, where it has no seat.
    pub fn seat(&mut self, key: Key) -> Result<(), ModelFault>
        ensures seated { OnOk result (Reseats self.old key (seated (seat_of self.old key)) self.new) }
        ensures same { OnErr result (Stays self.old self.new) }
        ensures memory { IfErr result (λ fault. fault ≡ Memory) }
    {
        let hash = hash(&key, self.bits);
        seat_under(self.alloc, &mut self.buckets, hash, key)
    }

    /// Takes the seat of a key away where it has no place.
    pub fn unseat(&mut self, key: &Key)
        ensures unseated { Reseats self.old key.now (unseated (seat_of self.old key.now)) self.new }
    {
        let hash = hash(key, self.bits);
        if is_unplaced(find(&self.buckets, hash, key)) {
            take_under(&mut self.buckets, hash, key);
        }
    }

    /// Sets the place of a key that has a seat, and whether the key is gone there. It takes no memory.
    pub fn set(&mut self, key: &Key, to: Place, gone: bool)
        requires seat { IsSome (seat_of self.old key.now) }
        ensures set { Reseats self.old key.now (Some (Some (to, gone))) self.new }
    {
        let hash = hash(key, self.bits);
        set_under(&mut self.buckets, hash, key, (to, gone));
    }

    /// The place of a key, and whether the key is gone there.
    pub fn place_of(&self, key: &Key) -> Option<(Place, bool)>
        ensures place { result ≡ place_of self.now key.now }
    {
        match find(&self.buckets, hash(key, self.bits), key) {
            Some(placed) => *placed,
            None => None,
        }
    }

    /// Takes the seat of a key away where this is its place.
    pub fn settle(&mut self, key: &Key, to: Place)
        ensures settled { (gone : Bool) → place_of self.old key.now ≡ Some (to, gone) → Reseats self.old key.now None self.new }
        ensures kept { ((gone : Bool) → place_of self.old key.now ≡ Some (to, gone) → ⊥) → Stays self.old self.new }
    {
        let hash = hash(key, self.bits);
        if is_placed_at(find(&self.buckets, hash, key), to) {
            take_under(&mut self.buckets, hash, key);
        }
    }

    /// The first key that has a place behind another in the walk order by so many bits, or the first of all. By the bits
    /// that the table was made with it takes logarithmic time, and that of the seats without a place that it passes. By
    /// other bits it looks at each seat.
    pub fn next_placed(&self, bits: u32, after: Option<&Key>) -> Option<&Key>
        requires { bits ≤ 32 }
        ensures next { IsNextPlaced bits self.now (option_map (λ key. key.now) after.entry) (option_map (λ key. key.now) result) }
    {
        if bits == self.bits {
            return next_in_order(&self.buckets, bits, after);
        }
        nearest(&self.buckets, after, bits)
    }
}

// The first key that has a place behind another of the buckets, or the first of all.
fn next_in_order<'a>(buckets: &'a Buckets, bits: u32, after: Option<&Key>) -> Option<&'a Key>
    requires { bits ≤ 32 }
    ensures { option_map (λ key. key.now) result ≡ next_in bits (option_map (λ key. key.now) after.entry) buckets.now }
{
    match after {
        Some(after) => first_behind(buckets, hash(after, bits), after),
        None => first(buckets),
    }
}
