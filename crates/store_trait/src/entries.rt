// What is held in memory under keys, in walk order.
ghost use Rattle.std.specs.Prelude.{◌≡◌, ◌≤◌, ℕ, List, [], ◌∷◌, None, Some, IfOk, IfErr, OnOk, OnErr, MatchOption, MatchResult, IsTrue, option_map, is_some, true, false};
ghost use Rattle.std.specs.Str.{bytes_eq};
ghost use Rattle.std.specs.BTreeMap.{Updates, IsOrdered, get};
ghost use Rattle.std.specs.BTreeMap.Range.{entries_between};
ghost use Rattle.std.specs.Range.Bound.{bound_map};
ghost use Rattle.std.specs.declared.ops.Bound.TheVariants.{Unbounded};
ghost use Rattle.cache_model.specs.declared.faults.ModelFault.TheVariants.{Memory};
ghost use Rattle.cache_model.specs.Plain.{is_visible};
ghost use Rattle.store_trait.specs.Meaning.{read_in};
ghost use Rattle.store_trait.specs.Keeping.{SameContent};
ghost use Rattle.store_trait.specs.Calls.{IsNextKey};
ghost use Rattle.store_trait.specs.Held.{has_seat, IsSeatOf, key_of_seat};
ghost use Rattle.store_trait.specs.Places.{hashed, place_cmp, reading_of, is_shown, first_shown, start_after};
ghost use Rattle.store_trait.specs.declared.entries.Room.TheVariants.{Empty};

use cache_model::{Entry, Key, ModelFault, Until, hash};
use std::alloc::Global;
use std::collections::BTreeMap;
use std::marker::Model;
use std::ops::Bound;

// A key with its hash, by which it stands in walk order.
#[derive(Debug, PartialEq, Eq, PartialOrd, Ord, Drop)]
struct HashedKey {
    hash: u32,
    key: Key,
}

// What stands under a key.
#[derive(Debug, Drop)]
enum Room {
    // Nothing yet.
    Empty,
    // An entry, or that the key was removed.
    Holding(Option<Entry>),
}

/// Room for what will be held under a key.
#[derive(Debug, Drop)]
pub struct Seat {
    place: HashedKey,
}

/// Entries and removals under their keys, in walk order. A key is seated first, which may want memory; what is held under
/// it is then put, or replaced, without taking any.
#[derive(Drop)]
pub struct Entries {
    bits: u32,
    rooms: BTreeMap<HashedKey, Room>,
}

impl Model for Entries {
    ghost use Rattle.store_trait.specs.Held.{Held};

    ghost Value = { Held };

    ghost use Rattle.store_trait.specs.Rooms.{held_of, IsKeptWell};

    ghost view = { held_of };

    ghost invariant = { IsKeptWell };
}

impl HashedKey {
    fn of(key: &Key, bits: u32) -> Result<HashedKey, ModelFault>
        requires { bits ≤ 32 }
        ensures hashed { IfOk result (λ place. place ≡ hashed bits key.now) }
        ensures memory { IfErr result (λ fault. fault ≡ Memory) }
    {
        Ok(HashedKey {
            hash: hash(key, bits),
            key: key.copy()?,
        })
    }
}

// A key with its hash, where there is a key.
fn place_of(key: Option<&Key>, bits: u32) -> Result<Option<HashedKey>, ModelFault>
    requires { bits ≤ 32 }
    ensures hashed { IfOk result (λ place. place ≡ option_map (λ key. hashed bits key.now) key.entry) }
    ensures memory { IfErr result (λ fault. fault ≡ Memory) }
{
    match key {
        Some(key) => Ok(Some(HashedKey::of(key, bits)?)),
        None => Ok(None),
    }
}

// A copy of a place's key, where there is a place.
fn copy_key(place: Option<&HashedKey>) -> Result<Option<Key>, ModelFault>
    ensures equal { IfOk result (λ key. key ≡ option_map (λ place. place.now.key) place.entry) }
    ensures memory { IfErr result (λ fault. fault ≡ Memory) }
{
    match place {
        Some(place) => Ok(Some(place.key.copy()?)),
        None => Ok(None),
    }
}

// What a room holds.
fn held_by(room: Option<&Room>) -> Option<&Option<Entry>>
    ensures { option_map (λ held. held.now) result ≡ reading_of (option_map (λ room. room.now) room.entry) }
{
    match room {
        Some(Room::Holding(held)) => Some(held),
        Some(Room::Empty) | None => None,
    }
}

// Whether something visible is held in a room.
fn is_shown(room: &Room, moment: u64) -> bool
    ensures { result ≡ is_shown moment room.now }
{
    match room {
        Room::Holding(Some(entry)) => is_visible(entry.until, moment),
        Room::Holding(None) | Room::Empty => false,
    }
}

// Where the places behind one begin, or all.
fn start_after(after: Option<&HashedKey>) -> Bound<&HashedKey>
    ensures { bound_map (λ place. place.now) result ≡ start_after (option_map (λ place. place.now) after.entry) }
{
    match after {
        Some(after) => Bound::Excluded(after),
        None => Bound::Unbounded,
    }
}

// The first place with something visible behind one of them, or of all.
fn first_shown<'a>(
    rooms: &'a BTreeMap<HashedKey, Room>,
    after: Option<&'a HashedKey>,
    moment: u64,
) -> Option<&'a HashedKey>
    ensures { option_map (λ place. place.now) result ≡ first_shown moment (entries_between place_cmp (start_after (option_map (λ place. place.now) after.entry)) Unbounded rooms.now.entries) }
{
    for (place, room) in rooms.range((start_after(after), Bound::Unbounded)) {
        if is_shown(room, moment) {
            return Some(place);
        }
    }
    None
}

// Puts a room under a place. Where one stands there already, it gives way and no memory is wanted.
fn put_room(
    rooms: &mut BTreeMap<HashedKey, Room>,
    place: HashedKey,
    room: Room,
) -> Result<(), ModelFault>
    ensures put { OnOk result (Updates place_cmp rooms.old rooms.new place (Some room)) }
    ensures same { OnErr result ((rooms.new.entries ≡ rooms.old.entries) × (get place_cmp rooms.old place ≡ None)) }
    ensures ordered { IsOrdered place_cmp rooms.new }
    ensures memory { IfErr result (λ fault. fault ≡ Memory) }
{
    match rooms.insert(place, room) {
        Ok(_) => Ok(()),
        Err(_) => Err(ModelFault::Memory),
    }
}

// Takes a room away where nothing is held in it.
fn take_empty(rooms: &mut BTreeMap<HashedKey, Room>, place: &HashedKey)
    requires ordered { IsOrdered place_cmp rooms.old }
    ensures taken { get place_cmp rooms.old place.now ≡ Some Empty → Updates place_cmp rooms.old rooms.new place.now None }
    ensures same { (get place_cmp rooms.old place.now ≡ Some Empty → ⊥) → rooms.new ≡ rooms.old }
    ensures ordered { IsOrdered place_cmp rooms.new }
{
    if let Some(Room::Empty) = rooms.get(place) {
        let _ = rooms.remove(place);
    }
}

/// Whether an entry that ends so is visible at a moment.
pub fn is_visible(until: Until, moment: u64) -> bool
    ensures { result ≡ is_visible until moment }
{
    match until {
        Until::Never => true,
        Until::At(end) => moment < end,
    }
}

impl Entries {
    /// Nothing held, walked by `bits` bits of the keys' hash. It takes no memory.
    pub fn new(alloc: Global, bits: u32) -> Entries
        requires { bits ≤ 32 }
        ensures bits { result.bits ≡ bits }
        ensures empty { result.content ≡ [] }
        ensures seats { result.seats ≡ [] }
    {
        Entries {
            bits,
            rooms: BTreeMap::new(alloc),
        }
    }

    /// How many bits of the keys' hash the walk order has.
    pub fn hash_bits(&self) -> u32
        ensures { result ≡ self.now.bits }
    {
        self.bits
    }

    /// What is held under a key. It takes memory for a copy of the key.
    pub fn get(&self, key: &Key) -> Result<Option<&Option<Entry>>, ModelFault>
        ensures held { IfOk result (λ found. option_map (λ held. held.now) found ≡ read_in self.now.content key.now) }
        ensures memory { IfErr result (λ fault. fault ≡ Memory) }
    {
        let place = HashedKey::of(key, self.bits)?;
        Ok(held_by(self.rooms.get(&place)))
    }

    /// The first visible key behind another in walk order, or the first of all. It takes memory for copies of keys.
    pub fn next(&self, after: Option<&Key>, moment: u64) -> Result<Option<Key>, ModelFault>
        ensures next { IfOk result (λ key. IsNextKey self.now.bits moment self.now.content (option_map (λ key. key.now) after.entry) key) }
        ensures memory { IfErr result (λ fault. fault ≡ Memory) }
    {
        let after = place_of(after, self.bits)?;
        copy_key(first_shown(&self.rooms, after.as_ref(), moment))
    }

    /// A seat for a key, made where the key has none. What is held stays, and after an `Err` all.
    pub fn seat(&mut self, key: &Key) -> Result<Seat, ModelFault>
        ensures bits { self.new.bits ≡ self.old.bits }
        ensures seat { IfOk result (λ seat. IsSeatOf self.new seat × (key_of_seat seat ≡ key.now)) }
        ensures held { SameContent self.old.content self.new.content }
        ensures others { (other : List ℕ) → has_seat self.old other ≡ true → has_seat self.new other ≡ true }
        ensures same { OnErr result (self.new ≡ self.old) }
        ensures memory { IfErr result (λ fault. fault ≡ Memory) }
    {
        let place = HashedKey::of(key, self.bits)?;
        if self.rooms.contains_key(&place) {
            return Ok(Seat { place });
        }
        let room = HashedKey {
            hash: place.hash,
            key: place.key.copy()?,
        };
        put_room(&mut self.rooms, room, Room::Empty)?;
        Ok(Seat { place })
    }

    /// Holds this under the key of a seat. It takes no memory.
    pub fn fill(&mut self, seat: Seat, held: Option<Entry>)
        requires seat { IsSeatOf self.old seat }
        ensures bits { self.new.bits ≡ self.old.bits }
        ensures held { SameContent ((key_of_seat seat, held) ∷ self.old.content) self.new.content }
        ensures seats { (other : List ℕ) → has_seat self.new other ≡ has_seat self.old other }
    {
        // The key has a room already, so that this wants no memory.
        let _ = put_room(&mut self.rooms, seat.place, Room::Holding(held));
    }

    /// Takes a seat away under which nothing is held.
    pub fn unseat(&mut self, seat: Seat)
        requires seat { IsSeatOf self.old seat }
        ensures bits { self.new.bits ≡ self.old.bits }
        ensures held { SameContent self.old.content self.new.content }
        ensures gone { has_seat self.new (key_of_seat seat) ≡ is_some (read_in self.old.content (key_of_seat seat)) }
        ensures others { (other : List ℕ) → bytes_eq (key_of_seat seat) other ≡ false → has_seat self.new other ≡ has_seat self.old other }
    {
        take_empty(&mut self.rooms, &seat.place);
    }
}
