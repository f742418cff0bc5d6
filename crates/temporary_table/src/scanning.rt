// Walks by other bits of the hash than those of the buckets: each seat is looked at.
ghost use Rattle.std.specs.Prelude.{◌≡◌, ◌≤◌, ◌&&◌, None, option_map, is_some};
ghost use Rattle.cache_model.specs.Hash.{precedes, follows};
ghost use Rattle.temporary_table.specs.Buckets.{seats_in};
ghost use Rattle.temporary_table.specs.Scanning.{stands_before, nearer, nearest};

use crate::buckets::{Bucket, Buckets, Seat};
use cache_model::{Key, hash};

// Whether a key stands before another in walk order.
fn precedes(one: &Key, other: &Key, bits: u32) -> bool
    requires { bits ≤ 32 }
    ensures { result ≡ precedes bits one.now other.now }
{
    let first = hash(one, bits);
    let second = hash(other, bits);
    if first == second {
        one < other
    } else {
        first < second
    }
}

// Whether a key stands behind another, or behind none.
fn follows(after: Option<&Key>, key: &Key, bits: u32) -> bool
    requires { bits ≤ 32 }
    ensures { result ≡ follows bits (option_map (λ after. after.now) after.entry) key.now }
{
    match after {
        Some(after) => precedes(after, key, bits),
        None => true,
    }
}

// Whether a key stands before the best so far, where there is one.
fn stands_before(best: Option<&Key>, key: &Key, bits: u32) -> bool
    requires { bits ≤ 32 }
    ensures { result ≡ stands_before bits (option_map (λ best. best.now) best.entry) key.now }
{
    match best {
        Some(best) => precedes(key, best, bits),
        None => true,
    }
}

// The better of the best so far and a key that has a seat.
fn nearer<'a>(
    best: Option<&'a Key>,
    key: &'a Key,
    seat: &Seat,
    after: Option<&Key>,
    bits: u32,
) -> Option<&'a Key>
    requires { bits ≤ 32 }
    ensures { option_map (λ key. key.now) result ≡ nearer bits (option_map (λ after. after.now) after.entry) (option_map (λ best. best.now) best.entry) (key.now, seat.now) }
{
    let is_ahead = seat.is_some() && follows(after, key, bits);
    let is_nearer = is_ahead && stands_before(best, key, bits);
    if is_nearer { Some(key) } else { best }
}

// The best of a bucket's keys and the best so far.
fn nearest_in<'a>(
    bucket: &'a Bucket,
    after: Option<&Key>,
    bits: u32,
    first: Option<&'a Key>,
) -> Option<&'a Key>
    requires { bits ≤ 32 }
    ensures { option_map (λ key. key.now) result ≡ nearest bits (option_map (λ after. after.now) after.entry) (option_map (λ first. first.now) first.entry) bucket.now.entries }
{
    let mut best = first;
    for (key, seat) in bucket.iter() {
        best = nearer(best, key, seat, after, bits);
    }
    best
}

/// The first key that has a place behind another in the walk order by so many bits, or the first of all.
pub(crate) fn nearest<'a>(buckets: &'a Buckets, after: Option<&Key>, bits: u32) -> Option<&'a Key>
    requires { bits ≤ 32 }
    ensures { option_map (λ key. key.now) result ≡ nearest bits (option_map (λ after. after.now) after.entry) None (seats_in buckets.now.entries) }
{
    let mut best = None;
    for (_hash, bucket) in buckets.iter() {
        best = nearest_in(bucket, after, bits, best);
    }
    best
}
