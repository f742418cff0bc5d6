// What no clause says: worked rows, and that each call succeeds where memory is ample.
ghost use Rattle.std.specs.Prelude.{◌≤◌};

use crate::{Request, Requests, Table};
use cache_model::{Key, Place, hash};
use std::alloc::Global;
use std::process::Abort;
use std::test::Fail;

fn place(at: u32) -> Place {
    Place {
        file: 1,
        at,
        length: 30,
    }
}

/// The request that a letter stands for.
fn request_of(alloc: Global, kind: char, key: &str) -> Result<Request, Fail> {
    let key = Key::of(alloc, key.as_bytes())?;
    Ok(match kind {
        's' => Request::Set {
            key,
            to: place(8),
            gone: false,
        },
        'w' => Request::Swap {
            key,
            from: place(8),
            to: place(38),
        },
        'd' => Request::Drop {
            key,
            from: place(38),
        },
        _ => Request::Less { key },
    })
}

/// Requests that are queued in turn: a kind and a key, and how many then wait that raise and lower the count of `a`.
const QUEUED: [(char, &'static str, (u64, u64)); 7] = [
    ('s', "a", (1, 0)),
    ('s', "b", (1, 0)),
    ('w', "a", (2, 0)),
    ('l', "a", (2, 1)),
    ('d', "a", (2, 1)),
    ('l', "b", (2, 1)),
    ('l', "a", (2, 2)),
];

/// The same as they are taken, oldest first.
const TAKEN: [(char, &'static str, (u64, u64)); 7] = [
    ('s', "a", (1, 2)),
    ('s', "b", (1, 2)),
    ('w', "a", (0, 2)),
    ('l', "a", (0, 1)),
    ('d', "a", (0, 1)),
    ('l', "b", (0, 1)),
    ('l', "a", (0, 0)),
];

#[test]
fn requests_are_taken_in_order(rt: HostRuntime) -> Result<(), Fail> {
    let alloc = rt.alloc();
    let key = Key::of(alloc, b"a")?;
    let mut requests = Requests::new(alloc, 7)?;
    assert!(rt; requests.is_empty() && requests.pop().is_none());
    for (kind, name, waiting) in QUEUED {
        let request = request_of(alloc, kind, name)?;
        assert!(rt; request.key().bytes() == name.as_bytes() && !requests.is_full());
        if !requests.is_full() {
            requests.push(request);
        }
        assert_eq!(rt; requests.waiting(&key), waiting);
    }
    assert!(rt; requests.is_full() && requests.len() == 7);
    for (kind, name, waiting) in TAKEN {
        let wanted = request_of(alloc, kind, name)?;
        assert!(rt; requests.pop() == Some(wanted));
        assert_eq!(rt; requests.waiting(&key), waiting);
    }
    assert!(rt; requests.is_empty() && requests.len() == 0 && requests.first().is_none());
    Ok(())
}

#[test]
fn no_request_has_room_in_none(rt: HostRuntime) -> Result<(), Fail> {
    let mut requests = Requests::new(rt.alloc(), 0)?;
    assert!(rt; requests.is_full() && requests.pop().is_none());
    Ok(())
}

/// What a row of a list stands for: the kind of a request and the name of its key.
type Waiting = Vec<(char, &'static str)>;

/// The limits of queues, and what their keys are named. Those of the second are all in one bucket.
const QUEUES: [(usize, [&'static str; 4]); 3] = [
    (1, ["a", "aa", "b", "k"]),
    (8, ["a", "i", "q", "y"]),
    (5, ["a", "aa", "b", "k"]),
];

// How many rows of a list raise the count of a key, and how many lower it.
fn counted(rows: &Waiting, name: &str) -> (u64, u64) {
    let raises = |kind| kind == 's' || kind == 'w';
    let raising = rows.iter().filter(|row| row.1 == name && raises(row.0));
    let lowering = rows.iter().filter(|row| row.1 == name && row.0 == 'l');
    (raising.count() as u64, lowering.count() as u64)
}

// Whether a queue has what a list has.
fn waits_as(
    alloc: Global,
    requests: &Requests,
    rows: &Waiting,
    names: &[&'static str; 4],
) -> Result<bool, Fail> {
    let mut alike = requests.len() == rows.len();
    for name in names {
        let key = Key::of(alloc, name.as_bytes())?;
        alike = alike && requests.waiting(&key) == counted(rows, name);
    }
    let first = match rows.first() {
        Some((kind, name)) => Some(request_of(alloc, *kind, name)?),
        None => None,
    };
    Ok(alike && requests.first() == first.as_ref())
}

// A call that was drawn, of a queue and of a list: the oldest is taken, or there is one more where there is room.
fn drawn_turn(
    alloc: Global,
    requests: &mut Requests,
    rows: &mut Waiting,
    drawn: u32,
    names: &[&'static str; 4],
) -> Result<(), Fail> {
    if (drawn >> 24) % 2 == 0 {
        requests.pop();
        if !rows.is_empty() {
            rows.remove(0);
        }
    } else if !requests.is_full() {
        let kind = ['s', 'w', 'd', 'l'][((drawn >> 16) % 4) as usize];
        let name = names[((drawn >> 8) % 4) as usize];
        requests.push(request_of(alloc, kind, name)?);
        rows.push((kind, name))?;
    }
    Ok(())
}

#[test]
fn drawn_requests_wait_as_in_a_list(rt: HostRuntime) -> Result<(), Fail> {
    let alloc = rt.alloc();
    for (limit, names) in QUEUES {
        let mut requests = Requests::new(alloc, limit)?;
        let mut rows: Waiting = Vec::new(alloc);
        let mut drawn: u32 = 7;
        for turn in 0..300 {
            drawn = drawn.wrapping_mul(1_664_525).wrapping_add(1_013_904_223);
            drawn_turn(alloc, &mut requests, &mut rows, drawn, &names)?;
            assert!(rt;
                waits_as(alloc, &requests, &rows, &names)?,
                "{limit}: {turn}"
            );
        }
    }
    Ok(())
}

// Seats a key and sets its place.
fn put(table: &mut Table, key: &Key, to: Place, gone: bool) -> Result<(), Fail> {
    table.seat(key.copy()?)?;
    table.set(key, to, gone);
    Ok(())
}

#[test]
fn a_seat_goes_with_its_place(rt: HostRuntime) -> Result<(), Fail> {
    let alloc = rt.alloc();
    let key = Key::of(alloc, b"a")?;
    let mut table = Table::new(alloc);
    assert!(rt; table.place_of(&key).is_none());
    table.seat(key.copy()?)?;
    assert!(rt; table.place_of(&key).is_none() && table.next_placed(32, None).is_none());
    table.unseat(&key);
    put(&mut table, &key, place(8), true)?;
    assert_eq!(rt; table.place_of(&key), Some((place(8), true)));
    table.unseat(&key);
    table.seat(key.copy()?)?;
    table.settle(&key, place(38));
    assert_eq!(rt; table.place_of(&key), Some((place(8), true)));
    put(&mut table, &key, place(38), false)?;
    table.settle(&key, place(8));
    assert_eq!(rt; table.place_of(&key), Some((place(38), false)));
    table.settle(&key, place(38));
    assert!(rt; table.place_of(&key).is_none() && table.next_placed(32, None).is_none());
    Ok(())
}

/// The bits of a table and of a walk, and how the keys of the walk stand.
const WALKS: [(u32, u32, &'static str); 6] = [
    (0, 0, "a aa b k x y z"),
    (1, 1, "a k y aa b x z"),
    (32, 32, "aa a b k y x z"),
    (0, 32, "aa a b k y x z"),
    (32, 0, "a aa b k x y z"),
    (32, 1, "a k y aa b x z"),
];

const KEYS: [&'static str; 7] = ["k", "x", "a", "z", "aa", "y", "b"];

// The keys of a walk, one behind the other.
fn walk(alloc: Global, table: &Table, bits: u32) -> Result<String, Fail>
    requires { bits ≤ 32 }
{
    let mut text = String::new(alloc);
    let mut at = table.next_placed(bits, None);
    for _ in 0..8 {
        if let Some(key) = at {
            text.push_str(std::str::from_utf8(key.bytes()).unwrap_or("?"))?;
            text.push(' ')?;
            at = table.next_placed(bits, Some(key));
        }
    }
    Ok(text)
}

// A table by so many bits is walked by others as wanted.
fn walk_holds(
    rt: &impl Abort,
    alloc: Global,
    made: u32,
    walked: u32,
    wanted: &str,
) -> Result<(), Fail>
    requires made { made ≤ 32 }
    requires walked { walked ≤ 32 }
{
    let mut table = Table::ordered_by(alloc, made);
    for name in KEYS {
        put(
            &mut table,
            &Key::of(alloc, name.as_bytes())?,
            place(8),
            false,
        )?;
    }
    table.seat(Key::of(alloc, b"c")?)?;
    let text = walk(alloc, &table, walked)?;
    assert!(rt; text.as_str().trim() == wanted, "{made} {walked}: {text}");
    Ok(())
}

#[test]
fn keys_are_walked_by_their_hash(rt: HostRuntime) -> Result<(), Fail> {
    for (made, walked, wanted) in WALKS {
        walk_holds(&rt, rt.alloc(), made, walked, wanted)?;
    }
    Ok(())
}

type Seat = Option<(Place, bool)>;

/// A table as a list, in any order.
type Rows = Vec<(Key, Seat)>;

// The seat of a key in the list.
fn row_of(rows: &Rows, key: &Key) -> Option<Seat> {
    for (name, seat) in rows {
        if name == key {
            return Some(*seat);
        }
    }
    None
}

// The place of a key in the list.
fn row_place(rows: &Rows, key: &Key) -> Seat {
    match row_of(rows, key) {
        Some(seat) => seat,
        None => None,
    }
}

// Gives a key another seat in the list, or none.
fn set_row(rows: &mut Rows, key: &Key, seat: Option<Seat>) -> Result<(), Fail> {
    rows.retain(|row| row.0 != *key);
    if let Some(seat) = seat {
        rows.push((key.copy()?, seat))?;
    }
    Ok(())
}

// Whether a key stands before another in walk order.
fn is_before(one: &Key, other: &Key, bits: u32) -> bool
    requires { bits ≤ 32 }
{
    (hash(one, bits), one.bytes()) < (hash(other, bits), other.bytes())
}

// The first key of the list that has a place behind another.
fn next_row<'a>(rows: &'a Rows, bits: u32, after: Option<&Key>) -> Option<&'a Key>
    requires { bits ≤ 32 }
{
    let mut best: Option<&'a Key> = None;
    for (name, seat) in rows {
        let behind = match after {
            Some(after) => is_before(after, name, bits),
            None => true,
        };
        let nearer = match best {
            Some(best) => is_before(name, best, bits),
            None => true,
        };
        if behind && nearer && seat.is_some() {
            best = Some(name);
        }
    }
    best
}

// One call that was drawn, of the table and of the list.
fn drawn_call(table: &mut Table, rows: &mut Rows, drawn: u32, key: &Key) -> Result<(), Fail> {
    let to = place((drawn >> 20) % 3);
    let gone = (drawn >> 24) % 2 == 0;
    let was = row_of(rows, key);
    match (drawn >> 16) % 5 {
        0 => {
            table.seat(key.copy()?)?;
            set_row(rows, key, Some(row_place(rows, key)))
        }
        1 => {
            table.unseat(key);
            set_row(rows, key, if was == Some(None) { None } else { was })
        }
        2 => {
            table.settle(key, to);
            let settled = matches!(row_place(rows, key), Some((at, _)) if at == to);
            set_row(rows, key, if settled { None } else { was })
        }
        _ => {
            put(table, key, to, gone)?;
            set_row(rows, key, Some(Some((to, gone))))
        }
    }
}

// Whether the table answers as the list does.
fn is_alike(alloc: Global, table: &Table, rows: &Rows, bits: u32) -> Result<bool, Fail>
    requires { bits ≤ 32 }
{
    let mut alike = table.next_placed(bits, None) == next_row(rows, bits, None);
    for name in KEYS {
        let key = Key::of(alloc, name.as_bytes())?;
        let next = table.next_placed(bits, Some(&key)) == next_row(rows, bits, Some(&key));
        alike = alike && next && table.place_of(&key) == row_place(rows, &key);
    }
    Ok(alike)
}

#[test]
fn drawn_calls_answer_as_a_list(rt: HostRuntime) -> Result<(), Fail> {
    let alloc = rt.alloc();
    for bits in [0, 1, 32] {
        let mut table = Table::ordered_by(alloc, bits);
        let mut rows: Rows = Vec::new(alloc);
        let mut drawn: u32 = 7 + bits;
        for turn in 0..300 {
            drawn = drawn.wrapping_mul(1_664_525).wrapping_add(1_013_904_223);
            let key = Key::of(alloc, KEYS[((drawn >> 8) % 7) as usize].as_bytes())?;
            drawn_call(&mut table, &mut rows, drawn, &key)?;
            assert!(rt; is_alike(alloc, &table, &rows, bits)?, "{bits}: {turn}");
        }
    }
    Ok(())
}
