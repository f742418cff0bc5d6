// Reading an item.
ghost use Rattle.std.specs.Prelude.{◌≡◌, ◌≤◌, ◌<◌, ◌+◌, ◌-◌, ◌^◌, ◌⊎◌, ◌↔◌, IsTrue, length, drop};
ghost use Rattle.std.specs.Int.{from_be_bytes, w16, w32, w64};
ghost use Rattle.cache_model.specs.Limits.{IsKeyLength, IsValueLength};
ghost use Rattle.cache_model.specs.Items.{front, front_put, front_removal, front_end, until_of_number};
ghost use Rattle.record_format.specs.Meaning.{found_at, IsFoundWithin, IsFoundItem};

use crate::{Item, Span, Step};
use byteorder::{BigEndian, ByteOrder};
use cache_model::{BadKind, KEY_LIMIT, Until, VALUE_LIMIT};

/// Sequence numbers and expiries are below this number.
const NUMBER_LIMIT: u64 = 1 << 62;

/// Moments are below this number.
const MOMENT_LIMIT: u64 = 1 << 61;

/// How many bytes a put has before its key.
const PUT_HEAD: usize = 23;

/// How many bytes a removal has before its key.
const REMOVAL_HEAD: usize = 11;

/// How many bytes an end has.
const END_SIZE: usize = 9;

/// What stands at an offset. Takes no memory.
pub fn decode(bytes: &[u8], at: usize) -> Step
    requires { at ≤ length bytes.now }
    ensures found { found_at bytes.now at result ≡ front (drop at bytes.now) }
    ensures within { IsFoundWithin (length bytes.now) at result }
    ensures limits { IsFoundItem bytes.now result }
{
    if at == bytes.len() {
        return Step::Cut;
    }
    match bytes[at] {
        0 => decode_end(bytes, at),
        1 => decode_put(bytes, at),
        2 => decode_removal(bytes, at),
        tag => Step::Bad(BadKind::Tag(tag)),
    }
}

fn decode_put(bytes: &[u8], at: usize) -> Step
    requires { at ≤ length bytes.now }
    ensures found { found_at bytes.now at result ≡ front_put (drop at bytes.now) }
    ensures within { IsFoundWithin (length bytes.now) at result }
{
    let left = bytes.len() - at;
    if left < PUT_HEAD {
        return Step::Cut;
    }
    let seq = u64_at(bytes, at + 1);
    let until = u64_at(bytes, at + 9);
    let key_length = u16_at(bytes, at + 17);
    let value_length = u32_at(bytes, at + 19);
    if seq >= NUMBER_LIMIT {
        return Step::Bad(BadKind::Sequence(seq));
    }
    if !is_until(until) {
        return Step::Bad(BadKind::Until(until));
    }
    if !is_key_length(key_length) {
        return Step::Bad(BadKind::KeyLength(key_length));
    }
    if !is_value_length(value_length) {
        return Step::Bad(BadKind::ValueLength(value_length));
    }
    let size = PUT_HEAD + key_length as usize + value_length as usize;
    if left < size {
        return Step::Cut;
    }
    let key = Span {
        at: at + PUT_HEAD,
        length: key_length as usize,
    };
    let value = Span {
        at: at + PUT_HEAD + key_length as usize,
        length: value_length as usize,
    };
    let until = until_of(until);
    Step::Whole(
        Item::Put {
            seq,
            until,
            key,
            value,
        },
        at + size,
    )
}

fn decode_removal(bytes: &[u8], at: usize) -> Step
    requires { at ≤ length bytes.now }
    ensures found { found_at bytes.now at result ≡ front_removal (drop at bytes.now) }
    ensures within { IsFoundWithin (length bytes.now) at result }
{
    let left = bytes.len() - at;
    if left < REMOVAL_HEAD {
        return Step::Cut;
    }
    let seq = u64_at(bytes, at + 1);
    let key_length = u16_at(bytes, at + 9);
    if seq >= NUMBER_LIMIT {
        return Step::Bad(BadKind::Sequence(seq));
    }
    if !is_key_length(key_length) {
        return Step::Bad(BadKind::KeyLength(key_length));
    }
    let size = REMOVAL_HEAD + key_length as usize;
    if left < size {
        return Step::Cut;
    }
    let key = Span {
        at: at + REMOVAL_HEAD,
        length: key_length as usize,
    };
    Step::Whole(Item::Removal { seq, key }, at + size)
}

fn decode_end(bytes: &[u8], at: usize) -> Step
    requires { at ≤ length bytes.now }
    ensures found { found_at bytes.now at result ≡ front_end (drop at bytes.now) }
    ensures within { IsFoundWithin (length bytes.now) at result }
{
    if bytes.len() - at < END_SIZE {
        return Step::Cut;
    }
    let moment = u64_at(bytes, at + 1);
    if moment >= MOMENT_LIMIT {
        return Step::Bad(BadKind::Moment(moment));
    }
    Step::Whole(Item::End { moment }, at + END_SIZE)
}

// Whether a number may spell an expiry.
fn is_until(number: u64) -> bool
    ensures { IsTrue result ↔ (number < 2 ^ 62 ⊎ number ≡ 2 ^ 64 - 1) }
{
    number < NUMBER_LIMIT || number == u64::MAX
}

// The expiry that a number spells.
fn until_of(number: u64) -> Until
    ensures { result ≡ until_of_number number }
{
    if number == u64::MAX {
        Until::Never
    } else {
        Until::At(number)
    }
}

fn is_key_length(length: u16) -> bool
    ensures { IsTrue result ↔ IsKeyLength length }
{
    1 <= length && length as usize <= KEY_LIMIT
}

fn is_value_length(length: u32) -> bool
    ensures { IsTrue result ↔ IsValueLength length }
{
    length as usize <= VALUE_LIMIT
}

// The number at an offset, its highest byte first.
fn u64_at(bytes: &[u8], at: usize) -> u64
    requires { at + 8 ≤ length bytes.now }
    ensures { result ≡ from_be_bytes w64 (drop at bytes.now) }
{
    BigEndian::read_u64(&bytes[at..])
}

fn u32_at(bytes: &[u8], at: usize) -> u32
    requires { at + 4 ≤ length bytes.now }
    ensures { result ≡ from_be_bytes w32 (drop at bytes.now) }
{
    BigEndian::read_u32(&bytes[at..])
}

fn u16_at(bytes: &[u8], at: usize) -> u16
    requires { at + 2 ≤ length bytes.now }
    ensures { result ≡ from_be_bytes w16 (drop at bytes.now) }
{
    BigEndian::read_u16(&bytes[at..])
}
