// Writing an item.
ghost use Rattle.std.specs.Prelude.{◌≡◌, ◌++◌, ◌∷◌, ◌≤◌, ◌<◌, ◌^◌, [], is_ok, if◌then◌else◌, IfErr, OnOk, take, length, vec_len, ◌+◌};
ghost use Rattle.std.specs.Int.{to_be_bytes, w16, w32, w64};
ghost use Rattle.cache_model.specs.declared.faults.ModelFault.TheVariants.{Memory};
ghost use Rattle.cache_model.specs.Items.{IsItem, spelling, until_number};
ghost use Rattle.record_format.specs.Meaning.{own_item};

use crate::OwnItem;
use byteorder::{BigEndian, ByteOrder};
use cache_model::{ModelFault, Until};
use std::alloc::AllocError;

/// Appends the spelling of an item, or leaves `out` as it is.
pub fn encode(item: &OwnItem, out: &mut Vec<u8>) -> Result<(), ModelFault>
    requires { IsItem (own_item item.now) }
    ensures spelled { out.new.items ≡ (if is_ok result then out.old.items ++ spelling (own_item item.now) else out.old.items) }
    ensures memory { IfErr result (λ fault. fault ≡ Memory) }
{
    let before = out.len();
    if append(item, out).is_err() {
        out.truncate(before);
        return Err(ModelFault::Memory);
    }
    Ok(())
}

// Appends the spelling, or a part of it where memory is wanted.
fn append(item: &OwnItem, out: &mut Vec<u8>) -> Result<(), AllocError>
    requires { IsItem (own_item item.now) }
    ensures spelled { OnOk result (out.new.items ≡ out.old.items ++ spelling (own_item item.now)) }
    ensures kept { take (vec_len out.old) out.new.items ≡ out.old.items }
{
    match item {
        OwnItem::Put {
            seq,
            until,
            key,
            value,
        } => {
            let (key, value) = (key.bytes(), value.bytes());
            let head = put_head(*seq, *until, key.len() as u16, value.len() as u32);
            append_parts(out, &head, key, value)
        }
        OwnItem::Removal { seq, key } => {
            let key = key.bytes();
            append_parts(out, &removal_head(*seq, key.len() as u16), key, &[])
        }
        OwnItem::End { moment } => append_parts(out, &end_bytes(*moment), &[], &[]),
    }
}

// Appends three parts, with room for all of them taken first.
pub(crate) fn append_parts(
    out: &mut Vec<u8>,
    head: &[u8],
    key: &[u8],
    value: &[u8],
) -> Result<(), AllocError>
    requires { length head.now + length key.now + length value.now < 2 ^ 32 }
    ensures appended { OnOk result (out.new.items ≡ out.old.items ++ head.now ++ key.now ++ value.now) }
    ensures kept { take (vec_len out.old) out.new.items ≡ out.old.items }
{
    out.reserve(head.len() + key.len() + value.len())?;
    out.extend_from_slice(head)?;
    out.extend_from_slice(key)?;
    out.extend_from_slice(value)
}

fn number_of(until: Until) -> u64
    ensures { result ≡ until_number until }
{
    match until {
        Until::Never => u64::MAX,
        Until::At(moment) => moment,
    }
}

pub(crate) fn put_head(seq: u64, until: Until, key_length: u16, value_length: u32) -> [u8; 23]
    ensures { result ≡ (1 ∷ []) ++ to_be_bytes w64 seq ++ to_be_bytes w64 (until_number until) ++ to_be_bytes w16 key_length ++ to_be_bytes w32 value_length }
{
    let mut head = [1; 23];
    BigEndian::write_u64(&mut head[1..], seq);
    BigEndian::write_u64(&mut head[9..], number_of(until));
    BigEndian::write_u16(&mut head[17..], key_length);
    BigEndian::write_u32(&mut head[19..], value_length);
    head
}

pub(crate) fn removal_head(seq: u64, key_length: u16) -> [u8; 11]
    ensures { result ≡ (2 ∷ []) ++ to_be_bytes w64 seq ++ to_be_bytes w16 key_length }
{
    let mut head = [2; 11];
    BigEndian::write_u64(&mut head[1..], seq);
    BigEndian::write_u16(&mut head[9..], key_length);
    head
}

fn end_bytes(moment: u64) -> [u8; 9]
    ensures { result ≡ (0 ∷ []) ++ to_be_bytes w64 moment }
{
    let mut bytes = [0; 9];
    BigEndian::write_u64(&mut bytes[1..], moment);
    bytes
}
