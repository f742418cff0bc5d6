// Writing the record of a change.
ghost use Rattle.std.specs.Prelude.{◌≡◌, ◌++◌, ◌<◌, ◌^◌, is_ok, if◌then◌else◌, IfErr, OnOk, take, vec_len};
ghost use Rattle.cache_model.specs.declared.faults.ModelFault.TheVariants.{Memory};
ghost use Rattle.cache_model.specs.Items.{IsRecord, put, removal, spelling, IsUntil};
ghost use Rattle.record_format.specs.Changing.{HasUntil, item_by};

use crate::writing::{append_parts, put_head, removal_head};
use cache_model::{Change, Key, ModelFault, Until, Value};
use std::alloc::AllocError;

/// Appends the spelling of the record of a change, or leaves `out` as it is. It takes no memory but what `out` grows by.
pub fn encode_change(seq: u64, change: &Change, out: &mut Vec<u8>) -> Result<(), ModelFault>
    requires seq { seq < 2 ^ 62 }
    requires change { HasUntil change.now }
    ensures spelled { out.new.items ≡ (if is_ok result then out.old.items ++ spelling (item_by seq change.now) else out.old.items) }
    ensures record { IsRecord (item_by seq change.now) }
    ensures memory { IfErr result (λ fault. fault ≡ Memory) }
{
    let before = out.len();
    if append_change(seq, change, out).is_err() {
        out.truncate(before);
        return Err(ModelFault::Memory);
    }
    Ok(())
}

// Appends the spelling, or a part of it where memory is wanted.
fn append_change(seq: u64, change: &Change, out: &mut Vec<u8>) -> Result<(), AllocError>
    requires seq { seq < 2 ^ 62 }
    requires change { HasUntil change.now }
    ensures spelled { OnOk result (out.new.items ≡ out.old.items ++ spelling (item_by seq change.now)) }
    ensures record { IsRecord (item_by seq change.now) }
    ensures kept { take (vec_len out.old) out.new.items ≡ out.old.items }
{
    match change {
        Change::Put(key, entry) => append_put(seq, entry.until, key, &entry.value, out),
        Change::Remove(key) => append_removal(seq, key, out),
    }
}

fn append_put(
    seq: u64,
    until: Until,
    key: &Key,
    value: &Value,
    out: &mut Vec<u8>,
) -> Result<(), AllocError>
    requires seq { seq < 2 ^ 62 }
    requires until { IsUntil until }
    ensures spelled { OnOk result (out.new.items ≡ out.old.items ++ spelling (put seq until key.now value.now)) }
    ensures record { IsRecord (put seq until key.now value.now) }
    ensures kept { take (vec_len out.old) out.new.items ≡ out.old.items }
{
    let (key, value) = (key.bytes(), value.bytes());
    let head = put_head(seq, until, key.len() as u16, value.len() as u32);
    append_parts(out, &head, key, value)
}

fn append_removal(seq: u64, key: &Key, out: &mut Vec<u8>) -> Result<(), AllocError>
    requires seq { seq < 2 ^ 62 }
    ensures spelled { OnOk result (out.new.items ≡ out.old.items ++ spelling (removal seq key.now)) }
    ensures record { IsRecord (removal seq key.now) }
    ensures kept { take (vec_len out.old) out.new.items ≡ out.old.items }
{
    let key = key.bytes();
    append_parts(out, &removal_head(seq, key.len() as u16), key, &[])
}
