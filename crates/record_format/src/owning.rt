// An item with a key and a value of its own.
ghost use Rattle.std.specs.Prelude.{◌≡◌, ◌≤◌, ◌+◌, take, drop, length, IfOk, IfErr};
ghost use Rattle.cache_model.specs.declared.faults.ModelFault.TheVariants.{Memory};
ghost use Rattle.cache_model.specs.Limits.{IsKeyLength, IsValueLength};
ghost use Rattle.cache_model.specs.Items.{IsItem};
ghost use Rattle.record_format.specs.Meaning.{own_item, item_in, part, IsPart, AreParts};

use crate::{Item, OwnItem, Span};
use cache_model::{Key, ModelFault, Value};
use std::alloc::Global;

/// The item that stands in these bytes, with copies of its key and its value.
pub fn own(alloc: Global, bytes: &[u8], item: Item) -> Result<OwnItem, ModelFault>
    requires parts { AreParts (length bytes.now) item }
    requires limits { IsItem (item_in bytes.now item) }
    ensures equal { IfOk result (λ own. own_item own ≡ item_in bytes.now item) }
    ensures memory { IfErr result (λ fault. fault ≡ Memory) }
{
    match item {
        Item::Put {
            seq,
            until,
            key,
            value,
        } => {
            let key = key_at(alloc, bytes, key)?;
            let value = value_at(alloc, bytes, value)?;
            Ok(OwnItem::Put {
                seq,
                until,
                key,
                value,
            })
        }
        Item::Removal { seq, key } => {
            let key = key_at(alloc, bytes, key)?;
            Ok(OwnItem::Removal { seq, key })
        }
        Item::End { moment } => Ok(OwnItem::End { moment }),
    }
}

fn key_at(alloc: Global, bytes: &[u8], span: Span) -> Result<Key, ModelFault>
    requires part { IsPart (length bytes.now) span }
    requires limit { IsKeyLength (length (part bytes.now span)) }
    ensures equal { IfOk result (λ key. key ≡ part bytes.now span) }
    ensures memory { IfErr result (λ fault. fault ≡ Memory) }
{
    Key::of(alloc, &bytes[span.at..span.at + span.length])
}

fn value_at(alloc: Global, bytes: &[u8], span: Span) -> Result<Value, ModelFault>
    requires part { IsPart (length bytes.now) span }
    requires limit { IsValueLength (length (part bytes.now span)) }
    ensures equal { IfOk result (λ value. value ≡ part bytes.now span) }
    ensures memory { IfErr result (λ fault. fault ≡ Memory) }
{
    Value::of(alloc, &bytes[span.at..span.at + span.length])
}
