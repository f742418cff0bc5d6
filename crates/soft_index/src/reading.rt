// What a newest record says of its key.
ghost use Rattle.std.specs.Prelude.{◌≡◌, ◌↔◌, IsTrue, IsSome, Some, option_map};
ghost use Rattle.cache_model.specs.Images.{entry_by};
ghost use Rattle.record_format.specs.Meaning.{own_item};
ghost use Rattle.store_trait.specs.Meaning.{seen};
ghost use Rattle.store_trait.specs.Calls.{IsAnswer};

use cache_model::{Answer, Entry};
use record_format::OwnItem;
use store_trait::is_visible;

/// What is answered of a key by its newest record: Unknown where it has none, Gone where nothing visible is put.
pub(crate) fn answer_by(found: Option<OwnItem>, moment: u64) -> Answer
    ensures { IsAnswer ⊥ moment (option_map (λ item. entry_by (own_item item)) found) result }
{
    match found {
        None => Answer::Unknown,
        Some(OwnItem::Put { until, value, .. }) => {
            if is_visible(until, moment) {
                Answer::Known(Entry { value, until })
            } else {
                Answer::Gone
            }
        }
        Some(OwnItem::Removal { .. } | OwnItem::End { .. }) => Answer::Gone,
    }
}

/// Whether a record puts an entry that is visible.
pub(crate) fn is_shown(item: &OwnItem, moment: u64) -> bool
    ensures { IsTrue result ↔ IsSome (seen moment (Some (entry_by (own_item item.now)))) }
{
    match item {
        OwnItem::Put { until, .. } => is_visible(*until, moment),
        OwnItem::Removal { .. } | OwnItem::End { .. } => false,
    }
}
