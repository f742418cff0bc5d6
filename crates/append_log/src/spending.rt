// The numbers that end.
ghost use Rattle.std.specs.Prelude.{◌≡◌, ◌≤◌, ℕ, length};
ghost use Rattle.cache_model.specs.Items.{spelling};
ghost use Rattle.record_format.specs.Changing.{item_by};
ghost use Rattle.append_log.specs.Current.{IsUsable, files_of, spent_by};

use crate::log_calls::Log;
use cache_model::{Change, Spent};

// How many bytes the record of a change has.
fn record_size(change: &Change) -> usize
    ensures size { (next : ℕ) → result ≡ length (spelling (item_by next change.now)) }
    ensures short { result ≤ 66583 }
{
    match change {
        Change::Put(key, entry) => 23 + key.bytes().len() + entry.value.bytes().len(),
        Change::Remove(key) => 11 + key.bytes().len(),
    }
}

impl Log {
    /// The number that a change would find at its end: its own, or that of the file to be made for it. `put_change`
    /// answers so before it writes anything.
    pub fn spent_by(&self, change: &Change) -> Option<Spent>
        requires usable { IsUsable (files_of self.now) }
        ensures { result ≡ spent_by (files_of self.now) change.now }
    {
        if self.files.next == 1 << 62 {
            return Some(Spent::Sequence(self.files.next));
        }
        let over = self.files.is_over(record_size(change));
        if self.files.is_at_end(over) {
            return Some(Spent::Files(u64::from(u32::MAX)));
        }
        None
    }
}
