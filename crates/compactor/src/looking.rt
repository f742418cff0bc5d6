// Looking up the newest record of a key.
ghost use Rattle.std.specs.Prelude.{◌≡◌, ◌↔◌, ℕ, Bool, true, List, Any, Some, None, IsTrue, IfOk, IfErr, IsErrOf};
ghost use Rattle.cache_model.specs.declared.faults.StoreFault.TheVariants as fault;
ghost use Rattle.cache_model.specs.declared.faults.Spent.{Spent};
ghost use Rattle.cache_disk.specs.State.{Stands as IsSame};
ghost use Rattle.cache_disk.specs.Calls.{HasStoreCause};
ghost use Rattle.temporary_table.specs.Places.{place_of};
ghost use Rattle.compactor.specs.Counting.{AreThere, IsFileNumber, Kept, counts_in};
ghost use Rattle.compactor.specs.Entering.{stands_at};
ghost use Rattle.compactor.specs.Indexing.{AreIndexed, AreUsable};
ghost use Rattle.compactor.specs.Looking.{Finds, Looks, TellsNewest};

use crate::entering::stands_at;
use crate::finding::find_entry;
use crate::parts::Parts;
use cache_disk::Host;
use cache_model::{IndexKey, IndexValue, Key, Place, StoreFault, hash};
use record_format::OwnItem;

// Whether one of some entries stands at the file and offset of a place.
fn stands_among(entries: &[(IndexKey, IndexValue)], place: Place) -> bool
    ensures { IsTrue result ↔ Any (λ e. stands_at e.0.file e.0.at place ≡ true) entries.now }
{
    entries
        .iter()
        .any(|(at, _)| stands_at(at.file, at.at, place))
}

impl Parts {
    /// The newest record of a key, None where it has none. It reads the record at the key's place in the table, or else
    /// those of the index that have the key's hash, up to the key's.
    pub fn record_of<H: Host>(
        &mut self,
        host: &mut H,
        key: &Key,
    ) -> Result<Option<OwnItem>, StoreFault>
        requires usable { AreUsable self.old }
        ensures looks { Looks self.old self.new result }
        ensures stands { IsTrue H.tells → IsSame (H.state host.old) (H.state host.new) }
        ensures finds { IsTrue H.tells → (kept : Kept) → AreIndexed (counts_in kept) self.old → AreThere (counts_in kept) (H.state host.old).files
            → Finds (counts_in kept) key.now self.old (H.state host.old) (H.state host.new) result }
        ensures unspent { (s : Spent) → IsErrOf result (fault.Spent s) → ⊥ }
        ensures cause { HasStoreCause (H.state host.old) (H.state host.new) result }
    {
        match self.table.place_of(key) {
            Some((place, _)) => self.placed_record(host, place),
            None => self.indexed_record(host, key),
        }
    }

    // The record at a place of the table.
    fn placed_record<H: Host>(
        &mut self,
        host: &mut H,
        place: Place,
    ) -> Result<Option<OwnItem>, StoreFault>
        requires usable { AreUsable self.old }
        requires number { IsFileNumber place.file }
        ensures looks { Looks self.old self.new result }
        ensures stands { IsTrue H.tells → IsSame (H.state host.old) (H.state host.new) }
        ensures finds { IsTrue H.tells → (kept : Kept) → AreIndexed (counts_in kept) self.old → AreThere (counts_in kept) (H.state host.old).files
            → (key : List ℕ) (gone : Bool) → place_of self.old.table key ≡ Some (place, gone) → Finds (counts_in kept) key self.old (H.state host.old) (H.state host.new) result }
        ensures unspent { (s : Spent) → IsErrOf result (fault.Spent s) → ⊥ }
        ensures cause { HasStoreCause (H.state host.old) (H.state host.new) result }
    {
        let result = self.log.fetch(host, place);
        self.spoilt = self.log.is_spoilt();
        match result {
            Ok(item) => Ok(Some(item)),
            Err(fault) => Err(fault),
        }
    }

    // The record of a key that has no place in the table.
    fn indexed_record<H: Host>(
        &mut self,
        host: &mut H,
        key: &Key,
    ) -> Result<Option<OwnItem>, StoreFault>
        requires usable { AreUsable self.old }
        requires unplaced { place_of self.old.table key.now ≡ None }
        ensures looks { Looks self.old self.new result }
        ensures stands { IsTrue H.tells → IsSame (H.state host.old) (H.state host.new) }
        ensures finds { IsTrue H.tells → (kept : Kept) → AreIndexed (counts_in kept) self.old → AreThere (counts_in kept) (H.state host.old).files
            → Finds (counts_in kept) key.now self.old (H.state host.old) (H.state host.new) result }
        ensures unspent { (s : Spent) → IsErrOf result (fault.Spent s) → ⊥ }
        ensures cause { HasStoreCause (H.state host.old) (H.state host.new) result }
    {
        let result = find_entry(&mut self.log, &mut self.tree, host, key);
        self.spoilt = self.log.is_spoilt();
        match result {
            Ok(Some(found)) => Ok(Some(found.item)),
            Ok(None) => Ok(None),
            Err(fault) => Err(fault),
        }
    }

    /// Whether the record at a place is its key's newest. It reads no record: it looks at the key's place in the table, or
    /// else at the entries of the index that have the key's hash.
    pub fn is_newest<H: Host>(
        &mut self,
        host: &mut H,
        key: &Key,
        place: Place,
    ) -> Result<bool, StoreFault>
        requires usable { AreUsable self.old }
        ensures looks { Looks self.old self.new result }
        ensures stands { IsTrue H.tells → IsSame (H.state host.old) (H.state host.new) }
        ensures newest { IsTrue H.tells → (kept : Kept) → AreIndexed (counts_in kept) self.old → AreThere (counts_in kept) (H.state host.old).files
            → IfOk result (TellsNewest (counts_in kept) key.now place) }
        ensures memory { IfErr result (λ given. given ≡ fault.Memory) }
        ensures cause { HasStoreCause (H.state host.old) (H.state host.new) result }
    {
        match self.table.place_of(key) {
            Some((placed, _)) => Ok(stands_at(placed.file, placed.at, place)),
            None => {
                let hash = hash(key, self.tree.hash_bits());
                match self.tree.find(host, hash) {
                    Ok(entries) => Ok(stands_among(&entries, place)),
                    Err(fault) => Err(fault),
                }
            }
        }
    }
}
