// Reading data files into the index, each of them once it is synced.
ghost use Rattle.std.specs.Prelude.{◌≡◌, ◌↔◌, ℕ, ◌++◌, ◌∷◌, [], ◌<◌, ◌≤◌, List, length, All, Contains, IsTrue, IsSome, IfOk, OnOk, IfErr, IsErrOf, None, false};
ghost use Rattle.std.specs.List.Sorted.{IsStrictlyIncreasing};
ghost use Rattle.cache_model.specs.declared.faults.StoreFault.TheVariants as fault;
ghost use Rattle.cache_model.specs.declared.faults.Spent.{Spent};
ghost use Rattle.cache_model.specs.declared.faults.Damage.{Damage};
ghost use Rattle.cache_model.specs.Files.{bytes_in, file_in};
ghost use Rattle.cache_model.specs.Items.{IsItem, Item, spelling};
ghost use Rattle.cache_model.specs.DataFiles.{counted_items, first_damage, found_in, IsUndamaged};
ghost use Rattle.cache_model.specs.Images.{log_name};
ghost use Rattle.cache_disk.specs.State.{SameFiles, Stands};
ghost use Rattle.cache_disk.specs.Calls.{AllLeft, HasStoreCause};
ghost use Rattle.record_format.specs.Meaning.{own_item};
ghost use Rattle.data_file.specs.Scanning.{scanned_name, is_spoilt, IsScanOf, rest_of};
ghost use Rattle.rebuild.specs.Listing.{AreUndamaged, IsDamageAmong, IsNumber, IsSettledAll, NamesDamageOf, SameLogs};
ghost use Rattle.rebuild.specs.Rebuilt.{IsInOrder, IsRead};
ghost use Rattle.rebuild.specs.Reading.{AreRecords};
ghost use Rattle.rebuild.specs.Rows.{numbers_of};
ghost use Rattle.rebuild.specs.Taking.{Counted, IsNextFileOf, IsNextItem, IsRecordOf, StandsForItems, counted_by, counted_in, counted_of, counted_one};

use crate::data_files::log_name;
use crate::figures::Figures;
use crate::newest::{Record, take_record};
use cache_disk::Host;
use cache_model::StoreFault;
use data_file::{Scan, Scanned};
use record_format::OwnItem;
use std::alloc::Global;
use tree_index::Tree;

// Takes a record of a file.
fn take_numbered<H: Host>(
    alloc: Global,
    host: &mut H,
    bits: u32,
    tree: &mut Tree,
    figures: &mut Figures,
    one: &Record,
) -> Result<(), StoreFault>
    requires bits { bits ≤ 32 }
    requires number { IsNumber one.now.place.file }
    requires seq { one.now.seq < 4611686018427387904 }
    requires in_order { IsInOrder bits tree.old }
    requires records { IsTrue H.tells → AreRecords (H.state host.old).files tree.old.entries }
    ensures in_order { OnOk result (IsInOrder bits tree.new) }
    ensures numbers { OnOk result (numbers_of figures.new.rows ≡ numbers_of figures.old.rows) }
    ensures stands { IsTrue H.tells → Stands (H.state host.old) (H.state host.new) }
    ensures taken { IsTrue H.tells → (counted : List Counted) (item : Item) → IsRecordOf one.now item → StandsForItems (H.state host.old).files bits tree.old.entries figures.old counted
        → IsNextItem (H.state host.old).files counted (counted_by one.now item)
        → OnOk result (StandsForItems (H.state host.old).files bits tree.new.entries figures.new (counted ++ counted_by one.now item ∷ [])) }
    ensures undamaged { IsTrue H.tells → (d : Damage) → IsErrOf result (fault.Damaged d) → ⊥ }
    ensures unspent { (s : Spent) → IsErrOf result (fault.Spent s) → ⊥ }
    ensures cause { HasStoreCause (H.state host.old) (H.state host.new) result }
{
    figures.number(one.seq);
    take_record(alloc, host, bits, tree, &mut figures.rows, one)
}

// Takes an item of a file.
fn take_one<H: Host>(
    alloc: Global,
    host: &mut H,
    bits: u32,
    tree: &mut Tree,
    figures: &mut Figures,
    one: Scanned,
) -> Result<(), StoreFault>
    requires bits { bits ≤ 32 }
    requires number { IsNumber one.place.file }
    requires item { IsItem (own_item one.item) }
    requires long { one.place.length ≡ length (spelling (own_item one.item)) }
    requires in_order { IsInOrder bits tree.old }
    requires records { IsTrue H.tells → AreRecords (H.state host.old).files tree.old.entries }
    ensures in_order { OnOk result (IsInOrder bits tree.new) }
    ensures numbers { OnOk result (numbers_of figures.new.rows ≡ numbers_of figures.old.rows) }
    ensures stands { IsTrue H.tells → Stands (H.state host.old) (H.state host.new) }
    ensures taken { IsTrue H.tells → (counted : List Counted) → StandsForItems (H.state host.old).files bits tree.old.entries figures.old counted
        → IsNextItem (H.state host.old).files counted (counted_one one)
        → OnOk result (StandsForItems (H.state host.old).files bits tree.new.entries figures.new (counted ++ counted_one one ∷ [])) }
    ensures undamaged { IsTrue H.tells → (d : Damage) → IsErrOf result (fault.Damaged d) → ⊥ }
    ensures unspent { (s : Spent) → IsErrOf result (fault.Spent s) → ⊥ }
    ensures cause { HasStoreCause (H.state host.old) (H.state host.new) result }
{
    let Scanned { place, item } = one;
    match item {
        OwnItem::Put {
            seq,
            until: _,
            key,
            value: _,
        } => {
            let one = Record {
                key,
                seq,
                place,
                gone: false,
            };
            take_numbered(alloc, host, bits, tree, figures, &one)
        }
        OwnItem::Removal { seq, key } => {
            let one = Record {
                key,
                seq,
                place,
                gone: true,
            };
            take_numbered(alloc, host, bits, tree, figures, &one)
        }
        OwnItem::End { moment } => {
            figures.pass(moment);
            Ok(())
        }
    }
}

// Takes the items that a scan of a data file has still to give.
fn take_items<H: Host>(
    alloc: Global,
    host: &mut H,
    bits: u32,
    number: u32,
    scan: &mut Scan,
    tree: &mut Tree,
    figures: &mut Figures,
) -> Result<(), StoreFault>
    requires bits { bits ≤ 32 }
    requires number { IsNumber number }
    requires sound { is_spoilt scan.old ≡ false }
    requires name { scanned_name scan.old ≡ log_name number }
    requires scans { IsTrue H.tells → IsScanOf scan.old (bytes_in (H.state host.old).files (log_name number)) }
    requires whole { IsTrue H.tells → rest_of scan.old (bytes_in (H.state host.old).files (log_name number)) ≡ found_in (bytes_in (H.state host.old).files (log_name number)) }
    requires in_order { IsInOrder bits tree.old }
    requires taken { IsTrue H.tells → (counted : List Counted) × StandsForItems (H.state host.old).files bits tree.old.entries figures.old counted × IsNextFileOf (H.state host.old).files counted number }
    ensures in_order { OnOk result (IsInOrder bits tree.new) }
    ensures numbers { OnOk result (numbers_of figures.new.rows ≡ numbers_of figures.old.rows) }
    ensures stands { IsTrue H.tells → Stands (H.state host.old) (H.state host.new) }
    ensures read { IsTrue H.tells → (counted : List Counted) → StandsForItems (H.state host.old).files bits tree.old.entries figures.old counted
        → IsNextFileOf (H.state host.old).files counted number
        → OnOk result (StandsForItems (H.state host.old).files bits tree.new.entries figures.new (counted ++ counted_in number (counted_items (bytes_in (H.state host.old).files (log_name number))))) }
    ensures sound { IsTrue H.tells → OnOk result (IsUndamaged (bytes_in (H.state host.old).files (log_name number))) }
    ensures damaged { IsTrue H.tells → (damage : Damage) → IsErrOf result (fault.Damaged damage)
        → NamesDamageOf number (first_damage (bytes_in (H.state host.old).files (log_name number))) damage }
    ensures spent { (spent : Spent) → IsErrOf result (fault.Spent spent) → ⊥ }
    ensures cause { HasStoreCause (H.state host.old) (H.state host.new) result }
{
    while let Some(one) = scan.next(host)? {
        take_one(alloc, host, bits, tree, figures, one)?;
    }
    Ok(())
}

// Takes the items of a data file. A file that isn't there has none.
fn read_file<H: Host>(
    alloc: Global,
    host: &mut H,
    bits: u32,
    number: u32,
    scan: &mut Scan,
    tree: &mut Tree,
    figures: &mut Figures,
) -> Result<(), StoreFault>
    requires bits { bits ≤ 32 }
    requires number { IsNumber number }
    requires above { All (λ n. n < number) (numbers_of figures.old.rows) }
    requires in_order { IsInOrder bits tree.old }
    requires taken { IsTrue H.tells → (counted : List Counted) × StandsForItems (H.state host.old).files bits tree.old.entries figures.old counted × IsNextFileOf (H.state host.old).files counted number }
    ensures in_order { OnOk result (IsInOrder bits tree.new) }
    ensures numbers { OnOk result (numbers_of figures.new.rows ≡ numbers_of figures.old.rows ++ number ∷ []) }
    ensures stands { IsTrue H.tells → Stands (H.state host.old) (H.state host.new) }
    ensures read { IsTrue H.tells → (counted : List Counted) → StandsForItems (H.state host.old).files bits tree.old.entries figures.old counted
        → IsNextFileOf (H.state host.old).files counted number
        → OnOk result (StandsForItems (H.state host.old).files bits tree.new.entries figures.new (counted ++ counted_in number (counted_items (bytes_in (H.state host.old).files (log_name number))))) }
    ensures sound { IsTrue H.tells → OnOk result (IsUndamaged (bytes_in (H.state host.old).files (log_name number))) }
    ensures damaged { IsTrue H.tells → (damage : Damage) → IsErrOf result (fault.Damaged damage)
        → NamesDamageOf number (first_damage (bytes_in (H.state host.old).files (log_name number))) damage }
    ensures spent { (spent : Spent) → IsErrOf result (fault.Spent spent) → ⊥ }
    ensures cause { HasStoreCause (H.state host.old) (H.state host.new) result }
{
    let size = host.size(log_name(number))?.unwrap_or(0);
    figures.rows.add(number, size)?;
    scan.reopen(log_name(number), size);
    take_items(alloc, host, bits, number, scan, tree, figures)
}

// Takes the items of these data files. Each is synced and then read, by one scan for all of them.
fn read_all<H: Host>(
    alloc: Global,
    host: &mut H,
    bits: u32,
    numbers: &[u32],
    tree: &mut Tree,
) -> Result<Figures, StoreFault>
    requires bits { bits ≤ 32 }
    requires fits { tree.old.bits ≡ bits }
    requires empty { tree.old.entries ≡ [] }
    requires within { All IsNumber numbers.now }
    requires ascend { IsStrictlyIncreasing numbers.now }
    requires there { IsTrue H.tells → All (λ n. IsSome (file_in (H.state host.old).files (log_name n))) numbers.now }
    ensures in_order { OnOk result (IsInOrder bits tree.new) }
    ensures numbers { IfOk result (λ figures. numbers_of figures.rows ≡ numbers.now) }
    ensures read { IsTrue H.tells → IsRead (H.state host.old) (H.state host.new) }
    ensures settled { IsTrue H.tells → OnOk result (AllLeft (H.state host.new) (IsSettledAll numbers.now (H.state host.old).files)) }
    ensures taken { IsTrue H.tells → IfOk result (λ figures. StandsForItems (H.state host.old).files bits tree.new.entries figures (counted_of (H.state host.old).files numbers.now)) }
    ensures sound { IsTrue H.tells → OnOk result (AreUndamaged (H.state host.old).files numbers.now) }
    ensures damaged { IsTrue H.tells → (damage : Damage) → IsErrOf result (fault.Damaged damage) → IsDamageAmong (H.state host.old).files numbers.now damage }
    ensures spent { (spent : Spent) → IsErrOf result (fault.Spent spent) → ⊥ }
    ensures cause { HasStoreCause (H.state host.old) (H.state host.new) result }
{
    let mut figures = Figures::new(alloc);
    let mut scan = Scan::new(alloc, log_name(1), 0)?;
    for number in numbers {
        host.sync(log_name(*number))?;
        read_file(alloc, host, bits, *number, &mut scan, tree, &mut figures)?;
    }
    Ok(figures)
}

/// Takes the items of these data files, which are all, and whose numbers ascend. What is read of them, and the names of
/// all files, outlast a crash.
pub(crate) fn settle_all<H: Host>(
    alloc: Global,
    host: &mut H,
    bits: u32,
    numbers: &[u32],
    tree: &mut Tree,
) -> Result<Figures, StoreFault>
    requires bits { bits ≤ 32 }
    requires fits { tree.old.bits ≡ bits }
    requires empty { tree.old.entries ≡ [] }
    requires within { All IsNumber numbers.now }
    requires ascend { IsStrictlyIncreasing numbers.now }
    requires each { IsTrue H.tells → (n : ℕ) → (Contains numbers.now n ↔ IsSome (file_in (H.state host.old).files (log_name n))) }
    ensures in_order { OnOk result (IsInOrder bits tree.new) }
    ensures numbers { IfOk result (λ figures. numbers_of figures.rows ≡ numbers.now) }
    ensures read { IsTrue H.tells → IsRead (H.state host.old) (H.state host.new) }
    ensures settled { IsTrue H.tells → OnOk result (AllLeft (H.state host.new) (SameLogs (H.state host.old).files)) }
    ensures taken { IsTrue H.tells → IfOk result (λ figures. StandsForItems (H.state host.old).files bits tree.new.entries figures (counted_of (H.state host.old).files numbers.now)) }
    ensures sound { IsTrue H.tells → OnOk result (AreUndamaged (H.state host.old).files numbers.now) }
    ensures damaged { IsTrue H.tells → (damage : Damage) → IsErrOf result (fault.Damaged damage) → IsDamageAmong (H.state host.old).files numbers.now damage }
    ensures spent { (spent : Spent) → IsErrOf result (fault.Spent spent) → ⊥ }
    ensures cause { HasStoreCause (H.state host.old) (H.state host.new) result }
{
    let figures = read_all(alloc, host, bits, numbers, tree)?;
    host.sync_names()?;
    Ok(figures)
}
