// Reading the records of a data file one after another.
ghost use Rattle.std.specs.Prelude.{◌≡◌, ◌<◌, IsTrue, IfOk, IfSome, OnOk, IsErrOf, false};
ghost use Rattle.cache_model.specs.declared.faults.StoreFault.TheVariants as fault;
ghost use Rattle.cache_model.specs.declared.faults.Spent.{Spent};
ghost use Rattle.cache_model.specs.Files.{IsFileName, bytes_in};
ghost use Rattle.cache_disk.specs.Calls.{HasStoreCause};
ghost use Rattle.record_format.specs.Meaning.{own_item};
ghost use Rattle.data_file.specs.Scanning.{IsGiven, IsScanOf, is_spoilt, left_of, scanned_name};
ghost use Rattle.compactor.specs.Passing.{Passes};
ghost use Rattle.compactor.specs.Recounting.{is_record};

use cache_disk::Host;
use cache_model::StoreFault;
use data_file::{Scan, Scanned};
use record_format::OwnItem;

// Whether an item is a record.
fn is_record(item: &OwnItem) -> bool
    ensures { result ≡ is_record (own_item item.now) }
{
    match item {
        OwnItem::Put { .. } | OwnItem::Removal { .. } => true,
        OwnItem::End { .. } => false,
    }
}

/// The next record of the counted frames, None behind the last. The ends of frames are passed over.
pub fn next_record<H: Host>(scan: &mut Scan, host: &mut H) -> Result<Option<Scanned>, StoreFault>
    requires sound { is_spoilt scan.old ≡ false }
    requires name { IsFileName (scanned_name scan.old) }
    requires scans { IsTrue H.tells → IsScanOf scan.old (bytes_in (H.state host.old).files (scanned_name scan.old)) }
    ensures named { scanned_name scan.new ≡ scanned_name scan.old }
    ensures sound { OnOk result (is_spoilt scan.new ≡ false) }
    ensures limits { IfOk result (λ found. IfSome found (IsGiven (scanned_name scan.old))) }
    ensures record { IfOk result (λ found. IfSome found (λ one. IsTrue (is_record (own_item one.item)))) }
    ensures goes { IfOk result (λ found. IfSome found (λ one. left_of scan.new < left_of scan.old)) }
    ensures told { IsTrue H.tells → Passes scan.old scan.new (H.state host.old) (H.state host.new) result }
    ensures spent { (spent : Spent) → IsErrOf result (fault.Spent spent) → ⊥ }
    ensures cause { HasStoreCause (H.state host.old) (H.state host.new) result }
{
    while let Some(one) = scan.next(host)? {
        if is_record(&one.item) {
            return Ok(Some(one));
        }
    }
    Ok(None)
}
