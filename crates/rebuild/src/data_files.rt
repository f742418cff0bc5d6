// The data files of a directory.
ghost use Rattle.std.specs.Option.{option_to_list};
ghost use Rattle.std.specs.Prelude.{◌≡◌, ◌↔◌, ◌++◌, ℕ, filter_map, ◌+◌, ◌<◌, ◌≤◌, All, Contains, IfOk, OnOk, IfErr};
ghost use Rattle.std.specs.List.Sorted.{IsStrictlyIncreasing};
ghost use Rattle.cache_model.specs.declared.faults.StoreFault.TheVariants as fault;
ghost use Rattle.cache_model.specs.Files.{IsFileName};
ghost use Rattle.cache_model.specs.Images.{log_name};
ghost use Rattle.rebuild.specs.Listing.{number_in, IsNumber, IsBehind};

use cache_model::{FileKind, FileName, StoreFault};
use std::alloc::Global;

// The number of a data file of the main store.
fn number_in(name: FileName) -> Option<u32>
    ensures { result ≡ number_in name }
{
    match name.kind {
        FileKind::Log => { if name.store == 0 { Some(name.id) } else { None } }
        FileKind::Rules | FileKind::Tree | FileKind::Base => None,
    }
}

/// The data file of the main store with this number.
pub(crate) fn log_name(number: u32) -> FileName
    ensures { result ≡ log_name number }
{
    FileName {
        kind: FileKind::Log,
        store: 0,
        id: number,
    }
}

// One number more at the end, where there is one.
fn keep(numbers: &mut Vec<u32>, number: Option<u32>) -> Result<(), StoreFault>
    ensures kept { OnOk result (numbers.new.items ≡ numbers.old.items ++ option_to_list number) }
    ensures memory { IfErr result (λ given. given ≡ fault.Memory) }
{
    if let Some(number) = number {
        if numbers.push(number).is_err() {
            return Err(StoreFault::Memory);
        }
    }
    Ok(())
}

// The numbers of the data files of the main store among these, in the order of the names.
fn listed_numbers(alloc: Global, names: &[FileName]) -> Result<Vec<u32>, StoreFault>
    ensures numbers { IfOk result (λ numbers. numbers.items ≡ filter_map number_in names.now) }
    ensures memory { IfErr result (λ given. given ≡ fault.Memory) }
{
    let mut numbers = Vec::new(alloc);
    for name in names {
        keep(&mut numbers, number_in(*name))?;
    }
    Ok(numbers)
}

/// The numbers of the data files of the main store among these, each once, ascending.
pub(crate) fn numbers_of(alloc: Global, names: &[FileName]) -> Result<Vec<u32>, StoreFault>
    requires { All IsFileName names.now }
    ensures each { IfOk result (λ numbers. (n : ℕ) → (Contains numbers.items n ↔ Contains names.now (log_name n))) }
    ensures ascend { IfOk result (λ numbers. IsStrictlyIncreasing numbers.items) }
    ensures within { IfOk result (λ numbers. All IsNumber numbers.items) }
    ensures memory { IfErr result (λ given. given ≡ fault.Memory) }
{
    let mut numbers = listed_numbers(alloc, names)?;
    numbers.sort_unstable();
    numbers.dedup();
    Ok(numbers)
}

/// The number behind the last of these, which ascend.
pub(crate) fn number_behind(numbers: &[u32]) -> u32
    requires within { All IsNumber numbers.now }
    requires ascend { IsStrictlyIncreasing numbers.now }
    ensures range { (1 ≤ result) × (result ≤ 4294967295) }
    ensures behind { IsBehind numbers.now result }
{
    match numbers.last() {
        Some(last) => *last + 1,
        None => 1,
    }
}
