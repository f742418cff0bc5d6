// The texts of the names of files.
//
// | kind  | text                                                                             |
// |-------|----------------------------------------------------------------------------------|
// | Rules | `cache.toml`                                                                     |
// | Log   | `s<store>-<id>.log`, the store without leading zeros, the id in ten digits       |
// | Tree  | `s<store>.tree`, the store without leading zeros                                 |
// | Base  | `base<store>.dat`, the store 0 or 1                                              |
ghost use Rattle.std.specs.Prelude.{◌≡◌, ℕ, ◌<◌, ◌≤◌, ◌^◌, ◌++◌, List, codes, Some, IsSomeAnd, IfSome, IfOk, string_bytes};
ghost use Rattle.std.specs.Fmt.{decimal};
ghost use Rattle.cache_model.specs.Files.{IsFileName};
ghost use Rattle.cache_model.specs.declared.files.FileKind.TheVariants.{Log, Tree, Base};
ghost use Rattle.cache_script.specs.FileNames.{text_of, log_text_of, in_ten_digits, name_of, after_s};

use cache_model::{FileKind, FileName};
use std::alloc::{AllocError, Global};

/// The text of a file's name.
pub fn file_name_text(alloc: Global, name: FileName) -> Result<String, AllocError>
    ensures { IfOk result (λ text. string_bytes text ≡ text_of name) }
{
    let FileName { kind, store, id } = name;
    match kind {
        FileKind::Rules => String::from_str(alloc, "cache.toml"),
        FileKind::Log => {
            let digits = text_in_ten_digits(alloc, id)?;
            log_text(alloc, store, digits.as_str())
        }
        FileKind::Tree => format!(in alloc; "s{store}.tree"),
        FileKind::Base => format!(in alloc; "base{store}.dat"),
    }
}

fn log_text(alloc: Global, store: u8, digits: &str) -> Result<String, AllocError>
    ensures { IfOk result (λ text. string_bytes text ≡ log_text_of store digits.now) }
{
    format!(in alloc; "s{store}-{digits}.log")
}

// A number in ten digits.
fn text_in_ten_digits(alloc: Global, number: u32) -> Result<String, AllocError>
    ensures { IfOk result (λ text. string_bytes text ≡ in_ten_digits number) }
{
    format!(in alloc; "{number:010}")
}

/// The name that has this text, None where there is none.
pub fn file_name_of(alloc: Global, text: &str) -> Result<Option<FileName>, AllocError>
    ensures range { IfOk result (λ found. IfSome found IsFileName) }
    ensures text { IfOk result (λ found. IfSome found (λ name. text_of name ≡ text.now)) }
    ensures found { (name : FileName) → IsFileName name → name.store < 256 → text_of name ≡ text.now → IfOk result (λ found. found ≡ Some name) }
{
    let Some(name) = read_name(text) else {
        return Ok(None);
    };
    let own = file_name_text(alloc, name)?;
    Ok(if own.as_str() == text {
        Some(name)
    } else {
        None
    })
}

// The name that the text stands for, which may be spelled otherwise there, as with a leading zero too many.
fn read_name(text: &str) -> Option<FileName>
    ensures range { IfSome result IsFileName }
    ensures found { (name : FileName) → IsFileName name → name.store < 256 → text.now ≡ text_of name → result ≡ Some name }
{
    if text == "cache.toml" {
        return Some(FileName {
            kind: FileKind::Rules,
            store: 0,
            id: 0,
        });
    }
    if let Some(rest) = text.strip_prefix("base") {
        return read_base_name(rest);
    }
    read_store_name(text.strip_prefix('s')?)
}

// What follows `base` in the name of a base.
fn read_base_name(rest: &str) -> Option<FileName>
    ensures range { IfSome result IsFileName }
    ensures found { (store : ℕ) → store ≤ 1 → rest.now ≡ decimal store ++ codes ".dat" → result ≡ Some (name_of Base store 0) }
{
    let store = read_store(rest.strip_suffix(".dat")?)?;
    if store > 1 {
        return None;
    }
    Some(FileName {
        kind: FileKind::Base,
        store,
        id: 0,
    })
}

// What follows `s` in the name of a tree or of a data file.
fn read_store_name(rest: &str) -> Option<FileName>
    ensures range { IfSome result IsFileName }
    ensures tree { (store : ℕ) → store < 256 → rest.now ≡ decimal store ++ codes ".tree" → result ≡ Some (name_of Tree store 0) }
    ensures log { (store id : ℕ) → store < 256 → 1 ≤ id → id ≤ 4294967294 → rest.now ≡ after_s store (in_ten_digits id) → result ≡ Some (name_of Log store id) }
{
    match rest.strip_suffix(".tree") {
        Some(digits) => Some(FileName {
            kind: FileKind::Tree,
            store: read_store(digits)?,
            id: 0,
        }),
        None => read_log_name(rest),
    }
}

// What follows `s` in the name of a data file.
fn read_log_name(rest: &str) -> Option<FileName>
    ensures range { IfSome result IsFileName }
    ensures found { (store id : ℕ) → store < 256 → 1 ≤ id → id ≤ 4294967294 → rest.now ≡ after_s store (in_ten_digits id) → result ≡ Some (name_of Log store id) }
{
    let (store, id) = log_parts(rest)?;
    let store = read_store(store)?;
    let id = read_id(id)?;
    if id == 0 || id == u32::MAX {
        return None;
    }
    Some(FileName {
        kind: FileKind::Log,
        store,
        id,
    })
}

// The digits of the store and of the id in the name of a data file.
fn log_parts(rest: &str) -> Option<(&str, &str)>
    ensures { (store : ℕ) (digits : List ℕ) → store < 256 → rest.now ≡ after_s store digits → IsSomeAnd result (λ parts. (parts.0.now ≡ decimal store) × (parts.1.now ≡ digits)) }
{
    rest.strip_suffix(".log")?.split_once('-')
}

// The store that has these digits.
fn read_store(digits: &str) -> Option<u8>
    ensures { (store : ℕ) → store < 256 → digits.now ≡ decimal store → result ≡ Some store }
{
    digits.parse().ok()
}

// The id that has these digits, leading zeros included.
fn read_id(digits: &str) -> Option<u32>
    ensures { (id : ℕ) → id < 2 ^ 32 → digits.now ≡ in_ten_digits id → result ≡ Some id }
{
    digits.parse().ok()
}

#[cfg(test)]
mod tests;
