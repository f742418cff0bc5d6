// The settings file `cache.toml`: a table of the settings that aren't at their defaults.
ghost use Rattle.std.specs.Prelude.{◌≡◌, ◌↔◌, ◌≤◌, length, true, None, IfSome, IfOk, IfErr, option_map, codes};
ghost use Rattle.std.specs.List.{list_any};
ghost use Rattle.std.specs.Str.{bytes_eq};
ghost use Rattle.cache_model.specs.declared.settings.Settings.{Settings};
ghost use Rattle.cache_model.specs.Settings.{default_settings, AreInRange};
ghost use Rattle.toml.specs.View.{view, table_view};
ghost use Rattle.toml.specs.Data.{get_member};
ghost use Rattle.cache_cli.specs.SettingsFile.{whole, truth, string_up_to, beside, one_of, modes, activations, read_or, Gives, setting_names, has_only, GivesEach, AreInForce, GivesSettings, IsSettingsFile};
ghost use Rattle.cache_cli.specs.declared.settings_file.SettingsFault.TheVariants.{Wrong};

use cache_model::{Activation, Mode, Prefix, Settings};
use std::alloc::Global;
use thiserror::Error;
use toml::{Table, Value};

/// The greatest length of a settings file, in bytes.
pub const FILE_LIMIT: usize = 4096;

/// The greatest length of the setting `publish`, in bytes.
const PUBLISH_LIMIT: usize = 1024;

/// The names that a settings file may have.
const NAMES: [&str; 13] = [
    "file_size",
    "compact_below",
    "queue",
    "nodes",
    "hash_bits",
    "sync_writes",
    "mode",
    "behind_limit",
    "max_entries",
    "pump",
    "preload",
    "publish",
    "activation",
];

/// Why bytes gave no settings.
#[derive(Debug, Drop, Error)]
pub enum SettingsFault {
    #[error("the settings file is wrong")]
    Wrong,
    #[error("out of memory")]
    Memory,
}

// The value at a name.
fn value_at<'a>(table: &'a Table, name: &str) -> Option<&'a Value>
    ensures { option_map (λ value. view value.now) result ≡ get_member name.now (table_view table.now) }
{
    table.get(name)
}

// A whole number from the first one to the last one.
fn whole(value: &Value, first: u64, last: u64) -> Option<u64>
    ensures number { result ≡ whole first last (view value.now) }
    ensures within { IfSome result (λ number. number ≤ last) }
{
    let Value::Integer(number) = value else {
        return None;
    };
    let Ok(number) = u64::try_from(*number) else {
        return None;
    };
    if first <= number && number <= last {
        Some(number)
    } else {
        None
    }
}

// The number at a name, from the first one to the last one.
fn number_at(table: &Table, name: &str, first: u64, last: u64, standard: u64) -> Option<u64>
    ensures { result ≡ read_or (whole first last) standard (get_member name.now (table_view table.now)) }
{
    match value_at(table, name) {
        None => Some(standard),
        Some(value) => whole(value, first, last),
    }
}

// A number of things at a name, from the first one to the last one.
fn count_at(table: &Table, name: &str, first: u64, last: u64, standard: usize) -> Option<usize>
    ensures { result ≡ read_or (whole first last) standard (get_member name.now (table_view table.now)) }
{
    match number_at(table, name, first, last, standard as u64) {
        None => None,
        Some(number) => Some(number as usize),
    }
}

// A number of bits at a name, up to the last one.
fn bits_at(table: &Table, name: &str, last: u32, standard: u32) -> Option<u32>
    ensures { result ≡ read_or (whole 0 last) standard (get_member name.now (table_view table.now)) }
{
    match value_at(table, name) {
        None => Some(standard),
        Some(value) => match whole(value, 0, last as u64) {
            None => None,
            Some(number) => Some(number as u32),
        },
    }
}

// The truth at a name.
fn truth_at(table: &Table, name: &str, standard: bool) -> Option<bool>
    ensures { result ≡ read_or truth standard (get_member name.now (table_view table.now)) }
{
    match value_at(table, name) {
        None => Some(standard),
        Some(value) => value.as_bool(),
    }
}

// The mode of a word.
fn mode_of(word: &str) -> Option<Mode>
    ensures { result ≡ beside modes word.now }
{
    if word == "through" {
        Some(Mode::Through)
    } else if word == "behind" {
        Some(Mode::Behind)
    } else if word == "passivation" {
        Some(Mode::Passivation)
    } else {
        None
    }
}

// The activation of a word.
fn activation_of(word: &str) -> Option<Activation>
    ensures { result ≡ beside activations word.now }
{
    if word == "keep" {
        Some(Activation::Keep)
    } else {
        None
    }
}

// The mode at a name.
fn mode_at(table: &Table, name: &str, standard: Mode) -> Option<Mode>
    ensures { result ≡ read_or (one_of modes) standard (get_member name.now (table_view table.now)) }
{
    match value_at(table, name) {
        None => Some(standard),
        Some(Value::String(word)) => mode_of(word.as_str()),
        Some(_) => None,
    }
}

// The activation at a name.
fn activation_at(table: &Table, name: &str, standard: Activation) -> Option<Activation>
    ensures { result ≡ read_or (one_of activations) standard (get_member name.now (table_view table.now)) }
{
    match value_at(table, name) {
        None => Some(standard),
        Some(Value::String(word)) => activation_of(word.as_str()),
        Some(_) => None,
    }
}

// The bytes of the string at a name, at most so many.
fn string_at<'a>(table: &'a Table, name: &str, most: usize, standard: &'a [u8]) -> Option<&'a [u8]>
    ensures { option_map (λ text. text.now) result ≡ read_or (string_up_to most) standard.now (get_member name.now (table_view table.now)) }
{
    match value_at(table, name) {
        None => Some(standard),
        Some(Value::String(text)) => {
            let bytes = text.as_bytes();
            if bytes.len() <= most {
                Some(bytes)
            } else {
                None
            }
        }
        Some(_) => None,
    }
}

// Whether this is the name of a setting.
fn is_name(key: &str) -> bool
    ensures { result ≡ list_any (λ name. bytes_eq name key.now) setting_names }
{
    NAMES.contains(&key)
}

// Whether each key is the name of a setting.
fn has_names(table: &Table) -> bool
    ensures { result ≡ has_only setting_names (table_view table.now) }
{
    table.keys().all(|key| is_name(key.as_str()))
}

// What a table gives, by the standard settings, with the value of `publish`.
fn settings_of(table: &Table, standard: &Settings, publish: Prefix) -> Option<Settings>
    requires { Gives (table_view table.now) (codes "publish") (string_up_to 1024) standard.now.publish publish }
    ensures each { IfSome result (λ settings. GivesEach standard.now (table_view table.now) settings) }
    ensures none { result ≡ None → (settings : Settings) → GivesEach standard.now (table_view table.now) settings → ⊥ }
{
    Some(Settings {
        file_size: number_at(table, "file_size", 4096, 16_777_216, standard.file_size)?,
        compact_below: number_at(table, "compact_below", 1, 99, standard.compact_below)?,
        queue: count_at(table, "queue", 1, 65_536, standard.queue)?,
        nodes: count_at(table, "nodes", 8, 65_536, standard.nodes)?,
        hash_bits: bits_at(table, "hash_bits", 32, standard.hash_bits)?,
        sync_writes: truth_at(table, "sync_writes", standard.sync_writes)?,
        mode: mode_at(table, "mode", standard.mode)?,
        behind_limit: count_at(table, "behind_limit", 1, 65_536, standard.behind_limit)?,
        max_entries: count_at(table, "max_entries", 1, 1_000_000, standard.max_entries)?,
        pump: number_at(table, "pump", 0, 1000, standard.pump)?,
        preload: truth_at(table, "preload", standard.preload)?,
        publish,
        activation: activation_at(table, "activation", standard.activation)?,
    })
}

// Whether what isn't built yet is at its standard setting.
fn are_in_force(standard: &Settings, settings: &Settings) -> bool
    ensures { result ≡ true ↔ AreInForce standard.now settings.now }
{
    settings.nodes == standard.nodes
        && settings.mode == standard.mode
        && settings.behind_limit == standard.behind_limit
        && settings.max_entries == standard.max_entries
        && settings.preload == standard.preload
        && settings.publish.bytes() == standard.publish.bytes()
        && settings.activation == standard.activation
}

// The settings of a table, by the standard ones.
fn read_table(alloc: Global, table: &Table, standard: &Settings) -> Result<Settings, SettingsFault>
    ensures gives { IfOk result (λ settings. GivesSettings standard.now (table_view table.now) settings) }
    ensures wrong { IfErr result (λ fault. fault ≡ Wrong → (settings : Settings) → GivesSettings standard.now (table_view table.now) settings → ⊥) }
{
    if !has_names(table) {
        return Err(SettingsFault::Wrong);
    }
    let Some(bytes) = string_at(table, "publish", PUBLISH_LIMIT, standard.publish.bytes()) else {
        return Err(SettingsFault::Wrong);
    };
    let Ok(publish) = Prefix::of(alloc, bytes) else {
        return Err(SettingsFault::Memory);
    };
    let Some(settings) = settings_of(table, standard, publish) else {
        return Err(SettingsFault::Wrong);
    };
    if are_in_force(standard, &settings) {
        Ok(settings)
    } else {
        Err(SettingsFault::Wrong)
    }
}

/// The settings of a settings file's bytes, which are its whole content.
pub fn read_settings(alloc: Global, bytes: &[u8]) -> Result<Settings, SettingsFault>
    // What the document says, and the defaults elsewhere.
    ensures says { IfOk result (λ settings. IsSettingsFile bytes.now settings) }
    // Wrong only where the bytes are no such document.
    ensures wrong { IfErr result (λ fault. fault ≡ Wrong → (settings : Settings) → IsSettingsFile bytes.now settings → ⊥) }
    ensures in_range { IfOk result (λ settings. AreInRange settings) }
{
    if bytes.len() > FILE_LIMIT {
        return Err(SettingsFault::Wrong);
    }
    let Ok(standard) = Settings::defaults(alloc) else {
        return Err(SettingsFault::Memory);
    };
    match toml::table_from_slice(alloc, bytes) {
        Ok(table) => read_table(alloc, &table, &standard),
        Err(error) if error.is_memory() => Err(SettingsFault::Memory),
        Err(_) => Err(SettingsFault::Wrong),
    }
}

#[cfg(test)]
mod tests;
