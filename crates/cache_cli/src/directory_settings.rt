// The settings of a directory: those of its settings file, and the defaults where it has none.
ghost use Rattle.std.specs.Prelude.{◌≡◌, ◌+◌, ◌-◌, ◌<◌, ◌≤◌, ◌⊎◌, List, ℕ, length, take, Some, IsTrue, IfOk, IfErr, OnOk};
ghost use Rattle.cache_model.specs.declared.settings.Settings.{Settings};
ghost use Rattle.cache_model.specs.declared.replies.Status.TheVariants as status;
ghost use Rattle.cache_model.specs.Files.{file_in, bytes_in};
ghost use Rattle.cache_disk.specs.State.{Stands};
ghost use Rattle.cache_model.specs.Settings.{default_settings, AreInRange};
ghost use Rattle.data_file.specs.Windows.{AsksFor};
ghost use Rattle.cache_cli.specs.SettingsFile.{IsSettingsFile};
ghost use Rattle.cache_cli.specs.DirectorySettings.{settings_name, HasSettings, HasSettingsCause, IsFilled};

use crate::settings_file::{FILE_LIMIT, SettingsFault, read_settings};
use cache_disk::{Host, HostFault};
use cache_model::{FileKind, FileName, Settings, Status};
use std::alloc::Global;

/// The name of the settings file.
const NAME: FileName = FileName {
    kind: FileKind::Rules,
    store: 0,
    id: 0,
};

/// The settings of the directory. Nothing is changed, and nothing is said.
pub fn settings_in<H: Host>(alloc: Global, host: &mut H) -> Result<Settings, Status>
    ensures stands { IsTrue H.tells → Stands (H.state host.old) (H.state host.new) }
    // What the settings file says, and the defaults where there is none.
    ensures says { IsTrue H.tells → IfOk result (λ settings. HasSettings (H.state host.old).files settings) }
    // No other settings are those of the directory.
    ensures sole { IsTrue H.tells → IfOk result (λ settings. (other : Settings) → HasSettings (H.state host.old).files other → other ≡ settings) }
    // The status Settings only where the file is there and is no settings file.
    ensures wrong { IsTrue H.tells → IfErr result (λ ended. ended ≡ status.Settings → (settings : Settings) → HasSettings (H.state host.old).files settings → ⊥) }
    ensures in_range { IfOk result (λ settings. AreInRange settings) }
    // As many bytes are asked for as the file has, where no read gives fewer than it could.
    ensures asked { IsTrue H.tells → OnOk result (AsksFor (H.state host.old) (H.state host.new) (length (bytes_in (H.state host.old).files settings_name))) }
    ensures cause { HasSettingsCause (H.state host.old) (H.state host.new) result }
{
    match host.size(NAME) {
        Ok(None) => defaults(alloc),
        Ok(Some(size)) if size > FILE_LIMIT as u64 => Err(Status::Settings),
        Ok(Some(size)) => settings_of_file(alloc, host, size as usize),
        Err(HostFault::Failed) => Err(Status::DiskFailed),
        Err(HostFault::Memory) => Err(Status::NoMemory),
    }
}

// The settings where there is no settings file.
fn defaults(alloc: Global) -> Result<Settings, Status>
    ensures defaults { IfOk result (λ settings. settings ≡ default_settings) }
    ensures memory { IfErr result (λ ended. ended ≡ status.NoMemory) }
{
    match Settings::defaults(alloc) {
        Ok(settings) => Ok(settings),
        Err(_) => Err(Status::NoMemory),
    }
}

// The settings of a settings file's bytes.
fn settings_of_bytes(alloc: Global, bytes: &[u8]) -> Result<Settings, Status>
    ensures says { IfOk result (λ settings. IsSettingsFile bytes.now settings) }
    ensures wrong { IfErr result (λ ended. ended ≡ status.Settings → (settings : Settings) → IsSettingsFile bytes.now settings → ⊥) }
    ensures in_range { IfOk result (λ settings. AreInRange settings) }
    ensures refused { IfErr result (λ ended. (ended ≡ status.Settings) ⊎ (ended ≡ status.NoMemory)) }
{
    match read_settings(alloc, bytes) {
        Ok(settings) => Ok(settings),
        Err(SettingsFault::Wrong) => Err(Status::Settings),
        Err(SettingsFault::Memory) => Err(Status::NoMemory),
    }
}

// The settings of a settings file with so many bytes.
fn settings_of_file<H: Host>(alloc: Global, host: &mut H, size: usize) -> Result<Settings, Status>
    ensures stands { IsTrue H.tells → Stands (H.state host.old) (H.state host.new) }
    ensures says { IsTrue H.tells → (bytes : List ℕ) → file_in (H.state host.old).files settings_name ≡ Some bytes → length bytes ≡ size
        → IfOk result (λ settings. IsSettingsFile bytes settings) }
    ensures wrong { IsTrue H.tells → (bytes : List ℕ) → file_in (H.state host.old).files settings_name ≡ Some bytes → length bytes ≡ size
        → IfErr result (λ ended. ended ≡ status.Settings → (settings : Settings) → IsSettingsFile bytes settings → ⊥) }
    ensures in_range { IfOk result (λ settings. AreInRange settings) }
    ensures asked { IsTrue H.tells → length (bytes_in (H.state host.old).files settings_name) ≡ size → OnOk result (AsksFor (H.state host.old) (H.state host.new) size) }
    ensures cause { HasSettingsCause (H.state host.old) (H.state host.new) result }
{
    let Ok(mut buffer) = Vec::from_elem(alloc, 0, size) else {
        return Err(Status::NoMemory);
    };
    match fill(host, &mut buffer) {
        Ok(count) => settings_of_bytes(alloc, &buffer[..count]),
        Err(status) => Err(status),
    }
}

// Reads the settings file into a buffer, up to the end of either, and says how many bytes it read.
fn fill<H: Host>(host: &mut H, buffer: &mut [u8]) -> Result<usize, Status>
    ensures within { IfOk result (λ count. count ≤ length buffer.old) }
    ensures stands { IsTrue H.tells → Stands (H.state host.old) (H.state host.new) }
    ensures whole { IsTrue H.tells → length (bytes_in (H.state host.old).files settings_name) ≡ length buffer.old
        → IfOk result (λ count. take count buffer.new ≡ bytes_in (H.state host.old).files settings_name) }
    ensures refused { IfErr result (λ ended. (ended ≡ status.DiskFailed) ⊎ (ended ≡ status.NoMemory)) }
    ensures asked { IsTrue H.tells → length (bytes_in (H.state host.old).files settings_name) ≡ length buffer.old
        → OnOk result (AsksFor (H.state host.old) (H.state host.new) (length buffer.old)) }
    ensures cause { HasSettingsCause (H.state host.old) (H.state host.new) result }
{
    let mut done = 0;
    while done < buffer.len() {
        match read_more(host, buffer, done) {
            Ok(0) => break,
            Ok(count) => done += count,
            Err(status) => return Err(status),
        }
    }
    Ok(done)
}

// Reads bytes of the settings file behind so many that were read, and says how many.
fn read_more<H: Host>(host: &mut H, buffer: &mut [u8], done: usize) -> Result<usize, Status>
    requires { done < length buffer.old }
    ensures within { IfOk result (λ count. done + count ≤ length buffer.old) }
    ensures filled { IsTrue H.tells → (from : H) → IsFilled (H.state from) (H.state host.old) (bytes_in (H.state from).files settings_name) buffer.old done
        → IfOk result (λ count. IsFilled (H.state from) (H.state host.new) (bytes_in (H.state from).files settings_name) buffer.new (done + count)) }
    ensures refused { IfErr result (λ ended. (ended ≡ status.DiskFailed) ⊎ (ended ≡ status.NoMemory)) }
    ensures some { IsTrue H.tells → IfOk result (λ count. done < length (bytes_in (H.state host.old).files settings_name) → 0 < count) }
    ensures stands { IsTrue H.tells → Stands (H.state host.old) (H.state host.new) }
    ensures asked { IsTrue H.tells → (from : H) → Stands (H.state from) (H.state host.old) → length (bytes_in (H.state from).files settings_name) ≡ length buffer.old
        → AsksFor (H.state from) (H.state host.old) done → IfOk result (λ count. AsksFor (H.state from) (H.state host.new) (done + count)) }
    ensures cause { HasSettingsCause (H.state host.old) (H.state host.new) result }
{
    match host.read(NAME, done as u64, &mut buffer[done..]) {
        Ok(count) => Ok(count),
        Err(HostFault::Failed) => Err(Status::DiskFailed),
        Err(HostFault::Memory) => Err(Status::NoMemory),
    }
}

#[cfg(test)]
mod tests;
