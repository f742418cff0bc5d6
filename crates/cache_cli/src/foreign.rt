// Whether a directory holds files that the program doesn't know how to open yet.
ghost use Rattle.std.specs.Prelude.{◌≡◌, ◌⊎◌, ◌↔◌, true, IsTrue, IfOk, IfErr};
ghost use Rattle.cache_model.specs.declared.replies.Status.TheVariants as status;
ghost use Rattle.cache_disk.specs.State.{Stands};
ghost use Rattle.cache_cli.specs.Causes.{HasHostCause};
ghost use Rattle.cache_cli.specs.Foreign.{is_foreign_kind, has_foreign, IsForeign};

use cache_disk::{Host, HostFault};
use cache_model::{FileKind, FileName, Status};

// Whether a file of this kind is an index or a base file.
fn is_foreign_kind(kind: FileKind) -> bool
    ensures { result ≡ is_foreign_kind kind }
{
    match kind {
        FileKind::Rules | FileKind::Log => false,
        FileKind::Tree | FileKind::Base => true,
    }
}

// Whether an index or a base file is among these.
fn has_foreign(names: &[FileName]) -> bool
    ensures { result ≡ has_foreign names.now }
{
    names.iter().any(|name| is_foreign_kind(name.kind))
}

/// Whether the directory holds an index or a base file. Nothing is changed.
pub fn is_foreign<H: Host>(host: &mut H) -> Result<bool, Status>
    ensures stands { IsTrue H.tells → Stands (H.state host.old) (H.state host.new) }
    ensures foreign { IsTrue H.tells → IfOk result (λ foreign. (foreign ≡ true ↔ IsForeign (H.state host.old).files)) }
    ensures refused { IfErr result (λ ended. (ended ≡ status.DiskFailed) ⊎ (ended ≡ status.NoMemory)) }
    ensures cause { HasHostCause (H.state host.old) (H.state host.new) result }
{
    match host.names() {
        Ok(names) => Ok(has_foreign(&names)),
        Err(HostFault::Failed) => Err(Status::DiskFailed),
        Err(HostFault::Memory) => Err(Status::NoMemory),
    }
}
