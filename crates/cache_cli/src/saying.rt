// What a run says: the lines of its answers.
ghost use Rattle.std.specs.Prelude.{◌≡◌, ◌++◌, [], ◌∷◌, ℕ, Bool, List, Err, IfOk, IsTrue};
ghost use Rattle.cache_model.specs.Replies.{reply_text, refusal_text, line_of};
ghost use Rattle.cache_script.specs.Refusals.{refusal_of};
ghost use Rattle.cache_model.specs.declared.replies.Reply.{Reply};
ghost use Rattle.cache_disk.specs.Calls.{HasStoreCause};
ghost use Rattle.cache_session.specs.Turns.{store_of};
ghost use Rattle.cache_cli.specs.Causes.{HostCauseOf, HasHostCause};
ghost use Rattle.cache_cli.specs.Saying.{SaidBy, ended_by, IsNoDamage};
ghost use Rattle.cache_cli.specs.Talk.{Course, Talk};
ghost use Rattle.cache_cli.specs.Run.{view_by, IsInHand, Told};
ghost use Rattle.cache_cli.specs.Serving.{IsStill, TellsDamage};

use cache_disk::{Host, HostFault};
use cache_model::{Damage, ModelFault, Reply, Status, StoreFault};
use cache_script::{LineFault, damaged_line, file_name_text, write_fault, write_reply};
use cache_session::Session;
use std::alloc::Global;
use store_trait::Store;

/// Says some bytes at once.
pub fn say<H: Host>(host: &mut H, bytes: &[u8]) -> Result<(), Status>
    ensures told { IsTrue H.tells → SaidBy bytes.now (H.state host.old) (H.state host.new) result }
    ensures cause { HasHostCause (H.state host.old) (H.state host.new) result }
{
    match host.say(bytes) {
        Ok(()) => Ok(()),
        Err(HostFault::Failed) => Err(Status::SayFailed),
        Err(HostFault::Memory) => Err(Status::NoMemory),
    }
}

/// Says an answer of a session, which stands on.
pub fn say_answer<H: Host, S: Store<H>>(
    session: &Session<S>,
    host: &mut H,
    bytes: &[u8],
) -> Result<(), Status>
    ensures stands { IsTrue H.tells → (S.means (store_of session.now) (H.state host.old)).stands → (S.means (store_of session.now) (H.state host.new)).stands }
    ensures told { IsTrue H.tells → (from : H) (course : Course) (ordered : Bool) (left : List (List ℕ)) (talk : Talk) (taken : ℕ)
        → IsInHand (H.state from) course ordered left talk taken bytes.now (view_by S.facts S.means session.now (H.state host.old))
        → Told (H.state from) course ordered left talk taken (view_by S.facts S.means session.now (H.state host.old)) (view_by S.facts S.means session.now (H.state host.new)) result }
    ensures cause { HasHostCause (H.state host.old) (H.state host.new) result }
{
    say(host, bytes)
}

// The line of a reply.
fn reply_line(alloc: Global, reply: &Reply) -> Result<Vec<u8>, ModelFault>
    ensures { IfOk result (λ line. line.items ≡ line_of (reply_text reply.now)) }
{
    let mut line = Vec::new(alloc);
    write_reply(reply, &mut line)?;
    Ok(line)
}

// The line of a refusal.
fn refusal_line(alloc: Global, fault: &LineFault) -> Result<Vec<u8>, ModelFault>
    ensures { IfOk result (λ line. line.items ≡ line_of (refusal_text (refusal_of fault.now))) }
{
    let mut line = Vec::new(alloc);
    write_fault(fault, &mut line)?;
    Ok(line)
}

/// Says the reply to a command.
pub fn say_reply<H: Host, S: Store<H>>(
    alloc: Global,
    session: &Session<S>,
    host: &mut H,
    reply: &Reply,
) -> Result<(), Status>
    ensures stands { IsTrue H.tells → (S.means (store_of session.now) (H.state host.old)).stands → (S.means (store_of session.now) (H.state host.new)).stands }
    ensures told { IsTrue H.tells → (from : H) (course : Course) (ordered : Bool) (left : List (List ℕ)) (talk : Talk) (taken : ℕ)
        → IsInHand (H.state from) course ordered left talk taken (line_of (reply_text reply.now)) (view_by S.facts S.means session.now (H.state host.old))
        → Told (H.state from) course ordered left talk taken (view_by S.facts S.means session.now (H.state host.old)) (view_by S.facts S.means session.now (H.state host.new)) result }
    ensures cause { HasHostCause (H.state host.old) (H.state host.new) result }
{
    match reply_line(alloc, reply) {
        Ok(line) => say_answer(session, host, &line),
        Err(_) => Err(Status::NoMemory),
    }
}

/// Says why a line is refused.
pub fn say_refusal<H: Host, S: Store<H>>(
    alloc: Global,
    session: &Session<S>,
    host: &mut H,
    fault: &LineFault,
) -> Result<(), Status>
    ensures stands { IsTrue H.tells → (S.means (store_of session.now) (H.state host.old)).stands → (S.means (store_of session.now) (H.state host.new)).stands }
    ensures told { IsTrue H.tells → (from : H) (course : Course) (ordered : Bool) (left : List (List ℕ)) (talk : Talk) (taken : ℕ)
        → IsInHand (H.state from) course ordered left talk taken (line_of (refusal_text (refusal_of fault.now))) (view_by S.facts S.means session.now (H.state host.old))
        → Told (H.state from) course ordered left talk taken (view_by S.facts S.means session.now (H.state host.old)) (view_by S.facts S.means session.now (H.state host.new)) result }
    ensures cause { HasHostCause (H.state host.old) (H.state host.new) result }
{
    match refusal_line(alloc, fault) {
        Ok(line) => say_answer(session, host, &line),
        Err(_) => Err(Status::NoMemory),
    }
}

/// Says where the store is damaged, and what the run ends with.
pub fn tell_damage<H: Host>(alloc: Global, host: &mut H, damage: &Damage) -> Status
    ensures still { IsTrue H.tells → IsStill (H.state host.old) (H.state host.new) }
    ensures tells { IsTrue H.tells → TellsDamage result damage.now (H.state host.old) (H.state host.new) }
    ensures cause { HostCauseOf result (H.state host.old) (H.state host.new) }
{
    let Ok(file) = file_name_text(alloc, damage.file) else {
        return Status::NoMemory;
    };
    let Ok(line) = damaged_line(alloc, file.as_str(), damage) else {
        return Status::NoMemory;
    };
    match say(host, line.as_bytes()) {
        Ok(()) => Status::Damaged,
        Err(status) => status,
    }
}

/// What a fault of the store ends a run with. Where the store is damaged a line says so.
pub fn end_by<H: Host>(alloc: Global, host: &mut H, fault: StoreFault) -> Status
    ensures plain { IsNoDamage fault → (result ≡ ended_by fault) × (host.new ≡ host.old) }
    ensures cause { (from : H) → HasStoreCause {T = Reply} (H.state from) (H.state host.old) (Err fault) → HostCauseOf result (H.state from) (H.state host.new) }
{
    match fault {
        StoreFault::Failed => Status::DiskFailed,
        StoreFault::Memory => Status::NoMemory,
        StoreFault::Spent(_) => Status::Spent,
        StoreFault::Damaged(damage) => tell_damage(alloc, host, &damage),
    }
}
