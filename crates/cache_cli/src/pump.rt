// The background steps behind each answer.
ghost use Rattle.std.specs.Prelude.{◌≡◌, ◌+◌, ◌≤◌, ℕ, Bool, List, IsTrue, OnOk, suc};
ghost use Rattle.cache_model.specs.declared.commands.StepKind.TheVariants.{Index};
ghost use Rattle.cache_session.specs.Turns.{store_of, moment_of, is_broken, IsFit};
ghost use Rattle.cache_cli.specs.Causes.{HasHostCause};
ghost use Rattle.cache_cli.specs.Pump.{step_behind, background_step};
ghost use Rattle.cache_cli.specs.Talk.{Course, Talk, asked_in};
ghost use Rattle.cache_cli.specs.Run.{view_by, IsPumping, Pumped};
ghost use Rattle.cache_cli.specs.Steps.{IsPaced};

use crate::saying::end_by;
use cache_disk::Host;
use cache_model::{Status, StepKind};
use cache_session::{Event, Session};
use std::alloc::Global;
use store_trait::FileStore;

/// The background steps behind each answer, in their repeated order, which goes on from one answer to the next.
#[derive(Debug, Drop)]
pub struct Pump {
    /// How many follow an answer.
    count: u64,
    /// The one that comes next.
    next: StepKind,
}

/// The step that comes behind another.
fn step_behind(kind: StepKind) -> StepKind
    ensures { result ≡ step_behind kind }
{
    match kind {
        StepKind::Index => StepKind::Flush,
        StepKind::Flush => StepKind::Compact,
        StepKind::Compact => StepKind::Reap,
        StepKind::Reap | StepKind::Evict | StepKind::Rotate => StepKind::Index,
    }
}

impl Pump {
    /// So many steps behind each answer, none of which was taken yet.
    pub fn new(count: u64) -> Pump
        ensures count { result.count ≡ count }
        ensures next { result.next ≡ Index }
    {
        Pump {
            count,
            next: StepKind::Index,
        }
    }
}

// Takes the next background step.
fn take_step<H: Host, S: FileStore<H>>(
    alloc: Global,
    session: &mut Session<S>,
    pump: &mut Pump,
    host: &mut H,
) -> Result<(), Status>
    requires fit { IsFit (S.facts (store_of session.old)) (is_broken session.old) (moment_of session.old) }
    requires stands { IsTrue H.tells → (S.means (store_of session.old) (H.state host.old)).stands }
    ensures count { pump.new.count ≡ pump.old.count }
    ensures next { pump.new.next ≡ step_behind pump.old.next }
    ensures fit { OnOk result (IsFit (S.facts (store_of session.new)) (is_broken session.new) (moment_of session.new)) }
    ensures stands { IsTrue H.tells → OnOk result (S.means (store_of session.new) (H.state host.new)).stands }
    ensures pumped { IsTrue H.tells → (from : H) (course : Course) (ordered : Bool) (left : List (List ℕ)) (talk : Talk) (taken : ℕ)
        → IsPumping (H.state from) course ordered left talk taken (view_by S.facts S.means session.old (H.state host.old))
        → pump.old.next ≡ background_step taken → suc taken ≤ asked_in course talk
        → Pumped (H.state from) course ordered left talk (suc taken) (view_by S.facts S.means session.new (H.state host.new)) result }
    ensures cause { HasHostCause (H.state host.old) (H.state host.new) result }
{
    let kind = pump.next;
    pump.next = step_behind(kind);
    match session.turn(host, Event::Actor(kind)) {
        Ok(_) => Ok(()),
        Err(fault) => Err(end_by(alloc, host, fault)),
    }
}

/// Takes the background steps behind an answer.
pub fn take_steps<H: Host, S: FileStore<H>>(
    alloc: Global,
    session: &mut Session<S>,
    pump: &mut Pump,
    host: &mut H,
) -> Result<(), Status>
    requires fit { IsFit (S.facts (store_of session.old)) (is_broken session.old) (moment_of session.old) }
    requires stands { IsTrue H.tells → (S.means (store_of session.old) (H.state host.old)).stands }
    ensures fit { OnOk result (IsFit (S.facts (store_of session.new)) (is_broken session.new) (moment_of session.new)) }
    ensures stands { IsTrue H.tells → OnOk result (S.means (store_of session.new) (H.state host.new)).stands }
    ensures paced { (course : Course) (taken : ℕ) → IsPaced course taken pump.old → OnOk result (IsPaced course (taken + course.pace.pump) pump.new) }
    ensures pumped { IsTrue H.tells → (from : H) (course : Course) (ordered : Bool) (left : List (List ℕ)) (talk : Talk) (taken : ℕ)
        → IsPumping (H.state from) course ordered left talk taken (view_by S.facts S.means session.old (H.state host.old))
        → IsPaced course taken pump.old → asked_in course talk ≡ taken + course.pace.pump
        → Pumped (H.state from) course ordered left talk (asked_in course talk) (view_by S.facts S.means session.new (H.state host.new)) result }
    ensures cause { HasHostCause (H.state host.old) (H.state host.new) result }
{
    'steps: for _ in 0..pump.count {
        take_step(alloc, session, pump, host)?;
    }
    Ok(())
}
