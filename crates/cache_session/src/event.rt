// What a session is asked.
use cache_model::{Command, StepKind};

/// What takes a turn of a session.
#[derive(Debug, Drop)]
pub enum Event {
    /// A line of the script asks for this.
    Client(Command),
    /// A background actor takes a step.
    Actor(StepKind),
}
