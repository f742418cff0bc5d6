// A session over any store.
ghost use Rattle.std.specs.Prelude.{◌≡◌, ◌||◌, IsTrue, false, if◌then◌else◌, nat_lt};
ghost use Rattle.cache_disk.specs.Calls.{HasStoreCause};
ghost use Rattle.cache_model.specs.Commands.{IsCommand};
ghost use Rattle.cache_model.specs.declared.replies.Reply.TheVariants.{Past, Done};
ghost use Rattle.cache_session.specs.Turns.{store_of, moment_of, is_broken, command_of, IsBuilt, IsFit, Goes, TurnsShown};

use crate::Event;
use crate::conditions::{put_absent, remove, remove_if, replace, replace_if};
use crate::files::{compact_all, compact_file, stats};
use crate::reads::{get, has};
use crate::walks::{clear, keys, size};
use crate::writes::{put, step, stop, sync};
use cache_disk::Host;
use cache_model::{Command, Reply, StoreFault};
use std::alloc::Global;
use store_trait::{FileStore, Keyed};

/// A store with the moment of the commands on it.
///
/// After a fault that leaves it spoilt it isn't used again.
#[derive(Drop)]
pub struct Session<S> {
    pub(crate) alloc: Global,
    pub(crate) store: S,
    pub(crate) moment: u64,
    /// Whether a turn stopped halfway.
    pub(crate) broken: bool,
}

/// The command that an event is.
fn command_of(event: Event) -> Command
    ensures { result ≡ command_of event }
{
    match event {
        Event::Client(command) => command,
        Event::Actor(kind) => Command::Step(kind),
    }
}

/// The moment after it was asked to be one.
fn later_of(moment: u64, wanted: u64) -> u64
    ensures { result ≡ (if nat_lt wanted moment then moment else wanted) }
{
    if wanted < moment { moment } else { wanted }
}

/// The reply to a moment that was asked for.
fn moment_reply(moment: u64, wanted: u64) -> Reply
    ensures { result ≡ (if nat_lt wanted moment then Past moment else Done) }
{
    if wanted < moment {
        Reply::Past(moment)
    } else {
        Reply::Done
    }
}

impl<S> Session<S> {
    /// A session over a store, at a moment.
    pub fn new(alloc: Global, store: S, moment: u64) -> Session<S>
        ensures store { store_of result ≡ store }
        ensures moment { moment_of result ≡ moment }
        ensures whole { is_broken result ≡ false }
    {
        Session {
            alloc,
            store,
            moment,
            broken: false,
        }
    }

    /// The moment of the session.
    pub fn moment(&self) -> u64
        ensures { result ≡ moment_of self.now }
    {
        self.moment
    }

    /// Whether the session may be used no more.
    pub fn is_spoilt(&self) -> bool
    where
        S: Keyed,
        ensures { result ≡ (is_broken self.now || (S.facts (store_of self.now)).spoilt) }
    {
        self.broken || self.store.is_spoilt()
    }

    /// Takes a turn: does a command of the script, or a step of a background actor.
    pub fn turn<H: Host>(&mut self, host: &mut H, event: Event) -> Result<Reply, StoreFault>
    where
        S: FileStore<H>,
        requires fit { IsFit (S.facts (store_of self.old)) (is_broken self.old) (moment_of self.old) }
        requires stands { IsTrue H.tells → (S.means (store_of self.old) (H.state host.old)).stands }
        requires command { IsCommand (command_of event) }
        requires built { IsBuilt (command_of event) }
        ensures goes { Goes (command_of event) (S.facts (store_of self.old)) (S.facts (store_of self.new)) (moment_of self.old) (moment_of self.new) (is_broken self.new) result }
        ensures stands { IsTrue H.tells → (is_broken self.new || (S.facts (store_of self.new)).spoilt) ≡ false → (S.means (store_of self.new) (H.state host.new)).stands }
        ensures turns { IsTrue H.tells → TurnsShown (command_of event) (S.facts (store_of self.old)) (S.facts (store_of self.new)) (is_broken self.new || (S.facts (store_of self.new)).spoilt)
            (S.means (store_of self.old) (H.state host.old)) (S.means (store_of self.new) (H.state host.new)) (H.state host.old) (H.state host.new) (moment_of self.old) result }
        ensures cause { HasStoreCause (H.state host.old) (H.state host.new) result }
    {
        let moment = self.moment;
        let store = &mut self.store;
        match command_of(event) {
            Command::At(wanted) => {
                self.moment = later_of(moment, wanted);
                Ok(moment_reply(moment, wanted))
            }
            Command::Put(key, value, lifespan) => put(store, host, key, value, lifespan, moment),
            Command::PutAbsent(key, value, lifespan) => {
                put_absent(store, host, key, value, lifespan, moment)
            }
            Command::Replace(key, value, lifespan) => {
                replace(store, host, key, value, lifespan, moment)
            }
            Command::ReplaceIf(key, old, value, lifespan) => {
                replace_if(store, host, key, old, value, lifespan, moment)
            }
            Command::Get(key) => get(store, host, &key, moment),
            Command::Has(key) => has(store, host, &key, moment),
            Command::Remove(key) => remove(store, host, key, moment),
            Command::RemoveIf(key, old) => remove_if(store, host, key, old, moment),
            Command::Size => size(store, host, moment),
            Command::Keys => keys(store, host, self.alloc, moment),
            Command::Clear => clear(store, host, &mut self.broken, moment),
            Command::Step(kind) => step(store, host, &mut self.broken, kind, moment),
            Command::Evict(_) => Ok(Reply::Done),
            Command::Sync => sync(store, host, moment),
            Command::Stop => stop(store, host, moment),
            Command::Halt => Ok(Reply::Halted),
            Command::Stats => stats(store, host, moment),
            Command::CompactFile(file) => compact_file(store, host, file, moment),
            Command::CompactAll => compact_all(store, host, moment),
            Command::Export => unreachable!(),
        }
    }
}
