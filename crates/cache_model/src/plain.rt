// The plain map as a program: plain and slow, so that a reader can compare it with its definition line by line.
ghost use Rattle.std.specs.Prelude.{◌≡◌, ℕ, ◌<◌, ◌≤◌, ◌^◌, [], length, vec_len, filter, nat_eq, IfOk, IfErr, OnOk, OnErr, option_copied, if◌then◌else◌};
ghost use Rattle.std.specs.List.{list_any, starts_with, insert};
ghost use Rattle.std.specs.Str.{bytes_eq};
ghost use Rattle.std.specs.Ordering.{nat_cmp};
ghost use Rattle.std.specs.Cmp.Lexicographic.{slice_cmp};
ghost use Rattle.std.specs.FinMap as map;
ghost use Rattle.cache_model.specs.Plain.{is_visible, until_of, sees, sees_value, visible_entry, visible_keys, put_now, removes, plain_after, plain_reply, found};
ghost use Rattle.cache_model.specs.PlainCache.{plain_with, count_below};
ghost use Rattle.cache_model.specs.Commands.{IsLifespan, IsCommand};
ghost use Rattle.cache_model.specs.declared.faults.ModelFault.TheVariants.{Memory};
ghost use Rattle.cache_model.specs.declared.commands.Command.TheVariants.{At, PutAbsent, Replace, ReplaceIf, Remove, RemoveIf, Clear, Export};
ghost use Rattle.cache_model.specs.declared.replies.Reply.TheVariants.{Differs, Nothing, Yes, No};

use crate::{Command, Entry, Key, KeyList, Lifespan, ModelFault, Prefix, Reply, Until, Value};
use std::alloc::Global;
use std::marker::Model;

/// The plain map and the session's moment. It's slow: each call goes over all entries.
#[derive(Debug, Drop)]
pub struct PlainCache {
    entries: Vec<(Key, Entry)>,
    moment: u64,
}

impl Model for PlainCache {
    ghost use Rattle.std.specs.Prelude.{ℕ, ◌<◌, ◌^◌, IsTrue};
    ghost use Rattle.std.specs.Ordering.{nat_cmp};
    ghost use Rattle.std.specs.Cmp.Lexicographic.{slice_cmp};
    ghost use Rattle.std.specs.FinMap.{is_sorted, from_sorted};
    ghost use Rattle.cache_model.specs.Plain.{Plain};
    ghost use Rattle.cache_model.specs.PlainCache.{plain_code};

    ghost Value = { Plain };

    ghost coded = { plain_code };

    ghost view = { λ cache. record { entries = from_sorted cache.entries.items; moment = cache.moment } };

    ghost invariant = { λ cache. IsTrue (is_sorted (slice_cmp nat_cmp) cache.entries.items) × (cache.moment < 2 ^ 61) };
}

/// Whether an entry that ends so is visible at a moment.
fn is_visible(until: Until, moment: u64) -> bool
    ensures { result ≡ is_visible until moment }
{
    match until {
        Until::Never => true,
        Until::At(end) => moment < end,
    }
}

/// When an entry ends that is put at a moment.
fn until_of(moment: u64, lifespan: Lifespan) -> Until
    requires moment { moment < 2 ^ 61 }
    requires lifespan { IsLifespan lifespan }
    ensures { result ≡ until_of moment lifespan }
{
    match lifespan {
        Lifespan::Endless => Until::Never,
        Lifespan::Of(units) => Until::At(moment + units),
    }
}

/// The entry under a key, whether it is visible or not.
fn find<'a>(entries: &'a [(Key, Entry)], key: &Key) -> Option<&'a Entry>
    ensures { option_copied result ≡ map.find (slice_cmp nat_cmp) key.now entries.now }
{
    for (other, entry) in entries {
        if key.bytes() == other.bytes() {
            return Some(entry);
        }
    }
    None
}

/// How many entries stand before the place of a key.
fn place(entries: &[(Key, Entry)], key: &Key) -> usize
    ensures { result ≡ count_below key.now entries.now }
{
    let mut at = 0;
    while at < entries.len() && key.bytes().cmp(entries[at].0.bytes()).is_gt() {
        at += 1;
    }
    at
}

/// Whether a key is among these.
fn is_among(keys: &[Key], key: &Key) -> bool
    ensures { result ≡ list_any (bytes_eq key.now) keys.now }
{
    keys.iter().any(|other| key.bytes() == other.bytes())
}

/// Puts an entry in front of the one at a place, or at the end.
fn insert_entry(
    entries: &mut Vec<(Key, Entry)>,
    at: usize,
    key: Key,
    entry: Entry,
) -> Result<(), ModelFault>
    requires { at ≤ vec_len entries.old }
    ensures put { OnOk result (entries.new.items ≡ insert entries.old.items at (key, entry)) }
    ensures left { OnErr result (entries.new.items ≡ entries.old.items) }
    ensures memory { IfErr result (λ fault. fault ≡ Memory) }
{
    match entries.insert(at, (key, entry)) {
        Ok(()) => Ok(()),
        Err(_) => Err(ModelFault::Memory),
    }
}

/// Puts an entry in its place, where one under the same key gives way.
fn put_entry(entries: &mut Vec<(Key, Entry)>, key: Key, entry: Entry) -> Result<(), ModelFault>
    ensures put { OnOk result (entries.new.items ≡ map.put (slice_cmp nat_cmp) key entry entries.old.items) }
    ensures left { OnErr result (entries.new.items ≡ entries.old.items) }
    ensures memory { IfErr result (λ fault. fault ≡ Memory) }
{
    let at = place(entries, &key);
    if at < entries.len() && key.bytes() == entries[at].0.bytes() {
        entries[at].1 = entry;
        return Ok(());
    }
    insert_entry(entries, at, key, entry)
}

/// How many of these keys begin with a prefix.
fn count_admitted(keys: &[Key], publish: &Prefix) -> usize
    ensures { result ≡ length (filter (λ key. starts_with nat_eq key publish.now) keys.now) }
{
    keys.iter()
        .filter(|key| key.bytes().starts_with(publish.bytes()))
        .count()
}

impl PlainCache {
    ghost use Rattle.cache_model.specs.Plain.{Plain};

    /// An empty map at a moment.
    pub fn new(alloc: Global, moment: u64) -> PlainCache
        requires { moment < 2 ^ 61 }
        ensures { result ≡ record { entries = map.empty; moment = moment } }
    {
        PlainCache {
            entries: Vec::new(alloc),
            moment,
        }
    }

    /// The entry of a key, where it is visible.
    pub fn visible_entry(&self, key: &Key) -> Option<&Entry>
        ensures { option_copied result ≡ visible_entry self.now key.now }
    {
        let entry = find(&self.entries, key)?;
        if is_visible(entry.until, self.moment) {
            Some(entry)
        } else {
            None
        }
    }

    /// The visible keys, in the order of their bytes.
    pub fn visible_keys(&self) -> Result<KeyList, ModelFault>
        ensures keys { IfOk result (λ keys. keys ≡ visible_keys self.now) }
        ensures memory { IfErr result (λ fault. fault ≡ Memory) }
    {
        let mut keys = KeyList::new(*self.entries.allocator());
        for (key, entry) in &self.entries {
            if is_visible(entry.until, self.moment) {
                keys.push(key.copy()?)?;
            }
        }
        Ok(keys)
    }

    /// Does a command. `None` is answered where the plain map doesn't say what the reply is.
    pub fn step(&mut self, publish: &Prefix, command: Command) -> Result<Option<Reply>, ModelFault>
        requires { IsCommand command }
        ensures done { OnOk result (self.new ≡ plain_after self.old command) }
        ensures reply { IfOk result (λ reply. reply ≡ plain_reply publish.now self.old command) }
        ensures left { OnErr result (self.new ≡ self.old) }
        ensures memory { IfErr result (λ fault. fault ≡ Memory) }
    {
        match command {
            Command::At(moment) => Ok(Some(self.at(moment))),
            Command::Put(key, value, lifespan) => {
                self.put(key, value, lifespan)?;
                Ok(Some(Reply::Done))
            }
            Command::PutAbsent(key, value, lifespan) => {
                Ok(Some(self.put_absent(key, value, lifespan)?))
            }
            Command::Replace(key, value, lifespan) => {
                Ok(Some(self.replace(key, value, lifespan)?))
            }
            Command::ReplaceIf(key, old, value, lifespan) => {
                Ok(Some(self.replace_if(key, &old, value, lifespan)?))
            }
            Command::Get(key) => Ok(Some(self.get(&key)?)),
            Command::Has(key) => Ok(Some(self.has(&key))),
            Command::Remove(key) => Ok(Some(self.remove(key))),
            Command::RemoveIf(key, old) => Ok(Some(self.remove_if(key, &old))),
            Command::Size => Ok(Some(Reply::Size(self.visible_keys()?.keys().len() as u64))),
            Command::Keys => Ok(Some(Reply::Keys(self.visible_keys()?))),
            Command::Clear => Ok(Some(self.clear()?)),
            Command::Export => Ok(Some(self.export(publish)?)),
            Command::Evict(_) | Command::Sync => Ok(Some(Reply::Done)),
            Command::CompactAll => Ok(Some(Reply::Compacted)),
            Command::Stop => Ok(Some(Reply::Stopped)),
            Command::Halt => Ok(Some(Reply::Halted)),
            Command::Step(_) | Command::CompactFile(_) | Command::Stats => Ok(None),
        }
    }

    fn sees(&self, key: &Key) -> bool
        ensures { result ≡ sees self.now key.now }
    {
        self.visible_entry(key).is_some()
    }

    fn sees_value(&self, key: &Key, value: &Value) -> bool
        ensures { result ≡ sees_value self.now key.now value.now }
    {
        match self.visible_entry(key) {
            Some(entry) => entry.value.bytes() == value.bytes(),
            None => false,
        }
    }

    fn at(&mut self, moment: u64) -> Reply
        requires { moment < 2 ^ 61 }
        ensures done { self.new ≡ plain_after self.old (At moment) }
        ensures reply { Some result ≡ plain_reply [] self.old (At moment) }
    {
        if moment < self.moment {
            return Reply::Past(self.moment);
        }
        self.moment = moment;
        Reply::Done
    }

    fn put(&mut self, key: Key, value: Value, lifespan: Lifespan) -> Result<(), ModelFault>
        requires { IsLifespan lifespan }
        ensures done { OnOk result (self.new ≡ plain_with self.old (put_now self.old key value lifespan)) }
        ensures left { OnErr result (self.new ≡ self.old) }
        ensures memory { IfErr result (λ fault. fault ≡ Memory) }
    {
        let until = until_of(self.moment, lifespan);
        put_entry(&mut self.entries, key, Entry { value, until })
    }

    fn put_absent(
        &mut self,
        key: Key,
        value: Value,
        lifespan: Lifespan,
    ) -> Result<Reply, ModelFault>
        requires { IsLifespan lifespan }
        ensures done { OnOk result (self.new ≡ plain_after self.old (PutAbsent key value lifespan)) }
        ensures reply { IfOk result (λ reply. Some reply ≡ plain_reply [] self.old (PutAbsent key value lifespan)) }
        ensures left { OnErr result (self.new ≡ self.old) }
        ensures memory { IfErr result (λ fault. fault ≡ Memory) }
    {
        if self.sees(&key) {
            return Ok(Reply::Kept);
        }
        self.put(key, value, lifespan)?;
        Ok(Reply::Done)
    }

    fn replace(&mut self, key: Key, value: Value, lifespan: Lifespan) -> Result<Reply, ModelFault>
        requires { IsLifespan lifespan }
        ensures done { OnOk result (self.new ≡ plain_after self.old (Replace key value lifespan)) }
        ensures reply { IfOk result (λ reply. Some reply ≡ plain_reply [] self.old (Replace key value lifespan)) }
        ensures left { OnErr result (self.new ≡ self.old) }
        ensures memory { IfErr result (λ fault. fault ≡ Memory) }
    {
        if !self.sees(&key) {
            return Ok(Reply::Nothing);
        }
        self.put(key, value, lifespan)?;
        Ok(Reply::Done)
    }

    fn replace_if(
        &mut self,
        key: Key,
        old: &Value,
        value: Value,
        lifespan: Lifespan,
    ) -> Result<Reply, ModelFault>
        requires { IsLifespan lifespan }
        ensures done { OnOk result (self.new ≡ plain_after self.old (ReplaceIf key old.now value lifespan)) }
        ensures reply { IfOk result (λ reply. Some reply ≡ plain_reply [] self.old (ReplaceIf key old.now value lifespan)) }
        ensures left { OnErr result (self.new ≡ self.old) }
        ensures memory { IfErr result (λ fault. fault ≡ Memory) }
    {
        if !self.sees_value(&key, old) {
            return Ok(self.refusal(&key));
        }
        self.put(key, value, lifespan)?;
        Ok(Reply::Done)
    }

    /// The reply where a key hasn't the value that is wanted.
    fn refusal(&self, key: &Key) -> Reply
        ensures { result ≡ (if sees self.now key.now then Differs else Nothing) }
    {
        if self.sees(key) {
            Reply::Differs
        } else {
            Reply::Nothing
        }
    }

    fn get(&self, key: &Key) -> Result<Reply, ModelFault>
        ensures reply { IfOk result (λ reply. reply ≡ found (visible_entry self.now key.now)) }
        ensures memory { IfErr result (λ fault. fault ≡ Memory) }
    {
        match self.visible_entry(key) {
            Some(entry) => Ok(Reply::Found(entry.value.copy()?)),
            None => Ok(Reply::Nothing),
        }
    }

    fn has(&self, key: &Key) -> Reply
        ensures { result ≡ (if sees self.now key.now then Yes else No) }
    {
        if self.sees(key) {
            Reply::Yes
        } else {
            Reply::No
        }
    }

    /// Takes the entries of these keys away.
    fn remove_keys(&mut self, keys: &[Key])
        ensures { self.new ≡ plain_with self.old (removes keys.now) }
    {
        self.entries.retain(|entry| !is_among(keys, &entry.0));
    }

    fn remove(&mut self, key: Key) -> Reply
        ensures done { self.new ≡ plain_after self.old (Remove key) }
        ensures reply { Some result ≡ plain_reply [] self.old (Remove key) }
    {
        if !self.sees(&key) {
            return Reply::Nothing;
        }
        self.remove_keys(&[key]);
        Reply::Done
    }

    fn remove_if(&mut self, key: Key, old: &Value) -> Reply
        ensures done { self.new ≡ plain_after self.old (RemoveIf key old.now) }
        ensures reply { Some result ≡ plain_reply [] self.old (RemoveIf key old.now) }
    {
        if !self.sees_value(&key, old) {
            return self.refusal(&key);
        }
        self.remove_keys(&[key]);
        Reply::Done
    }

    fn clear(&mut self) -> Result<Reply, ModelFault>
        ensures done { OnOk result (self.new ≡ plain_after self.old Clear) }
        ensures reply { IfOk result (λ reply. Some reply ≡ plain_reply [] self.old Clear) }
        ensures left { OnErr result (self.new ≡ self.old) }
        ensures memory { IfErr result (λ fault. fault ≡ Memory) }
    {
        let keys = self.visible_keys()?;
        self.remove_keys(keys.keys());
        Ok(Reply::Cleared(keys.keys().len() as u64))
    }

    fn export(&self, publish: &Prefix) -> Result<Reply, ModelFault>
        ensures reply { IfOk result (λ reply. Some reply ≡ plain_reply publish.now self.now Export) }
        ensures memory { IfErr result (λ fault. fault ≡ Memory) }
    {
        let keys = self.visible_keys()?;
        Ok(Reply::Exported(count_admitted(keys.keys(), publish) as u64))
    }
}
