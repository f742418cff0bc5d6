// The requests that wait for the index. Those whose keys share a bucket of the hash are chained, from the newest on.
ghost use Rattle.std.specs.Prelude.{◌≡◌, ◌↔◌, ◌≤◌, ◌<◌, ◌-◌, ◌%◌, ◌++◌, ◌==◌, IsTrue, List, [], ◌∷◌, length, None, Some, IfOk, IfErr, option_to_list, option_map, slice_get, count_by};
ghost use Rattle.std.specs.Option.{SomeIff};
ghost use Rattle.cache_model.specs.Hash.{hash};
ghost use Rattle.cache_model.specs.declared.faults.ModelFault.TheVariants.{Memory};
ghost use Rattle.temporary_table.specs.Queue.{key_of, raises, lowers, pushed};

use cache_model::{Key, ModelFault, Place, hash};
use std::alloc::Global;
use std::collections::VecDeque;
use std::marker::Model;

/// What the index is asked to do.
#[derive(Debug, PartialEq, Eq, Drop)]
pub enum Request {
    /// Put a place and raise the key's count by one.
    Set { key: Key, to: Place, gone: bool },
    /// Raise the key's count by one, and put a place where the other still stands.
    Swap { key: Key, from: Place, to: Place },
    /// Take the key out where this place still stands.
    Drop { key: Key, from: Place },
    /// Lower the key's count by one.
    Less { key: Key },
}

// A request that waits, and how many stand between it and the next older one of its bucket. Where no such one waits, the
// number says nothing.
#[derive(Drop)]
struct Queued {
    request: Request,
    between: usize,
}

/// The requests that wait, oldest first, no more than a limit. There are as many buckets as may wait.
#[derive(Drop)]
pub struct Requests {
    limit: usize,
    queue: VecDeque<Queued>,
    // How many were pushed. It goes on from 0 behind the greatest number.
    pushed: usize,
    // For each bucket what that was when its newest came. Where none of its requests waits, it says nothing.
    newest: Vec<usize>,
}

impl Model for Requests {
    ghost use Rattle.temporary_table.specs.Queue.{Queue};

    ghost Value = { Queue };

    ghost use Rattle.temporary_table.specs.Chains.{queue_of, IsSound};

    ghost view = { queue_of };

    ghost invariant = { IsSound };
}

// The bucket of a key, of so many.
fn bucket_of(key: &Key, buckets: usize) -> usize
    requires { 0 < buckets }
    ensures bucket { result ≡ hash 32 key.now % buckets }
    ensures within { result < buckets }
{
    hash(key, 32) as usize % buckets
}

// The position of the last of so many, once some are passed over.
fn position_below(count: usize, passed: usize) -> Option<usize>
    ensures { SomeIff result (passed < count) (count - 1 - passed) }
{
    count.checked_sub(passed)?.checked_sub(1)
}

impl Request {
    /// The key that the request names.
    pub fn key(&self) -> &Key
        ensures key { result.now ≡ key_of self.now }
    {
        match self {
            Request::Set { key, .. }
            | Request::Swap { key, .. }
            | Request::Drop { key, .. }
            | Request::Less { key } => key,
        }
    }

    // Whether it raises the count of a key.
    fn raises(&self, key: &Key) -> bool
        ensures { result ≡ raises key.now self.now }
    {
        match self {
            Request::Set { key: named, .. } => named == key,
            Request::Swap { key: named, .. } => named == key,
            Request::Drop { .. } | Request::Less { .. } => false,
        }
    }

    // Whether it lowers the count of a key.
    fn lowers(&self, key: &Key) -> bool
        ensures { result ≡ lowers key.now self.now }
    {
        match self {
            Request::Less { key: named } => named == key,
            Request::Set { .. } | Request::Swap { .. } | Request::Drop { .. } => false,
        }
    }
}

impl Requests {
    /// None waiting, with room for `limit` of them.
    pub fn new(alloc: Global, limit: usize) -> Result<Requests, ModelFault>
        ensures limit { IfOk result (λ requests. requests.limit ≡ limit) }
        ensures empty { IfOk result (λ requests. requests.waiting ≡ []) }
        ensures memory { IfErr result (λ fault. fault ≡ Memory) }
    {
        let Ok(queue) = VecDeque::with_capacity(alloc, limit) else {
            return Err(ModelFault::Memory);
        };
        let Ok(newest) = vec![in alloc; 0; limit.max(1)] else {
            return Err(ModelFault::Memory);
        };
        Ok(Requests {
            limit,
            queue,
            pushed: 0,
            newest,
        })
    }

    /// Whether as many wait as may.
    pub fn is_full(&self) -> bool
        ensures full { IsTrue result ↔ (self.now.limit ≤ length self.now.waiting) }
    {
        self.queue.len() >= self.limit
    }

    /// How many wait.
    pub fn len(&self) -> usize
        ensures len { result ≡ length self.now.waiting }
        ensures within { result ≤ self.now.limit }
    {
        self.queue.len()
    }

    /// Whether none waits.
    pub fn is_empty(&self) -> bool
        ensures empty { result ≡ (length self.now.waiting == 0) }
    {
        self.queue.len() == 0
    }

    /// Queues a request as the newest. It takes no memory.
    pub fn push(&mut self, request: Request)
        requires room { length self.old.waiting < self.old.limit }
        ensures pushed { self.new ≡ pushed self.old request }
    {
        let bucket = bucket_of(request.key(), self.newest.len());
        let between = self.pushed.wrapping_sub(self.newest[bucket]);
        self.pushed = self.pushed.wrapping_add(1);
        self.newest[bucket] = self.pushed;
        self.queue.push_back_reserved(Queued { request, between });
    }

    /// Takes the oldest request.
    pub fn pop(&mut self) -> Option<Request>
        ensures limit { self.new.limit ≡ self.old.limit }
        ensures oldest { self.old.waiting ≡ option_to_list result ++ self.new.waiting }
        ensures none { result ≡ None → self.old.waiting ≡ [] }
    {
        match self.queue.pop_front() {
            Some(queued) => Some(queued.request),
            None => None,
        }
    }

    /// The oldest request, which goes on waiting.
    pub fn first(&self) -> Option<&Request>
        ensures first { option_map (λ request. request.now) result ≡ slice_get self.now.waiting 0 }
    {
        match self.queue.front() {
            Some(queued) => Some(&queued.request),
            None => None,
        }
    }

    /// How many of those that wait raise the count of a key, and how many lower it. It looks at those alone whose keys are
    /// in the same bucket.
    pub fn waiting(&self, key: &Key) -> (u64, u64)
        ensures raising { result.0 ≡ count_by (raises key.now) self.now.waiting }
        ensures lowering { result.1 ≡ count_by (lowers key.now) self.now.waiting }
    {
        let bucket = bucket_of(key, self.newest.len());
        let younger = self.pushed.wrapping_sub(self.newest[bucket]);
        let mut next = position_below(self.queue.len(), younger);
        let mut raising = 0;
        let mut lowering = 0;
        while let Some(position) = next {
            let queued = &self.queue[position];
            raising += u64::from(queued.request.raises(key));
            lowering += u64::from(queued.request.lowers(key));
            next = position_below(position, queued.between);
        }
        (raising, lowering)
    }
}
