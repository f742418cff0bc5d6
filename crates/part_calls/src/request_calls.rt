// Calls of the queue of requests.
ghost use Rattle.std.specs.Prelude.{◌<◌};

use crate::numbers::{drawn, key_of, place_of};
use crate::part::Part;
use std::alloc::{AllocError, Global};
use temporary_table::{Request, Requests};

/// A call of a queue of requests.
#[derive(Clone, Copy)]
pub enum RequestCall {
    /// Counts the requests of a key that has one.
    Waiting,
    /// Queues a request for a new key.
    Push,
}

/// A queue with requests for so many keys, one each.
#[derive(Drop)]
pub struct RequestPart {
    alloc: Global,
    requests: Requests,
    call: RequestCall,
    keys: u32,
    ghost some: { 0 < keys },
}

// Queues a request for the key with a number, where there is room. Whether there is.
fn push(alloc: Global, requests: &mut Requests, number: u32) -> Result<bool, AllocError> {
    let key = key_of(alloc, number)?;
    if requests.is_full() {
        return Ok(false);
    }
    requests.push(Request::Set {
        key,
        to: place_of(number),
        gone: false,
    });
    Ok(true)
}

impl RequestPart {
    /// A queue of so many requests, with room for those that the calls push.
    pub fn new(
        alloc: Global,
        call: RequestCall,
        keys: u32,
        calls: u32,
    ) -> Result<RequestPart, AllocError>
        requires { 0 < keys }
    {
        let pushed = match call {
            RequestCall::Waiting => 0,
            RequestCall::Push => calls,
        };
        let Ok(mut requests) = Requests::new(alloc, keys as usize + pushed as usize) else {
            return Err(AllocError);
        };
        for number in 0..keys {
            push(alloc, &mut requests, number)?;
        }
        Ok(RequestPart {
            alloc,
            requests,
            call,
            keys,
        })
    }
}

impl Part for RequestPart {
    fn is_answered(&mut self, call: u32) -> Result<bool, AllocError> {
        match self.call {
            RequestCall::Waiting => {
                let key = key_of(self.alloc, drawn(call, self.keys))?;
                Ok(self.requests.waiting(&key) == (1, 0))
            }
            RequestCall::Push => {
                let number = self.keys.wrapping_add(call);
                push(self.alloc, &mut self.requests, number)
            }
        }
    }
}
