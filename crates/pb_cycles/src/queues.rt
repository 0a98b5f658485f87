//! A copy of a station's waiting requests.

ghost use Rattle.std.specs.Prelude.{◌≡◌, ◌≤◌, ◌<◌, [], ◌∷◌, ◌++◌, length, drop, OnOk, OnErr, IfErr, IfNone, MatchOption, MatchResult};
ghost use Rattle.pb_cycles.specs.Queued.{put};

use crate::requests::Request;
use arrayvec::ArrayVec;
use std::marker::Model;
use thiserror::Error;

/// The list of the request's priority is full. The request is returned.
#[derive(Debug, Drop, Error)]
#[error("QueueFull")]
pub struct QueueFull {
    /// The request that was refused.
    pub request: Request,
}

/// The requests that wait for the token: a list for each priority, first in, first out, with at most 16 entries.
#[derive(Debug, PartialEq, Eq, Drop)]
pub struct Queue {
    high: ArrayVec<Request, 16>,
    low: ArrayVec<Request, 16>,
}

impl Model for Queue {
    ghost use Rattle.pb_cycles.specs.Queued.{Queued};

    ghost Value = { Queued };

    ghost view = { λ q. record { high = q.high.items; low = q.low.items } };

    ghost inverse = { λ q. record { high = record { items = q.high }; low = record { items = q.low } } };
}

impl Queue {
    /// An empty queue.
    pub fn new() -> Queue
        ensures { result ≡ record { high = []; low = [] } }
    {
        Queue {
            high: ArrayVec::new(),
            low: ArrayVec::new(),
        }
    }

    /// A queue of copies of these requests, the first to be taken first. The caller ensures that there are at most 16
    /// of each priority.
    pub fn of(high: &[Request], low: &[Request]) -> Queue
        requires high { length high.now ≤ 16 }
        requires low { length low.now ≤ 16 }
        ensures { result ≡ record { high = high.now; low = low.now } }
    {
        Queue {
            high: list_of(high),
            low: list_of(low),
        }
    }

    /// Appends a request to the list of high priority.
    ///
    /// Fault: `QueueFull`, with the request, if 16 requests wait there. The queue is unchanged.
    pub fn push_high(&mut self, request: Request) -> Result<(), QueueFull>
        ensures outcome { MatchResult result
            (λ _. self.new ≡ record { high = put self.old.high request; low = self.old.low })
            (λ refused. (refused.request ≡ request) × (self.new ≡ self.old)) }
        ensures room { OnOk result (length self.old.high < 16) }
        ensures full { OnErr result (length self.old.high ≡ 16) }
    {
        push(&mut self.high, request)
    }

    /// Appends a request to the list of low priority.
    ///
    /// Fault: `QueueFull`, with the request, if 16 requests wait there. The queue is unchanged.
    pub fn push_low(&mut self, request: Request) -> Result<(), QueueFull>
        ensures outcome { MatchResult result
            (λ _. self.new ≡ record { high = self.old.high; low = put self.old.low request })
            (λ refused. (refused.request ≡ request) × (self.new ≡ self.old)) }
        ensures room { OnOk result (length self.old.low < 16) }
        ensures full { OnErr result (length self.old.low ≡ 16) }
    {
        push(&mut self.low, request)
    }

    /// Takes the high priority request that has waited longest; `None` if none waits.
    pub fn take_high(&mut self) -> Option<Request>
        ensures { MatchOption result ((self.old.high ≡ []) × (self.new ≡ self.old))
            (λ request. (self.old.high ≡ request ∷ self.new.high)
            × (self.new ≡ record { high = drop 1 self.old.high; low = self.old.low })) }
    {
        take(&mut self.high)
    }

    /// Takes the low priority request that has waited longest; `None` if none waits.
    pub fn take_low(&mut self) -> Option<Request>
        ensures { MatchOption result ((self.old.low ≡ []) × (self.new ≡ self.old))
            (λ request. (self.old.low ≡ request ∷ self.new.low)
            × (self.new ≡ record { high = self.old.high; low = drop 1 self.old.low })) }
    {
        take(&mut self.low)
    }

    /// How many high priority requests wait, 0 to 16.
    pub fn len_high(&self) -> usize
        ensures value { result ≡ length self.now.high }
        ensures fits { result ≤ 16 }
    {
        self.high.len()
    }

    /// How many low priority requests wait, 0 to 16.
    pub fn len_low(&self) -> usize
        ensures value { result ≡ length self.now.low }
        ensures fits { result ≤ 16 }
    {
        self.low.len()
    }
}

/// Appends the request, or returns it if the list is full.
fn push(list: &mut ArrayVec<Request, 16>, request: Request) -> Result<(), QueueFull>
    ensures ok { OnOk result (list.new.items ≡ list.old.items ++ request ∷ []) }
    ensures room { OnOk result (length list.old.items < 16) }
    ensures full { OnErr result (length list.old.items ≡ 16) }
    ensures kept { OnErr result (list.new.items ≡ list.old.items) }
    ensures handed_back { IfErr result (λ refused. refused.request ≡ request) }
{
    match list.try_push(request) {
        Ok(()) => Ok(()),
        Err(refused) => Err(QueueFull {
            request: refused.element(),
        }),
    }
}

/// Takes the request that has waited longest; `None` if the list is empty.
fn take(list: &mut ArrayVec<Request, 16>) -> Option<Request>
    ensures first { MatchOption result (list.old.items ≡ []) (λ request. list.old.items
        ≡ request ∷ list.new.items) }
    ensures none { IfNone result (list.new.items ≡ []) }
{
    list.pop_at(0)
}

/// A list of copies of these requests.
fn list_of(requests: &[Request]) -> ArrayVec<Request, 16>
    requires { length requests.now ≤ 16 }
    ensures { result.items ≡ requests.now }
{
    let mut list = ArrayVec::new();
    for request in requests {
        list.push(request.copy());
    }
    list
}
