//! The waiting requests of a station, of both priorities.

ghost use Rattle.std.specs.Prelude.{◌≡◌, IsTrue, ◌↔◌};

use crate::request_lists::RequestList;
use pb_cycles::{Queue, Request};
use std::alloc::{AllocError, Global};
use std::marker::Model;

/// The requests that wait at a station, with one list for each priority.
#[derive(Debug, Drop)]
pub struct Waiting {
    high: RequestList,
    low: RequestList,
}

impl Model for Waiting {
    ghost use Rattle.pb_cycles.specs.Queued.{Queued};

    ghost Value = { Queued };

    ghost view = { λ w. record { high = w.high; low = w.low } };
}

impl Waiting {
    ghost use Rattle.std.specs.Prelude.{◌≡◌, ◌<◌, [], ◌∷◌, nat_le, length, drop, IsTrue, ◌↔◌, IfOk, OnOk, OnErr, MatchOption, MatchResult};
    ghost use Rattle.law_turn.specs.Stations.{queued, list_for};

    /// No waiting requests.
    ///
    /// Fault: memory was refused.
    pub fn new(alloc: Global) -> Result<Waiting, AllocError>
        ensures { IfOk result (λ w. w ≡ record { high = []; low = [] }) }
    {
        let high = RequestList::new(alloc)?;
        let low = RequestList::new(alloc)?;
        Ok(Waiting { high, low })
    }

    /// Overwrites both lists by those of another, in place.
    pub fn copy_from(&mut self, other: &Waiting)
        ensures { self.new ≡ other.now }
    {
        self.high.copy_from(&other.high);
        self.low.copy_from(&other.low);
    }

    /// Whether the same requests wait in both.
    pub fn is_same(&self, other: &Waiting) -> bool
        ensures { IsTrue result ↔ (self.now ≡ other.now) }
    {
        are_same(self.high.requests(), other.high.requests())
            && are_same(self.low.requests(), other.low.requests())
    }

    /// A copy of all waiting requests.
    pub fn queue(&self) -> Queue
        ensures { result ≡ self.now }
    {
        Queue::of(self.high.requests(), self.low.requests())
    }

    /// Whether the list of the request's priority is full.
    pub fn is_full_for(&self, request: &Request) -> bool
        ensures { result ≡ nat_le 16 (length (list_for self.now request.now)) }
    {
        self.list_for(request).is_full()
    }

    fn list_for(&self, request: &Request) -> &RequestList
        ensures { result.now ≡ list_for self.now request.now }
    {
        if request.high() {
            &self.high
        } else {
            &self.low
        }
    }

    /// Appends a request to those of its priority, or returns it if 16 of them wait.
    pub fn push(&mut self, request: Request) -> Result<(), Request>
        ensures outcome { MatchResult result (λ _. self.new ≡ queued self.old request)
            (λ refused. (refused ≡ request) × (self.new ≡ self.old)) }
        ensures room { OnOk result (length (list_for self.old request) < 16) }
        ensures full { OnErr result (length (list_for self.old request) ≡ 16) }
    {
        if request.high() {
            self.high.push(request)
        } else {
            self.low.push(request)
        }
    }

    /// Whether a request of high priority waits.
    pub fn has_high(&self) -> bool
        ensures { IsTrue result ↔ (0 < length self.now.high) }
    {
        !self.high.requests().is_empty()
    }

    /// Whether a request of low priority waits.
    pub fn has_low(&self) -> bool
        ensures { IsTrue result ↔ (0 < length self.now.low) }
    {
        !self.low.requests().is_empty()
    }

    /// Takes the high priority request that has waited longest; `None` if none waits.
    pub fn take_high(&mut self) -> Option<Request>
        ensures { MatchOption result ((self.old.high ≡ []) × (self.new ≡ self.old))
            (λ request. (self.old.high ≡ request ∷ self.new.high)
            × (self.new ≡ record { high = drop 1 self.old.high; low = self.old.low })) }
    {
        self.high.take()
    }

    /// Takes the low priority request that has waited longest; `None` if none waits.
    pub fn take_low(&mut self) -> Option<Request>
        ensures { MatchOption result ((self.old.low ≡ []) × (self.new ≡ self.old))
            (λ request. (self.old.low ≡ request ∷ self.new.low)
            × (self.new ≡ record { high = self.old.high; low = drop 1 self.old.low })) }
    {
        self.low.take()
    }

    /// Removes all requests.
    pub fn clear(&mut self)
        ensures { self.new ≡ record { high = []; low = [] } }
    {
        self.high.clear();
        self.low.clear();
    }
}

/// Whether two lists have the same requests in the same order. Both are usually empty.
#[inline(always)]
fn are_same(one: &[Request], other: &[Request]) -> bool
    ensures { IsTrue result ↔ (one.now ≡ other.now) }
{
    if one.is_empty() {
        return other.is_empty();
    }
    are_equal(one, other)
}

fn are_equal(one: &[Request], other: &[Request]) -> bool
    ensures { IsTrue result ↔ (one.now ≡ other.now) }
{
    one == other
}
