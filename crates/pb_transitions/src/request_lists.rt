//! The waiting requests of one priority.

ghost use Rattle.std.specs.Prelude.{◌≡◌, length};

use pb_cycles::Request;
use std::alloc::{AllocError, Global};
use std::marker::Model;

/// The most requests of one priority that may wait at a station.
const REQUEST_LIMIT: usize = 16;

/// The requests of one priority that wait at a station, first in, first out. Memory for all that may wait is reserved
/// at the start and not initialized: a copy moves only the requests that wait.
#[derive(Debug, Drop)]
pub struct RequestList {
    requests: Vec<Request>,
}

impl Model for RequestList {
    ghost use Rattle.std.specs.Prelude.{◌≤◌, List, length};
    ghost use Rattle.std.specs.Vec.{vec_capacity};
    ghost use Rattle.pb_cycles.specs.RequestFields.{RequestFields};

    ghost Value = { List RequestFields };

    ghost view = { λ l. l.requests.items };

    ghost invariant = { λ l. (16 ≤ vec_capacity l.requests) × (length l.requests.items ≤ 16) };
}

impl RequestList {
    ghost use Rattle.std.specs.Prelude.{◌≡◌, ◌≤◌, ◌<◌, [], ◌∷◌, nat_le, length, IfOk, OnOk, OnErr, MatchOption, MatchResult};
    ghost use Rattle.pb_cycles.specs.Queued.{put};

    /// An empty list.
    ///
    /// Fault: memory was refused.
    pub fn new(alloc: Global) -> Result<RequestList, AllocError>
        ensures { IfOk result (λ l. l ≡ []) }
    {
        let requests = Vec::with_capacity(alloc, REQUEST_LIMIT)?;
        Ok(RequestList { requests })
    }

    /// Overwrites this list by another, in place.
    #[inline(always)]
    pub fn copy_from(&mut self, other: &RequestList)
        ensures { self.new ≡ other.now }
    {
        if !self.requests.is_empty() || !other.requests.is_empty() {
            self.copy_requests(other);
        }
    }

    /// Slow path of `copy_from`, kept out of line: both lists are usually empty.
    #[inline(never)]
    fn copy_requests(&mut self, other: &RequestList)
        ensures { self.new ≡ other.now }
    {
        let both = other.requests.len().min(self.requests.len());
        self.requests.truncate(both);
        copy_over(&mut self.requests, &other.requests[..both]);
        for request in &other.requests[both..] {
            self.requests.push_reserved(request.copy());
        }
    }

    /// All waiting requests, the one that has waited longest first.
    pub fn requests(&self) -> &[Request]
        ensures value { result.now ≡ self.now }
        ensures fits { length result.now ≤ 16 }
    {
        &self.requests
    }

    /// Whether the list is full.
    pub fn is_full(&self) -> bool
        ensures { result ≡ nat_le 16 (length self.now) }
    {
        self.requests.len() >= REQUEST_LIMIT
    }

    /// Appends a request, or returns it if 16 requests wait.
    pub fn push(&mut self, request: Request) -> Result<(), Request>
        ensures outcome { MatchResult result (λ _. self.new ≡ put self.old request)
            (λ refused. (refused ≡ request) × (self.new ≡ self.old)) }
        ensures room { OnOk result (length self.old < 16) }
        ensures full { OnErr result (length self.old ≡ 16) }
    {
        if self.is_full() {
            return Err(request);
        }
        self.requests.push_reserved(request);
        Ok(())
    }

    /// Takes the request that has waited longest; `None` if none waits.
    pub fn take(&mut self) -> Option<Request>
        ensures { MatchOption result ((self.old ≡ []) × (self.new ≡ self.old))
            (λ request. self.old ≡ request ∷ self.new) }
    {
        if self.requests.is_empty() {
            return None;
        }
        Some(self.requests.remove(0))
    }

    /// Removes all requests.
    pub fn clear(&mut self)
        ensures { self.new ≡ [] }
    {
        self.requests.clear();
    }
}

/// Overwrites requests by as many others, in place.
fn copy_over(requests: &mut [Request], others: &[Request])
    requires { length requests.old ≡ length others.now }
    ensures { requests.new ≡ others.now }
{
    for (place, request) in requests.iter_mut().enumerate() {
        request.copy_from(&others[place]);
    }
}
