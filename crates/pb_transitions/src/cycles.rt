//! What a station keeps of its message cycles: initiator, responder and last outcome.

ghost use Rattle.std.specs.Prelude.{◌≡◌, [], is_some, Some, None};
ghost use Rattle.pb_cycles.specs.Messages.{message_of};
ghost use Rattle.pb_cycles.specs.Initiating.{outcome_of};
ghost use Rattle.law_turn.specs.Stations.{new_cycles};
ghost use Rattle.law_turn.specs.Hearing.{outcome_at, cycle_closed};
ghost use Rattle.pb_transitions.specs.Cycles.{cycles_of, CyclesBecome};

use arrayvec::ArrayVec;
use pb_cycles::{Initiator, Outcome, Responder};
use pb_telegram::Telegram;
use pb_timers::BusParams;

/// What a station keeps of its message cycles, besides the waiting requests.
#[derive(Debug, Drop)]
pub struct Cycles {
    pub initiator: Initiator,
    pub responder: Responder,
    /// The last outcome, with the station to which that request was sent.
    pub last_outcome: Option<(u8, Outcome)>,
}

/// A copy of the last outcome with its station.
pub fn copy_outcome(last: &Option<(u8, Outcome)>) -> Option<(u8, Outcome)>
    ensures { result ≡ last.now }
{
    match last {
        Some((of, outcome)) => Some((*of, outcome.copy())),
        None => None,
    }
}

/// Closes the open request, which was not answered.
#[tactic(auto, using(crate::proofs::Closing::last_of))]
pub fn give_up(cycles: &mut Cycles)
    ensures { CyclesBecome (λ c. cycle_closed c None) cycles.old cycles.new }
{
    let of = cycles.initiator.open_to();
    let outcome = cycles.initiator.outcome(None);
    keep_outcome(&mut cycles.last_outcome, of, outcome);
}

/// Hears a telegram, and returns whether it is a reply to the open request. If so, the request is closed with its
/// outcome.
#[tactic(auto, using(crate::proofs::Closing::last_of))]
pub fn hear(cycles: &mut Cycles, telegram: &Telegram) -> bool
    ensures answered { result ≡ is_some (outcome_of cycles.old.initiator (Some (message_of telegram.now))) }
    ensures cycles { CyclesBecome (λ c. cycle_closed c (Some (message_of telegram.now))) cycles.old
        cycles.new }
{
    let of = cycles.initiator.open_to();
    let outcome = cycles.initiator.outcome(Some(telegram));
    let answered = outcome.is_some();
    keep_outcome(&mut cycles.last_outcome, of, outcome);
    answered
}

impl Cycles {
    /// The message cycles of a station that has sent and heard nothing. `reply` is its data for an SRD.
    pub fn new(params: &BusParams, reply: ArrayVec<u8, 246>) -> Cycles
        ensures { cycles_of result (record { high = []; low = [] }) ≡ new_cycles params.now reply.items }
    {
        Cycles {
            initiator: Initiator::new(params.retries() as u8),
            responder: Responder::new(reply),
            last_outcome: None,
        }
    }

    /// Overwrites these message cycles by others, in place.
    pub fn copy_from(&mut self, other: &Cycles)
        ensures { self.new ≡ other.now }
    {
        self.initiator.copy_from(&other.initiator);
        self.responder.copy_from(&other.responder);
        if self.last_outcome.is_some() || other.last_outcome.is_some() {
            become_outcome(&mut self.last_outcome, &other.last_outcome);
        }
    }

    /// Equal message cycles.
    pub fn copy(&self) -> Cycles
        ensures { result ≡ self.now }
    {
        Cycles {
            initiator: self.initiator.copy(),
            responder: self.responder.copy(),
            last_outcome: copy_outcome(&self.last_outcome),
        }
    }
}

/// Slow path of `Cycles::copy_from`, kept out of line: often there is no outcome, and its octets then need not be
/// moved.
#[inline(never)]
fn become_outcome(last: &mut Option<(u8, Outcome)>, other: &Option<(u8, Outcome)>)
    ensures { last.new ≡ other.now }
{
    match other {
        Some((of, outcome)) => put_outcome(last, *of, outcome),
        None => *last = None,
    }
}

/// Stores an outcome with its station as the last one, in place if there is one already.
fn put_outcome(last: &mut Option<(u8, Outcome)>, of: u8, outcome: &Outcome)
    ensures { last.new ≡ Some (of, outcome.now) }
{
    match last {
        Some((station, last)) => {
            *station = of;
            last.copy_from(outcome);
        }
        None => *last = Some((of, outcome.copy())),
    }
}

/// Stores an outcome with its station as the last one, if there is one.
fn keep_outcome(last: &mut Option<(u8, Outcome)>, of: Option<u8>, outcome: Option<Outcome>)
    ensures { last.new ≡ outcome_at of outcome last.old }
{
    if let (Some(of), Some(outcome)) = (of, outcome) {
        *last = Some((of, outcome));
    }
}
