//! Whether two cores of stations are equal.

ghost use Rattle.std.specs.Prelude.{◌≡◌, IsTrue, ◌↔◌};

use crate::cores::{Core, Kept};
use crate::cycles::Cycles;
use crate::past::Past;
use crate::replies::Reply;
use pb_cycles::{Outcome, Responder};
use pb_ring::Gap;
use pb_rotation::Rotation;
use pb_tokenfsm::Phase;

impl Core {
    ghost use Rattle.std.specs.Prelude.{◌≡◌, IsTrue, ◌↔◌};
    ghost use Rattle.pb_transitions.specs.Cores.{station_of};

    /// Whether another core is that of an equal station.
    #[tactic(auto, using(crate::proofs::Equal::same_core))]
    pub fn is_same(&self, other: &Core) -> bool
        ensures { IsTrue result ↔ (station_of self.now ≡ station_of other.now) }
    {
        is_same_phase(&self.phase, &other.phase)
            && self.kept.is_same(&other.kept)
            && self.waiting.is_same(&other.waiting)
    }
}

impl Kept {
    ghost use Rattle.std.specs.Prelude.{◌≡◌, IsTrue, ◌↔◌};

    fn is_same(&self, other: &Kept) -> bool
        ensures { IsTrue result ↔ (self.now ≡ other.now) }
    {
        self.address == other.address
            && self.busy == other.busy
            && is_same_past(&self.past, &other.past)
            && is_same_reply(&self.reply, &other.reply)
            && self.las.is_same(&other.las)
            && is_same_gap(&self.gap, &other.gap)
            && is_same_rotation(&self.rotation, &other.rotation)
            && self.cycles.is_same(&other.cycles)
    }
}

impl Cycles {
    ghost use Rattle.std.specs.Prelude.{◌≡◌, IsTrue, ◌↔◌};

    fn is_same(&self, other: &Cycles) -> bool
        ensures { IsTrue result ↔ (self.now ≡ other.now) }
    {
        self.initiator.is_same(&other.initiator)
            && is_same_responder(&self.responder, &other.responder)
            && is_same_outcome(&self.last_outcome, &other.last_outcome)
    }
}

fn is_same_phase(one: &Phase, other: &Phase) -> bool
    ensures { IsTrue result ↔ (one.now ≡ other.now) }
{
    one == other
}

fn is_same_past(one: &Past, other: &Past) -> bool
    ensures { IsTrue result ↔ (one.now ≡ other.now) }
{
    one == other
}

fn is_same_reply(one: &Option<Reply>, other: &Option<Reply>) -> bool
    ensures { IsTrue result ↔ (one.now ≡ other.now) }
{
    one == other
}

fn is_same_gap(one: &Gap, other: &Gap) -> bool
    ensures { IsTrue result ↔ (one.now ≡ other.now) }
{
    one == other
}

fn is_same_rotation(one: &Rotation, other: &Rotation) -> bool
    ensures { IsTrue result ↔ (one.now ≡ other.now) }
{
    one == other
}

fn is_same_responder(one: &Responder, other: &Responder) -> bool
    ensures { IsTrue result ↔ (one.now ≡ other.now) }
{
    one == other
}

fn is_same_outcome(one: &Option<(u8, Outcome)>, other: &Option<(u8, Outcome)>) -> bool
    ensures { IsTrue result ↔ (one.now ≡ other.now) }
{
    one == other
}
