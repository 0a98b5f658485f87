//! The states of a station as one enum.

ghost use Rattle.std.specs.Prelude.{◌≡◌};
ghost use Rattle.law_turn.specs.Phases as turn;
ghost use Rattle.law_turn.specs.Phases.{may_initiate};
ghost use Rattle.pb_tokenfsm.specs.Phases.{phase_of, name_of};

use crate::states::{AwaitData, AwaitStatus, Checking, Claim, Holding, Pass, Use};
use crate::waiting::{Idle, Listening, Offline, PassiveIdle};
use std::mem;

/// The state that a station is in (IEC 61158-4-3, states of the data link layer of a master).
#[derive(Debug, PartialEq, Eq, Drop)]
pub enum Phase {
    /// The station does not run.
    Offline(Offline),
    /// A passive station that runs.
    PassiveIdle(PassiveIdle),
    /// A master that listens for the ring.
    Listening(Listening),
    /// A master in the ring, without the token.
    Idle(Idle),
    /// A master that claims the token.
    Claim(Holding<Claim>),
    /// A master that uses the token.
    Use(Holding<Use>),
    /// A master that has sent a request and waits for the reply.
    AwaitData(Holding<AwaitData>),
    /// A master that has asked a station for its status.
    AwaitStatus(Holding<AwaitStatus>),
    /// A master that passes the token.
    Pass(Holding<Pass>),
    /// A master that has passed the token and waits for a sign that it was taken.
    Checking(Checking),
}

impl Phase {
    /// Whether a station in this phase may send an initiator telegram: exactly if the phase is a `Holding`.
    pub fn may_initiate(&self) -> bool
        ensures { result ≡ may_initiate (phase_of self.now) }
    {
        match self {
            Phase::Claim(_) | Phase::Use(_) => true,
            Phase::AwaitData(_) | Phase::AwaitStatus(_) | Phase::Pass(_) => true,
            Phase::Offline(_)
            | Phase::PassiveIdle(_)
            | Phase::Listening(_)
            | Phase::Idle(_)
            | Phase::Checking(_) => false,
        }
    }

    /// The phase's name.
    pub fn name(&self) -> &'static str
        ensures { result.now ≡ name_of self.now }
    {
        match self {
            Phase::Offline(_) => "Offline",
            Phase::PassiveIdle(_) => "PassiveIdle",
            Phase::Listening(_) => "Listening",
            Phase::Idle(_) => "Idle",
            Phase::Claim(_) => "Claim",
            Phase::Use(_) => "Use",
            Phase::AwaitData(_) => "AwaitData",
            Phase::AwaitStatus(_) => "AwaitStatus",
            Phase::Pass(_) => "Pass",
            Phase::Checking(_) => "Checking",
        }
    }

    /// Takes the phase out, and leaves Offline in its place.
    pub fn take(&mut self) -> Phase
        ensures taken { result ≡ self.old }
        ensures left { phase_of self.new ≡ turn.Offline }
    {
        let mut taken = Phase::Offline(Offline);
        mem::swap(self, &mut taken);
        taken
    }

    /// An equal phase, to try out a turn on.
    pub fn copy(&self) -> Phase
        ensures { result ≡ self.now }
    {
        match self {
            Phase::Offline(_) => Phase::Offline(Offline),
            Phase::PassiveIdle(_) => Phase::PassiveIdle(PassiveIdle),
            Phase::Listening(listening) => Phase::Listening(listening.copy()),
            Phase::Idle(idle) => Phase::Idle(idle.copy()),
            Phase::Claim(holder) => Phase::Claim(holder.copy()),
            Phase::Use(holder) => Phase::Use(holder.copy()),
            Phase::AwaitData(holder) => Phase::AwaitData(holder.copy()),
            Phase::AwaitStatus(holder) => Phase::AwaitStatus(holder.copy()),
            Phase::Pass(holder) => Phase::Pass(holder.copy()),
            Phase::Checking(checking) => Phase::Checking(checking.copy()),
        }
    }
}
