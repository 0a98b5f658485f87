//! The states of a station without the token.

ghost use Rattle.std.specs.Prelude.{◌≡◌, true, false, Some, None};
ghost use Rattle.law_turn.specs.Phases as turn;
ghost use Rattle.pb_tokenfsm.specs.Phases.{phase_of, refused_by, is_doubled, token_heard};

use crate::phases::Phase;
use crate::states::{Claim, Holding, Use};
use pb_telegram::TokenTelegram;
use pb_timers::Moment;

/// The station does not run.
#[derive(Debug, PartialEq, Eq, Drop)]
pub struct Offline;

/// A passive station. It sends no telegram of an initiator.
#[derive(Debug, PartialEq, Eq, Drop)]
pub struct PassiveIdle;

/// A master that listens for the ring and takes no token.
#[derive(Debug, PartialEq, Eq, Drop)]
pub struct Listening {
    /// Whether a token from the station's own address was heard.
    doubled: bool,
}

/// A master in the ring that waits for the token.
#[derive(Debug, PartialEq, Eq, Drop)]
pub struct Idle {
    /// The station whose token to this one was refused, if any.
    refused: Option<u8>,
}

impl Listening {
    /// A station that starts to listen and has heard nothing.
    pub fn new() -> Listening
        ensures { phase_of (Phase.Listening result) ≡ turn.Listening false }
    {
        Listening { doubled: false }
    }

    pub(crate) fn copy(&self) -> Listening
        ensures { result ≡ self.now }
    {
        Listening {
            doubled: self.doubled,
        }
    }

    /// Whether a token from the station's own address was heard.
    pub fn doubled(&self) -> bool
        ensures { result ≡ is_doubled self.now }
    {
        self.doubled
    }

    /// A first token from the station's own address is heard: another station may have that address.
    pub fn on_namesake(self) -> Listening
        ensures { phase_of (Phase.Listening result) ≡ turn.Listening true }
    {
        let Listening { doubled: _ } = self;
        Listening { doubled: true }
    }

    /// A second token from its own address is heard: the station goes offline (EN 50170-2, duplicate address).
    pub fn on_double(self) -> Offline
        ensures { phase_of (Phase.Offline result) ≡ turn.Offline }
    {
        let Listening { doubled: _ } = self;
        Offline
    }

    /// The station has replied that it is ready, and is now in the ring.
    pub fn on_ready(self) -> Idle
        ensures { phase_of (Phase.Idle result) ≡ turn.Idle None }
    {
        let Listening { doubled: _ } = self;
        Idle::new()
    }

    /// The time-out has ended: the station claims the token at `ready`.
    pub fn on_timeout(self, ready: Moment) -> Holding<Claim>
        ensures { phase_of (Phase.Claim result) ≡ turn.Claim 0 ready }
    {
        let Listening { doubled: _ } = self;
        Holding::claiming(ready)
    }
}

impl Idle {
    /// A station that has refused no token.
    pub(crate) fn new() -> Idle
        ensures { phase_of (Phase.Idle result) ≡ turn.Idle None }
    {
        Idle { refused: None }
    }

    pub(crate) fn copy(&self) -> Idle
        ensures { result ≡ self.now }
    {
        Idle {
            refused: self.refused,
        }
    }

    /// The station `ts` with the previous station `ps` hears a whole token telegram. A token to `ts` is accepted from
    /// `ps`, and from the station whose token was refused before (EN 50170-2, token passing); then the station speaks
    /// at `ready`. A token to `ts` from any other station is refused, and that station is remembered.
    pub fn hear_token(self, token: &TokenTelegram, ts: u8, ps: u8, ready: Moment) -> Phase
        ensures { phase_of result ≡ token_heard (refused_by self) token.now.da token.now.sa ts ps ready }
    {
        if token.da != ts {
            return Phase::Idle(self);
        }
        let Idle { refused } = self;
        if token.sa == ps || refused == Some(token.sa) {
            return Phase::Use(Holding::using(ready));
        }
        Phase::Idle(Idle {
            refused: Some(token.sa),
        })
    }

    /// The time-out has ended: the station claims the token at `ready`.
    pub fn on_timeout(self, ready: Moment) -> Holding<Claim>
        ensures { phase_of (Phase.Claim result) ≡ turn.Claim 0 ready }
    {
        let Idle { refused: _ } = self;
        Holding::claiming(ready)
    }

    /// The token has skipped the station too often: the station listens again, and has heard nothing.
    pub fn on_skipped(self) -> Listening
        ensures { phase_of (Phase.Listening result) ≡ turn.Listening false }
    {
        let Idle { refused: _ } = self;
        Listening::new()
    }
}
