//! The states of a station that has the token, or has just passed it.

ghost use Rattle.std.specs.Prelude.{◌≡◌, ℕ, Bool, true, false, ◌&&◌, nat_lt, Some, None};
ghost use Rattle.pb_telegram.specs.Grammar.{spelling};
ghost use Rattle.pb_telegram.specs.Initiators.{IsInitiator};
ghost use Rattle.pb_telegram.specs.declared.telegrams.Telegram.TheVariants.{Token};
ghost use Rattle.law_turn.specs.Phases as turn;
ghost use Rattle.pb_tokenfsm.specs.Phases.{phase_of, claims_sent, has_asked, was_asked, retry_at, has_data_slot, asked_station, has_slot, tries_of, claim_sent, token_sent, not_taken};

use crate::phases::Phase;
use crate::waiting::Idle;
use arrayvec::ArrayVec;
use pb_telegram::{TOKEN_START, Telegram, TokenTelegram, put_octets, write, write_in};
use pb_timers::Moment;

/// How many times the token is sent to a successor before it is given up.
pub const TRIES: u8 = 3;

/// A master that has passed the token and waits for a sign that it was taken.
#[derive(Debug, PartialEq, Eq, Drop)]
pub struct Checking {
    /// How many times the token was sent to this successor, 1 to 3.
    tries: u8,
}

/// A master that has the token: it may initiate.
#[derive(Debug, PartialEq, Eq, Drop)]
pub struct Holding<S> {
    /// What it is doing with the token.
    state: S,
}

/// The master claims the token, with two token telegrams to its own address.
#[derive(Clone, Copy, Debug, PartialEq, Eq)]
pub struct Claim {
    /// How many of the two are sent, 0 or 1.
    sent: u8,
    /// The earliest moment at which it speaks.
    ready: Moment,
}

/// The master uses the token.
#[derive(Clone, Copy, Debug, PartialEq, Eq)]
pub struct Use {
    /// Whether a station was asked for its status since the receipt of the token.
    asked: bool,
    /// The earliest moment at which it speaks.
    ready: Moment,
}

/// The master has sent an SDA or SRD and waits for the reply.
#[derive(Clone, Copy, Debug, PartialEq, Eq)]
pub struct AwaitData {
    /// Whether a station was asked for its status since the receipt of the token.
    asked: bool,
    /// When the request is sent again; `None` if it is not.
    retry: Option<Moment>,
    /// Whether the slot of the request is still open.
    slot: bool,
}

/// The master has asked a station for its status.
#[derive(Clone, Copy, Debug, PartialEq, Eq)]
pub struct AwaitStatus {
    /// The station that was asked.
    of: u8,
    /// Whether the slot of the request is still open.
    slot: bool,
}

/// The master passes the token.
#[derive(Clone, Copy, Debug, PartialEq, Eq)]
pub struct Pass {
    /// How many times the token was sent to this successor, 0 to 3.
    tries: u8,
    /// The earliest moment at which it speaks.
    ready: Moment,
}

impl<S: Copy> Holding<S> {
    pub(crate) fn copy(&self) -> Holding<S>
        ensures { result ≡ self.now }
    {
        Holding { state: self.state }
    }

    /// The octets of a telegram that the station sends. The caller ensures that it is a token or a request.
    #[inline(always)]
    pub fn initiate(&self, telegram: &Telegram) -> ArrayVec<u8, 255>
        requires { IsInitiator telegram.now }
        ensures { result.items ≡ spelling telegram.now }
    {
        write(telegram)
    }

    /// Replaces the content of `octets` by those of a telegram. The caller ensures that it is a token or a request.
    #[inline(always)]
    pub fn initiate_in(&self, telegram: &Telegram, octets: &mut ArrayVec<u8, 255>)
        requires { IsInitiator telegram.now }
        ensures { octets.new.items ≡ spelling telegram.now }
    {
        write_in(telegram, octets);
    }

    /// Replaces the content of `octets` by those of a token. A [`Telegram`] would first clear room for the longest one.
    #[inline(always)]
    pub fn pass_in(&self, token: &TokenTelegram, octets: &mut ArrayVec<u8, 255>)
        ensures { octets.new.items ≡ spelling (Token token.now) }
    {
        put_octets(octets, &[TOKEN_START, token.da, token.sa]);
    }

    /// Another station is heard: this station has lost the token.
    pub fn on_foreign(self) -> Idle
        ensures { phase_of (Phase.Idle result) ≡ turn.Idle None }
    {
        let Holding { state: _ } = self;
        Idle::new()
    }
}

impl Holding<Claim> {
    /// A station that has not sent a claim token yet.
    pub(crate) fn claiming(ready: Moment) -> Holding<Claim>
        ensures { phase_of (Phase.Claim result) ≡ turn.Claim 0 ready }
    {
        Holding {
            state: Claim { sent: 0, ready },
        }
    }

    /// The earliest moment at which the station speaks.
    pub fn ready(&self) -> Moment
        ensures { phase_of (Phase.Claim self.now) ≡ turn.Claim (claims_sent self.now) result }
    {
        self.state.ready
    }

    /// A claim token is sent. The station speaks again at `ready`: after the first claim token to send the second,
    /// after the second to use the token.
    pub fn on_sent(self, ready: Moment) -> Phase
        ensures { phase_of result ≡ claim_sent (claims_sent self) ready }
    {
        let Holding {
            state: Claim { sent, ready: _ },
        } = self;
        if sent == 0 {
            return Phase::Claim(Holding {
                state: Claim { sent: 1, ready },
            });
        }
        Phase::Use(Holding::using(ready))
    }
}

impl Holding<Use> {
    /// A station that has just received the token.
    pub(crate) fn using(ready: Moment) -> Holding<Use>
        ensures { phase_of (Phase.Use result) ≡ turn.Use false ready }
    {
        Holding {
            state: Use {
                asked: false,
                ready,
            },
        }
    }

    /// The earliest moment at which the station speaks.
    pub fn ready(&self) -> Moment
        ensures { phase_of (Phase.Use self.now) ≡ turn.Use (has_asked self.now) result }
    {
        let Use { ready, .. } = self.state;
        ready
    }

    /// Whether a station was asked for its status since the receipt of the token.
    pub fn asked(&self) -> bool
        ensures { result ≡ has_asked self.now }
    {
        self.state.asked
    }

    /// An SDA or SRD is sent, and its slot opens (EN 50170-2, message cycles).
    pub fn ask(self) -> Holding<AwaitData>
        ensures { phase_of (Phase.AwaitData result) ≡ turn.AwaitData (has_asked self) None true }
    {
        let Holding { state } = self;
        Holding::awaiting(state.asked, None, true)
    }

    /// An SDN is sent, which is not answered. The station speaks again at `ready`.
    pub fn send(self, ready: Moment) -> Holding<Use>
        ensures { phase_of (Phase.Use result) ≡ turn.Use (has_asked self) ready }
    {
        let Holding { state } = self;
        Holding {
            state: Use { ready, ..state },
        }
    }

    /// The station `of` is asked for its status, and the slot opens (EN 50170-2, request FDL status).
    pub fn ask_status(self, of: u8) -> Holding<AwaitStatus>
        ensures { phase_of (Phase.AwaitStatus result) ≡ turn.AwaitStatus of true }
    {
        let Holding {
            state: Use { asked: _, ready: _ },
        } = self;
        Holding {
            state: AwaitStatus { of, slot: true },
        }
    }

    /// Nothing but the token is left to send: it is passed at the moment at which the station was to speak, to a
    /// successor to which it was not sent yet.
    pub fn done(self) -> Holding<Pass>
        ensures { (asked : Bool) (ready : ℕ) → phase_of (Phase.Use self) ≡ turn.Use asked ready
            → phase_of (Phase.Pass result) ≡ turn.Pass 0 ready }
    {
        let Holding {
            state: Use { asked: _, ready },
        } = self;
        Holding {
            state: Pass { tries: 0, ready },
        }
    }
}

impl Holding<AwaitData> {
    fn awaiting(asked: bool, retry: Option<Moment>, slot: bool) -> Holding<AwaitData>
        ensures { phase_of (Phase.AwaitData result) ≡ turn.AwaitData asked retry slot }
    {
        Holding {
            state: AwaitData { asked, retry, slot },
        }
    }

    /// When the request is sent again; `None` if it is not.
    pub fn retry(&self) -> Option<Moment>
        ensures { result ≡ retry_at self.now }
    {
        self.state.retry
    }

    /// Whether the slot of the request is still open.
    pub fn slot(&self) -> bool
        ensures { result ≡ has_data_slot self.now }
    {
        let AwaitData { slot, .. } = self.state;
        slot
    }

    /// Activity has begun at `at`: the request is not sent again before that activity ends. The slot closes, unless the
    /// activity began before the own telegram, at `own`.
    pub fn on_activity(self, own: Moment, at: Moment) -> Holding<AwaitData>
        ensures { phase_of (Phase.AwaitData result)
            ≡ turn.AwaitData (was_asked self) None (has_data_slot self && nat_lt at own) }
    {
        let Holding { state } = self;
        let slot = state.slot && at < own;
        Holding::awaiting(state.asked, None, slot)
    }

    /// The slot ended in silence: the request is sent again at `ready`.
    pub fn on_silence(self, ready: Moment) -> Holding<AwaitData>
        ensures { phase_of (Phase.AwaitData result) ≡ turn.AwaitData (was_asked self) (Some ready) false }
    {
        let Holding { state } = self;
        Holding::awaiting(state.asked, Some(ready), false)
    }

    /// Activity has ended and was no reply: the request is sent again at `ready`.
    pub fn on_damaged(self, ready: Moment) -> Holding<AwaitData>
        ensures { phase_of (Phase.AwaitData result)
            ≡ turn.AwaitData (was_asked self) (Some ready) (has_data_slot self) }
    {
        let Holding { state } = self;
        Holding::awaiting(state.asked, Some(ready), state.slot)
    }

    /// No retry is left: the request is not sent again, and its slot is closed.
    pub fn on_no_retry(self) -> Holding<AwaitData>
        ensures { phase_of (Phase.AwaitData result) ≡ turn.AwaitData (was_asked self) None false }
    {
        let AwaitData { asked, .. } = self.state;
        Holding::awaiting(asked, None, false)
    }

    /// The request was sent again, and its slot opens.
    pub fn again(self) -> Holding<AwaitData>
        ensures { phase_of (Phase.AwaitData result) ≡ turn.AwaitData (was_asked self) None true }
    {
        let AwaitData { asked, .. } = self.state;
        Holding::awaiting(asked, None, true)
    }

    /// The request has an outcome: the station uses the token again, and speaks at `ready`.
    pub fn on_outcome(self, ready: Moment) -> Holding<Use>
        ensures { phase_of (Phase.Use result) ≡ turn.Use (was_asked self) ready }
    {
        let Holding { state } = self;
        Holding {
            state: Use {
                asked: state.asked,
                ready,
            },
        }
    }
}

impl Holding<AwaitStatus> {
    /// The station that was asked.
    pub fn of(&self) -> u8
        ensures { result ≡ asked_station self.now }
    {
        self.state.of
    }

    /// Whether the slot of the request is still open.
    pub fn slot(&self) -> bool
        ensures { result ≡ has_slot self.now }
    {
        self.state.slot
    }

    /// Activity has begun: the slot closes, and the station waits for the end of the activity.
    pub fn on_activity(self) -> Holding<AwaitStatus>
        ensures { phase_of (Phase.AwaitStatus result) ≡ turn.AwaitStatus (asked_station self) false }
    {
        let Holding {
            state: AwaitStatus { of, slot: _ },
        } = self;
        Holding {
            state: AwaitStatus { of, slot: false },
        }
    }

    /// A reply was heard, or none: the station uses the token again, and speaks at `ready`.
    pub fn on_outcome(self, ready: Moment) -> Holding<Use>
        ensures { phase_of (Phase.Use result) ≡ turn.Use true ready }
    {
        let Holding {
            state: AwaitStatus { of: _, slot: _ },
        } = self;
        Holding {
            state: Use { asked: true, ready },
        }
    }
}

impl Holding<Pass> {
    /// The earliest moment at which the station speaks.
    pub fn ready(&self) -> Moment
        ensures { phase_of (Phase.Pass self.now) ≡ turn.Pass (tries_of (Phase.Pass self.now)) result }
    {
        let Pass { ready, .. } = self.state;
        ready
    }

    /// The token is sent from `ts` to the next station `ns`. A token to the own address is a receipt, and the station
    /// speaks at `ready`.
    pub fn on_sent(self, ns: u8, ts: u8, ready: Moment) -> Phase
        ensures { phase_of result ≡ token_sent (tries_of (Phase.Pass self)) ns ts ready }
    {
        let Holding {
            state: Pass { tries, ready: _ },
        } = self;
        if ns == ts {
            return Phase::Use(Holding::using(ready));
        }
        Phase::Checking(Checking {
            tries: if tries < TRIES { tries + 1 } else { TRIES },
        })
    }
}

impl Checking {
    pub(crate) fn copy(&self) -> Checking
        ensures { result ≡ self.now }
    {
        Checking { tries: self.tries }
    }

    /// How many times the token was sent to this successor, 1 to 3.
    pub fn tries(&self) -> u8
        ensures { result ≡ tries_of (Phase.Checking self.now) }
    {
        self.tries
    }

    /// Activity has begun. The caller ensures that it began no earlier than the own token. Whether it is a telegram or
    /// not, it is the sign that the token was taken: the station waits for the token again, and has refused no token.
    pub fn on_activity(self) -> Idle
        ensures { phase_of (Phase.Idle result) ≡ turn.Idle None }
    {
        let Checking { tries: _ } = self;
        Idle::new()
    }

    /// The slot ended in silence: the token is passed again at `ready`. After the third time the successor is given up
    /// (EN 50170-2, token passing), and the token was not yet sent to the next one.
    pub fn on_silence(self, ready: Moment) -> Holding<Pass>
        ensures { phase_of (Phase.Pass result) ≡ not_taken (tries_of (Phase.Checking self)) ready }
    {
        let Checking { tries } = self;
        let tries = if tries < TRIES { tries } else { 0 };
        Holding {
            state: Pass { tries, ready },
        }
    }
}
