//! What a tap is, and its state.

ghost use Rattle.std.specs.Prelude.{◌≡◌, ℕ, List};
ghost use Rattle.law_model.specs.Medium.{hears_from};
ghost use Rattle.pb_taps.specs.Taps.{is_master, tap_of};

use arrayvec::ArrayVec;
use pb_station::{Inbox, Station};

/// Whether a tap is a master or a passive station.
#[derive(Clone, Copy, Debug, PartialEq, Eq)]
pub enum Kind {
    /// A station that takes part in passing the token.
    Master,
    /// A station that only answers.
    Passive,
}

/// Whether the kind is a master.
pub fn is_master(kind: Kind) -> bool
    ensures { result ≡ is_master kind }
{
    match kind {
        Kind::Master => true,
        Kind::Passive => false,
    }
}

/// The definition of a tap of the bus.
#[derive(Debug, Drop)]
pub struct TapSpec {
    /// Its address: for a master 0 to the highest station address, for a passive station 0 to 126.
    pub address: u8,
    /// Whether it is a master.
    pub kind: Kind,
    /// The data with which it replies to a request for data.
    pub reply: ArrayVec<u8, 246>,
}

/// A tap of the bus: its station and the unread marks.
#[derive(Debug, Drop)]
pub struct Tap {
    pub running: bool,
    /// The moment of its last start, also if it has stopped since, in bit times.
    pub since: u64,
    /// Whether something was reaching it at its start.
    pub amid: bool,
    pub station: Station,
    pub marks: Inbox,
}

impl Tap {
    /// Whether the tap hears a telegram that begins at `moment` from its begin: it started before, or at that moment
    /// with nothing reaching it.
    pub fn hears_from(&self, moment: u64) -> bool
        ensures { result ≡ hears_from (tap_of self.now) moment }
    {
        self.since < moment || (self.since == moment && !self.amid)
    }
}
