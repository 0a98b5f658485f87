//! Events of a bus, and the results of accepted ones.

ghost use Rattle.std.specs.Prelude.{◌≡◌};
ghost use Rattle.pb_taps.specs.Events.{event_of, reply_of};

use arrayvec::ArrayVec;
use pb_cycles::Request;
use pb_telegram::copy_octets;
use pb_timers::Moment;

/// What happens on the bus. A tap is an index in the list of taps, from 0.
#[derive(Debug, PartialEq, Eq, Drop)]
pub enum Event {
    /// The station at a tap takes its turn.
    Turn(usize),
    /// Time passes, by this many bit times.
    Pass(u64),
    /// A tap hears a telegram on the bus damaged.
    Damage {
        /// The tap that hears it.
        tap: usize,
        /// The tap that sends it.
        speaker: usize,
        /// The index of the damaged character, from 0; `None` damages all characters.
        place: Option<u8>,
    },
    /// The station at a tap starts.
    Start(usize),
    /// The station at a tap stops. A telegram that it is sending ends with the character being sent.
    Stop(usize),
    /// Noise reaches every tap for this many bit times. Noise on the bus is extended to last at least as long.
    Noise(u32),
    /// A request is appended to those that wait at the station of a tap.
    Queue {
        /// The tap.
        tap: usize,
        /// The request.
        request: Request,
    },
    /// The telegram that a speaker has begun at the clock is lost at a tap.
    Unheard {
        /// The tap at which it is lost.
        tap: usize,
        /// The tap that sends it.
        speaker: usize,
    },
}

impl Event {
    /// An equal event.
    pub fn copy(&self) -> Event
        ensures { event_of result ≡ event_of self.now }
    {
        match self {
            Event::Turn(tap) => Event::Turn(*tap),
            Event::Pass(bits) => Event::Pass(*bits),
            Event::Damage {
                tap,
                speaker,
                place,
            } => Event::Damage {
                tap: *tap,
                speaker: *speaker,
                place: *place,
            },
            Event::Start(tap) => Event::Start(*tap),
            Event::Stop(tap) => Event::Stop(*tap),
            Event::Noise(bits) => Event::Noise(*bits),
            Event::Queue { tap, request } => Event::Queue {
                tap: *tap,
                request: request.copy(),
            },
            Event::Unheard { tap, speaker } => Event::Unheard {
                tap: *tap,
                speaker: *speaker,
            },
        }
    }
}

/// The result of an accepted event.
#[derive(Debug, PartialEq, Eq, Drop)]
pub struct Reply {
    /// The clock after the event.
    pub now: Moment,
    /// The octets that a turn sent, if any.
    pub spoke: Option<ArrayVec<u8, 255>>,
}

impl Reply {
    /// An equal reply.
    pub fn copy(&self) -> Reply
        ensures { reply_of result ≡ reply_of self.entry.now }
    {
        Reply {
            now: self.now,
            spoke: match &self.spoke {
                Some(octets) => Some(copy_octets(octets)),
                None => None,
            },
        }
    }
}
