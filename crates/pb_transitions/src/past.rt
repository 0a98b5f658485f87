//! What a station keeps of its past: until when the bus was busy for it, and its own last telegram.

ghost use Rattle.std.specs.Prelude.{◌≡◌, ◌≤◌, ◌+◌, max};
ghost use Rattle.pb_timers.specs.Timers.{bits};
ghost use Rattle.pb_transitions.specs.Clocks.{last_turn};

use crate::moments::PastMoment;
use pb_timers::Moment;

/// What a station keeps of its past.
#[derive(Clone, Copy, Debug, PartialEq, Eq)]
pub struct Past {
    /// The latest of its start, its last End and the end of its own last telegram.
    pub quiet: PastMoment,
    /// When the station's own last telegram began; if there is none, when the station started.
    pub begin: Moment,
    /// When the station's own last telegram ended; if there is none, when the station started.
    pub end: PastMoment,
}

impl Past {
    /// The past of a station that starts at `now`.
    pub fn started(now: Moment) -> Past
        requires { now ≤ last_turn }
        ensures { result ≡ record { quiet = now; begin = now; end = now } }
    {
        Past {
            quiet: PastMoment::at(now),
            begin: now,
            end: PastMoment::at(now),
        }
    }

    /// The past after an end was heard at `at`.
    pub fn heard(self, at: Moment) -> Past
        requires { at ≤ last_turn }
        ensures { result ≡ record self { quiet = max self.quiet at } }
    {
        Past {
            quiet: self.quiet.later(PastMoment::at(at)),
            ..self
        }
    }

    /// The past after the station sent a telegram of `octets` octets at `now`.
    pub fn said(self, now: Moment, octets: usize) -> Past
        requires clock { now ≤ last_turn }
        requires octets { octets ≤ 255 }
        ensures { result
            ≡ record { quiet = max self.quiet (now + bits octets); begin = now; end = now + bits octets } }
    {
        let end = PastMoment::end_of(now, octets);
        Past {
            quiet: self.quiet.later(end),
            begin: now,
            end,
        }
    }
}
