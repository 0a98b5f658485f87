//! Moments of the past, and questions about them.

ghost use Rattle.std.specs.Prelude.{◌≡◌, ◌≤◌, ◌+◌, max};
ghost use Rattle.law_turn.specs.Stations.{earlier};
ghost use Rattle.pb_transitions.specs.Clocks.{is_past};

use pb_timers::{Moment, bits};
use std::marker::Model;

/// A moment until which a station was quiet or spoke: at most the end of the longest telegram, sent at the last moment
/// of a turn. The sum of it and a timer is thus a [`Moment`].
#[derive(Clone, Copy, Debug, PartialEq, Eq)]
pub struct PastMoment {
    moment: Moment,
}

impl Model for PastMoment {
    ghost use Rattle.std.specs.Prelude.{◌≤◌, ℕ};
    ghost use Rattle.pb_transitions.specs.Clocks.{last_end};

    ghost Value = { ℕ };

    ghost view = { λ m. m.moment };

    ghost invariant = { λ m. m.moment ≤ last_end };

    ghost inverse = { λ n. record { moment = n } };
}

impl PastMoment {
    ghost use Rattle.std.specs.Prelude.{◌≡◌, ◌≤◌, ◌+◌, max};
    ghost use Rattle.pb_timers.specs.Timers as timers;
    ghost use Rattle.pb_transitions.specs.Clocks.{last_turn, last_end};

    /// The moment of a turn, or an earlier one.
    pub fn at(moment: Moment) -> PastMoment
        requires { moment ≤ last_turn }
        ensures { result ≡ moment }
    {
        PastMoment { moment }
    }

    /// The end of a telegram of at most 255 octets that is sent at `now`.
    pub fn end_of(now: Moment, octets: usize) -> PastMoment
        requires clock { now ≤ last_turn }
        requires octets { octets ≤ 255 }
        ensures { result ≡ now + timers.bits octets }
    {
        PastMoment {
            moment: now.after(bits(octets)),
        }
    }

    /// The moment.
    pub fn get(self) -> Moment
        ensures value { result ≡ self }
        ensures bound { self ≤ last_end }
    {
        self.moment
    }

    /// The later of two.
    pub fn later(self, other: PastMoment) -> PastMoment
        ensures { result ≡ max self other }
    {
        PastMoment {
            moment: self.moment.later(other.moment),
        }
    }
}

/// The earlier of two moments; if one is `None`, the other.
pub fn earlier(one: Option<Moment>, two: Option<Moment>) -> Option<Moment>
    ensures { result ≡ earlier one two }
{
    match (one, two) {
        (Some(one), Some(two)) => Some(if two < one { two } else { one }),
        (one, two) => one.or(two),
    }
}

/// Whether `moment` will be more than `lag` bit times ago when the clock, now at `now`, is `bits` bit times later.
/// `None` never is.
#[inline(always)]
pub fn is_past(moment: Option<Moment>, lag: u32, now: Moment, bits: u64) -> bool
    ensures { result ≡ is_past lag (now + bits) moment }
{
    let Some(moment) = moment else {
        return false;
    };
    let to = now.get().saturating_add(bits);
    moment.get() < to.saturating_sub(u64::from(lag))
}
