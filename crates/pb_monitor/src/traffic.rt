//! What is counted for the bus.

ghost use Rattle.std.specs.Prelude.{◌≡◌, ◌-◌, ◌*◌, ◌/◌, min};
ghost use Rattle.pb_monitor.specs.Known.{damage_of, has_moments, load_of, new_traffic, one_more, span_with, traffic_with};

use crate::bursts::Burst;
use crate::stations::one_more;

/// What is counted for the bus. Counts saturate at 2^64 - 1; moments and durations are in bit times.
#[derive(Clone, Copy, Debug, Default, PartialEq, Eq)]
pub struct Traffic {
    /// The begin of the first burst with a moment.
    pub first: Option<u64>,
    /// The end of the last burst with a moment.
    pub last: Option<u64>,
    /// How long there was a burst, in sum.
    pub busy: u64,
    /// How long all moments are known, in sum: of the bursts with moments and of the silences between two of them.
    pub span: u64,
    /// How many bursts there were.
    pub bursts: u64,
    /// How many of them spelled no telegram, by place.
    pub damaged: Damaged,
    /// The longest silence between two bursts.
    pub longest_silence: u64,
    /// How many alarms were raised.
    pub alarms: u64,
    /// How many lines, packets or runs of octets were refused.
    pub refused: u64,
}

/// How many bursts spelled no telegram, by the place in which they came.
#[derive(Clone, Copy, Debug, Default, PartialEq, Eq)]
pub struct Damaged {
    /// After a silence that no token in use leaves: probably claims that collided.
    pub after_loss: u64,
    /// In the slot of a token.
    pub taking: u64,
    /// Where a reply was due.
    pub replying: u64,
    /// Anywhere else.
    pub other: u64,
}

impl Damaged {
    /// How many there are in all places.
    pub fn total(&self) -> u64
        ensures { result ≡ damage_of self.now }
    {
        self.after_loss
            .saturating_add(self.taking)
            .saturating_add(self.replying)
            .saturating_add(self.other)
    }
}

impl Traffic {
    /// No burst yet.
    pub(crate) fn none() -> Traffic
        ensures { result ≡ new_traffic }
    {
        let damaged = Damaged {
            after_loss: 0,
            taking: 0,
            replying: 0,
            other: 0,
        };
        Traffic {
            first: None,
            last: None,
            busy: 0,
            span: 0,
            bursts: 0,
            damaged,
            longest_silence: 0,
            alarms: 0,
            refused: 0,
        }
    }

    /// Counts a burst. `before` is the end of the one before it, if nothing was missed between them.
    pub(crate) fn note(&mut self, burst: &Burst, before: Option<u64>)
        ensures { self.new ≡ traffic_with before burst.now.begin burst.now.end self.old }
    {
        self.count();
        self.busy = self
            .busy
            .saturating_add(burst.end.saturating_sub(burst.begin));
        self.span = self
            .span
            .saturating_add(span_with(burst.begin, burst.end, before));
        if self.first.is_none() {
            self.first = Some(burst.begin);
        }
        self.last = Some(burst.end);
        if let Some(end) = before {
            let silence = burst.begin.saturating_sub(end);
            self.longest_silence = self.longest_silence.max(silence);
        }
    }

    /// Counts a burst without moments.
    pub(crate) fn count(&mut self)
        ensures { self.new ≡ record self.old { bursts = one_more self.old.bursts } }
    {
        self.bursts = one_more(self.bursts);
    }

    /// Whether a burst had moments, or none has come yet.
    pub(crate) fn has_moments(&self) -> bool
        ensures { result ≡ has_moments self.now }
    {
        self.first.is_some() || self.bursts == 0
    }

    /// The load of the bus in tenths of a percent, 0 to 1000, of the stretches in which all moments are known; 0 if there
    /// are none.
    pub fn load(&self) -> u64
        ensures { result ≡ load_of self.now.busy self.now.span }
    {
        let span = u128::from(self.span);
        if span == 0 {
            return 0;
        }
        (u128::from(self.busy) * 1000 / span).min(1000) as u64
    }
}

/// How long it was from the end of the burst before, if that is known, to the end of a burst.
fn span_with(begin: u64, end: u64, before: Option<u64>) -> u64
    ensures { result ≡ span_with before begin end }
{
    end.saturating_sub(before.unwrap_or(begin))
}
