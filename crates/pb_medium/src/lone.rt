//! The quick case: one undisturbed entry on the bus.

ghost use Rattle.std.specs.Prelude.{IfSome, IsTrue, map};
ghost use Rattle.pb_medium.specs.Entries.{entry_of, record_of};
ghost use Rattle.pb_medium.specs.Lone.{lone_of, IsLone, IsPlain};

use crate::entries::{Entry, Record};
use crate::senses::sent_octets;
use crate::spans::Span;
use pb_taps::Tap;

/// The only entry on a bus, which reaches each tap but its speaker as it was sent: noise, or a telegram without damage
/// or loss.
#[derive(Clone, Copy, Debug)]
pub struct Lone<'a> {
    /// The tap that sends it; `None` for noise.
    pub speaker: Option<usize>,
    /// When it is at the taps.
    pub span: Span,
    /// The octets that were sent; `None` for noise.
    pub octets: Option<&'a [u8]>,
}

/// The only entry on a bus, if it is undisturbed.
#[inline(always)]
pub fn lone_in(entries: &[Entry], delay: u32) -> Option<Lone<'_>>
    ensures { IfSome result (λ l. IsLone delay (lone_of l) (map entry_of entries.now)) }
{
    let [only] = entries else {
        return None;
    };
    match only {
        Entry::Noise { begin, end } => Some(Lone {
            speaker: None,
            span: Span::new(*begin, *end),
            octets: None,
        }),
        Entry::Sent(telegram) if is_plain(telegram) => Some(Lone {
            speaker: Some(telegram.tap),
            span: telegram.reaches(delay),
            octets: Some(&telegram.octets[..sent_octets(telegram)]),
        }),
        Entry::Sent(_) => None,
    }
}

impl Lone<'_> {
    ghost use Rattle.std.specs.Prelude.{◌≡◌};
    ghost use Rattle.pb_medium.specs.Lone.{lone_of, is_sensed_by};
    ghost use Rattle.pb_taps.specs.Taps.{tap_of};

    /// Whether the tap at an index senses it: the tap runs, does not send it, and started before its end.
    #[inline(always)]
    pub fn is_sensed_by(&self, position: usize, tap: &Tap) -> bool
        ensures { result ≡ is_sensed_by (lone_of self.now) position (tap_of tap.now) }
    {
        tap.running
            && self.speaker.is_none_or(|speaker| speaker != position)
            && tap.since < self.span.end()
    }
}

/// Whether a telegram has a duration, and neither damage nor loss.
#[inline(always)]
pub(crate) fn is_plain(telegram: &Record) -> bool
    ensures { IsTrue result → IsPlain (record_of telegram.now) }
{
    telegram.begin < telegram.end && telegram.hits.is_empty() && telegram.heard.is_heard_by_all()
}
