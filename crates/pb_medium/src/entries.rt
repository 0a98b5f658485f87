//! The entries of a trace: telegrams and noise.

ghost use Rattle.std.specs.Prelude.{◌≤◌};
ghost use Rattle.pb_timers.specs.Timers.{last_moment};

use crate::receptions::Reception;
use crate::spans::Span;
use arrayvec::ArrayVec;

/// How a telegram reached a tap.
#[derive(Clone, Copy, Debug, Default, PartialEq, Eq)]
pub enum Heard {
    /// The tap sent it.
    Own,
    /// It was received whole.
    Whole,
    /// It was received damaged, or the tap did not run all the time.
    Damaged,
    /// It was lost: it never reached the tap.
    Unheard,
    /// It has not reached the tap yet.
    #[default]
    Pending,
}

/// Damage at a tap: of one character of the telegram, by its index, or of every character.
#[derive(Clone, Copy, Debug)]
pub struct Hit {
    pub tap: usize,
    pub place: Option<u8>,
}

/// One telegram on the bus. Two are equal if their speakers, octets, begins and ends are, and each tap received them in
/// the same way.
#[derive(Debug, Drop)]
pub struct Record {
    /// The index of the tap that sent it, from 0.
    pub tap: usize,
    /// All octets that were to be sent.
    pub octets: ArrayVec<u8, 255>,
    /// When it began, in bit times.
    pub begin: u64,
    /// When it ends, in bit times. This moment is the first after it.
    pub end: u64,
    /// How it reached each tap.
    pub heard: Reception,
    /// The damage done to it so far.
    pub(crate) hits: Vec<Hit>,
    ghost begins: { begin ≤ last_moment },
    ghost ends: { end ≤ last_moment },
}

/// One entry of the trace.
#[derive(Debug, PartialEq, Eq, Drop)]
pub enum Entry {
    /// A telegram.
    Sent(Record),
    /// Noise between two moments, in bit times.
    Noise {
        /// When it begins.
        begin: u64,
        /// When it ends.
        end: u64,
    },
}

impl Record {
    ghost use Rattle.std.specs.Prelude.{◌≡◌, slice_get};
    ghost use Rattle.std.specs.List.{list_any};
    ghost use Rattle.law_model.specs.Medium.{is_unheard, reaches};
    ghost use Rattle.law_model.specs.Trace.{hits_place};
    ghost use Rattle.pb_medium.specs.Entries.{record_of};

    /// When it is on the bus, at its speaker.
    pub fn span(&self) -> Span
        ensures { result ≡ record { begin = self.now.begin; end = self.now.end } }
    {
        Span::new(self.begin, self.end)
    }

    /// When it is at the taps of others: a cable delay later.
    pub(crate) fn reaches(&self, delay: u32) -> Span
        ensures { result ≡ reaches delay (record_of self.now) }
    {
        let delay = u64::from(delay);
        Span::new(self.begin + delay, self.end + delay)
    }

    /// When it has ended at the taps of others.
    pub(crate) fn reached_end(&self, delay: u32) -> u64
        ensures { result ≡ (reaches delay (record_of self.now)).end }
    {
        self.end + u64::from(delay)
    }

    /// Whether it is lost at a tap.
    pub(crate) fn is_unheard(&self, tap: usize) -> bool
        ensures { result ≡ is_unheard (slice_get (record_of self.now).heard tap) }
    {
        self.heard.is_unheard(tap)
    }

    /// Whether the character with index `place` is damaged at a tap.
    pub(crate) fn is_hit(&self, tap: usize, place: usize) -> bool
        ensures { result ≡ list_any (hits_place tap place) (record_of self.now).hits }
    {
        self.hits.iter().any(|hit| hit.tap == tap
            && hit.place.is_none_or(|p| usize::from(p) == place))
    }
}

impl Entry {
    ghost use Rattle.std.specs.Prelude.{◌≡◌};
    ghost use Rattle.law_model.specs.Trace.{entry_end};
    ghost use Rattle.pb_medium.specs.Entries.{entry_of};

    /// When it ends, in bit times.
    pub fn end(&self) -> u64
        ensures { result ≡ entry_end (entry_of self.now) }
    {
        match self {
            Entry::Sent(record) => record.end,
            Entry::Noise { end, .. } => *end,
        }
    }
}

impl Entry {
    ghost use Rattle.std.specs.Prelude.{◌≡◌, nat_lt};
    ghost use Rattle.law_model.specs.Trace.{entry_begin, rank, goes_before};
    ghost use Rattle.law_model.specs.Medium.{reaches_taps};
    ghost use Rattle.pb_medium.specs.Entries.{entry_of};

    /// When it begins, in bit times.
    pub fn begin(&self) -> u64
        ensures { result ≡ entry_begin (entry_of self.now) }
    {
        match self {
            Entry::Sent(telegram) => telegram.begin,
            Entry::Noise { begin, .. } => *begin,
        }
    }

    /// When it is at the taps of others: a telegram a cable delay later, noise at once.
    pub fn reaches_taps(&self, delay: u32) -> Span
        ensures { result ≡ reaches_taps delay (entry_of self.now) }
    {
        match self {
            Entry::Sent(telegram) => telegram.reaches(delay),
            Entry::Noise { begin, end } => Span::new(*begin, *end),
        }
    }

    /// Whether it precedes another entry with the same begin: noise first, then telegrams by tap.
    fn ranks_below(&self, other: &Entry) -> bool
        ensures { result ≡ nat_lt (rank (entry_of self.now)) (rank (entry_of other.now)) }
    {
        match (self, other) {
            (Entry::Sent(one), Entry::Sent(two)) => one.tap < two.tap,
            (Entry::Noise { .. }, Entry::Sent(_)) => true,
            (_, Entry::Noise { .. }) => false,
        }
    }

    /// Whether it precedes another entry in the trace.
    pub fn goes_before(&self, other: &Entry) -> bool
        ensures { result ≡ goes_before (entry_of self.now) (entry_of other.now) }
    {
        self.begin() < other.begin() || (self.begin() == other.begin() && self.ranks_below(other))
    }
}
