//! The draft of a report, read while the receipts are still compared.

use crate::blocks::Blocks;
use crate::outlooks::Outlook;
use crate::reports::Report;
use pb_world::{Event, Reply};
use std::marker::Model;

/// What has happened on a segment that is being closed, before it is known whether its seats agree.
#[derive(Debug, Drop)]
pub struct Draft<'a> {
    happened: &'a Blocks,
    outlooks: &'a [Outlook],
}

/// A report, and what the caller found in its draft.
#[derive(Drop)]
pub struct Closed<T> {
    /// The report.
    pub report: Report,
    /// What the caller found.
    pub found: T,
}

impl<'a> Model for Draft<'a> {
    ghost use Rattle.pb_segment.specs.Blocks.{happened_in};
    ghost use Rattle.pb_segment.specs.Drafts.{DraftView};

    ghost Value = { DraftView };

    ghost view = { λ d. record { history = happened_in d.happened.now; outlooks = d.outlooks.now } };
}

impl<'a> Draft<'a> {
    ghost use Rattle.std.specs.Prelude.{◌≡◌, None, Some, MatchOption, length, slice_get};
    ghost use Rattle.pb_taps.specs.Events.{event_of, reply_of};
    ghost use Rattle.pb_segment.specs.Blocks.{happened_in};

    /// The draft of some events and of the conductor's outlooks.
    pub(crate) fn of(happened: &'a Blocks, outlooks: &'a [Outlook]) -> Draft<'a>
        ensures { result ≡ record { history = happened_in happened.now; outlooks = outlooks.now } }
    {
        Draft { happened, outlooks }
    }

    /// How many events were accepted.
    pub fn len(&self) -> usize
        ensures { result ≡ length self.now.history }
    {
        self.happened.len()
    }

    /// The event with this index, from 0, and its reply; `None` if there are fewer events.
    pub fn at(&self, place: usize) -> Option<(&'a Event, &'a Reply)>
        ensures { MatchOption result (slice_get self.entry.now.history place ≡ None)
            (λ h. slice_get self.entry.now.history place
            ≡ Some (record { event = event_of h.0.now; reply = reply_of h.1.now })) }
    {
        let happened = self.happened.get(place)?;
        Some((&happened.event, &happened.reply))
    }

    /// The conductor's outlooks, in order.
    pub fn outlooks(&self) -> &'a [Outlook]
        ensures { result.now ≡ self.now.outlooks }
    {
        self.outlooks
    }
}
