//! The history of a segment.

ghost use Rattle.std.specs.Prelude.{◌≡◌};

use crate::blocks::Blocks;
use pb_world::{Event, Reply};
use std::alloc::Global;
use std::marker::Model;
use std::sync::Arc;

/// An accepted event and its reply.
#[derive(Debug, Drop)]
pub(crate) struct Happened {
    pub(crate) event: Arc<Event, Global>,
    pub(crate) reply: Arc<Reply, Global>,
}

impl Model for Happened {
    ghost use Rattle.std.specs.Arc.{arc_value};
    ghost use Rattle.pb_taps.specs.Events.{event_of, reply_of};
    ghost use Rattle.pb_segment.specs.Histories as specs;

    ghost Value = { specs.Happened };

    ghost view = { λ h. record {
      event = event_of (arc_value h.event);
      reply = reply_of (arc_value h.reply);
    } };
}

/// The events that a segment has accepted, each with its reply, in order.
#[derive(Debug, Drop)]
pub struct History {
    happened: Blocks,
}

impl Model for History {
    ghost use Rattle.std.specs.Prelude.{List};
    ghost use Rattle.pb_segment.specs.Blocks.{happened_in};
    ghost use Rattle.pb_segment.specs.Histories as specs;

    ghost Value = { List specs.Happened };

    ghost view = { λ h. happened_in h.happened };
}

impl History {
    ghost use Rattle.std.specs.Prelude.{◌≡◌, None, Some, MatchOption, length, slice_get};
    ghost use Rattle.pb_taps.specs.Events.{event_of, reply_of};
    ghost use Rattle.pb_segment.specs.Blocks.{happened_in};

    /// The history of some events.
    pub(crate) fn of(happened: Blocks) -> History
        ensures { result ≡ happened_in happened }
    {
        History { happened }
    }

    /// The number of events.
    pub fn len(&self) -> usize
        ensures { result ≡ length self.now }
    {
        self.happened.len()
    }

    /// The event with this index, from 0, and its reply; `None` if there are fewer events.
    pub fn at(&self, place: usize) -> Option<(&Event, &Reply)>
        ensures { MatchOption result (slice_get self.entry.now place ≡ None)
            (λ h. slice_get self.entry.now place
            ≡ Some (record { event = event_of h.0.now; reply = reply_of h.1.now })) }
    {
        let happened = self.happened.get(place)?;
        Some((&happened.event, &happened.reply))
    }
}
