//! Receipts of accepted events, as seats keep them.

ghost use Rattle.std.specs.Prelude.{◌≡◌, ◌↔◌, IsTrue, None};
ghost use Rattle.pb_taps.specs.Events.{event_of, reply_of};
ghost use Rattle.pb_segment.specs.Histories.{is_of, is_turn};

use pb_timers::Moment;
use pb_world::{Event, Reply};
use std::alloc::{AllocError, Global};
use std::marker::Model;
use std::sync::Arc;

/// The receipt of a seat's event that was accepted.
#[derive(Debug, Drop)]
pub struct Receipt {
    /// How many events are before it in the history.
    pub place: usize,
    /// The reply to the event.
    pub reply: Reply,
}

impl Model for Receipt {
    ghost use Rattle.pb_taps.specs.Events.{reply_of};
    ghost use Rattle.pb_segment.specs.Histories as specs;

    ghost Value = { specs.Receipt };

    ghost view = { λ r. record { place = r.place; reply = reply_of r.reply } };
}

/// A receipt as a seat keeps it.
#[derive(Debug, Drop)]
pub(crate) struct KeptReceipt {
    pub(crate) place: usize,
    pub(crate) reply: KeptReply,
}

impl Model for KeptReceipt {
    ghost use Rattle.pb_segment.specs.Kept.{reply_in};
    ghost use Rattle.pb_segment.specs.Histories as specs;

    ghost Value = { specs.Receipt };

    ghost view = { λ r. record { place = r.place; reply = reply_in r.reply } };
}

impl KeptReceipt {
    /// The receipt as a user gets it.
    #[inline(always)]
    pub(crate) fn told(&self) -> Receipt
        ensures { result ≡ self.now }
    {
        Receipt {
            place: self.place,
            reply: self.reply.told(),
        }
    }
}

/// A reply as a seat keeps it. For a reply without octets, as nearly all are, this is only its moment.
#[derive(Debug, Drop)]
pub(crate) enum KeptReply {
    Silent(Moment),
    /// A reply with octets, shared with the history.
    Spoken(Arc<Reply, Global>),
}

impl KeptReply {
    ghost use Rattle.std.specs.Arc.{arc_value};
    ghost use Rattle.std.specs.Prelude.{◌≡◌, ◌↔◌, IfOk, IsTrue};
    ghost use Rattle.pb_taps.specs.Events.{reply_of};
    ghost use Rattle.pb_segment.specs.Kept.{reply_in};

    /// A reply that the history keeps.
    ///
    /// Fault: it is shared too often.
    pub(crate) fn of(reply: &Arc<Reply, Global>) -> Result<KeptReply, AllocError>
        ensures { IfOk result (λ kept. reply_in kept ≡ reply_of (arc_value reply.now)) }
    {
        match reply.spoke {
            None => Ok(KeptReply::Silent(reply.now)),
            Some(_) => Ok(KeptReply::Spoken(Arc::try_clone(reply)?)),
        }
    }

    /// The reply as a user gets it.
    #[inline(always)]
    fn told(&self) -> Reply
        ensures { reply_of result ≡ reply_in self.now }
    {
        match self {
            KeptReply::Silent(now) => Reply {
                now: *now,
                spoke: None,
            },
            KeptReply::Spoken(reply) => reply.copy(),
        }
    }

    /// Whether it is equal to a reply.
    pub(crate) fn is_same(&self, reply: &Reply) -> bool
        ensures { IsTrue result ↔ (reply_of reply.entry.now ≡ reply_in self.entry.now) }
    {
        match self {
            KeptReply::Silent(now) => is_silent_at(reply, *now),
            KeptReply::Spoken(kept) => is_same_reply(reply, kept),
        }
    }
}

/// The owner of an event: a turn belongs to its tap, any other event to the conductor.
#[derive(Clone, Copy, Debug, PartialEq, Eq)]
pub(crate) enum Owner {
    Tap(usize),
    Conductor,
}

/// Whether an event is a turn.
pub(crate) fn is_turn(event: &Event) -> bool
    ensures { result ≡ is_turn (event_of event.now) }
{
    matches!(event, Event::Turn(_))
}

/// Whether an event belongs to an owner.
pub(crate) fn is_of(owner: Owner, event: &Event) -> bool
    ensures { result ≡ is_of owner (event_of event.now) }
{
    match owner {
        Owner::Tap(tap) => match event {
            Event::Turn(of) => *of == tap,
            _ => false,
        },
        Owner::Conductor => !is_turn(event),
    }
}

/// Whether a reply has this moment and no octets.
pub(crate) fn is_silent_at(reply: &Reply, now: Moment) -> bool
    ensures { IsTrue result ↔ (reply_of reply.entry.now ≡ record { now = now; spoke = None }) }
{
    reply.now == now && reply.spoke.is_none()
}

/// Whether two replies are equal.
fn is_same_reply(one: &Reply, other: &Reply) -> bool
    ensures { IsTrue result ↔ (reply_of one.entry.now ≡ reply_of other.entry.now) }
{
    one == other
}
