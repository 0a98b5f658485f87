//! What is kept of an event. It is made before the event is applied.

ghost use Rattle.std.specs.Arc.{arc_value};
ghost use Rattle.std.specs.Prelude.{◌≡◌, ◌≤◌, IfOk, false, length};
ghost use Rattle.law_model.specs.Step.{step};
ghost use Rattle.law_model.specs.World.{Turn};
ghost use Rattle.pb_taps.specs.Events.{event_of, reply_of};
ghost use Rattle.pb_world.specs.Glances.{Fits};
ghost use Rattle.pb_world.specs.Refusals.{TellsSpeech, fault_of};
ghost use Rattle.pb_segment.specs.Blocks.{happened_in};
ghost use Rattle.pb_segment.specs.Histories.{is_turn};
ghost use Rattle.pb_segment.specs.Notes.{IsClockAfter, IsNoteOf, IsReplyTo, MakesRoom, earlier_fault};

use crate::blocks::Blocks;
use crate::faults::CommitFault;
use crate::histories::Happened;
use crate::known::{Known, spoken};
use crate::receipts::{KeptReceipt, KeptReply};
use pb_station::Decided;
use pb_timers::Moment;
use pb_world::{Event, Reply, World};
use std::alloc::{AllocError, Global};
use std::sync::Arc;

/// What is kept of an event that the world will accept.
#[derive(Drop)]
pub(crate) struct Note {
    /// What the history keeps.
    pub(crate) happened: Happened,
    /// What the seat keeps.
    pub(crate) kept: KeptReceipt,
}

/// Makes what is kept of a decided turn, if the world takes it, and reserves memory for it in the history, of at most
/// `limit` events, and in the seat's receipts.
///
/// Faults, the first that applies: `HistoryFull`; `World(NoMemory)`.
pub(crate) fn note_turn(
    alloc: Global,
    world: &World,
    decided: &Decided<'_>,
    known: &mut Known,
    history: &mut Blocks,
    receipts: &mut Vec<KeptReceipt>,
    limit: usize,
) -> Result<Note, CommitFault>
    requires fits { Fits world.now decided.now }
    requires most { limit ≤ 1000000 }
    requires inside { length (happened_in history.old) ≤ limit }
    ensures note { IfOk result
        (IsNoteOf world.entry.now (Turn decided.entry.now.tap) (length (happened_in history.old))) }
    ensures room { MakesRoom history.old history.new receipts.old receipts.new limit result }
{
    make_room(alloc, history, receipts, limit)?;
    let event = known.turn(alloc, decided.tap)?;
    let reply = reply_to_turn(alloc, world, decided, known)?;
    Ok(note_at(history.len(), event, reply)?)
}

/// The same for an event that is no turn.
pub(crate) fn note_event(
    alloc: Global,
    world: &World,
    event: &Event,
    known: &mut Known,
    history: &mut Blocks,
    receipts: &mut Vec<KeptReceipt>,
    limit: usize,
) -> Result<Note, CommitFault>
    requires driven { is_turn (event_of event.now) ≡ false }
    requires most { limit ≤ 1000000 }
    requires inside { length (happened_in history.old) ≤ limit }
    ensures note { IfOk result
        (IsNoteOf world.entry.now (event_of event.now) (length (happened_in history.old))) }
    ensures room { MakesRoom history.old history.new receipts.old receipts.new limit result }
{
    make_room(alloc, history, receipts, limit)?;
    let kept = known.event(alloc, event)?;
    let reply = reply_to_event(alloc, world, event, known)?;
    Ok(note_at(history.len(), kept, reply)?)
}

/// Why a turn is refused for which there is no room: the world's fault comes first.
#[inline(never)]
pub(crate) fn turn_refused(world: &World, decided: &Decided<'_>, fault: CommitFault) -> CommitFault
    requires { Fits world.now decided.now }
    ensures { result ≡ earlier_fault (fault_of (step world.entry.now (Turn decided.entry.now.tap))) fault }
{
    let event = Event::Turn(decided.tap);
    refused(world, &event, decided.speak.is_some(), fault)
}

/// Why an event is refused for which there is no room: the world's fault comes first.
#[inline(never)]
pub(crate) fn refused(world: &World, event: &Event, speaks: bool, fault: CommitFault) -> CommitFault
    requires { TellsSpeech world.now (event_of event.now) speaks }
    ensures { result ≡ earlier_fault (fault_of (step world.entry.now (event_of event.now))) fault }
{
    match world.refusal(event, speaks) {
        Some(reason) => CommitFault::World(reason),
        None => fault,
    }
}

/// Reserves memory for one more event, in a history of at most `limit`, and for its receipt.
#[inline(always)]
pub(crate) fn make_room(
    alloc: Global,
    history: &mut Blocks,
    receipts: &mut Vec<KeptReceipt>,
    limit: usize,
) -> Result<(), CommitFault>
    requires most { limit ≤ 1000000 }
    requires inside { length (happened_in history.old) ≤ limit }
    ensures room { MakesRoom history.old history.new receipts.old receipts.new limit result }
{
    if history.len() >= limit {
        return Err(CommitFault::HistoryFull);
    }
    history.reserve(alloc)?;
    receipts.reserve(1)?;
    Ok(())
}

/// The reply to a decided turn, if the world takes it.
///
/// Fault: memory was refused.
fn reply_to_turn(
    alloc: Global,
    world: &World,
    decided: &Decided<'_>,
    known: &mut Known,
) -> Result<Arc<Reply, Global>, AllocError>
    requires { Fits world.now decided.now }
    ensures { IfOk result
        (λ r. IsReplyTo world.entry.now (Turn decided.entry.now.tap) (reply_of (arc_value r))) }
{
    match decided.speak {
        Some(octets) => spoken(alloc, world.now(), octets),
        None => known.silence(alloc, world.now()),
    }
}

/// The reply to an event that is no turn, if the world accepts it.
///
/// Fault: memory was refused.
fn reply_to_event(
    alloc: Global,
    world: &World,
    event: &Event,
    known: &mut Known,
) -> Result<Arc<Reply, Global>, AllocError>
    requires { is_turn (event_of event.now) ≡ false }
    ensures { IfOk result
        (λ r. IsReplyTo world.entry.now (event_of event.now) (reply_of (arc_value r))) }
{
    known.silence(alloc, clock_after(world, event))
}

/// What is kept of an event with its reply, at index `place` of the history.
///
/// Fault: the reply is shared too often.
fn note_at(
    place: usize,
    event: Arc<Event, Global>,
    reply: Arc<Reply, Global>,
) -> Result<Note, AllocError>
    ensures happened { IfOk result
        (λ n. n.happened ≡ record {
          event = event_of (arc_value event);
          reply = reply_of (arc_value reply);
        }) }
    ensures kept { IfOk result (λ n. n.kept ≡ record { place = place; reply = reply_of (arc_value reply) }) }
{
    let kept = KeptReceipt {
        place,
        reply: KeptReply::of(&reply)?,
    };
    Ok(Note {
        happened: Happened { event, reply },
        kept,
    })
}

/// The clock after an event, if the world accepts it.
fn clock_after(world: &World, event: &Event) -> Moment
    ensures { IsClockAfter world.entry.now (event_of event.now) result }
{
    let now = world.now();
    match event {
        Event::Pass(bits) => now.add(*bits).unwrap_or(now),
        _ => now,
    }
}
