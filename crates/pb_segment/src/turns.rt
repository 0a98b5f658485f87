//! A turn that is taken in place. What is kept of it has its memory before the station decides what it sends.

ghost use Rattle.std.specs.Arc.{arc_value};
ghost use Rattle.std.specs.Prelude.{◌≡◌, ◌∷◌, [], IfOk, IfErr, OnOk, OnErr, None};
ghost use Rattle.law_live.specs.Promises.{LeadOn};
ghost use Rattle.law_model.specs.Step.{step};
ghost use Rattle.law_model.specs.World.{Turn};
ghost use Rattle.pb_taps.specs.Events.{event_of, reply_of};
ghost use Rattle.pb_taps.specs.Faults.{Refuses};
ghost use Rattle.pb_segment.specs.Notes.{IsKeptOf, IsRefused, said_by};

use crate::faults::CommitFault;
use crate::histories::Happened;
use crate::known::{Known, Rooms};
use crate::notes::Note;
use crate::receipts::{KeptReceipt, KeptReply};
use pb_world::{Event, Reply, World, WorldFault};
use std::alloc::Global;
use std::sync::Arc;

/// Takes a tap's turn in place, and makes what is kept of it at index `place` of the history. All memory is reserved
/// before the world changes. A refused turn leaves the world as it was.
///
/// Faults: those of the world; `World(NoMemory)` may come before them.
#[inline(always)]
pub(crate) fn take_turn(
    alloc: Global,
    world: &mut World,
    tap: usize,
    known: &mut Known,
    place: usize,
) -> Result<Note, CommitFault>
    ensures note { IfOk result (IsKeptOf world.old (Turn tap) place world.new) }
    ensures promises { OnOk result (LeadOn world.old (Turn tap ∷ []) world.new) }
    ensures same { OnErr result (world.new ≡ world.old) }
    ensures err { IfErr result (IsRefused world.old (Turn tap)) }
{
    let event = known.turn(alloc, tap)?;
    let silence = known.silence(alloc, world.now())?;
    let rooms = known.rooms(alloc, world.now())?;
    let (mut shared, mut own) = (rooms.shared, rooms.own);
    let (Some(said), Some(copy)) = (Arc::get_mut(&mut shared), Arc::get_mut(&mut own)) else {
        return Err(CommitFault::World(WorldFault::NoMemory));
    };
    if !turn_into(alloc, world, tap, said)? {
        known.put_back(Some(shared), Some(own));
        return Ok(silent_note(place, event, silence));
    }
    match Arc::try_clone(&shared) {
        Ok(reply) => {
            known.put_back(None, Some(own));
            Ok(spoken_note(place, event, shared, reply))
        }
        Err(_) => {
            *copy = shared.copy();
            Ok(spoken_note(place, event, shared, own))
        }
    }
}

/// The tap takes its turn. Returns whether it sends octets; the reply with them is put into `room`.
///
/// Faults: those of the world. A refused turn changes nothing.
#[inline(always)]
#[tactic(auto, using(crate::proofs::Replies::turn_clock))]
fn turn_into(
    alloc: Global,
    world: &mut World,
    tap: usize,
    room: &mut Reply,
) -> Result<bool, WorldFault>
    ensures ok { IfOk result (λ sent. step world.old (Turn tap)
        ≡ Ok (world.new, said_by sent world.old.now (reply_of room.new))) }
    ensures promises { OnOk result (LeadOn world.old (Turn tap ∷ []) world.new) }
    ensures same { OnErr result (world.new ≡ world.old) }
    ensures err { IfErr result (Refuses world.old (Turn tap) (step world.old (Turn tap))) }
{
    let reply = world.apply(alloc, Event::Turn(tap))?;
    let sent = reply.spoke.is_some();
    if sent {
        *room = reply;
    }
    Ok(sent)
}

/// What is kept of a turn that sends nothing.
#[inline(always)]
fn silent_note(place: usize, event: Arc<Event, Global>, reply: Arc<Reply, Global>) -> Note
    requires { (reply_of (arc_value reply)).spoke ≡ None }
    ensures happened { result.happened
        ≡ record { event = event_of (arc_value event); reply = reply_of (arc_value reply) } }
    ensures kept { result.kept ≡ record { place = place; reply = reply_of (arc_value reply) } }
{
    let kept = KeptReceipt {
        place,
        reply: KeptReply::Silent(reply.now),
    };
    Note {
        happened: Happened { event, reply },
        kept,
    }
}

/// What is kept of a turn that sends octets: the history and the seat each have an owner of equal replies.
#[inline(always)]
fn spoken_note(
    place: usize,
    event: Arc<Event, Global>,
    reply: Arc<Reply, Global>,
    told: Arc<Reply, Global>,
) -> Note
    requires { reply_of (arc_value told) ≡ reply_of (arc_value reply) }
    ensures happened { result.happened
        ≡ record { event = event_of (arc_value event); reply = reply_of (arc_value reply) } }
    ensures kept { result.kept ≡ record { place = place; reply = reply_of (arc_value reply) } }
{
    let kept = KeptReceipt {
        place,
        reply: KeptReply::Spoken(told),
    };
    Note {
        happened: Happened { event, reply },
        kept,
    }
}
