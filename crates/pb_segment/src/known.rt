//! Events and replies that a history shares, so that few of them take the memory of the largest.

ghost use Rattle.std.specs.Arc.{arc_value};
ghost use Rattle.std.specs.Prelude.{◌≡◌, ◌↔◌, IfOk, IsTrue, None, Some};
ghost use Rattle.law_model.specs.World.{Pass, Turn};
ghost use Rattle.pb_taps.specs.Events.{event_of, reply_of};

use crate::receipts::is_silent_at;
use arrayvec::ArrayVec;
use pb_telegram::copy_octets;
use pb_timers::Moment;
use pb_world::{Event, Reply};
use std::alloc::{AllocError, Global};
use std::sync::Arc;

/// How many taps, and how many lengths of passes, have a place in the tables.
const PLACES: usize = 128;

/// Events and replies of the history that are shared by equal ones: the turns of a tap, passes of one length, and the
/// reply to events of one moment that send nothing.
#[derive(Drop)]
pub(crate) struct Known {
    /// By tap.
    turns: Vec<Option<Arc<Event, Global>>>,
    /// By length.
    passes: Vec<Option<Arc<Event, Global>>>,
    /// The last reply without octets.
    silent: Arc<Reply, Global>,
    /// Memory for the next reply with octets.
    shared: Option<Arc<Reply, Global>>,
    /// Memory for a seat's own copy of one. It is not used before a reply has 2^63 owners.
    own: Option<Arc<Reply, Global>>,
}

/// Memory for a reply with octets, reserved before the station decides what it sends.
#[derive(Drop)]
pub(crate) struct Rooms {
    /// For the history and the seat.
    pub(crate) shared: Arc<Reply, Global>,
    /// For the seat, if the other can't be shared.
    pub(crate) own: Arc<Reply, Global>,
}

impl Known {
    /// Nothing is shared yet.
    ///
    /// Fault: memory was refused.
    pub(crate) fn new(alloc: Global, now: Moment) -> Result<Known, AllocError> {
        Ok(Known {
            turns: no_events(alloc)?,
            passes: no_events(alloc)?,
            silent: Arc::new(alloc, Reply { now, spoke: None })?,
            shared: None,
            own: None,
        })
    }

    /// The turn of a tap, shared if it is known.
    ///
    /// Fault: memory was refused.
    pub(crate) fn turn(
        &mut self,
        alloc: Global,
        tap: usize,
    ) -> Result<Arc<Event, Global>, AllocError>
        ensures { IfOk result (λ kept. event_of (arc_value kept) ≡ Turn tap) }
    {
        if let Some(Some(known)) = self.turns.get(tap % PLACES)
            && is_turn_of(known, tap)
        {
            return Ok(Arc::try_clone(known)?);
        }
        learn_turn(alloc, &mut self.turns, tap)
    }

    /// An event, shared if it is a known pass.
    ///
    /// Fault: memory was refused.
    pub(crate) fn event(
        &mut self,
        alloc: Global,
        event: &Event,
    ) -> Result<Arc<Event, Global>, AllocError>
        ensures { IfOk result (λ kept. event_of (arc_value kept) ≡ event_of event.now) }
    {
        let Event::Pass(bits) = event else {
            return copied(alloc, event);
        };
        if let Some(Some(known)) = self.passes.get(place_of(*bits))
            && is_pass_of(known, *bits)
        {
            return Ok(Arc::try_clone(known)?);
        }
        learn_pass(alloc, &mut self.passes, *bits)
    }

    /// A reply without octets at `now`, shared by the history and seats.
    ///
    /// Fault: memory was refused.
    pub(crate) fn silence(
        &mut self,
        alloc: Global,
        now: Moment,
    ) -> Result<Arc<Reply, Global>, AllocError>
        ensures { IfOk result (λ kept. reply_of (arc_value kept) ≡ record { now = now; spoke = None }) }
    {
        if !is_silent_at(&self.silent, now) {
            self.silent = Arc::new(alloc, Reply { now, spoke: None })?;
        }
        Arc::try_clone(&self.silent)
    }

    /// Memory for the next reply with octets. It is allocated only where what was put back before is used up.
    ///
    /// Fault: memory was refused.
    #[inline(always)]
    pub(crate) fn rooms(&mut self, alloc: Global, now: Moment) -> Result<Rooms, AllocError> {
        Ok(Rooms {
            shared: room_in(alloc, &mut self.shared, now)?,
            own: room_in(alloc, &mut self.own, now)?,
        })
    }

    /// Takes back memory for the next reply with octets, as far as it is left.
    #[inline(always)]
    pub(crate) fn put_back(
        &mut self,
        shared: Option<Arc<Reply, Global>>,
        own: Option<Arc<Reply, Global>>,
    ) {
        self.shared = shared;
        self.own = own;
    }
}

/// Takes the memory for a reply that is kept at a place, or allocates some.
///
/// Fault: memory was refused.
#[inline(always)]
fn room_in(
    alloc: Global,
    place: &mut Option<Arc<Reply, Global>>,
    now: Moment,
) -> Result<Arc<Reply, Global>, AllocError> {
    match place.take() {
        Some(room) => Ok(room),
        None => Ok(Arc::new(alloc, Reply { now, spoke: None })?),
    }
}

/// Empty places for events.
///
/// Fault: memory was refused.
fn no_events(alloc: Global) -> Result<Vec<Option<Arc<Event, Global>>>, AllocError> {
    let mut events = Vec::with_capacity(alloc, PLACES)?;
    for _ in 0..PLACES {
        events.push(None)?;
    }
    Ok(events)
}

/// A reply with octets at `now`, shared by the history and a seat.
///
/// Fault: memory was refused.
pub(crate) fn spoken(
    alloc: Global,
    now: Moment,
    octets: &ArrayVec<u8, 255>,
) -> Result<Arc<Reply, Global>, AllocError>
    ensures { IfOk result (λ kept. reply_of (arc_value kept)
        ≡ record { now = now; spoke = Some octets.now.items }) }
{
    let spoke = Some(copy_octets(octets));
    Ok(Arc::new(alloc, Reply { now, spoke })?)
}

/// An event of a rare kind. Kept out of line.
#[inline(never)]
fn copied(alloc: Global, event: &Event) -> Result<Arc<Event, Global>, AllocError>
    ensures { IfOk result (λ kept. event_of (arc_value kept) ≡ event_of event.now) }
{
    Ok(Arc::new(alloc, event.copy())?)
}

/// The turn of a tap, which is known from now on. Kept out of line: it is rare, and its frame has room for an event.
#[inline(never)]
fn learn_turn(
    alloc: Global,
    turns: &mut Vec<Option<Arc<Event, Global>>>,
    tap: usize,
) -> Result<Arc<Event, Global>, AllocError>
    ensures { IfOk result (λ kept. event_of (arc_value kept) ≡ Turn tap) }
{
    learn(alloc, turns, tap % PLACES, Event::Turn(tap))
}

/// A pass of a length, which is known from now on. Kept out of line for the same reason.
#[inline(never)]
fn learn_pass(
    alloc: Global,
    passes: &mut Vec<Option<Arc<Event, Global>>>,
    bits: u64,
) -> Result<Arc<Event, Global>, AllocError>
    ensures { IfOk result (λ kept. event_of (arc_value kept) ≡ Pass bits) }
{
    learn(alloc, passes, place_of(bits), Event::Pass(bits))
}

/// The index at which a pass of a length is stored.
fn place_of(bits: u64) -> usize {
    (bits % PLACES as u64) as usize
}

/// An event that is known from now on.
fn learn(
    alloc: Global,
    events: &mut Vec<Option<Arc<Event, Global>>>,
    place: usize,
    event: Event,
) -> Result<Arc<Event, Global>, AllocError>
    ensures { IfOk result (λ kept. event_of (arc_value kept) ≡ event_of event) }
{
    let kept = Arc::new(alloc, event)?;
    if place < events.len() {
        events[place] = Some(Arc::try_clone(&kept)?);
    }
    Ok(kept)
}

/// Whether an event is the turn of a tap.
fn is_turn_of(event: &Event, tap: usize) -> bool
    ensures { IsTrue result ↔ (event_of event.now ≡ Turn tap) }
{
    match event {
        Event::Turn(of) => *of == tap,
        _ => false,
    }
}

/// Whether an event is a pass of a length.
fn is_pass_of(event: &Event, bits: u64) -> bool
    ensures { IsTrue result ↔ (event_of event.now ≡ Pass bits) }
{
    match event {
        Event::Pass(of) => *of == bits,
        _ => false,
    }
}
