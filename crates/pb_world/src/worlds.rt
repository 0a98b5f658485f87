//! The public interface of a bus: `World`, and runs of events on it.

ghost use Rattle.std.specs.Prelude.{◌≡◌, ◌≤◌, OnOk, IfErr, Some, length, map, take};
ghost use Rattle.pb_taps.specs.Events.{event_of, reply_of};
ghost use Rattle.pb_world.specs.Worlds.{lent_event, StopsAt};
ghost use Rattle.law_model.specs.Step.{RunsTo};
ghost use Rattle.law_model.specs.Laws.{IsEvent};
ghost use Rattle.law_live.specs.Promises.{LeadOn};

use crate::buses::Bus;
use crate::making::new_bus;
use arrayvec::ArrayVec;
use pb_faults::NoMemory;
use pb_medium::Entry;
use pb_station::{Decided, Decision, Glance, Station};
use pb_taps::{Event, NewFault, Reply, TapSpec, WorldFault};
use pb_telegram::copy_octets;
use pb_timers::{BusParams, Moment};
use std::alloc::Global;
use std::marker::Model;

/// Stations at the taps of one bus, its clock, and the trace of all that was sent (EN 50170-2, medium access; the
/// medium and its events are this profile's).
///
/// A tap is an index in the list of taps, from 0. All times are in bit times.
#[derive(Drop)]
pub struct World {
    bus: Bus,
}

impl Model for World {
    ghost use Rattle.law_model.specs.World as model;
    ghost use Rattle.pb_world.specs.Buses.{world_of, IsKept};

    ghost Value = { model.World };

    ghost view = { λ w. world_of w.bus };

    ghost invariant = { λ w. IsKept w.bus };
}

impl World {
    ghost use Rattle.std.specs.Prelude.{◌≡◌, ◌<◌, [], ◌∷◌, Ok, None, IsTrue, ◌↔◌, IfOk, IfErr, OnOk, MatchOption, length, map, slice_get};
    ghost use Rattle.law_model.specs.Laws.{IsEvent};
    ghost use Rattle.law_model.specs.Step.{step};
    ghost use Rattle.law_model.specs.World.{new_world, trace_limit, Turn};
    ghost use Rattle.pb_medium.specs.Entries.{entry_of};
    ghost use Rattle.pb_taps.specs.Events.{event_of};
    ghost use Rattle.pb_world.specs.Refusals.{fault_of, TellsSpeech};
    ghost use Rattle.pb_taps.specs.Faults.{RefusesNew};
    ghost use Rattle.pb_taps.specs.Taps.{spec_of};
    ghost use Rattle.pb_world.specs.Worlds.{due_at, Follows, Goes, IsStationAt};
    ghost use Rattle.pb_world.specs.Glances.{CanBeDecided, Fits, IsGlance};
    ghost use Rattle.law_runs.specs.Bus.{next_change};
    ghost use Rattle.law_live.specs.Actions.{ActOn};
    ghost use Rattle.law_live.specs.Promises.{KeepsPromises, LeadOn, LeadTo};
    ghost use Rattle.law_rings.specs.Settled.{is_settled};
    ghost use Rattle.law_token.specs.Actions.{Sets};
    ghost use Rattle.pb_world.specs.Data.{SetsData};

    /// A world at clock 0. No tap runs yet.
    ///
    /// Faults, the first that applies: `NoTaps` for an empty list; `TooManyTaps` if there are more than 127;
    /// `BadAddress` with the lowest index of a master with an address over the highest station address, or of a passive
    /// station with one over 126; `NoMemory`. Equal addresses are accepted.
    ///
    /// No station may initiate in it, its trace is legal, and no master has been in silence. No events have led to it
    /// yet (`lead`): this is the start of what calls promise about later worlds.
    pub fn new(alloc: Global, params: BusParams, specs: &[TapSpec]) -> Result<World, NewFault>
        ensures ok { IfOk result (λ w. new_world params (map spec_of specs.now) ≡ Ok w) }
        ensures lead { IfOk result (λ w. LeadTo w [] w) }
        ensures limit { IfOk result (λ w. w.limit ≡ trace_limit) }
        ensures promises { IfOk result (λ w. KeepsPromises w [] w) }
        ensures fault { IfErr result (RefusesNew (new_world params (map spec_of specs.now))) }
    {
        let bus = new_bus(alloc, params, specs)?;
        Ok(World { bus })
    }

    /// Applies an event, and returns the clock and the octets that a turn sent, if any. A refused event changes
    /// nothing.
    ///
    /// - `Turn`: the station reads its unread marks, and the timers between them, in order of time, and then speaks if
    ///   it is due (EN 50170-2, token passing). Faults: `NoSuchTap`; `NotRunning`; `TraceFull` if it would send and the
    ///   trace has 100,000 entries; `NoMemory`.
    /// - `Pass`: time passes, in bit times, at most to the next end on the bus, and running taps get marks of what
    ///   began and ended. Faults: `ZeroTime`; `TooFar` with that end; `ClockFull` past 1,000,000,000,000; `InboxFull`
    ///   with the lowest index of a tap that would have more than 64 unread marks.
    /// - `Damage`: a tap receives the speaker's telegram on the bus damaged: one character of it, or every character.
    ///   Faults: `NoSuchTap`; `NothingInAir` if no telegram of the speaker is on its way, the tap is the speaker, or
    ///   the telegram has no character with this index; `NoMemory`.
    /// - `Start`: the station starts with nothing known; a master listens for the ring. Faults: `NoSuchTap`; `Running`
    ///   if it runs or a telegram of its own is still on the bus.
    /// - `Stop`: the station stops, and drops its unread marks and a reply that is not sent yet. A telegram that it is
    ///   sending ends with the character being sent; its record keeps all octets that were to be sent. Faults:
    ///   `NoSuchTap`; `NotRunning`.
    /// - `Queue`: a request is appended to those of its priority at a running master. Faults: `NoSuchTap`; `NotRunning`
    ///   if the tap is stopped or passive; `QueueFull` if 16 of its priority wait.
    /// - `Noise`: a disturbance that is no telegram reaches every tap from the clock on, for some bit times. Noise on
    ///   the bus is extended to that end, if it would end earlier. Faults: `ZeroTime`; if there is no noise on the bus,
    ///   `TraceFull` if the trace has 100,000 entries, and `NoMemory`.
    /// - `Unheard`: the telegram that the speaker has begun at the clock is lost at a tap. Faults: `NoSuchTap`;
    ///   `NothingInAir` if the speaker has begun none, or is the tap itself.
    ///
    /// If the events that led to this world, and this one, break no premise, at most one station may initiate after it,
    /// the trace names that one, and each telegram that only a holder sends is legal (medium access: token passing). If
    /// none of these events loses a telegram at a tap or lets a turn be late, no running master that is not offline has
    /// been in silence, as it hears the bus, for longer than its time-out and the lag. If they break no premise, the bus
    /// has been without a token telegram and without noise for no longer than the bound of
    /// [`liveness`](crate::liveness) while a running master was not offline.
    ///
    /// ```
    /// let alloc = rt.alloc();
    /// let params = BusParams::new(100, 37, 60, 11, 0, 10_000, 10, 5, 1, 0);
    /// let params = params.expect(&rt, "valid parameters");
    /// let (address, kind, reply) = (1, Kind::Master, ArrayVec::new());
    /// let taps = [TapSpec {
    ///     address,
    ///     kind,
    ///     reply,
    /// }];
    /// let mut world = World::new(alloc, params, &taps).expect(&rt, "a world");
    /// world.apply(alloc, Event::Start(0)).expect(&rt, "a start");
    /// world.apply(alloc, Event::Pass(800)).expect(&rt, "time");
    /// // after 800 bit times of silence the master claims the token, by a token to itself
    /// let reply = world.apply(alloc, Event::Turn(0)).expect(&rt, "a turn");
    /// let claim = reply.spoke.expect(&rt, "a telegram");
    /// assert_eq!(rt; claim.as_slice(), [0xdc, 1, 1].as_slice());
    /// assert_eq!(rt; world.trace().len(), 1);
    /// ```
    pub fn apply(&mut self, alloc: Global, event: Event) -> Result<Reply, WorldFault>
        ensures follows { Follows self.old (event_of event) result self.new }
        ensures promises { OnOk result (LeadOn self.old (event_of event ∷ []) self.new) }
    {
        self.bus.apply(alloc, &event)?;
        Ok(reply(&self.bus))
    }

    /// Changes the data with which the station at a tap replies to the next request for data (message cycles: SRD),
    /// between two events: the tap's definition has the new data then. A reply that is not sent yet stays, and a repeat
    /// of the last request still gets the reply that it got. The premises are judged on the events alone, and what
    /// [`apply`](World::apply) promises holds with such changes between the events.
    ///
    /// Fault: `NoSuchTap`. Nothing is allocated.
    pub fn set_reply(&mut self, tap: usize, reply: ArrayVec<u8, 246>) -> Result<(), WorldFault>
        ensures sets { SetsData self.old tap reply.items result self.new }
        ensures promises { OnOk result (ActOn self.old (Sets tap reply.items ∷ []) self.new) }
    {
        self.bus.set_reply(tap, reply)
    }

    /// Applies an event, without making a reply.
    fn does(&mut self, alloc: Global, event: &Event) -> Result<(), WorldFault>
        ensures goes { Goes self.old (event_of event.now) result self.new }
        ensures event { IsEvent (event_of event.now) }
    {
        self.bus.apply(alloc, event)
    }

    /// The trace of the bus: telegrams and noise by begin; at one begin noise first, then telegrams by tap.
    pub fn trace(&self) -> &[Entry]
        ensures { map entry_of result.now ≡ self.entry.now.trace }
    {
        self.bus.trace.entries()
    }

    /// Consumes the world and returns its trace, as [`trace`](World::trace) shows it.
    pub fn into_trace(self) -> Vec<Entry>
        ensures { map entry_of result.items ≡ self.trace }
    {
        self.bus.trace.into_entries()
    }

    /// The clock, in bit times.
    pub fn now(&self) -> Moment
        ensures { result ≡ self.entry.now.now }
    {
        self.bus.now
    }

    /// The number of taps.
    pub fn taps(&self) -> usize
        ensures { result ≡ length self.entry.now.taps }
    {
        self.bus.taps.len()
    }

    /// When the station at a tap has to take its turn, in bit times: the earliest of its first unread mark, its timer
    /// and its speaking moment. `None` if there is no such tap, it does not run, or it waits for nothing.
    pub fn due(&self, tap: usize) -> Option<Moment>
        ensures { result ≡ due_at self.entry.now tap }
    {
        self.bus.due(tap)
    }

    /// The next moment at which something changes on the bus, apart from turns, in bit times: the earliest of the ends
    /// on the bus, at their speakers and at the other taps; the bit time after a telegram reaches the other taps or
    /// noise begins; and the next bit time, if a tap has started now during activity that began before. `None` if
    /// nothing is to come.
    pub fn next_change(&self) -> Option<Moment>
        ensures { result ≡ next_change self.entry.now }
    {
        self.bus.next_change()
    }

    /// Whether the ring is settled, each station as it is once it has read its unread marks: all running masters that are
    /// not offline agree on who belongs to the ring, and have had the token; one of them has it; no station has a reply
    /// to send; and nothing is on its way, so only between telegrams. If the events that led to this world and those to
    /// come break no premise, each master of the ring gets the token within the bound of a rotation, again and again,
    /// while there is no damage, noise, start or stop (law_rings; token passing: logical ring; target rotation time).
    /// Nothing is changed or allocated.
    ///
    /// Telegrams that are over aren't looked at where the bus has no cable delay; else the answer takes time in
    /// proportion to the trace.
    pub fn is_settled(&self) -> bool
        ensures { result ≡ is_settled self.entry.now }
    {
        self.bus.is_settled()
    }

    /// A glance at a tap: its station, its unread marks, and the clock. A turn can be decided from it
    /// ([`decide`](pb_station::decide)). The caller ensures that the tap exists.
    ///
    /// Fault: `NoMemory` if memory was refused, for the station and the marks.
    pub fn glance_of(&self, alloc: Global, tap: usize) -> Result<Glance, NoMemory>
        requires { tap < length self.now.taps }
        ensures shows { IfOk result (IsGlance self.entry.now tap) }
        ensures turn { IfOk result CanBeDecided }
    {
        self.bus.glance(alloc, tap)
    }

    /// The glance of [`glance_of`](World::glance_of), for a turn that is decided soon. Stations that decided turns have
    /// replaced are kept, and the glance reuses their memory, so that it and the decision seldom allocate. The world is
    /// unchanged. The caller ensures that the tap exists.
    ///
    /// Fault: `NoMemory` if memory was refused, for the station and the marks.
    pub fn glance_in_room(&mut self, alloc: Global, tap: usize) -> Result<Glance, NoMemory>
        requires { tap < length self.old.taps }
        ensures shows { IfOk result (IsGlance self.old tap) }
        ensures turn { IfOk result CanBeDecided }
        ensures same { self.new ≡ self.old }
    {
        self.bus.glance_in_room(alloc, tap)
    }

    /// Whether a decision was computed from the present state of its tap: the station, its unread marks and the clock
    /// are the decision's. It is false if there is no such tap. Nothing is changed or allocated.
    pub fn fits(&self, decision: &Decision) -> bool
        ensures { IsTrue result ↔ Fits self.entry.now decision.entry.now }
    {
        self.bus.fits(decision)
    }

    /// The same as [`fits`](World::fits), for a decision with a borrowed buffer. Nothing is changed or allocated.
    pub fn fits_decided(&self, decided: &Decided<'_>) -> bool
        ensures { IsTrue result ↔ Fits self.entry.now decided.entry.now }
    {
        self.bus.fits_decided(decided)
    }

    /// Why [`apply`](World::apply) would refuse an event, apart from memory: a fault with a number of 1 to 10, or
    /// `None`. For a turn, the caller ensures that `speaks` is whether the station would send anything; for other
    /// events it is ignored. Nothing is changed or allocated.
    pub fn refusal(&self, event: &Event, speaks: bool) -> Option<WorldFault>
        requires { TellsSpeech self.now (event_of event.now) speaks }
        ensures { result ≡ fault_of (step self.entry.now (event_of event.now)) }
    {
        self.bus.refusal(event, speaks)
    }

    /// Takes a decided turn: the result, and the world after it, are those of `Turn` at its tap. A refused turn changes
    /// nothing. The caller ensures that the decision [`fits`](World::fits).
    ///
    /// Faults: those of `Turn`.
    #[inline(always)]
    pub fn take(&mut self, alloc: Global, decision: Decision) -> Result<Reply, WorldFault>
        requires { Fits self.old decision }
        ensures follows { Follows self.old (Turn decision.tap) result self.new }
        ensures promises { OnOk result (LeadOn self.old (Turn decision.tap ∷ []) self.new) }
    {
        let mut octets = None;
        self.take_decided(alloc, decision.lend(&mut octets))
    }

    /// Takes a decided turn with a borrowed buffer: the result, and the world after it, are those of
    /// [`take`](World::take). A refused turn changes nothing. The caller ensures [`fits_decided`](World::fits_decided).
    ///
    /// Faults: those of `Turn`.
    #[inline(always)]
    pub fn take_decided(&mut self, alloc: Global, decided: Decided<'_>) -> Result<Reply, WorldFault>
        requires { Fits self.old decided }
        ensures follows { Follows self.old (Turn decided.entry.tap) result self.new }
        ensures promises { OnOk result (LeadOn self.old (Turn decided.entry.tap ∷ []) self.new) }
    {
        self.bus.take(alloc, decided)?;
        Ok(reply(&self.bus))
    }

    /// The station at a tap; `None` if there is no such tap.
    pub fn station(&self, tap: usize) -> Option<&Station>
        ensures { MatchOption result (slice_get self.entry.now.taps tap ≡ None)
            (λ s. IsStationAt self.entry.now tap s.now) }
    {
        self.bus.station(tap)
    }
}

/// The reply of the last event.
#[inline(always)]
fn reply(bus: &Bus) -> Reply
    ensures { reply_of result ≡ record { now = bus.entry.now.now; spoke = bus.entry.now.sent } }
{
    match bus.sent.octets() {
        Some(octets) => spoken_reply(bus.now, octets),
        None => Reply {
            now: bus.now,
            spoke: None,
        },
    }
}

/// The reply of an event that sends octets. Kept out of line, so that others need no memory for octets.
#[inline(never)]
fn spoken_reply(now: Moment, octets: &[u8]) -> Reply
    requires { length octets.now ≤ 255 }
    ensures { reply_of result ≡ record { now = now; spoke = Some octets.now } }
{
    Reply {
        now,
        spoke: Some(copy_octets(octets)),
    }
}

/// Applies events in order. It stops at the first refused one, and returns its index in the list, from 0, and its
/// fault. The events before it remain applied.
///
/// If the events that led to the world, and those applied, break no premise, at most one station may initiate after
/// them, the trace names that one, and each telegram that only a holder sends is legal. If none of them loses a
/// telegram at a tap or lets a turn be late, no running master that is not offline has been in silence, as it hears the
/// bus, for longer than its time-out and the lag. If they break no premise, the bus has been without a token telegram and
/// without noise for no longer than the bound of [`liveness`](crate::liveness) while a running master was not offline.
///
/// ```
/// let alloc = rt.alloc();
/// let params = BusParams::new(100, 37, 60, 11, 0, 10_000, 10, 5, 1, 0);
/// let params = params.expect(&rt, "valid parameters");
/// let (address, kind, reply) = (1, Kind::Master, ArrayVec::new());
/// let taps = [TapSpec {
///     address,
///     kind,
///     reply,
/// }];
/// let mut world = World::new(alloc, params, &taps).expect(&rt, "a world");
/// let events = [Event::Start(0), Event::Pass(800), Event::Stop(7)];
/// // the third event is refused, since there is no such tap; the others remain applied
/// let (place, _fault) = run(alloc, &mut world, &events).expect_err(&rt, "a fault");
/// assert_eq!(rt; place, 2);
/// assert_eq!(rt; world.now().get(), 800);
/// ```
pub fn run(alloc: Global, world: &mut World, events: &[Event]) -> Result<(), (usize, WorldFault)>
    ensures ok { OnOk result (RunsTo world.old (map event_of events.now) world.new) }
    ensures err { IfErr result (λ e. StopsAt world.old (map event_of events.now) e.0 e.1 world.new) }
    ensures promises { OnOk result (LeadOn world.old (map event_of events.now) world.new) }
    ensures promises_before { IfErr result
        (λ e. LeadOn world.old (take e.0 (map event_of events.now)) world.new) }
{
    for (place, event) in events.iter().enumerate() {
        if let Err(fault) = world.does(alloc, event) {
            return Err((place, fault));
        }
    }
    Ok(())
}

/// The same for a list of references to events, in which equal events may share memory. An event is as large as the
/// longest request, and most events are turns and passes of time.
pub fn run_shared(
    alloc: Global,
    world: &mut World,
    events: &[&Event],
) -> Result<(), (usize, WorldFault)>
    ensures ok { OnOk result (RunsTo world.old (map lent_event events.now) world.new) }
    ensures err { IfErr result (λ e. StopsAt world.old (map lent_event events.now) e.0 e.1 world.new) }
    ensures promises { OnOk result (LeadOn world.old (map lent_event events.now) world.new) }
    ensures promises_before { IfErr result
        (λ e. LeadOn world.old (take e.0 (map lent_event events.now)) world.new) }
{
    for (place, event) in events.iter().enumerate() {
        match world.does(alloc, event) {
            Ok(()) => (),
            Err(fault) => return Err((place, fault)),
        }
    }
    Ok(())
}
