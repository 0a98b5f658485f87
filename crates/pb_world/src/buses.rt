//! A bus: what each event does to it, and what is read from it.

use crate::clocks::pass;
use crate::replying::set_reply;
use crate::rooms::{make_room, make_room_for};
use crate::starting::start;
use crate::stopping::stop;
use arrayvec::ArrayVec;
use pb_cycles::Request;
use pb_faults::NoMemory;
use pb_medium::{Hit, Speaker, Trace};
use pb_station::{Decided, Decision, Glance, SendBuffer, Spares, Station};
use pb_taps::{
    Event, Tap, WorldFault, check_running, fits, fits_decided, glance, queue, take_decided,
    take_turn,
};
use pb_timers::{BusParams, Moment};
use std::alloc::Global;

/// Stations at the taps of one bus, its clock, and the trace of all that was sent.
#[derive(Drop)]
pub struct Bus {
    pub params: BusParams,
    pub now: Moment,
    pub trace: Trace,
    pub taps: Vec<Tap>,
    /// What the last event has sent.
    pub sent: SendBuffer,
    /// Spare boxes of stations that decided turns have replaced.
    pub spares: Spares,
}

impl Bus {
    ghost use Rattle.std.specs.Prelude.{◌≡◌, ◌+◌, ◌<◌, None, IsTrue, ◌↔◌, IfOk, MatchOption, length, slice_get};
    ghost use Rattle.law_model.specs.Laws.{IsEvent};
    ghost use Rattle.law_model.specs.World as events;
    ghost use Rattle.law_turn.specs.Laws.{Fits as FitsTelegram, IsRequest};
    ghost use Rattle.pb_station.specs.Halves.{has_come};
    ghost use Rattle.pb_transitions.specs.Clocks.{is_past};
    ghost use Rattle.pb_world.specs.Buses.{world_of, Does, IsKept};
    ghost use Rattle.pb_world.specs.Data.{SetsData};
    ghost use Rattle.pb_medium.specs.Entries.{hit_of};
    ghost use Rattle.pb_taps.specs.Events.{event_of};
    ghost use Rattle.pb_world.specs.Worlds.{due_at, IsStationAt};
    ghost use Rattle.pb_world.specs.Glances.{CanBeDecided, Fits, IsGlance};

    /// Applies an event. What a station sends in it is in `sent`. The address and data of a request are valid, by its
    /// type. Kept out of line: else the frame of a caller has the room that a rare event needs.
    ///
    /// Faults: those of the event ([`WorldFault`]), the first that applies.
    #[inline(never)]
    pub fn apply(&mut self, alloc: Global, event: &Event) -> Result<(), WorldFault>
        requires { IsKept self.old }
        ensures follows { Does self.old (event_of event.now) result self.new }
        ensures kept { IsKept self.new }
        ensures event { IsEvent (event_of event.now) }
    {
        match event {
            Event::Turn(tap) => self.turn(alloc, *tap),
            Event::Pass(bits) => self.pass(*bits),
            Event::Damage {
                tap,
                speaker,
                place,
            } => self.damage(
                *speaker,
                Hit {
                    tap: *tap,
                    place: *place,
                },
            ),
            Event::Start(tap) => self.start(*tap),
            Event::Stop(tap) => self.stop(*tap),
            Event::Queue { tap, request } => self.queue(*tap, request),
            Event::Noise(bits) => self.noise(*bits),
            Event::Unheard { tap, speaker } => self.unheard(*tap, *speaker),
        }
    }

    /// Changes the data with which the station at a tap replies to the next request for data, between two events. A
    /// repeat of the last request still gets the reply that it got; `sent` stays.
    ///
    /// Fault: `NoSuchTap`. Nothing is allocated.
    pub fn set_reply(&mut self, tap: usize, reply: ArrayVec<u8, 246>) -> Result<(), WorldFault>
        requires { IsKept self.old }
        ensures sets { SetsData (world_of self.old) tap reply.items result (world_of self.new) }
        ensures sent { self.new.sent ≡ self.old.sent }
        ensures kept { IsKept self.new }
        ensures fits { FitsTelegram reply.items }
    {
        set_reply(&mut self.taps, tap, reply)
    }

    fn turn(&mut self, alloc: Global, tap: usize) -> Result<(), WorldFault>
        requires { IsKept self.old }
        ensures follows { Does self.old (events.Turn tap) result self.new }
        ensures kept { IsKept self.new }
    {
        check_running(&self.taps, tap)?;
        make_room(&mut self.trace, &self.taps, tap, self.now)?;
        take_turn(&mut self.taps, tap, self.now, &mut self.sent);
        let speaker = Speaker {
            tap,
            taps: self.taps.len(),
            clock: self.now,
        };
        self.trace.say(alloc, speaker, &self.sent);
        Ok(())
    }

    /// Takes a decided turn. What the station sends is in `sent`. The caller ensures that the decision fits.
    ///
    /// Faults: those of a turn, the first that applies.
    #[inline(always)]
    pub fn take(&mut self, alloc: Global, decided: Decided<'_>) -> Result<(), WorldFault>
        requires kept { IsKept self.old }
        requires fits { Fits (world_of self.old) decided }
        ensures follows { Does self.old (events.Turn decided.entry.tap) result self.new }
        ensures kept { IsKept self.new }
    {
        let speaker = Speaker {
            tap: decided.tap,
            taps: self.taps.len(),
            clock: self.now,
        };
        check_running(&self.taps, decided.tap)?;
        make_room_for(&mut self.trace, &decided)?;
        let replaced = take_decided(&mut self.taps, decided, self.now, &mut self.sent);
        self.trace.say(alloc, speaker, &self.sent);
        self.spares.keep(replaced.was, replaced.before);
        Ok(())
    }

    fn pass(&mut self, bits: u64) -> Result<(), WorldFault>
        requires { IsKept self.old }
        ensures follows { Does self.old (events.Pass bits) result self.new }
        ensures kept { IsKept self.new }
    {
        self.now = pass(
            &mut self.trace,
            self.params.ttd(),
            &mut self.taps,
            self.now,
            bits,
        )?;
        self.trace.close(self.params.ttd(), self.now);
        self.sent.clear();
        Ok(())
    }

    fn damage(&mut self, speaker: usize, hit: Hit) -> Result<(), WorldFault>
        requires { IsKept self.old }
        ensures follows { Does self.old (events.Damage hit.tap speaker hit.place) result self.new }
        ensures kept { IsKept self.new }
    {
        if hit.tap >= self.taps.len() || speaker >= self.taps.len() {
            return Err(WorldFault::NoSuchTap);
        }
        self.trace
            .damage(self.params.ttd(), speaker, self.now, hit)?;
        self.sent.clear();
        Ok(())
    }

    fn start(&mut self, tap: usize) -> Result<(), WorldFault>
        requires { IsKept self.old }
        ensures follows { Does self.old (events.Start tap) result self.new }
        ensures kept { IsKept self.new }
    {
        start(
            self.trace.recent(),
            self.params.ttd(),
            &mut self.taps,
            tap,
            self.now,
        )?;
        self.sent.clear();
        Ok(())
    }

    fn stop(&mut self, tap: usize) -> Result<(), WorldFault>
        requires { IsKept self.old }
        ensures follows { Does self.old (events.Stop tap) result self.new }
        ensures kept { IsKept self.new }
    {
        stop(&mut self.taps, tap)?;
        self.trace.cut(tap, self.now);
        self.sent.clear();
        Ok(())
    }

    fn queue(&mut self, tap: usize, request: &Request) -> Result<(), WorldFault>
        requires { IsKept self.old }
        ensures follows { Does self.old (events.Queue tap request.now) result self.new }
        ensures kept { IsKept self.new }
        ensures request { IsRequest request.now }
    {
        queue(&mut self.taps, tap, request.copy())?;
        self.sent.clear();
        Ok(())
    }

    fn noise(&mut self, bits: u32) -> Result<(), WorldFault>
        requires { IsKept self.old }
        ensures follows { Does self.old (events.Noise bits) result self.new }
        ensures kept { IsKept self.new }
    {
        self.trace.make_noise(self.now, bits)?;
        self.sent.clear();
        Ok(())
    }

    fn unheard(&mut self, tap: usize, speaker: usize) -> Result<(), WorldFault>
        requires { IsKept self.old }
        ensures follows { Does self.old (events.Unheard tap speaker) result self.new }
        ensures kept { IsKept self.new }
    {
        if tap >= self.taps.len() || speaker >= self.taps.len() {
            return Err(WorldFault::NoSuchTap);
        }
        self.trace.lose(tap, speaker, self.now)?;
        self.sent.clear();
        Ok(())
    }

    /// When the station at a tap has to take its turn; `None` if there is no such tap, it does not run, or it waits for
    /// nothing. Always inlined: behind [`is_due`](Bus::is_due) the compiler then computes nothing twice.
    #[inline(always)]
    pub fn due(&self, tap: usize) -> Option<Moment>
        requires { IsKept self.now }
        ensures { result ≡ due_at (world_of self.entry.now) tap }
    {
        let tap = self.taps.get(tap)?;
        if !tap.running {
            return None;
        }
        tap.station.due(&tap.marks)
    }

    /// Whether the station at a tap has to take its turn by the moment `at`: it is [`due`](Bus::due) no later. This takes
    /// less time than `due` where the station has unread marks.
    #[inline(always)]
    pub fn is_due(&self, tap: usize, at: Moment) -> bool
        requires { IsKept self.now }
        ensures { result ≡ has_come (due_at (world_of self.entry.now) tap) at }
    {
        let Some(tap) = self.taps.get(tap) else {
            return false;
        };
        if !tap.running {
            return false;
        }
        tap.station.is_overdue(&tap.marks, 0, at, 1)
    }

    /// Whether the turn of the station at a tap, if one is due, will have been due for longer than the lag in `bits`
    /// bit times.
    #[inline(always)]
    pub fn is_overdue(&self, tap: usize, bits: u64) -> bool
        requires { IsKept self.now }
        ensures { let w = world_of self.entry.now in result
            ≡ is_past w.params.lag (w.now + bits) (due_at w tap) }
    {
        let Some(tap) = self.taps.get(tap) else {
            return false;
        };
        if !tap.running {
            return false;
        }
        tap.station
            .is_overdue(&tap.marks, self.params.lag(), self.now, bits)
    }

    /// A glance at the tap with this index. The caller ensures that it exists.
    ///
    /// Fault: memory was refused.
    pub fn glance(&self, alloc: Global, tap: usize) -> Result<Glance, NoMemory>
        requires kept { IsKept self.now }
        requires there { tap < length self.now.taps.items }
        ensures shows { IfOk result (IsGlance (world_of self.entry.now) tap) }
        ensures turn { IfOk result CanBeDecided }
    {
        glance(alloc, &self.taps, tap, self.now, &mut Spares::new(alloc))
    }

    /// The same, in the spare boxes of stations that decided turns have replaced.
    ///
    /// Fault: memory was refused.
    pub fn glance_in_room(&mut self, alloc: Global, tap: usize) -> Result<Glance, NoMemory>
        requires kept { IsKept self.old }
        requires there { tap < length self.old.taps.items }
        ensures shows { IfOk result (IsGlance (world_of self.old) tap) }
        ensures turn { IfOk result CanBeDecided }
        ensures same { world_of self.new ≡ world_of self.old }
        ensures kept { IsKept self.new }
    {
        glance(alloc, &self.taps, tap, self.now, &mut self.spares)
    }

    /// Whether a decision was computed from the present state of its tap.
    pub fn fits(&self, decision: &Decision) -> bool
        requires { IsKept self.now }
        ensures { IsTrue result ↔ Fits (world_of self.entry.now) decision.entry.now }
    {
        fits(&self.taps, decision, self.now)
    }

    /// Whether a decision with a borrowed buffer was computed from the present state of its tap.
    pub fn fits_decided(&self, decided: &Decided<'_>) -> bool
        requires { IsKept self.now }
        ensures { IsTrue result ↔ Fits (world_of self.entry.now) decided.entry.now }
    {
        fits_decided(&self.taps, decided, self.now)
    }

    /// The station at a tap; `None` if there is no such tap.
    pub fn station(&self, tap: usize) -> Option<&Station>
        requires { IsKept self.now }
        ensures { MatchOption result (slice_get (world_of self.entry.now).taps tap ≡ None)
            (λ s. IsStationAt (world_of self.entry.now) tap s.now) }
    {
        match self.taps.get(tap) {
            Some(tap) => Some(&tap.station),
            None => None,
        }
    }
}
