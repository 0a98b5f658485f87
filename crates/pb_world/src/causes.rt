//! Why a premise broke: at which tap, by which event, and by which moments.

ghost use Rattle.std.specs.Prelude.{◌≡◌, false, IfErr, OnOk, Ok};
ghost use Rattle.law_model.specs.Step.{step};
ghost use Rattle.law_runs.specs.Premises.{comes_late};
ghost use Rattle.law_model.specs.World as model;
ghost use Rattle.pb_world.specs.Buses.{IsKept};
ghost use Rattle.pb_taps.specs.Events.{event_of};
ghost use Rattle.pb_taps.specs.Faults.{Refuses};
ghost use Rattle.pb_world.specs.Reasons.{number_of_cause};
ghost use Rattle.pb_world.specs.Watched.{FindsIn, GoesOnBy, IsOfNew, IsWatched, world_in};

use crate::buses::Bus;
use crate::findings::Audit;
use crate::premises::{Premise, first_waiting};
use crate::watched::Watched;
use pb_taps::{Event, Tap, WorldFault};
use pb_timers::Moment;
use std::alloc::Global;

/// Why a premise broke.
#[derive(Clone, Copy, Debug, PartialEq, Eq)]
pub enum Cause {
    /// 1: two taps run with one address.
    OwnAddresses {
        /// The first of them.
        tap: usize,
        /// The second.
        other: usize,
    },
    /// 2: a telegram is lost at a tap.
    NothingLost {
        /// The tap.
        tap: usize,
        /// The one that sends it.
        speaker: usize,
    },
    /// 3: a turn comes later than the lag.
    TurnsInTime {
        /// The tap that is to take it.
        tap: usize,
        /// When it was due, in bit times.
        due: Moment,
    },
    /// 4: two masters have waited out their time-outs.
    OneWaits {
        /// The one that has now.
        tap: usize,
        /// The one that had before, or has now too.
        other: usize,
        /// When that one had, in bit times.
        moment: Moment,
    },
}

impl Cause {
    /// The number of the premise, as an audit gives it.
    pub fn number(&self) -> u8
        ensures { result ≡ number_of_cause self.now }
    {
        match self {
            Cause::OwnAddresses { .. } => 1,
            Cause::NothingLost { .. } => 2,
            Cause::TurnsInTime { .. } => 3,
            Cause::OneWaits { .. } => 4,
        }
    }
}

/// A bus that is watched as [`Watched`] is, and keeps why the first premise broke.
#[derive(Drop)]
pub struct Inquiry {
    pub(crate) watched: Watched,
    cause: Option<Cause>,
}

impl Inquiry {
    /// An inquiry into what happens on a watched bus from here on.
    pub fn new(watched: Watched) -> Inquiry
        ensures { result.watched ≡ watched }
    {
        Inquiry {
            watched,
            cause: None,
        }
    }

    /// Does an event, and judges it by the premises.
    ///
    /// Faults: those of [`Watched::follow`].
    pub fn follow(&mut self, alloc: Global, event: &Event) -> Result<(), WorldFault>
        requires { IsWatched self.old.watched }
        ensures came { OnOk result (GoesOnBy self.old.watched (event_of event.now) self.new.watched) }
        ensures steps { OnOk result ((reply : model.Reply)
            × (step (world_in self.old.watched) (event_of event.now)
            ≡ Ok (world_in self.new.watched, reply))) }
        ensures err { IfErr result (λ fault. (world_in self.new.watched ≡ world_in self.old.watched)
            × Refuses (world_in self.old.watched) (event_of event.now)
            (step (world_in self.old.watched) (event_of event.now)) fault) }
    {
        self.watched.follow(alloc, event)?;
        self.note_cause(event);
        Ok(())
    }

    /// Does an event, as [`follow`](Inquiry::follow) does in more instructions. The caller ensures that no turn is later than
    /// the lag in it.
    ///
    /// Faults: those of [`Watched::follow_in_time`].
    pub fn follow_in_time(&mut self, alloc: Global, event: &Event) -> Result<(), WorldFault>
        requires in_time { comes_late (world_in self.old.watched) (event_of event.now) ≡ false }
        requires watched { IsWatched self.old.watched }
        ensures came { OnOk result (GoesOnBy self.old.watched (event_of event.now) self.new.watched) }
        ensures steps { OnOk result ((reply : model.Reply)
            × (step (world_in self.old.watched) (event_of event.now)
            ≡ Ok (world_in self.new.watched, reply))) }
        ensures err { IfErr result (λ fault. (world_in self.new.watched ≡ world_in self.old.watched)
            × Refuses (world_in self.old.watched) (event_of event.now)
            (step (world_in self.old.watched) (event_of event.now)) fault) }
    {
        self.watched.follow_in_time(alloc, event)?;
        self.note_cause(event);
        Ok(())
    }

    /// Keeps why the first premise broke, after the event that broke it.
    #[inline(always)]
    fn note_cause(&mut self, event: &Event)
        requires { IsWatched self.old.watched }
        ensures { self.new.watched ≡ self.old.watched }
    {
        if self.cause.is_none()
            && let Some(breach) = self.watched.watch.first_broken()
        {
            self.cause = cause_of(&self.watched, breach.premise, event);
        }
    }

    /// The bus, as the events so far have left it.
    pub fn bus(&self) -> &Bus
        ensures { result.now ≡ self.entry.now.watched.bus }
    {
        self.watched.bus()
    }

    /// What an audit finds in the events so far. The bus has come by them from a new one, and none was refused, the
    /// caller's condition.
    pub fn judge(&self) -> Audit
        requires { IsOfNew self.now.watched }
        ensures { FindsIn self.entry.now.watched result }
    {
        self.watched.judge()
    }

    /// Why the first premise broke, as far as that was seen.
    pub fn cause(&self) -> Option<Cause> {
        self.cause
    }
}

/// Why an event broke a premise, after it; none where that isn't seen. It is a call of its own since it happens once in a
/// run.
#[inline(never)]
fn cause_of(watched: &Watched, premise: Premise, event: &Event) -> Option<Cause>
    requires { IsWatched watched.now }
{
    match (premise, event) {
        (Premise::OwnAddresses, _) => namesakes(&watched.bus.taps),
        (Premise::NothingLost, Event::Unheard { tap, speaker }) => Some(Cause::NothingLost {
            tap: *tap,
            speaker: *speaker,
        }),
        (Premise::NothingLost, _) => None,
        (Premise::TurnsInTime, _) => first_late(&watched.bus),
        (Premise::OneWaits, _) => meeting(watched),
    }
}

/// The first tap whose turn has been due for longer than the lag.
fn first_late(bus: &Bus) -> Option<Cause>
    requires { IsKept bus.now }
{
    for tap in 0..bus.taps.len() {
        if bus.is_overdue(tap, 0)
            && let Some(due) = bus.due(tap)
        {
            return Some(Cause::TurnsInTime { tap, due });
        }
    }
    None
}

/// The first two running taps that have one address.
fn namesakes(taps: &[Tap]) -> Option<Cause> {
    for (tap, one) in taps.iter().enumerate() {
        if one.running
            && let Some(other) = first_with(taps, one.station.address(), tap)
        {
            return Some(Cause::OwnAddresses { tap, other });
        }
    }
    None
}

/// The first running tap with an address behind a place.
fn first_with(taps: &[Tap], address: u8, behind: usize) -> Option<usize> {
    for (place, tap) in taps.iter().enumerate() {
        if place > behind && tap.running && tap.station.address() == address {
            return Some(place);
        }
    }
    None
}

/// The tap that has waited out its time-out now, and the one that it meets.
fn meeting(watched: &Watched) -> Option<Cause>
    requires { IsWatched watched.now }
{
    let Watched { bus, watch, .. } = watched;
    let tap = first_waiting(bus, &watch.quiet, 0)?;
    if let Some(other) = first_waiting(bus, &watch.quiet, tap + 1) {
        return Some(Cause::OneWaits {
            tap,
            other,
            moment: bus.now,
        });
    }
    let last = watch.before?;
    Some(Cause::OneWaits {
        tap,
        other: last.tap,
        moment: last.moment,
    })
}
