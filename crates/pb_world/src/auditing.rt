//! The audit of a list of events.

ghost use Rattle.std.specs.Prelude.{[], IfOk, IfErr, OnOk, map};
ghost use Rattle.pb_world.specs.Auditing.{Finds, IsLegalIfKept, RefusesAudit};
ghost use Rattle.pb_world.specs.Watched.{HasCome, world_in};
ghost use Rattle.pb_taps.specs.Events.{event_of};
ghost use Rattle.pb_taps.specs.Taps.{spec_of};
ghost use Rattle.pb_world.specs.Worlds.{lent_event, StopsAt};

use crate::findings::{Audit, AuditFault};
use crate::watched::{Watched, new_watched};
use pb_taps::{Event, TapSpec, WorldFault};
use pb_timers::BusParams;
use std::alloc::Global;

/// Plays events on a new bus, and judges the run from outside: by the premises on its events, and by the trace that it
/// leaves.
///
/// The premises, by their numbers: 1, no two running taps have equal addresses; 2, no telegram is lost at a tap except
/// by damage; 3, no turn is later than the lag; 4, no two masters have waited out their time-outs at clocks at most a
/// cable delay apart, each by the activity at its own tap while it ran. If none is broken, no record is illegal, and
/// after the events at most one station may initiate, which the trace names (medium access: token passing). If no event
/// loses a telegram at a tap and no turn is late, no running master that is not offline has been in silence, as it
/// hears the bus, for longer than its time-out and the lag. If no premise is broken, the bus has been without a token
/// telegram and without noise for no longer than the bound of [`liveness`](crate::liveness) while a running master was not
/// offline.
///
/// Faults, the first that applies: `New` with the fault of the new bus; `At` with the index of the first refused event,
/// from 0, and its fault.
///
/// ```
/// let alloc = rt.alloc();
/// let params = BusParams::new(100, 37, 60, 11, 0, 10_000, 10, 5, 1, 0);
/// let params = params.expect(&rt, "valid parameters");
/// let (address, kind, reply) = (1, Kind::Master, ArrayVec::new());
/// let taps = [TapSpec {
///     address,
///     kind,
///     reply,
/// }];
/// // the turn is due at 800, and the lag is 0: at 900 it is late, which breaks premise 3
/// let events = [Event::Start(0), Event::Pass(900), Event::Turn(0)];
/// let found = audit(alloc, params, &taps, &events).expect(&rt, "an audit");
/// let (premise, clock) = found.premise.expect(&rt, "a broken premise");
/// assert_eq!(rt; (premise, clock.get()), (3, 900));
/// assert!(rt; found.illegal.is_none());
/// ```
pub fn audit(
    alloc: Global,
    params: BusParams,
    specs: &[TapSpec],
    events: &[Event],
) -> Result<Audit, AuditFault>
    ensures ok { IfOk result (Finds params (map spec_of specs.now) (map event_of events.now)) }
    ensures legal { IfOk result IsLegalIfKept }
    ensures fault { IfErr result (RefusesAudit params (map spec_of specs.now) (map event_of events.now)) }
{
    let mut watched = match new_watched(alloc, params, specs) {
        Ok(watched) => watched,
        Err(fault) => return Err(AuditFault::New(fault)),
    };
    match watch_all(alloc, &mut watched, events) {
        Ok(()) => Ok(watched.judge()),
        Err((place, fault)) => Err(AuditFault::At(place, fault)),
    }
}

/// The same for a list of references to events, in which equal events may share memory.
pub fn audit_shared(
    alloc: Global,
    params: BusParams,
    specs: &[TapSpec],
    events: &[&Event],
) -> Result<Audit, AuditFault>
    ensures ok { IfOk result (Finds params (map spec_of specs.now) (map lent_event events.now)) }
    ensures legal { IfOk result IsLegalIfKept }
    ensures fault { IfErr result
        (RefusesAudit params (map spec_of specs.now) (map lent_event events.now)) }
{
    let mut watched = match new_watched(alloc, params, specs) {
        Ok(watched) => watched,
        Err(fault) => return Err(AuditFault::New(fault)),
    };
    match watch_shared(alloc, &mut watched, events) {
        Ok(()) => Ok(watched.judge()),
        Err((place, fault)) => Err(AuditFault::At(place, fault)),
    }
}

/// Applies events in order to a watched bus on which nothing has happened yet. On a fault, returns the index of the
/// refused event and its fault.
fn watch_all(
    alloc: Global,
    watched: &mut Watched,
    events: &[Event],
) -> Result<(), (usize, WorldFault)>
    requires { HasCome watched.old (world_in watched.old) [] }
    ensures ok { OnOk result (HasCome watched.new (world_in watched.old) (map event_of events.now)) }
    ensures err { IfErr result
        (λ e. StopsAt (world_in watched.old) (map event_of events.now) e.0 e.1 (world_in watched.new)) }
{
    for (place, event) in events.iter().enumerate() {
        match watched.follow(alloc, event) {
            Ok(()) => (),
            Err(fault) => return Err((place, fault)),
        }
    }
    Ok(())
}

/// The same for references to events.
fn watch_shared(
    alloc: Global,
    watched: &mut Watched,
    events: &[&Event],
) -> Result<(), (usize, WorldFault)>
    requires { HasCome watched.old (world_in watched.old) [] }
    ensures ok { OnOk result (HasCome watched.new (world_in watched.old) (map lent_event events.now)) }
    ensures err { IfErr result
        (λ e. StopsAt (world_in watched.old) (map lent_event events.now) e.0 e.1 (world_in watched.new)) }
{
    for (place, event) in events.iter().enumerate() {
        if let Err(fault) = watched.follow(alloc, event) {
            return Err((place, fault));
        }
    }
    Ok(())
}
