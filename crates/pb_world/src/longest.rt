//! The longest stretch of a list of events in which each master was without a token and without noise.

ghost use Rattle.std.specs.Prelude.{[], IfOk, IfErr, OnOk, map};
ghost use Rattle.pb_world.specs.Auditing.{RefusesAudit};
ghost use Rattle.pb_world.specs.Liveness.{AreStretches, FindsLongest, KeepsBounds};
ghost use Rattle.pb_world.specs.Buses.{world_of};
ghost use Rattle.pb_world.specs.Worlds.{StopsAt};
ghost use Rattle.pb_taps.specs.Events.{event_of};
ghost use Rattle.pb_taps.specs.Taps.{spec_of};

use crate::buses::Bus;
use crate::findings::AuditFault;
use crate::making::new_bus;
use crate::stretches::{LongestSoFar, Stretch, follow};
use pb_taps::{Event, TAP_LIMIT, TapSpec, WorldFault};
use pb_timers::BusParams;
use std::alloc::Global;

/// The longest stretch of each master of a run without a token and without noise.
#[derive(Clone, Copy, Debug)]
pub struct LongestStretches {
    pub(crate) longest: [Option<Stretch>; TAP_LIMIT],
}

impl LongestStretches {
    ghost use Rattle.std.specs.Prelude.{◌≡◌};
    ghost use Rattle.pb_world.specs.Liveness.{longest_at};

    /// The longest stretch of the master at a tap; the first of several as long. None where there was no stretch: at a
    /// passive tap, at one that never ran while time passed without a token and without noise, and where there is no tap.
    pub fn longest_at(&self, tap: usize) -> Option<Stretch>
        ensures { result ≡ longest_at self.now tap }
    {
        if tap < TAP_LIMIT {
            self.longest[tap]
        } else {
            None
        }
    }
}

/// Plays events on a new bus, and measures for each master the longest stretch without a token and without noise, within
/// one running time of that master in which it was not offline (liveness: the bus is never dead).
///
/// A token telegram counts while it is on the bus, also where it is damaged or cut by a stop. A stretch may begin as a
/// token or noise ends, or as the master starts; it ends as the next token or noise begins, the master stops or goes
/// offline, or the events end. Where the events keep the premises of [`audit`](crate::audit), no stretch is longer than
/// its bound.
///
/// Faults, as an audit has them, the first that applies: `New` with that of the new bus; `At` with the place of the
/// first event that is refused, counted from 0, and its fault.
pub fn liveness(
    alloc: Global,
    params: BusParams,
    specs: &[TapSpec],
    events: &[Event],
) -> Result<LongestStretches, AuditFault>
    ensures longest { IfOk result
        (FindsLongest params (map spec_of specs.now) (map event_of events.now)) }
    ensures bounds { IfOk result
        (KeepsBounds params (map spec_of specs.now) (map event_of events.now)) }
    ensures fault { IfErr result (RefusesAudit params (map spec_of specs.now) (map event_of events.now)) }
{
    let mut bus = match new_bus(alloc, params, specs) {
        Ok(bus) => bus,
        Err(fault) => return Err(AuditFault::New(fault)),
    };
    let mut stretches = LongestSoFar::none();
    match follow_all(&mut stretches, alloc, &mut bus, events) {
        Ok(()) => Ok(LongestStretches {
            longest: stretches.longest,
        }),
        Err((place, fault)) => Err(AuditFault::At(place, fault)),
    }
}

/// Does events one after another on a bus to which nothing has happened yet.
fn follow_all(
    stretches: &mut LongestSoFar,
    alloc: Global,
    bus: &mut Bus,
    events: &[Event],
) -> Result<(), (usize, WorldFault)>
    requires { AreStretches stretches.old bus.old (world_of bus.old) [] }
    ensures ok { OnOk result
        (AreStretches stretches.new bus.new (world_of bus.old) (map event_of events.now)) }
    ensures err { IfErr result
        (λ e. StopsAt (world_of bus.old) (map event_of events.now) e.0 e.1 (world_of bus.new)) }
{
    for (place, event) in events.iter().enumerate() {
        if let Err(fault) = follow(stretches, alloc, bus, event) {
            return Err((place, fault));
        }
    }
    Ok(())
}
