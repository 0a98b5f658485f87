//! Why a run breaks a premise or leaves an illegal record.

ghost use Rattle.std.specs.Prelude.{[], IfOk, IfErr, OnOk, map};
ghost use Rattle.pb_taps.specs.Taps.{spec_of};
ghost use Rattle.pb_taps.specs.Events.{event_of};
ghost use Rattle.pb_world.specs.Auditing.{Finds, RefusesAudit};
ghost use Rattle.pb_world.specs.Worlds.{StopsAt};
ghost use Rattle.pb_world.specs.Watched.{FindsIn, HasCome, IsOfNew, world_in};

use crate::addresses::Addresses;
use crate::causes::{Cause, Inquiry};
use crate::findings::{Audit, AuditFault};
use crate::rules::{Illegal, illegal_at};
use crate::watched::new_watched;
use pb_taps::{Event, TapSpec, WorldFault};
use pb_timers::BusParams;
use std::alloc::Global;

/// What an audit finds in a run, and why.
#[derive(Clone, Copy, Debug, PartialEq, Eq)]
pub struct Reasons {
    /// What an audit finds.
    pub found: Audit,
    /// Why the first premise broke.
    pub cause: Option<Cause>,
    /// The first illegal record, with the rule that it breaks.
    pub illegal: Option<Illegal>,
}

/// Plays events on a new bus as [`audit`](crate::audit) does, and says why the first premise broke, and which rule the
/// first illegal record breaks.
///
/// Faults: those of `audit`.
pub fn audit_with_reasons(
    alloc: Global,
    params: BusParams,
    specs: &[TapSpec],
    events: &[Event],
) -> Result<Reasons, AuditFault>
    ensures ok { IfOk result
        (λ r. Finds params (map spec_of specs.now) (map event_of events.now) r.found) }
    ensures fault { IfErr result (RefusesAudit params (map spec_of specs.now) (map event_of events.now)) }
{
    let mut inquiry = match new_watched(alloc, params, specs) {
        Ok(watched) => Inquiry::new(watched),
        Err(fault) => return Err(AuditFault::New(fault)),
    };
    match inquire(alloc, &mut inquiry, events) {
        Ok(()) => Ok(inquiry.judge_with_reasons()),
        Err((place, fault)) => Err(AuditFault::At(place, fault)),
    }
}

impl Inquiry {
    /// What an audit finds in the events so far, and why. The bus has come by them from a new one, and none was refused,
    /// the caller's condition.
    pub fn judge_with_reasons(&self) -> Reasons
        requires { IsOfNew self.now.watched }
        ensures { FindsIn self.entry.now.watched result.found }
    {
        let found = self.judge();
        let bus = &self.watched.bus;
        let illegal = match found.illegal {
            Some(place) => {
                let taps = Addresses::OfTaps(&bus.taps);
                illegal_at(&bus.params, taps, bus.trace.entries(), place)
            }
            None => None,
        };
        Reasons {
            found,
            cause: self.cause(),
            illegal,
        }
    }
}

/// Does events one after another on a bus to which nothing has happened yet.
fn inquire(
    alloc: Global,
    inquiry: &mut Inquiry,
    events: &[Event],
) -> Result<(), (usize, WorldFault)>
    requires { HasCome inquiry.old.watched (world_in inquiry.old.watched) [] }
    ensures ok { OnOk result
        (HasCome inquiry.new.watched (world_in inquiry.old.watched) (map event_of events.now)) }
    ensures err { IfErr result (λ e. StopsAt (world_in inquiry.old.watched) (map event_of events.now)
        e.0 e.1 (world_in inquiry.new.watched)) }
{
    for (place, event) in events.iter().enumerate() {
        match inquiry.follow(alloc, event) {
            Ok(()) => (),
            Err(fault) => return Err((place, fault)),
        }
    }
    Ok(())
}
