//! A bus that is watched from its first event on, and judged at any time.

ghost use Rattle.std.specs.Prelude.{◌≡◌, ℕ, [], None, Ok, IfOk, IfErr, OnOk, map};
ghost use Rattle.pb_timers.specs.ParamRules.{IsValid};
ghost use Rattle.law_model.specs.Laws.{AllFit};
ghost use Rattle.std.specs.Option.{option_map};
ghost use Rattle.law_model.specs.World.{new_world, new_world_within};
ghost use Rattle.law_streams.specs.Audits.{no_events};
ghost use Rattle.pb_world.specs.Auditing.{broken_at};
ghost use Rattle.law_runs.specs.Headline.{specs_of};
ghost use Rattle.law_runs.specs.Judging.{IsOrdered};
ghost use Rattle.law_runs.specs.Legality.{first_illegal};
ghost use Rattle.pb_world.specs.Premises.{broken_of, watched_of};
ghost use Rattle.pb_world.specs.Told.{tray_at};
ghost use Rattle.pb_world.specs.Watched.{HasCome, IsAtEnd, IsFollowed, world_in};
ghost use Rattle.pb_taps.specs.Faults.{RefusesNew};
ghost use Rattle.pb_taps.specs.Taps.{spec_of};

use crate::addresses::Addresses;
use crate::buses::Bus;
use crate::findings::Audit;
use crate::legality::first_illegal;
use crate::letting_go::new_bus_within;
use crate::making::new_bus;
use crate::premises::{Breach, Watch, follow, follow_in_time};
use crate::told::Told;
use pb_taps::{Event, NewFault, TapSpec, WorldFault};
use pb_timers::{BusParams, Moment};
use std::alloc::Global;

/// A bus that is watched from its first event on. Its run can be judged at any time.
#[derive(Drop)]
pub struct Watched {
    pub(crate) bus: Bus,
    pub(crate) watch: Watch,
    pub(crate) told: Told,
}

/// A watched bus at clock 0. No tap runs yet.
///
/// Faults: those of the new bus.
pub fn new_watched(alloc: Global, params: BusParams, specs: &[TapSpec]) -> Result<Watched, NewFault>
    ensures new { IfOk result (λ w. new_world params (map spec_of specs.now) ≡ Ok (world_in w)) }
    ensures came { IfOk result (λ w. HasCome w (world_in w) []) }
    ensures told { IfOk result (λ w. (k : ℕ) → tray_at w.told k ≡ None) }
    ensures fault { IfErr result (RefusesNew (new_world params (map spec_of specs.now))) }
{
    let bus = new_bus(alloc, params, specs)?;
    Ok(Watched {
        bus,
        watch: Watch::new(),
        told: Told::nothing(alloc),
    })
}

/// The same on a bus whose trace may have `limit` entries.
///
/// Faults: those of the new bus.
pub fn new_watched_within(
    alloc: Global,
    params: BusParams,
    specs: &[TapSpec],
    limit: usize,
) -> Result<Watched, NewFault>
    ensures new { IfOk result
        (λ w. new_world_within limit params (map spec_of specs.now) ≡ Ok (world_in w)) }
    ensures followed { IfOk result IsFollowed }
    ensures at_end { IfOk result (λ w. IsAtEnd w [] (no_events (world_in w))) }
    ensures valid { IsValid params }
    ensures fit { OnOk result (AllFit (map spec_of specs.now)) }
    ensures told { IfOk result (λ w. (k : ℕ) → tray_at w.told k ≡ None) }
    ensures fault { IfErr result (RefusesNew (new_world params (map spec_of specs.now))) }
{
    let bus = new_bus_within(alloc, params, specs, limit)?;
    Ok(Watched {
        bus,
        watch: Watch::new(),
        told: Told::nothing(alloc),
    })
}

impl Watched {
    ghost use Rattle.std.specs.Prelude.{◌≡◌, false, IfErr, OnErr, OnOk, Ok};
    ghost use Rattle.std.specs.Option.{option_map};
    ghost use Rattle.law_runs.specs.Premises.{Course, comes_late};
    ghost use Rattle.law_runs.specs.Watching.{StandsFor};
    ghost use Rattle.pb_medium.specs.LettingGo.{past_of};
    ghost use Rattle.pb_world.specs.Auditing.{broken_at};
    ghost use Rattle.law_model.specs.Behind.{behind};
    ghost use Rattle.law_model.specs.Laws.{IsEvent};
    ghost use Rattle.law_model.specs.Step.{step};
    ghost use Rattle.law_model.specs.World as model;
    ghost use Rattle.pb_taps.specs.Events.{event_of};
    ghost use Rattle.pb_taps.specs.Faults.{Refuses};
    ghost use Rattle.pb_world.specs.Buses.{IsKept};
    ghost use Rattle.pb_world.specs.Premises.{watched_of};
    ghost use Rattle.pb_world.specs.Watched.{FindsIn, GoesOnBy, IsFollowed, IsOfNew, IsWatched, LeadsOnBy, LetsGoOf, world_in};

    /// Applies an event, and judges it by the premises. The past of the bus may have been let go.
    ///
    /// Faults: those of the event on a bus. After a fault, the bus must not be watched further; what its events broke can
    /// still be asked ([`broken`](Watched::broken)).
    pub fn follow(&mut self, alloc: Global, event: &Event) -> Result<(), WorldFault>
        requires { IsFollowed self.old }
        ensures kept { IsKept self.new.bus }
        ensures event { IsEvent (event_of event.now) }
        ensures followed { OnOk result (IsFollowed self.new) }
        ensures watched { IsWatched self.old → OnOk result (IsWatched self.new) }
        ensures leads { OnOk result (LeadsOnBy self.old (event_of event.now) self.new) }
        ensures came { OnOk result (GoesOnBy self.old (event_of event.now) self.new) }
        ensures steps { OnOk result ((reply : model.Reply)
            × (step (world_in self.old) (event_of event.now) ≡ Ok (world_in self.new, reply))) }
        ensures err { IfErr result (λ fault. (world_in self.new ≡ world_in self.old)
            × Refuses (world_in self.old) (event_of event.now)
            (step (world_in self.old) (event_of event.now)) fault) }
        ensures found { OnErr result (watched_of self.new.watch ≡ watched_of self.old.watch) }
    {
        follow(&mut self.watch, alloc, &mut self.bus, event)?;
        Ok(())
    }

    /// Applies an event, as [`follow`](Watched::follow) does in more instructions. The caller ensures that no turn is later
    /// than the lag in it.
    ///
    /// Faults: those of the event on a bus. After a fault, the bus must not be watched further; what its events broke can
    /// still be asked ([`broken`](Watched::broken)).
    pub fn follow_in_time(&mut self, alloc: Global, event: &Event) -> Result<(), WorldFault>
        requires in_time { comes_late (world_in self.old) (event_of event.now) ≡ false }
        requires followed { IsFollowed self.old }
        ensures kept { IsKept self.new.bus }
        ensures event { IsEvent (event_of event.now) }
        ensures followed { OnOk result (IsFollowed self.new) }
        ensures watched { IsWatched self.old → OnOk result (IsWatched self.new) }
        ensures leads { OnOk result (LeadsOnBy self.old (event_of event.now) self.new) }
        ensures came { OnOk result (GoesOnBy self.old (event_of event.now) self.new) }
        ensures steps { OnOk result ((reply : model.Reply)
            × (step (world_in self.old) (event_of event.now) ≡ Ok (world_in self.new, reply))) }
        ensures err { IfErr result (λ fault. (world_in self.new ≡ world_in self.old)
            × Refuses (world_in self.old) (event_of event.now)
            (step (world_in self.old) (event_of event.now)) fault) }
        ensures found { OnErr result (watched_of self.new.watch ≡ watched_of self.old.watch) }
    {
        follow_in_time(&mut self.watch, alloc, &mut self.bus, event)?;
        Ok(())
    }

    /// Removes the entries that are over from the trace ([`Bus::let_go`]). The watch goes on as if they still stood there.
    pub fn let_go(&mut self)
        requires { IsFollowed self.old }
        ensures followed { IsFollowed self.new }
        ensures gone { LetsGoOf (past_of self.old.bus.trace) self.old self.new }
        ensures world { world_in self.old ≡ behind (past_of self.old.bus.trace) (world_in self.new) }
        ensures told { self.new.told ≡ self.old.told }
    {
        self.bus.let_go();
    }

    /// The first premise that the events so far broke, by its number, with the clock.
    pub fn broken(&self) -> Option<(u8, Moment)>
        ensures { (c : Course) → StandsFor (watched_of self.now.watch) c
            → option_map broken_at result ≡ c.broken }
    {
        numbered(self.watch.first_broken())
    }

    /// What an audit finds in the events so far. The caller ensures that they have led to this bus from a new one, and
    /// that none was refused.
    pub fn judge(&self) -> Audit
        requires { IsOfNew self.now }
        ensures { FindsIn self.entry.now result }
    {
        findings(self)
    }

    /// The bus after the events so far.
    pub fn bus(&self) -> &Bus
        ensures { result.now ≡ self.entry.now.bus }
    {
        &self.bus
    }
}

/// The first premise that broke, and the first illegal record of the trace, which is in order.
pub(crate) fn findings(watched: &Watched) -> Audit
    requires { IsOrdered (world_in watched.now).trace }
    ensures premise { option_map broken_at result.premise ≡ (watched_of watched.now.watch).broken }
    ensures illegal { let w = world_in watched.now in
        result.illegal ≡ first_illegal w.params (specs_of w) w.trace }
{
    Audit {
        premise: numbered(watched.watch.first_broken()),
        illegal: first_illegal(
            &watched.bus.params,
            Addresses::OfTaps(&watched.bus.taps),
            watched.bus.trace.entries(),
        ),
    }
}

/// The premise that broke, by its number, with the clock.
fn numbered(broken: Option<Breach>) -> Option<(u8, Moment)>
    ensures { option_map broken_at result ≡ option_map broken_of broken }
{
    let breach = broken?;
    Some((breach.premise.number(), breach.clock))
}
