//! A bus for runs of any length: within a number of entries, and without those that are over.

ghost use Rattle.std.specs.Prelude.{◌≡◌, Ok, IfOk, IfErr, OnOk, map};
ghost use Rattle.pb_timers.specs.ParamRules.{IsValid};
ghost use Rattle.law_model.specs.Laws.{AllFit};
ghost use Rattle.law_model.specs.World.{new_world, new_world_within};
ghost use Rattle.pb_taps.specs.Faults.{RefusesNew};
ghost use Rattle.pb_taps.specs.Taps.{spec_of};
ghost use Rattle.pb_world.specs.Buses.{world_of, IsKept};

use crate::buses::Bus;
use crate::making::new_bus;
use pb_medium::{Entry, Trace};
use pb_taps::{NewFault, TapSpec};
use pb_timers::BusParams;
use std::alloc::Global;

/// A bus at clock 0 whose trace may have `limit` entries. No tap runs yet.
///
/// Faults: those of [`new_bus`].
pub fn new_bus_within(
    alloc: Global,
    params: BusParams,
    specs: &[TapSpec],
    limit: usize,
) -> Result<Bus, NewFault>
    ensures ok { IfOk result
        (λ bus. new_world_within limit params (map spec_of specs.now) ≡ Ok (world_of bus)) }
    ensures kept { IfOk result IsKept }
    ensures valid { IsValid params }
    ensures fit { OnOk result (AllFit (map spec_of specs.now)) }
    ensures fault { IfErr result (RefusesNew (new_world params (map spec_of specs.now))) }
{
    let mut bus = new_bus(alloc, params, specs)?;
    bus.trace = Trace::new(alloc, limit);
    Ok(bus)
}

impl Bus {
    ghost use Rattle.std.specs.Prelude.{◌≡◌, map};
    ghost use Rattle.pb_medium.specs.Entries.{entry_of};
    ghost use Rattle.pb_medium.specs.LettingGo.{past_of};
    ghost use Rattle.pb_world.specs.Buses.{IsKept};
    ghost use Rattle.pb_world.specs.LettingGo.{LetsPastGo};

    /// The entries that [`let_go`](Bus::let_go) removes: the first ones, which had ended at all taps before the others
    /// reach the taps.
    pub fn past(&self) -> &[Entry]
        ensures { map entry_of result.now ≡ past_of self.entry.now.trace }
    {
        self.trace.past()
    }

    /// Removes these entries from the trace. No event has another effect without them (law_streams).
    pub fn let_go(&mut self)
        requires { IsKept self.old }
        ensures { LetsPastGo (past_of self.old.trace) self.old self.new }
    {
        self.trace.let_go();
    }
}
