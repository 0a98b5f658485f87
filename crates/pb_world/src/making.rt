//! Makes a new bus.

ghost use Rattle.std.specs.Prelude.{◌≡◌, Ok, IfOk, IfErr, OnOk, map};
ghost use Rattle.pb_timers.specs.ParamRules.{IsValid};
ghost use Rattle.law_model.specs.Laws.{AllFit};
ghost use Rattle.law_model.specs.World.{new_world};
ghost use Rattle.pb_world.specs.Buses.{world_of, IsBlank, IsKept};
ghost use Rattle.pb_taps.specs.Faults.{RefusesNew};
ghost use Rattle.pb_taps.specs.Taps.{spec_of};

use crate::buses::Bus;
use pb_medium::{TRACE_LIMIT, Trace};
use pb_station::{SendBuffer, Spares};
use pb_taps::{NewFault, TapSpec, check_taps, new_taps};
use pb_timers::{BusParams, Moment};
use std::alloc::Global;

/// A bus at clock 0. No tap runs yet.
///
/// The parameters meet their rules, and the data with which stations reply fits in telegrams, by their types.
///
/// Faults: those of a new world ([`NewFault`]), the first that applies.
pub fn new_bus(alloc: Global, params: BusParams, specs: &[TapSpec]) -> Result<Bus, NewFault>
    ensures ok { IfOk result (λ bus. new_world params (map spec_of specs.now) ≡ Ok (world_of bus)) }
    ensures kept { IfOk result IsKept }
    ensures valid { IsValid params }
    ensures fit { OnOk result (AllFit (map spec_of specs.now)) }
    ensures blank { IfOk result (λ bus. IsBlank (world_of bus)) }
    ensures fault { IfErr result (RefusesNew (new_world params (map spec_of specs.now))) }
{
    check_taps(&params, specs)?;
    let taps = new_taps(alloc, &params, specs)?;
    Ok(Bus {
        params,
        now: Moment::at(0),
        trace: Trace::new(alloc, TRACE_LIMIT),
        taps,
        sent: SendBuffer::new(),
        spares: Spares::new(alloc),
    })
}
