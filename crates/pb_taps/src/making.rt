//! Checks a list of taps, and makes it.

ghost use Rattle.std.specs.Prelude.{◌≡◌, ◌≤◌, ◌<◌, ◌+◌, false, None, Some, IfOk, IfErr, OnOk, MatchResult, All, map};
ghost use Rattle.std.specs.Option.{option_map};
ghost use Rattle.pb_faults.specs.FirstFault.{first_fault};
ghost use Rattle.pb_timers.specs.Timers.{Params};
ghost use Rattle.law_model.specs.Laws.{AllFit};
ghost use Rattle.law_model.specs.World as world;
ghost use Rattle.law_model.specs.World.{new_faults, stopped_tap};
ghost use Rattle.pb_timers.specs.ParamRules.{IsValid};
ghost use Rattle.pb_taps.specs.Faults.{new_fault};
ghost use Rattle.law_turn.specs.Laws.{Fits};
ghost use Rattle.law_turn.specs.Stations as turn;
ghost use Rattle.pb_taps.specs.Making.{AreStations, IsNoMemory};
ghost use Rattle.pb_taps.specs.Taps.{is_master, spec_of, seat_of, tap_of, AreSeated};

use crate::faults::NewFault;
use crate::taps::{Kind, Tap, TapSpec, is_master};
use pb_station::{Inbox, Station};
use pb_telegram::copy_octets;
use pb_timers::BusParams;
use std::alloc::Global;

/// The most taps that a bus may have.
pub const TAP_LIMIT: usize = 127;

/// The highest address of a station.
const HIGHEST_ADDRESS: u32 = 126;

/// Checks a list of taps.
///
/// Faults, the first that applies: `NoTaps`; `TooManyTaps` if there are more than 127; `BadAddress` with the lowest
/// index of a tap whose address is too high for its kind.
pub fn check_taps(params: &BusParams, specs: &[TapSpec]) -> Result<(), NewFault>
    ensures ok { OnOk result (first_fault (new_faults params.now (map spec_of specs.now)) ≡ None) }
    ensures stations { OnOk result (AreStations specs.now) }
    ensures valid { IsValid params.now }
    ensures err { IfErr result
        (λ fault. option_map new_fault (first_fault (new_faults params.now (map spec_of specs.now)))
        ≡ Some fault) }
{
    let highest = params.hsa();
    if specs.is_empty() {
        return Err(NewFault::NoTaps);
    }
    if specs.len() > TAP_LIMIT {
        return Err(NewFault::TooManyTaps);
    }
    match first_bad_address(highest, specs) {
        Some(tap) => Err(NewFault::BadAddress(tap)),
        None => Ok(()),
    }
}

/// Makes the taps of a new world. None of them runs.
///
/// Fault: `NoMemory`.
pub fn new_taps(alloc: Global, params: &BusParams, specs: &[TapSpec]) -> Result<Vec<Tap>, NewFault>
    requires { AreStations specs.now }
    ensures taps { IfOk result
        (λ taps. map tap_of taps.items ≡ map (stopped_tap params.now) (map spec_of specs.now)) }
    ensures seats { IfOk result (λ taps. AreSeated params.now 0 (map seat_of taps.items)) }
    ensures fit { OnOk result (AllFit (map spec_of specs.now)) }
    ensures fault { IfErr result IsNoMemory }
{
    let mut taps = Vec::with_capacity(alloc, specs.len())?;
    for (tap, spec) in specs.iter().enumerate() {
        taps.push_reserved(new_tap(alloc, params, tap, spec)?);
    }
    Ok(taps)
}

fn first_bad_address(highest: u32, specs: &[TapSpec]) -> Option<usize>
    requires { highest ≤ 126 }
    ensures first { (p : Params) → p.hsa ≡ highest → result
        ≡ world.first_bad_address p 0 (map spec_of specs.now) }
    ensures stations { result ≡ None → All (λ s. s.address ≤ 126) specs.now }
{
    for (place, spec) in specs.iter().enumerate() {
        if has_bad_address(highest, spec) {
            return Some(place);
        }
    }
    None
}

fn new_tap(alloc: Global, params: &BusParams, tap: usize, spec: &TapSpec) -> Result<Tap, NewFault>
    requires { spec.now.address ≤ 126 }
    ensures tap { IfOk result (λ t. tap_of t ≡ stopped_tap params.now (spec_of spec.now)) }
    ensures seat { IfOk result (λ t. seat_of t ≡ record { tap = tap; params = params.now }) }
    ensures fits { OnOk result (Fits spec.now.reply.items) }
    ensures fault { IfErr result IsNoMemory }
{
    let marks = Inbox::new(alloc)?;
    let station = new_station(alloc, params, tap, spec)?;
    Ok(Tap {
        running: false,
        since: 0,
        amid: false,
        station,
        marks,
    })
}

fn has_bad_address(highest: u32, spec: &TapSpec) -> bool
    requires { highest ≤ 126 }
    ensures bad { (p : Params) → p.hsa ≡ highest → result ≡ world.has_bad_address p (spec_of spec.now) }
    ensures station { result ≡ false → spec.now.address ≤ 126 }
{
    match spec.kind {
        Kind::Master => u32::from(spec.address) > highest,
        Kind::Passive => u32::from(spec.address) > HIGHEST_ADDRESS,
    }
}

fn new_station(
    alloc: Global,
    params: &BusParams,
    tap: usize,
    spec: &TapSpec,
) -> Result<Station, NewFault>
    requires { spec.now.address ≤ 126 }
    ensures station { MatchResult result (λ s. s ≡ record {
      tap = tap;
      params = params.now;
      master = is_master spec.now.kind;
      reply_data = spec.now.reply.items;
      station = turn.new_station params.now spec.now.address spec.now.reply.items;
    }) IsNoMemory }
    ensures fits { Fits spec.now.reply.items }
{
    let station = Station::new(
        alloc,
        tap,
        *params,
        spec.address,
        is_master(spec.kind),
        copy_octets(&spec.reply),
    )?;
    Ok(station)
}
