//! Appends a request to those that wait at a tap's station.

ghost use Rattle.std.specs.Prelude.{◌≡◌, IfErr, OnErr, OnOk};
ghost use Rattle.law_turn.specs.Laws.{IsRequest};
ghost use Rattle.pb_taps.specs.Queueing.{has_no_room, takes_requests, CanQueue, IsQueued, RefusesQueue};

use crate::faults::WorldFault;
use crate::taps::Tap;
use pb_cycles::Request;

/// Appends a request to those that wait at the station of a tap.
///
/// Faults, the first that applies: `NoSuchTap`; `NotRunning` if the tap is stopped or passive; `QueueFull`.
pub fn queue(taps: &mut [Tap], tap: usize, request: Request) -> Result<(), WorldFault>
    ensures ok { OnOk result (IsQueued taps.old tap request taps.new) }
    ensures err { OnErr result (taps.new ≡ taps.old) }
    ensures fault { IfErr result (RefusesQueue taps.old tap request) }
    ensures request { IsRequest request }
{
    check_request(&request);
    if tap >= taps.len() {
        return Err(WorldFault::NoSuchTap);
    }
    if !takes_requests(&taps[tap]) {
        return Err(WorldFault::NotRunning);
    }
    match taps[tap].station.push(request) {
        Ok(()) => Ok(()),
        Err(_) => Err(WorldFault::QueueFull),
    }
}

/// Checks whether a request may be appended.
///
/// Faults, the first that applies: those of [`queue`].
pub fn check_queue(taps: &[Tap], tap: usize, request: &Request) -> Result<(), WorldFault>
    ensures ok { OnOk result (CanQueue taps.now tap request.now) }
    ensures fault { IfErr result (RefusesQueue taps.now tap request.now) }
{
    let Some(tap) = taps.get(tap) else {
        return Err(WorldFault::NoSuchTap);
    };
    if !takes_requests(tap) {
        return Err(WorldFault::NotRunning);
    }
    if has_no_room(tap, request) {
        return Err(WorldFault::QueueFull);
    }
    Ok(())
}

/// Whether a tap takes requests: it is a master and runs.
fn takes_requests(tap: &Tap) -> bool
    ensures { result ≡ takes_requests tap.now }
{
    tap.running && tap.station.is_master()
}

/// Whether the tap's list for the request's priority is full.
fn has_no_room(tap: &Tap, request: &Request) -> bool
    ensures { result ≡ has_no_room tap.now request.now }
{
    tap.station.is_full_for(request)
}

/// The address and data of a request are valid, by its type.
fn check_request(request: &Request)
    ensures { IsRequest request.now }
{
    let _address = request.da();
    let _octets = request.unit().len();
}
