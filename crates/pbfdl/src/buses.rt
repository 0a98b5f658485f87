//! A bus: its life, its events, and its run by itself.

ghost use Rattle.std.specs.Prelude.{◌≡◌, ◌≢◌, ◌<◌, ◌≤◌, Some, None, MatchOption, IfSome, IfOk, IfErr, length, map};
ghost use Rattle.law_model.specs.World as model;
ghost use Rattle.pb_faults.specs.FirstFault.{first_fault};
ghost use Rattle.pb_taps.specs.Events.{event_of};
ghost use Rattle.pbfdl.specs.Buses.{bus_codes, FindsNoBus, Makes, MakesWithin, Meets, place_of, run_codes, Runs, SetsAt, tap_fault, tap_spec_of};
ghost use Rattle.pbfdl.specs.Calls.{params_of, request_codes, request_fields, service_of};

use crate::bus_codes::{BUS_IN_USE, CLOCK_FULL, NO_BUS, TOO_FAR, event_code, new_code};
use crate::bus_handles::BusHandle;
use crate::codes::{BACKWARDS, LONG_DATA, NO_MEMORY};
use crate::params::{FdlParams, bus_params};
use crate::ports::request_of;
use crate::taps::{FdlTap, check_taps, has_long_reply, specs_of};
use pb_medium::TRACE_LIMIT;
use pb_taps::Event;
use pb_telegram::copy_octets;
use pb_timers::BusParams;
use pb_world::DrivenBus;
use std::alloc::Global;

/// The last clock of a bus, in bit times.
const LAST_CLOCK: u64 = 1_000_000_000_000;

/// The most octets of data that a station replies.
const MOST_DATA: usize = 246;

/// The longest noise, in bit times.
const LONGEST_NOISE: u64 = 4_294_967_295;

/// Makes a bus at clock 0 on which no tap runs, whose trace may have 100,000 entries, at an empty handle. Codes, in order:
/// 74 where the handle isn't empty; 21 to 30, a fault of the parameters; 66 where a tap replies with more than 246 octets;
/// 71, 72, 64; 63 where memory was refused.
#[unsafe(no_mangle)]
pub extern "C" fn fdl_bus_new(
    alloc: Global,
    bus: &mut BusHandle,
    params: &FdlParams,
    taps: &[FdlTap],
) -> u32
    ensures made { MakesWithin model.trace_limit (params_of params.now) taps.now bus.old.value result
        bus.new.value }
    ensures kept { result ≢ 0 → bus.new.value ≡ bus.old.value }
{
    make(alloc, bus, params, taps, TRACE_LIMIT)
}

/// The same, of a bus whose trace may have `entries` entries, those that are let go included.
#[unsafe(no_mangle)]
pub extern "C" fn fdl_bus_new_within(
    alloc: Global,
    bus: &mut BusHandle,
    params: &FdlParams,
    taps: &[FdlTap],
    entries: usize,
) -> u32
    ensures made { MakesWithin entries (params_of params.now) taps.now bus.old.value result bus.new.value }
    ensures kept { result ≢ 0 → bus.new.value ≡ bus.old.value }
{
    make(alloc, bus, params, taps, entries)
}

/// Frees the bus of a handle, which is empty then.
#[unsafe(no_mangle)]
pub extern "C" fn fdl_bus_free(alloc: Global, bus: &mut BusHandle)
    ensures { bus.new.value ≡ None }
{
    drop(bus.take(alloc));
}

/// The station at a tap starts. Codes: 73, 81, 82.
#[unsafe(no_mangle)]
pub extern "C" fn fdl_bus_start(alloc: Global, bus: &mut BusHandle, tap: usize) -> u32
    ensures none { bus.old.value ≡ None → FindsNoBus result bus.new.value }
    ensures starts { IfSome bus.old.value (λ b. Meets b (model.Start tap) result bus.new.value) }
{
    happens(alloc, bus, &Event::Start(tap))
}

/// The station at a tap stops. Codes: 73, 81, 83.
#[unsafe(no_mangle)]
pub extern "C" fn fdl_bus_stop(alloc: Global, bus: &mut BusHandle, tap: usize) -> u32
    ensures none { bus.old.value ≡ None → FindsNoBus result bus.new.value }
    ensures stops { IfSome bus.old.value (λ b. Meets b (model.Stop tap) result bus.new.value) }
{
    happens(alloc, bus, &Event::Stop(tap))
}

/// The station at a tap takes its turn. Codes: 73, 81, 83, 90, 63.
#[unsafe(no_mangle)]
pub extern "C" fn fdl_bus_turn(alloc: Global, bus: &mut BusHandle, tap: usize) -> u32
    ensures none { bus.old.value ≡ None → FindsNoBus result bus.new.value }
    ensures turn { IfSome bus.old.value (λ b. Meets b (model.Turn tap) result bus.new.value) }
{
    let Some(mut there) = bus.take(alloc) else {
        return NO_BUS;
    };
    let code = event_code(there.turn(alloc, tap));
    bus.put(there);
    code
}

/// Time passes, in bit times. Codes: 73, 85, 86, 87, 45.
#[unsafe(no_mangle)]
pub extern "C" fn fdl_bus_pass(alloc: Global, bus: &mut BusHandle, bits: u64) -> u32
    ensures none { bus.old.value ≡ None → FindsNoBus result bus.new.value }
    ensures passes { IfSome bus.old.value (λ b. Meets b (model.Pass bits) result bus.new.value) }
{
    let Some(mut there) = bus.take(alloc) else {
        return NO_BUS;
    };
    let code = event_code(there.pass(alloc, bits));
    bus.put(there);
    code
}

/// Noise reaches every tap, for some bit times. Codes: 86 for more than 4,294,967,295; 73, 85, 90, 63.
#[unsafe(no_mangle)]
pub extern "C" fn fdl_bus_noise(alloc: Global, bus: &mut BusHandle, bits: u64) -> u32
    ensures long { 4294967295 < bits → (result ≡ 86) × (bus.new.value ≡ bus.old.value) }
    ensures none { bits ≤ 4294967295 → bus.old.value ≡ None → FindsNoBus result bus.new.value }
    ensures noise { bits ≤ 4294967295
        → IfSome bus.old.value (λ b. Meets b (model.Noise bits) result bus.new.value) }
{
    if bits > LONGEST_NOISE {
        return TOO_FAR;
    }
    happens(alloc, bus, &Event::Noise(bits as u32))
}

/// A tap hears a speaker's telegram damaged: the character with index `place`, or for a number over 255 every one.
/// Codes: 73, 81, 84, 63.
#[unsafe(no_mangle)]
pub extern "C" fn fdl_bus_damage(
    alloc: Global,
    bus: &mut BusHandle,
    tap: usize,
    speaker: usize,
    place: u32,
) -> u32
    ensures none { bus.old.value ≡ None → FindsNoBus result bus.new.value }
    ensures damages { IfSome bus.old.value
        (λ b. Meets b (model.Damage tap speaker (place_of place)) result bus.new.value) }
{
    let place = place_of(place);
    happens(
        alloc,
        bus,
        &Event::Damage {
            tap,
            speaker,
            place,
        },
    )
}

/// The telegram that a speaker has begun now is lost at a tap. Codes: 73, 81, 84.
#[unsafe(no_mangle)]
pub extern "C" fn fdl_bus_unheard(
    alloc: Global,
    bus: &mut BusHandle,
    tap: usize,
    speaker: usize,
) -> u32
    ensures none { bus.old.value ≡ None → FindsNoBus result bus.new.value }
    ensures loses { IfSome bus.old.value (λ b. Meets b (model.Unheard tap speaker) result bus.new.value) }
{
    happens(alloc, bus, &Event::Unheard { tap, speaker })
}

/// A request waits at the station of a tap. Services: 0 SDA, 1 SDN, 2 SRD. Codes, in order: 65, 66, 64, 73, 81, 83, 46.
#[unsafe(no_mangle)]
pub extern "C" fn fdl_bus_queue(
    alloc: Global,
    bus: &mut BusHandle,
    tap: usize,
    da: u8,
    service: u8,
    high: bool,
    unit: &[u8],
) -> u32
    ensures refused { IfSome (first_fault (request_codes da (service_of service) (length unit.now)))
        (λ code. (result ≡ code) × (bus.new.value ≡ bus.old.value)) }
    ensures none { first_fault (request_codes da (service_of service) (length unit.now)) ≡ None
        → bus.old.value ≡ None → FindsNoBus result bus.new.value }
    ensures waits { first_fault (request_codes da (service_of service) (length unit.now)) ≡ None
        → IfSome (service_of service) (λ s. IfSome bus.old.value (λ b.
        Meets b (model.Queue tap (request_fields da s high unit.now)) result bus.new.value)) }
{
    let request = match request_of(da, service, high, unit) {
        Ok(request) => request,
        Err(code) => return code,
    };
    happens(alloc, bus, &Event::Queue { tap, request })
}

/// Changes the data that the station at a tap replies to the next request for data, between two events. Codes, in order:
/// 66 for more than 246 octets; 73, 81.
#[unsafe(no_mangle)]
pub extern "C" fn fdl_bus_set_reply(
    alloc: Global,
    bus: &mut BusHandle,
    tap: usize,
    unit: &[u8],
) -> u32
    ensures long { 246 < length unit.now → (result ≡ 66) × (bus.new.value ≡ bus.old.value) }
    ensures none { length unit.now ≤ 246 → bus.old.value ≡ None → FindsNoBus result bus.new.value }
    ensures sets { length unit.now ≤ 246
        → IfSome bus.old.value (λ b. SetsAt b tap unit.now result bus.new.value) }
{
    if unit.len() > MOST_DATA {
        return LONG_DATA;
    }
    let Some(mut there) = bus.take(alloc) else {
        return NO_BUS;
    };
    let code = event_code(there.set_reply(tap, copy_octets(unit)));
    bus.put(there);
    code
}

/// The bus runs to a moment, in bit times: at each instant the turns that are due, in the order of the taps, then a
/// pass of time to the next instant. Codes, in order: 73; 42 where the moment is before the clock; 87 where it is over
/// 1,000,000,000,000; those of a turn and of a pass of time, with the bus before the refused event.
#[unsafe(no_mangle)]
pub extern "C" fn fdl_bus_run(alloc: Global, bus: &mut BusHandle, until: u64) -> u32
    ensures none { bus.old.value ≡ None → FindsNoBus result bus.new.value }
    ensures runs { IfSome bus.old.value (λ b. MatchOption (first_fault (run_codes b until))
        (Runs b until result bus.new.value) (λ code. (result ≡ code) × (bus.new.value ≡ Some b))) }
{
    let Some(mut running) = bus.take(alloc) else {
        return NO_BUS;
    };
    let code = run_to(alloc, &mut running, until);
    bus.put(running);
    code
}

/// Lets a bus run to a moment.
fn run_to(alloc: Global, bus: &mut DrivenBus, until: u64) -> u32
    ensures { MatchOption (first_fault (run_codes bus.old until))
        (Runs bus.old until result (Some bus.new)) (λ code. (result ≡ code) × (bus.new ≡ bus.old)) }
{
    if until < bus.bus().now.get() {
        return BACKWARDS;
    }
    if until > LAST_CLOCK {
        return CLOCK_FULL;
    }
    event_code(bus.run(alloc, until))
}

/// Makes a bus at an empty handle.
fn make(
    alloc: Global,
    bus: &mut BusHandle,
    params: &FdlParams,
    taps: &[FdlTap],
    entries: usize,
) -> u32
    ensures made { MakesWithin entries (params_of params.now) taps.now bus.old.value result bus.new.value }
    ensures kept { result ≢ 0 → bus.new.value ≡ bus.old.value }
{
    if let Some(there) = bus.take(alloc) {
        bus.put(there);
        return BUS_IN_USE;
    }
    match new_bus(alloc, params, taps, entries) {
        Ok(made) => {
            bus.put(made);
            0
        }
        Err(code) => code,
    }
}

/// Applies an event to the bus of a handle. Turns and passes of time don't: making an event clears room for a request.
fn happens(alloc: Global, bus: &mut BusHandle, event: &Event) -> u32
    ensures none { bus.old.value ≡ None → FindsNoBus result bus.new.value }
    ensures meets { IfSome bus.old.value (λ b. Meets b (event_of event.now) result bus.new.value) }
{
    let Some(mut there) = bus.take(alloc) else {
        return NO_BUS;
    };
    let code = event_code(there.apply(alloc, event));
    bus.put(there);
    code
}

/// Which character is damaged; `None` for all.
fn place_of(place: u32) -> Option<u8>
    ensures { result ≡ place_of place }
{
    if place < 256 { Some(place as u8) } else { None }
}

/// A new bus in a box, or the code of the first fault.
fn new_bus(
    alloc: Global,
    params: &FdlParams,
    taps: &[FdlTap],
    entries: usize,
) -> Result<Box<DrivenBus>, u32>
    ensures made { IfOk result (λ b. (first_fault (bus_codes None (params_of params.now) taps.now) ≡ None)
        × Makes (model.new_world_within entries (params_of params.now) (map tap_spec_of taps.now)) 0
        (Some b.value)) }
    ensures fault { IfErr result
        (λ code. (code ≢ 0) × MakesWithin entries (params_of params.now) taps.now None code None) }
{
    let params = bus_params(params)?;
    if has_long_reply(taps) {
        return Err(LONG_DATA);
    }
    check_taps(&params, taps)?;
    let bus = made_bus(alloc, params, taps, entries)?;
    Box::new(alloc, bus).map_err(|_| NO_MEMORY)
}

/// A new bus, or the code of refused memory. The caller ensures that nothing else refuses it.
fn made_bus(
    alloc: Global,
    params: BusParams,
    taps: &[FdlTap],
    entries: usize,
) -> Result<DrivenBus, u32>
    requires { tap_fault params taps.now ≡ None }
    ensures made { IfOk result
        (λ b. Makes (model.new_world_within entries params (map tap_spec_of taps.now)) 0 (Some b)) }
    ensures fault { IfErr result (λ code. (code ≢ 0)
        × Makes (model.new_world_within entries params (map tap_spec_of taps.now)) code None) }
{
    let Ok(specs) = specs_of(alloc, taps) else {
        return Err(NO_MEMORY);
    };
    match DrivenBus::new_within(alloc, params, &specs, entries) {
        Ok(bus) => Ok(bus),
        Err(fault) => Err(new_code(fault)),
    }
}
