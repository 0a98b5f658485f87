//! The requests that stations of a bus execute, kept at the taps that are asked for.

ghost use Rattle.std.specs.Prelude.{◌≡◌, ◌≢◌, None, IfSome, MatchOption, length, slice_get};
ghost use Rattle.pb_world.specs.Told.{requests_at};
ghost use Rattle.pbfdl.specs.BusIndications.{CountsKept, ForgetsAt, KeepsAt, TellsKept};
ghost use Rattle.pbfdl.specs.Buses.{FindsNoBus};

use crate::bus_codes::{NO_BUS, event_code};
use crate::bus_handles::BusHandle;
use crate::codes::NO_INDICATION;
use crate::indications::{FdlIndication, tell_at};
use pb_world::DrivenBus;
use std::alloc::Global;

/// Keeps the requests of others that the station at a tap executes from now on: the first ones, as many as there is
/// room for. What was kept of this tap is forgotten. Codes, in order: 73; 81; 63, with what was kept before.
#[unsafe(no_mangle)]
pub extern "C" fn fdl_bus_keep_indications(
    alloc: Global,
    bus: &mut BusHandle,
    tap: usize,
    room: usize,
) -> u32
    ensures none { bus.old.value ≡ None → FindsNoBus result bus.new.value }
    ensures keeps { IfSome bus.old.value (λ b. KeepsAt b tap room result bus.new.value) }
{
    let Some(mut there) = bus.take(alloc) else {
        return NO_BUS;
    };
    let code = event_code(there.keep_indications(alloc, tap, room));
    bus.put(there);
    code
}

/// How many requests are kept of a tap. Codes: 73; 69 where they are not asked for.
#[unsafe(no_mangle)]
pub extern "C" fn fdl_bus_indications(
    alloc: Global,
    bus: &mut BusHandle,
    tap: usize,
    count: &mut usize,
) -> u32
    ensures none { bus.old.value ≡ None → FindsNoBus result bus.new.value }
    ensures count { IfSome bus.old.value
        (λ b. CountsKept result count.new (requests_at b.watched.told tap)) }
    ensures same { result ≢ 0 → count.new ≡ count.old }
    ensures kept { bus.new.value ≡ bus.old.value }
{
    let Some(there) = bus.take(alloc) else {
        return NO_BUS;
    };
    let code = count_kept(&there, tap, count);
    bus.put(there);
    code
}

/// The request with this index, from 0, of those that are kept of a tap. Codes: 73; 69 where there are no more than
/// `index`, or they are not asked for.
#[unsafe(no_mangle)]
pub extern "C" fn fdl_bus_indication(
    alloc: Global,
    bus: &mut BusHandle,
    tap: usize,
    index: usize,
    told: &mut FdlIndication,
) -> u32
    ensures none { bus.old.value ≡ None → FindsNoBus result bus.new.value }
    ensures told { IfSome bus.old.value
        (λ b. TellsKept result told.new (requests_at b.watched.told tap) index) }
    ensures same { result ≢ 0 → told.new ≡ told.old }
    ensures kept { bus.new.value ≡ bus.old.value }
{
    let Some(there) = bus.take(alloc) else {
        return NO_BUS;
    };
    let code = tell_kept(&there, tap, index, told);
    bus.put(there);
    code
}

/// Forgets the requests that are kept of a tap. Later ones are kept. Code: 73.
#[unsafe(no_mangle)]
pub extern "C" fn fdl_bus_forget_indications(alloc: Global, bus: &mut BusHandle, tap: usize) -> u32
    ensures none { bus.old.value ≡ None → FindsNoBus result bus.new.value }
    ensures forgets { IfSome bus.old.value (λ b. (result ≡ 0) × ForgetsAt b tap bus.new.value) }
{
    let Some(mut there) = bus.take(alloc) else {
        return NO_BUS;
    };
    there.forget_indications(tap);
    bus.put(there);
    0
}

/// Tells C how many are kept.
fn count_kept(bus: &DrivenBus, tap: usize, count: &mut usize) -> u32
    ensures count { CountsKept result count.new (requests_at bus.now.watched.told tap) }
    ensures same { result ≢ 0 → count.new ≡ count.old }
{
    match bus.indications(tap) {
        Some(indications) => {
            *count = indications.len();
            0
        }
        None => NO_INDICATION,
    }
}

/// Tells C one of them.
fn tell_kept(bus: &DrivenBus, tap: usize, index: usize, told: &mut FdlIndication) -> u32
    ensures told { TellsKept result told.new (requests_at bus.now.watched.told tap) index }
    ensures same { result ≢ 0 → told.new ≡ told.old }
{
    match bus.indications(tap) {
        Some(indications) => tell_at(told, indications, index),
        None => NO_INDICATION,
    }
}
