//! What can be read of a bus and of the stations at its taps.

ghost use Rattle.std.specs.Prelude.{◌≡◌, ◌≢◌, ◌<◌, ◌≤◌, None, IfSome, unwrap_or, length};
ghost use Rattle.law_rings.specs.Settled.{is_settled};
ghost use Rattle.law_runs.specs.Bus.{next_change};
ghost use Rattle.pb_ring.specs.AddressSets.{is_member};
ghost use Rattle.pb_ring.specs.Las.{members_of};
ghost use Rattle.pb_world.specs.Buses.{world_of, IsKept};
ghost use Rattle.pb_world.specs.Watched.{world_in};
ghost use Rattle.pb_world.specs.Worlds.{due_at};
ghost use Rattle.pbfdl.specs.BusReadings.{AtTap};
ghost use Rattle.pbfdl.specs.Buses.{FindsNoBus};
ghost use Rattle.pbfdl.specs.Codes.{phase_number};
ghost use Rattle.pbfdl.specs.Outcomes.{Tells};

use crate::bus_codes::{NO_BUS, NO_SUCH_TAP};
use crate::bus_handles::BusHandle;
use crate::codes::BAD_STATION;
use crate::readings::{FdlOutcome, number_of, tell_last};
use pb_timers::Moment;
use pb_world::Bus;
use std::alloc::Global;

/// The moment that never comes.
const NEVER: u64 = u64::MAX;

/// The clock of the bus, in bit times. Code: 73.
#[unsafe(no_mangle)]
pub extern "C" fn fdl_bus_now(alloc: Global, bus: &mut BusHandle, now: &mut u64) -> u32
    ensures none { bus.old.value ≡ None → FindsNoBus result bus.new.value × (now.new ≡ now.old) }
    ensures now { IfSome bus.old.value (λ b. (result ≡ 0) × (now.new ≡ (world_in b.watched).now)) }
    ensures kept { bus.new.value ≡ bus.old.value }
{
    let Some(there) = bus.take(alloc) else {
        return NO_BUS;
    };
    *now = there.bus().now.get();
    bus.put(there);
    0
}

/// When the station at a tap has to take its turn: 2^64 - 1 where nothing is to come, or it doesn't run. Codes: 73, 81.
#[unsafe(no_mangle)]
pub extern "C" fn fdl_bus_due(alloc: Global, bus: &mut BusHandle, tap: usize, at: &mut u64) -> u32
    ensures none { bus.old.value ≡ None → FindsNoBus result bus.new.value }
    ensures due { IfSome bus.old.value (λ b. AtTap (world_in b.watched) tap result
        (λ _. at.new ≡ unwrap_or (due_at (world_in b.watched) tap) 18446744073709551615)) }
    ensures same { result ≢ 0 → at.new ≡ at.old }
    ensures kept { bus.new.value ≡ bus.old.value }
{
    let Some(there) = bus.take(alloc) else {
        return NO_BUS;
    };
    let code = tell_due(there.bus(), tap, at);
    bus.put(there);
    code
}

/// Whether the ring is settled: all running masters that are not offline agree on who belongs to it and have had the
/// token, one of them has it, no station has a reply to send, and nothing is on its way (token passing: logical ring).
/// Code: 73.
#[unsafe(no_mangle)]
pub extern "C" fn fdl_bus_is_settled(alloc: Global, bus: &mut BusHandle, settled: &mut bool) -> u32
    ensures none { bus.old.value ≡ None
        → FindsNoBus result bus.new.value × (settled.new ≡ settled.old) }
    ensures settled { IfSome bus.old.value
        (λ b. (result ≡ 0) × (settled.new ≡ is_settled (world_in b.watched))) }
    ensures kept { bus.new.value ≡ bus.old.value }
{
    let Some(there) = bus.take(alloc) else {
        return NO_BUS;
    };
    *settled = there.bus().is_settled();
    bus.put(there);
    0
}

/// The next moment at which something changes on the bus apart from turns: 2^64 - 1 where nothing is to come. Code: 73.
#[unsafe(no_mangle)]
pub extern "C" fn fdl_bus_next_change(alloc: Global, bus: &mut BusHandle, at: &mut u64) -> u32
    ensures none { bus.old.value ≡ None → FindsNoBus result bus.new.value × (at.new ≡ at.old) }
    ensures change { IfSome bus.old.value
        (λ b. (result ≡ 0) × (at.new ≡ unwrap_or (next_change (world_in b.watched)) 18446744073709551615)) }
    ensures kept { bus.new.value ≡ bus.old.value }
{
    let Some(there) = bus.take(alloc) else {
        return NO_BUS;
    };
    *at = bits_of(there.bus().next_change());
    bus.put(there);
    0
}

/// The phase of the station at a tap, 0 to 9. Codes: 73, 81.
#[unsafe(no_mangle)]
pub extern "C" fn fdl_bus_phase(
    alloc: Global,
    bus: &mut BusHandle,
    tap: usize,
    phase: &mut u32,
) -> u32
    ensures none { bus.old.value ≡ None → FindsNoBus result bus.new.value }
    ensures phase { IfSome bus.old.value (λ b. AtTap (world_in b.watched) tap result
        (λ t. phase.new ≡ phase_number t.station.phase)) }
    ensures same { result ≢ 0 → phase.new ≡ phase.old }
    ensures kept { bus.new.value ≡ bus.old.value }
{
    let Some(there) = bus.take(alloc) else {
        return NO_BUS;
    };
    let code = tell_phase(there.bus(), tap, phase);
    bus.put(there);
    code
}

/// Whether an address is in the list of active stations of the station at a tap. Codes, in order: 64 for one over 126;
/// 73, 81.
#[unsafe(no_mangle)]
pub extern "C" fn fdl_bus_is_active(
    alloc: Global,
    bus: &mut BusHandle,
    tap: usize,
    address: u8,
    active: &mut bool,
) -> u32
    ensures station { 126 < address → result ≡ 64 }
    ensures none { address ≤ 126 → bus.old.value ≡ None → FindsNoBus result bus.new.value }
    ensures active { address ≤ 126 → IfSome bus.old.value (λ b. AtTap (world_in b.watched) tap result
        (λ t. active.new ≡ is_member (members_of t.station.las.stage) address)) }
    ensures same { result ≢ 0 → active.new ≡ active.old }
    ensures kept { bus.new.value ≡ bus.old.value }
{
    if address > 126 {
        return BAD_STATION;
    }
    let Some(there) = bus.take(alloc) else {
        return NO_BUS;
    };
    let code = tell_active(there.bus(), tap, address, active);
    bus.put(there);
    code
}

/// How many requests of others the station at a tap has executed since its start. Codes: 73, 81.
#[unsafe(no_mangle)]
pub extern "C" fn fdl_bus_executed(
    alloc: Global,
    bus: &mut BusHandle,
    tap: usize,
    count: &mut u64,
) -> u32
    ensures none { bus.old.value ≡ None → FindsNoBus result bus.new.value }
    ensures count { IfSome bus.old.value (λ b. AtTap (world_in b.watched) tap result
        (λ t. count.new ≡ t.station.cycles.responder.executed)) }
    ensures same { result ≢ 0 → count.new ≡ count.old }
    ensures kept { bus.new.value ≡ bus.old.value }
{
    let Some(there) = bus.take(alloc) else {
        return NO_BUS;
    };
    let code = tell_executed(there.bus(), tap, count);
    bus.put(there);
    code
}

/// What came of the last request of the station at a tap that had an outcome, and at which station. Codes: 73, 81.
#[unsafe(no_mangle)]
pub extern "C" fn fdl_bus_outcome(
    alloc: Global,
    bus: &mut BusHandle,
    tap: usize,
    outcome: &mut FdlOutcome,
) -> u32
    ensures none { bus.old.value ≡ None → FindsNoBus result bus.new.value }
    ensures outcome { IfSome bus.old.value (λ b. AtTap (world_in b.watched) tap result
        (λ t. Tells outcome.new t.station.cycles.last_outcome)) }
    ensures same { result ≢ 0 → outcome.new ≡ outcome.old }
    ensures kept { bus.new.value ≡ bus.old.value }
{
    let Some(there) = bus.take(alloc) else {
        return NO_BUS;
    };
    let code = tell_outcome(there.bus(), tap, outcome);
    bus.put(there);
    code
}

/// Tells C when a tap is due.
fn tell_due(bus: &Bus, tap: usize, at: &mut u64) -> u32
    requires { IsKept bus.now }
    ensures due { AtTap (world_of bus.entry.now) tap result
        (λ _. at.new ≡ unwrap_or (due_at (world_of bus.entry.now) tap) 18446744073709551615) }
    ensures same { result ≢ 0 → at.new ≡ at.old }
{
    if bus.station(tap).is_none() {
        return NO_SUCH_TAP;
    }
    *at = bits_of(bus.due(tap));
    0
}

/// Tells C the phase of a station.
fn tell_phase(bus: &Bus, tap: usize, phase: &mut u32) -> u32
    requires { IsKept bus.now }
    ensures phase { AtTap (world_of bus.entry.now) tap result
        (λ t. phase.new ≡ phase_number t.station.phase) }
    ensures same { result ≢ 0 → phase.new ≡ phase.old }
{
    let Some(station) = bus.station(tap) else {
        return NO_SUCH_TAP;
    };
    *phase = number_of(station.phase());
    0
}

/// Tells C whether a station has an address in its list.
fn tell_active(bus: &Bus, tap: usize, address: u8, active: &mut bool) -> u32
    requires kept { IsKept bus.now }
    requires station { address ≤ 126 }
    ensures active { AtTap (world_of bus.entry.now) tap result
        (λ t. active.new ≡ is_member (members_of t.station.las.stage) address) }
    ensures same { result ≢ 0 → active.new ≡ active.old }
{
    let Some(station) = bus.station(tap) else {
        return NO_SUCH_TAP;
    };
    *active = station.las().contains(address);
    0
}

/// Tells C how many requests a station has executed.
fn tell_executed(bus: &Bus, tap: usize, count: &mut u64) -> u32
    requires { IsKept bus.now }
    ensures count { AtTap (world_of bus.entry.now) tap result
        (λ t. count.new ≡ t.station.cycles.responder.executed) }
    ensures same { result ≢ 0 → count.new ≡ count.old }
{
    let Some(station) = bus.station(tap) else {
        return NO_SUCH_TAP;
    };
    *count = station.executed();
    0
}

/// Writes the last outcome of the station at a tap into `outcome`.
fn tell_outcome(bus: &Bus, tap: usize, outcome: &mut FdlOutcome) -> u32
    requires { IsKept bus.now }
    ensures outcome { AtTap (world_of bus.entry.now) tap result
        (λ t. Tells outcome.new t.station.cycles.last_outcome) }
    ensures same { result ≢ 0 → outcome.new ≡ outcome.old }
{
    let Some(station) = bus.station(tap) else {
        return NO_SUCH_TAP;
    };
    tell_last(outcome, &station.last_outcome());
    0
}

/// A moment as C reads it.
fn bits_of(moment: Option<Moment>) -> u64
    ensures { result ≡ unwrap_or moment 18446744073709551615 }
{
    match moment {
        Some(moment) => moment.get(),
        None => NEVER,
    }
}
