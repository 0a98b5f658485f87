//! What can be read of a station.

ghost use Rattle.std.specs.Prelude.{◌≡◌, ◌≢◌, ◌<◌, ◌≤◌, Some, None, IfSome};
ghost use Rattle.pb_ring.specs.AddressSets.{is_member};
ghost use Rattle.pb_ring.specs.Las.{members_of};
ghost use Rattle.pb_tokenfsm.specs.Phases.{phase_of};
ghost use Rattle.pbfdl.specs.Codes.{phase_number};
ghost use Rattle.pbfdl.specs.Calls.{FindsNone};
ghost use Rattle.pbfdl.specs.Outcomes.{Tells};

use crate::codes::{BAD_STATION, EMPTY_HANDLE};
use pb_cycles::Outcome;
use pb_port::Handle;
use pb_tokenfsm::Phase;
use std::alloc::Global;

/// What came of a request: 1 acknowledged, 2 data came back, 3 no resource or no such service, 4 no answer; 0 where no
/// cycle has ended since the start.
#[repr(C)]
#[derive(Clone, Copy)]
pub struct FdlOutcome {
    pub kind: u8,
    pub station: u8,
    pub count: u8,
    pub data: [u8; 246],
}

/// The station's phase, 0 to 9. Code: 61.
#[unsafe(no_mangle)]
pub extern "C" fn fdl_port_phase(alloc: Global, port: &mut Handle, phase: &mut u32) -> u32
    ensures none { port.old.value ≡ None → FindsNone result port.new.value }
    ensures phase { IfSome port.old.value
        (λ p. (result ≡ 0) × (phase.new ≡ phase_number p.station.station.phase)) }
    ensures same { result ≢ 0 → phase.new ≡ phase.old }
    ensures kept { port.new.value ≡ port.old.value }
{
    let Some(station) = port.take(alloc) else {
        return EMPTY_HANDLE;
    };
    *phase = number_of(station.phase());
    port.put(station);
    0
}

/// Whether an address is in the station's list of active stations. Codes, in order: 64 for one over 126; 61.
#[unsafe(no_mangle)]
pub extern "C" fn fdl_port_is_active(
    alloc: Global,
    port: &mut Handle,
    address: u8,
    active: &mut bool,
) -> u32
    ensures station { 126 < address → result ≡ 64 }
    ensures none { address ≤ 126 → port.old.value ≡ None → FindsNone result port.new.value }
    ensures active { address ≤ 126 → IfSome port.old.value (λ p. (result ≡ 0)
        × (active.new ≡ is_member (members_of p.station.station.las.stage) address)) }
    ensures same { result ≢ 0 → active.new ≡ active.old }
    ensures kept { port.new.value ≡ port.old.value }
{
    if address > 126 {
        return BAD_STATION;
    }
    let Some(station) = port.take(alloc) else {
        return EMPTY_HANDLE;
    };
    *active = station.las().contains(address);
    port.put(station);
    0
}

/// How many requests of others the station has executed since its start. Code: 61.
#[unsafe(no_mangle)]
pub extern "C" fn fdl_port_executed(alloc: Global, port: &mut Handle, count: &mut u64) -> u32
    ensures none { port.old.value ≡ None → FindsNone result port.new.value }
    ensures count { IfSome port.old.value
        (λ p. (result ≡ 0) × (count.new ≡ p.station.station.cycles.responder.executed)) }
    ensures same { result ≢ 0 → count.new ≡ count.old }
    ensures kept { port.new.value ≡ port.old.value }
{
    let Some(station) = port.take(alloc) else {
        return EMPTY_HANDLE;
    };
    *count = station.executed();
    port.put(station);
    0
}

/// What came of the last request that had an outcome, and at which station. Code: 61.
#[unsafe(no_mangle)]
pub extern "C" fn fdl_port_outcome(
    alloc: Global,
    port: &mut Handle,
    outcome: &mut FdlOutcome,
) -> u32
    ensures none { port.old.value ≡ None → FindsNone result port.new.value }
    ensures outcome { IfSome port.old.value
        (λ p. (result ≡ 0) × Tells outcome.new p.station.station.cycles.last_outcome) }
    ensures same { result ≢ 0 → outcome.new ≡ outcome.old }
    ensures kept { port.new.value ≡ port.old.value }
{
    let Some(station) = port.take(alloc) else {
        return EMPTY_HANDLE;
    };
    tell_last(outcome, &station.last_outcome());
    port.put(station);
    0
}

/// Tells C what came of the last request that had an outcome.
pub(crate) fn tell_last(outcome: &mut FdlOutcome, last: &Option<(u8, Outcome)>)
    ensures { Tells outcome.new last.now }
{
    match last {
        Some((address, came)) => tell(outcome, *address, came),
        None => outcome.kind = 0,
    }
}

/// Tells C what came of a request.
fn tell(outcome: &mut FdlOutcome, address: u8, came: &Outcome)
    ensures { Tells outcome.new (Some (address, came.now)) }
{
    outcome.station = address;
    outcome.count = 0;
    match came {
        Outcome::Acked => outcome.kind = 1,
        Outcome::Data(data) => {
            outcome.kind = 2;
            outcome.data[..data.len()].copy_from_slice(data);
            outcome.count = data.len() as u8;
        }
        Outcome::NoResource => outcome.kind = 3,
        Outcome::NoAnswer => outcome.kind = 4,
    }
}

/// The number of a phase.
pub(crate) fn number_of(phase: &Phase) -> u32
    ensures { result ≡ phase_number (phase_of phase.now) }
{
    match phase {
        Phase::Offline(_) => 0,
        Phase::PassiveIdle(_) => 1,
        Phase::Listening(_) => 2,
        Phase::Idle(_) => 3,
        Phase::Claim(_) => 4,
        Phase::Use(_) => 5,
        Phase::AwaitData(_) => 6,
        Phase::AwaitStatus(_) => 7,
        Phase::Pass(_) => 8,
        Phase::Checking(_) => 9,
    }
}
