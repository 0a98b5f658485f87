//! What a monitor knows of a bus.

ghost use Rattle.std.specs.Prelude.{◌≡◌, ◌≢◌, ◌<◌, ◌≤◌, None, IfSome};
ghost use Rattle.pbfdl.specs.MonitorReadings.{TellsCounts, TellsTraffic, counts_of, role_number, spread_of, traffic_of};
ghost use Rattle.pbfdl.specs.Monitors.{FindsNoMonitor};

use crate::codes::BAD_STATION;
use crate::monitor_codes::NO_MONITOR;
use crate::monitor_handles::MonitorHandle;
use pb_monitor::{Role, Spread, Station, Traffic};
use std::alloc::Global;

/// What is counted for a bus. Counts saturate at 2^64 - 1; moments and durations are in bit times.
#[repr(C)]
#[derive(Clone, Copy)]
pub struct FdlTraffic {
    pub timed: bool,
    pub complete: bool,
    pub first: u64,
    pub last: u64,
    pub busy: u64,
    pub bursts: u64,
    pub after_loss: u64,
    pub taking: u64,
    pub replying: u64,
    pub other: u64,
    pub longest_silence: u64,
    pub alarms: u64,
    pub refused: u64,
}

/// How many durations there are, their sum, the least and the greatest, in bit times.
#[repr(C)]
#[derive(Clone, Copy)]
pub struct FdlSpread {
    pub count: u64,
    pub total: u64,
    pub least: u64,
    pub greatest: u64,
}

/// What is counted for a station. Counts saturate at 2^64 - 1; moments and durations are in bit times.
#[repr(C)]
#[derive(Clone, Copy)]
pub struct FdlStationCounts {
    pub role: u8,
    pub active: bool,
    pub timed: bool,
    pub last_heard: u64,
    pub telegrams: u64,
    pub tokens: u64,
    pub claims: u64,
    pub requests: u64,
    pub polls: u64,
    pub repeats: u64,
    pub unanswered: u64,
    pub damaged_answers: u64,
    pub polled: u64,
    pub tokens_not_taken: u64,
    pub rotation: FdlSpread,
    pub taking: FdlSpread,
    pub replying: FdlSpread,
}

/// Tells what is counted for the bus. Code: 91.
#[unsafe(no_mangle)]
pub extern "C" fn fdl_monitor_traffic(
    alloc: Global,
    monitor: &mut MonitorHandle,
    traffic: &mut FdlTraffic,
) -> u32
    ensures none { monitor.old.value ≡ None
        → FindsNoMonitor result monitor.new.value × (traffic.new ≡ traffic.old) }
    ensures told { IfSome monitor.old.value (λ _. (result ≡ 0) × TellsTraffic traffic.new) }
    ensures kept { monitor.new.value ≡ monitor.old.value }
{
    let Some(there) = monitor.take(alloc) else {
        return NO_MONITOR;
    };
    let known = there.statistics();
    *traffic = traffic_of(known.traffic(), known.is_ring_known());
    monitor.put(there);
    0
}

/// Tells what is counted for the station with an address. Codes, in order: 64 for one over 126; 91.
#[unsafe(no_mangle)]
pub extern "C" fn fdl_monitor_station(
    alloc: Global,
    monitor: &mut MonitorHandle,
    address: u8,
    counts: &mut FdlStationCounts,
) -> u32
    ensures station { 126 < address → result ≡ 64 }
    ensures none { address ≤ 126 → monitor.old.value ≡ None → FindsNoMonitor result monitor.new.value }
    ensures told { address ≤ 126
        → IfSome monitor.old.value (λ _. (result ≡ 0) × TellsCounts counts.new) }
    ensures same { result ≢ 0 → counts.new ≡ counts.old }
    ensures kept { monitor.new.value ≡ monitor.old.value }
{
    if address > 126 {
        return BAD_STATION;
    }
    let Some(there) = monitor.take(alloc) else {
        return NO_MONITOR;
    };
    let known = there.statistics();
    let station = known.station(address).copied().unwrap_or_default();
    *counts = counts_of(&station, known.is_active(address));
    monitor.put(there);
    0
}

/// What is counted for a bus, as C reads it.
fn traffic_of(traffic: &Traffic, complete: bool) -> FdlTraffic
    ensures { result ≡ traffic_of traffic.now complete }
{
    FdlTraffic {
        timed: traffic.first.is_some(),
        complete,
        first: traffic.first.unwrap_or(0),
        last: traffic.last.unwrap_or(0),
        busy: traffic.busy,
        bursts: traffic.bursts,
        after_loss: traffic.damaged.after_loss,
        taking: traffic.damaged.taking,
        replying: traffic.damaged.replying,
        other: traffic.damaged.other,
        longest_silence: traffic.longest_silence,
        alarms: traffic.alarms,
        refused: traffic.refused,
    }
}

/// What is counted for a station, as C reads it.
fn counts_of(station: &Station, active: bool) -> FdlStationCounts
    ensures { result ≡ counts_of station.now active }
{
    FdlStationCounts {
        role: role_number(station.role),
        active,
        timed: station.last_heard.is_some(),
        last_heard: station.last_heard.unwrap_or(0),
        telegrams: station.telegrams,
        tokens: station.tokens,
        claims: station.claims,
        requests: station.requests,
        polls: station.polls,
        repeats: station.repeats,
        unanswered: station.unanswered,
        damaged_answers: station.damaged_answers,
        polled: station.polled,
        tokens_not_taken: station.tokens_not_taken,
        rotation: spread_of(&station.rotation),
        taking: spread_of(&station.taking),
        replying: spread_of(&station.replying),
    }
}

/// The number of a role.
fn role_number(role: Role) -> u8
    ensures { result ≡ role_number role }
{
    match role {
        Role::Unknown => 0,
        Role::Passive => 1,
        Role::MasterNotReady => 2,
        Role::MasterReady => 3,
        Role::MasterInRing => 4,
    }
}

/// Durations, as C reads them.
fn spread_of(spread: &Spread) -> FdlSpread
    ensures { result ≡ spread_of spread.now }
{
    FdlSpread {
        count: spread.count,
        total: spread.total,
        least: spread.least,
        greatest: spread.greatest,
    }
}
