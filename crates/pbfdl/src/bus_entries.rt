//! The trace of a bus, and what an audit says of its run.

ghost use Rattle.std.specs.Prelude.{◌≡◌, ◌≢◌, ◌<◌, Some, None, IfSome, get_or, length, map, min, slice_get};
ghost use Rattle.std.specs.Option.{option_map};
ghost use Rattle.law_model.specs.Trace as model;
ghost use Rattle.pb_medium.specs.Entries.{entry_of, heard_of, record_of};
ghost use Rattle.pb_medium.specs.LettingGo.{past_of};
ghost use Rattle.pb_world.specs.Watched.{world_in};
ghost use Rattle.pbfdl.specs.BusReadings.{AuditsAt, heard_at, TellsAudit, TellsEntry, TellsEntryAt};
ghost use Rattle.pbfdl.specs.Buses.{FindsNoBus, LetsGoAt};

use crate::bus_codes::{NO_BUS, NO_ENTRY};
use crate::bus_handles::BusHandle;
use crate::codes::NO_MEMORY;
use pb_world::{Audit, DrivenBus, Entry, Heard, Reception, Record};
use std::alloc::Global;

/// The most taps of a bus.
const MOST_TAPS: usize = 127;

/// An entry of the trace: a telegram, with how it reached each tap (0 its own, 1 whole, 2 damaged, 3 not at all, 4 not
/// yet), or noise.
#[repr(C)]
#[derive(Clone, Copy)]
pub struct FdlEntry {
    pub begin: u64,
    pub end: u64,
    pub noise: bool,
    pub tap: u8,
    pub count: u8,
    pub octets: [u8; 255],
    pub heard: [u8; 127],
}

/// What an audit says: the first premise that broke, 1 to 4, with the clock after the event that broke it, or 0 and 0;
/// and whether a telegram is illegal that only the holder of the token sends, with the index of the first, or 0.
#[repr(C)]
#[derive(Clone, Copy)]
pub struct FdlAudit {
    pub premise: u8,
    pub moment: u64,
    pub illegal: bool,
    pub entry: u64,
}

/// How many entries the trace has. Code: 73.
#[unsafe(no_mangle)]
pub extern "C" fn fdl_bus_entries(alloc: Global, bus: &mut BusHandle, count: &mut usize) -> u32
    ensures none { bus.old.value ≡ None → FindsNoBus result bus.new.value × (count.new ≡ count.old) }
    ensures count { IfSome bus.old.value
        (λ b. (result ≡ 0) × (count.new ≡ length (world_in b.watched).trace)) }
    ensures kept { bus.new.value ≡ bus.old.value }
{
    let Some(there) = bus.take(alloc) else {
        return NO_BUS;
    };
    *count = there.bus().trace.entries().len();
    bus.put(there);
    0
}

/// The entry of the trace with an index, from 0. Codes, in order: 73; 75 where there are no more than `index`.
#[unsafe(no_mangle)]
pub extern "C" fn fdl_bus_entry(
    alloc: Global,
    bus: &mut BusHandle,
    index: usize,
    told: &mut FdlEntry,
) -> u32
    ensures none { bus.old.value ≡ None → FindsNoBus result bus.new.value }
    ensures entry { IfSome bus.old.value
        (λ b. TellsEntryAt result told.new (slice_get (world_in b.watched).trace index)) }
    ensures same { result ≢ 0 → told.new ≡ told.old }
    ensures kept { bus.new.value ≡ bus.old.value }
{
    let Some(there) = bus.take(alloc) else {
        return NO_BUS;
    };
    let code = tell_at(told, there.bus().trace.entries(), index);
    bus.put(there);
    code
}

/// How many of the first entries are over: what their fields say, `heard` included, no longer changes, and
/// [`fdl_bus_let_go`] removes them. Code: 73.
#[unsafe(no_mangle)]
pub extern "C" fn fdl_bus_over(alloc: Global, bus: &mut BusHandle, count: &mut usize) -> u32
    ensures none { bus.old.value ≡ None → FindsNoBus result bus.new.value × (count.new ≡ count.old) }
    ensures count { IfSome bus.old.value
        (λ b. (result ≡ 0) × (count.new ≡ length (past_of b.watched.bus.trace))) }
    ensures kept { bus.new.value ≡ bus.old.value }
{
    let Some(there) = bus.take(alloc) else {
        return NO_BUS;
    };
    *count = there.past().len();
    bus.put(there);
    0
}

/// Removes the entries that are over from the trace, and says how many. The run goes on as if they stood there, and an
/// audit still knows them; the entries that are left are numbered from 0. Codes: 73; 63 where memory was refused, and
/// then nothing is removed.
#[unsafe(no_mangle)]
pub extern "C" fn fdl_bus_let_go(alloc: Global, bus: &mut BusHandle, count: &mut usize) -> u32
    ensures none { bus.old.value ≡ None → FindsNoBus result bus.new.value × (count.new ≡ count.old) }
    ensures gone { IfSome bus.old.value (λ b. LetsGoAt b result count.old count.new bus.new.value) }
{
    let Some(mut there) = bus.take(alloc) else {
        return NO_BUS;
    };
    let code = let_go(alloc, &mut there, count);
    bus.put(there);
    code
}

/// What an audit says of the events so far. An illegal telegram is told by its index in the whole trace, with the entries
/// counted that were let go. Codes: 73; 63 where memory was refused.
#[unsafe(no_mangle)]
pub extern "C" fn fdl_bus_audit(alloc: Global, bus: &mut BusHandle, told: &mut FdlAudit) -> u32
    ensures none { bus.old.value ≡ None → FindsNoBus result bus.new.value × (told.new ≡ told.old) }
    ensures audit { IfSome bus.old.value (λ b. AuditsAt b result told.old told.new) }
    ensures kept { bus.new.value ≡ bus.old.value }
{
    let Some(there) = bus.take(alloc) else {
        return NO_BUS;
    };
    let code = tell_audit(alloc, &there, told);
    bus.put(there);
    code
}

/// Lets go of what is over on a bus.
fn let_go(alloc: Global, bus: &mut DrivenBus, count: &mut usize) -> u32
    ensures { LetsGoAt bus.old result count.old count.new (Some bus.new) }
{
    match bus.let_go(alloc) {
        Ok(gone) => {
            *count = gone;
            0
        }
        Err(_) => NO_MEMORY,
    }
}

/// Tells C what an audit of a bus finds.
fn tell_audit(alloc: Global, bus: &DrivenBus, told: &mut FdlAudit) -> u32
    ensures { AuditsAt bus.entry.now result told.old told.new }
{
    match bus.judge(alloc) {
        Ok(found) => {
            *told = told_audit(found);
            0
        }
        Err(_) => NO_MEMORY,
    }
}

/// Tells C the entry with an index.
fn tell_at(told: &mut FdlEntry, entries: &[Entry], index: usize) -> u32
    ensures told { TellsEntryAt result told.new (slice_get (map entry_of entries.now) index) }
    ensures same { result ≢ 0 → told.new ≡ told.old }
{
    match entries.get(index) {
        Some(Entry::Sent(record)) => {
            tell_record(told, record);
            0
        }
        Some(Entry::Noise { begin, end }) => {
            told.noise = true;
            told.begin = *begin;
            told.end = *end;
            0
        }
        None => NO_ENTRY,
    }
}

/// Tells C a telegram.
fn tell_record(told: &mut FdlEntry, record: &Record)
    ensures { TellsEntry told.new (model.Sent (record_of record.now)) }
{
    told.noise = false;
    told.begin = record.begin;
    told.end = record.end;
    told.tap = record.tap.min(255) as u8;
    told.octets[..record.octets.len()].copy_from_slice(&record.octets);
    told.count = record.octets.len() as u8;
    tell_heard(&mut told.heard, &record.heard);
}

/// Tells C how a telegram reached each tap.
fn tell_heard(told: &mut [u8; 127], heard: &Reception)
    ensures { (tap : _) → tap < 127 → get_or told.new tap 0 ≡ heard_at (slice_get heard.now tap) }
{
    for tap in 0..MOST_TAPS {
        told[tap] = heard_number(heard.get(tap));
    }
}

/// The number of how a telegram reached a tap.
fn heard_number(heard: Option<Heard>) -> u8
    ensures { result ≡ heard_at (option_map heard_of heard) }
{
    match heard {
        Some(Heard::Own) => 0,
        Some(Heard::Whole) => 1,
        Some(Heard::Damaged) => 2,
        Some(Heard::Unheard) => 3,
        Some(Heard::Pending) | None => 4,
    }
}

/// What an audit finds, as C reads it.
fn told_audit(found: Audit) -> FdlAudit
    ensures { TellsAudit result found }
{
    let (premise, moment) = match found.premise {
        Some((premise, moment)) => (premise, moment.get()),
        None => (0, 0),
    };
    let (illegal, entry) = match found.illegal {
        Some(entry) => (true, entry as u64),
        None => (false, 0),
    };
    FdlAudit {
        premise,
        moment,
        illegal,
        entry,
    }
}
