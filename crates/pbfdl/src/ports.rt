//! A station at a line: its life, its marks and its turns.

ghost use Rattle.std.specs.Prelude.{◌≡◌, ◌≢◌, ◌<◌, ◌≤◌, ◌∷◌, [], Some, None, MatchOption, MatchResult, IfSome, IfOk, IfErr, ◌⊎◌, unwrap_or, length, map, false};
ghost use Rattle.pb_faults.specs.FirstFault.{first_fault};
ghost use Rattle.pb_telegram.specs.declared.chars.RxChar.TheVariants.{Good, Bad};
ghost use Rattle.law_turn.specs.Marks as model;
ghost use Rattle.pb_port.specs.Ports.{new_port, port_with_room, started_port, stopped_port, pushed_port, told_port, turned_port, replying_port, said_by, due_port, Sends, clock_faults, mark_faults, push_faults};
ghost use Rattle.pbfdl.specs.Calls.{params_of, is_bad_station, character_of, service_of, is_bad_room, new_codes, room_codes, station_codes, request_codes, request_fields, Answers, FindsNone};

use crate::codes::{
    BAD_ROOM, BAD_SERVICE, BAD_STATION, EMPTY_HANDLE, HANDLE_IN_USE, LONG_DATA, NO_MEMORY, NO_ROOM,
    TOO_LONG, code_of, port_code,
};
use crate::params::{FdlParams, bus_params};
use crate::receivers::characters_of;
use pb_cycles::{Request, Service};
use pb_port::{Handle, Port};
use pb_telegram::copy_octets;
use pb_timers::BusParams;
use std::alloc::Global;

/// How many octets of data a telegram has at most.
const MOST_DATA: usize = 246;

/// How many characters an end may bring, and how many octets a turn may send.
const MOST_OCTETS: usize = 255;

/// How many unread marks a port has room for: a begin and an end at least.
const LEAST_ROOM: usize = 2;

const MOST_ROOM: usize = 64;

/// The moment that never comes.
const NEVER: u64 = u64::MAX;

/// Makes a station that does not run at an empty handle. Codes, in order: 62 where the handle isn't empty; 21 to 30, a
/// fault of the parameters; 64 for a master's address over the highest of the bus, or another's over 126; 66 for more
/// than 246 octets of data; 63 where memory was refused. 64 marks may be unread.
#[unsafe(no_mangle)]
pub extern "C" fn fdl_port_new(
    alloc: Global,
    port: &mut Handle,
    params: &FdlParams,
    address: u8,
    master: bool,
    unit: &[u8],
) -> u32
    ensures made { result ≡ 0
        → port.new.value ≡ Some (new_port (params_of params.now) address master unit.now) }
    ensures kept { result ≢ 0 → port.new.value ≡ port.old.value }
    ensures code { MatchOption
        (first_fault (new_codes port.old.value (params_of params.now) master address (length unit.now)))
        ((result ≡ 0) ⊎ (result ≡ 63)) (λ code. result ≡ code) }
{
    put_new(alloc, port, MOST_ROOM, params, address, master, unit)
}

/// The same with room for so many unread marks. Codes, in order: 62; 70 for a room that is not 2 to 64; 21 to 30; 64; 66;
/// 63.
#[unsafe(no_mangle)]
pub extern "C" fn fdl_port_new_with_room(
    alloc: Global,
    port: &mut Handle,
    room: usize,
    params: &FdlParams,
    address: u8,
    master: bool,
    unit: &[u8],
) -> u32
    ensures made { result ≡ 0 → port.new.value
        ≡ Some (port_with_room room (params_of params.now) address master unit.now) }
    ensures kept { result ≢ 0 → port.new.value ≡ port.old.value }
    ensures code { MatchOption (first_fault
        (room_codes port.old.value room (params_of params.now) master address (length unit.now)))
        ((result ≡ 0) ⊎ (result ≡ 63)) (λ code. result ≡ code) }
{
    put_new(alloc, port, room, params, address, master, unit)
}

/// Frees the port of a handle, which is empty then.
#[unsafe(no_mangle)]
pub extern "C" fn fdl_port_free(alloc: Global, port: &mut Handle)
    ensures { port.new.value ≡ None }
{
    drop(port.take(alloc));
}

/// The station starts. Codes: 61, 41, 42.
#[unsafe(no_mangle)]
pub extern "C" fn fdl_port_start(alloc: Global, port: &mut Handle, now: u64) -> u32
    ensures none { port.old.value ≡ None → FindsNone result port.new.value }
    ensures starts { IfSome port.old.value
        (λ p. Answers p (clock_faults p now) (started_port p now) result port.new.value) }
{
    let Some(mut station) = port.take(alloc) else {
        return EMPTY_HANDLE;
    };
    let code = code_of(station.start(now));
    port.put(station);
    code
}

/// The station stops. Code: 61.
#[unsafe(no_mangle)]
pub extern "C" fn fdl_port_stop(alloc: Global, port: &mut Handle) -> u32
    ensures none { port.old.value ≡ None → FindsNone result port.new.value }
    ensures stops { IfSome port.old.value (λ p. (result ≡ 0) × (port.new.value ≡ Some (stopped_port p))) }
{
    let Some(mut station) = port.take(alloc) else {
        return EMPTY_HANDLE;
    };
    station.stop();
    port.put(station);
    0
}

/// A request waits at the station. Services: 0 SDA, 1 SDN, 2 SRD. Codes, in order: 65, 66, 64, 61, 46.
#[unsafe(no_mangle)]
pub extern "C" fn fdl_port_push(
    alloc: Global,
    port: &mut Handle,
    da: u8,
    service: u8,
    high: bool,
    unit: &[u8],
) -> u32
    ensures refused { IfSome (first_fault (request_codes da (service_of service) (length unit.now)))
        (λ code. (result ≡ code) × (port.new.value ≡ port.old.value)) }
    ensures none { first_fault (request_codes da (service_of service) (length unit.now)) ≡ None
        → port.old.value ≡ None → FindsNone result port.new.value }
    ensures waits { first_fault (request_codes da (service_of service) (length unit.now)) ≡ None
        → IfSome (service_of service) (λ s. IfSome port.old.value (λ p.
        let r = request_fields da s high unit.now in
        Answers p (push_faults p r) (pushed_port p r) result port.new.value)) }
{
    let request = match request_of(da, service, high, unit) {
        Ok(request) => request,
        Err(code) => return code,
    };
    let Some(mut station) = port.take(alloc) else {
        return EMPTY_HANDLE;
    };
    let code = code_of(station.push(request));
    port.put(station);
    code
}

/// Changes the data that the station replies to the next request for data. Codes, in order: 66 for more than 246 octets;
/// 61.
#[unsafe(no_mangle)]
pub extern "C" fn fdl_port_set_reply(alloc: Global, port: &mut Handle, unit: &[u8]) -> u32
    ensures long { 246 < length unit.now → (result ≡ 66) × (port.new.value ≡ port.old.value) }
    ensures none { length unit.now ≤ 246 → port.old.value ≡ None → FindsNone result port.new.value }
    ensures replies { length unit.now ≤ 246 → IfSome port.old.value
        (λ p. (result ≡ 0) × (port.new.value ≡ Some (replying_port p unit.now))) }
{
    if unit.len() > MOST_DATA {
        return LONG_DATA;
    }
    let Some(mut station) = port.take(alloc) else {
        return EMPTY_HANDLE;
    };
    station.set_reply(copy_octets(unit));
    port.put(station);
    0
}

/// Activity of others has begun. Codes: 61, 41, 42, 43, 45.
#[unsafe(no_mangle)]
pub extern "C" fn fdl_port_begin(alloc: Global, port: &mut Handle, at: u64, seen: u64) -> u32
    ensures none { port.old.value ≡ None → FindsNone result port.new.value }
    ensures told { IfSome port.old.value
        (λ p. Answers p (mark_faults p at seen 0) (told_port p (model.Begin at seen)) result port.new.value) }
{
    let Some(mut station) = port.take(alloc) else {
        return EMPTY_HANDLE;
    };
    let code = code_of(station.begin(at, seen));
    port.put(station);
    code
}

/// Activity of others has ended, and has brought characters: a word below 256 is a good octet, any other a damaged
/// character. Codes: 61, 41, 42, 43, 44, 45; 44 comes first.
#[unsafe(no_mangle)]
pub extern "C" fn fdl_port_end(
    alloc: Global,
    port: &mut Handle,
    at: u64,
    seen: u64,
    words: &[u16],
) -> u32
    ensures long { 255 < length words.now → (result ≡ 44) × (port.new.value ≡ port.old.value) }
    ensures none { length words.now ≤ 255 → port.old.value ≡ None → FindsNone result port.new.value }
    ensures told { length words.now ≤ 255 → IfSome port.old.value (λ p. Answers p
        (mark_faults p at seen (length words.now))
        (told_port p (model.End at seen (map character_of words.now))) result port.new.value) }
{
    if words.len() > MOST_OCTETS {
        return TOO_LONG;
    }
    let characters = characters_of(words);
    let Some(mut station) = port.take(alloc) else {
        return EMPTY_HANDLE;
    };
    let code = code_of(station.end(at, seen, &characters));
    port.put(station);
    code
}

/// The same of octets that all came good. Codes: 61, 41, 42, 43, 44, 45.
#[unsafe(no_mangle)]
pub extern "C" fn fdl_port_end_good(
    alloc: Global,
    port: &mut Handle,
    at: u64,
    seen: u64,
    octets: &[u8],
) -> u32
    ensures none { port.old.value ≡ None → FindsNone result port.new.value }
    ensures told { IfSome port.old.value (λ p. Answers p (mark_faults p at seen (length octets.now))
        (told_port p (model.End at seen (map Good octets.now))) result port.new.value) }
{
    let Some(mut station) = port.take(alloc) else {
        return EMPTY_HANDLE;
    };
    let code = code_of(station.end_good(at, seen, octets));
    port.put(station);
    code
}

/// Activity of others has ended, and was noise. Codes: 61, 41, 42, 43, 45.
#[unsafe(no_mangle)]
pub extern "C" fn fdl_port_noise(alloc: Global, port: &mut Handle, at: u64, seen: u64) -> u32
    ensures none { port.old.value ≡ None → FindsNone result port.new.value }
    ensures told { IfSome port.old.value (λ p. Answers p (mark_faults p at seen 1)
        (told_port p (model.End at seen (Bad ∷ []))) result port.new.value) }
{
    let Some(mut station) = port.take(alloc) else {
        return EMPTY_HANDLE;
    };
    let code = code_of(station.noise(at, seen));
    port.put(station);
    code
}

/// When the station has to take its turn: 2^64 - 1 where nothing is to come. Code: 61.
#[unsafe(no_mangle)]
pub extern "C" fn fdl_port_due(alloc: Global, port: &mut Handle, at: &mut u64) -> u32
    ensures none { port.old.value ≡ None → FindsNone result port.new.value × (at.new ≡ at.old) }
    ensures due { IfSome port.old.value
        (λ p. (result ≡ 0) × (at.new ≡ unwrap_or (due_port p) 18446744073709551615)) }
    ensures kept { port.new.value ≡ port.old.value }
{
    let Some(station) = port.take(alloc) else {
        return EMPTY_HANDLE;
    };
    *at = station.due().unwrap_or(NEVER);
    port.put(station);
    0
}

/// The station takes its turn. What it sends stands in `out`, which has room for 255 octets, and its length in
/// `count`, which is 0 where it sends nothing or the call is refused. Codes, in order: 68, 61, 41, 42.
#[unsafe(no_mangle)]
pub extern "C" fn fdl_port_turn(
    alloc: Global,
    port: &mut Handle,
    now: u64,
    out: &mut [u8],
    count: &mut usize,
) -> u32
    ensures room { length out.old < 255 → (result ≡ 68) × (port.new.value ≡ port.old.value) }
    ensures none { 255 ≤ length out.old → port.old.value ≡ None → FindsNone result port.new.value }
    ensures turn { 255 ≤ length out.old → IfSome port.old.value
        (λ p. Answers p (clock_faults p now) (turned_port p now) result port.new.value) }
    ensures said { result ≡ 0
        → IfSome port.old.value (λ p. Sends (said_by p now) count.new out.old out.new) }
    ensures silent { result ≢ 0 → (count.new ≡ 0) × (out.new ≡ out.old) }
{
    *count = 0;
    if out.len() < MOST_OCTETS {
        return NO_ROOM;
    }
    let Some(mut station) = port.take(alloc) else {
        return EMPTY_HANDLE;
    };
    let code = match station.turn(now, out) {
        Ok(sent) => {
            *count = sent;
            0
        }
        Err(fault) => port_code(fault),
    };
    port.put(station);
    code
}

/// Makes a station with room for so many unread marks at an empty handle.
fn put_new(
    alloc: Global,
    port: &mut Handle,
    room: usize,
    params: &FdlParams,
    address: u8,
    master: bool,
    unit: &[u8],
) -> u32
    ensures made { result ≡ 0 → port.new.value
        ≡ Some (port_with_room room (params_of params.now) address master unit.now) }
    ensures kept { result ≢ 0 → port.new.value ≡ port.old.value }
    ensures code { MatchOption (first_fault
        (room_codes port.old.value room (params_of params.now) master address (length unit.now)))
        ((result ≡ 0) ⊎ (result ≡ 63)) (λ code. result ≡ code) }
{
    if let Some(there) = port.take(alloc) {
        port.put(there);
        return HANDLE_IN_USE;
    }
    if is_bad_room(room) {
        return BAD_ROOM;
    }
    match new_station(alloc, room, params, address, master, unit) {
        Ok(made) => {
            port.put(made);
            0
        }
        Err(code) => code,
    }
}

/// A new station in a box, or the code of the first fault.
fn new_station(
    alloc: Global,
    room: usize,
    params: &FdlParams,
    address: u8,
    master: bool,
    unit: &[u8],
) -> Result<Box<Port>, u32>
    requires { (2 ≤ room) × (room ≤ 64) }
    ensures made { IfOk result
        (λ b. (b.value ≡ port_with_room room (params_of params.now) address master unit.now)
        × (first_fault (station_codes (params_of params.now) master address (length unit.now)) ≡ None)) }
    ensures fault { IfErr result (λ code. (code ≢ 0) × (MatchOption
        (first_fault (station_codes (params_of params.now) master address (length unit.now)))
        (code ≡ 63) (λ first. code ≡ first))) }
{
    let params = bus_params(params)?;
    if is_bad_station(&params, master, address) {
        return Err(BAD_STATION);
    }
    if unit.len() > MOST_DATA {
        return Err(LONG_DATA);
    }
    let Ok(port) = Port::with_room(alloc, room, params, address, master, copy_octets(unit)) else {
        return Err(NO_MEMORY);
    };
    Box::new(alloc, port).map_err(|_| NO_MEMORY)
}

/// Whether a port can't have room for so many unread marks.
fn is_bad_room(room: usize) -> bool
    ensures value { result ≡ is_bad_room room }
    ensures room { result ≡ false → (2 ≤ room) × (room ≤ 64) }
{
    room < LEAST_ROOM || room > MOST_ROOM
}

/// Whether a master's address is over the highest of the bus, or another's over 126.
pub(crate) fn is_bad_station(params: &BusParams, master: bool, address: u8) -> bool
    ensures value { result ≡ is_bad_station params.now master address }
    ensures station { result ≡ false → address ≤ 126 }
{
    let highest = if master { params.hsa() } else { 126 };
    u32::from(address) > highest
}

/// A request, or the code of the first fault.
pub(crate) fn request_of(da: u8, service: u8, high: bool, unit: &[u8]) -> Result<Request, u32>
    ensures request { IfOk result (λ r. (service_of service ≡ Some r.service)
        × (r ≡ request_fields da r.service high unit.now)) }
    ensures code { MatchResult result
        (λ _. first_fault (request_codes da (service_of service) (length unit.now)) ≡ None)
        (λ code. first_fault (request_codes da (service_of service) (length unit.now)) ≡ Some code) }
{
    let service = service_of(service)?;
    if unit.len() > MOST_DATA {
        return Err(LONG_DATA);
    }
    match Request::new(da, service, high, copy_octets(unit)) {
        Ok(request) => Ok(request),
        Err(_) => Err(BAD_STATION),
    }
}

/// The service of a number.
fn service_of(number: u8) -> Result<Service, u32>
    ensures { MatchResult result (λ s. service_of number ≡ Some s)
        (λ code. (code ≡ 65) × (service_of number ≡ None)) }
{
    match number {
        0 => Ok(Service::Sda),
        1 => Ok(Service::Sdn),
        2 => Ok(Service::Srd),
        _ => Err(BAD_SERVICE),
    }
}
