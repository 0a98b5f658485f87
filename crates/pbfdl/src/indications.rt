//! The requests of others that a station executed in its last turn.

ghost use Rattle.std.specs.Prelude.{◌≡◌, ◌≢◌, None, IfSome, length, map, slice_get};
ghost use Rattle.pb_station.specs.Indications.{fields_of};
ghost use Rattle.pbfdl.specs.Calls.{FindsNone};
ghost use Rattle.pbfdl.specs.Indications.{service_number, TellsRequest, TellsAt};

use crate::codes::{EMPTY_HANDLE, NO_INDICATION};
use pb_cycles::Service;
use pb_port::{Handle, Indication};
use std::alloc::Global;

/// A request of another station that the station has executed. Services: 0 SDA, 1 SDN, 2 SRD.
#[repr(C)]
#[derive(Clone, Copy)]
pub struct FdlIndication {
    pub source: u8,
    pub service: u8,
    pub high: bool,
    pub count: u8,
    pub data: [u8; 246],
}

/// How many requests of others the station executed in its last turn. Code: 61.
#[unsafe(no_mangle)]
pub extern "C" fn fdl_port_indications(alloc: Global, port: &mut Handle, count: &mut usize) -> u32
    ensures none { port.old.value ≡ None → FindsNone result port.new.value × (count.new ≡ count.old) }
    ensures count { IfSome port.old.value
        (λ p. (result ≡ 0) × (count.new ≡ length p.indications)) }
    ensures kept { port.new.value ≡ port.old.value }
{
    let Some(station) = port.take(alloc) else {
        return EMPTY_HANDLE;
    };
    *count = station.indications().len();
    port.put(station);
    0
}

/// The request of others with this index, from 0, of those that the station executed in its last turn. Codes, in order:
/// 61; 69 where there are no more than `index`.
#[unsafe(no_mangle)]
pub extern "C" fn fdl_port_indication(
    alloc: Global,
    port: &mut Handle,
    index: usize,
    told: &mut FdlIndication,
) -> u32
    ensures none { port.old.value ≡ None → FindsNone result port.new.value }
    ensures told { IfSome port.old.value
        (λ p. TellsAt result told.new (slice_get p.indications index)) }
    ensures same { result ≢ 0 → told.new ≡ told.old }
    ensures kept { port.new.value ≡ port.old.value }
{
    let Some(station) = port.take(alloc) else {
        return EMPTY_HANDLE;
    };
    let code = tell_at(told, station.indications(), index);
    port.put(station);
    code
}

/// Tells C the request with an index.
pub(crate) fn tell_at(told: &mut FdlIndication, indications: &[Indication], index: usize) -> u32
    ensures told { TellsAt result told.new (slice_get (map fields_of indications.now) index) }
    ensures same { result ≢ 0 → told.new ≡ told.old }
{
    match indications.get(index) {
        Some(indication) => {
            tell(told, indication);
            0
        }
        None => NO_INDICATION,
    }
}

/// Tells C a request.
fn tell(told: &mut FdlIndication, indication: &Indication)
    ensures { TellsRequest told.new (fields_of indication.now) }
{
    let Indication {
        source,
        service,
        high,
        unit,
    } = indication;
    told.source = *source;
    told.service = number_of(*service);
    told.high = *high;
    told.data[..unit.len()].copy_from_slice(unit);
    told.count = unit.len() as u8;
}

/// The number of a service.
fn number_of(service: Service) -> u8
    ensures { result ≡ service_number service }
{
    match service {
        Service::Sda => 0,
        Service::Sdn => 1,
        Service::Srd => 2,
    }
}
