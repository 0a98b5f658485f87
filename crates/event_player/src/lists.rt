//! Event lists, as the program reads them.

use arrayvec::ArrayVec;
use hex::FromHexError;
use pb_cycles::{Request, RequestFault, Service};
use pb_timers::{BusParams, ParamFault};
use pb_world::{Event, Kind, TapSpec};
use serde::{Deserialize, Deserializer, Format};
use serde_json::Error as JsonError;
use std::alloc::{AllocError, AllocFailed, Global};
use thiserror::Error;

/// A bus and its events.
#[derive(Debug, Drop)]
pub struct EventList {
    /// The parameters of the bus.
    pub bus: Bus,
    /// The definitions of its taps.
    pub taps: Vec<TapSpec>,
    /// Its events, in order.
    pub events: Vec<Event>,
}

/// Why an input is no event list.
#[derive(Debug, Drop, Error)]
pub enum ListFault {
    /// It is not JSON, or its keys or values are wrong.
    #[error("no event list: {0}")]
    Json(JsonError),
    /// It has a key that no event list has.
    #[error("no event list: unknown key `{0}`")]
    UnknownKey(String),
    /// The reply of a tap is not hex.
    #[error("no event list: the reply of tap {0} is no hex")]
    ReplyNotHex(usize),
    /// The reply of a tap has more than 246 octets.
    #[error("no event list: the reply of tap {0} is too long")]
    ReplyTooLong(usize),
    /// The data of an event's request is not hex.
    #[error("no event list: the unit of event {0} is no hex")]
    UnitNotHex(usize),
    /// The request of an event has more than 246 octets of data.
    #[error("no event list: the unit of event {0} is too long")]
    UnitTooLong(usize),
    /// The request of an event is refused.
    #[error("no event list: the request of event {0} is refused: {1}")]
    RequestRefused(usize, RequestFault),
    /// Memory was refused.
    #[error("no memory")]
    NoMemory,
}

impl From<AllocError> for ListFault {
    fn from(_refused: AllocError) -> ListFault {
        ListFault::NoMemory
    }
}

impl<T: Drop> From<AllocFailed<T>> for ListFault {
    fn from(_refused: AllocFailed<T>) -> ListFault {
        ListFault::NoMemory
    }
}

impl From<JsonError> for ListFault {
    fn from(error: JsonError) -> ListFault {
        if error.is_memory() {
            return ListFault::NoMemory;
        }
        ListFault::Json(error)
    }
}

/// The parameters of a bus, times in bit times. An absent key has its default value.
#[derive(Clone, Copy, Debug, Deserialize)]
#[serde(default, deny_unknown_fields)]
pub struct Bus {
    tsl: u32,
    tid1: u32,
    tid2: u32,
    tsdr: u32,
    lag: u32,
    ttr: u32,
    gap: u32,
    hsa: u32,
    retries: u32,
    ttd: u32,
}

impl Default for Bus {
    ghost use Rattle.std.specs.Prelude.{◌≡◌};

    ghost is_default = { λ bus. bus ≡ record {
      tsl = 100;
      tid1 = 37;
      tid2 = 60;
      tsdr = 11;
      lag = 0;
      ttr = 10000;
      gap = 10;
      hsa = 5;
      retries = 1;
      ttd = 0;
    } };

    /// The default parameters.
    fn default() -> Bus {
        Bus {
            tsl: 100,
            tid1: 37,
            tid2: 60,
            tsdr: 11,
            lag: 0,
            ttr: 10_000,
            gap: 10,
            hsa: 5,
            retries: 1,
            ttd: 0,
        }
    }
}

impl Bus {
    /// The parameters, or the first rule that they violate.
    pub fn params(&self) -> Result<BusParams, ParamFault> {
        BusParams::new(
            self.tsl,
            self.tid1,
            self.tid2,
            self.tsdr,
            self.lag,
            self.ttr,
            self.gap,
            self.hsa,
            self.retries,
            self.ttd,
        )
    }
}

/// The keys of an event list. The expected output under `expect` is compared elsewhere.
const KEYS: [&str; 4] = ["bus", "taps", "events", "expect"];

/// An event list in JSON.
#[derive(Debug, Drop, Deserialize)]
struct WrittenList<'a> {
    #[serde(default)]
    bus: Bus,
    taps: Vec<WrittenTap<'a>>,
    events: Vec<WrittenEvent<'a>>,
}

/// The first key of a map that no event list has, if there is one.
#[derive(Debug, Drop)]
struct UnknownKey {
    name: Option<String>,
}

impl<'de> Deserialize<'de> for UnknownKey {
    fn deserialize<F: Format>(
        alloc: Global,
        from: &mut Deserializer<'de, '_, F>,
    ) -> Result<UnknownKey, F::Error> {
        from.begin_map()?;
        let mut name = None;
        for _ in 0..u64::MAX {
            if !from.next_entry()? {
                break;
            }
            let key = from.string(alloc)?;
            from.skip()?;
            if name.is_none() && !KEYS.contains(&key.as_str()) {
                name = Some(key);
            }
        }
        Ok(UnknownKey { name })
    }
}

/// A tap in JSON.
#[derive(Debug, Drop, Deserialize)]
#[serde(deny_unknown_fields)]
struct WrittenTap<'a> {
    kind: WrittenKind,
    address: u8,
    #[serde(default)]
    reply: &'a str,
}

/// The kind of a tap in JSON.
#[derive(Clone, Copy, Debug, Deserialize)]
#[serde(rename_all = "lowercase")]
enum WrittenKind {
    Master,
    Passive,
}

impl From<WrittenKind> for Kind {
    fn from(kind: WrittenKind) -> Kind {
        match kind {
            WrittenKind::Master => Kind::Master,
            WrittenKind::Passive => Kind::Passive,
        }
    }
}

/// An event in JSON.
#[derive(Clone, Copy, Debug, Deserialize)]
#[serde(deny_unknown_fields)]
enum WrittenEvent<'a> {
    Turn(usize),
    Pass(u64),
    Damage {
        tap: usize,
        speaker: usize,
        place: Option<u8>,
    },
    Start(usize),
    Stop(usize),
    Noise(u32),
    Unheard {
        tap: usize,
        speaker: usize,
    },
    Queue {
        tap: usize,
        da: u8,
        service: WrittenService,
        high: bool,
        #[serde(default)]
        unit: &'a str,
    },
}

/// The service of a request in JSON.
#[derive(Clone, Copy, Debug, Deserialize)]
#[serde(rename_all = "lowercase")]
enum WrittenService {
    Sda,
    Sdn,
    Srd,
}

impl From<WrittenService> for Service {
    fn from(service: WrittenService) -> Service {
        match service {
            WrittenService::Sda => Service::Sda,
            WrittenService::Sdn => Service::Sdn,
            WrittenService::Srd => Service::Srd,
        }
    }
}

/// Why a text is no data.
#[derive(Clone, Copy, Debug)]
enum DataFault {
    NotHex,
    TooLong,
    NoMemory,
}

/// Reads an event list from JSON text.
pub fn read_list(alloc: Global, text: &[u8]) -> Result<EventList, ListFault> {
    let unknown: UnknownKey = serde_json::from_slice(alloc, text)?;
    if let Some(name) = unknown.name {
        return Err(ListFault::UnknownKey(name));
    }
    let list: WrittenList<'_> = serde_json::from_slice(alloc, text)?;
    Ok(EventList {
        bus: list.bus,
        taps: read_taps(alloc, &list.taps)?,
        events: read_events(alloc, &list.events)?,
    })
}

fn read_taps(alloc: Global, taps: &[WrittenTap<'_>]) -> Result<Vec<TapSpec>, ListFault> {
    let mut specs = Vec::with_capacity(alloc, taps.len())?;
    for (place, tap) in taps.iter().enumerate() {
        let reply = match read_data(alloc, tap.reply) {
            Ok(reply) => reply,
            Err(DataFault::NotHex) => return Err(ListFault::ReplyNotHex(place)),
            Err(DataFault::TooLong) => return Err(ListFault::ReplyTooLong(place)),
            Err(DataFault::NoMemory) => return Err(ListFault::NoMemory),
        };
        specs.push(TapSpec {
            address: tap.address,
            kind: Kind::from(tap.kind),
            reply,
        })?;
    }
    Ok(specs)
}

fn read_events(alloc: Global, written: &[WrittenEvent<'_>]) -> Result<Vec<Event>, ListFault> {
    let mut events = Vec::with_capacity(alloc, written.len())?;
    for (place, event) in written.iter().enumerate() {
        events.push(read_event(alloc, place, *event)?)?;
    }
    Ok(events)
}

/// The event with this index.
fn read_event(alloc: Global, place: usize, event: WrittenEvent<'_>) -> Result<Event, ListFault> {
    Ok(match event {
        WrittenEvent::Turn(tap) => Event::Turn(tap),
        WrittenEvent::Pass(bits) => Event::Pass(bits),
        WrittenEvent::Damage {
            tap,
            speaker,
            place,
        } => Event::Damage {
            tap,
            speaker,
            place,
        },
        WrittenEvent::Start(tap) => Event::Start(tap),
        WrittenEvent::Stop(tap) => Event::Stop(tap),
        WrittenEvent::Noise(bits) => Event::Noise(bits),
        WrittenEvent::Unheard { tap, speaker } => Event::Unheard { tap, speaker },
        WrittenEvent::Queue {
            tap,
            da,
            service,
            high,
            unit,
        } => {
            let unit = read_unit(alloc, place, unit)?;
            match Request::new(da, Service::from(service), high, unit) {
                Ok(request) => Event::Queue { tap, request },
                Err(fault) => return Err(ListFault::RequestRefused(place, fault)),
            }
        }
    })
}

/// The data of the request of the event with this index.
fn read_unit(alloc: Global, place: usize, text: &str) -> Result<ArrayVec<u8, 246>, ListFault> {
    match read_data(alloc, text) {
        Ok(unit) => Ok(unit),
        Err(DataFault::NotHex) => Err(ListFault::UnitNotHex(place)),
        Err(DataFault::TooLong) => Err(ListFault::UnitTooLong(place)),
        Err(DataFault::NoMemory) => Err(ListFault::NoMemory),
    }
}

/// The octets that hex digits spell.
fn read_data(alloc: Global, text: &str) -> Result<ArrayVec<u8, 246>, DataFault> {
    let octets = match hex::decode(alloc, text) {
        Ok(octets) => octets,
        Err(FromHexError::OutOfMemory) => return Err(DataFault::NoMemory),
        Err(_) => return Err(DataFault::NotHex),
    };
    let mut data = ArrayVec::new();
    match data.try_extend_from_slice(&octets) {
        Ok(()) => Ok(data),
        Err(_) => Err(DataFault::TooLong),
    }
}
