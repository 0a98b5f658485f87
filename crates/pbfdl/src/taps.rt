//! The stations of a new bus.

ghost use Rattle.std.specs.Prelude.{◌≡◌, ◌≢◌, Some, None, IfOk, MatchResult, length, map};
ghost use Rattle.std.specs.List.{list_any};
ghost use Rattle.pb_taps.specs.Taps.{spec_of};
ghost use Rattle.pbfdl.specs.Buses.{is_bad_tap, is_long, tap_fault, tap_spec_of};

use crate::bus_codes::{NO_TAPS, TOO_MANY_TAPS};
use crate::codes::BAD_STATION;
use crate::ports::is_bad_station;
use pb_taps::{Kind, TapSpec};
use pb_telegram::copy_octets;
use pb_timers::BusParams;
use std::alloc::{AllocError, Global};

/// How many octets of data a telegram has at most.
const MOST_DATA: usize = 246;

/// The most taps of a bus.
const MOST_TAPS: usize = 127;

/// A station of a new bus, with the data that it replies to a request for data.
#[repr(C)]
#[derive(Clone, Copy)]
pub struct FdlTap {
    pub address: u8,
    pub master: bool,
    pub count: u8,
    pub reply: [u8; 246],
}

/// Whether a station replies with more than 246 octets.
pub(crate) fn has_long_reply(taps: &[FdlTap]) -> bool
    ensures { result ≡ list_any is_long taps.now }
{
    taps.iter().any(|tap| usize::from(tap.count) > MOST_DATA)
}

/// Checks the taps of a new bus: there are 1 to 127 of them, and no address is out of its range. Else the code of the
/// first fault.
pub(crate) fn check_taps(params: &BusParams, taps: &[FdlTap]) -> Result<(), u32>
    ensures { MatchResult result (λ _. tap_fault params.now taps.now ≡ None)
        (λ code. (code ≢ 0) × (tap_fault params.now taps.now ≡ Some code)) }
{
    if taps.is_empty() {
        return Err(NO_TAPS);
    }
    if taps.len() > MOST_TAPS {
        return Err(TOO_MANY_TAPS);
    }
    if has_bad_station(params, taps) {
        return Err(BAD_STATION);
    }
    Ok(())
}

/// Whether the address of some tap is out of its range.
fn has_bad_station(params: &BusParams, taps: &[FdlTap]) -> bool
    ensures { result ≡ list_any (is_bad_tap params.now) taps.now }
{
    taps.iter()
        .any(|tap| is_bad_station(params, tap.master, tap.address))
}

/// The definitions of some taps.
///
/// Fault: memory was refused.
pub(crate) fn specs_of(alloc: Global, taps: &[FdlTap]) -> Result<Vec<TapSpec>, AllocError>
    ensures { IfOk result (λ specs. map spec_of specs.items ≡ map tap_spec_of taps.now) }
{
    let mut specs = Vec::with_capacity(alloc, taps.len())?;
    for tap in taps {
        specs.push_reserved(spec_of(tap));
    }
    Ok(specs)
}

/// The definition of a tap.
fn spec_of(tap: &FdlTap) -> TapSpec
    ensures { spec_of result ≡ tap_spec_of tap.now }
{
    let count = usize::from(tap.count).min(MOST_DATA);
    TapSpec {
        address: tap.address,
        kind: if tap.master {
            Kind::Master
        } else {
            Kind::Passive
        },
        reply: copy_octets(&tap.reply[..count]),
    }
}
