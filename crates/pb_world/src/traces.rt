//! Judges a trace from anywhere: which tap it names, and its first illegal record.

ghost use Rattle.std.specs.Prelude.{◌≡◌, ◌==◌, ◌&&◌, IfOk, IfErr, OnOk, None, Some, map, slice_get, ◌∷◌, List};
ghost use Rattle.std.specs.Option.{option_map};
ghost use Rattle.law_model.specs.Trace as model;
ghost use Rattle.law_runs.specs.Initiators as initiators;
ghost use Rattle.law_runs.specs.Initiators.{last_from, offered_to};
ghost use Rattle.law_runs.specs.Legality as legality;
ghost use Rattle.law_runs.specs.Naming as naming;
ghost use Rattle.pb_taps.specs.Taps.{spec_of};
ghost use Rattle.pb_medium.specs.Entries.{entry_of, record_of};
ghost use Rattle.pb_world.specs.Traces.{IsOutOfOrder, first_misplaced, is_misplaced, lent_entry, lent_record};

use crate::activity::is_active;
use crate::addresses::Addresses;
use crate::initiators::{initiates, meaning_of, offered_by};
use crate::legality;
use crate::legality::{is_slot_over, is_whole};
use pb_medium::{Entry, Record};
use pb_taps::TapSpec;
use pb_timers::{BusParams, Moment};
use thiserror::Error;

/// Why a trace is not judged.
#[derive(Clone, Copy, Debug, PartialEq, Eq, Error)]
pub enum TraceFault {
    /// The entry with this index, from 0, is not in the order of a trace (by begin; at one begin noise first, then
    /// telegrams by tap), or it does not end after it begins.
    #[error("NotInOrder {0}")]
    NotInOrder(usize),
}

/// The tap that a trace names at `now`, in bit times: only it may hold the token then (medium access: token passing).
/// This is the speaker of the last token or request that has begun by then; after the end of a token to another
/// station, within the slot time, the tap with that address that received it whole; and after a slot in silence its
/// speaker again. `None` if the trace names no tap.
///
/// Only the trace is read, so a trace from anywhere can be judged. No memory is allocated; the time is in proportion to
/// the trace.
///
/// Fault: `NotInOrder` with the index of the first entry that is not in the order of a world's trace.
pub fn named(
    params: &BusParams,
    taps: &[TapSpec],
    trace: &[Entry],
    now: Moment,
) -> Result<Option<usize>, TraceFault>
    ensures ok { IfOk result
        (λ tap. tap ≡ naming.named params.now (map spec_of taps.now) (map entry_of trace.now) now) }
    ensures order { OnOk result (first_misplaced (map entry_of trace.now) ≡ None) }
    ensures fault { IfErr result (IsOutOfOrder (map entry_of trace.now)) }
{
    check_order(trace)?;
    match last_initiator(trace, now.get()) {
        Some(last) => Ok(named_by(params, taps, trace, last, now.get())),
        None => Ok(None),
    }
}

/// The index of the first illegal initiator record of a trace, from 0, counting noise: a token or a request that its
/// speaker may not send after the one before it (medium access: token passing). `None` if each is legal.
///
/// Only the trace is read, so a trace from anywhere can be judged. No memory is allocated; the time is in proportion to
/// the trace.
///
/// Fault: `NotInOrder` with the index of the first entry that is not in order, as for [`named`].
pub fn first_illegal(
    params: &BusParams,
    taps: &[TapSpec],
    trace: &[Entry],
) -> Result<Option<usize>, TraceFault>
    ensures ok { IfOk result
        (λ place. place ≡ legality.first_illegal params.now (map spec_of taps.now) (map entry_of trace.now)) }
    ensures order { OnOk result (first_misplaced (map entry_of trace.now) ≡ None) }
    ensures fault { IfErr result (IsOutOfOrder (map entry_of trace.now)) }
{
    check_order(trace)?;
    let addresses = Addresses::OfSpecs(taps);
    Ok(legality::first_illegal(params, addresses, trace))
}

/// Checks that a trace is in order.
///
/// Fault: `NotInOrder` with the index of the first entry that is not.
fn check_order(trace: &[Entry]) -> Result<(), TraceFault>
    ensures ok { OnOk result (first_misplaced (map entry_of trace.now) ≡ None) }
    ensures fault { IfErr result (IsOutOfOrder (map entry_of trace.now)) }
{
    match first_misplaced(trace) {
        Some(place) => Err(TraceFault::NotInOrder(place)),
        None => Ok(()),
    }
}

/// The index of the first entry that is not in order.
fn first_misplaced(trace: &[Entry]) -> Option<usize>
    ensures { result ≡ first_misplaced (map entry_of trace.now) }
{
    let mut before = None;
    for (place, entry) in trace.iter().enumerate() {
        if is_misplaced(before, entry) {
            return Some(place);
        }
        before = Some(entry);
    }
    None
}

/// Whether an entry is not in order after the one before it, or does not end after it begins.
fn is_misplaced(before: Option<&Entry>, entry: &Entry) -> bool
    ensures { result ≡ is_misplaced (option_map lent_entry before.entry) (entry_of entry.now) }
{
    let lasts = entry.begin() < entry.end();
    match before {
        Some(before) => entry.goes_before(before) || !lasts,
        None => !lasts,
    }
}

/// The last initiator record of a trace that has begun by `now`.
fn last_initiator(trace: &[Entry], now: u64) -> Option<&Record>
    ensures { option_map lent_record result ≡ initiators.last_initiator now (map entry_of trace.now) }
{
    let mut last = None;
    for entry in trace {
        last = later(last, entry, now);
    }
    last
}

/// The last initiator record after one more entry.
fn later<'a>(last: Option<&'a Record>, entry: &'a Entry, now: u64) -> Option<&'a Record>
    ensures { (es : List model.Entry)
        → last_from (option_map lent_record last.entry) now (entry_of entry.now ∷ es)
        ≡ last_from (option_map lent_record result) now es }
{
    match entry {
        Entry::Sent(telegram) if telegram.begin <= now && initiates(meaning_of(telegram)) => Some(
            telegram,
        ),
        _ => last,
    }
}

/// The tap that the last initiator record names.
fn named_by(
    params: &BusParams,
    taps: &[TapSpec],
    trace: &[Entry],
    last: &Record,
    now: u64,
) -> Option<usize>
    ensures { result ≡ naming.named_by_offer params.now (map spec_of taps.now) (map entry_of trace.now)
        (record_of last.now) (offered_to (record_of last.now)) now }
{
    match offered_by(meaning_of(last)) {
        Some(to) if now >= last.end => named_after_token(params, taps, trace, last, to, now),
        _ => Some(last.tap),
    }
}

/// The tap that is named after the end of a token to an address.
fn named_after_token(
    params: &BusParams,
    taps: &[TapSpec],
    trace: &[Entry],
    last: &Record,
    to: u8,
    now: u64,
) -> Option<usize>
    ensures { result ≡ naming.named_after_token params.now (map spec_of taps.now) (map entry_of trace.now)
        (record_of last.now) to now }
{
    if !is_slot_over(last.end, params.tsl(), now) {
        return first_that_heard(last, to, taps);
    }
    let over = last.end + u64::from(params.tsl());
    if is_active(trace, params.ttd(), last.tap, last.end, over) {
        None
    } else {
        Some(last.tap)
    }
}

/// The first tap with an address that received a telegram whole.
fn first_that_heard(last: &Record, to: u8, taps: &[TapSpec]) -> Option<usize>
    ensures { result ≡ naming.first_that_heard (record_of last.now).heard to 0 (map spec_of taps.now) }
{
    for (tap, spec) in taps.iter().enumerate() {
        if has_heard(last, to, tap, spec) {
            return Some(tap);
        }
    }
    None
}

/// Whether a tap has this address and received a telegram whole.
fn has_heard(last: &Record, to: u8, tap: usize, spec: &TapSpec) -> bool
    ensures { result ≡ (spec.now.address == to && legality.is_whole (slice_get last.now.heard tap)) }
{
    spec.address == to && is_whole(last, tap)
}
