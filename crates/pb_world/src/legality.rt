//! The first illegal record of a trace, in one pass.

ghost use Rattle.std.specs.Prelude.{◌≡◌, ◌+◌, ◌≤◌, map, nat_le, slice_get};
ghost use Rattle.std.specs.Option.{option_map};
ghost use Rattle.law_model.specs.Trace.{entry_begin, entry_end};
ghost use Rattle.law_runs.specs.Activity as activity;
ghost use Rattle.law_runs.specs.Initiators as initiators;
ghost use Rattle.law_runs.specs.Judging.{IsOrdered, claims_after, goes_on_after, is_in_slot, last_after, may_come, may_follow, slot_after, takes_after};
ghost use Rattle.law_runs.specs.Legality as legality;
ghost use Rattle.pb_medium.specs.Entries.{entry_of, record_of};
ghost use Rattle.pb_world.specs.LatestEnds.{AreEnds};
ghost use Rattle.pb_world.specs.Judging.{last_of, specs_in};
ghost use Rattle.pb_world.specs.Meanings.{meaning_in, meaning_of};

use crate::activity::is_active_in;
use crate::addresses::Addresses;
use crate::ends::Ends;
use crate::initiators::{Meaning, claims_for, initiates, meaning_in, offered_by};
use crate::last::LastInitiator;
use pb_medium::{Entry, Heard, Record};
use pb_timers::BusParams;

/// The index of the first illegal initiator record of a trace, in one pass. The caller ensures that the trace is in
/// order.
pub(crate) fn first_illegal(
    params: &BusParams,
    taps: Addresses<'_>,
    trace: &[Entry],
) -> Option<usize>
    requires { IsOrdered (map entry_of trace.now) }
    ensures { result ≡ legality.first_illegal params.now (specs_in taps.entry) (map entry_of trace.now) }
{
    let mut ends = Ends::none(taps.len());
    let mut last = None;
    for (place, entry) in trace.iter().enumerate() {
        let earlier = &trace[..place];
        ends.advance(earlier, params.ttd(), entry.begin());
        let meaning = meaning_in(entry);
        if !may_come(params, taps, earlier, &ends, last, entry, meaning) {
            return Some(place);
        }
        last = last_after(params, earlier, &ends, last, entry, meaning);
    }
    None
}

/// Whether an entry, after the earlier ones, is not an illegal initiator record.
fn may_come(
    params: &BusParams,
    taps: Addresses<'_>,
    earlier: &[Entry],
    ends: &Ends,
    last: Option<LastInitiator>,
    entry: &Entry,
    meaning: Meaning,
) -> bool
    requires ends { AreEnds params.now.ttd (entry_begin (entry_of entry.now)) (map entry_of earlier.now)
        ends.now }
    requires means { meaning ≡ meaning_in (entry_of entry.now) }
    ensures { result ≡ may_come params.now (specs_in taps.entry) (map entry_of earlier.now)
        (option_map last_of last.entry) (entry_of entry.now) }
{
    match entry {
        Entry::Sent(telegram) => !initiates(meaning)
            || may_follow(params, taps, earlier, ends, last, telegram, meaning),
        Entry::Noise { .. } => true,
    }
}

/// The last initiator record after an entry that follows the earlier ones.
pub(crate) fn last_after<'a>(
    params: &BusParams,
    earlier: &[Entry],
    ends: &Ends,
    last: Option<LastInitiator<'a>>,
    entry: &'a Entry,
    meaning: Meaning,
) -> Option<LastInitiator<'a>>
    requires means { meaning ≡ meaning_in (entry_of entry.now) }
    requires ends { AreEnds params.now.ttd (entry_begin (entry_of entry.now)) (map entry_of earlier.now)
        ends.now }
    requires lasts { entry_begin (entry_of entry.now) ≤ entry_end (entry_of entry.now) }
    ensures { option_map last_of result
        ≡ last_after params.now.ttd params.now.tsl (map entry_of earlier.now) (option_map last_of last.entry)
        (entry_of entry.now) }
{
    match entry {
        Entry::Sent(telegram) if initiates(meaning) => Some(LastInitiator {
            telegram,
            meaning,
            silent: is_slot_silent(params, earlier, ends, telegram),
        }),
        _ => slot_after(params, entry, last),
    }
}

/// Whether no earlier entry is active at a telegram's speaker in the slot after the telegram.
fn is_slot_silent(params: &BusParams, earlier: &[Entry], ends: &Ends, telegram: &Record) -> bool
    requires ends { AreEnds params.now.ttd telegram.now.begin (map entry_of earlier.now) ends.now }
    requires lasts { telegram.now.begin ≤ telegram.now.end }
    ensures { result ≡ activity.is_silent params.now.ttd telegram.now.tap (map entry_of earlier.now)
        telegram.now.end (telegram.now.end + params.now.tsl) }
{
    let end = telegram.end;
    let over = end + u64::from(params.tsl());
    ends.is_silent(earlier, params.ttd(), telegram.tap, end, over)
}

/// Whether an initiator record is legal after the last one. The first of all must be a claim.
fn may_follow(
    params: &BusParams,
    taps: Addresses<'_>,
    earlier: &[Entry],
    ends: &Ends,
    last: Option<LastInitiator>,
    telegram: &Record,
    meaning: Meaning,
) -> bool
    requires ends { AreEnds params.now.ttd telegram.now.begin (map entry_of earlier.now) ends.now }
    requires means { meaning ≡ meaning_of (initiators.telegram_of (record_of telegram.now)) }
    ensures { result ≡ may_follow params.now (specs_in taps.entry) (map entry_of earlier.now)
        (option_map last_of last.entry) (record_of telegram.now) }
{
    match last {
        Some(last) => last.telegram.end <= telegram.begin
            && (follows(params, taps, last, telegram)
                || claims(params, taps, earlier, ends, telegram, meaning)),
        None => claims(params, taps, earlier, ends, telegram, meaning),
    }
}

/// The last initiator record after an entry that is none.
fn slot_after<'a>(
    params: &BusParams,
    entry: &Entry,
    last: Option<LastInitiator<'a>>,
) -> Option<LastInitiator<'a>>
    ensures { option_map last_of result
        ≡ slot_after params.now.ttd params.now.tsl (entry_of entry.now) (option_map last_of last.entry) }
{
    let LastInitiator {
        telegram,
        meaning,
        silent,
    } = last?;
    Some(LastInitiator {
        telegram,
        meaning,
        silent: silent && !is_in_slot(params, telegram, entry),
    })
}

/// Whether a telegram follows the last initiator record. After one that passes the token to no other station, its
/// speaker continues.
fn follows(params: &BusParams, taps: Addresses<'_>, last: LastInitiator, telegram: &Record) -> bool
    ensures { result
        ≡ goes_on_after params.now (specs_in taps.entry) (last_of last.entry)
        (initiators.offered_to (last_of last.entry).telegram) (record_of telegram.now) }
{
    match offered_by(last.meaning) {
        Some(to) => follows_token(params, taps, last, to, telegram),
        None => last.telegram.tap == telegram.tap,
    }
}

/// Whether a telegram is a claim: its speaker's token to itself, after its time-out without activity of earlier entries
/// at the speaker.
fn claims(
    params: &BusParams,
    taps: Addresses<'_>,
    earlier: &[Entry],
    ends: &Ends,
    telegram: &Record,
    meaning: Meaning,
) -> bool
    requires ends { AreEnds params.now.ttd telegram.now.begin (map entry_of earlier.now) ends.now }
    requires means { meaning ≡ meaning_of (initiators.telegram_of (record_of telegram.now)) }
    ensures { result ≡ claims_after params.now (specs_in taps.entry) (map entry_of earlier.now)
        (record_of telegram.now) }
{
    let address = taps.at(telegram.tap);
    let begin = telegram.begin;
    let from = begin.saturating_sub(params.tto(address));
    claims_for(meaning, address) && ends.is_silent(earlier, params.ttd(), telegram.tap, from, begin)
}

/// Whether an entry is active at a telegram's speaker in the slot after the telegram.
fn is_in_slot(params: &BusParams, telegram: &Record, entry: &Entry) -> bool
    ensures { result
        ≡ is_in_slot params.now.ttd params.now.tsl (record_of telegram.now) (entry_of entry.now) }
{
    let over = telegram.end + u64::from(params.tsl());
    is_active_in(entry, params.ttd(), telegram.tap, telegram.end, over)
}

/// Whether a telegram follows a token to an address: its speaker passes the token again after a slot in silence, or the
/// station that received it whole takes it within the slot.
fn follows_token(
    params: &BusParams,
    taps: Addresses<'_>,
    last: LastInitiator,
    to: u8,
    telegram: &Record,
) -> bool
    ensures { result
        ≡ takes_after params.now (specs_in taps.entry) (last_of last.entry) to (record_of telegram.now) }
{
    let is_late = is_slot_over(last.telegram.end, params.tsl(), telegram.begin);
    if last.telegram.tap == telegram.tap {
        return is_late && last.silent;
    }
    to == taps.at(telegram.tap) && is_whole(last.telegram, telegram.tap) && !is_late
}

/// Whether the slot after an end is over at `moment`.
pub(crate) fn is_slot_over(end: u64, slot: u32, moment: u64) -> bool
    ensures { result ≡ nat_le (end + slot) moment }
{
    end <= moment && u64::from(slot) <= moment - end
}

/// Whether a tap received a telegram whole.
pub(crate) fn is_whole(telegram: &Record, tap: usize) -> bool
    ensures { result ≡ legality.is_whole (slice_get (record_of telegram.now).heard tap) }
{
    matches!(telegram.heard.get(tap), Some(Heard::Whole))
}
