//! Judges the entries of a trace one after another, and keeps none of them.

ghost use Rattle.std.specs.Prelude.{◌≡◌, ◌≤◌, ◌<◌, ◌==◌, ◌&&◌, ℕ, IfOk, List, Option, false, get_or, length, map, slice_get};
ghost use Rattle.law_model.specs.Medium as model;
ghost use Rattle.law_runs.specs.Initiators.{offered_to};
ghost use Rattle.law_runs.specs.Judging.{LastInitiator, goes_on_after, slot_after, takes_after};
ghost use Rattle.law_runs.specs.Legality.{address_at, is_whole};
ghost use Rattle.law_streams.specs.Judgement.{first_found};
ghost use Rattle.pb_medium.specs.Entries.{entry_of, record_of};
ghost use Rattle.pb_taps.specs.Taps.{spec_of};
ghost use Rattle.pb_world.specs.Judges.{IsLast, IsLastOf, addresses_in};

use crate::activity::is_active_in;
use crate::addresses::NO_ADDRESS;
use crate::air::{Air, copied};
use crate::initiators::{Meaning, claims_for, initiates, meaning_in, offered_by};
use crate::last_heard::LastHeard;
use crate::legality::{is_slot_over, is_whole};
use pb_medium::{Entry, Record};
use pb_taps::{TAP_LIMIT, TapSpec};
use pb_timers::BusParams;
use std::alloc::{AllocError, Global};

/// Finds the first illegal initiator record of a trace whose entries it hears in order. It keeps the latest end at each
/// tap, the entries that have not begun at all taps, and the last initiator record: constant memory, but for entries
/// that begin within a cable delay.
#[derive(Drop)]
pub struct Judge {
    pub(crate) params: BusParams,
    /// The address of each tap.
    pub(crate) addresses: Vec<u8>,
    /// How many entries were heard.
    pub(crate) count: usize,
    pub(crate) air: Air,
    pub(crate) last: Option<LastHeard>,
    pub(crate) illegal: Option<usize>,
}

impl Judge {
    ghost use Rattle.std.specs.Prelude.{◌≡◌, ◌≤◌, ◌++◌, [], IfOk, List, OnOk, length, map};
    ghost use Rattle.law_model.specs.Medium as model;
    ghost use Rattle.law_model.specs.Trace as trace;
    ghost use Rattle.law_runs.specs.Initiators.{offered_to, telegram_of};
    ghost use Rattle.law_runs.specs.Judging.{IsOrdered, LastInitiator, goes_on_after};
    ghost use Rattle.law_runs.specs.Legality.{address_at, first_illegal};
    ghost use Rattle.law_streams.specs.Judgement.{Kept, claims_by, follows_last, is_legal, last_with};
    ghost use Rattle.pb_medium.specs.Entries.{entry_of, record_of};
    ghost use Rattle.pb_timers.specs.Timers.{Params};
    ghost use Rattle.pb_taps.specs.Taps.{spec_of};
    ghost use Rattle.pb_world.specs.Judges.{HasHeard, HearsOn, IsLast, IsLastOf, Keeps, new_last};
    ghost use Rattle.pb_world.specs.Meanings.{meaning_in, meaning_of};

    /// A judge of a trace of these taps, which has heard nothing yet.
    ///
    /// Fault: memory was refused.
    pub fn new(alloc: Global, params: BusParams, taps: &[TapSpec]) -> Result<Judge, AllocError>
        requires { length taps.now ≤ 127 }
        ensures { IfOk result (HasHeard params (map spec_of taps.now) []) }
    {
        Ok(Judge {
            params,
            addresses: addresses_of(alloc, taps)?,
            count: 0,
            air: Air::new(alloc, taps.len())?,
            last: None,
            illegal: None,
        })
    }

    /// Hears the next entry, which begins no earlier than those before it. How a telegram reached the taps no longer
    /// changes.
    ///
    /// Fault: memory was refused, or 2^64 entries were heard. Then the judge must not hear more.
    pub fn hear(&mut self, entry: &Entry) -> Result<(), AllocError>
        ensures { OnOk result (HearsOn self.old (entry_of entry.now) self.new) }
    {
        let Some(count) = self.count.checked_add(1) else {
            return Err(AllocError);
        };
        self.air.settle(self.params.ttd(), entry.begin());
        let meaning = meaning_in(entry);
        let is_legal = self.is_legal(entry, meaning);
        self.illegal = first_found(self.illegal, self.count, is_legal);
        self.last = self.last_with(entry, meaning);
        self.air.push(entry)?;
        self.count = count;
        Ok(())
    }

    /// Hears the next entries, one after another.
    ///
    /// Fault: that of [`hear`](Judge::hear).
    pub fn hear_all(&mut self, entries: &[Entry]) -> Result<(), AllocError>
        ensures { OnOk result
            ((p : Params) (specs : List model.TapSpec) (before : List trace.Entry)
            → HasHeard p specs before self.old
            → HasHeard p specs (before ++ map entry_of entries.now) self.new) }
    {
        for entry in entries {
            self.hear(entry)?;
        }
        Ok(())
    }

    /// A judge that has heard the same.
    ///
    /// Fault: memory was refused.
    pub fn copied(&self, alloc: Global) -> Result<Judge, AllocError>
        ensures { IfOk result
            (λ judge. (p : Params) (specs : List model.TapSpec) (entries : List trace.Entry)
            → HasHeard p specs entries self.now → HasHeard p specs entries judge) }
    {
        Ok(Judge {
            params: self.params,
            addresses: copied(alloc, &self.addresses)?,
            count: self.count,
            air: self.air.copied(alloc)?,
            last: self.last,
            illegal: self.illegal,
        })
    }

    /// The index, from 0 and counting noise, of the first illegal initiator record of the entries so far: a token or a
    /// request that its speaker may not send after the one before it (medium access: token passing).
    pub fn illegal(&self) -> Option<usize>
        ensures { (p : Params) (specs : List model.TapSpec) (entries : List trace.Entry)
            → HasHeard p specs entries self.entry.now → IsOrdered entries
            → result ≡ first_illegal p specs entries }
    {
        self.illegal
    }

    /// Whether an entry is not an illegal initiator record.
    fn is_legal(&self, entry: &Entry, meaning: Meaning) -> bool
        requires means { meaning ≡ meaning_in (entry_of entry.now) }
        ensures { (p : Params) (specs : List model.TapSpec) (k : Kept)
            → Keeps p specs k self.now → result ≡ is_legal p specs k (entry_of entry.now) }
    {
        match entry {
            Entry::Sent(telegram) => !initiates(meaning) || self.may_follow(telegram, meaning),
            Entry::Noise { .. } => true,
        }
    }

    /// Whether an initiator record is legal after the last one. The first of all must be a claim.
    fn may_follow(&self, telegram: &Record, meaning: Meaning) -> bool
        requires means { meaning ≡ meaning_of (telegram_of (record_of telegram.now)) }
        ensures { (p : Params) (specs : List model.TapSpec) (k : Kept)
            → Keeps p specs k self.now → result ≡ follows_last p specs k k.last (record_of telegram.now) }
    {
        match &self.last {
            Some(last) => last.end <= telegram.begin
                && (self.goes_on(last, telegram) || self.claims(telegram, meaning)),
            None => self.claims(telegram, meaning),
        }
    }

    /// Whether a telegram follows the last initiator record.
    fn goes_on(&self, last: &LastHeard, telegram: &Record) -> bool
        ensures { (p : Params) (specs : List model.TapSpec) (k : Kept) (m : LastInitiator)
            → Keeps p specs k self.now → IsLast (length specs) m last.now
            → result ≡ goes_on_after p specs m (offered_to m.telegram) (record_of telegram.now) }
    {
        follows(&self.params, self.address(telegram.tap), last, telegram)
    }

    /// Whether a telegram is a claim: its speaker's token to itself, after its time-out without activity at the speaker.
    fn claims(&self, telegram: &Record, meaning: Meaning) -> bool
        requires means { meaning ≡ meaning_of (telegram_of (record_of telegram.now)) }
        ensures { (p : Params) (specs : List model.TapSpec) (k : Kept)
            → Keeps p specs k self.now → result ≡ claims_by p specs k (record_of telegram.now) }
    {
        let address = self.address(telegram.tap);
        let begin = telegram.begin;
        let from = begin.saturating_sub(self.params.tto(address));
        claims_for(meaning, address)
            && self
                .air
                .was_silent(self.params.ttd(), telegram.tap, from, begin)
    }

    /// The address of a tap; if there is no such tap, an address that no telegram has.
    fn address(&self, tap: usize) -> u8
        ensures { (p : Params) (specs : List model.TapSpec) (k : Kept)
            → Keeps p specs k self.now → result ≡ address_at specs tap }
    {
        address_of(&self.addresses, tap)
    }

    /// The last initiator record with one more entry.
    fn last_with(&self, entry: &Entry, meaning: Meaning) -> Option<LastHeard>
        requires means { meaning ≡ meaning_in (entry_of entry.now) }
        ensures { (p : Params) (specs : List model.TapSpec) (k : Kept)
            → Keeps p specs k self.now
            → IsLastOf (length specs) (last_with p k (entry_of entry.now)) result }
    {
        match entry {
            Entry::Sent(telegram) if initiates(meaning) => Some(self.last_of(telegram, meaning)),
            _ => slot_after(&self.params, entry, self.last),
        }
    }

    /// An initiator record as the last one.
    fn last_of(&self, telegram: &Record, meaning: Meaning) -> LastHeard
        requires means { meaning ≡ meaning_of (telegram_of (record_of telegram.now)) }
        ensures { (p : Params) (specs : List model.TapSpec) (k : Kept)
            → Keeps p specs k self.now
            → IsLast (length specs) (new_last p k (record_of telegram.now)) result }
    {
        let end = telegram.end;
        let over = end + u64::from(self.params.tsl());
        LastHeard {
            tap: telegram.tap,
            end,
            meaning,
            silent: self
                .air
                .was_silent(self.params.ttd(), telegram.tap, end, over),
            whole: whole_at(telegram, self.addresses.len()),
        }
    }
}

/// The first index that was found, or that of an illegal entry.
fn first_found(illegal: Option<usize>, count: usize, is_legal: bool) -> Option<usize>
    ensures { result ≡ first_found illegal count is_legal }
{
    match illegal {
        Some(place) => Some(place),
        None if is_legal => None,
        None => Some(count),
    }
}

/// The addresses of some taps.
fn addresses_of(alloc: Global, taps: &[TapSpec]) -> Result<Vec<u8>, AllocError>
    ensures { IfOk result (λ addresses. addresses.items ≡ addresses_in (map spec_of taps.now)) }
{
    let mut addresses = Vec::new(alloc);
    for tap in taps {
        addresses.push(tap.address)?;
    }
    Ok(addresses)
}

/// The address of a tap; if there is no such tap, an address that no telegram has.
fn address_of(addresses: &[u8], tap: usize) -> u8
    ensures { (specs : List model.TapSpec)
        → addresses.now ≡ addresses_in specs → result ≡ address_at specs tap }
{
    match addresses.get(tap) {
        Some(address) => *address,
        None => NO_ADDRESS,
    }
}

/// Which of some taps received a telegram whole.
fn whole_at(telegram: &Record, taps: usize) -> [bool; TAP_LIMIT]
    ensures size { length result ≡ 127 }
    ensures whole { (tap : ℕ) → tap < taps → taps ≤ 127
        → get_or result tap false ≡ is_whole (slice_get (record_of telegram.now).heard tap) }
{
    let mut whole = [false; TAP_LIMIT];
    for tap in 0..taps.min(TAP_LIMIT) {
        whole[tap] = is_whole(telegram, tap);
    }
    whole
}

/// The last initiator record after an entry that is none.
fn slot_after(params: &BusParams, entry: &Entry, last: Option<LastHeard>) -> Option<LastHeard>
    ensures { (taps : ℕ) (m : Option LastInitiator)
        → IsLastOf taps m last
        → IsLastOf taps (slot_after params.now.ttd params.now.tsl (entry_of entry.now) m) result }
{
    let mut last = last?;
    let over = last.end + u64::from(params.tsl());
    if is_active_in(entry, params.ttd(), last.tap, last.end, over) {
        last.silent = false;
    }
    Some(last)
}

/// Whether a telegram of a station with this address follows the last initiator record. After one that passes the token
/// to no other station, its speaker continues.
fn follows(params: &BusParams, address: u8, last: &LastHeard, telegram: &Record) -> bool
    ensures { (specs : List model.TapSpec) (m : LastInitiator)
        → IsLast (length specs) m last.now → address ≡ address_at specs telegram.now.tap
        → result ≡ goes_on_after params.now specs m (offered_to m.telegram) (record_of telegram.now) }
{
    match offered_by(last.meaning) {
        Some(to) => follows_token(params, address, last, to, telegram),
        None => last.tap == telegram.tap,
    }
}

/// Whether a telegram of a station with this address follows a token to an address: its speaker passes the token again
/// after a slot in silence, or the station that received it whole takes it within the slot.
fn follows_token(
    params: &BusParams,
    address: u8,
    last: &LastHeard,
    to: u8,
    telegram: &Record,
) -> bool
    ensures { (specs : List model.TapSpec) (m : LastInitiator)
        → IsLast (length specs) m last.now → address ≡ address_at specs telegram.now.tap → to < 127
        → result ≡ takes_after params.now specs m to (record_of telegram.now) }
{
    let is_late = is_slot_over(last.end, params.tsl(), telegram.begin);
    if last.tap == telegram.tap {
        return is_late && last.silent;
    }
    takes(address, last, to, telegram.tap) && !is_late
}

/// Whether the tap with this address received a token to an address, its own, whole.
fn takes(address: u8, last: &LastHeard, to: u8, tap: usize) -> bool
    ensures { (specs : List model.TapSpec) (m : LastInitiator)
        → IsLast (length specs) m last.now → address ≡ address_at specs tap → to < 127
        → result ≡ (to == address_at specs tap && is_whole (slice_get m.telegram.heard tap)) }
{
    to == address && has_whole(&last.whole, tap)
}

/// Whether a tap received the last initiator record whole.
fn has_whole(whole: &[bool], tap: usize) -> bool
    ensures { result ≡ get_or whole.now tap false }
{
    matches!(whole.get(tap), Some(true))
}
