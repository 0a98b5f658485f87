//! Who holds the token, as a trace names it, stretch by stretch.

ghost use Rattle.std.specs.Prelude.{◌≡◌, ◌++◌, ◌<◌, ◌≤◌, ◌==◌, ◌&&◌, Bool, IfOk, OnOk, length, map, slice_get, take};
ghost use Rattle.std.specs.Option.{option_map};
ghost use Rattle.pb_telegram.specs.declared.chars.RxChar.TheVariants.{Good};
ghost use Rattle.law_turn.specs.Arrivals.{arrival_of};
ghost use Rattle.law_model.specs.Trace.{entry_begin};
ghost use Rattle.law_runs.specs.Activity.{active_at, is_silent, is_within};
ghost use Rattle.law_runs.specs.Judging.{StandsFrom};
ghost use Rattle.law_runs.specs.Legality.{is_whole};
ghost use Rattle.law_runs.specs.Naming.{first_that_heard};
ghost use Rattle.pb_medium.specs.Entries.{entry_of, record_of};
ghost use Rattle.pb_taps.specs.Taps.{spec_of};
ghost use Rattle.pb_world.specs.Traces.{lent_record};
ghost use Rattle.pb_export.specs.Gone.{AreGone, AreGoneAround};
ghost use Rattle.pb_export.specs.Holders as holders;

use crate::saying::is_request;
use pb_medium::Span;
use pb_scenario::{Entry, Scenario, TapSpec};
use pb_telegram::Telegram;
use pb_transitions::spelled_telegram;
use pb_world::{Heard, Record};
use std::alloc::{AllocError, Global};

/// A stretch of time in which a trace names the same tap.
#[derive(Clone, Copy, Debug, PartialEq, Eq)]
pub struct Tenure {
    /// When it begins, in bit times.
    pub begin: u64,
    /// When it ends, in bit times. This moment is the first after it.
    pub end: u64,
    /// The tap; `None` if the trace names nobody.
    pub tap: Option<usize>,
}

/// Whom a trace names up to a moment, from where the part before ends.
#[derive(Clone, Copy, Debug)]
struct Part {
    tap: Option<usize>,
    /// The first moment after it; it is empty if that is not later than its begin.
    until: u64,
}

/// What a telegram says about who holds the token.
#[derive(Clone, Copy, Debug)]
enum Role {
    /// Nothing: any station may send it.
    Nothing,
    /// Its speaker does.
    Keeps,
    /// It passes the token to an address.
    Offers(u8),
}

/// Whom a trace names from a moment until another one, which is not included, in stretches that are as long as they can
/// be. The caller ensures that the trace is in order of begin. This takes time in proportion to the trace.
///
/// Fault: memory was refused.
pub fn tenures_of(
    alloc: Global,
    scenario: &Scenario,
    entries: &[Entry],
    from: u64,
    until: u64,
) -> Result<Vec<Tenure>, AllocError>
    requires { StandsFrom 0 (map entry_of entries.now) }
    ensures { IfOk result (λ tenures. tenures.items
        ≡ holders.tenures_of scenario.now (map entry_of entries.now) from until) }
{
    let parts = parts_of(alloc, scenario, entries, until)?;
    tenures_in(alloc, &parts, from)
}

// ---- the parts

/// Whom a trace names until a moment, part by part.
fn parts_of(
    alloc: Global,
    scenario: &Scenario,
    entries: &[Entry],
    until: u64,
) -> Result<Vec<Part>, AllocError>
    requires { StandsFrom 0 (map entry_of entries.now) }
    ensures { IfOk result (λ parts. parts.items
        ≡ holders.parts_of scenario.now (map entry_of entries.now) until) }
{
    let mut parts = Vec::new(alloc);
    let mut last = None;
    let mut first = 0;
    for place in 0..entries.len() {
        let entry = &entries[place];
        push_before(
            &mut parts,
            scenario,
            &entries[first..place],
            last,
            entry,
            until,
        )?;
        first = first_around(&entries[..place], scenario.params().ttd(), first, entry);
        last = later(last, entry);
    }
    push_after(&mut parts, scenario, &entries[first..], last, until)?;
    Ok(parts)
}

/// The index of the first of the entries before an entry that need not be over when that begins and ends, if it is a token
/// or a request. Those before an index are over when it begins.
fn first_around(before: &[Entry], delay: u32, first: usize, entry: &Entry) -> usize
    requires first { first ≤ length before.now }
    requires over { AreGone delay (entry_begin (entry_of entry.now)) (take first (map entry_of before.now)) }
    ensures bound { result ≤ length before.now }
    ensures over { AreGoneAround delay (entry_of entry.now)
        (take first (map entry_of before.now)) (take result (map entry_of before.now)) }
{
    match entry {
        Entry::Sent(telegram) if is_initiator(telegram) => {
            first_at(before, delay, first, telegram)
        }
        _ => first,
    }
}

/// The index of the first entry that is not over when a telegram begins, or 0 if the telegram ends before it begins.
fn first_at(before: &[Entry], delay: u32, first: usize, telegram: &Record) -> usize
    requires first { first ≤ length before.now }
    requires over { AreGone delay telegram.now.begin (take first (map entry_of before.now)) }
    ensures bound { result ≤ length before.now }
    ensures begin { AreGone delay telegram.now.begin (take result (map entry_of before.now)) }
    ensures end { AreGone delay telegram.now.end (take result (map entry_of before.now)) }
{
    if telegram.end < telegram.begin {
        return 0;
    }
    first_not_over(before, delay, first, telegram.begin)
}

/// The index of the first entry that is not over at a moment.
fn first_not_over(before: &[Entry], delay: u32, first: usize, moment: u64) -> usize
    requires first { first ≤ length before.now }
    requires over { AreGone delay moment (take first (map entry_of before.now)) }
    ensures bound { result ≤ length before.now }
    ensures over { AreGone delay moment (take result (map entry_of before.now)) }
{
    for place in first..before.len() {
        if moment < before[place].reaches_taps(delay).end() {
            return place;
        }
    }
    before.len()
}

/// The last token or request, after one more entry.
fn later<'a>(last: Option<&'a Record>, entry: &'a Entry) -> Option<&'a Record>
    ensures { option_map lent_record result
        ≡ holders.later (option_map lent_record last.entry) (entry_of entry.now) }
{
    match entry {
        Entry::Sent(telegram) if is_initiator(telegram) => Some(telegram),
        _ => last,
    }
}

/// Whether a telegram is a token or a request.
fn is_initiator(telegram: &Record) -> bool
    ensures { result ≡ holders.is_initiator (record_of telegram.now) }
{
    match role_of(&telegram.octets) {
        Role::Nothing => false,
        Role::Keeps | Role::Offers(_) => true,
    }
}

/// What octets say about who holds the token.
fn role_of(octets: &[u8]) -> Role
    ensures { result ≡ holders.role_of (arrival_of (map Good octets.now)) }
{
    match spelled_telegram(octets) {
        Some(Telegram::Token(token)) => token_role(token.da, token.sa),
        Some(Telegram::Ack) => Role::Nothing,
        Some(Telegram::Short(short)) => framed_role(short.fc),
        Some(Telegram::Var(var)) => framed_role(var.fc),
        Some(Telegram::Fixed8(fixed)) => framed_role(fixed.fc),
        None => Role::Nothing,
    }
}

/// What a token says about it.
fn token_role(da: u8, sa: u8) -> Role
    ensures { result ≡ holders.token_role da sa }
{
    if da == sa {
        Role::Keeps
    } else {
        Role::Offers(da)
    }
}

/// What a telegram with this control octet says about it.
fn framed_role(fc: u8) -> Role
    ensures { result ≡ holders.framed_role fc }
{
    if is_request(fc) {
        Role::Keeps
    } else {
        Role::Nothing
    }
}

/// Appends the parts that end where an entry begins, if it is a token or a request.
fn push_before(
    parts: &mut Vec<Part>,
    scenario: &Scenario,
    entries: &[Entry],
    last: Option<&Record>,
    entry: &Entry,
    until: u64,
) -> Result<(), AllocError>
    ensures { OnOk result (parts.new.items ≡ parts.old.items ++ holders.parts_before scenario.now
        (map entry_of entries.now) (option_map lent_record last.entry) until (entry_of entry.now)) }
{
    match entry {
        Entry::Sent(telegram) if is_initiator(telegram) => {
            push_after(parts, scenario, entries, last, telegram.begin.min(until))
        }
        _ => Ok(()),
    }
}

/// Appends the parts after the last token or request, up to a moment.
fn push_after(
    parts: &mut Vec<Part>,
    scenario: &Scenario,
    entries: &[Entry],
    last: Option<&Record>,
    until: u64,
) -> Result<(), AllocError>
    ensures { OnOk result (parts.new.items ≡ parts.old.items ++ holders.parts_after scenario.now
        (map entry_of entries.now) (option_map lent_record last.entry) until) }
{
    match last {
        Some(telegram) => push_after_record(parts, scenario, entries, telegram, until),
        None => push_part(parts, None, until),
    }
}

/// Appends the parts after a token or a request, up to a moment.
fn push_after_record(
    parts: &mut Vec<Part>,
    scenario: &Scenario,
    entries: &[Entry],
    telegram: &Record,
    until: u64,
) -> Result<(), AllocError>
    ensures { OnOk result (parts.new.items ≡ parts.old.items
        ++ holders.parts_by_role scenario.now (map entry_of entries.now) (record_of telegram.now)
        (holders.role_in (record_of telegram.now)) until) }
{
    match role_of(&telegram.octets) {
        Role::Nothing | Role::Keeps => push_part(parts, Some(telegram.tap), until),
        Role::Offers(to) => push_after_token(parts, scenario, entries, telegram, to, until),
    }
}

/// Appends the parts after a token to another station: until its end its speaker, in the slot after it the station that
/// heard it, and then its speaker again, if nothing was sent in the slot.
fn push_after_token(
    parts: &mut Vec<Part>,
    scenario: &Scenario,
    entries: &[Entry],
    telegram: &Record,
    to: u8,
    until: u64,
) -> Result<(), AllocError>
    ensures { OnOk result (parts.new.items ≡ parts.old.items ++ holders.parts_after_token scenario.now
        (map entry_of entries.now) (record_of telegram.now) to until) }
{
    let over = slot_end(telegram, scenario);
    push_part(parts, Some(telegram.tap), until.min(telegram.end))?;
    let heard = first_that_heard(telegram, to, scenario.taps());
    push_part(parts, heard, until.min(over))?;
    push_after_slot(parts, scenario, entries, telegram, over, until)
}

/// When the slot after a token is over.
fn slot_end(telegram: &Record, scenario: &Scenario) -> u64
    ensures { result ≡ holders.slot_end scenario.now (record_of telegram.now) }
{
    telegram
        .end
        .saturating_add(u64::from(scenario.params().tsl()))
}

/// Appends the part after the slot of a token.
fn push_after_slot(
    parts: &mut Vec<Part>,
    scenario: &Scenario,
    entries: &[Entry],
    telegram: &Record,
    over: u64,
    until: u64,
) -> Result<(), AllocError>
    ensures { OnOk result (parts.new.items ≡ parts.old.items ++ holders.parts_after_slot scenario.now
        (map entry_of entries.now) (record_of telegram.now) over until) }
{
    if until <= over {
        return Ok(());
    }
    let delay = scenario.params().ttd();
    if is_active(entries, delay, telegram.tap, telegram.end, over) {
        push_part(parts, None, until)
    } else {
        push_part(parts, Some(telegram.tap), until)
    }
}

/// Appends a part.
fn push_part(parts: &mut Vec<Part>, tap: Option<usize>, until: u64) -> Result<(), AllocError>
    ensures { OnOk result (parts.new.items ≡ parts.old.items ++ holders.one_part tap until) }
{
    parts.push(Part { tap, until })?;
    Ok(())
}

/// The first tap with an address that received a telegram whole.
fn first_that_heard(telegram: &Record, to: u8, taps: &[TapSpec]) -> Option<usize>
    ensures { result ≡ first_that_heard (record_of telegram.now).heard to 0 (map spec_of taps.now) }
{
    for tap in 0..taps.len() {
        if has_heard(telegram, to, tap, &taps[tap]) {
            return Some(tap);
        }
    }
    None
}

/// Whether a tap has this address and received a telegram whole.
fn has_heard(telegram: &Record, to: u8, tap: usize, spec: &TapSpec) -> bool
    ensures { result ≡ (spec.now.address == to && is_whole (slice_get telegram.now.heard tap)) }
{
    spec.address == to && matches!(telegram.heard.get(tap), Some(Heard::Whole))
}

/// Whether some entry is active at a tap in `from` to `to`, `to` excluded.
fn is_active(entries: &[Entry], delay: u32, tap: usize, from: u64, to: u64) -> bool
    ensures { result ≡ holders.is_active delay tap (map entry_of entries.now) from to }
{
    entries
        .iter()
        .any(|entry| is_active_in(entry, delay, tap, from, to))
}

/// Whether an entry is active at a tap in `from` to `to`, `to` excluded.
fn is_active_in(entry: &Entry, delay: u32, tap: usize, from: u64, to: u64) -> bool
    ensures { result ≡ is_within from to (active_at delay tap (entry_of entry.now)) }
{
    let active = active_at(entry, delay, tap);
    active.begin() < to && from < active.end()
}

/// When an entry is active at a tap: its own telegrams as it sends them, those of others a cable delay later.
fn active_at(entry: &Entry, delay: u32, tap: usize) -> Span
    ensures { result ≡ active_at delay tap (entry_of entry.now) }
{
    match entry {
        Entry::Sent(telegram) if telegram.tap == tap => telegram.span(),
        _ => entry.reaches_taps(delay),
    }
}

// ---- the stretches

/// The stretches that some parts make from a moment on.
fn tenures_in(alloc: Global, parts: &[Part], from: u64) -> Result<Vec<Tenure>, AllocError>
    ensures { IfOk result (λ tenures. tenures.items ≡ holders.joined (holders.begun from) parts.now) }
{
    let mut tenures = Vec::new(alloc);
    let mut last = Tenure {
        begin: from,
        end: from,
        tap: None,
    };
    for part in parts {
        push_ended(&mut tenures, last, *part)?;
        last = extended(last, *part);
    }
    push_tenure(&mut tenures, last)?;
    Ok(tenures)
}

/// Appends the last stretch, if a part ends it.
fn push_ended(tenures: &mut Vec<Tenure>, last: Tenure, part: Part) -> Result<(), AllocError>
    ensures { OnOk result (tenures.new.items ≡ tenures.old.items ++ holders.ended last part) }
{
    if part.until <= last.end || last.tap == part.tap {
        Ok(())
    } else {
        push_tenure(tenures, last)
    }
}

/// The last stretch after a part: a longer one, or the next one.
fn extended(last: Tenure, part: Part) -> Tenure
    ensures { result ≡ holders.extended last part }
{
    if part.until <= last.end {
        last
    } else if last.tap == part.tap {
        Tenure {
            begin: last.begin,
            end: part.until,
            tap: last.tap,
        }
    } else {
        Tenure {
            begin: last.end,
            end: part.until,
            tap: part.tap,
        }
    }
}

/// Appends a stretch, if it is not empty.
fn push_tenure(tenures: &mut Vec<Tenure>, tenure: Tenure) -> Result<(), AllocError>
    ensures { OnOk result (tenures.new.items ≡ tenures.old.items ++ holders.unless_empty tenure) }
{
    if tenure.begin < tenure.end {
        tenures.push(tenure)?;
    }
    Ok(())
}
