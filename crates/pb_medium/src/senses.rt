//! What a tap senses of the entries of a trace: begins and ends of bursts, and their characters.

ghost use Rattle.std.specs.Prelude.{◌≡◌, [], ℕ, ◌-◌, ◌/◌, ◌≤◌, List, map, count_by, length, not, take, if◌then◌else◌};
ghost use Rattle.std.specs.List.{list_any, list_all};
ghost use Rattle.std.specs.Option.{option_and_then, option_map};
ghost use Rattle.pb_timers.specs.Timers as timers;
ghost use Rattle.pb_telegram.specs.Faults.{is_bad};
ghost use Rattle.pb_telegram.specs.declared.chars.RxChar.TheVariants.{Good, Bad};
ghost use Rattle.law_model.specs.Medium as model;
ghost use Rattle.law_model.specs.Medium.{at_tap, part_after, sensed, begins_at, ends_at, lasts_through, overlaps};
ghost use Rattle.law_model.specs.World as world;
ghost use Rattle.law_model.specs.Step as step;
ghost use Rattle.law_model.specs.Trace as trace;
ghost use Rattle.pb_medium.specs.Entries.{entry_of, record_of};
ghost use Rattle.pb_medium.specs.Senses.{TellsBurst, begin_between, end_between, is_alone, is_undamaged, is_undisturbed};
ghost use Rattle.pb_taps.specs.Taps.{tap_of};

use crate::entries::{Entry, Record};
use crate::spans::Span;
use arrayvec::ArrayVec;
use pb_taps::Tap;
use pb_telegram::RxChar;
use pb_timers::CHARACTER_BITS;

/// When a burst begins at a tap that senses since `since`: at `from` or later, and before `to`.
pub fn begin_between(
    entries: &[Entry],
    delay: u32,
    tap: usize,
    since: u64,
    from: u64,
    to: u64,
) -> Option<u64>
    ensures { result ≡ begin_between (sensed delay tap since (map entry_of entries.now)) from to }
{
    let first = entries
        .iter()
        .filter_map(|entry| sensed(entry, delay, tap, since))
        .find(|span| {
            from <= span.begin()
                && span.begin() < to
                && burst_begins(entries, delay, tap, since, span.begin())
        })?;
    Some(first.begin())
}

/// When a burst ends at a tap that senses since `since`: after `from`, and at `to` at the latest.
pub fn end_between(
    entries: &[Entry],
    delay: u32,
    tap: usize,
    since: u64,
    from: u64,
    to: u64,
) -> Option<u64>
    ensures { result ≡ end_between (sensed delay tap since (map entry_of entries.now)) from to }
{
    let first = entries
        .iter()
        .filter_map(|entry| sensed(entry, delay, tap, since))
        .find(|span| {
            from < span.end()
                && span.end() <= to
                && burst_ends(entries, delay, tap, since, span.end())
        })?;
    Some(first.end())
}

/// Whether a telegram alone fills a burst of the tap at an index.
#[inline(always)]
pub(crate) fn fills_burst(
    entries: &[Entry],
    delay: u32,
    position: usize,
    tap: &Tap,
    telegram: &Record,
) -> bool
    ensures { result
        ≡ model.fills_burst delay position (tap_of tap.now) (map entry_of entries.now)
        (record_of telegram.now) }
{
    tap.hears_from(telegram.reaches(delay).begin())
        && is_alone(entries, delay, position, tap.since, telegram)
}

/// The telegram that alone fills the tap's burst that ends at `moment`: the burst brings its characters. If there is
/// none, the burst brings one damaged character.
pub fn filling_telegram<'a>(
    entries: &'a [Entry],
    delay: u32,
    position: usize,
    tap: &Tap,
    moment: u64,
) -> Option<&'a Record>
    ensures { TellsBurst position (option_map (λ r. record_of r.now) result)
        (model.burst_characters delay position (tap_of tap.now) (map entry_of entries.now) moment) }
{
    let filling = entries.iter().find(|entry| fills_burst_to(
        entries, delay, position, tap, moment, entry,
    ));
    telegram_in(filling)
}

/// The telegram of an entry; `None` for noise.
#[inline(always)]
fn telegram_in(entry: Option<&Entry>) -> Option<&Record>
    ensures { (tap : ℕ) → TellsBurst tap (option_map (λ r. record_of r.now) result)
        (model.entry_characters tap (option_map (λ e. entry_of e.now) entry.entry)) }
{
    match entry? {
        Entry::Sent(telegram) => Some(telegram),
        Entry::Noise { .. } => None,
    }
}

/// The characters of a telegram that were sent, as the tap at an index receives them.
pub fn telegram_characters(telegram: &Record, position: usize) -> ArrayVec<RxChar, 255>
    ensures { result.items ≡ trace.characters_at position (record_of telegram.now) }
{
    let mut chars = ArrayVec::new();
    characters_at(telegram, position, &mut chars);
    chars
}

/// Whether the tap at an index received a telegram of the entries whole.
pub fn is_whole_at(
    entries: &[Entry],
    delay: u32,
    position: usize,
    tap: &Tap,
    telegram: &Record,
) -> bool
    ensures { result
        ≡ model.is_whole_at delay position (tap_of tap.now) (map entry_of entries.now)
        (record_of telegram.now) }
{
    if !tap.running {
        return false;
    }
    fills_burst(entries, delay, position, tap, telegram) && is_undamaged_at(telegram, position)
}

/// The next end on the bus, at a speaker or at the taps of others.
pub fn next_end(entries: &[Entry], delay: u32, now: u64) -> Option<u64>
    ensures { result ≡ world.next_end_of delay now (map entry_of entries.now) }
{
    entries
        .iter()
        .filter_map(|entry| entry_next_end(entry, delay, now))
        .min()
}

/// Whether something reaches a tap now.
pub fn is_reached(entries: &[Entry], delay: u32, tap: usize, now: u64) -> bool
    ensures { result ≡ list_any (step.reaches_now delay tap now) (map entry_of entries.now) }
{
    entries.iter().any(|entry| at_tap(entry, delay, tap).is_some_and(|span| span.contains(now)))
}

/// Whether an entry is a speaker's telegram that is still on the bus: its end has not reached the others.
pub fn is_in_air_by(entry: &Entry, delay: u32, speaker: usize, now: u64) -> bool
    ensures { result ≡ world.is_in_air_by delay now speaker (entry_of entry.now) }
{
    matches!(entry, Entry::Sent(telegram) if telegram.tap == speaker && now < telegram.reached_end(delay))
}

/// The next end of an entry. A telegram ends at its speaker first, and then at the taps of others.
fn entry_next_end(entry: &Entry, delay: u32, now: u64) -> Option<u64>
    ensures { result ≡ world.entry_next_end delay now (entry_of entry.now) }
{
    match entry {
        Entry::Noise { end, .. } => later_end(now, *end),
        Entry::Sent(telegram) if now < telegram.end => Some(telegram.end),
        Entry::Sent(telegram) => later_end(now, telegram.reached_end(delay)),
    }
}

/// The end, if it is after `now`.
fn later_end(now: u64, end: u64) -> Option<u64>
    ensures { result ≡ world.later_end now end }
{
    (now < end).then_some(end)
}

/// Whether a burst begins at `moment`, at a tap that senses since `since`.
fn burst_begins(entries: &[Entry], delay: u32, tap: usize, since: u64, moment: u64) -> bool
    ensures { result ≡ model.burst_begins (sensed delay tap since (map entry_of entries.now)) moment }
{
    begins_at(entries, delay, tap, since, moment)
        && !lasts_through(entries, delay, tap, since, moment)
}

/// Whether a burst ends at `moment`, at a tap that senses since `since`.
fn burst_ends(entries: &[Entry], delay: u32, tap: usize, since: u64, moment: u64) -> bool
    ensures { result ≡ model.burst_ends (sensed delay tap since (map entry_of entries.now)) moment }
{
    ends_at(entries, delay, tap, since, moment)
        && !lasts_through(entries, delay, tap, since, moment)
}

fn begins_at(entries: &[Entry], delay: u32, tap: usize, since: u64, moment: u64) -> bool
    ensures { result ≡ list_any (begins_at moment) (sensed delay tap since (map entry_of entries.now)) }
{
    entries
        .iter()
        .filter_map(|entry| sensed(entry, delay, tap, since))
        .any(|span| span.begin() == moment)
}

fn lasts_through(entries: &[Entry], delay: u32, tap: usize, since: u64, moment: u64) -> bool
    ensures { result ≡ list_any (lasts_through moment) (sensed delay tap since (map entry_of entries.now)) }
{
    entries
        .iter()
        .filter_map(|entry| sensed(entry, delay, tap, since))
        .any(|span| span.lasts_through(moment))
}

fn ends_at(entries: &[Entry], delay: u32, tap: usize, since: u64, moment: u64) -> bool
    ensures { result ≡ list_any (ends_at moment) (sensed delay tap since (map entry_of entries.now)) }
{
    entries
        .iter()
        .filter_map(|entry| sensed(entry, delay, tap, since))
        .any(|span| span.end() == moment)
}

/// Whether a telegram reaches the tap at an index with nothing else, while that tap sends nothing.
#[inline(always)]
fn is_alone(entries: &[Entry], delay: u32, position: usize, since: u64, telegram: &Record) -> bool
    ensures { result ≡ is_alone delay position since (map entry_of entries.now) (record_of telegram.now) }
{
    if telegram.tap == position || telegram.is_unheard(position) {
        return false;
    }
    is_undisturbed(entries, delay, position, since, telegram.reaches(delay))
}

/// Whether the tap at an index senses exactly one entry during a stretch of time, and sends nothing.
fn is_undisturbed(entries: &[Entry], delay: u32, position: usize, since: u64, span: Span) -> bool
    ensures { result ≡ is_undisturbed delay position since (map entry_of entries.now) span }
{
    count_overlapping(entries, delay, position, since, span) == 1
        && !sends_in(entries, position, span)
}

/// Whether an entry is a telegram whose end reaches the taps at `moment`, and that alone fills a burst.
#[inline(always)]
fn fills_burst_to(
    entries: &[Entry],
    delay: u32,
    position: usize,
    tap: &Tap,
    moment: u64,
    entry: &Entry,
) -> bool
    ensures { result ≡ model.fills_burst_to delay position (tap_of tap.now) (map entry_of entries.now)
        moment (entry_of entry.now) }
{
    match entry {
        Entry::Noise { .. } => false,
        Entry::Sent(telegram) => telegram.reached_end(delay) == moment
            && fills_burst(entries, delay, position, tap, telegram),
    }
}

/// Whether every character of a telegram was sent, and reaches the tap at an index undamaged.
pub(crate) fn is_undamaged_at(telegram: &Record, position: usize) -> bool
    ensures { result ≡ is_undamaged position (record_of telegram.now) }
{
    if telegram.hits.is_empty() {
        return sent_octets(telegram) == telegram.octets.len();
    }
    let chars = telegram_characters(telegram, position);
    chars.len() == telegram.octets.len() && are_good(&chars)
}

/// When an entry is at a tap: noise, or a telegram of another tap that is not lost there.
#[inline(always)]
fn at_tap(entry: &Entry, delay: u32, tap: usize) -> Option<Span>
    ensures { result ≡ at_tap delay tap (entry_of entry.now) }
{
    match entry {
        Entry::Noise { begin, end } => Some(Span::new(*begin, *end)),
        Entry::Sent(telegram) if telegram.tap == tap || telegram.is_unheard(tap) => None,
        Entry::Sent(telegram) => Some(telegram.reaches(delay)),
    }
}

/// What a tap that senses since `since` has sensed of an entry.
#[inline(always)]
fn sensed(entry: &Entry, delay: u32, tap: usize, since: u64) -> Option<Span>
    ensures { result ≡ option_and_then (part_after since) (at_tap delay tap (entry_of entry.now)) }
{
    at_tap(entry, delay, tap).and_then(|span| span.part_after(since))
}

/// How many stretches that a tap has sensed overlap a given one.
fn count_overlapping(entries: &[Entry], delay: u32, tap: usize, since: u64, span: Span) -> usize
    ensures { result ≡ count_by (overlaps span) (sensed delay tap since (map entry_of entries.now)) }
{
    entries
        .iter()
        .filter_map(|entry| sensed(entry, delay, tap, since))
        .filter(|other| span.overlaps(*other))
        .count()
}

/// Whether the tap at an index sends during a stretch of time.
fn sends_in(entries: &[Entry], position: usize, span: Span) -> bool
    ensures { result ≡ list_any (model.sends_during position span) (map entry_of entries.now) }
{
    entries
        .iter()
        .any(|entry| sends_during(entry, position, span))
}

/// Writes the characters of a telegram that were sent, as the tap at an index receives them.
fn characters_at(telegram: &Record, position: usize, chars: &mut ArrayVec<RxChar, 255>)
    ensures { chars.new.items ≡ trace.characters_at position (record_of telegram.now) }
{
    let octets = &telegram.octets[..sent_octets(telegram)];
    if telegram.hits.is_empty() {
        return good_characters(octets, chars);
    }
    characters_of(telegram, position, octets, chars);
}

/// How many octets of a telegram were sent.
#[inline(always)]
pub(crate) fn sent_octets(telegram: &Record) -> usize
    ensures count { take result telegram.now.octets.items
        ≡ take ((telegram.now.end - telegram.now.begin) / timers.bits 1) telegram.now.octets.items }
    ensures bound { result ≤ length telegram.now.octets.items }
{
    let sent = telegram.end.saturating_sub(telegram.begin) / CHARACTER_BITS;
    usize::try_from(sent)
        .unwrap_or(usize::MAX)
        .min(telegram.octets.len())
}

fn are_good(chars: &[RxChar]) -> bool
    ensures { result ≡ list_all (λ char. not (is_bad char)) chars.now }
{
    chars.iter().all(|char| *char != RxChar::Bad)
}

fn sends_during(entry: &Entry, tap: usize, span: Span) -> bool
    ensures { result ≡ model.sends_during tap span (entry_of entry.now) }
{
    match entry {
        Entry::Noise { .. } => false,
        Entry::Sent(telegram) => telegram.tap == tap && telegram.span().overlaps(span),
    }
}

/// Writes octets as undamaged characters.
fn good_characters(octets: &[u8], chars: &mut ArrayVec<RxChar, 255>)
    requires { length octets.now ≤ 255 }
    ensures { chars.new.items ≡ trace.characters_from 0 [] 0 octets.now }
{
    chars.clear();
    for octet in octets {
        chars.push(RxChar::Good(*octet));
    }
}

/// Writes the characters of sent octets, as the tap at an index receives them.
fn characters_of(
    telegram: &Record,
    position: usize,
    octets: &[u8],
    chars: &mut ArrayVec<RxChar, 255>,
)
    requires { length octets.now ≤ 255 }
    ensures { chars.new.items
        ≡ trace.characters_from position (record_of telegram.now).hits 0 octets.now }
{
    chars.clear();
    for (place, octet) in octets.iter().enumerate() {
        chars.push(character_at(telegram, position, place, *octet));
    }
}

/// The character with index `place`, as the tap at index `position` receives it.
fn character_at(telegram: &Record, position: usize, place: usize, octet: u8) -> RxChar
    ensures { result
        ≡ (if list_any (trace.hits_place position place) (record_of telegram.now).hits then Bad else Good
        octet) }
{
    if telegram.is_hit(position, place) {
        return RxChar::Bad;
    }
    RxChar::Good(octet)
}
