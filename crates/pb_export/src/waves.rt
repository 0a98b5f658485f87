//! The changes of a value change dump, moment by moment.

ghost use Rattle.std.specs.Prelude.{◌≡◌, ◌<◌, ◌≤◌, ◌+◌, ◌-◌, ◌^◌, ◌++◌, IfOk, OnOk, IsTrue, None};
ghost use Rattle.std.specs.Prelude.{length, map, take, drop};
ghost use Rattle.std.specs.List.{flat_map};
ghost use Rattle.law_runs.specs.Judging.{StandsFrom};
ghost use Rattle.pb_medium.specs.Entries.{entry_of, record_of};
ghost use Rattle.pb_export.specs.Times.{end_of_time};
ghost use Rattle.pb_export.specs.Waves.{AreOver, AreToCome, GoesOn, IsBegun, most};
ghost use Rattle.pb_export.specs.Waves as pieces;
ghost use Rattle.pb_export.specs.Levels as levels;
ghost use Rattle.pb_export.specs.Vcd as vcd;

use crate::dumps::{Dump, Waves};
use crate::levels::{Level, digit, is_on, joined, level_at, level_before};
use crate::options::{Strings, Window};
use crate::pieces::{Piece, push_pieces};
use crate::saying::push_word;
use crate::times::{END, last_end};
use crate::vcd::push_stamp;
use pb_scenario::Entry;
use pb_world::Record;
use std::alloc::{AllocError, Global};

/// How many entries a dump may have had before its last ones.
const MOST: usize = 1_000_000_000_000;

/// Entries, the first of them at an index; those of a run are in order of begin.
#[derive(Clone, Copy, Debug)]
struct Batch {
    first: usize,
    is_in_order: bool,
}

/// Where a walk through the moments is: what was said of the bus, and which entries may be on it.
#[derive(Clone, Copy, Debug)]
struct Place {
    /// The level of the bus.
    level: Level,
    /// The index of the entry whose name the string has.
    named: Option<usize>,
    /// The entries before this one are over.
    first: usize,
    /// The entries from this one on have yet to begin.
    next: usize,
}

/// A dump of a run up to the moment `until`, of which nothing is written.
pub(crate) fn begun(window: Window, until: u64) -> Waves
    ensures { IsBegun window until result }
{
    Waves {
        level: Level::High,
        named: None,
        gone: 0,
        next: window.from,
        last: window.from.max(window.until.min(until)),
    }
}

/// Whether a dump may be written up to the end of the first of some entries, without the others: these begin no earlier, and
/// that end is a moment of the dump, unless nothing later is shown. Of entries that are over this is not so only where a
/// telegram has begun at the far end of a cable before noise was over, or after 10^12 entries.
pub(crate) fn may_go(waves: Waves, window: Window, entries: &[Entry], over: usize) -> bool
    requires { over ≤ length entries.now }
    ensures { result ≡ pieces.may_go window waves over (map entry_of entries.now) }
{
    let (past, rest) = entries.split_at(over);
    is_closed(waves, window, past) && all_since(rest, latest_end(past))
}

/// Whether a dump may be written up to the end of some entries, if no other begins earlier.
fn is_closed(waves: Waves, window: Window, entries: &[Entry]) -> bool
    ensures { result ≡ pieces.is_closed window waves (map entry_of entries.now) }
{
    let end = latest_end(entries);
    waves.gone + entries.len() <= MOST
        && (end <= last_end(window, waves.last, entries) || window.until < end)
}

/// Appends the changes up to the latest end of some entries. Those to come begin no earlier ([`may_go`]).
pub(crate) fn push_past(
    text: &mut Vec<u8>,
    alloc: Global,
    waves: Waves,
    entries: &[Entry],
    dump: Dump,
) -> Result<Waves, AllocError>
    requires { 0 < dump.baud }
    ensures { IfOk result
        (λ next. GoesOn dump waves next (map entry_of entries.now) text.old.items text.new.items) }
{
    let last = last_end(dump.window, waves.last, entries);
    let end = latest_end(entries).min(last.min(END) + 1);
    let place = push_moments(text, alloc, entries, dump, waves, end)?;
    Ok(Waves {
        level: place.level,
        named: place.named,
        gone: (waves.gone + entries.len()).min(MOST),
        next: waves.next.max(end),
        last,
    })
}

/// Appends the changes up to the end of a dump, with the last entries, and the line of that moment.
pub(crate) fn push_rest(
    text: &mut Vec<u8>,
    alloc: Global,
    waves: Waves,
    entries: &[Entry],
    dump: Dump,
) -> Result<(), AllocError>
    requires { 0 < dump.baud }
    ensures { OnOk result (text.new.items
        ≡ text.old.items ++ pieces.waves_from dump waves (map entry_of entries.now)) }
{
    let last = last_end(dump.window, waves.last, entries).min(END);
    push_moments(text, alloc, entries, dump, waves, last + 1)?;
    push_stamp(text, dump.baud, last)
}

/// When the last of some entries ends.
fn latest_end(entries: &[Entry]) -> u64
    ensures { result ≡ pieces.latest_end 0 (map entry_of entries.now) }
{
    let mut latest = 0;
    for entry in entries {
        latest = entry.end().max(latest);
    }
    latest
}

/// Whether all of some entries begin no earlier than a moment.
fn all_since(entries: &[Entry], moment: u64) -> bool
    ensures { result ≡ pieces.are_since moment (map entry_of entries.now) }
{
    for entry in entries {
        if entry.begin() < moment {
            return false;
        }
    }
    true
}

/// Appends the changes of each moment from the next one of a dump up to one before `end`, and returns where the walk is
/// then. Only entries that have begun and are not all over are looked at, and none of the moments at which the bus is idle:
/// so this takes time in proportion to entries and their bits, if the entries are in order of begin.
fn push_moments(
    text: &mut Vec<u8>,
    alloc: Global,
    entries: &[Entry],
    dump: Dump,
    waves: Waves,
    end: u64,
) -> Result<Place, AllocError>
    requires baud { 0 < dump.baud }
    requires end { end ≤ end_of_time + 1 }
    ensures text { IfOk result (λ _. text.new.items ≡ text.old.items
        ++ vcd.moments dump.baud dump.strings dump.window waves.gone (map entry_of entries.now)
        waves.level waves.named waves.next (end - waves.next)) }
    ensures level { IfOk result (λ p. p.level
        ≡ pieces.level_behind dump.window (map entry_of entries.now) waves.level waves.next (end - waves.next)) }
    ensures named { IfOk result (λ p. p.named ≡ pieces.named_behind dump.window waves.gone
        (map entry_of entries.now) waves.named waves.next (end - waves.next)) }
{
    let batch = Batch {
        first: waves.gone,
        is_in_order: is_in_order(entries),
    };
    let mut place = Place {
        level: waves.level,
        named: waves.named,
        first: 0,
        next: 0,
    };
    let mut now = waves.next;
    while now < end {
        place = push_moment(text, alloc, entries, dump, batch, place, now)?;
        now = following(entries, batch, place, now, end);
    }
    Ok(place)
}

/// Whether entries are in order of begin.
fn is_in_order(entries: &[Entry]) -> bool
    ensures { IsTrue result → StandsFrom 0 (map entry_of entries.now) }
{
    let mut from = 0;
    for entry in entries {
        if entry.begin() < from {
            return false;
        }
        from = entry.begin();
    }
    true
}

/// The next moment after `now` at which something may change, up to `end`: where nothing is on the bus, the next begin.
fn following(entries: &[Entry], batch: Batch, place: Place, now: u64, end: u64) -> u64
    requires order { IsTrue batch.is_in_order → StandsFrom 0 (map entry_of entries.now) }
    requires before { now < end }
    ensures after { now < result }
    ensures bound { result ≤ end }
    ensures idle { now + 1 < result → place.next ≤ place.first }
    ensures to_come { now + 1 < result
        → AreToCome (result - 1) (drop place.next (map entry_of entries.now)) }
{
    if place.first < place.next {
        return now + 1;
    }
    match entries.get(place.next) {
        None => end,
        Some(entry) if batch.is_in_order => entry.begin().max(now + 1).min(end),
        Some(_) => now + 1,
    }
}

/// Appends the changes of a moment, and returns where the walk is then.
fn push_moment(
    text: &mut Vec<u8>,
    alloc: Global,
    entries: &[Entry],
    dump: Dump,
    batch: Batch,
    place: Place,
    now: u64,
) -> Result<Place, AllocError>
    requires baud { 0 < dump.baud }
    requires order { IsTrue batch.is_in_order → StandsFrom 0 (map entry_of entries.now) }
    requires few { batch.first ≤ most }
    requires over { AreOver now (take place.first (map entry_of entries.now)) }
    requires first { place.first ≤ place.next }
    requires next { place.next ≤ length entries.now }
    ensures text { IfOk result (λ _. text.new.items ≡ text.old.items
        ++ vcd.moment dump.baud dump.strings dump.window batch.first (map entry_of entries.now)
        place.level place.named now) }
    ensures level { IfOk result (λ p. p.level ≡ levels.bus_at dump.window (map entry_of entries.now) now) }
    ensures named { IfOk result (λ p.
        p.named ≡ vcd.named_at dump.window batch.first (map entry_of entries.now) now) }
    ensures over { IfOk result (λ p. AreOver now (take p.first (map entry_of entries.now))) }
    ensures first { IfOk result (λ p. p.first ≤ p.next) }
    ensures next { IfOk result (λ p. p.next ≤ length entries.now) }
    ensures to_come { IfOk result (λ p. AreToCome now (drop p.next (map entry_of entries.now))) }
{
    let next = begun_until(entries, batch, place.next, now);
    let first = over_until(entries, place.first, next, now);
    let on_bus = &entries[first..next];
    let level = level_of(on_bus, dump.window, now);
    let named = named_in(on_bus, batch.first + first, dump.window, now);
    let mut changes = Vec::new(alloc);
    push_lines(&mut changes, on_bus, dump.window, now)?;
    push_level(&mut changes, place.level, level)?;
    push_named(
        &mut changes,
        alloc,
        entries,
        batch.first,
        dump.strings,
        place.named,
        named,
    )?;
    push_stamped(text, dump.baud, now, &changes)?;
    Ok(Place {
        level,
        named,
        first,
        next,
    })
}

/// The first entry from an index on that has not begun by now, where entries are in order.
fn begun_until(entries: &[Entry], batch: Batch, next: usize, now: u64) -> usize
    requires order { IsTrue batch.is_in_order → StandsFrom 0 (map entry_of entries.now) }
    requires next { next ≤ length entries.now }
    ensures to_come { AreToCome now (drop result (map entry_of entries.now)) }
    ensures after { next ≤ result }
    ensures bound { result ≤ length entries.now }
{
    if batch.is_in_order {
        for place in next..entries.len() {
            if now < entries[place].begin() {
                return place;
            }
        }
    }
    entries.len()
}

/// The first entry from an index on that is not over by now, up to another index.
fn over_until(entries: &[Entry], first: usize, next: usize, now: u64) -> usize
    requires over { AreOver now (take first (map entry_of entries.now)) }
    requires first { first ≤ next }
    requires next { next ≤ length entries.now }
    ensures over { AreOver now (take result (map entry_of entries.now)) }
    ensures bound { result ≤ next }
{
    for place in first..next {
        if now < entries[place].end() {
            return place;
        }
    }
    next
}

/// The level of the bus with some entries, of which not all need be on it.
fn level_of(entries: &[Entry], window: Window, now: u64) -> Level
    ensures { result ≡ levels.bus_from window Level.High (map entry_of entries.now) now }
{
    let mut level = Level::High;
    for entry in entries {
        level = level_with(level, entry, window, now);
    }
    level
}

/// The level of the bus with one entry more, if that is on it.
fn level_with(level: Level, entry: &Entry, window: Window, now: u64) -> Level
    ensures { result ≡ levels.bus_with window level (entry_of entry.now) now }
{
    if is_on(window, entry, now) {
        joined(level, entry, now)
    } else {
        level
    }
}

/// The index of the last of some entries that is on the bus, the first of them at an index.
fn named_in(entries: &[Entry], first: usize, window: Window, now: u64) -> Option<usize>
    requires { first + length entries.now < 2 ^ 63 }
    ensures { result ≡ vcd.named_from window now first None (map entry_of entries.now) }
{
    let mut named = None;
    for place in 0..entries.len() {
        named = named_with(named, first + place, &entries[place], window, now);
    }
    named
}

/// The same with one entry more, at an index.
fn named_with(
    named: Option<usize>,
    place: usize,
    entry: &Entry,
    window: Window,
    now: u64,
) -> Option<usize>
    ensures { result ≡ vcd.named_with window now place named (entry_of entry.now) }
{
    if is_on(window, entry, now) {
        Some(place)
    } else {
        named
    }
}

/// Appends the changes of a moment behind its stamp, if there are any.
fn push_stamped(text: &mut Vec<u8>, baud: u32, now: u64, changes: &[u8]) -> Result<(), AllocError>
    requires { 0 < baud }
    ensures { OnOk result (text.new.items ≡ text.old.items ++ vcd.stamped baud now changes.now) }
{
    if changes.is_empty() {
        return Ok(());
    }
    push_stamp(text, baud, now)?;
    text.extend_from_slice(changes)
}

/// Appends the changes of the stations' lines.
fn push_lines(
    changes: &mut Vec<u8>,
    entries: &[Entry],
    window: Window,
    now: u64,
) -> Result<(), AllocError>
    ensures { OnOk result (changes.new.items
        ≡ changes.old.items ++ flat_map (vcd.entry_change window now) (map entry_of entries.now)) }
{
    for entry in entries {
        push_entry(changes, window, entry, now)?;
    }
    Ok(())
}

/// Appends the change of an entry's line, if it is a telegram that is on the bus.
fn push_entry(
    changes: &mut Vec<u8>,
    window: Window,
    entry: &Entry,
    now: u64,
) -> Result<(), AllocError>
    ensures { OnOk result (changes.new.items
        ≡ changes.old.items ++ vcd.entry_change window now (entry_of entry.now)) }
{
    match entry {
        Entry::Sent(telegram) if is_on(window, entry, now) => push_line(changes, telegram, now),
        _ => Ok(()),
    }
}

/// Appends the change of a telegram's line.
fn push_line(changes: &mut Vec<u8>, telegram: &Record, now: u64) -> Result<(), AllocError>
    ensures { OnOk result (changes.new.items
        ≡ changes.old.items ++ vcd.line_change (record_of telegram.now) now) }
{
    let level = level_at(telegram, now);
    if level == level_before(telegram, now) {
        return Ok(());
    }
    push_pieces(
        changes,
        &[
            Piece::Text(digit(level)),
            Piece::Text(b"t"),
            Piece::Number(telegram.tap as u64),
            Piece::Text(b"\n"),
        ],
    )
}

/// Appends the change of the bus, if it is another level than before.
fn push_level(changes: &mut Vec<u8>, before: Level, level: Level) -> Result<(), AllocError>
    ensures { OnOk result (changes.new.items ≡ changes.old.items ++ vcd.level_change before level) }
{
    if level == before {
        return Ok(());
    }
    push_pieces(changes, &[Piece::Text(digit(level)), Piece::Text(b"b\n")])
}

/// Appends the name of the entry that is on the bus, if it is another one than before and there are strings. The first of
/// the entries has an index.
fn push_named(
    changes: &mut Vec<u8>,
    alloc: Global,
    entries: &[Entry],
    first: usize,
    strings: Strings,
    before: Option<usize>,
    named: Option<usize>,
) -> Result<(), AllocError>
    ensures { OnOk result (changes.new.items
        ≡ changes.old.items ++ vcd.name_change strings first (map entry_of entries.now) before named) }
{
    if strings == Strings::LeftOut || before == named {
        return Ok(());
    }
    changes.extend_from_slice(b"s")?;
    push_name_at(changes, alloc, entries, first, named)?;
    changes.extend_from_slice(b" s\n")
}

/// Appends the name of the entry with an index, or that of an idle bus.
fn push_name_at(
    changes: &mut Vec<u8>,
    alloc: Global,
    entries: &[Entry],
    first: usize,
    named: Option<usize>,
) -> Result<(), AllocError>
    ensures { OnOk result (changes.new.items
        ≡ changes.old.items ++ vcd.name_of (vcd.named_entry first (map entry_of entries.now) named)) }
{
    match named {
        Some(place) => match entries.get(place.saturating_sub(first)) {
            Some(entry) => push_name(changes, alloc, entry),
            None => changes.extend_from_slice(b"-"),
        },
        None => changes.extend_from_slice(b"-"),
    }
}

/// Appends the name of an entry: its short word, with underscores for spaces.
fn push_name(changes: &mut Vec<u8>, alloc: Global, entry: &Entry) -> Result<(), AllocError>
    ensures { OnOk result (changes.new.items ≡ changes.old.items ++ vcd.entry_name (entry_of entry.now)) }
{
    match entry {
        Entry::Noise { .. } => changes.extend_from_slice(b"noise"),
        Entry::Sent(telegram) => {
            let mut word = Vec::new(alloc);
            push_word(&mut word, &telegram.octets)?;
            push_underscored(changes, &word)
        }
    }
}

/// Appends bytes, with underscores for spaces.
fn push_underscored(text: &mut Vec<u8>, bytes: &[u8]) -> Result<(), AllocError>
    ensures { OnOk result (text.new.items ≡ text.old.items ++ map vcd.underscored bytes.now) }
{
    for byte in bytes {
        text.push(underscored(*byte))?;
    }
    Ok(())
}

/// A byte, or an underscore for a space.
fn underscored(byte: u8) -> u8
    ensures { result ≡ vcd.underscored byte }
{
    if byte == b' ' { b'_' } else { byte }
}
