//! The marks that a pass of time appends to the inbox of each tap.

ghost use Rattle.std.specs.Prelude.{◌≡◌, ◌+◌, ◌≤◌, ◌<◌, ◌++◌, ◌∷◌, [], IfSome, true, false, None, Some, length, map};
ghost use Rattle.pb_timers.specs.Timers.{last_moment};
ghost use Rattle.law_model.specs.Laws.{begin_of};
ghost use Rattle.law_model.specs.Medium.{new_marks, sensed};
ghost use Rattle.law_model.specs.Step as step;
ghost use Rattle.law_model.specs.World.{mark_limit};
ghost use Rattle.law_turn.specs.Marks.{End};
ghost use Rattle.law_model.specs.Trace.{characters_at};
ghost use Rattle.pb_medium.specs.Entries.{entry_of, record_of};
ghost use Rattle.pb_medium.specs.Lone.{lone_of, lone_begin, lone_end, lone_marks};
ghost use Rattle.pb_medium.specs.Senses.{begin_between, end_between};
ghost use Rattle.pb_world.specs.Passes.{end_of, unread_after, with_begin, with_end, with_lone, with_news};
ghost use Rattle.pb_taps.specs.Taps.{seat_of, tap_of};

use pb_medium::{
    Entry, Lone, Record, begin_between, end_between, filling_telegram, lone_in, telegram_characters,
};
use pb_station::MARK_LIMIT;
use pb_taps::Tap;
use pb_timers::Moment;

/// The most marks that a pass appends to the inbox of a tap.
const MOST_NEWS: usize = 2;

/// The first tap whose inbox has no room for the marks of a pass.
pub(crate) fn first_full(
    entries: &[Entry],
    delay: u32,
    taps: &[Tap],
    from: Moment,
    to: Moment,
) -> Option<usize>
    ensures { result
        ≡ step.first_full 0 (step.told delay (map entry_of entries.now) from to 0 (map tap_of taps.now)) }
{
    if entries.is_empty() {
        inboxes_hold_few(taps);
        return None;
    }
    for (position, tap) in taps.iter().enumerate() {
        if overflows(entries, delay, position, tap, from, to) {
            return Some(position);
        }
    }
    None
}

/// Appends the marks of a pass at every tap. The caller ensures that each inbox has room for them.
pub(crate) fn tell_all(entries: &[Entry], delay: u32, taps: &mut [Tap], from: Moment, to: Moment)
    requires { step.first_full 0
        (step.told delay (map entry_of entries.now) from to 0 (map tap_of taps.old)) ≡ None }
    ensures seats { map seat_of taps.new ≡ map seat_of taps.old }
    ensures told { map tap_of taps.new
        ≡ step.told delay (map entry_of entries.now) from to 0 (map tap_of taps.old) }
{
    if let Some(lone) = lone_in(entries, delay) {
        for (position, tap) in taps.iter_mut().enumerate() {
            tell_of(&lone, position, tap, from, to);
        }
        return;
    }
    for (position, tap) in taps.iter_mut().enumerate() {
        tell(entries, delay, position, tap, from, to);
    }
}

/// No tap has more unread marks than it may have, since an inbox cannot hold more. The loop is for the proof: it does
/// nothing.
fn inboxes_hold_few(taps: &[Tap])
    ensures { step.first_full 0 (map tap_of taps.now) ≡ None }
{
    for (position, tap) in taps.iter().enumerate() {
        let _ = (position, tap.marks.len());
    }
}

/// Whether the inbox of the tap at an index has no room for the marks of a pass.
fn overflows(
    entries: &[Entry],
    delay: u32,
    position: usize,
    tap: &Tap,
    from: Moment,
    to: Moment,
) -> bool
    ensures full { result ≡ true
        → mark_limit < unread_after delay position (tap_of tap.now) (map entry_of entries.now) from to }
    ensures fits { result ≡ false
        → unread_after delay position (tap_of tap.now) (map entry_of entries.now) from to ≤ mark_limit }
{
    let unread = tap.marks.len();
    unread + MOST_NEWS > MARK_LIMIT
        && unread + news_count(entries, delay, position, tap, from, to) > MARK_LIMIT
}

/// Appends the marks of a pass for the only entry on the bus, at the tap at an index.
#[inline(always)]
fn tell_of(lone: &Lone<'_>, position: usize, tap: &mut Tap, from: Moment, to: Moment)
    requires room { length tap.old.marks
        + length (lone_marks (lone_of lone.now) position (tap_of tap.old) from to) ≤ mark_limit }
    requires few { IfSome (lone_of lone.now).octets (λ octets. length octets ≤ 255) }
    ensures told { tap_of tap.new ≡ with_lone (lone_of lone.now) position (tap_of tap.old) from to }
    ensures seat { seat_of tap.new ≡ seat_of tap.old }
{
    if !lone.is_sensed_by(position, tap) {
        return;
    }
    tell_lone_begin(lone, tap, from, to);
    tell_lone_end(lone, tap, from, to);
}

/// Appends the mark that the only entry on the bus began at a tap, if it did.
#[inline(always)]
fn tell_lone_begin(lone: &Lone<'_>, tap: &mut Tap, from: Moment, to: Moment)
    requires { length tap.old.marks
        + length (lone_begin (lone_of lone.now) (tap_of tap.old) from to) ≤ mark_limit }
    ensures { tap.new ≡ record tap.old
        { marks = tap.old.marks ++ lone_begin (lone_of lone.now) (tap_of tap.old) from to } }
{
    let begin = lone.span.begin().max(tap.since);
    if from.get() <= begin && begin < to.get() {
        tap.marks.push_begin(Moment::at(begin), to);
    }
}

/// Appends the mark that the only entry on the bus ended at a tap, if it did. A tap that started during the entry
/// received no octets.
#[inline(always)]
fn tell_lone_end(lone: &Lone<'_>, tap: &mut Tap, from: Moment, to: Moment)
    requires room { length tap.old.marks
        + length (lone_end (lone_of lone.now) (tap_of tap.old) from to) ≤ mark_limit }
    requires few { IfSome (lone_of lone.now).octets (λ octets. length octets ≤ 255) }
    ensures { tap.new ≡ record tap.old
        { marks = tap.old.marks ++ lone_end (lone_of lone.now) (tap_of tap.old) from to } }
{
    let end = lone.span.end();
    if end <= from.get() || to.get() < end {
        return;
    }
    match lone.octets {
        Some(octets) if tap.hears_from(lone.span.begin()) => {
            tap.marks.push_good_end(Moment::at(end), to, octets);
        }
        _ => tap.marks.push_noise(Moment::at(end), to),
    }
}

/// Appends the marks of a pass at the tap at an index.
fn tell(entries: &[Entry], delay: u32, position: usize, tap: &mut Tap, from: Moment, to: Moment)
    requires { unread_after delay position (tap_of tap.old) (map entry_of entries.now) from to ≤ mark_limit }
    ensures told { tap_of tap.new
        ≡ with_news delay position (tap_of tap.old) (map entry_of entries.now) from to }
    ensures seat { seat_of tap.new ≡ seat_of tap.old }
{
    if !tap.running {
        return;
    }
    let begin = begin_in(entries, delay, position, tap, from, to);
    let end = end_in(entries, delay, position, tap, from, to);
    tell_begin(tap, begin, to);
    tell_end(entries, delay, position, tap, end, to);
}

/// How many marks a pass appends at the tap at an index, 0 to 2.
fn news_count(
    entries: &[Entry],
    delay: u32,
    position: usize,
    tap: &Tap,
    from: Moment,
    to: Moment,
) -> usize
    ensures count { result
        ≡ length (new_marks delay position (tap_of tap.now) (map entry_of entries.now) from to) }
    ensures few { result ≤ 2 }
{
    if !tap.running {
        return 0;
    }
    usize::from(begin_in(entries, delay, position, tap, from, to).is_some())
        + usize::from(end_in(entries, delay, position, tap, from, to).is_some())
}

/// When a burst begins at the tap at an index during a pass, if one does.
fn begin_in(
    entries: &[Entry],
    delay: u32,
    position: usize,
    tap: &Tap,
    from: Moment,
    to: Moment,
) -> Option<Moment>
    ensures { result
        ≡ begin_between (sensed delay position tap.now.since (map entry_of entries.now)) from to }
{
    moment_of(begin_between(entries, delay, position, tap.since, from.get(), to.get()))
}

/// When a burst ends at the tap at an index during a pass, if one does.
fn end_in(
    entries: &[Entry],
    delay: u32,
    position: usize,
    tap: &Tap,
    from: Moment,
    to: Moment,
) -> Option<Moment>
    ensures { result ≡ end_between (sensed delay position tap.now.since (map entry_of entries.now)) from to }
{
    moment_of(end_between(entries, delay, position, tap.since, from.get(), to.get()))
}

/// A number of bit times as a moment; `None` stays `None`.
pub(crate) fn moment_of(bits: Option<u64>) -> Option<Moment>
    requires { IfSome bits (λ n. n ≤ last_moment) }
    ensures { result ≡ bits }
{
    match bits {
        Some(bits) => Some(Moment::at(bits)),
        None => None,
    }
}

/// Appends the mark that a burst began, if one did.
fn tell_begin(tap: &mut Tap, begin: Option<Moment>, to: Moment)
    requires { length tap.old.marks + length (begin_of to begin) ≤ mark_limit }
    ensures { tap.new ≡ with_begin tap.old to begin }
{
    if let Some(at) = begin {
        tap.marks.push_begin(at, to);
    }
}

/// Appends the mark that a burst ended at the tap at an index, if one did.
fn tell_end(
    entries: &[Entry],
    delay: u32,
    position: usize,
    tap: &mut Tap,
    end: Option<Moment>,
    to: Moment,
)
    requires { length tap.old.marks + length
        (end_of delay position (tap_of tap.old) (map entry_of entries.now) to end) ≤ mark_limit }
    ensures { tap.new ≡ with_end delay position tap.old (map entry_of entries.now) to end }
{
    if let Some(at) = end {
        tell_end_at(entries, delay, position, tap, at, to);
    }
}

/// Appends the mark that a burst ended at `at`, at the tap at an index.
fn tell_end_at(
    entries: &[Entry],
    delay: u32,
    position: usize,
    tap: &mut Tap,
    at: Moment,
    to: Moment,
)
    requires { length tap.old.marks < mark_limit }
    ensures { tap.new ≡ with_end delay position tap.old (map entry_of entries.now) to (Some at) }
{
    match filling_telegram(entries, delay, position, tap, at.get()) {
        Some(telegram) => tell_characters(telegram, position, tap, at, to),
        None => tap.marks.push_noise(at, to),
    }
}

/// Appends the mark that a burst ended at `at` and brought the characters of a telegram. Kept out of line: its frame
/// has room for the longest telegram.
#[inline(never)]
fn tell_characters(telegram: &Record, position: usize, tap: &mut Tap, at: Moment, to: Moment)
    requires { length tap.old.marks < mark_limit }
    ensures { tap.new ≡ record tap.old
        { marks = tap.old.marks ++ End at to (characters_at position (record_of telegram.now)) ∷ [] } }
{
    let chars = telegram_characters(telegram, position);
    tap.marks.push_end(at, to, &chars);
}
