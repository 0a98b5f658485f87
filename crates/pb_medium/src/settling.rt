//! Settles how telegrams reached the taps, as time passes.

ghost use Rattle.std.specs.Prelude.{◌≡◌, ◌<◌, ◌≤◌, ◌∷◌, [], ℕ, IsTrue, true, get_or, length, map, slice_get, slice_set};
ghost use Rattle.law_model.specs.Medium.{ends_between, entry_at, heard_by, is_whole_at, reaches};
ghost use Rattle.law_model.specs.Trace.{Pending, Sent};
ghost use Rattle.pb_medium.specs.Entries.{entry_of, record_of};
ghost use Rattle.pb_medium.specs.Settling.{comes_whole, count_over, first_ended, hears_all, heard_with};
ghost use Rattle.pb_medium.specs.Settling.{latest_end, none_before, settled, settled_as};
ghost use Rattle.pb_taps.specs.Taps.{tap_of};

use crate::entries::{Entry, Record};
use crate::lone::is_plain;
use crate::receptions::Reception;
use crate::senses::{is_undamaged_at, is_whole_at, sent_octets};
use crate::traces::Trace;
use pb_taps::Tap;
use pb_timers::Moment;

impl Trace {
    ghost use Rattle.std.specs.Prelude.{◌≡◌, ◌≤◌, ℕ, map};
    ghost use Rattle.law_model.specs.Laws.{AllBegun};
    ghost use Rattle.pb_medium.specs.Airs.{IsCut};
    ghost use Rattle.pb_medium.specs.Settling.{over_after, settled};
    ghost use Rattle.pb_medium.specs.Traces.{entries_of, limit_of, over_of, RecentBecomes};
    ghost use Rattle.pb_taps.specs.Taps.{tap_of};

    /// Time has passed: telegrams whose ends have reached the taps meanwhile are no longer pending.
    pub fn settle(&mut self, delay: u32, taps: &[Tap], from: Moment, to: Moment)
        ensures { RecentBecomes (settled delay (map tap_of taps.now) from to) self.old self.new }
    {
        settle(&mut self.entries[self.over..], delay, taps, from, to);
    }

    /// Moves the mark of what is over: behind the first entries that have ended at the taps, if the others reach the taps
    /// no earlier.
    pub fn close(&mut self, delay: u32, now: Moment)
        ensures entries { entries_of self.new ≡ entries_of self.old }
        ensures limit { limit_of self.new ≡ limit_of self.old }
        ensures over { over_of self.new ≡ over_after delay now (over_of self.old) (entries_of self.old) }
        ensures cut { (before : ℕ) → before ≤ now
            → IsCut delay before (over_of self.old) (entries_of self.old)
            → AllBegun now (entries_of self.old) → IsCut delay now (over_of self.new) (entries_of self.new) }
    {
        self.over += count_over(self.recent(), delay, now.get());
    }
}

/// How many of some entries are over: the first ones that have ended, if the others reach the taps no earlier.
fn count_over(entries: &[Entry], delay: u32, now: u64) -> usize
    ensures count { result ≡ count_over delay now (map entry_of entries.now) }
    ensures bound { result ≤ length entries.now }
{
    let ended = first_ended(entries, delay, now);
    if none_before(
        &entries[ended..],
        delay,
        latest_end(&entries[..ended], delay),
    ) {
        ended
    } else {
        0
    }
}

/// How many of the first entries have ended at the taps by now.
fn first_ended(entries: &[Entry], delay: u32, now: u64) -> usize
    ensures count { result ≡ first_ended delay now (map entry_of entries.now) }
    ensures bound { result ≤ length entries.now }
{
    entries
        .iter()
        .position(|entry| now < entry.reaches_taps(delay).end())
        .unwrap_or(entries.len())
}

/// When all of some entries have ended at the taps.
fn latest_end(entries: &[Entry], delay: u32) -> u64
    ensures { result ≡ latest_end delay (map entry_of entries.now) }
{
    entries.iter().fold(
        0,
        |latest, entry| latest.max(entry.reaches_taps(delay).end()),
    )
}

/// Whether no entry reaches the taps before a moment.
fn none_before(entries: &[Entry], delay: u32, moment: u64) -> bool
    ensures { result ≡ none_before delay moment (map entry_of entries.now) }
{
    entries
        .iter()
        .all(|entry| moment <= entry.reaches_taps(delay).begin())
}

/// Telegrams whose ends have reached the taps meanwhile are no longer pending.
fn settle(entries: &mut [Entry], delay: u32, taps: &[Tap], from: Moment, to: Moment)
    ensures length { length entries.new ≡ length entries.old }
    ensures settled { map entry_of entries.new
        ≡ settled delay (map tap_of taps.now) from to (map entry_of entries.old) }
{
    if let [only] = entries {
        return settle_only(only, delay, taps, from, to);
    }
    for place in 0..entries.len() {
        let known = &entries[..];
        let heard = outcome(known, delay, &known[place], taps, from, to);
        settle_entry(&mut entries[place], heard);
    }
}

/// The same for a bus with only one entry.
fn settle_only(entry: &mut Entry, delay: u32, taps: &[Tap], from: Moment, to: Moment)
    ensures { entry_of entry.new
        ≡ entry_at delay (map tap_of taps.now) (entry_of entry.old ∷ []) from to (entry_of entry.old) }
{
    if let Entry::Sent(telegram) = entry
        && is_reached_between(telegram, delay, from, to)
    {
        telegram.heard = heard_alone(telegram, delay, taps);
    }
}

/// How a telegram, the only one on the bus, reached each tap, once it has ended.
fn heard_alone(telegram: &Record, delay: u32, taps: &[Tap]) -> Reception
    ensures { result
        ≡ heard_by delay (Sent (record_of telegram.now) ∷ []) (record_of telegram.now) 0 (map tap_of taps.now)
        (record_of telegram.now).heard }
{
    let is_sound = is_sound(telegram);
    let mut heard = telegram.heard.copy();
    for position in 0..telegram.heard.len() {
        settle_alone_at(&mut heard, is_sound, delay, telegram, taps, position);
    }
    heard
}

/// A telegram, the only one on the bus, is no longer pending at the tap at an index.
#[inline(always)]
fn settle_alone_at(
    heard: &mut Reception,
    is_sound: bool,
    delay: u32,
    telegram: &Record,
    taps: &[Tap],
    position: usize,
)
    requires there { position < length heard.old }
    requires sound { IsTrue is_sound → (tap : ℕ) → comes_whole tap (record_of telegram.now) ≡ true }
    ensures { heard.new ≡ slice_set heard.old position
        (heard_with delay (Sent (record_of telegram.now) ∷ []) (record_of telegram.now) position
        (slice_get (map tap_of taps.now) position) (get_or heard.old position Pending)) }
{
    if let Some(tap) = taps.get(position) {
        heard.settle(
            position,
            is_whole_alone(is_sound, delay, position, tap, telegram),
        );
    }
}

/// Whether a telegram, the only one on the bus, was received whole by the tap at an index.
#[inline(always)]
#[tactic(auto, using(crate::proofs::Alone::sent_whole))]
fn is_whole_alone(is_sound: bool, delay: u32, position: usize, tap: &Tap, telegram: &Record) -> bool
    requires { IsTrue is_sound → (p : ℕ) → comes_whole p (record_of telegram.now) ≡ true }
    ensures { result ≡ is_whole_at delay position (tap_of tap.now) (Sent (record_of telegram.now) ∷ [])
        (record_of telegram.now) }
{
    hears_all(delay, position, tap, telegram) && (is_sound || comes_whole(telegram, position))
}

/// Whether the tap at an index runs, has heard a telegram from its begin, and is not its speaker.
#[inline(always)]
fn hears_all(delay: u32, position: usize, tap: &Tap, telegram: &Record) -> bool
    ensures { result ≡ hears_all delay position (tap_of tap.now) (record_of telegram.now) }
{
    tap.running && tap.hears_from(telegram.reaches(delay).begin()) && position != telegram.tap
}

/// Whether all taps that hear a telegram from its begin, with nothing else, receive it whole.
fn is_sound(telegram: &Record) -> bool
    ensures { IsTrue result → (tap : ℕ) → comes_whole tap (record_of telegram.now) ≡ true }
{
    is_plain(telegram) && sent_octets(telegram) == telegram.octets.len()
}

/// Whether the tap at an index receives a telegram whole, if it hears the telegram from its begin, with nothing else.
#[inline(never)]
fn comes_whole(telegram: &Record, position: usize) -> bool
    ensures { result ≡ comes_whole position (record_of telegram.now) }
{
    telegram.begin < telegram.end
        && !telegram.is_unheard(position)
        && is_undamaged_at(telegram, position)
}

/// Stores how a telegram reached the taps, if it did.
fn settle_entry(entry: &mut Entry, heard: Option<Reception>)
    ensures { entry_of entry.new ≡ settled_as heard (entry_of entry.old) }
{
    if let (Entry::Sent(telegram), Some(heard)) = (entry, heard) {
        telegram.heard = heard;
    }
}

/// How a telegram of the entries reached each tap, if its end has reached them meanwhile.
fn outcome(
    entries: &[Entry],
    delay: u32,
    entry: &Entry,
    taps: &[Tap],
    from: Moment,
    to: Moment,
) -> Option<Reception>
    ensures { settled_as result (entry_of entry.now)
        ≡ entry_at delay (map tap_of taps.now) (map entry_of entries.now) from to (entry_of entry.now) }
{
    match entry {
        Entry::Sent(telegram) if is_reached_between(telegram, delay, from, to) => {
            Some(heard_in_the_end(entries, delay, telegram, taps))
        }
        _ => None,
    }
}

/// Whether the end of a telegram reaches the taps after `from`, and at `to` at the latest.
fn is_reached_between(telegram: &Record, delay: u32, from: Moment, to: Moment) -> bool
    ensures { result ≡ ends_between from to (reaches delay (record_of telegram.now)) }
{
    let end = telegram.reached_end(delay);
    from.get() < end && end <= to.get()
}

/// How a telegram of the entries reached each tap, once it has ended.
fn heard_in_the_end(entries: &[Entry], delay: u32, telegram: &Record, taps: &[Tap]) -> Reception
    ensures { result ≡ heard_by delay (map entry_of entries.now) (record_of telegram.now) 0
        (map tap_of taps.now) (record_of telegram.now).heard }
{
    let mut heard = telegram.heard.copy();
    for position in 0..telegram.heard.len() {
        settle_at(&mut heard, entries, delay, telegram, taps, position);
    }
    heard
}

/// A telegram of the entries is no longer pending at the tap at an index, if there is one.
fn settle_at(
    heard: &mut Reception,
    entries: &[Entry],
    delay: u32,
    telegram: &Record,
    taps: &[Tap],
    position: usize,
)
    requires { position < length heard.old }
    ensures { heard.new ≡ slice_set heard.old position
        (heard_with delay (map entry_of entries.now) (record_of telegram.now) position
        (slice_get (map tap_of taps.now) position) (get_or heard.old position Pending)) }
{
    if let Some(tap) = taps.get(position) {
        heard.settle(
            position,
            is_whole_at(entries, delay, position, tap, telegram),
        );
    }
}
