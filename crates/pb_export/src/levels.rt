//! The levels of lines: the bits of a character, least bit first, and what they make of the bus.

ghost use Rattle.std.specs.Prelude.{◌≡◌, ◌<◌};
ghost use Rattle.pb_medium.specs.Entries.{entry_of, record_of};
ghost use Rattle.pb_export.specs.Levels as levels;

use crate::options::Window;
use pb_scenario::Entry;
use pb_world::Record;

/// The bits of a character: a start bit, eight bits of the octet, an even parity bit and a stop bit.
const CHARACTER: u64 = 11;

/// The level of a line.
#[derive(Clone, Copy, Debug, PartialEq, Eq)]
pub(crate) enum Level {
    /// A 0.
    Low,
    /// A 1, as of an idle line.
    High,
    /// Noise.
    Unknown,
}

/// The digit of a level in a dump.
pub(crate) fn digit(level: Level) -> &'static [u8]
    ensures { result.now ≡ levels.digit level }
{
    match level {
        Level::Low => b"0",
        Level::High => b"1",
        Level::Unknown => b"x",
    }
}

/// The level of a bit.
fn level_of(bit: bool) -> Level
    ensures { result ≡ levels.level_of bit }
{
    if bit { Level::High } else { Level::Low }
}

/// Whether an entry is shown and on the bus at a moment.
pub(crate) fn is_on(window: Window, entry: &Entry, now: u64) -> bool
    ensures { result ≡ levels.is_on window (entry_of entry.now) now }
{
    window.shows(entry) && entry.begin() <= now && now < entry.end()
}

/// The level of a telegram's line at a moment that is not before its begin.
pub(crate) fn level_at(telegram: &Record, now: u64) -> Level
    ensures { result ≡ levels.level_at (record_of telegram.now) now }
{
    let bits = now.saturating_sub(telegram.begin);
    let place = bits / CHARACTER;
    if place < telegram.octets.len() as u64 {
        level_of(bit_of(telegram.octets[place as usize], bits % CHARACTER))
    } else {
        Level::High
    }
}

/// The level of a telegram's line just before a moment that is not before its begin.
pub(crate) fn level_before(telegram: &Record, now: u64) -> Level
    ensures { result ≡ levels.level_before (record_of telegram.now) now }
{
    if now <= telegram.begin {
        Level::High
    } else {
        level_at(telegram, now - 1)
    }
}

/// The bit of an octet's character with this index, from 0.
fn bit_of(octet: u8, bit: u64) -> bool
    requires { bit < 11 }
    ensures { result ≡ levels.bit_of octet bit }
{
    match bit {
        0 => false,
        1 => octet % 2 == 1,
        2 => octet / 2 % 2 == 1,
        3 => octet / 4 % 2 == 1,
        4 => octet / 8 % 2 == 1,
        5 => octet / 16 % 2 == 1,
        6 => octet / 32 % 2 == 1,
        7 => octet / 64 % 2 == 1,
        8 => octet / 128 % 2 == 1,
        9 => octet.count_ones() % 2 == 1,
        _ => true,
    }
}

/// The level of the bus, after one more entry that is on it.
pub(crate) fn joined(bus: Level, entry: &Entry, now: u64) -> Level
    ensures { result ≡ levels.joined bus (entry_of entry.now) now }
{
    match entry {
        Entry::Noise { .. } => Level::Unknown,
        Entry::Sent(telegram) => wired(bus, level_at(telegram, now)),
    }
}

/// The level of a wire that two drive: noise if either is, else low if either is.
fn wired(one: Level, other: Level) -> Level
    ensures { result ≡ levels.wired one other }
{
    match one {
        Level::Unknown => Level::Unknown,
        Level::Low => match other {
            Level::Unknown => Level::Unknown,
            Level::Low | Level::High => Level::Low,
        },
        Level::High => other,
    }
}
