//! What the keys of a scenario file may be, in words.

use crate::documents::Document;
use pb_scenario::{Key, Section};

const TOP: [&str; 5] = ["version", "until", "bus", "tap", "step"];

const BUS: [&str; 10] = [
    "tsl", "tid1", "tid2", "tsdr", "lag", "ttr", "gap", "hsa", "retries", "ttd",
];

const TAP: [&str; 4] = ["name", "kind", "address", "reply"];

// The keys of steps end with the two of steps that repeat.
const POWER: [&str; 5] = ["at", "do", "tap", "every", "count"];

const QUEUE: [&str; 9] = [
    "at", "do", "tap", "service", "to", "high", "unit", "every", "count",
];

const DAMAGE: [&str; 7] = ["at", "do", "tap", "speaker", "place", "every", "count"];

const NOISE: [&str; 5] = ["at", "do", "bits", "every", "count"];

const UNHEARD: [&str; 6] = ["at", "do", "tap", "speaker", "every", "count"];

const WITHHOLD: [&str; 6] = ["at", "do", "tap", "bits", "every", "count"];

/// What a step may do.
const DEEDS: [&str; 7] = [
    "start", "stop", "queue", "damage", "noise", "unheard", "withhold",
];

/// What a tap may be.
const KINDS: [&str; 2] = ["master", "passive"];

/// The services that a request may ask for.
const SERVICES: [&str; 3] = ["sda", "sdn", "srd"];

const NO_WORDS: [&str; 0] = [];

/// A table as people write it.
pub(crate) fn table_name(section: Section) -> &'static str {
    match section {
        Section::Top => "the file",
        Section::Bus => "[bus]",
        Section::Tap(_) => "[[tap]]",
        Section::Step(_) => "[[step]]",
    }
}

/// The words of which a key has one for its value; none for other keys.
pub(crate) fn words_of(key: Key) -> &'static [&'static str] {
    match key {
        Key::Do => &DEEDS,
        Key::Kind => &KINDS,
        Key::Service => &SERVICES,
        _ => &NO_WORDS,
    }
}

/// The keys that a table of a document may have; those of a step by what it does.
pub(crate) fn keys_of(
    section: Section,
    document: &Document<'_>,
    deed: &[u8],
) -> &'static [&'static str] {
    match section {
        Section::Top => &TOP,
        Section::Bus if document.has_delay() => &BUS,
        Section::Bus => &BUS[..9],
        Section::Tap(_) => &TAP,
        Section::Step(_) if document.has_repeats() => step_keys(deed),
        Section::Step(_) => without_repeats(step_keys(deed)),
    }
}

/// Whether some table may have this key.
pub(crate) fn is_known(key: &str) -> bool {
    let tables: [&[&str]; 6] = [&TOP, &BUS, &TAP, &QUEUE, &DAMAGE, &NOISE];
    tables
        .iter()
        .any(|keys| keys.iter().any(|known| *known == key))
}

/// The keys of a step that does this.
fn step_keys(deed: &[u8]) -> &'static [&'static str] {
    match deed {
        b"\"queue\"" => &QUEUE,
        b"\"damage\"" => &DAMAGE,
        b"\"noise\"" => &NOISE,
        b"\"unheard\"" => &UNHEARD,
        b"\"withhold\"" => &WITHHOLD,
        _ => &POWER,
    }
}

/// The keys of a step that happens once.
fn without_repeats(keys: &'static [&'static str]) -> &'static [&'static str] {
    match keys {
        [once @ .., _, _] => once,
        _ => keys,
    }
}

/// What a key of a table may have for its value.
pub(crate) fn wanted(document: &Document<'_>, section: Section, key: Key) -> &'static str {
    match key {
        Key::Version => "1, 2 or 3",
        Key::Until if document.has_repeats() => {
            "an integer from 1 to 1000000000000, in bit times, without quotes"
        }
        Key::Until =>
            "an integer from 1 to 10000000, in version 3 to 1000000000000, in bit times, without quotes",
        Key::Bus => "a table, [bus]",
        Key::Tap => match section {
            Section::Step(_) => "the name of a tap, in quotes",
            _ => "a list of tables, [[tap]] for each",
        },
        Key::Step => "a list of tables, [[step]] for each",
        Key::Name if document.has_repeats() => {
            "1 to 32 ASCII letters, digits, '-' or '_' and nothing else, in quotes"
        }
        Key::Name =>
            "1 to 16 ASCII letters or digits and nothing else, in quotes; in version 3 to 32, also '-' and '_'",
        Key::Kind => "\"master\" or \"passive\"",
        Key::Reply | Key::Unit => "at most 246 octets, two hex digits each and no 0x, in quotes",
        Key::Do =>
            "one of \"start\", \"stop\", \"queue\", \"damage\", \"noise\", \"unheard\", \"withhold\"",
        Key::Service => "\"sda\", \"sdn\" or \"srd\"",
        Key::High => "true or false",
        Key::Speaker => "the name of a tap, in quotes",
        Key::Bits if is_noise(document, section) => {
            "an integer from 1 to 4294967295, in bit times, without quotes"
        }
        _ => wanted_number(key),
    }
}

/// Whether a step makes noise.
fn is_noise(document: &Document<'_>, section: Section) -> bool {
    match document.entry(section, Key::Do) {
        Some(entry) => entry.text == b"\"noise\"".as_slice(),
        None => false,
    }
}

/// What a key may have for its value whose values are numbers.
fn wanted_number(key: Key) -> &'static str {
    match key {
        Key::Tsl => "an integer from 100 to 16383, in bit times, without quotes",
        Key::Tid1 => "an integer from 33 to tid2, in bit times, without quotes",
        Key::Tid2 => "an integer from tid1, under tsl, in bit times, without quotes",
        Key::Tsdr => "an integer from 11, under tsl, in bit times, without quotes",
        Key::Lag => "an integer from 0, under tsl, in bit times, without quotes",
        Key::Ttd => "an integer from 0, under half of tsl, in bit times, without quotes",
        Key::Ttr => "an integer from 256 to 16777215, in bit times, without quotes",
        Key::Gap => "an integer from 1 to 100, in rotations, without quotes",
        Key::Hsa => "an integer from 2 to 126, without quotes",
        Key::Retries => "an integer from 0 to 7, without quotes",
        Key::Address => "an integer from 0 to 126, of a master 0 to hsa, without quotes",
        Key::Place => "an integer from 0 to 255, without quotes",
        Key::At => "an integer from 0, in bit times",
        Key::To => "an integer from 0 to 126, or 127 with the service \"sdn\"",
        Key::Every => "an integer from 1, in bit times, without quotes",
        Key::Count => "an integer from 1, how often in all, without quotes",
        _ => "an integer from 0 to 4294967295, in bit times, without quotes",
    }
}
