//! Why a file describes no scenario.

use crate::documents::Document;
use crate::entries::{Earlier, Spot, has_unit};
use crate::file_values as values;
use crate::key_hints::{is_known, keys_of, table_name, wanted, words_of};
use crate::near_words::nearest;
use crate::param_hints::broken_rule;
use bstr::{BStr, ByteSlice};
use itertools::Itertools;
use pb_scenario::{Key, Path, ScenarioFault, Section, UnknownKey};
use std::alloc::AllocError;
use toml::Table;

/// What the reader of TOML says where a key or a table stands twice.
const DUPLICATE: &str = "duplicate key";

/// Behind the hint for a file that is no TOML where a bus is wanted: it may be a capture.
const CAPTURE: &str = "; a capture comes on standard input: ringplay monitor BUS.toml <capture.txt";

/// How many steps a file may have.
const MOST_STEPS: usize = 10_000;

/// The hint for a fault of a file.
pub(crate) fn of_file(
    document: &Document<'_>,
    fault: &ScenarioFault,
) -> Result<String, AllocError> {
    let Document { alloc, file, .. } = *document;
    let top = match toml::table_from_slice(alloc, file) {
        Ok(top) => top,
        Err(error) if error.is_memory() => return Err(AllocError),
        Err(error) => return not_toml(document, &error, ""),
    };
    match fault {
        ScenarioFault::NotToml | ScenarioFault::NoMemory => Err(AllocError),
        ScenarioFault::BadVersion => bad_version(document),
        ScenarioFault::Missing(path) => missing(document, &top, *path),
        ScenarioFault::BadKind(path) => bad_value(document, *path),
        ScenarioFault::BadValue(path) => bad_value(document, *path),
        ScenarioFault::Unknown(unknown) => unknown_key(document, unknown),
        ScenarioFault::Twice(path) => twice(document, *path),
        ScenarioFault::NoSuchName(path) => no_such_name(document, &top, *path),
        ScenarioFault::StepOrder(path) => step_order(document, &top, *path),
        ScenarioFault::Params(fault) => broken_rule(document, &top, *fault),
        ScenarioFault::TooMany => too_many(document, &top),
    }
}

/// The hint for a fault of a file that should give a bus to the monitor.
pub(crate) fn of_bus_file(
    document: &Document<'_>,
    fault: &ScenarioFault,
) -> Result<String, AllocError> {
    match (fault, toml::table_from_slice(document.alloc, document.file)) {
        (_, Err(error)) if error.is_memory() => Err(AllocError),
        (ScenarioFault::NotToml, Err(error)) => not_toml(document, &error, CAPTURE),
        _ => of_file(document, fault),
    }
}

/// A file that is no TOML, or no text; `more` ends the line.
fn not_toml(
    document: &Document<'_>,
    error: &toml::de::Error,
    more: &str,
) -> Result<String, AllocError> {
    let start = match error.span() {
        Some(span) => span.start,
        None => 0,
    };
    let (message, spot) = (error.message(), Spot::of(document.file, start));
    if message != DUPLICATE {
        let unit = unit_words(document, spot);
        return document.at(
            spot,
            format_args!("the file is no TOML: {message}{unit}{more}"),
        );
    }
    match document.earlier(spot.line) {
        Some(Earlier::Header { name, spot: first }) => {
            let (name, first) = (name.as_bstr(), first.line);
            document.at(
                spot,
                format_args!(
                    "the file is no TOML: line {first} opens '{name}' too; wanted: [[{name}]] in both, for a list of tables{more}"
                ),
            )
        }
        Some(Earlier::Key { name, spot: first }) => {
            let (name, first) = (name.as_bstr(), first.line);
            document.at(
                spot,
                format_args!(
                    "the file is no TOML: the key '{name}' stands in line {first} too{more}"
                ),
            )
        }
        None => document.at(spot, format_args!("the file is no TOML: {message}{more}")),
    }
}

/// What to do with a unit, if the line of a place has one.
fn unit_words(document: &Document<'_>, spot: Spot) -> &'static str {
    if has_unit(document.file, spot.line) {
        "; wanted: bit times, without a unit"
    } else {
        ""
    }
}

/// A version that this program doesn't know.
fn bad_version(document: &Document<'_>) -> Result<String, AllocError> {
    let found = document.value(Section::Top, Key::Version);
    if document.has_repeats() {
        return document.at(
            found.spot,
            "version 3 is read by stream (its audit by --audit), capture, export, bounds and monitor; wanted here: 1 or 2, without 'every' and 'count'",
        );
    }
    let text = found.text_or("the version");
    document.at(
        found.spot,
        format_args!("version {text} is unknown; wanted: 1, 2 or 3"),
    )
}

/// A key that isn't there: another key of its table may have been meant.
fn missing(document: &Document<'_>, top: &Table, path: Path) -> Result<String, AllocError> {
    let (section, key) = match path {
        Path::Item(section) => return no_table(document, section),
        Path::Key(section, key) => (section, key),
    };
    let (table, wanted) = (table_name(section), wanted(document, section, key));
    if let Some(near) = near_key(document, top, section, key)? {
        return document.at(
            document.unknown(section, near),
            format_args!("unknown key '{near}' in {table} (did you mean '{key}'?)"),
        );
    }
    if key == Key::Ttd {
        return document.at(
            document.table(section),
            "a bus of version 2 or 3 has a cable delay; wanted: ttd = 0 for none, or version = 1",
        );
    }
    document.at(
        document.table(section),
        format_args!("{table} has no key '{key}'; wanted: {wanted}"),
    )
}

/// A key of a table that is near to one that the table wants, and stands nowhere in a scenario.
fn near_key<'a>(
    document: &Document<'_>,
    top: &'a Table,
    section: Section,
    key: Key,
) -> Result<Option<&'a str>, AllocError> {
    let Some(table) = values::table(top, section) else {
        return Ok(None);
    };
    let mut others = Vec::new(document.alloc);
    for other in table.keys() {
        if !is_known(other.as_str()) {
            others.push(other.as_str())?;
        }
    }
    nearest(document.alloc, key.name(), &others)
}

/// An item of a list that is no table.
fn no_table(document: &Document<'_>, section: Section) -> Result<String, AllocError> {
    let table = table_name(section);
    document.at(
        document.table(section),
        format_args!("{section} is no table; wanted: a table {table} for each"),
    )
}

/// A value of another type, or one that stands for nothing.
fn bad_value(document: &Document<'_>, path: Path) -> Result<String, AllocError> {
    let (section, key) = match path {
        Path::Item(section) => return no_table(document, section),
        Path::Key(section, key) => (section, key),
    };
    if let Some(spot) = document.single_table(section, key) {
        return document.at(
            spot,
            format_args!("[{key}] is a single table; wanted: [[{key}]], a list of tables"),
        );
    }
    let wanted = wanted(document, section, key);
    let found = document.value(section, key);
    let near = near_value(document, key, found.text)?;
    match found.text {
        Some(text) => document.at(
            found.spot,
            format_args!("'{key}' is {text}; wanted: {wanted}{near}"),
        ),
        None => document.at(
            found.spot,
            format_args!("'{key}' is no such value; wanted: {wanted}"),
        ),
    }
}

/// The word that was probably meant, for a key that has one of some words.
fn near_value(
    document: &Document<'_>,
    key: Key,
    text: Option<BStr<'_>>,
) -> Result<String, AllocError> {
    let words = words_of(key);
    let word = match text {
        Some(text) => unquoted(text.as_bytes()),
        None => "",
    };
    suggestion(document, word, words)
}

/// A key that the table may not have.
fn unknown_key(document: &Document<'_>, unknown: &UnknownKey) -> Result<String, AllocError> {
    let UnknownKey { section, key } = unknown;
    let deed = match document.entry(*section, Key::Do) {
        Some(entry) => entry.text,
        None => b"",
    };
    if *section == Section::Bus && key.as_str() == Key::Ttd.name() {
        return document.at(
            document.unknown(*section, key.as_str()),
            "a bus of version 1 has no cable delay 'ttd'; write version = 2",
        );
    }
    if let Some(why) = no_repeat(document, *section, key.as_str()) {
        return document.at(document.unknown(*section, key.as_str()), why);
    }
    let keys = keys_of(*section, document, deed);
    let near = suggestion(document, key.as_str(), keys)?;
    let (table, allowed) = (
        table_name(*section),
        keys.iter().join(document.alloc, ", ")?,
    );
    document.at(
        document.unknown(*section, key.as_str()),
        format_args!("unknown key '{key}' in {table}{near}; allowed: {allowed}"),
    )
}

/// Why the table of a step may not have a key with which steps repeat; `None` for another table or key.
fn no_repeat(document: &Document<'_>, section: Section, key: &str) -> Option<&'static str> {
    let is_of_repeats = key == Key::Every.name() || key == Key::Count.name();
    match section {
        Section::Step(_) if is_of_repeats => Some(if document.has_repeats() {
            "'count' says how often a step repeats; wanted: 'every' too, after how many bit times"
        } else {
            "a step repeats in version 3 alone, which stream, capture, export, bounds and monitor read; write version = 3"
        }),
        _ => None,
    }
}

/// A name that another tap has.
fn twice(document: &Document<'_>, path: Path) -> Result<String, AllocError> {
    let (section, key) = match path {
        Path::Item(section) => (section, Key::Name),
        Path::Key(section, key) => (section, key),
    };
    let found = document.value(section, key);
    let text = found.text_or("it");
    document.at(
        found.spot,
        format_args!("an earlier tap has the name {text}; each tap wants a name of its own"),
    )
}

/// A name that no tap has.
fn no_such_name(document: &Document<'_>, top: &Table, path: Path) -> Result<String, AllocError> {
    let (section, key) = match path {
        Path::Item(section) => (section, Key::Tap),
        Path::Key(section, key) => (section, key),
    };
    let found = document.value(section, key);
    let text = found.text_or("that name");
    let word = match found.text {
        Some(text) => unquoted(text.as_bytes()),
        None => "",
    };
    let names = values::names(document.alloc, top)?;
    let near = suggestion(document, word, &names)?;
    let names = names.iter().join(document.alloc, ", ")?;
    document.at(
        found.spot,
        format_args!("no tap has the name {text}{near}; the taps are: {names}"),
    )
}

/// A step that stands before the step before it.
fn step_order(document: &Document<'_>, top: &Table, path: Path) -> Result<String, AllocError> {
    let place = match path {
        Path::Item(Section::Step(place)) | Path::Key(Section::Step(place), _) => place,
        _ => 0,
    };
    let at = |step| values::integer(top, Section::Step(step), Key::At);
    let found = document.value(Section::Step(place), Key::At);
    match (at(place), at(place.saturating_sub(1))) {
        (Some(this), Some(before)) => document.at(
            found.spot,
            format_args!(
                "this step is at {this}, the one before it at {before}; steps stand in order of time"
            ),
        ),
        _ => document.at(found.spot, "steps stand in order of time"),
    }
}

/// More taps or steps than a file may have.
fn too_many(document: &Document<'_>, top: &Table) -> Result<String, AllocError> {
    let taps = values::length(top, Key::Tap);
    let most = if document.has_delay() { 127 } else { 32 };
    if taps > most {
        let more = if most == 32 {
            " (127 in version 2)"
        } else {
            ""
        };
        return document.at(
            document.table(Section::Tap(most)),
            format_args!("there are {taps} taps; wanted: at most {most}{more}"),
        );
    }
    let steps = values::length(top, Key::Step);
    document.at(
        document.table(Section::Step(MOST_STEPS)),
        format_args!("there are {steps} steps; wanted: at most {MOST_STEPS}"),
    )
}

/// The words that offer the nearest of some words, if one is near.
fn suggestion(document: &Document<'_>, word: &str, words: &[&str]) -> Result<String, AllocError> {
    match nearest(document.alloc, word, words)? {
        Some(near) => format!(in document.alloc; " (did you mean '{near}'?)"),
        None => Ok(String::new(document.alloc)),
    }
}

/// A text without its quotes; nothing where it isn't text.
fn unquoted(text: &[u8]) -> &str {
    let inner = match text {
        [b'"', inner @ .., b'"'] => inner,
        _ => text,
    };
    inner.to_str().unwrap_or("")
}
