//! What a file's table has, for hints that name numbers and names.

use pb_scenario::{Key, Section};
use std::alloc::{AllocError, Global};
use toml::{Table, Value};

/// The integer of a key in a table.
pub(crate) fn integer(top: &Table, section: Section, key: Key) -> Option<i64> {
    table(top, section)?.get(key.name())?.as_integer()
}

/// A table of the file.
pub(crate) fn table(top: &Table, section: Section) -> Option<&Table> {
    match section {
        Section::Top => Some(top),
        Section::Bus => top.get(Key::Bus.name())?.as_table(),
        Section::Tap(tap) => items(top, Key::Tap)?.get(tap)?.as_table(),
        Section::Step(step) => items(top, Key::Step)?.get(step)?.as_table(),
    }
}

/// How many items a list has.
pub(crate) fn length(top: &Table, list: Key) -> usize {
    match items(top, list) {
        Some(items) => items.len(),
        None => 0,
    }
}

/// The items of a list.
fn items(top: &Table, list: Key) -> Option<&[Value]> {
    let list = top.get(list.name())?.as_array()?;
    Some(list.as_slice())
}

/// The names of the taps, as far as they are texts.
pub(crate) fn names(alloc: Global, top: &Table) -> Result<Vec<&str>, AllocError> {
    let mut names = Vec::new(alloc);
    for tap in items(top, Key::Tap).unwrap_or(&[]) {
        if let Some(name) = name_of(tap) {
            names.push(name)?;
        }
    }
    Ok(names)
}

/// The name of a tap, if it is a text.
fn name_of(tap: &Value) -> Option<&str> {
    tap.as_table()?.get(Key::Name.name())?.as_str()
}
