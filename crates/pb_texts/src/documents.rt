//! A scenario file by its name, and the lines that name a place in it.

use crate::entries::{Earlier, Entry, Spot, earlier_in, entry_in, header_in, table_in};
use bstr::{BStr, ByteSlice};
use pb_scenario::{Key, Section};
use std::alloc::{AllocError, Global};
use std::fmt::Display;

/// How much of a value is repeated.
const MOST_SHOWN: usize = 60;

/// A scenario file.
#[derive(Clone, Copy)]
pub(crate) struct Document<'a> {
    pub(crate) alloc: Global,
    /// Its name, as people gave it.
    pub(crate) name: &'a str,
    pub(crate) file: &'a [u8],
}

impl<'a> Document<'a> {
    /// A line about a place.
    pub(crate) fn at(&self, spot: Spot, text: impl Display + Drop) -> Result<String, AllocError> {
        let Spot { line, column } = spot;
        format!(in self.alloc; "{}:{line}:{column}: {text}\n", self.name)
    }

    /// A line about no place.
    pub(crate) fn whole(&self, text: impl Display + Drop) -> Result<String, AllocError> {
        format!(in self.alloc; "{}: {text}\n", self.name)
    }

    /// A key with its value, where a line of its own has it.
    pub(crate) fn entry(&self, section: Section, key: Key) -> Option<Entry<'a>> {
        entry_in(self.file, section, key.name())
    }

    /// The place of a key, or of its table.
    pub(crate) fn key(&self, section: Section, key: Key) -> Spot {
        match self.entry(section, key) {
            Some(entry) => entry.key,
            None => self.table(section),
        }
    }

    /// The place of a table.
    pub(crate) fn table(&self, section: Section) -> Spot {
        table_in(self.file, section)
    }

    /// What a key has for its value.
    pub(crate) fn value(&self, section: Section, key: Key) -> Found<'a> {
        match self.entry(section, key) {
            Some(entry) => Found {
                spot: entry.value,
                text: Some(shown(entry.text)),
            },
            None => Found {
                spot: self.table(section),
                text: None,
            },
        }
    }

    /// The place of a key that a table may not have.
    pub(crate) fn unknown(&self, section: Section, key: &str) -> Spot {
        match entry_in(self.file, section, key) {
            Some(entry) => entry.key,
            None if section == Section::Top => {
                header_in(self.file, key).unwrap_or(self.table(section))
            }
            None => self.table(section),
        }
    }

    /// What stands earlier than a line and is the same table or key.
    pub(crate) fn earlier(&self, line: usize) -> Option<Earlier<'a>> {
        earlier_in(self.file, line)
    }

    /// Where a list of tables is written as a single table, if it is.
    pub(crate) fn single_table(&self, section: Section, key: Key) -> Option<Spot> {
        match key {
            Key::Tap | Key::Step if section == Section::Top => header_in(self.file, key.name()),
            _ => None,
        }
    }

    /// Whether the file is of a version whose bus has a cable delay.
    pub(crate) fn has_delay(&self) -> bool {
        self.is_of_version(b"2") || self.has_repeats()
    }

    /// Whether the file is of the version whose steps may repeat.
    pub(crate) fn has_repeats(&self) -> bool {
        self.is_of_version(b"3")
    }

    /// Whether the file says that it is of this version.
    fn is_of_version(&self, version: &[u8]) -> bool {
        match self.entry(Section::Top, Key::Version) {
            Some(entry) => entry.text == version,
            None => false,
        }
    }
}

/// What a file has for the value of a key.
#[derive(Clone, Copy)]
pub(crate) struct Found<'a> {
    /// The place of the value, or of its table.
    pub(crate) spot: Spot,
    /// The value as it is written, if a line has it.
    pub(crate) text: Option<BStr<'a>>,
}

impl<'a> Found<'a> {
    /// The value as it is written, or else these words.
    pub(crate) fn text_or(&self, words: &'a str) -> BStr<'a> {
        match self.text {
            Some(text) => text,
            None => words.as_bytes().as_bstr(),
        }
    }
}

/// As much of a value as is repeated.
fn shown(value: &[u8]) -> BStr<'_> {
    (&value[..value.len().min(MOST_SHOWN)]).as_bstr()
}
