//! Where tables and keys stand in a scenario file, found line by line.

use bstr::ByteSlice;
use pb_scenario::Section;

/// The keys whose values are bit times.
const DURATIONS: [&str; 11] = [
    "until", "tsl", "tid1", "tid2", "tsdr", "lag", "ttr", "ttd", "at", "bits", "every",
];

/// A place in a file.
#[derive(Clone, Copy, Debug, PartialEq, Eq)]
pub(crate) struct Spot {
    /// The line, from 1.
    pub(crate) line: usize,
    /// The octet of the line, from 1.
    pub(crate) column: usize,
}

impl Spot {
    /// The place of an octet of a file.
    pub(crate) fn of(file: &[u8], octet: usize) -> Spot {
        let before = &file[..octet.min(file.len())];
        let line = before.iter().filter(|octet| **octet == b'\n').count();
        let column = match before.rfind_byte(b'\n') {
            Some(end) => before.len().saturating_sub(end),
            None => before.len().saturating_add(1),
        };
        Spot {
            line: line.saturating_add(1),
            column,
        }
    }
}

/// A key and its value, as a line has them.
#[derive(Clone, Copy)]
pub(crate) struct Entry<'a> {
    /// Where the key stands.
    pub(crate) key: Spot,
    /// Where the value stands.
    pub(crate) value: Spot,
    /// The value, without a comment.
    pub(crate) text: &'a [u8],
}

/// A key of a table, where a line of its own has it.
pub(crate) fn entry_in<'a>(file: &'a [u8], section: Section, key: &str) -> Option<Entry<'a>> {
    let mut tables = Tables::new();
    for line in file.lines() {
        tables.read(line);
        if tables.open == Some(section)
            && let Some(entry) = entry_of(tables.line, line, key.as_bytes())
        {
            return Some(entry);
        }
    }
    None
}

/// The line of a table's name; for a table within a value, that of the value's key; else the first line.
pub(crate) fn table_in(file: &[u8], section: Section) -> Spot {
    let mut tables = Tables::new();
    for line in file.lines() {
        if tables.read(line) && tables.open == Some(section) {
            return Spot {
                line: tables.line,
                column: indent(line).saturating_add(1),
            };
        }
    }
    let key = match section {
        Section::Top => return Spot { line: 1, column: 1 },
        Section::Bus => "bus",
        Section::Tap(_) => "tap",
        Section::Step(_) => "step",
    };
    match entry_in(file, Section::Top, key) {
        Some(entry) => entry.key,
        None => Spot { line: 1, column: 1 },
    }
}

/// The line that opens a table or a list of tables of the whole file, by its name.
pub(crate) fn header_in(file: &[u8], name: &str) -> Option<Spot> {
    for (line, text) in file.lines().enumerate() {
        if header_of(text) == Some(name.as_bytes()) {
            return Some(Spot {
                line: line.saturating_add(1),
                column: indent(text).saturating_add(1),
            });
        }
    }
    None
}

/// What stands in an earlier line too.
#[derive(Clone, Copy)]
pub(crate) enum Earlier<'a> {
    /// The name of a table.
    Header { name: &'a [u8], spot: Spot },
    /// A key of the same table.
    Key { name: &'a [u8], spot: Spot },
}

/// The table or the key of a line, where an earlier line has it too.
pub(crate) fn earlier_in<'a>(file: &'a [u8], line: usize) -> Option<Earlier<'a>> {
    let text = file.lines().nth(line.checked_sub(1)?)?;
    let mut found = None;
    for (before, other) in file.lines().take(line.saturating_sub(1)).enumerate() {
        let spot = Spot {
            line: before.saturating_add(1),
            column: indent(other).saturating_add(1),
        };
        match (header_of(text), header_of(other)) {
            (Some(name), Some(earlier)) if name == earlier => {
                return Some(Earlier::Header { name, spot });
            }
            // A key stands twice where no table is opened between.
            (None, Some(_)) => found = None,
            (None, None) => {
                if let Some((name, _)) = text.split_once_str(b"=")
                    && let Some((earlier, _)) = other.split_once_str(b"=")
                    && bare(name) == bare(earlier)
                {
                    found = Some(Earlier::Key {
                        name: bare(name),
                        spot,
                    });
                }
            }
            _ => {}
        }
    }
    found
}

/// Whether a line gives a duration with a unit.
pub(crate) fn has_unit(file: &[u8], line: usize) -> bool {
    let Some(text) = file.lines().nth(line.saturating_sub(1)) else {
        return false;
    };
    match text.split_once_str(b"=") {
        Some((name, value)) => {
            let name = bare(name);
            let is_duration = DURATIONS.iter().any(|key| name == key.as_bytes());
            is_duration && is_number_with_unit(without_comment(value.trim_start()))
        }
        None => false,
    }
}

/// Whether a value is digits with letters behind them.
fn is_number_with_unit(value: &[u8]) -> bool {
    let is_of_number = |octet: &u8| octet.is_ascii_digit() || *octet == b'_' || *octet == b'.';
    let digits = value.iter().take_while(|octet| is_of_number(octet)).count();
    let unit = (&value[digits.min(value.len())..]).trim_start();
    match unit {
        [first, ..] => digits > 0 && (first.is_ascii_alphabetic() || *first >= 128),
        [] => false,
    }
}

/// The name of the table, or of the list of tables, that a line opens.
fn header_of(line: &[u8]) -> Option<&[u8]> {
    let rest = line.trim().strip_prefix(b"[")?;
    let (inner, _) = rest.split_once_str(b"]")?;
    Some(bare(inner.strip_prefix(b"[").unwrap_or(inner)))
}

/// The tables of a file, as its lines open them.
#[derive(Drop)]
struct Tables {
    /// How many lines were read.
    line: usize,
    /// The table that is open, if it is one of a scenario.
    open: Option<Section>,
    taps: usize,
    steps: usize,
}

impl Tables {
    fn new() -> Tables {
        Tables {
            line: 0,
            open: Some(Section::Top),
            taps: 0,
            steps: 0,
        }
    }

    /// Reads the next line. Answers whether it opens a table.
    fn read(&mut self, line: &[u8]) -> bool {
        self.line = self.line.saturating_add(1);
        if !line.trim().starts_with_str(b"[") {
            return false;
        }
        self.open = if is_header(line, b"[bus]") {
            Some(Section::Bus)
        } else if is_header(line, b"[[tap]]") {
            Some(Section::Tap(count(&mut self.taps)))
        } else if is_header(line, b"[[step]]") {
            Some(Section::Step(count(&mut self.steps)))
        } else {
            None
        };
        true
    }
}

/// What a count was before one more.
fn count(items: &mut usize) -> usize {
    let item = *items;
    *items = item.saturating_add(1);
    item
}

/// Whether a line opens a table, whatever blanks and quotes it has, and whatever comment.
fn is_header(line: &[u8], header: &[u8]) -> bool {
    let text = match line.split_once_str(b"#") {
        Some((text, _)) => text,
        None => line,
    };
    text.iter()
        .filter(|octet| !octet.is_ascii_whitespace() && **octet != b'"')
        .eq(header.iter())
}

/// A line as a key with its value, where it has this key.
fn entry_of<'a>(number: usize, line: &'a [u8], key: &[u8]) -> Option<Entry<'a>> {
    let (name, value) = line.split_once_str(b"=")?;
    if bare(name) != key {
        return None;
    }
    let text = value.trim_start();
    Some(Entry {
        key: Spot {
            line: number,
            column: indent(line).saturating_add(1),
        },
        value: Spot {
            line: number,
            column: line.len().saturating_sub(text.len()).saturating_add(1),
        },
        text: without_comment(text),
    })
}

/// A key without blanks around it, and without its quotes.
fn bare(name: &[u8]) -> &[u8] {
    let name = name.trim();
    match name {
        [b'"', inner @ .., b'"'] => inner,
        _ => name,
    }
}

/// How many blanks a line begins with.
fn indent(line: &[u8]) -> usize {
    line.len().saturating_sub(line.trim_start().len())
}

/// A value without the comment behind it: of a text, up to the quote that ends it.
fn without_comment(value: &[u8]) -> &[u8] {
    let end = match value {
        [quote @ (b'"' | b'\''), rest @ ..] => rest
            .find_byte(*quote)
            .map(|end| end.saturating_add(2)),
        _ => value.find_byte(b'#'),
    };
    match end {
        Some(end) => (&value[..end.min(value.len())]).trim(),
        None => value.trim(),
    }
}
