//! The text of a trace.

ghost use Rattle.std.specs.Prelude.{◌≡◌, ◌++◌, OnOk, IfOk, [], codes, map, slice_index_or};
ghost use Rattle.hex.specs.Hex.{encode_lower};
ghost use Rattle.pb_medium.specs.Entries.{entry_of, heard_of};
ghost use Rattle.pb_scenario.specs.Lines.{line_of, record_line};
ghost use Rattle.pb_scenario.specs.Texts.{entries_text, letter_of, span_text};

use crate::scenarios::Scenario;
use arrayvec::ArrayVec;
use itoa::{Buffer, Integer};
use pb_faults::NoMemory;
use pb_medium::{Entry, Heard, Reception, Record};
use std::alloc::{AllocError, Global};

/// The most octets of a telegram.
const LONGEST: usize = 255;

/// The text of a trace, with a line for each entry: begin and end, the name of the tap that sent it, its octets, and a
/// letter for each tap for how the telegram reached it; or begin, end and `~ noise`. The entries' taps are those of the
/// scenario; any other tap has no name.
///
/// Fault: `NoMemory` if memory was refused.
pub fn trace_text(
    alloc: Global,
    scenario: &Scenario,
    entries: &[Entry],
) -> Result<Vec<u8>, NoMemory>
    ensures { IfOk result (λ text. text.items ≡ entries_text scenario.now.names (map entry_of entries.now)) }
{
    let mut text = Vec::new(alloc);
    push_trace(&mut text, scenario, entries)?;
    Ok(text)
}

/// Appends the text of a trace, as [`trace_text`] returns it.
///
/// Fault: memory was refused.
pub fn push_trace(
    text: &mut Vec<u8>,
    scenario: &Scenario,
    entries: &[Entry],
) -> Result<(), AllocError>
    ensures { OnOk result
        (text.new.items ≡ text.old.items ++ entries_text scenario.now.names (map entry_of entries.now)) }
{
    for entry in entries {
        push_entry(text, scenario, entry)?;
    }
    Ok(())
}

/// Appends a number in decimal digits.
pub fn push_number<N: Integer>(text: &mut Vec<u8>, number: N) -> Result<(), AllocError>
    ensures { OnOk result (text.new.items ≡ text.old.items ++ N.text number) }
{
    text.extend_from_slice(Buffer::new().format(number).as_bytes())
}

/// Appends the line of an entry.
fn push_entry(text: &mut Vec<u8>, scenario: &Scenario, entry: &Entry) -> Result<(), AllocError>
    ensures { OnOk result (text.new.items ≡ text.old.items ++ line_of scenario.now entry.now) }
{
    match entry {
        Entry::Sent(telegram) => push_record(text, scenario, telegram),
        Entry::Noise { begin, end } => {
            push_span(text, *begin, *end)?;
            text.extend_from_slice(b"~ noise\n")
        }
    }
}

/// Appends the line of a telegram.
fn push_record(text: &mut Vec<u8>, scenario: &Scenario, telegram: &Record) -> Result<(), AllocError>
    ensures { OnOk result (text.new.items ≡ text.old.items ++ record_line scenario.now telegram.now) }
{
    push_span(text, telegram.begin, telegram.end)?;
    push_name(text, scenario, telegram.tap)?;
    text.extend_from_slice(b" ")?;
    push_octets(text, &telegram.octets)?;
    text.extend_from_slice(b" ")?;
    push_letters(text, &telegram.heard)?;
    text.extend_from_slice(b"\n")
}

/// Appends the name of a tap; nothing if the scenario has no such tap.
fn push_name(text: &mut Vec<u8>, scenario: &Scenario, tap: usize) -> Result<(), AllocError>
    ensures { OnOk result (text.new.items ≡ text.old.items ++ slice_index_or scenario.now.names tap []) }
{
    if tap < scenario.taps().len() {
        text.extend_from_slice(scenario.name(tap).as_bytes())
    } else {
        Ok(())
    }
}

/// Appends begin and end, each followed by a space.
fn push_span(text: &mut Vec<u8>, begin: u64, end: u64) -> Result<(), AllocError>
    ensures { OnOk result (text.new.items ≡ text.old.items ++ span_text begin end) }
{
    push_number(text, begin)?;
    text.extend_from_slice(b" ")?;
    push_number(text, end)?;
    text.extend_from_slice(b" ")
}

/// Appends the octets of a telegram, each as two lower-case hex digits.
fn push_octets(text: &mut Vec<u8>, octets: &ArrayVec<u8, 255>) -> Result<(), AllocError>
    ensures { OnOk result (text.new.items ≡ text.old.items ++ encode_lower octets.now.items) }
{
    let mut room = [0; 2 * LONGEST];
    let digits = &mut room[..2 * octets.len()];
    hex::encode_to_slice(octets.as_slice(), digits).unwrap();
    text.extend_from_slice(digits)
}

/// Appends a letter for each tap: how the telegram reached it.
fn push_letters(text: &mut Vec<u8>, heard: &Reception) -> Result<(), AllocError>
    ensures { OnOk result (text.new.items ≡ text.old.items ++ map letter_of heard.now) }
{
    for tap in 0..heard.len() {
        text.push(letter(heard.at(tap)))?;
    }
    Ok(())
}

/// The letter for how a telegram reached a tap.
fn letter(heard: Heard) -> u8
    ensures { result ≡ letter_of (heard_of heard) }
{
    match heard {
        Heard::Own => b'-',
        Heard::Whole => b'w',
        Heard::Damaged => b'd',
        Heard::Unheard => b'u',
        Heard::Pending => b'.',
    }
}
