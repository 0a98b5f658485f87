//! A trace as a capture file with comments (pcapng).

ghost use Rattle.std.specs.Prelude.{◌≡◌, ◌<◌, ◌≤◌, ◌++◌, OnOk, length, map};
ghost use Rattle.pb_medium.specs.Entries.{entry_of, record_of};
ghost use Rattle.pb_export.specs.Windows.{if_shown, shown_in};
ghost use Rattle.pb_export.specs.Pcapng as pcapng;

use crate::names::name_of;
use crate::options::{Link, Window};
use crate::pieces::{Piece, push_pieces};
use crate::saying::sent_octets;
use crate::times::nanos;
use crate::words::heard_letter;
use pb_scenario::{Entry, Scenario};
use pb_world::{Reception, Record};
use std::alloc::{AllocError, Global};

/// The most octets of a comment, so that its length fits its field.
pub(crate) const LONGEST_COMMENT: usize = 65_535;

/// Appends a trace as a pcapng file with one interface: a packet for each telegram that is shown, at the moment of its
/// begin in nanoseconds, with a comment. Its octets are those that were sent, and its original length counts them. Noise
/// has no packet.
///
/// Fault: memory was refused.
pub fn push_pcapng(
    file: &mut Vec<u8>,
    alloc: Global,
    scenario: &Scenario,
    entries: &[Entry],
    window: Window,
    baud: u32,
    link: Link,
) -> Result<(), AllocError>
    requires { 0 < baud }
    ensures { OnOk result (file.new.items
        ≡ file.old.items ++ pcapng.pcapng_file baud link window scenario.now (map entry_of entries.now)) }
{
    push_section(file)?;
    push_interface(file, baud, link)?;
    push_entries(file, alloc, scenario, entries, window, baud)
}

/// Appends the blocks of the entries that are shown.
pub(crate) fn push_entries(
    file: &mut Vec<u8>,
    alloc: Global,
    scenario: &Scenario,
    entries: &[Entry],
    window: Window,
    baud: u32,
) -> Result<(), AllocError>
    requires { 0 < baud }
    ensures { OnOk result (file.new.items ≡ file.old.items
        ++ shown_in window (pcapng.entry_block baud scenario.now) (map entry_of entries.now)) }
{
    for entry in entries {
        push_shown(file, alloc, scenario, entry, window, baud)?;
    }
    Ok(())
}

/// Appends the block of an entry, if it is shown.
fn push_shown(
    file: &mut Vec<u8>,
    alloc: Global,
    scenario: &Scenario,
    entry: &Entry,
    window: Window,
    baud: u32,
) -> Result<(), AllocError>
    requires { 0 < baud }
    ensures { OnOk result (file.new.items
        ≡ file.old.items ++ if_shown window (pcapng.entry_block baud scenario.now) (entry_of entry.now)) }
{
    if window.shows(entry) {
        push_entry(file, alloc, scenario, entry, baud)
    } else {
        Ok(())
    }
}

/// Appends the block of the section: version 1.0, of a length that is not said, by `ringplay`.
pub(crate) fn push_section(file: &mut Vec<u8>) -> Result<(), AllocError>
    ensures { OnOk result (file.new.items ≡ file.old.items ++ pcapng.section) }
{
    push_pieces(
        file,
        &[
            Piece::Word(0x0a0d_0d0a),
            Piece::Word(44),
            Piece::Word(0x1a2b_3c4d),
            Piece::Half(1),
            Piece::Half(0),
            Piece::Word(0xffff_ffff),
            Piece::Word(0xffff_ffff),
            Piece::Half(4),
            Piece::Half(8),
            Piece::Text(b"ringplay"),
            Piece::Word(0),
            Piece::Word(44),
        ],
    )
}

/// Appends the block of the interface: its name, its speed, and that times are in nanoseconds.
pub(crate) fn push_interface(file: &mut Vec<u8>, baud: u32, link: Link) -> Result<(), AllocError>
    ensures { OnOk result (file.new.items ≡ file.old.items ++ pcapng.interface baud link) }
{
    push_pieces(
        file,
        &[
            Piece::Word(1),
            Piece::Word(52),
            Piece::Half(u64::from(link.number())),
            Piece::Half(0),
            Piece::Word(65_535),
            Piece::Half(2),
            Piece::Half(3),
            Piece::Text(b"bus\0"),
            Piece::Half(8),
            Piece::Half(8),
            Piece::Word(u64::from(baud)),
            Piece::Word(0),
            Piece::Half(9),
            Piece::Half(1),
            Piece::Word(9),
            Piece::Word(0),
            Piece::Word(52),
        ],
    )
}

/// Appends the block of an entry, if it is a telegram.
fn push_entry(
    file: &mut Vec<u8>,
    alloc: Global,
    scenario: &Scenario,
    entry: &Entry,
    baud: u32,
) -> Result<(), AllocError>
    requires { 0 < baud }
    ensures { OnOk result (file.new.items
        ≡ file.old.items ++ pcapng.entry_block baud scenario.now (entry_of entry.now)) }
{
    match entry {
        Entry::Sent(telegram) => push_packet(file, alloc, scenario, telegram, baud),
        Entry::Noise { .. } => Ok(()),
    }
}

/// Appends the block of a telegram.
fn push_packet(
    file: &mut Vec<u8>,
    alloc: Global,
    scenario: &Scenario,
    telegram: &Record,
    baud: u32,
) -> Result<(), AllocError>
    requires { 0 < baud }
    ensures { OnOk result (file.new.items
        ≡ file.old.items ++ pcapng.packet_block baud scenario.now (record_of telegram.now)) }
{
    let mut comment = Vec::new(alloc);
    push_comment(&mut comment, scenario, telegram)?;
    let comment = &comment[..comment.len().min(LONGEST_COMMENT)];
    let octets = sent_octets(telegram);
    let count = octets.len() as u64;
    push_block(file, nanos(baud, telegram.begin), comment, octets, count)
}

/// Appends the comment of a telegram: when it began in bit times, who sent it, and how it reached each tap.
fn push_comment(
    text: &mut Vec<u8>,
    scenario: &Scenario,
    telegram: &Record,
) -> Result<(), AllocError>
    ensures { OnOk result (text.new.items
        ≡ text.old.items ++ pcapng.comment_text scenario.now (record_of telegram.now)) }
{
    push_pieces(
        text,
        &[
            Piece::Text(b"begin "),
            Piece::Number(telegram.begin),
            Piece::Text(b", sent by "),
            Piece::Text(name_of(scenario, telegram.tap)),
            Piece::Text(b", heard "),
        ],
    )?;
    push_letters(text, &telegram.heard)
}

/// Appends a letter for each tap, as the text of a trace has it.
fn push_letters(text: &mut Vec<u8>, heard: &Reception) -> Result<(), AllocError>
    ensures { OnOk result (text.new.items ≡ text.old.items ++ pcapng.letters heard.now) }
{
    for tap in 0..heard.len() {
        text.extend_from_slice(heard_letter(heard.at(tap)))?;
    }
    Ok(())
}

/// Appends the block of some octets with a comment, at a moment in nanoseconds; `count` is how many octets there were.
pub(crate) fn push_block<'a>(
    file: &mut Vec<u8>,
    at: u64,
    comment: &'a [u8],
    octets: &'a [u8],
    count: u64,
) -> Result<(), AllocError>
    requires comment { length comment.now ≤ 65535 }
    requires octets { length octets.now ≤ 256 }
    ensures { OnOk result (file.new.items
        ≡ file.old.items ++ pcapng.block at comment.now octets.now count) }
{
    let length = 40 + padded(octets.len()) + padded(comment.len());
    push_pieces(
        file,
        &[
            Piece::Word(6),
            Piece::Word(length as u64),
            Piece::Word(0),
            Piece::Word(at / 4_294_967_296),
            Piece::Word(at),
            Piece::Word(octets.len() as u64),
            Piece::Word(count),
            Piece::Text(octets),
            Piece::Text(padding(octets.len())),
            Piece::Half(1),
            Piece::Half(comment.len() as u64),
            Piece::Text(comment),
            Piece::Text(padding(comment.len())),
            Piece::Word(0),
            Piece::Word(length as u64),
        ],
    )
}

/// How long so many octets are with their padding, a multiple of four.
fn padded(length: usize) -> usize
    requires { length < 4294967296 }
    ensures value { result ≡ pcapng.padded length }
    ensures short { result < 4294967300 }
{
    (length + 3) / 4 * 4
}

/// The padding of so many octets.
fn padding(length: usize) -> &'static [u8]
    ensures { result.now ≡ pcapng.padding length }
{
    match length % 4 {
        0 => b"",
        1 => b"\0\0\0",
        2 => b"\0\0",
        _ => b"\0",
    }
}
