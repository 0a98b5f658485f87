//! A trace as a capture file (pcap), with nanoseconds.

ghost use Rattle.std.specs.Prelude.{◌≡◌, ◌<◌, ◌++◌, OnOk, map};
ghost use Rattle.pb_medium.specs.Entries.{entry_of, record_of};
ghost use Rattle.pb_export.specs.Windows.{if_shown, shown_in};
ghost use Rattle.pb_export.specs.Pcap as pcap;

use crate::options::{Link, Window};
use crate::pieces::{Piece, push_pieces};
use crate::saying::sent_octets;
use crate::times::{SECOND, nanos};
use pb_scenario::Entry;
use pb_world::Record;
use std::alloc::AllocError;

/// The first word of a file with nanoseconds.
const MAGIC: u64 = 0xa1b2_3c4d;

/// The most octets of a packet that a file may have.
const LONGEST_PACKET: u64 = 65_535;

/// Appends a trace as a pcap file: a packet for each telegram that is shown, at the moment of its begin. Its octets are
/// those that were sent, and its original length counts them. Noise has no packet.
///
/// Fault: memory was refused.
pub fn push_pcap(
    file: &mut Vec<u8>,
    entries: &[Entry],
    window: Window,
    baud: u32,
    link: Link,
) -> Result<(), AllocError>
    requires { 0 < baud }
    ensures { OnOk result (file.new.items
        ≡ file.old.items ++ pcap.pcap_file baud link window (map entry_of entries.now)) }
{
    push_header(file, link)?;
    push_entries(file, entries, window, baud)
}

/// Appends the packets of the entries that are shown.
pub(crate) fn push_entries(
    file: &mut Vec<u8>,
    entries: &[Entry],
    window: Window,
    baud: u32,
) -> Result<(), AllocError>
    requires { 0 < baud }
    ensures { OnOk result (file.new.items
        ≡ file.old.items ++ shown_in window (pcap.entry_packet baud) (map entry_of entries.now)) }
{
    for entry in entries {
        push_shown(file, entry, window, baud)?;
    }
    Ok(())
}

/// Appends the packet of an entry, if it is shown.
fn push_shown(
    file: &mut Vec<u8>,
    entry: &Entry,
    window: Window,
    baud: u32,
) -> Result<(), AllocError>
    requires { 0 < baud }
    ensures { OnOk result (file.new.items
        ≡ file.old.items ++ if_shown window (pcap.entry_packet baud) (entry_of entry.now)) }
{
    if window.shows(entry) {
        push_entry(file, entry, baud)
    } else {
        Ok(())
    }
}

/// Appends the header: version 2.4, times in UTC.
pub(crate) fn push_header(file: &mut Vec<u8>, link: Link) -> Result<(), AllocError>
    ensures { OnOk result (file.new.items ≡ file.old.items ++ pcap.header link) }
{
    push_pieces(
        file,
        &[
            Piece::Word(MAGIC),
            Piece::Half(2),
            Piece::Half(4),
            Piece::Word(0),
            Piece::Word(0),
            Piece::Word(LONGEST_PACKET),
            Piece::Word(u64::from(link.number())),
        ],
    )
}

/// Appends the packet of an entry, if it is a telegram.
fn push_entry(file: &mut Vec<u8>, entry: &Entry, baud: u32) -> Result<(), AllocError>
    requires { 0 < baud }
    ensures { OnOk result (file.new.items ≡ file.old.items ++ pcap.entry_packet baud (entry_of entry.now)) }
{
    match entry {
        Entry::Sent(telegram) => push_packet(file, telegram, baud),
        Entry::Noise { .. } => Ok(()),
    }
}

/// Appends the packet of a telegram.
fn push_packet(file: &mut Vec<u8>, telegram: &Record, baud: u32) -> Result<(), AllocError>
    requires { 0 < baud }
    ensures { OnOk result (file.new.items ≡ file.old.items ++ pcap.packet baud (record_of telegram.now)) }
{
    let octets = sent_octets(telegram);
    let count = octets.len() as u64;
    push_octets(file, nanos(baud, telegram.begin), octets, count)
}

/// Appends the packet of some octets at a moment in nanoseconds; `count` is how many there were.
pub(crate) fn push_octets(
    file: &mut Vec<u8>,
    at: u64,
    octets: &[u8],
    count: u64,
) -> Result<(), AllocError>
    ensures { OnOk result (file.new.items ≡ file.old.items ++ pcap.packet_of at octets.now count) }
{
    push_pieces(
        file,
        &[
            Piece::Word(at / SECOND),
            Piece::Word(at % SECOND),
            Piece::Word(octets.len() as u64),
            Piece::Word(count),
            Piece::Text(octets),
        ],
    )
}
