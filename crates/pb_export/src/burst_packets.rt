//! A burst of a capture as a packet, in pcap or, with a comment, in pcapng.

ghost use Rattle.std.specs.Prelude.{◌≡◌, ◌<◌, ◌≤◌, ◌++◌, OnOk, length};
ghost use Rattle.pb_export.specs.BurstPackets as packets;

use crate::bursts::{is_damaged, known_octets, push_address};
use crate::pcap::push_octets;
use crate::pcapng::{LONGEST_COMMENT, push_block};
use crate::pieces::{Piece, push_pieces};
use crate::times::nanos;
use pb_monitor::{Alarm, HeardBurst, Holder};
use std::alloc::{AllocError, Global};

/// Appends the packet of a burst to a pcap file: its octets before the first damaged character, at the moment of its
/// begin. The original length counts all characters. Without such an octet there is no packet.
pub(crate) fn push_burst_packet(
    file: &mut Vec<u8>,
    burst: &HeardBurst,
    baud: u32,
) -> Result<(), AllocError>
    requires { 0 < baud }
    ensures { OnOk result (file.new.items ≡ file.old.items ++ packets.burst_packet baud burst.now) }
{
    push_packet_in(file, burst, &known_octets(&burst.chars), baud)
}

/// Appends the packet of a burst of which some octets are known.
fn push_packet_in(
    file: &mut Vec<u8>,
    burst: &HeardBurst,
    octets: &[u8],
    baud: u32,
) -> Result<(), AllocError>
    requires { 0 < baud }
    ensures { OnOk result (file.new.items
        ≡ file.old.items ++ packets.packet_in baud burst.now octets.now) }
{
    if octets.len() == 0 {
        return Ok(());
    }
    push_octets(file, nanos(baud, burst.begin), octets, burst.count)
}

/// Appends the same as a block with a comment to a pcapng file.
pub(crate) fn push_burst_block(
    file: &mut Vec<u8>,
    alloc: Global,
    burst: &HeardBurst,
    baud: u32,
) -> Result<(), AllocError>
    requires { 0 < baud }
    ensures { OnOk result (file.new.items ≡ file.old.items ++ packets.burst_block baud burst.now) }
{
    push_block_in(file, alloc, burst, &known_octets(&burst.chars), baud)
}

/// Appends the block of a burst of which some octets are known.
fn push_block_in(
    file: &mut Vec<u8>,
    alloc: Global,
    burst: &HeardBurst,
    octets: &[u8],
    baud: u32,
) -> Result<(), AllocError>
    requires baud { 0 < baud }
    requires few { length octets.now ≤ 256 }
    ensures { OnOk result (file.new.items
        ≡ file.old.items ++ packets.block_in baud burst.now octets.now) }
{
    if octets.len() == 0 {
        return Ok(());
    }
    push_known_block(file, alloc, burst, octets, baud)
}

/// Appends the block of these octets of a burst.
fn push_known_block(
    file: &mut Vec<u8>,
    alloc: Global,
    burst: &HeardBurst,
    octets: &[u8],
    baud: u32,
) -> Result<(), AllocError>
    requires baud { 0 < baud }
    requires few { length octets.now ≤ 256 }
    ensures { OnOk result (file.new.items
        ≡ file.old.items ++ packets.known_block baud burst.now octets.now) }
{
    let mut comment = Vec::new(alloc);
    push_comment(&mut comment, burst)?;
    let comment = &comment[..comment.len().min(LONGEST_COMMENT)];
    push_block(file, nanos(baud, burst.begin), comment, octets, burst.count)
}

/// Appends the comment of a burst: when it began in bit times, whether it is damaged, who may send tokens and requests
/// behind it, and its alarm.
fn push_comment(text: &mut Vec<u8>, burst: &HeardBurst) -> Result<(), AllocError>
    ensures { OnOk result (text.new.items ≡ text.old.items ++ packets.comment_text burst.now) }
{
    push_pieces(
        text,
        &[
            Piece::Text(b"begin "),
            Piece::Number(burst.begin),
            Piece::Text(damage_words(is_damaged(&burst.chars))),
        ],
    )?;
    push_holder(text, burst.holder)?;
    push_alarm(text, burst.alarm)
}

/// The words for damage, if there is any.
fn damage_words(is_damaged: bool) -> &'static [u8]
    ensures { result.now ≡ packets.damage_words is_damaged }
{
    if is_damaged { b", damaged" } else { b"" }
}

/// Appends who may send tokens and requests.
fn push_holder(text: &mut Vec<u8>, holder: Option<Holder>) -> Result<(), AllocError>
    ensures { OnOk result (text.new.items ≡ text.old.items ++ packets.holder_words holder) }
{
    match holder {
        None => Ok(()),
        Some(Holder::One(address)) => push_address(text, b", holder ", address),
        Some(Holder::OfferedTo(address)) => push_address(text, b", offered to ", address),
        Some(Holder::Nobody) => text.extend_from_slice(b", nobody"),
        Some(Holder::Unknown) => text.extend_from_slice(b", unknown"),
    }
}

/// Appends what is wrong with a telegram.
fn push_alarm(text: &mut Vec<u8>, alarm: Option<Alarm>) -> Result<(), AllocError>
    ensures { OnOk result (text.new.items ≡ text.old.items ++ packets.alarm_words alarm) }
{
    match alarm {
        None => Ok(()),
        Some(alarm) => push_pieces(
            text,
            &[
                Piece::Text(b", alarm "),
                Piece::Text(alarm.name().as_bytes()),
            ],
        ),
    }
}
