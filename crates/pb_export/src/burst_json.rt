//! A burst of a capture as a JSON object, a line.

ghost use Rattle.std.specs.Prelude.{◌≡◌, ◌++◌, OnOk};
ghost use Rattle.std.specs.List.{flat_map};
ghost use Rattle.pb_export.specs.BurstJson as json;

use crate::bursts::{is_damaged, push_address};
use crate::json::{push_params, push_span, push_telegram};
use crate::pieces::{Piece, push_pieces};
use crate::words::truth;
use pb_monitor::{Alarm, HeardBurst, Holder};
use pb_telegram::RxChar;
use pb_timers::BusParams;
use pb_transitions::whole_telegram;
use std::alloc::AllocError;
use std::slice;

/// Appends the line of the bus.
pub(crate) fn push_bus_line(text: &mut Vec<u8>, params: &BusParams) -> Result<(), AllocError>
    ensures { OnOk result (text.new.items ≡ text.old.items ++ json.bus_line params.now) }
{
    push_params(text, params)?;
    text.extend_from_slice(b"}\n")
}

/// Appends the line of a burst.
pub(crate) fn push_burst_line(text: &mut Vec<u8>, burst: &HeardBurst) -> Result<(), AllocError>
    ensures { OnOk result (text.new.items ≡ text.old.items ++ json.burst_line burst.now) }
{
    push_span(text, burst.begin, burst.end)?;
    text.extend_from_slice(b",\"octets\":\"")?;
    push_chars(text, &burst.chars)?;
    push_state(text, burst)?;
    push_telegram(text, &whole_telegram(&burst.chars))?;
    push_holder(text, burst.holder)?;
    push_alarm(text, burst.alarm)?;
    text.extend_from_slice(b"}\n")
}

/// Appends characters in hex, with `--` for a damaged one.
pub(crate) fn push_chars(text: &mut Vec<u8>, chars: &[RxChar]) -> Result<(), AllocError>
    ensures { OnOk result (text.new.items ≡ text.old.items ++ flat_map json.char_hex chars.now) }
{
    for char in chars {
        push_char(text, *char)?;
    }
    Ok(())
}

/// Appends a character in hex.
fn push_char(text: &mut Vec<u8>, char: RxChar) -> Result<(), AllocError>
    ensures { OnOk result (text.new.items ≡ text.old.items ++ json.char_hex char) }
{
    match char {
        RxChar::Good(octet) => push_pieces(text, &[Piece::Hex(slice::from_ref(&octet))]),
        RxChar::Bad => text.extend_from_slice(b"--"),
    }
}

/// Appends how many characters a burst has, whether they spell no telegram, and whether the capture gives its moments.
fn push_state(text: &mut Vec<u8>, burst: &HeardBurst) -> Result<(), AllocError>
    ensures { OnOk result (text.new.items ≡ text.old.items ++ json.state_text burst.now) }
{
    push_pieces(
        text,
        &[
            Piece::Text(b"\",\"characters\":"),
            Piece::Number(burst.count),
            Piece::Text(b",\"damaged\":"),
            Piece::Text(truth(is_damaged(&burst.chars))),
            Piece::Text(b",\"timed\":"),
            Piece::Text(truth(burst.is_timed)),
        ],
    )
}

/// Appends who may send tokens and requests.
fn push_holder(text: &mut Vec<u8>, holder: Option<Holder>) -> Result<(), AllocError>
    ensures { OnOk result (text.new.items ≡ text.old.items ++ json.holder_text holder) }
{
    match holder {
        None => Ok(()),
        Some(Holder::One(address)) => push_address(
            text,
            b",\"holder\":\"station\",\"holder_address\":",
            address,
        ),
        Some(Holder::OfferedTo(address)) => push_address(
            text,
            b",\"holder\":\"offered\",\"holder_address\":",
            address,
        ),
        Some(Holder::Nobody) => text.extend_from_slice(b",\"holder\":\"nobody\""),
        Some(Holder::Unknown) => text.extend_from_slice(b",\"holder\":\"unknown\""),
    }
}

/// Appends what is wrong with a telegram.
fn push_alarm(text: &mut Vec<u8>, alarm: Option<Alarm>) -> Result<(), AllocError>
    ensures { OnOk result (text.new.items ≡ text.old.items ++ json.alarm_text alarm) }
{
    match alarm {
        None => Ok(()),
        Some(alarm) => push_pieces(
            text,
            &[
                Piece::Text(b",\"alarm\":\""),
                Piece::Text(alarm.name().as_bytes()),
                Piece::Text(b"\""),
            ],
        ),
    }
}
