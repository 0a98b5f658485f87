//! The stations that are heard in a capture.

ghost use Rattle.std.specs.Prelude.{◌≡◌, ◌≤◌, ◌==◌, ◌+◌, ◌++◌, IfOk, OnOk, length};
ghost use Rattle.std.specs.List.{list_any};
ghost use Rattle.pb_transitions.specs.Arrivals.{brings};
ghost use Rattle.pb_export.specs.CaptureSvg as svg;
ghost use Rattle.pb_export.specs.Rosters.{lane_if};

use crate::saying::is_request;
use pb_monitor::HeardBurst;
use pb_telegram::Telegram;
use pb_transitions::whole_telegram;
use std::alloc::{AllocError, Global};

/// No station's address.
const NONE: u8 = 127;

/// The address of the station that sent each burst; 127 if that is not known. An acknowledgement comes from the station
/// that was asked just before it.
pub(crate) fn speakers_of(alloc: Global, bursts: &[HeardBurst]) -> Result<Vec<u8>, AllocError>
    ensures { IfOk result (λ speakers. speakers.items ≡ svg.speakers bursts.now) }
{
    let mut speakers = Vec::new(alloc);
    let mut asked = NONE;
    for burst in bursts {
        let telegram = whole_telegram(&burst.chars);
        speakers.push(speaker_of(asked, &telegram))?;
        asked = asked_by(&telegram);
    }
    Ok(speakers)
}

/// The source of a telegram.
fn speaker_of(asked: u8, telegram: &Option<Telegram>) -> u8
    ensures { result ≡ svg.speaker_of asked (brings telegram.now) }
{
    match telegram {
        Some(Telegram::Token(token)) => token.sa,
        Some(Telegram::Short(short)) => short.sa % 128,
        Some(Telegram::Var(var)) => var.sa % 128,
        Some(Telegram::Fixed8(fixed)) => fixed.sa % 128,
        Some(Telegram::Ack) => asked,
        None => NONE,
    }
}

/// The station that a telegram asks.
fn asked_by(telegram: &Option<Telegram>) -> u8
    ensures { result ≡ svg.asked_by (brings telegram.now) }
{
    match telegram {
        Some(Telegram::Short(short)) => asked_in(short.da, short.fc),
        Some(Telegram::Var(var)) => asked_in(var.da, var.fc),
        Some(Telegram::Fixed8(fixed)) => asked_in(fixed.da, fixed.fc),
        Some(Telegram::Token(_)) | Some(Telegram::Ack) | None => NONE,
    }
}

/// The station that a telegram with a control octet asks.
fn asked_in(da: u8, fc: u8) -> u8
    ensures { result ≡ svg.asked_in da fc }
{
    if is_request(fc) { da % 128 } else { NONE }
}

/// The addresses that have a lane, from the top: those that speak, in ascending order.
pub(crate) fn lanes_of(alloc: Global, speakers: &[u8]) -> Result<Vec<u8>, AllocError>
    ensures lanes { IfOk result (λ lanes. lanes.items ≡ svg.lanes_of speakers.now) }
    ensures few { IfOk result (λ lanes. length lanes.items ≤ 127) }
{
    let mut lanes = Vec::new(alloc);
    for address in 0..NONE {
        push_if(&mut lanes, speaks(speakers, address), address)?;
    }
    Ok(lanes)
}

/// Whether a station speaks.
fn speaks(speakers: &[u8], address: u8) -> bool
    ensures { result ≡ list_any (λ s. s == address) speakers.now }
{
    speakers.iter().any(|speaker| *speaker == address)
}

/// Appends a lane, if there is one.
fn push_if(lanes: &mut Vec<u8>, has_lane: bool, address: u8) -> Result<(), AllocError>
    ensures lanes { OnOk result (lanes.new.items ≡ lanes.old.items ++ lane_if has_lane address) }
    ensures few { length lanes.new.items ≤ length lanes.old.items + 1 }
{
    if has_lane {
        lanes.push(address)?;
    }
    Ok(())
}
