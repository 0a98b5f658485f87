//! A capture as a picture.

ghost use Rattle.std.specs.Prelude.{◌≡◌, ◌≤◌, ◌++◌, OnOk, length};
ghost use Rattle.pb_export.specs.CaptureSvg as svg;
ghost use Rattle.pb_export.specs.Places.{rows};

use crate::capture_band::push_band;
use crate::capture_boxes::push_boxes;
use crate::lanes::{push_label, push_lines, push_scale};
use crate::pieces::{Piece, push_pieces};
use crate::places::{Sheet, lane_top};
use crate::speakers::{lanes_of, speakers_of};
use crate::styles::capture_legend;
use crate::svg::{STEP, push_head_with};
use crate::times::END;
use pb_monitor::HeardBurst;
use std::alloc::{AllocError, Global};

/// Appends a capture as a picture (SVG): rows of 500 bit times from left to right, in each a scale, a band of who may send
/// tokens and requests, and a lane for each station that was heard. Each burst is a box in the lane of who sent it; one
/// whose sender is not known is a box across all lanes. What begins over 1,000,000,000,000 bit times after the first burst
/// has no box.
///
/// Fault: memory was refused.
pub fn push_capture_svg(
    text: &mut Vec<u8>,
    alloc: Global,
    bursts: &[HeardBurst],
) -> Result<(), AllocError>
    ensures { OnOk result (text.new.items ≡ text.old.items ++ svg.svg_text bursts.now) }
{
    let speakers = speakers_of(alloc, bursts)?;
    let lanes = lanes_of(alloc, &speakers)?;
    let sheet = sheet_of(bursts, &lanes);
    push_picture(text, alloc, bursts, sheet, &lanes, &speakers)
}

/// The sheet of some bursts and lanes.
fn sheet_of(bursts: &[HeardBurst], lanes: &[u8]) -> Sheet
    requires { length lanes.now ≤ 127 }
    ensures { result ≡ svg.sheet_of bursts.now lanes.now }
{
    let zero = first_begin(bursts) / STEP * STEP;
    let last = last_end(bursts).saturating_sub(zero).min(END);
    Sheet::new(zero, 0, last, lanes.len() as u64)
}

/// When the first burst begins; 0 if there is none.
fn first_begin(bursts: &[HeardBurst]) -> u64
    ensures { result ≡ svg.first_begin bursts.now }
{
    match bursts {
        [first, ..] => first.begin,
        [] => 0,
    }
}

/// When the last burst ends; 0 if there is none.
fn last_end(bursts: &[HeardBurst]) -> u64
    ensures { result ≡ svg.last_end 0 bursts.now }
{
    let mut last = 0;
    for burst in bursts {
        last = burst.end.max(last);
    }
    last
}

/// Appends a picture of some lanes.
fn push_picture(
    text: &mut Vec<u8>,
    alloc: Global,
    bursts: &[HeardBurst],
    sheet: Sheet,
    lanes: &[u8],
    speakers: &[u8],
) -> Result<(), AllocError>
    requires { length lanes.now ≤ 127 }
    ensures { OnOk result (text.new.items
        ≡ text.old.items ++ svg.picture bursts.now sheet lanes.now speakers.now) }
{
    push_head_with(text, sheet, capture_legend())?;
    push_lines(text, sheet)?;
    push_rows(text, sheet, lanes)?;
    push_band(text, alloc, sheet, bursts)?;
    push_boxes(text, alloc, sheet, lanes, speakers, bursts)?;
    text.extend_from_slice(b"</svg>\n")
}

/// Appends the scale and the stations of each strip.
fn push_rows(text: &mut Vec<u8>, sheet: Sheet, lanes: &[u8]) -> Result<(), AllocError>
    requires { length lanes.now ≤ 127 }
    ensures { OnOk result (text.new.items
        ≡ text.old.items ++ svg.rows_from sheet lanes.now 0 (rows sheet)) }
{
    for strip in 0..sheet.rows() {
        push_row(text, sheet, lanes, strip)?;
    }
    Ok(())
}

/// Appends the scale and the stations of a strip.
fn push_row(text: &mut Vec<u8>, sheet: Sheet, lanes: &[u8], strip: u64) -> Result<(), AllocError>
    requires few { length lanes.now ≤ 127 }
    requires strip { strip ≤ 4000000000 }
    ensures { OnOk result (text.new.items ≡ text.old.items ++ svg.row_text sheet lanes.now strip) }
{
    push_scale(text, sheet, strip)?;
    push_stations(text, sheet, lanes, strip)
}

/// Appends the stations left of a strip.
fn push_stations(
    text: &mut Vec<u8>,
    sheet: Sheet,
    lanes: &[u8],
    strip: u64,
) -> Result<(), AllocError>
    requires few { length lanes.now ≤ 127 }
    requires strip { strip ≤ 4000000000 }
    ensures { OnOk result (text.new.items ≡ text.old.items ++ svg.stations sheet lanes.now strip) }
{
    text.extend_from_slice(b"<g class=\"name\">\n")?;
    push_label(text, sheet.top(strip) + 34)?;
    text.extend_from_slice(b"holder</text>\n")?;
    push_each_station(text, sheet, lanes, strip)?;
    text.extend_from_slice(b"</g>\n")
}

/// Appends each station.
fn push_each_station(
    text: &mut Vec<u8>,
    sheet: Sheet,
    lanes: &[u8],
    strip: u64,
) -> Result<(), AllocError>
    requires few { length lanes.now ≤ 127 }
    requires strip { strip ≤ 4000000000 }
    ensures { OnOk result (text.new.items
        ≡ text.old.items ++ svg.stations_from sheet strip 0 lanes.now) }
{
    for lane in 0..lanes.len() {
        push_station(text, sheet, strip, lane as u64, lanes[lane])?;
    }
    Ok(())
}

/// Appends a station left of its lane.
fn push_station(
    text: &mut Vec<u8>,
    sheet: Sheet,
    strip: u64,
    lane: u64,
    address: u8,
) -> Result<(), AllocError>
    requires lane { lane ≤ 127 }
    requires strip { strip ≤ 4000000000 }
    ensures { OnOk result (text.new.items
        ≡ text.old.items ++ svg.station sheet strip lane address) }
{
    push_label(text, sheet.top(strip) + lane_top(lane) + 18)?;
    push_pieces(
        text,
        &[
            Piece::Text(b"station <tspan>"),
            Piece::Number(u64::from(address)),
            Piece::Text(b"</tspan></text>\n"),
        ],
    )
}
