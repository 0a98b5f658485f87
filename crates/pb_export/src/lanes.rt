//! What stands behind the boxes of a picture: in each strip a scale, and the lanes with their stations.

ghost use Rattle.std.specs.Prelude.{◌≡◌, ◌≤◌, ◌++◌, OnOk, length};
ghost use Rattle.pb_export.specs.Lanes as lanes;
ghost use Rattle.pb_export.specs.Places.{rows};

use crate::names::{address_of, name_of};
use crate::pieces::{Piece, push_pieces};
use crate::places::{Bar, LEFT, ROW, Sheet, Stretch, lane_top, push_bars, push_text_at};
use pb_scenario::Scenario;
use std::alloc::AllocError;

/// How far a scale goes from one number to the next, in bit times.
const STEP: u64 = 100;

/// How many numbers the scale of a strip has.
const MARKS: u64 = ROW / STEP;

/// Appends the lanes of these taps, the names of their stations in each strip, and the scale of each strip.
pub(crate) fn push_lanes(
    text: &mut Vec<u8>,
    scenario: &Scenario,
    sheet: Sheet,
    taps: &[usize],
) -> Result<(), AllocError>
    requires { length taps.now ≤ 127 }
    ensures { OnOk result (text.new.items
        ≡ text.old.items ++ lanes.lanes_text scenario.now sheet taps.now) }
{
    push_lines(text, sheet)?;
    push_rows(text, scenario, sheet, taps)
}

/// Appends the scale and the names of the stations of each strip.
fn push_rows(
    text: &mut Vec<u8>,
    scenario: &Scenario,
    sheet: Sheet,
    taps: &[usize],
) -> Result<(), AllocError>
    requires { length taps.now ≤ 127 }
    ensures { OnOk result (text.new.items
        ≡ text.old.items ++ lanes.rows_from scenario.now sheet taps.now 0 (rows sheet)) }
{
    for strip in 0..sheet.rows() {
        push_row(text, scenario, sheet, taps, strip)?;
    }
    Ok(())
}

/// Appends the scale and the names of the stations of a strip.
fn push_row(
    text: &mut Vec<u8>,
    scenario: &Scenario,
    sheet: Sheet,
    taps: &[usize],
    strip: u64,
) -> Result<(), AllocError>
    requires few { length taps.now ≤ 127 }
    requires strip { strip ≤ 4000000000 }
    ensures { OnOk result (text.new.items
        ≡ text.old.items ++ lanes.row_text scenario.now sheet taps.now strip) }
{
    push_scale(text, sheet, strip)?;
    push_stations(text, scenario, sheet, taps, strip)
}

/// Appends the line of each lane.
pub(crate) fn push_lines(text: &mut Vec<u8>, sheet: Sheet) -> Result<(), AllocError>
    ensures { OnOk result (text.new.items ≡ text.old.items ++ lanes.lines sheet) }
{
    text.extend_from_slice(b"<g class=\"line\">\n")?;
    push_each_line(text, sheet)?;
    text.extend_from_slice(b"</g>\n")
}

/// Appends these lines alone.
fn push_each_line(text: &mut Vec<u8>, sheet: Sheet) -> Result<(), AllocError>
    ensures { OnOk result (text.new.items ≡ text.old.items ++ lanes.lines_from sheet 0 sheet.lanes) }
{
    for lane in 0..sheet.lanes() {
        push_line(text, sheet, lane)?;
    }
    Ok(())
}

/// Appends the line of a lane.
fn push_line(text: &mut Vec<u8>, sheet: Sheet, lane: u64) -> Result<(), AllocError>
    requires { lane ≤ 127 }
    ensures { OnOk result (text.new.items ≡ text.old.items ++ lanes.line sheet lane) }
{
    let whole = Stretch {
        begin: sheet.from(),
        end: sheet.last(),
    };
    let bar = Bar {
        below: lane_top(lane) + 14,
        height: 1,
    };
    push_bars(text, sheet, bar, whole)?;
    text.extend_from_slice(b"\n")
}

/// Appends the scale of a strip: a number and a line for each 100 bit times.
pub(crate) fn push_scale(text: &mut Vec<u8>, sheet: Sheet, strip: u64) -> Result<(), AllocError>
    requires { strip ≤ 4000000000 }
    ensures { OnOk result (text.new.items ≡ text.old.items ++ lanes.scale sheet strip) }
{
    text.extend_from_slice(b"<g class=\"scale\">\n")?;
    push_marks(text, sheet, strip)?;
    text.extend_from_slice(b"</g>\n")
}

/// Appends the marks of a scale.
fn push_marks(text: &mut Vec<u8>, sheet: Sheet, strip: u64) -> Result<(), AllocError>
    requires { strip ≤ 4000000000 }
    ensures { OnOk result (text.new.items
        ≡ text.old.items ++ lanes.marks_from sheet strip 0 5) }
{
    for step in 0..MARKS {
        push_mark_if(text, sheet, strip, sheet.from() + strip * ROW + step * STEP)?;
    }
    Ok(())
}

/// Appends the mark of a moment, if it is on the sheet.
fn push_mark_if(text: &mut Vec<u8>, sheet: Sheet, strip: u64, moment: u64) -> Result<(), AllocError>
    requires { strip ≤ 4000000000 }
    ensures { OnOk result (text.new.items ≡ text.old.items ++ lanes.mark_if sheet strip moment) }
{
    if moment <= sheet.last() {
        push_mark(text, sheet, strip, moment)
    } else {
        Ok(())
    }
}

/// Appends the number and the line of a moment.
fn push_mark(text: &mut Vec<u8>, sheet: Sheet, strip: u64, moment: u64) -> Result<(), AllocError>
    requires strip { strip ≤ 4000000000 }
    requires moment { moment ≤ sheet.last }
    ensures { OnOk result (text.new.items ≡ text.old.items ++ lanes.mark sheet strip moment) }
{
    push_pieces(
        text,
        &[
            Piece::Text(b"<rect x=\""),
            Piece::Number(sheet.across(moment)),
            Piece::Text(b"\" y=\""),
            Piece::Number(sheet.top(strip) + 4),
            Piece::Text(b"\" width=\"1\" height=\""),
            Piece::Number(lane_top(sheet.lanes()) - 4),
            Piece::Text(b"\"/>"),
        ],
    )?;
    push_text_at(text, sheet, moment, 4, 13)?;
    push_pieces(
        text,
        &[
            Piece::Number(sheet.number(moment)),
            Piece::Text(b"</text>\n"),
        ],
    )
}

/// Appends the names and the addresses of the stations at some taps, left of a strip.
fn push_stations(
    text: &mut Vec<u8>,
    scenario: &Scenario,
    sheet: Sheet,
    taps: &[usize],
    strip: u64,
) -> Result<(), AllocError>
    requires few { length taps.now ≤ 127 }
    requires strip { strip ≤ 4000000000 }
    ensures { OnOk result (text.new.items
        ≡ text.old.items ++ lanes.stations scenario.now sheet taps.now strip) }
{
    text.extend_from_slice(b"<g class=\"name\">\n")?;
    push_label(text, sheet.top(strip) + 34)?;
    text.extend_from_slice(b"holder</text>\n")?;
    push_each_station(text, scenario, sheet, taps, strip)?;
    text.extend_from_slice(b"</g>\n")
}

/// Appends the name and the address of each station.
fn push_each_station(
    text: &mut Vec<u8>,
    scenario: &Scenario,
    sheet: Sheet,
    taps: &[usize],
    strip: u64,
) -> Result<(), AllocError>
    requires few { length taps.now ≤ 127 }
    requires strip { strip ≤ 4000000000 }
    ensures { OnOk result (text.new.items
        ≡ text.old.items ++ lanes.stations_from scenario.now sheet strip 0 taps.now) }
{
    for lane in 0..taps.len() {
        push_station(text, scenario, sheet, strip, lane as u64, taps[lane])?;
    }
    Ok(())
}

/// Appends the name and the address of the station at a tap, left of its lane.
fn push_station(
    text: &mut Vec<u8>,
    scenario: &Scenario,
    sheet: Sheet,
    strip: u64,
    lane: u64,
    tap: usize,
) -> Result<(), AllocError>
    requires lane { lane ≤ 127 }
    requires strip { strip ≤ 4000000000 }
    ensures { OnOk result (text.new.items
        ≡ text.old.items ++ lanes.station scenario.now sheet strip lane tap) }
{
    push_label(text, sheet.top(strip) + lane_top(lane) + 18)?;
    push_pieces(
        text,
        &[
            Piece::Text(name_of(scenario, tap)),
            Piece::Text(b" <tspan>"),
            Piece::Number(address_of(scenario, tap)),
            Piece::Text(b"</tspan></text>\n"),
        ],
    )
}

/// Appends the begin of a text left of a strip, so far below the top of the picture.
pub(crate) fn push_label(text: &mut Vec<u8>, below: u64) -> Result<(), AllocError>
    ensures { OnOk result (text.new.items ≡ text.old.items ++ lanes.label below) }
{
    push_pieces(
        text,
        &[
            Piece::Text(b"<text x=\""),
            Piece::Number(LEFT - 8),
            Piece::Text(b"\" y=\""),
            Piece::Number(below),
            Piece::Text(b"\">"),
        ],
    )
}
