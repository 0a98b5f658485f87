//! A trace as a picture.

ghost use Rattle.std.specs.Prelude.{◌≡◌, ◌≤◌, ◌-◌, ◌++◌, OnOk, length, map};
ghost use Rattle.law_runs.specs.Judging.{StandsFrom};
ghost use Rattle.pb_medium.specs.Entries.{entry_of};
ghost use Rattle.pb_scenario.specs.Repeats.{AreSteady, stream_until};
ghost use Rattle.std.specs.List.{flat_map};
ghost use Rattle.pb_export.specs.Boxes.{entry_box, tenure_box};
ghost use Rattle.pb_export.specs.Marks.{happenings_in};
ghost use Rattle.pb_export.specs.Windows.{if_shown};
ghost use Rattle.pb_export.specs.Svg as svg;

use crate::boxes::{push_entry, push_tenure};
use crate::holders::{Tenure, tenures_of};
use crate::lanes::push_lanes;
use crate::marks::{Steps, push_marks};
use crate::options::Window;
use crate::pieces::{Piece, push_pieces};
use crate::places::{Sheet, WIDTH};
use crate::rosters::lanes_of;
use crate::styles::{dark, legend, light, patterns};
use crate::times::last_moment;
use pb_scenario::{Entry, Scenario, StreamScenario};
use std::alloc::{AllocError, Global};

/// A picture begins at a multiple of this many bit times.
pub(crate) const STEP: u64 = 100;

/// Appends a trace as a picture (SVG): rows of 500 bit times from left to right, in each a scale, a band that says who
/// holds the token, and a lane for each station. Each telegram is a box in the lane of who sent it. The caller ensures that
/// the trace is in order of begin.
///
/// Fault: memory was refused.
pub fn push_svg(
    text: &mut Vec<u8>,
    alloc: Global,
    scenario: &Scenario,
    entries: &[Entry],
    window: Window,
) -> Result<(), AllocError>
    requires { StandsFrom 0 (map entry_of entries.now) }
    ensures { OnOk result (text.new.items
        ≡ text.old.items ++ svg.svg_text window scenario.now (map entry_of entries.now)) }
{
    let steps = Steps {
        once: scenario.steps(),
        repeats: &[],
        until: scenario.until(),
    };
    push_run(text, alloc, scenario, steps, entries, window)
}

/// Appends the trace of a scenario whose steps may repeat as such a picture. A step has a mark each time that it happens.
///
/// Fault: memory was refused.
pub fn push_stream_svg(
    text: &mut Vec<u8>,
    alloc: Global,
    scenario: &StreamScenario,
    entries: &[Entry],
    window: Window,
) -> Result<(), AllocError>
    requires { StandsFrom 0 (map entry_of entries.now) }
    ensures { OnOk result (text.new.items
        ≡ text.old.items ++ svg.stream_svg_text window scenario.now (map entry_of entries.now)) }
{
    let once = scenario.once();
    let steps = Steps {
        once: once.steps(),
        repeats: scenario.repeats(),
        until: scenario.until(),
    };
    push_run(text, alloc, once, steps, entries, window)
}

/// Appends the run of a scenario's bus with some steps.
fn push_run(
    text: &mut Vec<u8>,
    alloc: Global,
    scenario: &Scenario,
    steps: Steps<'_>,
    entries: &[Entry],
    window: Window,
) -> Result<(), AllocError>
    requires order { StandsFrom 0 (map entry_of entries.now) }
    requires steady { AreSteady steps.repeats.now }
    requires end { steps.until ≤ stream_until }
    ensures { OnOk result (text.new.items ≡ text.old.items
        ++ svg.drawn window scenario.now steps.entry.until (happenings_in steps.entry)
        (map entry_of entries.now)) }
{
    let lanes = lanes_of(alloc, scenario, entries)?;
    let sheet = Sheet::new(
        0,
        window.from / STEP * STEP,
        last_moment(window, steps.until, entries),
        lanes.len() as u64,
    );
    push_trace(text, alloc, scenario, entries, window, sheet, &lanes)?;
    let marked = sheet.up_to(window.until.min(steps.until));
    push_marks(text, scenario, marked, &lanes, steps)?;
    text.extend_from_slice(b"</svg>\n")
}

/// Appends what a picture of some lanes has of a trace.
fn push_trace(
    text: &mut Vec<u8>,
    alloc: Global,
    scenario: &Scenario,
    entries: &[Entry],
    window: Window,
    sheet: Sheet,
    lanes: &[usize],
) -> Result<(), AllocError>
    requires lanes { length lanes.now ≤ 127 }
    requires order { StandsFrom 0 (map entry_of entries.now) }
    ensures { OnOk result (text.new.items ≡ text.old.items
        ++ svg.traced window scenario.now (map entry_of entries.now) sheet lanes.now) }
{
    push_head(text, sheet)?;
    push_left_out(text, left_out(scenario, lanes))?;
    push_lanes(text, scenario, sheet, lanes)?;
    push_band(text, alloc, scenario, sheet, entries)?;
    push_boxes(text, alloc, scenario, sheet, lanes, entries, window)
}

/// How many taps have no lane.
fn left_out(scenario: &Scenario, lanes: &[usize]) -> usize
    ensures { result ≡ length scenario.now.scenario.taps - length lanes.now }
{
    scenario.taps().len().saturating_sub(lanes.len())
}

/// Appends the band of who holds the token.
fn push_band(
    text: &mut Vec<u8>,
    alloc: Global,
    scenario: &Scenario,
    sheet: Sheet,
    entries: &[Entry],
) -> Result<(), AllocError>
    requires { StandsFrom 0 (map entry_of entries.now) }
    ensures { OnOk result (text.new.items
        ≡ text.old.items ++ svg.band scenario.now sheet (map entry_of entries.now)) }
{
    let tenures = tenures_of(alloc, scenario, entries, sheet.from(), sheet.last())?;
    push_tenures(text, scenario, sheet, &tenures)
}

/// Appends the band of each stretch.
fn push_tenures(
    text: &mut Vec<u8>,
    scenario: &Scenario,
    sheet: Sheet,
    tenures: &[Tenure],
) -> Result<(), AllocError>
    ensures { OnOk result (text.new.items
        ≡ text.old.items ++ flat_map (tenure_box scenario.now sheet) tenures.now) }
{
    for tenure in tenures {
        push_tenure(text, scenario, sheet, tenure)?;
    }
    Ok(())
}

/// Appends the boxes of the entries that are shown.
fn push_boxes(
    text: &mut Vec<u8>,
    alloc: Global,
    scenario: &Scenario,
    sheet: Sheet,
    lanes: &[usize],
    entries: &[Entry],
    window: Window,
) -> Result<(), AllocError>
    requires { length lanes.now ≤ 127 }
    ensures { OnOk result (text.new.items
        ≡ text.old.items ++ svg.boxes window scenario.now sheet lanes.now (map entry_of entries.now)) }
{
    for entry in entries {
        push_shown(text, alloc, scenario, sheet, lanes, entry, window)?;
    }
    Ok(())
}

/// Appends the box of an entry, if it is shown.
fn push_shown(
    text: &mut Vec<u8>,
    alloc: Global,
    scenario: &Scenario,
    sheet: Sheet,
    lanes: &[usize],
    entry: &Entry,
    window: Window,
) -> Result<(), AllocError>
    requires { length lanes.now ≤ 127 }
    ensures { OnOk result (text.new.items ≡ text.old.items
        ++ if_shown window (entry_box scenario.now sheet lanes.now) (entry_of entry.now)) }
{
    if window.shows(entry) {
        push_entry(text, alloc, scenario, sheet, lanes, entry)
    } else {
        Ok(())
    }
}

/// Appends how many stations have no lane, if there are any.
fn push_left_out(text: &mut Vec<u8>, stations: usize) -> Result<(), AllocError>
    ensures { OnOk result (text.new.items ≡ text.old.items ++ svg.left_out stations) }
{
    if stations == 0 {
        return Ok(());
    }
    push_pieces(
        text,
        &[
            Piece::Text(b"<text x=\"890\" y=\"21\">without "),
            Piece::Number(stations as u64),
            Piece::Text(b" passive stations that send nothing</text>\n"),
        ],
    )
}

/// Appends what each picture begins with: its size, its styles and its legend.
fn push_head(text: &mut Vec<u8>, sheet: Sheet) -> Result<(), AllocError>
    ensures { OnOk result (text.new.items ≡ text.old.items ++ svg.head sheet) }
{
    push_head_with(text, sheet, legend())
}

/// The same with a legend.
pub(crate) fn push_head_with(
    text: &mut Vec<u8>,
    sheet: Sheet,
    legend: &[u8],
) -> Result<(), AllocError>
    ensures { OnOk result (text.new.items ≡ text.old.items ++ svg.head_with sheet legend.now) }
{
    let height = sheet.top(sheet.rows());
    push_pieces(
        text,
        &[
            Piece::Text(b"<svg xmlns=\"http://www.w3.org/2000/svg\" width=\""),
            Piece::Number(WIDTH),
            Piece::Text(b"\" height=\""),
            Piece::Number(height),
            Piece::Text(b"\" viewBox=\"0 0 "),
            Piece::Number(WIDTH),
            Piece::Text(b" "),
            Piece::Number(height),
            Piece::Text(b"\">\n"),
            Piece::Text(light()),
            Piece::Text(dark()),
            Piece::Text(patterns()),
            Piece::Text(b"<rect class=\"paper\" width=\"100%\" height=\"100%\"/>\n"),
            Piece::Text(legend),
        ],
    )
}
