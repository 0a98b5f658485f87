//! The marks of a scenario's steps in a picture: starts, stops, and stretches in which a station is withheld.

ghost use Rattle.std.specs.Prelude.{◌≡◌, ◌≤◌, ◌++◌, OnOk, length, slice_get};
ghost use Rattle.pb_scenario.specs.Repeats.{AreSteady, IsSteady, all_of, repeat_in, stream_until};
ghost use Rattle.pb_scenario.specs.Steps.{deed_of, planned_of};
ghost use Rattle.pb_export.specs.Marks as marks;

use crate::names::name_of;
use crate::pieces::{Piece, push_pieces};
use crate::places::{Bar, Sheet, Stretch, lane_top, push_bars, push_text_at};
use crate::rosters::lane_of;
use pb_scenario::{Deed, Event, Repeat, Scenario, Step};
use std::alloc::AllocError;

/// The steps of a run.
#[derive(Clone, Copy, Debug)]
pub(crate) struct Steps<'a> {
    /// Each at the moment at which it happens first.
    pub(crate) once: &'a [Step],
    /// How each repeats, if it does; a step behind the last of these happens once.
    pub(crate) repeats: &'a [Option<Repeat>],
    /// Until when time passes, in bit times (0 to 1,000,000,000,000).
    pub(crate) until: u64,
}

/// Happenings of a step.
#[derive(Clone, Copy, Debug)]
struct Series {
    /// The moment of the first, in bit times.
    at: u64,
    /// How much later each of the others comes than the one before, in bit times.
    every: u64,
    /// How many there are.
    count: u64,
}

/// Appends the marks of the steps that are on the sheet. This takes time in proportion to the steps, and to how often they
/// happen on the sheet.
pub(crate) fn push_marks(
    text: &mut Vec<u8>,
    scenario: &Scenario,
    sheet: Sheet,
    lanes: &[usize],
    steps: Steps<'_>,
) -> Result<(), AllocError>
    requires lanes { length lanes.now ≤ 127 }
    requires steady { AreSteady steps.repeats.now }
    requires end { steps.until ≤ stream_until }
    ensures { OnOk result (text.new.items ≡ text.old.items
        ++ marks.marks_text scenario.now sheet lanes.now (marks.happenings_in steps.entry)) }
{
    for place in 0..steps.once.len() {
        let repeat = repeat_of(steps.repeats, place);
        push_step(
            text,
            scenario,
            sheet,
            lanes,
            &steps.once[place],
            repeat,
            steps.until,
        )?;
    }
    Ok(())
}

/// How the step with an index repeats, if it does.
fn repeat_of(repeats: &[Option<Repeat>], place: usize) -> Option<Repeat>
    requires { AreSteady repeats.now }
    ensures repeat { result ≡ repeat_in (slice_get repeats.now place) }
    ensures steady { IsSteady result }
{
    match repeats.get(place) {
        Some(repeat) => *repeat,
        None => None,
    }
}

/// Appends the marks of a step, each time that it happens on the sheet.
fn push_step(
    text: &mut Vec<u8>,
    scenario: &Scenario,
    sheet: Sheet,
    lanes: &[usize],
    step: &Step,
    repeat: Option<Repeat>,
    until: u64,
) -> Result<(), AllocError>
    requires few { length lanes.now ≤ 127 }
    requires steady { IsSteady repeat }
    requires end { until ≤ stream_until }
    ensures { OnOk result (text.new.items ≡ text.old.items
        ++ marks.marks_text scenario.now sheet lanes.now (all_of until (planned_of step.now) repeat)) }
{
    let series = series_of(step, repeat, until).skip_to(sheet.from());
    push_series(text, scenario, sheet, lanes, &step.deed, series)
}

/// All happenings of a step.
fn series_of(step: &Step, repeat: Option<Repeat>, until: u64) -> Series
    requires steady { IsSteady repeat }
    requires end { until ≤ stream_until }
    ensures all { marks.happenings_of result (deed_of step.now.deed)
        ≡ all_of until (planned_of step.now) repeat }
    ensures steady { marks.IsSteadySeries result }
{
    let (every, count) = match repeat {
        Some(Repeat { every, count }) => {
            let to_the_end = until.saturating_sub(step.at) / every + 1;
            (every, count.unwrap_or(to_the_end))
        }
        None => (1, 1),
    };
    Series {
        at: step.at,
        every,
        count,
    }
}

impl Series {
    ghost use Rattle.std.specs.Prelude.{◌≡◌, ◌≤◌, ◌<◌};
    ghost use Rattle.pb_export.specs.Marks as marks;

    /// The happenings without those before a moment, of which the last may be left.
    fn skip_to(self, from: u64) -> Series
        requires { marks.IsSteadySeries self }
        ensures { result ≡ marks.skipped from self }
    {
        let gone = (from.saturating_sub(self.at) / self.every).min(self.count);
        Series {
            at: self.at + gone * self.every,
            every: self.every,
            count: self.count - gone,
        }
    }

    /// The happenings without the first.
    fn rest(self) -> Series
        requires some { 0 < self.count }
        requires steady { marks.IsSteadySeries self }
        requires at { self.at ≤ 2000000000000 }
        ensures { result ≡ marks.rest_of self }
    {
        Series {
            at: self.at + self.every,
            every: self.every,
            count: self.count - 1,
        }
    }
}

/// Appends the marks of happenings of a step, up to the end of the sheet.
fn push_series(
    text: &mut Vec<u8>,
    scenario: &Scenario,
    sheet: Sheet,
    lanes: &[usize],
    deed: &Deed,
    series: Series,
) -> Result<(), AllocError>
    requires few { length lanes.now ≤ 127 }
    requires steady { marks.IsSteadySeries series }
    ensures { OnOk result (text.new.items ≡ text.old.items
        ++ marks.marks_text scenario.now sheet lanes.now (marks.happenings_of series (deed_of deed.now))) }
{
    let mut left = series;
    while left.count > 0 && left.at < sheet.last() {
        push_mark_if(text, scenario, sheet, lanes, left.at, deed)?;
        left = left.rest();
    }
    Ok(())
}

/// Appends the mark of a happening of a step, if that is on the sheet.
fn push_mark_if(
    text: &mut Vec<u8>,
    scenario: &Scenario,
    sheet: Sheet,
    lanes: &[usize],
    at: u64,
    deed: &Deed,
) -> Result<(), AllocError>
    requires { length lanes.now ≤ 127 }
    ensures { OnOk result (text.new.items ≡ text.old.items
        ++ marks.mark_if scenario.now sheet lanes.now (record { at = at; deed = deed_of deed.now })) }
{
    if sheet.from() <= at && at < sheet.last() {
        push_mark(text, scenario, sheet, lanes, at, deed)
    } else {
        Ok(())
    }
}

/// Appends the mark of a happening, if it has one and its tap has a lane.
fn push_mark(
    text: &mut Vec<u8>,
    scenario: &Scenario,
    sheet: Sheet,
    lanes: &[usize],
    at: u64,
    deed: &Deed,
) -> Result<(), AllocError>
    requires few { length lanes.now ≤ 127 }
    requires at { at ≤ 2000000000000 }
    ensures { OnOk result (text.new.items ≡ text.old.items
        ++ marks.mark scenario.now sheet lanes.now (record { at = at; deed = deed_of deed.now })) }
{
    let Some(tap) = marked_tap(deed) else {
        return Ok(());
    };
    let Some(lane) = lane_of(lanes, tap) else {
        return Ok(());
    };
    push_deed(text, sheet, lane as u64, name_of(scenario, tap), at, deed)
}

/// The tap of a step that has a mark.
fn marked_tap(deed: &Deed) -> Option<usize>
    ensures { result ≡ marks.marked_tap (deed_of deed.now) }
{
    match deed {
        Deed::Happens(Event::Start(tap) | Event::Stop(tap)) => Some(*tap),
        Deed::Withhold { tap, .. } => Some(*tap),
        Deed::Happens(_) => None,
    }
}

/// Appends the mark of a happening in a lane.
fn push_deed(
    text: &mut Vec<u8>,
    sheet: Sheet,
    lane: u64,
    name: &[u8],
    at: u64,
    deed: &Deed,
) -> Result<(), AllocError>
    requires lane { lane ≤ 127 }
    requires at { at ≤ 2000000000000 }
    ensures { OnOk result (text.new.items
        ≡ text.old.items ++ marks.does_mark sheet at lane name.now (deed_of deed.now)) }
{
    match deed {
        Deed::Happens(Event::Start(_)) => push_moment(text, sheet, at, lane, name, b"start"),
        Deed::Happens(Event::Stop(_)) => push_moment(text, sheet, at, lane, name, b"stop"),
        Deed::Withhold { bits, .. } => {
            let stretch = Stretch {
                begin: at,
                end: at + u64::from(*bits),
            };
            push_withheld(text, sheet, stretch, lane, name)
        }
        Deed::Happens(_) => Ok(()),
    }
}

/// Appends the mark of a moment in a lane: a thin bar and a word.
fn push_moment(
    text: &mut Vec<u8>,
    sheet: Sheet,
    at: u64,
    lane: u64,
    name: &[u8],
    word: &[u8],
) -> Result<(), AllocError>
    requires at { at ≤ 2000000000000 }
    requires lane { lane ≤ 127 }
    ensures { OnOk result (text.new.items ≡ text.old.items ++ marks.moment sheet at lane name.now word.now) }
{
    push_title(text, at, name, word)?;
    let below = lane_top(lane);
    push_pieces(
        text,
        &[
            Piece::Text(b"<rect x=\""),
            Piece::Number(sheet.across(at)),
            Piece::Text(b"\" y=\""),
            Piece::Number(sheet.top(sheet.strip(at)) + below + 2),
            Piece::Text(b"\" width=\"3\" height=\"24\"/>"),
        ],
    )?;
    push_text_at(text, sheet, at, 6, below + 12)?;
    push_pieces(text, &[Piece::Text(word), Piece::Text(b"</text></g>\n")])
}

/// Appends the begin of a mark, with its title.
fn push_title<'a>(
    text: &mut Vec<u8>,
    at: u64,
    name: &'a [u8],
    word: &'a [u8],
) -> Result<(), AllocError>
    ensures { OnOk result (text.new.items ≡ text.old.items ++ marks.title at name.now word.now) }
{
    push_pieces(
        text,
        &[
            Piece::Text(b"<g class=\"step\"><title>"),
            Piece::Number(at),
            Piece::Text(b": "),
            Piece::Text(word),
            Piece::Text(b" "),
            Piece::Text(name),
            Piece::Text(b"</title>"),
        ],
    )
}

/// Appends the mark of a stretch in which a station takes no turn.
fn push_withheld(
    text: &mut Vec<u8>,
    sheet: Sheet,
    stretch: Stretch,
    lane: u64,
    name: &[u8],
) -> Result<(), AllocError>
    requires begin { stretch.begin ≤ 2000000000000 }
    requires lane { lane ≤ 127 }
    ensures { OnOk result (text.new.items ≡ text.old.items ++ marks.withheld sheet stretch lane name.now) }
{
    push_title(text, stretch.begin, name, b"withhold")?;
    let below = lane_top(lane);
    let bar = Bar {
        below: below + 25,
        height: 3,
    };
    push_bars(text, sheet, bar, sheet.clip(stretch))?;
    push_text_at(text, sheet, stretch.begin, 1, below + 22)?;
    text.extend_from_slice(b"withheld</text></g>\n")
}
