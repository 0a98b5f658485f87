//! The boxes of the picture of a capture: bursts in the lanes of those who sent them.

ghost use Rattle.std.specs.Prelude.{◌≡◌, ◌≤◌, ◌==◌, ◌-◌, ◌++◌, OnOk, IfSome, length, position};
ghost use Rattle.std.specs.List.{flat_map};
ghost use Rattle.pb_transitions.specs.Arrivals.{brings};
ghost use Rattle.law_turn.specs.Arrivals.{arrival_of};
ghost use Rattle.pb_export.specs.BurstJson.{char_hex};
ghost use Rattle.pb_export.specs.CaptureSvg as svg;

use crate::boxes::{BASELINE, BOX, HEARD, class_of, in_lane, push_hatched_if};
use crate::burst_json::push_chars;
use crate::bursts::is_damaged;
use crate::options::LATEST;
use crate::pieces::{Piece, push_pieces};
use crate::places::{Bar, LANE, Sheet, Stretch, lane_top, push_bars, push_text_at};
use crate::saying::{kind_in, push_word_of};
use pb_decode::decode;
use pb_monitor::{Alarm, HeardBurst};
use pb_transitions::whole_telegram;
use std::alloc::{AllocError, Global};

/// Appends the boxes of bursts, each with its speaker.
pub(crate) fn push_boxes(
    text: &mut Vec<u8>,
    alloc: Global,
    sheet: Sheet,
    lanes: &[u8],
    speakers: &[u8],
    bursts: &[HeardBurst],
) -> Result<(), AllocError>
    requires lanes { length lanes.now ≤ 127 }
    ensures { OnOk result (text.new.items
        ≡ text.old.items ++ svg.boxes sheet lanes.now speakers.now bursts.now) }
{
    for place in 0..speakers.len().min(bursts.len()) {
        let lane = lane_of(lanes, speakers[place]);
        push_shown(text, alloc, sheet, lane, &bursts[place])?;
    }
    Ok(())
}

/// The lane of a speaker, from 0; `None` if it has none.
fn lane_of(lanes: &[u8], speaker: u8) -> Option<usize>
    requires { length lanes.now ≤ 127 }
    ensures lane { result ≡ svg.lane_of lanes.now speaker }
    ensures bound { IfSome result (λ lane. lane ≤ 127) }
{
    lanes.iter().position(|other| *other == speaker)
}

/// Appends the box of a burst, if it begins within the clock of a picture after the first one.
fn push_shown(
    text: &mut Vec<u8>,
    alloc: Global,
    sheet: Sheet,
    lane: Option<usize>,
    burst: &HeardBurst,
) -> Result<(), AllocError>
    requires { IfSome lane (λ lane. lane ≤ 127) }
    ensures { OnOk result (text.new.items ≡ text.old.items ++ svg.box_if sheet lane burst.now) }
{
    if sheet.since_zero(burst.begin) <= LATEST {
        push_box(text, alloc, sheet, lane, burst)
    } else {
        Ok(())
    }
}

/// Appends the box of a burst.
fn push_box(
    text: &mut Vec<u8>,
    alloc: Global,
    sheet: Sheet,
    lane: Option<usize>,
    burst: &HeardBurst,
) -> Result<(), AllocError>
    requires lane { IfSome lane (λ lane. lane ≤ 127) }
    requires begin { burst.now.begin - sheet.zero ≤ 1000000000000 }
    ensures { OnOk result (text.new.items ≡ text.old.items ++ svg.burst_box sheet lane burst.now) }
{
    let stretch = sheet.clip(Stretch {
        begin: burst.begin,
        end: burst.end,
    });
    push_title(text, alloc, burst)?;
    push_burst(text, sheet, bar_in(sheet, lane), burst, stretch)?;
    push_mark(text, sheet, lane, stretch, burst.alarm)
}

/// The bar of a lane, or that of all lanes.
fn bar_in(sheet: Sheet, lane: Option<usize>) -> Bar
    requires { IfSome lane (λ lane. lane ≤ 127) }
    ensures bar { result ≡ svg.bar_in sheet lane }
    ensures bound { result.below ≤ 3700 }
{
    match lane {
        Some(lane) => in_lane(BOX, lane as u64),
        None => Bar {
            below: lane_top(0),
            height: LANE * sheet.lanes(),
        },
    }
}

/// Appends the begin of a box: its kind, and as a title its moments, its characters and what `ringplay decode` says of
/// them.
fn push_title(text: &mut Vec<u8>, alloc: Global, burst: &HeardBurst) -> Result<(), AllocError>
    ensures { OnOk result (text.new.items ≡ text.old.items ++ svg.burst_title burst.now) }
{
    let mut hex = Vec::new(alloc);
    push_chars(&mut hex, &burst.chars)?;
    let class = class_of(kind_in(&whole_telegram(&burst.chars)));
    push_words(text, class, burst, &hex, &decode(alloc, &hex)?.text)
}

/// Appends the begin of a box of a class, with some words as a title.
fn push_words<'a>(
    text: &mut Vec<u8>,
    class: &'a [u8],
    burst: &'a HeardBurst,
    hex: &'a [u8],
    decoded: &'a [u8],
) -> Result<(), AllocError>
    ensures { OnOk result (text.new.items
        ≡ text.old.items ++ svg.title_of class.now burst.now hex.now decoded.now) }
{
    push_pieces(
        text,
        &[
            Piece::Text(b"<g class=\""),
            Piece::Text(class),
            Piece::Text(b"\"><title>"),
            Piece::Number(burst.begin),
            Piece::Text(b" "),
            Piece::Number(burst.end),
            Piece::Text(b" "),
            Piece::Text(hex),
            Piece::Text(b"\n"),
            Piece::Text(decoded),
            Piece::Text(b"</title>"),
        ],
    )
}

/// Appends the bars of a burst, hatched where it is damaged, and its word.
fn push_burst(
    text: &mut Vec<u8>,
    sheet: Sheet,
    bar: Bar,
    burst: &HeardBurst,
    stretch: Stretch,
) -> Result<(), AllocError>
    requires bar { bar.below ≤ 3700 }
    requires begin { stretch.begin ≤ 2000000000000 }
    requires end { stretch.end ≤ 2000000000000 }
    ensures { OnOk result (text.new.items
        ≡ text.old.items ++ svg.burst_bars sheet bar burst.now stretch) }
{
    push_bars(text, sheet, bar, stretch)?;
    push_hatched_if(text, is_damaged(&burst.chars), sheet, bar, stretch)?;
    let at = sheet.word_moment(stretch);
    push_text_at(text, sheet, at, 3, bar.below + BASELINE)?;
    push_word_of(text, &whole_telegram(&burst.chars))?;
    text.extend_from_slice(b"</text></g>\n")
}

/// Appends the mark of an alarm, in the lane of the station that raised it.
fn push_mark(
    text: &mut Vec<u8>,
    sheet: Sheet,
    lane: Option<usize>,
    stretch: Stretch,
    alarm: Option<Alarm>,
) -> Result<(), AllocError>
    requires lane { IfSome lane (λ lane. lane ≤ 127) }
    requires begin { stretch.begin ≤ 2000000000000 }
    requires end { stretch.end ≤ 2000000000000 }
    ensures { OnOk result (text.new.items ≡ text.old.items ++ svg.alarm_mark sheet lane stretch alarm) }
{
    match (lane, alarm) {
        (Some(lane), Some(alarm)) => push_alarm(
            text,
            sheet,
            stretch,
            lane as u64,
            alarm.name().as_bytes(),
        ),
        _ => Ok(()),
    }
}

/// Appends the mark of an alarm with a name, in a lane.
fn push_alarm<'a>(
    text: &mut Vec<u8>,
    sheet: Sheet,
    stretch: Stretch,
    lane: u64,
    name: &'a [u8],
) -> Result<(), AllocError>
    requires lane { lane ≤ 127 }
    requires begin { stretch.begin ≤ 2000000000000 }
    requires end { stretch.end ≤ 2000000000000 }
    ensures { OnOk result (text.new.items
        ≡ text.old.items ++ svg.alarm_in sheet stretch lane name.now) }
{
    push_pieces(
        text,
        &[
            Piece::Text(b"<g class=\"hearer\"><title>alarm: "),
            Piece::Text(name),
            Piece::Text(b"</title>"),
        ],
    )?;
    push_bars(text, sheet, in_lane(HEARD, lane), stretch)?;
    push_text_at(text, sheet, stretch.begin, 1, lane_top(lane) + 3)?;
    push_pieces(text, &[Piece::Text(name), Piece::Text(b"</text></g>\n")])
}
