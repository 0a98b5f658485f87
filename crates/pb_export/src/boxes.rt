//! The boxes of a picture: telegrams and noise in the lanes, and who holds the token in a band above them.

ghost use Rattle.std.specs.Prelude.{◌≡◌, ◌≤◌, ◌++◌, OnOk, length, map};
ghost use Rattle.std.specs.List.{list_any};
ghost use Rattle.std.specs.Option.{option_map};
ghost use Rattle.law_model.specs.Trace.{Sent, entry_begin};
ghost use Rattle.pb_medium.specs.Entries.{entry_of, heard_of, record_of};
ghost use Rattle.pb_scenario.specs.Texts.{entry_text};
ghost use Rattle.pb_export.specs.Boxes as boxes;

use crate::holders::Tenure;
use crate::names::name_of;
use crate::pieces::{Piece, push_pieces};
use crate::places::{Bar, LANE, Sheet, Stretch, lane_top, push_bars, push_text_at};
use crate::rosters::lane_of;
use crate::saying::{Kind, kind_of, push_word};
use pb_decode::decode;
use pb_scenario::{Entry, Scenario, push_trace};
use pb_world::{Heard, Reception, Record};
use std::alloc::{AllocError, Global};
use std::slice;

/// How far below the top of its lane a box begins, and how high it is.
pub(crate) const BOX: Bar = Bar {
    below: 4,
    height: 20,
};

/// The same for the mark of a telegram that a station heard damaged or not at all.
pub(crate) const HEARD: Bar = Bar {
    below: 16,
    height: 8,
};

/// The band of who holds the token.
pub(crate) const BAND: Bar = Bar {
    below: 20,
    height: 18,
};

/// How far below the top of a bar the text of a box stands.
pub(crate) const BASELINE: u64 = 14;

/// Appends the box of an entry, with its line of the trace and its decoding as a title; for a telegram also a mark in
/// each lane whose station heard it damaged or not at all.
pub(crate) fn push_entry(
    text: &mut Vec<u8>,
    alloc: Global,
    scenario: &Scenario,
    sheet: Sheet,
    lanes: &[usize],
    entry: &Entry,
) -> Result<(), AllocError>
    requires few { length lanes.now ≤ 127 }
    requires begin { entry_begin (entry_of entry.now) ≤ 1000000000000 }
    ensures { OnOk result (text.new.items ≡ text.old.items
        ++ boxes.entry_box scenario.now sheet lanes.now (entry_of entry.now)) }
{
    match entry {
        Entry::Noise { begin, end } => {
            let stretch = Stretch {
                begin: *begin,
                end: *end,
            };
            push_noise_box(text, scenario, sheet, entry, stretch)
        }
        Entry::Sent(telegram) => {
            push_title(text, alloc, scenario, telegram, entry)?;
            push_record(text, scenario, sheet, lanes, telegram)
        }
    }
}

/// Appends the box of noise.
fn push_noise_box(
    text: &mut Vec<u8>,
    scenario: &Scenario,
    sheet: Sheet,
    entry: &Entry,
    stretch: Stretch,
) -> Result<(), AllocError>
    requires { stretch.begin ≤ 1000000000000 }
    ensures { OnOk result (text.new.items
        ≡ text.old.items ++ boxes.noise_box scenario.now sheet (entry_of entry.now) stretch) }
{
    text.extend_from_slice(b"<g class=\"noise\"><title>")?;
    push_entry_line(text, scenario, entry)?;
    text.extend_from_slice(b"</title>")?;
    push_noise(text, sheet, sheet.clip(stretch))
}

/// Appends the line of an entry, as the text of a trace has it.
fn push_entry_line(text: &mut Vec<u8>, scenario: &Scenario, entry: &Entry) -> Result<(), AllocError>
    ensures { OnOk result (text.new.items
        ≡ text.old.items ++ entry_text scenario.now.names (entry_of entry.now)) }
{
    push_trace(text, scenario, slice::from_ref(entry))
}

/// Appends the begin of the box of a telegram, with its title.
fn push_title(
    text: &mut Vec<u8>,
    alloc: Global,
    scenario: &Scenario,
    telegram: &Record,
    entry: &Entry,
) -> Result<(), AllocError>
    requires { entry_of entry.now ≡ Sent (record_of telegram.now) }
    ensures { OnOk result (text.new.items
        ≡ text.old.items ++ boxes.record_title scenario.now (record_of telegram.now)) }
{
    push_pieces(
        text,
        &[
            Piece::Text(b"<g class=\""),
            Piece::Text(class_of(kind_of(&telegram.octets))),
            Piece::Text(b"\"><title>"),
        ],
    )?;
    push_entry_line(text, scenario, entry)?;
    push_decoded(text, alloc, &telegram.octets)?;
    text.extend_from_slice(b"</title>")
}

/// Appends the bars of a telegram, its word, and its marks.
fn push_record(
    text: &mut Vec<u8>,
    scenario: &Scenario,
    sheet: Sheet,
    lanes: &[usize],
    telegram: &Record,
) -> Result<(), AllocError>
    requires few { length lanes.now ≤ 127 }
    requires begin { telegram.now.begin ≤ 1000000000000 }
    ensures { OnOk result (text.new.items
        ≡ text.old.items ++ boxes.record_bars scenario.now sheet lanes.now (record_of telegram.now)) }
{
    let stretch = sheet.clip(Stretch {
        begin: telegram.begin,
        end: telegram.end,
    });
    push_telegram(text, sheet, lanes, telegram, stretch)?;
    push_hearers(text, scenario, sheet, lanes, telegram, stretch)
}

/// The class of a kind of telegram.
pub(crate) fn class_of(kind: Kind) -> &'static [u8]
    ensures { result.now ≡ boxes.class_of kind }
{
    match kind {
        Kind::Token => b"token",
        Kind::Request => b"request",
        Kind::Reply => b"reply",
        Kind::Acknowledgement => b"ack",
        Kind::Other => b"other",
    }
}

/// Appends what `ringplay decode` says of octets.
fn push_decoded(text: &mut Vec<u8>, alloc: Global, octets: &[u8]) -> Result<(), AllocError>
    ensures { OnOk result (text.new.items ≡ text.old.items ++ boxes.decoded octets.now) }
{
    let mut line = Vec::new(alloc);
    push_pieces(&mut line, &[Piece::Hex(octets)])?;
    text.extend_from_slice(&decode(alloc, &line)?.text)
}

/// Appends the bars of noise, across all lanes.
fn push_noise(text: &mut Vec<u8>, sheet: Sheet, stretch: Stretch) -> Result<(), AllocError>
    requires begin { stretch.begin ≤ 2000000000000 }
    requires end { stretch.end ≤ 2000000000000 }
    ensures { OnOk result (text.new.items ≡ text.old.items ++ boxes.noise_bars sheet stretch) }
{
    let bar = Bar {
        below: lane_top(0),
        height: LANE * sheet.lanes(),
    };
    push_bars(text, sheet, bar, stretch)?;
    push_text_at(text, sheet, stretch.begin, 3, lane_top(0) + 10)?;
    text.extend_from_slice(b"noise</text></g>\n")
}

/// Appends the bars of a telegram in its speaker's lane, hatched where somebody heard it damaged, and its word.
fn push_telegram(
    text: &mut Vec<u8>,
    sheet: Sheet,
    lanes: &[usize],
    telegram: &Record,
    stretch: Stretch,
) -> Result<(), AllocError>
    requires few { length lanes.now ≤ 127 }
    requires begin { stretch.begin ≤ 2000000000000 }
    requires end { stretch.end ≤ 2000000000000 }
    ensures { OnOk result (text.new.items
        ≡ text.old.items ++ boxes.telegram_bars sheet lanes.now (record_of telegram.now) stretch) }
{
    let bar = in_lane(BOX, lane_or_first(lanes, telegram.tap));
    push_bars(text, sheet, bar, stretch)?;
    push_hatched_if(text, has_damage(&telegram.heard), sheet, bar, stretch)?;
    let at = sheet.word_moment(stretch);
    push_text_at(text, sheet, at, 3, bar.below + BASELINE)?;
    push_word(text, &telegram.octets)?;
    text.extend_from_slice(b"</text></g>\n")
}

/// The lane of a tap; the first, if it has none.
fn lane_or_first(lanes: &[usize], tap: usize) -> u64
    requires { length lanes.now ≤ 127 }
    ensures value { result ≡ boxes.lane_or_first lanes.now tap }
    ensures bound { result ≤ 127 }
{
    match lane_of(lanes, tap) {
        Some(lane) => lane as u64,
        None => 0,
    }
}

/// A bar of a lane.
pub(crate) fn in_lane(bar: Bar, lane: u64) -> Bar
    requires bar { bar.below ≤ 100 }
    requires lane { lane ≤ 127 }
    ensures bar { result ≡ boxes.in_lane bar lane }
    ensures bound { result.below ≤ 3700 }
{
    Bar {
        below: lane_top(lane) + bar.below,
        height: bar.height,
    }
}

/// Appends the hatched bars of a telegram, if it is damaged.
pub(crate) fn push_hatched_if(
    text: &mut Vec<u8>,
    is_damaged: bool,
    sheet: Sheet,
    bar: Bar,
    stretch: Stretch,
) -> Result<(), AllocError>
    requires bar { bar.below ≤ 10000 }
    requires end { stretch.end ≤ 2000000000000 }
    ensures { OnOk result (text.new.items ≡ text.old.items ++ boxes.hatched_if is_damaged sheet bar stretch) }
{
    if is_damaged {
        push_hatched(text, sheet, bar, stretch)
    } else {
        Ok(())
    }
}

/// Appends hatched bars.
fn push_hatched(
    text: &mut Vec<u8>,
    sheet: Sheet,
    bar: Bar,
    stretch: Stretch,
) -> Result<(), AllocError>
    requires bar { bar.below ≤ 10000 }
    requires end { stretch.end ≤ 2000000000000 }
    ensures { OnOk result (text.new.items ≡ text.old.items ++ boxes.hatched sheet bar stretch) }
{
    text.extend_from_slice(b"<g class=\"hatched\">")?;
    push_bars(text, sheet, bar, stretch)?;
    text.extend_from_slice(b"</g>")
}

/// Whether a telegram reached some tap damaged.
fn has_damage(heard: &Reception) -> bool
    ensures { result ≡ list_any boxes.is_damaged heard.now }
{
    for tap in 0..heard.len() {
        if is_damaged(heard.at(tap)) {
            return true;
        }
    }
    false
}

/// Whether a telegram reached a tap damaged.
fn is_damaged(heard: Heard) -> bool
    ensures { result ≡ boxes.is_damaged (heard_of heard) }
{
    match heard {
        Heard::Damaged => true,
        Heard::Own | Heard::Whole | Heard::Unheard | Heard::Pending => false,
    }
}

/// Appends a mark for each station that heard a telegram damaged or not at all.
fn push_hearers(
    text: &mut Vec<u8>,
    scenario: &Scenario,
    sheet: Sheet,
    lanes: &[usize],
    telegram: &Record,
    stretch: Stretch,
) -> Result<(), AllocError>
    requires few { length lanes.now ≤ 127 }
    requires begin { stretch.begin ≤ 2000000000000 }
    requires end { stretch.end ≤ 2000000000000 }
    ensures { OnOk result (text.new.items
        ≡ text.old.items ++ boxes.hearers scenario.now sheet stretch telegram.now.heard 0 lanes.now) }
{
    for lane in 0..lanes.len() {
        push_hearer_at(
            text,
            name_of(scenario, lanes[lane]),
            sheet,
            stretch,
            lane as u64,
            telegram.heard.get(lanes[lane]),
        )?;
    }
    Ok(())
}

/// Appends the mark of a station, if there is a reception and that is bad.
fn push_hearer_at(
    text: &mut Vec<u8>,
    name: &[u8],
    sheet: Sheet,
    stretch: Stretch,
    lane: u64,
    heard: Option<Heard>,
) -> Result<(), AllocError>
    requires lane { lane ≤ 127 }
    requires begin { stretch.begin ≤ 2000000000000 }
    requires end { stretch.end ≤ 2000000000000 }
    ensures { OnOk result (text.new.items
        ≡ text.old.items ++ boxes.hearer_if name.now sheet stretch lane (option_map heard_of heard)) }
{
    match heard {
        Some(heard) => push_hearer(text, name, sheet, stretch, lane, heard),
        None => Ok(()),
    }
}

/// Appends the mark of a station that heard a telegram damaged or not at all.
fn push_hearer(
    text: &mut Vec<u8>,
    name: &[u8],
    sheet: Sheet,
    stretch: Stretch,
    lane: u64,
    heard: Heard,
) -> Result<(), AllocError>
    requires lane { lane ≤ 127 }
    requires begin { stretch.begin ≤ 2000000000000 }
    requires end { stretch.end ≤ 2000000000000 }
    ensures { OnOk result (text.new.items
        ≡ text.old.items ++ boxes.hearer name.now sheet stretch lane (heard_of heard)) }
{
    match heard {
        Heard::Damaged => push_hearing(text, name, b"damaged", sheet, stretch, lane),
        Heard::Unheard => push_hearing(text, name, b"not heard", sheet, stretch, lane),
        Heard::Own | Heard::Whole | Heard::Pending => Ok(()),
    }
}

/// Appends a mark with some words.
fn push_hearing<'a>(
    text: &mut Vec<u8>,
    name: &'a [u8],
    words: &'a [u8],
    sheet: Sheet,
    stretch: Stretch,
    lane: u64,
) -> Result<(), AllocError>
    requires lane { lane ≤ 127 }
    requires begin { stretch.begin ≤ 2000000000000 }
    requires end { stretch.end ≤ 2000000000000 }
    ensures { OnOk result (text.new.items
        ≡ text.old.items ++ boxes.hearing name.now words.now sheet stretch lane) }
{
    push_pieces(
        text,
        &[
            Piece::Text(b"<g class=\"hearer\"><title>"),
            Piece::Text(name),
            Piece::Text(b": "),
            Piece::Text(words),
            Piece::Text(b"</title>"),
        ],
    )?;
    let bar = in_lane(HEARD, lane);
    push_bars(text, sheet, bar, stretch)?;
    push_text_at(text, sheet, stretch.begin, 1, bar.below.saturating_sub(3))?;
    push_pieces(text, &[Piece::Text(words), Piece::Text(b"</text></g>\n")])
}

/// Appends the band of a stretch in which the trace names one tap, or nobody.
pub(crate) fn push_tenure(
    text: &mut Vec<u8>,
    scenario: &Scenario,
    sheet: Sheet,
    tenure: &Tenure,
) -> Result<(), AllocError>
    ensures { OnOk result (text.new.items
        ≡ text.old.items ++ boxes.tenure_box scenario.now sheet tenure.now) }
{
    let stretch = sheet.clip(Stretch {
        begin: tenure.begin,
        end: tenure.end,
    });
    let holder = holder_of(scenario, tenure.tap);
    push_pieces(
        text,
        &[
            Piece::Text(b"<g class=\""),
            Piece::Text(tenure_class(tenure)),
            Piece::Text(b"\"><title>token: "),
            Piece::Text(holder),
            Piece::Text(b", "),
            Piece::Number(tenure.begin),
            Piece::Text(b" to "),
            Piece::Number(tenure.end),
            Piece::Text(b"</title>"),
        ],
    )?;
    push_bars(text, sheet, BAND, stretch)?;
    push_holders(text, sheet, stretch, holder)?;
    text.extend_from_slice(b"</g>\n")
}

/// The name of a tap, or `nobody`.
fn holder_of(scenario: &Scenario, tap: Option<usize>) -> &[u8]
    ensures { result.now ≡ boxes.holder_of scenario.now tap }
{
    match tap {
        Some(tap) => name_of(scenario, tap),
        None => b"nobody",
    }
}

/// Appends the name of a stretch of the band, in each strip in which it fits.
pub(crate) fn push_holders(
    text: &mut Vec<u8>,
    sheet: Sheet,
    stretch: Stretch,
    holder: &[u8],
) -> Result<(), AllocError>
    requires { stretch.end ≤ 2000000000000 }
    ensures { OnOk result (text.new.items ≡ text.old.items ++ boxes.holders sheet stretch holder.now) }
{
    if stretch.end <= stretch.begin {
        return Ok(());
    }
    let rows = sheet.strip(stretch.end - 1) + 1;
    for strip in sheet.strip(stretch.begin)..rows {
        push_holder(text, sheet, sheet.part(stretch, strip), holder)?;
    }
    Ok(())
}

/// Appends the name of a part of a stretch, if it fits.
fn push_holder(
    text: &mut Vec<u8>,
    sheet: Sheet,
    part: Stretch,
    holder: &[u8],
) -> Result<(), AllocError>
    requires { part.end ≤ 2000000000000 }
    ensures { OnOk result (text.new.items ≡ text.old.items ++ boxes.holder_in sheet part holder.now) }
{
    if !fits(part, holder) {
        return Ok(());
    }
    push_text_at(text, sheet, part.begin, 4, BAND.below + 13)?;
    push_pieces(text, &[Piece::Text(holder), Piece::Text(b"</text>")])
}

/// The class of a stretch of the band.
fn tenure_class(tenure: &Tenure) -> &'static [u8]
    ensures { result.now ≡ boxes.tenure_class tenure.now.tap }
{
    match tenure.tap {
        Some(_) => b"holder",
        None => b"nobody",
    }
}

/// Whether a name fits a part of a stretch, at 8 pixels a letter.
fn fits(part: Stretch, name: &[u8]) -> bool
    requires { part.end ≤ 2000000000000 }
    ensures { result ≡ boxes.fits part name.now }
{
    match part.width().checked_sub(6) {
        Some(room) => name.len() as u64 <= room / 8,
        None => false,
    }
}
