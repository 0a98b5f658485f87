//! Where moments and lanes stand in a picture: rows of 500 bit times, each with a scale, a band and the lanes.

ghost use Rattle.std.specs.Prelude.{◌≡◌, ◌≤◌, ◌++◌, OnOk};
ghost use Rattle.pb_export.specs.Places as places;

use crate::pieces::{Piece, push_pieces};
use std::alloc::AllocError;
use std::marker::Model;

/// How many bit times a strip has.
pub(crate) const ROW: u64 = 500;

/// How wide a bit time is, in pixels.
const BIT: u64 = 2;

/// Where a strip begins, right of the names of the lanes.
pub(crate) const LEFT: u64 = 130;

/// Where the first strip begins, below the legend.
const HEAD: u64 = 36;

/// How high a lane is.
pub(crate) const LANE: u64 = 28;

/// Where the lanes begin, below the top of their strip.
const LANES: u64 = 44;

/// How high a strip is apart from its lanes.
const FRAME: u64 = 64;

/// How wide a picture is.
pub(crate) const WIDTH: u64 = 1170;

/// The moments and the lanes of a picture.
#[derive(Clone, Copy, Debug)]
pub(crate) struct Sheet {
    /// The moment from which those of the sheet are counted, in bit times.
    zero: u64,
    /// The first moment of the sheet, in bit times (0 to 1,000,000,000,000).
    from: u64,
    /// The last moment of the sheet, in bit times (0 to 2,000,000,000,000).
    last: u64,
    /// How many lanes there are (0 to 127).
    lanes: u64,
}

impl Model for Sheet {
    ghost use Rattle.pb_export.specs.Sheets as sheets;

    ghost Value = { sheets.Sheet };

    ghost view = { λ s. record { zero = s.zero; from = s.from; last = s.last; lanes = s.lanes } };

    ghost invariant = { λ s. sheets.IsSheet (record { zero = s.zero; from = s.from; last = s.last; lanes = s.lanes }) };

    ghost inverse = { λ v. record { zero = v.zero; from = v.from; last = v.last; lanes = v.lanes } };
}

/// A bar in each strip: how far below the strip's top, and how high.
#[derive(Clone, Copy, Debug)]
pub(crate) struct Bar {
    pub(crate) below: u64,
    pub(crate) height: u64,
}

/// A stretch of time, in bit times; `end` is not in it.
#[derive(Clone, Copy, Debug)]
pub(crate) struct Stretch {
    pub(crate) begin: u64,
    pub(crate) end: u64,
}

impl Stretch {
    ghost use Rattle.std.specs.Prelude.{◌≡◌, ◌≤◌};
    ghost use Rattle.pb_export.specs.Places.{width};

    /// How wide it is, in pixels.
    pub(crate) fn width(self) -> u64
        requires { self.end ≤ 2000000000000 }
        ensures { result ≡ width self }
    {
        self.end.saturating_sub(self.begin) * BIT
    }
}

impl Sheet {
    ghost use Rattle.std.specs.Prelude.{◌≡◌, ◌≤◌, ◌<◌, ◌+◌, ◌-◌, min};
    ghost use Rattle.pb_export.specs.Places as places;
    ghost use Rattle.pb_export.specs.Sheets.{IsSheet};

    /// A sheet of these moments, counted from another one, and so many lanes.
    pub(crate) fn new(zero: u64, from: u64, last: u64, lanes: u64) -> Sheet
        requires { IsSheet (record { zero = zero; from = from; last = last; lanes = lanes }) }
        ensures { result ≡ record { zero = zero; from = from; last = last; lanes = lanes } }
    {
        Sheet {
            zero,
            from,
            last,
            lanes,
        }
    }

    /// The sheet up to a moment, in bit times.
    pub(crate) fn up_to(self, moment: u64) -> Sheet
        requires { moment ≤ 1000000000000 }
        ensures { result ≡ record self { last = min self.last (moment + 1) } }
    {
        Sheet {
            zero: self.zero,
            from: self.from,
            last: self.last.min(moment + 1),
            lanes: self.lanes,
        }
    }

    /// How far a moment is behind the one from which those of the sheet are counted, in bit times.
    pub(crate) fn since_zero(self, moment: u64) -> u64
        ensures { result ≡ moment - self.zero }
    {
        moment.saturating_sub(self.zero)
    }

    /// The number of a moment of the sheet on a scale, in bit times.
    pub(crate) fn number(self, moment: u64) -> u64
        requires { moment ≤ self.last }
        ensures { result ≡ self.zero + moment }
    {
        self.zero + moment
    }

    /// The first moment, in bit times.
    pub(crate) fn from(self) -> u64
        ensures value { result ≡ self.from }
        ensures bound { result ≤ 1000000000000 }
    {
        self.from
    }

    /// The last moment, in bit times.
    pub(crate) fn last(self) -> u64
        ensures value { result ≡ self.last }
        ensures bound { result ≤ 2000000000000 }
    {
        self.last
    }

    /// How many lanes there are.
    pub(crate) fn lanes(self) -> u64
        ensures value { result ≡ self.lanes }
        ensures bound { result ≤ 127 }
    {
        self.lanes
    }

    /// The index of the strip that has a moment, from 0.
    pub(crate) fn strip(self, moment: u64) -> u64
        ensures value { result ≡ places.strip self moment }
        ensures bound { moment ≤ 2000000000000 → result ≤ 4000000000 }
    {
        moment.saturating_sub(self.from) / ROW
    }

    /// How far right a moment stands in its strip.
    pub(crate) fn across(self, moment: u64) -> u64
        ensures value { result ≡ places.across self moment }
        ensures bound { result ≤ 1130 }
    {
        LEFT + moment.saturating_sub(self.from) % ROW * BIT
    }

    /// Where a strip begins, from the top.
    pub(crate) fn top(self, strip: u64) -> u64
        requires { strip ≤ 4000000001 }
        ensures value { result ≡ places.top self strip }
        ensures bound { result ≤ 20000000000000 }
    {
        HEAD + strip * self.row_height()
    }

    /// How high a strip is.
    pub(crate) fn row_height(self) -> u64
        ensures value { result ≡ places.row_height self }
        ensures bound { result ≤ 3620 }
    {
        FRAME + LANE * self.lanes
    }

    /// How many rows there are: at least one, and none without a moment before the last one.
    pub(crate) fn rows(self) -> u64
        ensures value { result ≡ places.rows self }
        ensures bound { result ≤ 4000000001 }
    {
        self.strip(self.last.saturating_sub(1)) + 1
    }

    /// Where the word of a stretch stands: at its begin, or where its next strip begins, if it has more room there.
    pub(crate) fn word_moment(self, stretch: Stretch) -> u64
        requires begin { stretch.begin ≤ 2000000000000 }
        requires end { stretch.end ≤ 2000000000000 }
        ensures value { result ≡ places.word_moment self stretch }
        ensures bound { result ≤ 2000000000000 }
    {
        let strip = self.strip(stretch.begin);
        let next = self.part(stretch, strip + 1);
        if self.part(stretch, strip).width() < next.width() {
            next.begin
        } else {
            stretch.begin
        }
    }

    /// The part of a stretch that is in a strip.
    pub(crate) fn part(self, stretch: Stretch, strip: u64) -> Stretch
        requires { strip ≤ 4000000001 }
        ensures value { result ≡ places.part self stretch strip }
        ensures end { result.end ≤ stretch.end }
    {
        let first = self.from + strip * ROW;
        Stretch {
            begin: stretch.begin.max(first),
            end: stretch.end.min(first + ROW),
        }
    }

    /// A stretch as far as it is on the sheet, counted as there.
    pub(crate) fn clip(self, stretch: Stretch) -> Stretch
        ensures value { result ≡ places.clip self stretch }
        ensures end { result.end ≤ 2000000000000 }
    {
        Stretch {
            begin: self.since_zero(stretch.begin).max(self.from),
            end: self.since_zero(stretch.end).min(self.last),
        }
    }
}

/// How far below the top of its strip a lane begins.
pub(crate) fn lane_top(lane: u64) -> u64
    requires { lane ≤ 127 }
    ensures value { result ≡ places.lane_top lane }
    ensures bound { result ≤ 3600 }
{
    LANES + LANE * lane
}

/// Appends a rectangle for each strip that has a part of a stretch.
pub(crate) fn push_bars(
    text: &mut Vec<u8>,
    sheet: Sheet,
    bar: Bar,
    stretch: Stretch,
) -> Result<(), AllocError>
    requires bar { bar.below ≤ 10000 }
    requires end { stretch.end ≤ 2000000000000 }
    ensures { OnOk result (text.new.items ≡ text.old.items ++ places.bars sheet bar stretch) }
{
    if stretch.end <= stretch.begin {
        return Ok(());
    }
    let rows = sheet.strip(stretch.end - 1) + 1;
    for strip in sheet.strip(stretch.begin)..rows {
        push_bar(text, sheet, bar, stretch, strip)?;
    }
    Ok(())
}

/// Appends the rectangle of the part of a stretch that is in a strip.
fn push_bar(
    text: &mut Vec<u8>,
    sheet: Sheet,
    bar: Bar,
    stretch: Stretch,
    strip: u64,
) -> Result<(), AllocError>
    requires bar { bar.below ≤ 10000 }
    requires end { stretch.end ≤ 2000000000000 }
    requires strip { strip ≤ 4000000000 }
    ensures { OnOk result (text.new.items ≡ text.old.items ++ places.bar sheet bar stretch strip) }
{
    let part = sheet.part(stretch, strip);
    push_pieces(
        text,
        &[
            Piece::Text(b"<rect x=\""),
            Piece::Number(sheet.across(part.begin)),
            Piece::Text(b"\" y=\""),
            Piece::Number(sheet.top(strip) + bar.below),
            Piece::Text(b"\" width=\""),
            Piece::Number(part.width()),
            Piece::Text(b"\" height=\""),
            Piece::Number(bar.height),
            Piece::Text(b"\"/>"),
        ],
    )
}

/// Appends the begin of a text that stands at a moment, so far right of it, and so far below the top of its strip.
pub(crate) fn push_text_at(
    text: &mut Vec<u8>,
    sheet: Sheet,
    moment: u64,
    right: u64,
    below: u64,
) -> Result<(), AllocError>
    requires moment { moment ≤ 2000000000000 }
    requires right { right ≤ 10000 }
    requires below { below ≤ 10000 }
    ensures { OnOk result (text.new.items ≡ text.old.items ++ places.text_at sheet moment right below) }
{
    push_pieces(
        text,
        &[
            Piece::Text(b"<text x=\""),
            Piece::Number(sheet.across(moment) + right),
            Piece::Text(b"\" y=\""),
            Piece::Number(sheet.top(sheet.strip(moment)) + below),
            Piece::Text(b"\">"),
        ],
    )
}
