//! The band of the picture of a capture: who may send tokens and requests.

ghost use Rattle.std.specs.Prelude.{◌≡◌, ◌≤◌, ◌++◌, IfOk, OnOk, None};
ghost use Rattle.std.specs.List.{flat_map};
ghost use Rattle.pb_export.specs.CaptureSvg as svg;

use crate::boxes::{BAND, push_holders};
use crate::pieces::{Piece, push_pieces};
use crate::places::{Sheet, Stretch, push_bars};
use pb_monitor::{HeardBurst, Holder, Named};
use std::alloc::{AllocError, Global};

/// A stretch of time in which the monitor names the same holder, or none.
#[derive(Clone, Copy, Debug)]
pub(crate) struct Turn {
    pub(crate) begin: u64,
    pub(crate) end: u64,
    pub(crate) holder: Option<Holder>,
}

/// A part of a turn, from the end of the part before it.
#[derive(Clone, Copy, Debug)]
pub(crate) struct Part {
    pub(crate) until: u64,
    pub(crate) holder: Option<Holder>,
}

/// Appends the band.
pub(crate) fn push_band(
    text: &mut Vec<u8>,
    alloc: Global,
    sheet: Sheet,
    bursts: &[HeardBurst],
) -> Result<(), AllocError>
    ensures { OnOk result (text.new.items
        ≡ text.old.items ++ flat_map (svg.turn_box sheet) (svg.turns_of bursts.now)) }
{
    let parts = parts_of(alloc, bursts)?;
    let turns = turns_in(alloc, &parts)?;
    push_turns(text, alloc, sheet, &turns)
}

/// The parts of all turns.
fn parts_of(alloc: Global, bursts: &[HeardBurst]) -> Result<Vec<Part>, AllocError>
    ensures { IfOk result (λ parts. parts.items ≡ svg.parts_from None bursts.now) }
{
    let mut parts = Vec::new(alloc);
    let mut holder = None;
    for burst in bursts {
        push_parts(&mut parts, holder, burst.before, burst.end)?;
        holder = burst.holder;
    }
    Ok(parts)
}

/// Appends the parts up to the end of a burst.
fn push_parts(
    parts: &mut Vec<Part>,
    holder: Option<Holder>,
    before: Option<Named>,
    end: u64,
) -> Result<(), AllocError>
    ensures { OnOk result (parts.new.items ≡ parts.old.items ++ svg.parts_to holder before end) }
{
    let last = match before {
        None => None,
        Some(named) => {
            parts.push(Part {
                until: named.since,
                holder,
            })?;
            Some(named.holder)
        }
    };
    parts.push(Part {
        until: end,
        holder: last,
    })?;
    Ok(())
}

/// The turns of some parts: neighbours with the same holder are joined.
fn turns_in(alloc: Global, parts: &[Part]) -> Result<Vec<Turn>, AllocError>
    ensures { IfOk result (λ turns.
        turns.items ≡ svg.joined (record { begin = 0; end = 0; holder = None }) parts.now) }
{
    let mut turns = Vec::new(alloc);
    let mut last = Turn {
        begin: 0,
        end: 0,
        holder: None,
    };
    for part in parts {
        push_ended(&mut turns, last, *part)?;
        last = extended(last, *part);
    }
    turns.push(last)?;
    Ok(turns)
}

/// Appends the last turn, if a part ends it.
fn push_ended(turns: &mut Vec<Turn>, last: Turn, part: Part) -> Result<(), AllocError>
    ensures { OnOk result (turns.new.items ≡ turns.old.items ++ svg.ended last part) }
{
    if part.until > last.end && !is_same(last.holder, part.holder) {
        turns.push(last)?;
    }
    Ok(())
}

/// The last turn after a part: a longer one, or the next one.
fn extended(last: Turn, part: Part) -> Turn
    ensures { result ≡ svg.extended last part }
{
    if part.until <= last.end {
        last
    } else if is_same(last.holder, part.holder) {
        Turn {
            begin: last.begin,
            end: part.until,
            holder: last.holder,
        }
    } else {
        Turn {
            begin: last.end,
            end: part.until,
            holder: part.holder,
        }
    }
}

/// Whether two parts have the same holder, or none.
fn is_same(one: Option<Holder>, other: Option<Holder>) -> bool
    ensures { result ≡ svg.is_same one other }
{
    match (one, other) {
        (None, None) => true,
        (Some(one), Some(other)) => is_same_holder(one, other),
        _ => false,
    }
}

/// Whether two holders are the same.
fn is_same_holder(one: Holder, other: Holder) -> bool
    ensures { result ≡ svg.is_same_holder one other }
{
    match (one, other) {
        (Holder::One(address), Holder::One(other)) => address == other,
        (Holder::OfferedTo(address), Holder::OfferedTo(other)) => address == other,
        (Holder::Nobody, Holder::Nobody) | (Holder::Unknown, Holder::Unknown) => true,
        _ => false,
    }
}

/// Appends the boxes of turns.
fn push_turns(
    text: &mut Vec<u8>,
    alloc: Global,
    sheet: Sheet,
    turns: &[Turn],
) -> Result<(), AllocError>
    ensures { OnOk result (text.new.items
        ≡ text.old.items ++ flat_map (svg.turn_box sheet) turns.now) }
{
    for turn in turns {
        push_turn(text, alloc, sheet, *turn)?;
    }
    Ok(())
}

/// Appends the box of a turn, if it has a holder.
fn push_turn(text: &mut Vec<u8>, alloc: Global, sheet: Sheet, turn: Turn) -> Result<(), AllocError>
    ensures { OnOk result (text.new.items ≡ text.old.items ++ svg.turn_box sheet turn) }
{
    match turn.holder {
        None => Ok(()),
        Some(holder) => push_held(text, alloc, sheet, turn, holder),
    }
}

/// Appends the box of a turn with a holder.
fn push_held(
    text: &mut Vec<u8>,
    alloc: Global,
    sheet: Sheet,
    turn: Turn,
    holder: Holder,
) -> Result<(), AllocError>
    ensures { OnOk result (text.new.items ≡ text.old.items ++ svg.held_box sheet turn holder) }
{
    let mut name = Vec::new(alloc);
    push_name(&mut name, holder)?;
    push_named(text, sheet, turn, class_of(holder), &name)
}

/// Appends the box of a turn of a class, with a name.
fn push_named<'a>(
    text: &mut Vec<u8>,
    sheet: Sheet,
    turn: Turn,
    class: &'a [u8],
    name: &'a [u8],
) -> Result<(), AllocError>
    ensures { OnOk result (text.new.items
        ≡ text.old.items ++ svg.named_box sheet turn class.now name.now) }
{
    let stretch = sheet.clip(Stretch {
        begin: turn.begin,
        end: turn.end,
    });
    push_pieces(
        text,
        &[
            Piece::Text(b"<g class=\""),
            Piece::Text(class),
            Piece::Text(b"\"><title>token: "),
            Piece::Text(name),
            Piece::Text(b", "),
            Piece::Number(turn.begin),
            Piece::Text(b" to "),
            Piece::Number(turn.end),
            Piece::Text(b"</title>"),
        ],
    )?;
    push_bars(text, sheet, BAND, stretch)?;
    push_holders(text, sheet, stretch, name)?;
    text.extend_from_slice(b"</g>\n")
}

/// Appends the word for a holder.
fn push_name(text: &mut Vec<u8>, holder: Holder) -> Result<(), AllocError>
    ensures { OnOk result (text.new.items ≡ text.old.items ++ svg.holder_name holder) }
{
    match holder {
        Holder::One(address) => push_pieces(text, &[Piece::Number(u64::from(address))]),
        Holder::OfferedTo(address) => push_pieces(
            text,
            &[Piece::Text(b"to "), Piece::Number(u64::from(address))],
        ),
        Holder::Nobody => text.extend_from_slice(b"nobody"),
        Holder::Unknown => text.extend_from_slice(b"unknown"),
    }
}

/// The class of a holder.
fn class_of(holder: Holder) -> &'static [u8]
    ensures { result.now ≡ svg.holder_class holder }
{
    match holder {
        Holder::One(_) => b"holder",
        Holder::OfferedTo(_) | Holder::Nobody | Holder::Unknown => b"nobody",
    }
}
