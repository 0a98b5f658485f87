//! Glances at a tap, and whether a decision still fits it.

ghost use Rattle.std.specs.Prelude.{◌≡◌, ◌<◌, IsTrue, ◌↔◌, IfOk, Some, slice_get, length, map};
ghost use Rattle.pb_station.specs.MarkViews.{mark_of};
ghost use Rattle.pb_taps.specs.Glancing.{Shows, FitsTap};
ghost use Rattle.pb_taps.specs.declared.taps.Tap as declared;

use crate::taps::Tap;
use pb_faults::NoMemory;
use pb_station::{Decided, Decision, Glance, Mark, Spares, Station};
use pb_timers::Moment;
use std::alloc::Global;

/// A glance at the tap with this index. Its station is copied into a spare box, if there is one.
///
/// Fault: memory was refused.
pub fn glance(
    alloc: Global,
    taps: &[Tap],
    position: usize,
    now: Moment,
    spares: &mut Spares,
) -> Result<Glance, NoMemory>
    requires { position < length taps.now }
    ensures { IfOk result (λ g. (t : declared.Tap) → slice_get taps.now position ≡ Some t
        → Shows t position now g) }
{
    show(alloc, &taps[position], position, now, spares)
}

/// Whether a decision was computed from the present state of its tap, at this clock.
pub fn fits(taps: &[Tap], decision: &Decision, now: Moment) -> bool
    ensures { IsTrue result ↔ FitsTap taps.now now decision.entry.now }
{
    match taps.get(decision.tap) {
        Some(tap) => decision.now == now && is_as(tap, &decision.before, &decision.marks),
        None => false,
    }
}

/// Whether a decision with a borrowed buffer was computed from the present state of its tap, at this clock.
pub fn fits_decided(taps: &[Tap], decided: &Decided<'_>, now: Moment) -> bool
    ensures { IsTrue result ↔ FitsTap taps.now now decided.entry.now }
{
    match taps.get(decided.tap) {
        Some(tap) => decided.now == now && is_as(tap, &decided.before, &decided.marks),
        None => false,
    }
}

fn show(
    alloc: Global,
    tap: &Tap,
    position: usize,
    now: Moment,
    spares: &mut Spares,
) -> Result<Glance, NoMemory>
    ensures { IfOk result (Shows tap.now position now) }
{
    Ok(Glance {
        tap: position,
        station: spares.copy_of(alloc, &tap.station)?,
        marks: tap.marks.copy_marks(alloc)?,
        now,
    })
}

/// Whether a tap has this station and these unread marks.
fn is_as(tap: &Tap, station: &Station, marks: &[Mark]) -> bool
    ensures { IsTrue result ↔ ((station.now ≡ tap.now.station) × (map mark_of marks.now ≡ tap.now.marks)) }
{
    tap.marks.are(marks) && tap.station.is_same(station)
}
