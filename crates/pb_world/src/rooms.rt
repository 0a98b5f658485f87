//! Reserves memory in the trace before a station speaks.

ghost use Rattle.std.specs.Prelude.{◌≡◌, ◌≤◌, ◌<◌, true, is_some, IfErr, OnOk, Some, slice_get, length, map};
ghost use Rattle.law_model.specs.Laws.{AllInOrder};
ghost use Rattle.law_model.specs.World.{clock_limit};
ghost use Rattle.pb_medium.specs.Speaking.{RefusesSaid};
ghost use Rattle.pb_medium.specs.Traces.{limit_of, entries_of, HasRoom, StaysAs};
ghost use Rattle.pb_taps.specs.Taps.{tap_of};
ghost use Rattle.pb_taps.specs.Turning.{says};
ghost use Rattle.pb_taps.specs.declared.taps.Tap as declared;

use pb_medium::Trace;
use pb_station::Decided;
use pb_taps::{Tap, WorldFault, would_speak};
use pb_timers::Moment;

/// Reserves room for what the station at a tap would send in its turn, if anything.
///
/// Faults, the first that applies: `TraceFull`; `NoMemory`.
pub(crate) fn make_room(
    trace: &mut Trace,
    taps: &[Tap],
    tap: usize,
    now: Moment,
) -> Result<(), WorldFault>
    requires place { tap < length taps.now }
    requires clock { now ≤ clock_limit }
    requires order { AllInOrder now (map tap_of taps.now) }
    ensures same { StaysAs trace.old trace.new }
    ensures ok { (t : declared.Tap) → slice_get taps.now tap ≡ Some t
        → OnOk result (is_some (says t now) ≡ true → HasRoom trace.new) }
    ensures fault { (t : declared.Tap) → slice_get taps.now tap ≡ Some t
        → IfErr result (RefusesSaid (says t now) (limit_of trace.old) (length (entries_of trace.old))) }
{
    if !trace.has_room() && would_speak(taps, tap, now) {
        trace.make_room()?;
    }
    Ok(())
}

/// Reserves room for what a decided turn sends, if anything.
///
/// Faults, the first that applies: `TraceFull`; `NoMemory`.
pub(crate) fn make_room_for(trace: &mut Trace, decided: &Decided<'_>) -> Result<(), WorldFault>
    ensures same { StaysAs trace.old trace.new }
    ensures ok { OnOk result (is_some decided.entry.now.speak ≡ true → HasRoom trace.new) }
    ensures fault { IfErr result
        (RefusesSaid decided.entry.now.speak (limit_of trace.old) (length (entries_of trace.old))) }
{
    if decided.speak.is_some() {
        trace.make_room()?;
    }
    Ok(())
}
