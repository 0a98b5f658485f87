//! Starts a station.

ghost use Rattle.std.specs.Prelude.{◌≡◌, ◌≤◌, IfErr, OnOk, OnErr, map};
ghost use Rattle.std.specs.List.{list_any};
ghost use Rattle.law_model.specs.World as world;
ghost use Rattle.pb_medium.specs.Entries.{entry_of};
ghost use Rattle.pb_world.specs.Starting.{fresh_tap, is_up, CanStart, IsStarted, RefusesStart};

use pb_medium::{Entry, is_in_air_by, is_reached};
use pb_taps::{Tap, WorldFault};
use pb_timers::Moment;

/// Starts the station at a tap.
///
/// Faults: those of `check_start`.
pub(crate) fn start(
    entries: &[Entry],
    delay: u32,
    taps: &mut [Tap],
    tap: usize,
    now: Moment,
) -> Result<(), WorldFault>
    requires { now ≤ world.clock_limit }
    ensures ok { OnOk result (IsStarted delay now (map entry_of entries.now) taps.old tap taps.new) }
    ensures err { OnErr result (taps.new ≡ taps.old) }
    ensures fault { IfErr result (RefusesStart delay now (map entry_of entries.now) taps.old tap) }
{
    check_start(entries, delay, taps, tap, now)?;
    let amid = is_reached(entries, delay, tap, now.get());
    start_tap(&mut taps[tap], amid, now);
    Ok(())
}

/// Checks whether the station at a tap can start.
///
/// Faults, the first that applies: `NoSuchTap`; `Running`.
pub(crate) fn check_start(
    entries: &[Entry],
    delay: u32,
    taps: &[Tap],
    tap: usize,
    now: Moment,
) -> Result<(), WorldFault>
    ensures ok { OnOk result (CanStart delay now (map entry_of entries.now) taps.now tap) }
    ensures fault { IfErr result (RefusesStart delay now (map entry_of entries.now) taps.now tap) }
{
    if tap >= taps.len() {
        return Err(WorldFault::NoSuchTap);
    }
    if is_up(entries, delay, &taps[tap], tap, now) {
        return Err(WorldFault::Running);
    }
    Ok(())
}

/// Whether the tap at an index runs, or a telegram of its own is still on the bus.
fn is_up(entries: &[Entry], delay: u32, tap: &Tap, position: usize, now: Moment) -> bool
    ensures { result ≡ is_up delay now (map entry_of entries.now) position tap.now }
{
    tap.running || is_sending(entries, delay, position, now)
}

/// Whether a telegram of the tap is still on the bus: its end has not reached the others.
fn is_sending(entries: &[Entry], delay: u32, tap: usize, now: Moment) -> bool
    ensures { result ≡ list_any (world.is_in_air_by delay now tap) (map entry_of entries.now) }
{
    entries
        .iter()
        .any(|entry| is_in_air_by(entry, delay, tap, now.get()))
}

/// Starts the tap. `amid` is whether something is reaching it.
fn start_tap(tap: &mut Tap, amid: bool, now: Moment)
    requires { now ≤ world.clock_limit }
    ensures { tap.new ≡ fresh_tap tap.old amid now }
{
    tap.running = true;
    tap.since = now.get();
    tap.amid = amid;
    tap.station.start(now);
    tap.marks.clear();
}
