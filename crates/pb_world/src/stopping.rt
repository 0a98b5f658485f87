//! Stops a station.

ghost use Rattle.std.specs.Prelude.{◌≡◌, IfErr, OnErr, OnOk};
ghost use Rattle.pb_taps.specs.Turning.{RefusesStopped};
ghost use Rattle.pb_world.specs.Stopping.{halted_tap, IsStopped};

use pb_taps::{Tap, WorldFault, check_running};

/// Stops the station at a tap.
///
/// Faults, the first that applies: `NoSuchTap`; `NotRunning`.
pub(crate) fn stop(taps: &mut [Tap], tap: usize) -> Result<(), WorldFault>
    ensures ok { OnOk result (IsStopped taps.old tap taps.new) }
    ensures err { OnErr result (taps.new ≡ taps.old) }
    ensures fault { IfErr result (RefusesStopped taps.old tap) }
{
    check_running(taps, tap)?;
    halt(&mut taps[tap]);
    Ok(())
}

/// The tap stops.
fn halt(tap: &mut Tap)
    ensures { tap.new ≡ halted_tap tap.old }
{
    tap.running = false;
    tap.station.stop();
    tap.marks.clear();
}
