//! The codes that calls at a bus answer.

ghost use Rattle.std.specs.Prelude.{◌≡◌};
ghost use Rattle.pbfdl.specs.BusCodes.{new_fault_code, result_code};

use crate::codes::{BAD_STATION, NO_MEMORY};
use pb_taps::{NewFault, WorldFault};

/// There is no tap.
pub(crate) const NO_TAPS: u32 = 71;

/// There are more than 127 taps.
pub(crate) const TOO_MANY_TAPS: u32 = 72;

/// The handle has no bus.
pub(crate) const NO_BUS: u32 = 73;

/// The handle has a bus already.
pub(crate) const BUS_IN_USE: u32 = 74;

/// The trace has no such entry.
pub(crate) const NO_ENTRY: u32 = 75;

/// There is no tap with this index.
pub(crate) const NO_SUCH_TAP: u32 = 81;

/// Time is longer than a call takes, or would pass the next end on the bus.
pub(crate) const TOO_FAR: u32 = 86;

/// The clock would be over its last moment.
pub(crate) const CLOCK_FULL: u32 = 87;

/// The code of an event: 0 where it has happened, else that of its fault.
pub(crate) fn event_code(answer: Result<(), WorldFault>) -> u32
    ensures { result ≡ result_code answer }
{
    match answer {
        Ok(()) => 0,
        Err(WorldFault::NoSuchTap) => NO_SUCH_TAP,
        Err(WorldFault::Running) => 82,
        Err(WorldFault::NotRunning) => 83,
        Err(WorldFault::NothingInAir) => 84,
        Err(WorldFault::ZeroTime) => 85,
        Err(WorldFault::TooFar(_)) => TOO_FAR,
        Err(WorldFault::ClockFull) => CLOCK_FULL,
        Err(WorldFault::QueueFull) => 46,
        Err(WorldFault::InboxFull(_)) => 45,
        Err(WorldFault::TraceFull) => 90,
        Err(WorldFault::NoMemory) => NO_MEMORY,
    }
}

/// The code of a fault of a new bus.
pub(crate) fn new_code(fault: NewFault) -> u32
    ensures { result ≡ new_fault_code fault }
{
    match fault {
        NewFault::NoTaps => NO_TAPS,
        NewFault::TooManyTaps => TOO_MANY_TAPS,
        NewFault::BadAddress(_) => BAD_STATION,
        NewFault::NoMemory => NO_MEMORY,
    }
}
