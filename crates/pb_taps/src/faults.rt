//! Why a world or an event is refused.

ghost use Rattle.std.specs.Prelude.{◌≡◌};
ghost use Rattle.pb_taps.specs.Faults.{number_of, number_of_new};
ghost use Rattle.pb_taps.specs.declared.faults.NewFault.TheVariants as new;
ghost use Rattle.pb_taps.specs.declared.faults.WorldFault.TheVariants as world;

use pb_faults::NoMemory;
use std::alloc::{AllocError, AllocFailed};
use thiserror::Error;

/// Why a new world is refused: the first fault that applies, in the order of the numbers.
#[derive(Clone, Copy, Debug, PartialEq, Eq, Error)]
pub enum NewFault {
    /// 1: there is no tap.
    #[error("NoTaps")]
    NoTaps,
    /// 2: there are more than 127 taps.
    #[error("TooManyTaps")]
    TooManyTaps,
    /// 3: a master's address is over the highest station address, or a passive station's is over 126. The number is the
    /// lowest index of such a tap.
    #[error("BadAddress {0}")]
    BadAddress(usize),
    /// 4: memory was refused.
    #[error("NoMemory")]
    NoMemory,
}

impl NewFault {
    /// The fault's number, 1 to 4: its position in the order in which faults are tested.
    pub fn number(&self) -> u8
        ensures { result ≡ number_of_new self.now }
    {
        match self {
            NewFault::NoTaps => 1,
            NewFault::TooManyTaps => 2,
            NewFault::BadAddress(_) => 3,
            NewFault::NoMemory => 4,
        }
    }
}

impl From<AllocError> for NewFault {
    ghost from_gives = { λ _ fault. fault ≡ new.NoMemory };

    fn from(_refused: AllocError) -> NewFault {
        NewFault::NoMemory
    }
}

impl From<NoMemory> for NewFault {
    ghost from_gives = { λ _ fault. fault ≡ new.NoMemory };

    fn from(_refused: NoMemory) -> NewFault {
        NewFault::NoMemory
    }
}

/// Why a world refuses an event: the first fault that applies, in the order of the numbers.
#[derive(Clone, Copy, Debug, PartialEq, Eq, Error)]
pub enum WorldFault {
    /// 1: there is no tap with this index.
    #[error("NoSuchTap")]
    NoSuchTap,
    /// 2: the tap runs, or a telegram of its own is still on the bus.
    #[error("Running")]
    Running,
    /// 3: the tap does not run, or the station for a request is passive.
    #[error("NotRunning")]
    NotRunning,
    /// 4: no telegram on the bus can be damaged in this way, or none has just begun that can be lost.
    #[error("NothingInAir")]
    NothingInAir,
    /// 5: a pass of time or noise of 0 bit times.
    #[error("ZeroTime")]
    ZeroTime,
    /// 6: the new clock would be past the next end on the bus. The number is the moment of that end, in bit times.
    #[error("TooFar {0}")]
    TooFar(u64),
    /// 7: the new clock would be over 1,000,000,000,000 bit times.
    #[error("ClockFull")]
    ClockFull,
    /// 8: 16 requests of this priority wait at the station.
    #[error("QueueFull")]
    QueueFull,
    /// 9: a tap would have more than 64 unread marks. The number is the lowest index of such a tap.
    #[error("InboxFull {0}")]
    InboxFull(usize),
    /// 10: the trace has 100,000 entries.
    #[error("TraceFull")]
    TraceFull,
    /// 11: memory was refused.
    #[error("NoMemory")]
    NoMemory,
}

impl WorldFault {
    /// The fault's number, 1 to 11: its position in the order in which faults are tested.
    pub fn number(&self) -> u8
        ensures { result ≡ number_of self.now }
    {
        match self {
            WorldFault::NoSuchTap => 1,
            WorldFault::Running => 2,
            WorldFault::NotRunning => 3,
            WorldFault::NothingInAir => 4,
            WorldFault::ZeroTime => 5,
            WorldFault::TooFar(_) => 6,
            WorldFault::ClockFull => 7,
            WorldFault::QueueFull => 8,
            WorldFault::InboxFull(_) => 9,
            WorldFault::TraceFull => 10,
            WorldFault::NoMemory => 11,
        }
    }
}

impl From<AllocError> for WorldFault {
    ghost from_gives = { λ _ fault. fault ≡ world.NoMemory };

    fn from(_refused: AllocError) -> WorldFault {
        WorldFault::NoMemory
    }
}

impl<T: Drop> From<AllocFailed<T>> for WorldFault {
    ghost from_gives = { λ _ fault. fault ≡ world.NoMemory };

    fn from(_refused: AllocFailed<T>) -> WorldFault {
        WorldFault::NoMemory
    }
}
