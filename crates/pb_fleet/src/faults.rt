//! Why a fleet returns no report.

ghost use Rattle.std.specs.Prelude.{◌≡◌};
ghost use Rattle.pb_fleet.specs.Faults.{IsOfPlay};
ghost use Rattle.pb_fleet.specs.declared.faults.PlayFault.TheVariants as play;

use pb_faults::NoMemory;
use pb_segment::{CloseFault, CommitFault, NewFault};
use std::alloc::AllocError;
use thiserror::Error;

/// Why a fleet returns no report. `BadWorkers` is tested first, and then `New`, which is the last one here; both before
/// any worker starts. If there are several other faults, the first in this list is returned, and of several of one kind
/// that of the tap with the lowest index.
#[derive(Clone, Copy, Debug, PartialEq, Eq, Error)]
pub enum FleetFault {
    /// 1: the number of workers is not 1 to 64.
    #[error("BadWorkers")]
    BadWorkers,
    /// 2: a tap could not take its turn.
    #[error("Commit {tap} {now} {fault}")]
    Commit {
        /// The index of the tap, from 0.
        tap: usize,
        /// The clock, in bit times.
        now: u64,
        /// The fault of the segment; `Disagree` also if the glance disagreed.
        fault: CommitFault,
    },
    /// 3: an event that is no turn could not be applied, or an outlook failed.
    #[error("Drive {now} {fault}")]
    Drive {
        /// The clock, in bit times.
        now: u64,
        /// The fault of the segment; `Disagree` also if the outlook disagreed.
        fault: CommitFault,
    },
    /// 4: the gate returned false for a tap.
    #[error("GateClosed {0}")]
    GateClosed(usize),
    /// 5: a thread could not be spawned, also because memory was refused.
    #[error("NoThread")]
    NoThread,
    /// 6: the segment could not be closed, or what has happened on it is not the scenario's run (`Disagree`).
    #[error("Closing {0}")]
    Closing(CloseFault),
    /// 7: memory was refused, except in a commit, in a drive or for a thread.
    #[error("NoMemory")]
    NoMemory,
    /// 8: the scenario's taps make no new world.
    #[error("New {0}")]
    New(NewFault),
}

/// Why a fleet stops that has a world to play on.
#[derive(Clone, Copy, Debug)]
pub(crate) enum PlayFault {
    Commit {
        tap: usize,
        now: u64,
        fault: CommitFault,
    },
    Drive {
        now: u64,
        fault: CommitFault,
    },
    GateClosed(usize),
    NoThread,
    Closing(CloseFault),
    NoMemory,
}

impl From<PlayFault> for FleetFault {
    ghost from_gives = { λ _ fault. IsOfPlay fault };

    fn from(fault: PlayFault) -> FleetFault {
        match fault {
            PlayFault::Commit { tap, now, fault } => FleetFault::Commit { tap, now, fault },
            PlayFault::Drive { now, fault } => FleetFault::Drive { now, fault },
            PlayFault::GateClosed(tap) => FleetFault::GateClosed(tap),
            PlayFault::NoThread => FleetFault::NoThread,
            PlayFault::Closing(fault) => FleetFault::Closing(fault),
            PlayFault::NoMemory => FleetFault::NoMemory,
        }
    }
}

impl From<AllocError> for PlayFault {
    ghost from_gives = { λ _ fault. fault ≡ play.NoMemory };

    fn from(_refused: AllocError) -> PlayFault {
        PlayFault::NoMemory
    }
}

impl From<NoMemory> for PlayFault {
    ghost from_gives = { λ _ fault. fault ≡ play.NoMemory };

    fn from(_refused: NoMemory) -> PlayFault {
        PlayFault::NoMemory
    }
}

impl PlayFault {
    /// How faults are ordered: by kind, then by tap.
    fn rank(self) -> (u8, usize) {
        match self {
            PlayFault::Commit { tap, .. } => (2, tap),
            PlayFault::Drive { .. } => (3, 0),
            PlayFault::GateClosed(tap) => (4, tap),
            PlayFault::NoThread => (5, 0),
            PlayFault::Closing(_) => (6, 0),
            PlayFault::NoMemory => (7, 0),
        }
    }
}

/// The lesser of two faults; if one is `None`, the other.
pub(crate) fn least(one: Option<PlayFault>, other: Option<PlayFault>) -> Option<PlayFault> {
    match (one, other) {
        (None, fault) | (fault, None) => fault,
        (Some(one), Some(other)) => {
            if other.rank() < one.rank() {
                Some(other)
            } else {
                Some(one)
            }
        }
    }
}
