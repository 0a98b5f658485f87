//! Why a call on a segment is refused.

ghost use Rattle.pb_segment.specs.declared.faults.CommitFault.TheVariants as commit;
ghost use Rattle.pb_segment.specs.declared.faults.GlanceFault.TheVariants as glance;
ghost use Rattle.pb_taps.specs.declared.faults.WorldFault.TheVariants as world;
ghost use Rattle.std.specs.Prelude.{◌≡◌};

use pb_faults::NoMemory;
use pb_world::WorldFault;
use std::alloc::AllocError;
use thiserror::Error;

/// Why a glance or an outlook is refused: the first fault that applies, in this order.
#[derive(Clone, Copy, Debug, PartialEq, Eq, Error)]
pub enum GlanceFault {
    /// 1: the segment has accepted another number of the seat's events than the seat has receipts.
    #[error("Disagree")]
    Disagree,
    /// 2: memory was refused.
    #[error("NoMemory")]
    NoMemory,
}

impl From<AllocError> for GlanceFault {
    ghost from_gives = { λ _ fault. fault ≡ glance.NoMemory };

    fn from(_refused: AllocError) -> GlanceFault {
        GlanceFault::NoMemory
    }
}

impl From<NoMemory> for GlanceFault {
    ghost from_gives = { λ _ fault. fault ≡ glance.NoMemory };

    fn from(_refused: NoMemory) -> GlanceFault {
        GlanceFault::NoMemory
    }
}

/// Why an event of a seat is refused: the first fault that applies, in this order. Refused memory is `World(NoMemory)`,
/// and comes last.
#[derive(Clone, Copy, Debug, PartialEq, Eq, Error)]
pub enum CommitFault {
    /// 1: the decision is for another tap, or the conductor's event is a turn.
    #[error("WrongTap")]
    WrongTap,
    /// 2: the segment has accepted another number of the seat's events than the seat has receipts.
    #[error("Disagree")]
    Disagree,
    /// 3: the station, its unread marks or the clock are not those from which the decision was computed.
    #[error("Stale {turns} {now}")]
    Stale {
        /// How many turns of the tap were accepted.
        turns: usize,
        /// The clock, in bit times.
        now: u64,
    },
    /// 4: the world refuses the event.
    #[error("World {0}")]
    World(WorldFault),
    /// 5: the history has as many events as it may have.
    #[error("HistoryFull")]
    HistoryFull,
}

impl From<WorldFault> for CommitFault {
    ghost from_gives = { λ reason fault. fault ≡ commit.World reason };

    fn from(reason: WorldFault) -> CommitFault {
        CommitFault::World(reason)
    }
}

impl From<AllocError> for CommitFault {
    ghost from_gives = { λ _ fault. fault ≡ commit.World world.NoMemory };

    fn from(_refused: AllocError) -> CommitFault {
        CommitFault::World(WorldFault::NoMemory)
    }
}

impl From<NoMemory> for CommitFault {
    ghost from_gives = { λ _ fault. fault ≡ commit.World world.NoMemory };

    fn from(_refused: NoMemory) -> CommitFault {
        CommitFault::World(WorldFault::NoMemory)
    }
}

/// Why a segment is not closed: the first fault that applies, in this order.
#[derive(Clone, Copy, Debug, PartialEq, Eq, Error)]
pub enum CloseFault {
    /// 1: there are more or fewer tap seats than taps.
    #[error("MissingSeat")]
    MissingSeat,
    /// 2: receipts or outlooks of the seats differ from those of the history, or the history began with another world.
    #[error("Disagree")]
    Disagree,
}
