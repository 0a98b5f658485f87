//! Why a scenario file or its run is refused.

use crate::keys::{Path, UnknownKey};
use pb_taps::{NewFault, WorldFault};
use pb_timers::{Moment, ParamFault};
use thiserror::Error;

/// Why a scenario file is refused: the first fault that applies. The order is the version, the table of the whole file
/// with its unknown keys, the end, the bus, the taps and the steps. In each table its unknown keys come first, ordered
/// by their bytes, and then its keys in their order. In the table of a step the word comes first.
#[derive(Debug, PartialEq, Eq, Drop, Error)]
pub enum ScenarioFault {
    /// 1: the file is not TOML.
    #[error("NotToml")]
    NotToml,
    /// 2: the version is neither 1 nor 2, nor, for a stream, 3.
    #[error("BadVersion")]
    BadVersion,
    /// 3: a key is missing.
    #[error("Missing {0}")]
    Missing(Path),
    /// 4: a value has the wrong type.
    #[error("BadKind {0}")]
    BadKind(Path),
    /// 5: a value has no meaning, or is out of its range.
    #[error("BadValue {0}")]
    BadValue(Path),
    /// 6: a table must not have this key.
    #[error("Unknown {0}")]
    Unknown(UnknownKey),
    /// 7: another tap has this name.
    #[error("Twice {0}")]
    Twice(Path),
    /// 8: no tap has this name.
    #[error("NoSuchName {0}")]
    NoSuchName(Path),
    /// 9: a step is earlier than the one before it.
    #[error("StepOrder {0}")]
    StepOrder(Path),
    /// 10: the parameters of the bus are refused.
    #[error("Params {number}", number = .0.number())]
    Params(ParamFault),
    /// 11: there are more than 32 taps (127 from version 2 on), or more than 10,000 steps.
    #[error("TooMany")]
    TooMany,
    /// 12: memory was refused.
    #[error("NoMemory")]
    NoMemory,
}

impl ScenarioFault {
    ghost use Rattle.std.specs.Prelude.{◌≡◌};
    ghost use Rattle.pb_scenario.specs.Fields.{number_of};

    /// The fault's number, 1 to 12.
    pub fn number(&self) -> u8
        ensures { result ≡ number_of self.now }
    {
        match self {
            ScenarioFault::NotToml => 1,
            ScenarioFault::BadVersion => 2,
            ScenarioFault::Missing(_) => 3,
            ScenarioFault::BadKind(_) => 4,
            ScenarioFault::BadValue(_) => 5,
            ScenarioFault::Unknown(_) => 6,
            ScenarioFault::Twice(_) => 7,
            ScenarioFault::NoSuchName(_) => 8,
            ScenarioFault::StepOrder(_) => 9,
            ScenarioFault::Params(_) => 10,
            ScenarioFault::TooMany => 11,
            ScenarioFault::NoMemory => 12,
        }
    }
}

/// Why the run of a scenario ends early.
#[derive(Clone, Copy, Debug, PartialEq, Eq, Error)]
pub enum RunFault {
    /// The taps of the scenario make no world.
    #[error("{0}")]
    New(NewFault),
    /// An event is refused at a clock.
    #[error("{1} at {clock}", clock = .0.get())]
    At(Moment, WorldFault),
}
