//! How a call ended: its status, or its fault.

ghost use Rattle.std.specs.Prelude.{◌≡◌};
ghost use Rattle.pb_cli.specs.declared.faults.CliFault.TheVariants.{NoMemory};

use std::alloc::{AllocError, AllocFailed};
use thiserror::Error;

/// The status of a call that wrote its whole text: the program's exit statuses 0 and 1.
#[derive(Clone, Copy, Debug, PartialEq, Eq)]
pub enum Status {
    /// Exit status 0: nothing was refused.
    Done,
    /// Exit status 1: some of the input was refused; the text says what.
    Refused,
}

impl Status {
    ghost use Rattle.pb_cli.specs.Statuses.{status_of};

    /// The status of a call, by whether its text reports a refusal.
    pub(crate) fn of(is_refused: bool) -> Status
        ensures { result ≡ status_of is_refused }
    {
        if is_refused {
            Status::Refused
        } else {
            Status::Done
        }
    }
}

/// Why a call did not write its whole text. `Display` gives the program's words for it.
#[derive(Clone, Copy, Debug, PartialEq, Eq, Error)]
pub enum CliFault {
    /// The reader failed, or the limit of 2,097,152 read calls was reached. Nothing was written.
    #[error("read fault")]
    Read,
    /// The input has more than 1,048,576 bytes. Nothing was written.
    #[error("input too long")]
    TooLong,
    /// The writer failed, or was interrupted more than 1,000 times in a row. A prefix of the text was written.
    #[error("write fault")]
    Write,
    /// Memory was refused. Nothing was written.
    #[error("no memory")]
    NoMemory,
}

impl From<AllocError> for CliFault {
    ghost from_gives = { λ _ fault. fault ≡ NoMemory };

    fn from(_refused: AllocError) -> CliFault {
        CliFault::NoMemory
    }
}

impl<T: Drop> From<AllocFailed<T>> for CliFault {
    ghost from_gives = { λ _ fault. fault ≡ NoMemory };

    fn from(_refused: AllocFailed<T>) -> CliFault {
        CliFault::NoMemory
    }
}
