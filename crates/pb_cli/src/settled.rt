//! How a call ended that writes a run as it settles.

ghost use Rattle.std.specs.Prelude.{◌≡◌, []};
ghost use Rattle.pb_cli.specs.declared.faults.Status.TheVariants as Status;

use crate::faults::Status;
use std::alloc::Global;

/// How a call ended that writes a run as it settles.
#[derive(Debug, Drop)]
pub struct Settled {
    /// Whether something was refused.
    pub status: Status,
    /// The line of what was refused where the output has no place for it, as that of an event; else nothing.
    pub line: Vec<u8>,
}

/// Nothing was refused.
pub(crate) fn done(alloc: Global) -> Settled
    ensures status { result.status ≡ Status.Done }
    ensures line { result.line.items ≡ [] }
{
    Settled {
        status: Status::Done,
        line: Vec::new(alloc),
    }
}

/// Something was refused.
pub(crate) fn refused(line: Vec<u8>) -> Settled
    ensures { result ≡ record { status = Status.Refused; line = line } }
{
    Settled {
        status: Status::Refused,
        line,
    }
}
