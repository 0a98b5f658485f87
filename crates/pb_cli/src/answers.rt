//! Turns the results of std's readers and writers into those of a [`Source`](crate::Source) or [`Sink`](crate::Sink).

ghost use Rattle.std.specs.Prelude.{◌≡◌, ◌<◌, ◌↔◌, IsTrue, IsFalse, IsErr, IfOk, IsErrOf, MatchResult, Ok};
ghost use Rattle.std.specs.IoError.{error_kind};

use crate::streams::{ReadFault, WriteFault};
use std::io;
use std::io::{Error, ErrorKind};

/// The result of a read.
pub fn read_answer(answer: io::Result<usize>) -> Result<usize, ReadFault>
    ensures count { IfOk result (λ count. answer ≡ Ok count) }
    ensures interrupted { IsErrOf result ReadFault.Interrupted ↔ MatchResult answer (λ _. ⊥)
        (λ error. error_kind error ≡ ErrorKind.Interrupted) }
    ensures failed { IsErrOf result ReadFault.Failed → IsErr answer }
{
    match answer {
        Ok(count) => Ok(count),
        Err(error) if is_interrupted(&error) => Err(ReadFault::Interrupted),
        Err(_) => Err(ReadFault::Failed),
    }
}

/// The result of a write; `is_empty` says that no bytes were given. A writer that takes none of some bytes has failed.
pub fn write_answer(answer: io::Result<usize>, is_empty: bool) -> Result<usize, WriteFault>
    ensures count { IfOk result (λ count. answer ≡ Ok count) }
    ensures some { IfOk result (λ count. IsFalse is_empty → 0 < count) }
    ensures interrupted { IsErrOf result WriteFault.Interrupted ↔ MatchResult answer (λ _. ⊥)
        (λ error. error_kind error ≡ ErrorKind.Interrupted) }
    ensures failed { IsErrOf result WriteFault.Failed
        → IfOk answer (λ count. (count ≡ 0) × IsFalse is_empty) }
{
    match answer {
        Ok(count) if count > 0 || is_empty => Ok(count),
        Err(error) if is_interrupted(&error) => Err(WriteFault::Interrupted),
        _ => Err(WriteFault::Failed),
    }
}

/// Whether the error is an interruption.
fn is_interrupted(error: &Error) -> bool
    ensures { IsTrue result ↔ (error_kind error.now ≡ ErrorKind.Interrupted) }
{
    error.kind() == ErrorKind::Interrupted
}
