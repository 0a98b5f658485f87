//! The audit of a scenario file.

ghost use Rattle.pb_texts.specs.Files.{audit_of};
ghost use Rattle.pb_cli.specs.Answers.{Answers, Exactly};
ghost use Rattle.pb_cli.specs.Auditing.{status_in};

use crate::faults::{CliFault, Status};
use crate::reading::read_input;
use crate::streams::{Sink, Source};
use crate::writing::write_out;
use pb_texts::{Reasons, audited};
use std::alloc::Global;

/// Reads a scenario file until the reader ends, and writes the audit of its run on one thread: a line for the first
/// premise that broke, with the clock in bit times, and a line for the first illegal initiator record, by its index in
/// the trace, from 0. If the file or its run is refused, it writes the line of that fault instead. The whole text is
/// made before the first write.
///
/// On `Ok` the writer holds that text, and the status is `Refused` exactly if the file or the run is refused or a
/// record is illegal. Faults: `Read` if the reader failed, or all 2,097,152 read calls were made and at least half of
/// them were interrupted; `TooLong` for a file of more than 1,048,576 bytes; `Write` if the writer failed, or was
/// interrupted 1,001 times in a row; `NoMemory`. After `Write`, a prefix of the text was written; after another fault,
/// nothing.
pub fn audit_file<R: Source, W: Sink>(
    alloc: Global,
    reader: &mut R,
    writer: &mut W,
) -> Result<Status, CliFault>
    ensures { Answers (Exactly audit_of) result
        (R.view reader.old) (R.view reader.new) (W.view writer.old) (W.view writer.new) }
{
    Ok(audit_with_reasons(alloc, reader, writer)?.status)
}

/// The result of an audit that wrote its whole text.
#[derive(Clone, Copy, Debug, PartialEq, Eq)]
pub struct Found {
    /// The status, as [`audit_file`] returns it.
    pub status: Status,
    /// What the audit found, and why; `None` if the file or its run is refused.
    pub reasons: Option<Reasons>,
}

/// Reads and writes as [`audit_file`] does, and also returns why the audit found what it found.
///
/// Faults: those of `audit_file`.
pub fn audit_with_reasons<R: Source, W: Sink>(
    alloc: Global,
    reader: &mut R,
    writer: &mut W,
) -> Result<Found, CliFault>
    ensures { Answers (Exactly audit_of) (status_in result)
        (R.view reader.old) (R.view reader.new) (W.view writer.old) (W.view writer.new) }
{
    let file = read_input(alloc, reader)?;
    let mut reasons = None;
    let shown = audited(alloc, &file, &mut reasons)?;
    write_out(writer, &shown.text)?;
    Ok(Found {
        status: Status::of(shown.is_refused),
        reasons,
    })
}
