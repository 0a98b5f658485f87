//! `ringplay export`: from a scenario file to the trace of its run, in a form that other tools read.

ghost use Rattle.pb_export.specs.Exports.{export_of};
ghost use Rattle.pb_cli.specs.Bounding.{IsBaud};
ghost use Rattle.pb_cli.specs.Answers.{Answers, Exactly};

use crate::faults::{CliFault, Status};
use crate::reading::read_input;
use crate::streams::{Sink, Source};
use crate::writing::write_out;
use pb_export::{Export, exported_file};
use std::alloc::Global;

/// Reads a scenario file to the end of the reader, plays it on one thread, and writes its trace in the form that is asked
/// for. Where the file or its run is refused, it writes the line of that fault. The whole output is made before the first
/// write.
///
/// At `Ok` the writer holds that output, and the status is `Refused` exactly where the file or the run is refused. Faults:
/// as those of [`audit_file`](crate::audit_file).
pub fn export_file<R: Source, W: Sink>(
    alloc: Global,
    reader: &mut R,
    writer: &mut W,
    export: &Export,
) -> Result<Status, CliFault>
    requires { IsBaud export.now.baud }
    ensures { Answers (Exactly (export_of export.now)) result
        (R.view reader.old) (R.view reader.new) (W.view writer.old) (W.view writer.new) }
{
    let file = read_input(alloc, reader)?;
    let shown = exported_file(alloc, &file, export)?;
    write_out(writer, &shown.text)?;
    Ok(Status::of(shown.is_refused))
}
