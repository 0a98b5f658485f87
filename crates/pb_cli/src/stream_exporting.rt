//! `ringplay export` in a form that is written entry by entry: from a scenario file to the trace of its run, as it settles.

ghost use Rattle.std.specs.Prelude.{IfOk};
ghost use Rattle.pb_texts.specs.Files.{stream_scenario_of};
ghost use Rattle.pb_stream.specs.Streams.{IsStreaming, rest_of};
ghost use Rattle.pb_cli.specs.Answers.{ReportsWriter};
ghost use Rattle.pb_cli.specs.Bounding.{IsBaud};
ghost use Rattle.pb_cli.specs.Exporting.{ExportsFile, ExportsRun, ExportsScenario, PlaysOn};

use crate::faults::CliFault;
use crate::progress::Observer;
use crate::settled::{Settled, done, refused};
use crate::streaming::{BLOCK, played_up_to};
use crate::streams::Sink;
use crate::writing::write_out;
use pb_export::{StreamExport, StreamExporter, push_stream_head};
use pb_stream::{Progress, Stream};
use pb_texts::{StreamScenario, described_stream, new_line, refused_file, refused_line};
use std::alloc::{AllocError, Global};

/// Plays a scenario file up to its end, and writes its trace in a form that is written entry by entry: what the form begins
/// with, and each entry once it is over, at least 64 at once. Where an event is refused, the entries up to it are written. Where the
/// file or a new world is refused, the line of that fault is written in place of an export. After each instant `observer`
/// is told how far it is.
///
/// On `Ok` the writer holds all entries of the run within 10^12, and the status is `Refused` exactly if there is a fault.
/// Faults: `Write` if the writer failed, or was interrupted 1,001 times in a row; `NoMemory`. Tests show, and no contract
/// says, that a front of the output was written after a fault. Memory does not grow with the run ([`Stream`]).
pub fn export_stream<W: Sink, O: Observer>(
    alloc: Global,
    file: &[u8],
    export: &StreamExport,
    writer: &mut W,
    observer: &mut O,
) -> Result<Settled, CliFault>
    requires { IsBaud export.now.baud }
    ensures bytes { IfOk result (ExportsFile export.now (stream_scenario_of file.now)
        (W.view writer.old).contents (W.view writer.new).contents) }
    ensures faults { ReportsWriter result (W.view writer.old) (W.view writer.new) }
{
    match described_stream(alloc, file) {
        Ok(scenario) => export_scenario(alloc, &scenario, export, writer, observer),
        Err(fault) => {
            write_out(writer, &refused_file(alloc, &fault)?.text)?;
            Ok(refused(Vec::new(alloc)))
        }
    }
}

/// Plays a scenario, and writes its trace as it settles.
fn export_scenario<W: Sink, O: Observer>(
    alloc: Global,
    scenario: &StreamScenario,
    export: &StreamExport,
    writer: &mut W,
    observer: &mut O,
) -> Result<Settled, CliFault>
    requires { IsBaud export.now.baud }
    ensures bytes { IfOk result (ExportsScenario export.now scenario.now
        (W.view writer.old).contents (W.view writer.new).contents) }
    ensures faults { ReportsWriter result (W.view writer.old) (W.view writer.new) }
{
    match Stream::new(alloc, scenario, scenario.until()) {
        Ok(stream) => {
            let mut bytes = Vec::new(alloc);
            push_stream_head(&mut bytes, scenario, export)?;
            write_out(writer, &bytes)?;
            export_run(alloc, scenario, stream, export, writer, observer)
        }
        Err(fault) => {
            write_out(writer, &new_line(alloc, fault)?)?;
            Ok(refused(Vec::new(alloc)))
        }
    }
}

/// Plays a stream to its end, and writes its entries as they settle.
fn export_run<W: Sink, O: Observer>(
    alloc: Global,
    scenario: &StreamScenario,
    mut stream: Stream<'_>,
    export: &StreamExport,
    writer: &mut W,
    observer: &mut O,
) -> Result<Settled, CliFault>
    requires baud { IsBaud export.now.baud }
    requires ready { IsStreaming stream }
    ensures bytes { IfOk result (ExportsRun export.now scenario.now (rest_of stream.entry)
        (W.view writer.old).contents (W.view writer.new).contents) }
    ensures faults { ReportsWriter result (W.view writer.old) (W.view writer.new) }
{
    let mut exporter = StreamExporter::new(scenario, export);
    let mut bytes = Vec::new(alloc);
    loop {
        bytes.clear();
        let ended = play(alloc, scenario, &mut stream, &mut exporter, &mut bytes)?;
        write_out(writer, &bytes)?;
        let status = ended.as_ref().map(|settled| settled.status);
        let until = scenario.until();
        observer.observe(played_up_to(&stream, status, until), until);
        match ended {
            Some(settled) => return Ok(settled),
            None => {}
        }
    }
}

/// Plays an instant, and appends the entries that are over if they are a block and can be written without the others, or
/// at the end all that are left. Returns how the run has ended, if it has.
fn play(
    alloc: Global,
    scenario: &StreamScenario,
    stream: &mut Stream<'_>,
    exporter: &mut StreamExporter,
    bytes: &mut Vec<u8>,
) -> Result<Option<Settled>, AllocError>
    requires baud { IsBaud exporter.old.export.baud }
    requires ready { IsStreaming stream.old }
    ensures { IfOk result (PlaysOn scenario.now stream.old stream.new exporter.old exporter.new
        bytes.old.items bytes.new.items) }
{
    match stream.play(alloc)? {
        Progress::Goes => {
            let past = stream.past();
            let over = past.len();
            if over >= BLOCK && exporter.may_go(stream.entries(), over) {
                exporter.push_past(bytes, alloc, scenario, past)?;
                stream.let_go();
            }
            Ok(None)
        }
        Progress::Ended => {
            exporter.push_rest(bytes, alloc, scenario, stream.entries())?;
            Ok(Some(done(alloc)))
        }
        Progress::Refused { clock, fault } => {
            exporter.push_rest(bytes, alloc, scenario, stream.entries())?;
            Ok(Some(refused(refused_line(alloc, fault, clock)?)))
        }
    }
}
