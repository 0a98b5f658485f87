//! `ringplay export --to svg` of a scenario whose steps may repeat: from its file to the picture of its run.

ghost use Rattle.std.specs.Prelude.{◌≡◌, IfOk};
ghost use Rattle.pb_texts.specs.Files.{stream_scenario_of};
ghost use Rattle.pb_stream.specs.Streams.{IsStreaming, rest_of};
ghost use Rattle.pb_cli.specs.Answers.{ReportsWriter};
ghost use Rattle.pb_cli.specs.StreamDrawing.{AreInOrder, DrawsFile, DrawsRun, DrawsScenario, HasEnded, Plays, up_to};

use crate::faults::CliFault;
use crate::progress::Observer;
use crate::settled::{Settled, done, refused};
use crate::streaming::played_up_to;
use crate::streams::Sink;
use crate::writing::write_out;
use pb_export::{Window, push_stream_svg};
use pb_stream::{Progress, Stream};
use pb_texts::{StreamScenario, described_stream, new_line, refused_file, refused_line};
use std::alloc::{AllocError, Global};

/// How a run has ended.
#[derive(Debug, Drop)]
struct Ending {
    settled: Settled,
    /// When an event was refused, in bit times, if one was.
    refused_at: Option<u64>,
}

/// Plays a scenario file of any version up to its end, and writes a picture of its trace. Where an event is refused, the
/// picture ends there. Where the file or a new world is refused, the line of that fault is written in place of
/// a picture. After each instant `observer` is told how far the run is.
///
/// On `Ok` the writer holds the picture of all entries of the run within 10^12, and the status is `Refused` exactly if there
/// is a fault. Faults: `Write` if the writer failed, or was interrupted 1,001 times in a row; `NoMemory`: the entries are
/// kept up to the end.
pub fn draw_stream<W: Sink, O: Observer>(
    alloc: Global,
    file: &[u8],
    window: Window,
    writer: &mut W,
    observer: &mut O,
) -> Result<Settled, CliFault>
    ensures bytes { IfOk result (DrawsFile window (stream_scenario_of file.now)
        (W.view writer.old).contents (W.view writer.new).contents) }
    ensures faults { ReportsWriter result (W.view writer.old) (W.view writer.new) }
{
    match described_stream(alloc, file) {
        Ok(scenario) => draw_scenario(alloc, &scenario, window, writer, observer),
        Err(fault) => {
            write_out(writer, &refused_file(alloc, &fault)?.text)?;
            Ok(refused(Vec::new(alloc)))
        }
    }
}

/// Plays a scenario, and writes the picture of its trace.
fn draw_scenario<W: Sink, O: Observer>(
    alloc: Global,
    scenario: &StreamScenario,
    window: Window,
    writer: &mut W,
    observer: &mut O,
) -> Result<Settled, CliFault>
    ensures bytes { IfOk result (DrawsScenario window scenario.now
        (W.view writer.old).contents (W.view writer.new).contents) }
    ensures faults { ReportsWriter result (W.view writer.old) (W.view writer.new) }
{
    match Stream::new(alloc, scenario, scenario.until()) {
        Ok(stream) => draw_run(alloc, scenario, stream, window, writer, observer),
        Err(fault) => {
            write_out(writer, &new_line(alloc, fault)?)?;
            Ok(refused(Vec::new(alloc)))
        }
    }
}

/// Plays a stream to its end, and writes the picture of its entries.
fn draw_run<W: Sink, O: Observer>(
    alloc: Global,
    scenario: &StreamScenario,
    mut stream: Stream<'_>,
    window: Window,
    writer: &mut W,
    observer: &mut O,
) -> Result<Settled, CliFault>
    requires ready { IsStreaming stream }
    requires order { AreInOrder (rest_of stream) }
    ensures bytes { IfOk result (DrawsRun window scenario.now (rest_of stream.entry)
        (W.view writer.old).contents (W.view writer.new).contents) }
    ensures faults { ReportsWriter result (W.view writer.old) (W.view writer.new) }
{
    let ended = play_out(alloc, &mut stream, scenario.until(), observer)?;
    let shown = shown_of(window, ended.refused_at);
    let mut picture = Vec::new(alloc);
    push_stream_svg(&mut picture, alloc, scenario, stream.entries(), shown)?;
    write_out(writer, &picture)?;
    Ok(ended.settled)
}

/// What of a window a run has up to the moment at which an event was refused, if one was.
fn shown_of(window: Window, refused_at: Option<u64>) -> Window
    ensures { result ≡ up_to window refused_at }
{
    match refused_at {
        Some(moment) => Window {
            from: window.from,
            until: window.until.min(moment),
        },
        None => window,
    }
}

/// Plays a stream to its end, and keeps all entries.
fn play_out<O: Observer>(
    alloc: Global,
    stream: &mut Stream<'_>,
    until: u64,
    observer: &mut O,
) -> Result<Ending, AllocError>
    requires { IsStreaming stream.old }
    ensures { IfOk result (HasEnded stream.old stream.new) }
{
    loop {
        let ended = play(alloc, stream)?;
        let status = ended.as_ref().map(|ending| ending.settled.status);
        observer.observe(played_up_to(stream, status, until), until);
        match ended {
            Some(ending) => return Ok(ending),
            None => {}
        }
    }
}

/// Plays an instant, and keeps all entries. Returns how the run has ended, if it has.
fn play(alloc: Global, stream: &mut Stream<'_>) -> Result<Option<Ending>, AllocError>
    requires { IsStreaming stream.old }
    ensures { IfOk result (Plays stream.old stream.new) }
{
    match stream.play(alloc)? {
        Progress::Goes => Ok(None),
        Progress::Ended => Ok(Some(Ending {
            settled: done(alloc),
            refused_at: None,
        })),
        Progress::Refused { clock, fault } => Ok(Some(Ending {
            settled: refused(refused_line(alloc, fault, clock)?),
            refused_at: Some(clock),
        })),
    }
}
