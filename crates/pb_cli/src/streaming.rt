//! `ringplay stream`: from a scenario file to the trace of its run, written as it settles.

ghost use Rattle.std.specs.Prelude.{◌≤◌, IfOk, IfSome};
ghost use Rattle.pb_texts.specs.Files.{stream_scenario_of};
ghost use Rattle.pb_stream.specs.Streams.{IsStreaming, stream_end};
ghost use Rattle.pb_cli.specs.Answers.{ReportsWriter};
ghost use Rattle.pb_cli.specs.Streaming.{StepsOn, WritesFile, WritesScenario};

use crate::faults::{CliFault, Status};
use crate::progress::Observer;
use crate::streams::Sink;
use crate::writing::write_out;
use pb_stream::{Progress, Stream};
use pb_texts::{StreamScenario, described_stream, new_line, refused_file, refused_line};
use std::alloc::Global;

/// How many entries a block has.
pub(crate) const BLOCK: usize = 64;

/// When the lines of a stream are written.
#[derive(Clone, Copy, Debug, PartialEq, Eq)]
pub enum Flush {
    /// At each instant, those of the entries that are over: for people.
    Instants,
    /// As soon as 64 entries are over.
    Blocks,
}

impl Flush {
    /// How many entries that are over are written at once, at least.
    fn entries(self) -> usize {
        match self {
            Flush::Instants => 1,
            Flush::Blocks => BLOCK,
        }
    }
}

/// Plays a scenario file up to `until`, in bit times, or else up to its own end, and writes the line of each entry once the
/// entry is over. Where the file or an event is refused, the line of the fault follows what was written. After each instant
/// `observer` is told how far it is.
///
/// On `Ok` the writer holds the lines of the run within 10^12 entries and that line, and the status is `Refused` exactly if
/// there is one. Faults: `Write` if the writer failed, or was interrupted 1,001 times in a row; `NoMemory`. Tests show, and
/// no contract says, that a front of that text was written after a fault. Memory does not grow with the run ([`Stream`]).
pub fn stream_file<W: Sink, O: Observer>(
    alloc: Global,
    file: &[u8],
    until: Option<u64>,
    flush: Flush,
    writer: &mut W,
    observer: &mut O,
) -> Result<Status, CliFault>
    requires { IfSome until (λ moment. moment ≤ stream_end) }
    ensures text { IfOk result (WritesFile (stream_scenario_of file.now) until
        (W.view writer.old).contents (W.view writer.new).contents) }
    ensures faults { ReportsWriter result (W.view writer.old) (W.view writer.new) }
{
    match described_stream(alloc, file) {
        Ok(scenario) => {
            let end = until.unwrap_or(scenario.until());
            stream_scenario(alloc, &scenario, end, flush, writer, observer)
        }
        Err(fault) => {
            write_out(writer, &refused_file(alloc, &fault)?.text)?;
            Ok(Status::Refused)
        }
    }
}

/// Plays a scenario and writes the lines of its trace as they settle.
fn stream_scenario<W: Sink, O: Observer>(
    alloc: Global,
    scenario: &StreamScenario,
    until: u64,
    flush: Flush,
    writer: &mut W,
    observer: &mut O,
) -> Result<Status, CliFault>
    requires { until ≤ stream_end }
    ensures text { IfOk result
        (WritesScenario scenario.now until (W.view writer.old).contents (W.view writer.new).contents) }
    ensures faults { ReportsWriter result (W.view writer.old) (W.view writer.new) }
{
    let mut stream = match Stream::new(alloc, scenario, until) {
        Ok(stream) => stream,
        Err(fault) => {
            write_out(writer, &new_line(alloc, fault)?)?;
            return Ok(Status::Refused);
        }
    };
    let mut text = Vec::new(alloc);
    loop {
        let ended = step(alloc, &mut stream, &mut text, flush, writer)?;
        observer.observe(played_up_to(&stream, ended, until), until);
        match ended {
            Some(status) => return Ok(status),
            None => {}
        }
    }
}

/// Plays an instant, and writes the lines that it gives. Returns the status where the stream has ended.
fn step<W: Sink>(
    alloc: Global,
    stream: &mut Stream<'_>,
    text: &mut Vec<u8>,
    flush: Flush,
    writer: &mut W,
) -> Result<Option<Status>, CliFault>
    requires { IsStreaming stream.old }
    ensures steps { IfOk result
        (StepsOn stream.old stream.new (W.view writer.old).contents (W.view writer.new).contents) }
    ensures faults { ReportsWriter result (W.view writer.old) (W.view writer.new) }
{
    text.clear();
    let progress = stream.advance(alloc, text, flush.entries())?;
    write_out(writer, text)?;
    match progress {
        Progress::Goes => Ok(None),
        Progress::Ended => Ok(Some(Status::Done)),
        Progress::Refused { clock, fault } => {
            write_out(writer, &refused_line(alloc, fault, clock)?)?;
            Ok(Some(Status::Refused))
        }
    }
}

/// Up to which moment a stream has been played, in bit times: at its end behind its last instant.
pub(crate) fn played_up_to(stream: &Stream<'_>, ended: Option<Status>, until: u64) -> u64 {
    match ended {
        Some(Status::Done) => until,
        _ => stream.clock(),
    }
}
