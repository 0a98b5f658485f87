//! `ringplay capture`: from a scenario file to what a listener hears of its run, as it settles.

ghost use Rattle.std.specs.Prelude.{IfOk};
ghost use Rattle.std.specs.Option.{option_map};
ghost use Rattle.std.specs.String.{string_bytes};
ghost use Rattle.pb_texts.specs.Files.{stream_scenario_of};
ghost use Rattle.pb_stream.specs.Streams.{IsStreaming};
ghost use Rattle.pb_cli.specs.Answers.{ReportsWriter};
ghost use Rattle.pb_cli.specs.Capturing.{CapturesFile, CapturesScenario, PlaysOn, Refuses};

use crate::faults::CliFault;
use crate::progress::Observer;
use crate::settled::{Settled, done, refused};
use crate::streaming::{BLOCK, played_up_to};
use crate::streams::Sink;
use crate::writing::write_out;
use pb_stream::{Progress, Stream};
use pb_texts::{
    Capture, StreamScenario, described_stream, new_line, no_tap_line, refused_file, refused_line,
};
use std::alloc::{AllocError, Global};

/// Plays a scenario file up to its end, and writes what a listener hears of the run, a line for each burst, as
/// [`monitor`](crate::monitor) reads it, once the burst is over; 64 entries at once. Without a tap each telegram is heard as
/// it was sent. Where an event is refused, what was heard before is written. Where the file or a new world is refused, the
/// line of that fault is written in place of a capture. After each instant `observer` is told how far it is.
///
/// On `Ok` the status is `Refused` exactly if there is a fault or no tap has the name; the line of a refused event, and the
/// one that says that there is no such tap, are returned beside it. Faults: `Write` if the writer failed, or was interrupted
/// 1,001 times in a row; `NoMemory`. Tests show, and no contract says, which lines are written, also before a fault. Memory
/// does not grow with the run ([`Stream`]).
pub fn capture_file<W: Sink, O: Observer>(
    alloc: Global,
    file: &[u8],
    tap: Option<String>,
    writer: &mut W,
    observer: &mut O,
) -> Result<Settled, CliFault>
    ensures text { IfOk result
        (CapturesFile (stream_scenario_of file.now) (option_map (λ t. string_bytes t) tap)
        (W.view writer.old).contents (W.view writer.new).contents) }
    ensures faults { ReportsWriter result (W.view writer.old) (W.view writer.new) }
{
    let scenario = match described_stream(alloc, file) {
        Ok(scenario) => scenario,
        Err(fault) => return refuse(alloc, writer, &refused_file(alloc, &fault)?.text),
    };
    match tap {
        None => capture_scenario(
            alloc,
            &scenario,
            Capture::everywhere(alloc)?,
            writer,
            observer,
        ),
        Some(name) => match Capture::of_tap(alloc, scenario.once(), name.as_str()) {
            Some(capture) => capture_scenario(alloc, &scenario, capture, writer, observer),
            None => Ok(refused(no_tap_line(alloc, name.as_str())?)),
        },
    }
}

/// Writes the line of a fault in place of a capture.
fn refuse<W: Sink>(alloc: Global, writer: &mut W, line: &[u8]) -> Result<Settled, CliFault>
    ensures text { IfOk result (Refuses line.now (W.view writer.old).contents (W.view writer.new).contents) }
    ensures faults { ReportsWriter result (W.view writer.old) (W.view writer.new) }
{
    write_out(writer, line)?;
    Ok(refused(Vec::new(alloc)))
}

/// Plays a scenario, and writes what is heard as it settles.
fn capture_scenario<W: Sink, O: Observer>(
    alloc: Global,
    scenario: &StreamScenario,
    mut capture: Capture,
    writer: &mut W,
    observer: &mut O,
) -> Result<Settled, CliFault>
    ensures text { IfOk result
        (CapturesScenario scenario.now (W.view writer.old).contents (W.view writer.new).contents) }
    ensures faults { ReportsWriter result (W.view writer.old) (W.view writer.new) }
{
    let mut stream = match Stream::new(alloc, scenario, scenario.until()) {
        Ok(stream) => stream,
        Err(fault) => return refuse(alloc, writer, &new_line(alloc, fault)?),
    };
    let mut text = Vec::new(alloc);
    loop {
        text.clear();
        let ended = play(
            alloc,
            &mut stream,
            &mut capture,
            &mut text,
            scenario.until(),
        )?;
        write_out(writer, &text)?;
        let status = ended.as_ref().map(|settled| settled.status);
        let until = scenario.until();
        observer.observe(played_up_to(&stream, status, until), until);
        match ended {
            Some(settled) => return Ok(settled),
            None => {}
        }
    }
}

/// Plays an instant, and appends what is heard of the entries that are over if they are a block, or at the end of all that
/// are left. Returns how the run has ended, if it has.
fn play(
    alloc: Global,
    stream: &mut Stream<'_>,
    capture: &mut Capture,
    text: &mut Vec<u8>,
    until: u64,
) -> Result<Option<Settled>, AllocError>
    requires { IsStreaming stream.old }
    ensures { IfOk result (PlaysOn stream.old stream.new) }
{
    capture.note(stream.clock(), stream.today())?;
    match stream.play(alloc)? {
        Progress::Goes => {
            let over = stream.past().len();
            if over >= BLOCK {
                capture.hear(alloc, stream.entries(), over, text)?;
                stream.let_go();
            }
            Ok(None)
        }
        Progress::Ended => {
            capture.finish(alloc, stream.entries(), until, text)?;
            Ok(Some(done(alloc)))
        }
        Progress::Refused { clock, fault } => {
            capture.finish(alloc, stream.entries(), clock, text)?;
            Ok(Some(refused(refused_line(alloc, fault, clock)?)))
        }
    }
}
