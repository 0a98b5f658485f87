//! `ringplay stream --audit`: from a scenario file to the audit of its run, written as it is found.

ghost use Rattle.std.specs.Prelude.{◌≡◌, ◌≤◌, ◌++◌, IfOk, IfSome, OnOk};
ghost use Rattle.pb_texts.specs.Files.{stream_scenario_of};
ghost use Rattle.pb_stream.specs.Audits.{IsAuditing};
ghost use Rattle.pb_stream.specs.Streams.{stream_end};
ghost use Rattle.pb_cli.specs.Answers.{ReportsWriter};
ghost use Rattle.pb_cli.specs.StreamAudits.{EndsWith, StepsOn, WritesAudit, WritesAuditFile};
ghost use Rattle.pb_cli.specs.StreamAudits.{left_text, news_text, text_of};

use crate::faults::{CliFault, Status};
use crate::progress::Observer;
use crate::streams::Sink;
use crate::writing::write_out;
use pb_scenario::Audit;
use pb_stream::{AuditStream, Progress};
use pb_texts::{
    StreamScenario, described_stream, new_line, push_legality, push_premise, refused_file,
    refused_line,
};
use std::alloc::{AllocError, Global};

/// Plays a scenario file up to `until`, in bit times, or else up to its own end, and writes the lines of its audit: that of a
/// premise once it breaks, that of an illegal record once the record is over, and the others at the end. Where the file or
/// an event is refused, the line of the fault follows what was written. After each instant `observer` is told how far it is.
///
/// On `Ok` the writer holds what the audit of the run within 10^12 entries finds, and the status is `Refused` exactly if a
/// record is illegal or there is a fault. Faults: `Write` if the writer failed, or was interrupted 1,001 times in a row;
/// `NoMemory`. Tests show, and no contract says, that a front of that text was written after a fault. Memory does not grow
/// with the run ([`AuditStream`]).
pub fn audit_stream_file<W: Sink, O: Observer>(
    alloc: Global,
    file: &[u8],
    until: Option<u64>,
    writer: &mut W,
    observer: &mut O,
) -> Result<Status, CliFault>
    requires { IfSome until (λ moment. moment ≤ stream_end) }
    ensures text { IfOk result (WritesAuditFile (stream_scenario_of file.now) until
        (W.view writer.old).contents (W.view writer.new).contents) }
    ensures faults { ReportsWriter result (W.view writer.old) (W.view writer.new) }
{
    match described_stream(alloc, file) {
        Ok(scenario) => {
            let end = until.unwrap_or(scenario.until());
            audit_scenario(alloc, &scenario, end, writer, observer)
        }
        Err(fault) => {
            write_out(writer, &refused_file(alloc, &fault)?.text)?;
            Ok(Status::Refused)
        }
    }
}

/// Plays a scenario and writes the lines of its audit as they are found.
fn audit_scenario<W: Sink, O: Observer>(
    alloc: Global,
    scenario: &StreamScenario,
    until: u64,
    writer: &mut W,
    observer: &mut O,
) -> Result<Status, CliFault>
    requires { until ≤ stream_end }
    ensures text { IfOk result
        (WritesAudit scenario.now until (W.view writer.old).contents (W.view writer.new).contents) }
    ensures faults { ReportsWriter result (W.view writer.old) (W.view writer.new) }
{
    let mut stream = match AuditStream::new(alloc, scenario, until) {
        Ok(stream) => stream,
        Err(fault) => {
            write_out(writer, &new_line(alloc, fault)?)?;
            return Ok(Status::Refused);
        }
    };
    let mut text = Vec::new(alloc);
    loop {
        match step(alloc, &mut stream, &mut text, writer)? {
            Progress::Goes => observer.observe(stream.clock(), until),
            Progress::Ended => {
                observer.observe(until, until);
                return Ok(Status::of(stream.found().illegal.is_some()));
            }
            Progress::Refused { clock, .. } => {
                observer.observe(clock, until);
                return Ok(Status::Refused);
            }
        }
    }
}

/// Plays an instant, and writes the lines that it gives.
fn step<W: Sink>(
    alloc: Global,
    stream: &mut AuditStream<'_>,
    text: &mut Vec<u8>,
    writer: &mut W,
) -> Result<Progress, CliFault>
    requires { IsAuditing stream.old }
    ensures steps { IfOk result (λ progress.
        StepsOn progress stream.old stream.new (W.view writer.old).contents (W.view writer.new).contents) }
    ensures faults { ReportsWriter result (W.view writer.old) (W.view writer.new) }
{
    let before = *stream.found();
    let progress = stream.advance(alloc)?;
    text.clear();
    push_news(text, &before, stream.found())?;
    push_end(alloc, text, progress, stream.found())?;
    write_out(writer, text)?;
    Ok(progress)
}

/// Appends what stands behind the lines of what was found, where that is the end: those of what was not found, or the line
/// of the fault.
fn push_end(
    alloc: Global,
    text: &mut Vec<u8>,
    progress: Progress,
    found: &Audit,
) -> Result<(), AllocError>
    ensures { OnOk result (EndsWith progress found.now text.old.items text.new.items) }
{
    match progress {
        Progress::Goes => Ok(()),
        Progress::Ended => push_left(text, found),
        Progress::Refused { clock, fault } => {
            text.extend_from_slice(&refused_line(alloc, fault, clock)?)
        }
    }
}

/// Appends the lines of what was found since `before`. The line of a record comes behind that of a premise.
fn push_news(text: &mut Vec<u8>, before: &Audit, now: &Audit) -> Result<(), AllocError>
    ensures { OnOk result (text.new.items ≡ text.old.items ++ news_text before.now now.now) }
{
    if before.premise.is_none() {
        push_found(text, now)
    } else if before.illegal.is_none() && now.illegal.is_some() {
        push_legality(text, now.illegal)
    } else {
        Ok(())
    }
}

/// Appends the lines of what was found.
fn push_found(text: &mut Vec<u8>, found: &Audit) -> Result<(), AllocError>
    ensures { OnOk result (text.new.items ≡ text.old.items ++ text_of found.now) }
{
    if found.premise.is_none() {
        return Ok(());
    }
    push_premise(text, found.premise)?;
    if found.illegal.is_some() {
        push_legality(text, found.illegal)?;
    }
    Ok(())
}

/// Appends the lines that are not written when the run ends: those of what was not found.
fn push_left(text: &mut Vec<u8>, found: &Audit) -> Result<(), AllocError>
    ensures { OnOk result (text.new.items ≡ text.old.items ++ left_text found.now) }
{
    if found.premise.is_none() {
        push_premise(text, None)?;
        push_legality(text, found.illegal)
    } else if found.illegal.is_none() {
        push_legality(text, None)
    } else {
        Ok(())
    }
}
