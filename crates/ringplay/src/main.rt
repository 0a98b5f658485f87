//! `ringplay`: plays, audits and exports scenarios of the PROFIBUS data link layer (FDL), and turns its telegrams from hex
//! to text.
//!
//! Opens the streams, calls `pb_cli`, and turns its result into an exit status: 0 done, 1 input refused, 2 usage, 3 a
//! read or write fault or an input that is too long, 4 no memory.
#![tactic(auto)]

ghost use Rattle.std.specs.Prelude.{◌≡◌, ◌≤◌, IfOk, IfSome};
ghost use Rattle.pb_cli.specs.Asking.{IsWithinLimits};
ghost use Rattle.pb_cli.specs.Bounding.{IsBaud};
ghost use Rattle.pb_cli.specs.Playing.{IsUpTo, line_limit, worker_limit};
ghost use Rattle.pb_stream.specs.Streams.{stream_end};
ghost use Rattle.ringplay.specs.ExitStatus.{exit_status_of, words_status_of};

use looking_on::{ErrorLines, ProgressLine, Shown, Terminals};
use pb_cli::{
    Ask, AskFault, Asked, Bus, CliFault, CountedReader, CountedWriter, Flush, Options, Settled,
    Status, VERSION, ask_with_options, audit_stream_file, audit_with_reasons, bounds_file, bus_of,
    capture_file, decode_lines, draw_stream, export_capture, export_file, export_stream, monitor,
    play, read_input, stream_file, write_out,
};
use pb_export::{CaptureExport, Export, StreamExport, Window};
use pb_scenario::ScenarioFault;
use pb_texts::{
    MOST_EVENTS, described, explain, explain_audit, explain_bus, explain_settling, warn,
    warn_of_stream,
};
use std::alloc::{AllocError, Global};
use std::fmt::Display;
use std::fs::Files;
use std::io::{Error, ErrorKind, IsTerminal, Read};
use std::process::ExitCode;
use std::rt::{Clock, Env};
use std::sync::Wait;
use std::thread::Threads;
use std::{env, fs, io};

mod looking_on;
#[cfg(test)]
mod tests;

const DONE: u8 = 0;

const REFUSED: u8 = 1;

const USAGE: u8 = 2;

const STREAM: u8 = 3;

const MEMORY: u8 = 4;

/// The path that means standard input.
const STANDARD_INPUT: &str = "-";

fn main(rt: HostRuntime) -> ExitCode {
    let terminals = Terminals {
        output: rt.stdout().is_terminal(),
        errors: rt.stderr().is_terminal(),
    };
    let status = match asked(&rt) {
        Ok(asked) => exit_status(&rt, answer(&rt, asked, terminals)),
        Err(fault) => words_status(&rt, fault),
    };
    ExitCode::from(status)
}

/// What the program's words ask for. A word that is not valid text is a usage fault.
fn asked(rt: &(impl AllocGlobal + Env)) -> Result<Asked, AskFault>
    ensures { IfOk result (λ asked. IsWithinLimits asked.ask) }
{
    match env::args(rt) {
        Ok(words) => {
            let words: Vec<String> = words.collect(rt.alloc())?;
            ask_with_options(rt.alloc(), &words)
        }
        Err(error) if error.kind() == ErrorKind::OutOfMemory => Err(AskFault::NoMemory),
        Err(_) => {
            let text = String::from_str(rt.alloc(), "error: a word is no text\n")?;
            Err(AskFault::Usage(text))
        }
    }
}

/// Does what is asked.
fn answer<T: AllocGlobal + Clock + Eprint + Files + Input + Print + Threads + Wait + Sync>(
    rt: &T,
    asked: Asked,
    terminals: Terminals,
) -> Result<Status, CliFault>
    requires { IsWithinLimits asked.ask }
{
    let Asked { ask, is_quiet } = asked;
    let shown_if = |is_asked| terminals.shown(is_asked, is_quiet);
    match ask {
        Ask::Decode => decode(rt),
        Ask::Run {
            file,
            workers,
            last,
        } => run(rt, file.as_str(), workers, last, is_quiet),
        Ask::Audit { file } => audit(rt, file.as_str(), is_quiet),
        Ask::Bounds { file, baud, json } => bounds(rt, file.as_str(), baud, json, is_quiet),
        Ask::Monitor {
            file,
            options,
            export,
        } => watch(rt, file, options, export, is_quiet),
        Ask::Capture { file, tap } => capture(rt, file.as_str(), tap, shown_if(false), is_quiet),
        Ask::Export {
            file,
            export: asked,
        } => export(rt, file.as_str(), &asked, shown_if(false), is_quiet),
        Ask::Stream {
            file,
            until,
            progress,
            audit,
        } => {
            let shown = shown_if(progress);
            if audit {
                stream_audit(rt, file.as_str(), until, shown, is_quiet)
            } else {
                stream(rt, file.as_str(), until, terminals.flush(), shown, is_quiet)
            }
        }
        Ask::Version => version(rt),
    }
}

/// `ringplay decode`, from standard input to standard output.
fn decode(rt: &(impl AllocGlobal + Input + Print)) -> Result<Status, CliFault> {
    let mut reader = CountedReader::new(rt.reader());
    let mut writer = CountedWriter::new(io::writer(rt));
    decode_lines(rt.alloc(), &mut reader, &mut writer)
}

/// `ringplay run FILE`, to standard output; hints go to standard error.
fn run<T: AllocGlobal + Eprint + Files + Input + Print + Threads + Wait + Sync>(
    rt: &T,
    path: &str,
    workers: Option<usize>,
    last: Option<usize>,
    is_quiet: bool,
) -> Result<Status, CliFault>
    requires workers { IsUpTo worker_limit workers }
    requires last { IsUpTo line_limit last }
{
    let file = scenario_file(rt, path, is_quiet)?;
    let mut reader = CountedReader::new(file.as_slice());
    let mut writer = CountedWriter::new(io::writer(rt));
    let status = play(rt, rt.alloc(), &mut reader, &mut writer, workers, last)?;
    if let Status::Refused = status
        && !is_quiet
    {
        hint(
            rt,
            explain(rt.alloc(), shown(path), &file, Some(MOST_EVENTS)),
        );
    }
    Ok(status)
}

/// `ringplay audit FILE`, to standard output; hints go to standard error.
fn audit<T: AllocGlobal + Eprint + Files + Input + Print>(
    rt: &T,
    path: &str,
    is_quiet: bool,
) -> Result<Status, CliFault> {
    let file = contents(rt, path, is_quiet)?;
    let mut reader = CountedReader::new(file.as_slice());
    let mut writer = CountedWriter::new(io::writer(rt));
    let found = audit_with_reasons(rt.alloc(), &mut reader, &mut writer)?;
    if !is_quiet {
        let text = explain_audit(rt.alloc(), shown(path), &file, found.reasons);
        hint(rt, text);
    }
    Ok(found.status)
}

/// `ringplay bounds FILE`, to standard output; hints go to standard error.
fn bounds<T: AllocGlobal + Eprint + Files + Input + Print>(
    rt: &T,
    path: &str,
    baud: u32,
    json: bool,
    is_quiet: bool,
) -> Result<Status, CliFault>
    requires { IsBaud baud }
{
    let file = contents(rt, path, is_quiet)?;
    let mut reader = CountedReader::new(file.as_slice());
    let mut writer = CountedWriter::new(io::writer(rt));
    let status = bounds_file(rt.alloc(), &mut reader, &mut writer, baud, json)?;
    hint_of(rt, path, &file, status, is_quiet);
    Ok(status)
}

/// `ringplay monitor [FILE]`, from standard input to standard output; hints, and what an export or a summary for programs has
/// no place for, go to standard error.
fn watch<T: AllocGlobal + Eprint + Files + Input + Print>(
    rt: &T,
    path: Option<String>,
    options: Options,
    export: Option<CaptureExport>,
    is_quiet: bool,
) -> Result<Status, CliFault>
    requires { IfSome export (λ x. IsBaud x.baud) }
{
    let mut writer = CountedWriter::new(io::writer(rt));
    let mut params = None;
    if let Some(path) = path {
        let file = contents(rt, path.as_str(), is_quiet)?;
        match bus_of(rt.alloc(), &file)? {
            Bus::Params(found) => params = Some(found),
            Bus::Refused(shown_fault) => {
                write_out(&mut writer, &shown_fault.text)?;
                if !is_quiet {
                    hint(rt, explain_bus(rt.alloc(), shown(path.as_str()), &file));
                }
                return Ok(Status::Refused);
            }
        }
    }
    let mut reader = CountedReader::new(rt.reader());
    let mut notes = ErrorLines::new(rt, is_quiet);
    match export {
        Some(export) => export_capture(
            rt.alloc(),
            params,
            options,
            &export,
            &mut reader,
            &mut writer,
            &mut notes,
        ),
        None => monitor(
            rt.alloc(),
            params,
            options,
            &mut reader,
            &mut writer,
            &mut notes,
        ),
    }
}

/// `ringplay capture FILE`, to standard output; progress and hints go to standard error.
fn capture<T: AllocGlobal + Clock + Eprint + Files + Input + Print>(
    rt: &T,
    path: &str,
    tap: Option<String>,
    shown_when: Shown,
    is_quiet: bool,
) -> Result<Status, CliFault> {
    let file = stream_scenario_file(rt, path, is_quiet)?;
    let mut writer = CountedWriter::new(io::writer(rt));
    let mut line = ProgressLine::new(rt, shown_when);
    let answer = capture_file(rt.alloc(), &file, tap, &mut writer, &mut line);
    line.end();
    Ok(settled(rt, path, &file, &answer?, is_quiet))
}

/// `ringplay export FILE`.
fn export<T: AllocGlobal + Clock + Eprint + Files + Input + Print>(
    rt: &T,
    path: &str,
    export: &Export,
    shown_when: Shown,
    is_quiet: bool,
) -> Result<Status, CliFault>
    requires { IsBaud export.now.baud }
{
    match export.streamed() {
        Some(streamed) => export_as_it_settles(rt, path, &streamed, shown_when, is_quiet),
        None => export_picture(rt, path, export, shown_when, is_quiet),
    }
}

/// `ringplay export FILE` in a form that is written entry by entry, to standard output; progress, the line of an event that
/// is refused and hints go to standard error.
fn export_as_it_settles<T: AllocGlobal + Clock + Eprint + Files + Input + Print>(
    rt: &T,
    path: &str,
    export: &StreamExport,
    shown_when: Shown,
    is_quiet: bool,
) -> Result<Status, CliFault>
    requires { IsBaud export.now.baud }
{
    let file = stream_scenario_file(rt, path, is_quiet)?;
    let mut writer = CountedWriter::new(io::writer(rt));
    let mut line = ProgressLine::new(rt, shown_when);
    let answer = export_stream(rt.alloc(), &file, export, &mut writer, &mut line);
    line.end();
    Ok(settled(rt, path, &file, &answer?, is_quiet))
}

/// The status of what was written as a run settled. The line that its output has no place for, and a hint, go to standard
/// error.
fn settled<T: AllocGlobal + Eprint>(
    rt: &T,
    path: &str,
    file: &[u8],
    ended: &Settled,
    is_quiet: bool,
) -> Status {
    if let Ok(line) = str::from_utf8(&ended.line) {
        let _ = eprint!(rt; "{line}");
    }
    hint_of(rt, path, file, ended.status, is_quiet);
    ended.status
}

/// Why a scenario file, or its run without a limit of entries, is refused, on standard error.
fn hint_of<T: AllocGlobal + Eprint>(
    rt: &T,
    path: &str,
    file: &[u8],
    status: Status,
    is_quiet: bool,
) {
    if let Status::Refused = status
        && !is_quiet
    {
        hint(rt, explain_settling(rt.alloc(), shown(path), file));
    }
}

/// `ringplay export FILE --to svg`, to standard output; hints go to standard error. A file of version 1 or 2 has no picture
/// where its run is refused. Any other is drawn up to the event that is refused.
fn export_picture<T: AllocGlobal + Clock + Eprint + Files + Input + Print>(
    rt: &T,
    path: &str,
    export: &Export,
    shown_when: Shown,
    is_quiet: bool,
) -> Result<Status, CliFault>
    requires { IsBaud export.now.baud }
{
    let file = stream_scenario_file(rt, path, is_quiet)?;
    match described(rt.alloc(), &file) {
        Ok(_) => export_whole(rt, path, &file, export, is_quiet),
        Err(ScenarioFault::NoMemory) => Err(CliFault::NoMemory),
        Err(_) => draw(rt, path, &file, export.window, shown_when, is_quiet),
    }
}

/// The picture of a scenario whose steps do not repeat.
fn export_whole<T: AllocGlobal + Eprint + Print>(
    rt: &T,
    path: &str,
    file: &[u8],
    export: &Export,
    is_quiet: bool,
) -> Result<Status, CliFault>
    requires { IsBaud export.now.baud }
{
    let mut reader = CountedReader::new(file);
    let mut writer = CountedWriter::new(io::writer(rt));
    let status = export_file(rt.alloc(), &mut reader, &mut writer, export)?;
    if let Status::Refused = status
        && !is_quiet
    {
        hint(rt, explain(rt.alloc(), shown(path), file, None));
    }
    Ok(status)
}

/// The picture of a scenario whose steps may repeat. Progress, and the line of an event that is refused, go to standard
/// error.
fn draw<T: AllocGlobal + Clock + Eprint + Print>(
    rt: &T,
    path: &str,
    file: &[u8],
    window: Window,
    shown_when: Shown,
    is_quiet: bool,
) -> Result<Status, CliFault> {
    let mut writer = CountedWriter::new(io::writer(rt));
    let mut line = ProgressLine::new(rt, shown_when);
    let answer = draw_stream(rt.alloc(), file, window, &mut writer, &mut line);
    line.end();
    Ok(settled(rt, path, file, &answer?, is_quiet))
}

/// `ringplay stream FILE`, to standard output; progress and hints go to standard error.
fn stream<T: AllocGlobal + Clock + Eprint + Files + Input + Print>(
    rt: &T,
    path: &str,
    until: Option<u64>,
    flush: Flush,
    shown_when: Shown,
    is_quiet: bool,
) -> Result<Status, CliFault>
    requires { IfSome until (λ moment. moment ≤ stream_end) }
{
    let file = stream_scenario_file(rt, path, is_quiet)?;
    let mut writer = CountedWriter::new(io::writer(rt));
    let mut line = ProgressLine::new(rt, shown_when);
    let answer = stream_file(rt.alloc(), &file, until, flush, &mut writer, &mut line);
    line.end();
    let status = answer?;
    hint_of(rt, path, &file, status, is_quiet);
    Ok(status)
}

/// `ringplay stream FILE --audit`, to standard output; progress and hints go to standard error.
fn stream_audit<T: AllocGlobal + Clock + Eprint + Files + Input + Print>(
    rt: &T,
    path: &str,
    until: Option<u64>,
    shown_when: Shown,
    is_quiet: bool,
) -> Result<Status, CliFault>
    requires { IfSome until (λ moment. moment ≤ stream_end) }
{
    let file = stream_scenario_file(rt, path, is_quiet)?;
    let mut writer = CountedWriter::new(io::writer(rt));
    let mut line = ProgressLine::new(rt, shown_when);
    let answer = audit_stream_file(rt.alloc(), &file, until, &mut writer, &mut line);
    line.end();
    let status = answer?;
    hint_of(rt, path, &file, status, is_quiet);
    Ok(status)
}

/// `ringplay --version`, to standard output.
fn version(rt: &impl Print) -> Result<Status, CliFault> {
    match println!(rt; "ringplay {VERSION}") {
        Ok(()) => Ok(Status::Done),
        Err(_) => Err(CliFault::Write),
    }
}

/// The content of a scenario file whose run is shown. What the scenario should not have goes to standard error.
fn scenario_file<R: AllocGlobal + Eprint + Files + Input>(
    rt: &R,
    path: &str,
    is_quiet: bool,
) -> Result<Vec<u8>, CliFault> {
    let file = contents(rt, path, is_quiet)?;
    if !is_quiet {
        hint(rt, warn(rt.alloc(), shown(path), &file));
    }
    Ok(file)
}

/// The same for a command that reads files whose steps may repeat.
fn stream_scenario_file<R: AllocGlobal + Eprint + Files + Input>(
    rt: &R,
    path: &str,
    is_quiet: bool,
) -> Result<Vec<u8>, CliFault> {
    let file = contents(rt, path, is_quiet)?;
    if !is_quiet {
        hint(rt, warn_of_stream(rt.alloc(), shown(path), &file));
    }
    Ok(file)
}

/// The content of the file at a path, or of standard input. The reason why it cannot be read goes to standard error.
fn contents<R: AllocGlobal + Eprint + Files + Input>(
    rt: &R,
    path: &str,
    is_quiet: bool,
) -> Result<Vec<u8>, CliFault> {
    if path == STANDARD_INPUT {
        return whole(rt.alloc(), rt.reader());
    }
    let read = match fs::open(rt, path) {
        Ok(file) => whole(rt.alloc(), file),
        Err(error) if error.kind() == ErrorKind::OutOfMemory => Err(CliFault::NoMemory),
        Err(_) => Err(CliFault::Read),
    };
    if let Err(CliFault::Read) = read
        && !is_quiet
        && let Some(error) = reason(rt, path)
    {
        let _ = eprintln!(rt; "{path}: {error}");
    }
    read
}

/// The path as hints show it.
fn shown(path: &str) -> &str {
    if path == STANDARD_INPUT {
        "<stdin>"
    } else {
        path
    }
}

/// The whole content of a reader.
fn whole<R: Read + Drop>(alloc: Global, reader: R) -> Result<Vec<u8>, CliFault> {
    let mut reader = CountedReader::new(reader);
    read_input(alloc, &mut reader)
}

/// Why a file cannot be read.
fn reason<R: Files>(rt: &R, path: &str) -> Option<Error> {
    match fs::open(rt, path) {
        Ok(mut file) => file.read(&mut [0]).err(),
        Err(error) => Some(error),
    }
}

/// Prints a hint on standard error. If memory or the write fails, the hint is dropped.
fn hint(rt: &impl Eprint, text: Result<String, AllocError>) {
    if let Ok(text) = text {
        let _ = rt.eprint(text);
    }
}

/// The exit status of words that cannot be obeyed. The usage goes to standard error.
fn words_status(rt: &impl Eprint, fault: AskFault) -> u8
    ensures { result ≡ words_status_of fault }
{
    match fault {
        AskFault::Usage(text) => {
            let _ = rt.eprint(text);
            USAGE
        }
        AskFault::NoMemory => tell(rt, CliFault::NoMemory, MEMORY),
    }
}

/// The exit status of a result. The words of a fault go to standard error.
fn exit_status(rt: &impl Eprint, answer: Result<Status, CliFault>) -> u8
    ensures { result ≡ exit_status_of answer }
{
    match answer {
        Ok(Status::Done) => DONE,
        Ok(Status::Refused) => REFUSED,
        Err(CliFault::NoMemory) => tell(rt, CliFault::NoMemory, MEMORY),
        Err(fault) => tell(rt, fault, STREAM),
    }
}

/// Prints words on standard error, and returns the status.
fn tell(rt: &impl Eprint, words: impl Display + Drop, status: u8) -> u8
    ensures { result ≡ status }
{
    let _ = rt.eprintln(words);
    status
}
