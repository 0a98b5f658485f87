//! `ringplay run` over any reader and writer.

ghost use Rattle.std.specs.Prelude.{◌≡◌, length, IfOk, IfSome};
ghost use Rattle.pb_fleet.specs.Faults.{IsCrew};
ghost use Rattle.pb_texts.specs.Scenarios.{ScenarioView};
ghost use Rattle.pb_cli.specs.Fleets.{IsRun, IsRunOf, IsTrace, crew_of};
ghost use Rattle.pb_texts.specs.Shown.{shown_of};
ghost use Rattle.pb_cli.specs.Playing.{IsUpTo, line_limit, worker_limit};
ghost use Rattle.pb_cli.specs.Answers.{Answers};

use crate::faults::{CliFault, Status};
use crate::fleets::refused_fleet;
use crate::reading::read_input;
use crate::streams::{Sink, Source};
use crate::writing::write_out;
use pb_fleet::{Gate, run_fleet};
use pb_scenario::{NewFault, RunFault, WorldFault, trace_of};
use pb_texts::{MOST_EVENTS, Scenario, Shown, described, refused_file, traced};
use std::alloc::{AllocError, Global};
use std::sync::Wait;
use std::thread;
use std::thread::Threads;

/// The most workers that may be asked for.
pub const MOST_WORKERS: usize = 64;

/// The most last lines that may be asked for.
pub const MOST_LINES: usize = 10_000;

/// Below this many events, freeing in place is cheaper than spawning a thread.
const MANY: usize = 4096;

/// Reads a scenario file until the reader ends, plays the scenario with some workers, the first of them in the caller's
/// thread, and writes its trace or the last lines of it. If the file or the run is refused, it writes the line of the
/// fault instead. The trace is that of the run on one thread, whatever the number of workers; one worker plays without
/// a segment, which takes a fraction of the time. The whole text is made before the first write. After a long run with
/// several workers, a separate thread frees the run's memory and may outlive this call.
///
/// `workers` is 1 to 64; without it there are as many workers as taps, at least 1 and at most 64. `last` is 1 to
/// 10,000. On `Ok` the writer holds that text, and the status is `Refused` exactly if the text is the line of a fault.
/// Faults: `Read` if the reader failed, or all 2,097,152 read calls were made and at least half of them were
/// interrupted; `TooLong` for a file of more than 1,048,576 bytes; `Write` if the writer failed, or was interrupted
/// 1,001 times in a row; `NoMemory`. After `Write`, a prefix of the text was written; after another fault, nothing.
pub fn play<T: Threads + Wait + Sync, R: Source, W: Sink>(
    rt: &T,
    alloc: Global,
    reader: &mut R,
    writer: &mut W,
    workers: Option<usize>,
    last: Option<usize>,
) -> Result<Status, CliFault>
    requires workers { IsUpTo worker_limit workers }
    requires last { IsUpTo line_limit last }
    ensures { Answers (λ file. IsRunOf file workers last) result
        (R.view reader.old) (R.view reader.new) (W.view writer.old) (W.view writer.new) }
{
    let file = read_input(alloc, reader)?;
    let shown = played(rt, alloc, &file, workers, last)?;
    write_out(writer, &shown.text)?;
    Ok(Status::of(shown.is_refused))
}

/// The text of the run of a scenario file.
fn played<T: Threads + Wait + Sync>(
    rt: &T,
    alloc: Global,
    file: &[u8],
    workers: Option<usize>,
    last: Option<usize>,
) -> Result<Shown, AllocError>
    requires { IsUpTo worker_limit workers }
    ensures { IfOk result (λ shown. IsRunOf file.now workers last (shown_of shown)) }
{
    match described(alloc, file) {
        Ok(scenario) => { played_scenario(rt, alloc, &scenario, crew_of(workers, &scenario), last) }
        Err(fault) => refused_file(alloc, &fault),
    }
}

/// The number of workers: as asked for, else one for each tap, at least 1 and at most 64.
fn crew_of(workers: Option<usize>, scenario: &Scenario) -> usize
    requires { IsUpTo worker_limit workers }
    ensures count { result ≡ crew_of workers (length scenario.now.scenario.taps) }
    ensures crew { IsCrew result }
{
    match workers {
        Some(workers) => workers,
        None => scenario.taps().len().min(MOST_WORKERS).max(1),
    }
}

/// The text of the run of a scenario by some workers.
fn played_scenario<T: Threads + Wait + Sync>(
    rt: &T,
    alloc: Global,
    scenario: &Scenario,
    workers: usize,
    last: Option<usize>,
) -> Result<Shown, AllocError>
    requires { IsCrew workers }
    ensures { IfOk result (λ shown. IsRun scenario.now workers last (shown_of shown)) }
{
    if workers == 1
        && let Some(shown) = played_alone(alloc, scenario, last)?
    {
        return Ok(shown);
    }
    match run_fleet(rt, alloc, scenario, workers, &OpenGate) {
        Ok(report) => {
            let shown = traced(alloc, scenario, report.trace(), last);
            let aside = workers > 1 && report.history().len() >= MANY;
            let_go(rt, aside, report);
            shown
        }
        Err(fault) => refused_fleet(alloc, fault),
    }
}

/// The text of the run of a scenario on one thread. `None` if a fleet has to say why there is none: the run is refused, or
/// has more events than a segment keeps.
fn played_alone(
    alloc: Global,
    scenario: &Scenario,
    last: Option<usize>,
) -> Result<Option<Shown>, AllocError>
    ensures { IfOk result (λ played. IfSome played (λ shown. IsTrace scenario.now last (shown_of shown))) }
{
    match trace_of(alloc, scenario) {
        Ok(run) if run.events <= MOST_EVENTS => {
            Ok(Some(traced(alloc, scenario, &run.entries, last)?))
        }
        Err(RunFault::New(NewFault::NoMemory) | RunFault::At(_, WorldFault::NoMemory)) => {
            Err(AllocError)
        }
        Ok(_) | Err(_) => Ok(None),
    }
}

/// Frees a value: if `aside`, in a detached thread, if one can be spawned.
fn let_go<T: Threads, U: Send + Drop + 'static>(rt: &T, aside: bool, unwanted: U) {
    if aside {
        drop(thread::spawn(rt, move || drop(unwanted)));
    }
}

/// A gate that lets each tap take its turn.
#[derive(Drop)]
struct OpenGate;

impl Gate for OpenGate {
    fn between(&self, _tap: usize) -> bool {
        true
    }

    fn is_open(&self) -> bool {
        true
    }
}
