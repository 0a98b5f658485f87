//! Why a scenario file or its run is refused.

use crate::documents::Document;
use crate::file_hints::{of_bus_file, of_file};
use crate::run_hints::{of_run, of_settling_run};
use crate::stream_hints::of_stream_run;
use pb_scenario::{ScenarioFault, read, read_bus, read_stream};
use std::alloc::{AllocError, Global};

/// How many events the history of a run may have.
pub const MOST_EVENTS: u64 = 1_000_000;

/// Why the run of a scenario file is refused, for people: a line with the place, what was found and what is wanted; no
/// text where it isn't refused. `name` is the file's name as people gave it. `events` is how many events a run may
/// have, `None` where there is no limit.
///
/// It takes as long as the run on one thread, or twice as long for damage and losses. Fault: memory was refused.
pub fn explain(
    alloc: Global,
    name: &str,
    file: &[u8],
    events: Option<u64>,
) -> Result<String, AllocError> {
    let document = Document { alloc, name, file };
    match read(alloc, file) {
        Ok(scenario) => of_run(&document, &scenario, events),
        Err(ScenarioFault::NoMemory) => Err(AllocError),
        Err(fault) => of_file(&document, &fault),
    }
}

/// Why a file that should give the parameters of a bus is refused, for people: a line with the place, what was found and
/// what is wanted; no text if it is not refused. `name` is the file's name as people gave it.
///
/// Fault: memory was refused.
pub fn explain_bus(alloc: Global, name: &str, file: &[u8]) -> Result<String, AllocError> {
    let document = Document { alloc, name, file };
    match read_bus(alloc, file) {
        Ok(_) => Ok(String::new(alloc)),
        Err(ScenarioFault::NoMemory) => Err(AllocError),
        Err(fault) => of_bus_file(&document, &fault),
    }
}

/// Why a scenario file of any version is refused, or its run without a limit of entries, for people: a line with the place,
/// what was found and what is wanted; no text if neither is refused. Of what is refused after the first 200,000 instants
/// of a file of version 3, or after the trace of [`explain`] is full, nothing is said. `name` is the file's name as people
/// gave it.
///
/// It takes at most as long as `explain`. Fault: memory was refused.
pub fn explain_settling(alloc: Global, name: &str, file: &[u8]) -> Result<String, AllocError> {
    let document = Document { alloc, name, file };
    match read(alloc, file) {
        Ok(scenario) => of_settling_run(&document, &scenario),
        Err(_) => of_stream_file(&document),
    }
}

/// Why a file, or its run, is refused that may be of version 3.
fn of_stream_file(document: &Document<'_>) -> Result<String, AllocError> {
    match read_stream(document.alloc, document.file) {
        Ok(scenario) => of_stream_run(document, &scenario),
        Err(ScenarioFault::NoMemory) => Err(AllocError),
        Err(fault) => of_file(document, &fault),
    }
}
