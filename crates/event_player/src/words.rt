//! The words of the program.

use std::alloc::{AllocError, Global};
use std::env;
use std::io::ErrorKind;
use std::rt::Env;

/// What to do with an event list.
#[derive(Clone, Copy, Debug)]
pub enum Task {
    /// Play it, and print all lines.
    Play,
    /// Play it this many times, and print the trace.
    Trace(u32),
    /// Audit it this many times, and print the result.
    Audit(u32),
    /// Play it, and print after each event who may initiate, and then the trace and the audit.
    Holders,
}

/// Why the words make no sense.
#[derive(Clone, Copy, Debug)]
pub enum WordsFault {
    Usage,
    NoMemory,
}

impl From<AllocError> for WordsFault {
    fn from(_refused: AllocError) -> WordsFault {
        WordsFault::NoMemory
    }
}

/// The task that the program's words name: no word, `holders`, `trace TIMES` or `audit TIMES`.
pub fn read_words(rt: &(impl AllocGlobal + Env)) -> Result<Task, WordsFault> {
    let words: Vec<String> = match env::args(rt) {
        Ok(words) => words.collect(rt.alloc())?,
        Err(error) if error.kind() == ErrorKind::OutOfMemory => return Err(WordsFault::NoMemory),
        Err(_) => return Err(WordsFault::Usage),
    };
    match words.as_slice() {
        [] | [_] => Ok(Task::Play),
        [_, name] if name.as_str() == "holders" => Ok(Task::Holders),
        [_, name, times] => named(name.as_str(), times.as_str()),
        _ => Err(WordsFault::Usage),
    }
}

fn named(name: &str, times: &str) -> Result<Task, WordsFault> {
    let Ok(times) = times.parse::<u32>() else {
        return Err(WordsFault::Usage);
    };
    match name {
        "trace" => Ok(Task::Trace(times)),
        "audit" => Ok(Task::Audit(times)),
        _ => Err(WordsFault::Usage),
    }
}
