//! `event_player`: plays a list of events on a bus, and prints the result. For tests.
//!
//! Reads the list as JSON from standard input, and prints the lines for it. With the words `trace TIMES` or `audit
//! TIMES` it does only that, TIMES times, and prints the last result; `bench/world` measures these. With the word
//! `holders` it prints who may initiate after each event, for `tools/fuzz`. Exit statuses: 0 played, 1 the parameters
//! or the taps are refused, 2 no event list or unknown words, 3 a read or write fault, 4 no memory.
#![tactic(auto)]

mod lines;
mod lists;
mod shared;
mod words;

use lines::{Played, audits, holders, play, trace};
use lists::{ListFault, read_list};
use std::alloc::AllocError;
use std::io;
use std::io::{ErrorKind, Read, Write};
use std::process::ExitCode;
use std::rt::Env;
use thiserror::Error;
use words::{Task, WordsFault, read_words};

const PLAYED: u8 = 0;

const REFUSED: u8 = 1;

const NO_LIST: u8 = 2;

const STREAM: u8 = 3;

const MEMORY: u8 = 4;

/// Why not all lines were printed.
#[derive(Debug, Drop, Error)]
enum PlayFault {
    /// The words make no sense.
    #[error("usage: event_player [holders | trace TIMES | audit TIMES] < LIST")]
    Usage,
    /// The input is no event list.
    #[error("{0}")]
    List(ListFault),
    /// The input could not be read.
    #[error("read fault")]
    Read,
    /// The lines could not be written.
    #[error("write fault")]
    Write,
    /// Memory was refused.
    #[error("no memory")]
    NoMemory,
}

impl From<ListFault> for PlayFault {
    fn from(fault: ListFault) -> PlayFault {
        match fault {
            ListFault::NoMemory => PlayFault::NoMemory,
            fault => PlayFault::List(fault),
        }
    }
}

impl From<WordsFault> for PlayFault {
    fn from(fault: WordsFault) -> PlayFault {
        match fault {
            WordsFault::Usage => PlayFault::Usage,
            WordsFault::NoMemory => PlayFault::NoMemory,
        }
    }
}

impl From<AllocError> for PlayFault {
    fn from(_refused: AllocError) -> PlayFault {
        PlayFault::NoMemory
    }
}

impl PlayFault {
    /// The exit status of the fault.
    fn status(&self) -> u8 {
        match self {
            PlayFault::Usage | PlayFault::List(_) => NO_LIST,
            PlayFault::Read | PlayFault::Write => STREAM,
            PlayFault::NoMemory => MEMORY,
        }
    }
}

fn main(rt: HostRuntime) -> ExitCode {
    let status = match play_input(&rt) {
        Ok(status) => status,
        Err(fault) => {
            let _ = rt.eprintln(&fault);
            fault.status()
        }
    };
    ExitCode::from(status)
}

/// Plays the list on standard input, and returns the exit status of what was printed.
fn play_input(rt: &(impl AllocGlobal + Env + Input + Print)) -> Result<u8, PlayFault> {
    let task = read_words(rt)?;
    let input = read_input(rt)?;
    let list = read_list(rt.alloc(), &input)?;
    let played = match task {
        Task::Play => play(rt.alloc(), &list),
        Task::Holders => holders(rt.alloc(), &list),
        Task::Trace(times) => trace(rt.alloc(), &list, times),
        Task::Audit(times) => audits(rt.alloc(), &list, times),
    };
    let (text, status) = match played? {
        Played::Run(text) => (text, PLAYED),
        Played::Refused(text) => (text, REFUSED),
    };
    match io::writer(rt).write_all(text.as_bytes()) {
        Ok(()) => Ok(status),
        Err(_) => Err(PlayFault::Write),
    }
}

/// All of standard input.
fn read_input(rt: &(impl AllocGlobal + Input)) -> Result<Vec<u8>, PlayFault> {
    let mut input = Vec::new(rt.alloc());
    match rt.reader().read_to_end(&mut input) {
        Ok(_) => Ok(input),
        Err(error) if error.kind() == ErrorKind::OutOfMemory => Err(PlayFault::NoMemory),
        Err(_) => Err(PlayFault::Read),
    }
}
