//! `scenario_player`: plays each scenario file of its input with one worker and with three, and audits it. For tests:
//! the gate builds it with two compilers and compares what the two programs print.
//!
//! A file follows a line `-- case NAME`. For each file the program prints that line, what `ringplay run` writes with
//! one worker and, if that differs, with three, and what `ringplay audit` writes. Exit statuses: 0 all were played, 1 a
//! fault, which is on standard error.
#![tactic(auto)]

use anyhow::Context;
use pb_cli::{CliFault, CountedReader, CountedWriter, audit_file, play};
use std::io;
use std::io::{Read, Write};
use std::process::ExitCode;
use std::sync::Wait;
use std::thread::Threads;

/// The text before the name of a case.
const CASE: &str = "-- case ";

fn main(rt: HostRuntime) -> ExitCode {
    match play_all(&rt) {
        Ok(()) => ExitCode::SUCCESS,
        Err(fault) => {
            let _ = rt.eprintln(&fault);
            ExitCode::FAILURE
        }
    }
}

/// Plays the cases on standard input, and prints the results.
fn play_all<T: AllocGlobal + Input + Print + Threads + Wait + Sync>(rt: &T) -> anyhow::Result<()> {
    let mut input = Vec::new(rt.alloc());
    rt.reader().read_to_end(&mut input)?;
    let text = String::from_utf8(input)?;
    for case in text.split(CASE).skip(1) {
        let (name, file) = case.split_once('\n').context("a case has no file")?;
        let mut shown = String::from_str(rt.alloc(), CASE)?.into_bytes();
        shown.extend_from_slice(name.as_bytes())?;
        shown.extend_from_slice(b"\n")?;
        push_outcome(rt, &mut shown, file.as_bytes())?;
        io::writer(rt).write_all(&shown)?;
    }
    Ok(())
}

/// Appends what is written for the run of a file, and for its audit.
fn push_outcome<T: AllocGlobal + Threads + Wait + Sync>(
    rt: &T,
    shown: &mut Vec<u8>,
    file: &[u8],
) -> anyhow::Result<()> {
    let alone = played(rt, file, 1)?;
    shown.extend_from_slice(&alone)?;
    let crew = played(rt, file, 3)?;
    if crew != alone {
        shown.extend_from_slice(b"with three workers\n")?;
        shown.extend_from_slice(&crew)?;
    }
    let mut writer = CountedWriter::new(Vec::new(rt.alloc()));
    audit_file(rt.alloc(), &mut CountedReader::new(file), &mut writer)?;
    shown.extend_from_slice(writer.writer())?;
    Ok(())
}

/// What is written for the run of a file with one or three workers.
fn played<T: AllocGlobal + Threads + Wait + Sync>(
    rt: &T,
    file: &[u8],
    workers: usize,
) -> Result<Vec<u8>, CliFault> {
    let mut writer = CountedWriter::new(Vec::new(rt.alloc()));
    play(
        rt,
        rt.alloc(),
        &mut CountedReader::new(file),
        &mut writer,
        Some(workers.clamp(1, 3)),
        None,
    )?;
    Ok(writer.writer().clone()?)
}
