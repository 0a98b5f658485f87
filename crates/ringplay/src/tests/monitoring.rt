//! A capture over readers and writers that fail, are interrupted, or move one byte a call; and the words of `monitor`.

ghost use Rattle.std.specs.Prelude.{◌≡◌};

use super::equal;
use super::streams::{ByteReader, ByteWriter};
use pb_cli::{
    Ask, CliFault, CountedReader, CountedWriter, Notes, Options, Status, ask, export_capture,
    monitor,
};
use pb_export::{CaptureExport, CaptureForm, Link};
use pb_monitor::{Classes, Form, SummaryForm};
use std::alloc::AllocGlobal;
use std::io::ErrorKind;
use std::process::Abort;
use std::test::Fail;

const CAPTURE: &[u8] = b"1 34 dc0201\ne5\nzz";

/// What is printed, as bytes come.
const PRINTED: &[u8] =
    b"1 34 token da=2 sa=1 | token to 2\nack | short acknowledgement\nrefused line 3: 'zz' is not hex; wanted: two hex digits for each octet, -- for a damaged one\nbus: bursts 2, from 1 to 34, load 100.0 %, longest silence 0, damaged 0 (after a loss 0, in place of a reply 0, in the slot of a token 0, other 0), alarms not judged (no parameters), refused 1\nactive stations: not known\nstation 1: master in ring, last heard 34, telegrams 1, claims 0, tokens 1, requests 0 (polls 0, unanswered 0, damaged answers 0), repeats 0, polled 0, tokens not taken 0\n";

/// How many bytes of the capture end the first line.
const FIRST_LINE: usize = 12;

fn options() -> Options {
    Options {
        form: Form::Lines,
        classes: Classes::all(),
        every: None,
        summary: None,
        baud: None,
        slack: 0,
    }
}

#[test]
fn each_line_is_answered_as_it_comes(rt: HostRuntime) {
    for calls_before in 0..18 {
        let mut reader = CountedReader::new(ByteReader {
            rest: CAPTURE,
            calls_before,
            kind: ErrorKind::UnexpectedEof,
        });
        let mut writer = CountedWriter::new(Vec::new(rt.alloc()));
        let answer = monitor(
            rt.alloc(),
            None,
            options(),
            &mut reader,
            &mut writer,
            &mut notes(),
        );
        equal(&rt, &answer, &Err(CliFault::Read));
        let written = writer.writer().len();
        assert!(rt; PRINTED.starts_with(writer.writer()));
        equal(&rt, &(written > 0), &(calls_before as usize >= FIRST_LINE));
    }
}

#[test]
fn an_interrupted_read_goes_on(rt: HostRuntime) {
    for calls_before in 0..18 {
        let mut reader = CountedReader::new(ByteReader {
            rest: CAPTURE,
            calls_before,
            kind: ErrorKind::Interrupted,
        });
        let mut writer = CountedWriter::new(Vec::new(rt.alloc()));
        let answer = monitor(
            rt.alloc(),
            None,
            options(),
            &mut reader,
            &mut writer,
            &mut notes(),
        );
        equal(&rt, &answer, &Ok(Status::Refused));
        equal(&rt, &writer.writer().as_slice(), &PRINTED);
    }
}

#[test]
fn a_writer_that_fails_leaves_a_front(rt: HostRuntime) {
    // every seventh byte, up to the last
    for part in 0..PRINTED.len() as u32 / 7 {
        let calls_before = 7 * part;
        let mut reader = CountedReader::new(CAPTURE);
        let mut writer = CountedWriter::new(ByteWriter {
            taken: Vec::new(rt.alloc()),
            calls_before,
            kind: ErrorKind::BrokenPipe,
            errors: 1,
        });
        let answer = monitor(
            rt.alloc(),
            None,
            options(),
            &mut reader,
            &mut writer,
            &mut notes(),
        );
        equal(&rt, &answer, &Err(CliFault::Write));
        let taken = writer.writer().taken.as_slice();
        equal(&rt, &taken.len(), &(calls_before as usize));
        assert!(rt; PRINTED.starts_with(taken));
    }
}

#[test]
fn monitor_takes_a_file_and_options(rt: HostRuntime) -> Result<(), Fail> {
    let line =
        "ringplay monitor a.toml --form pcap --alarms legality --every 5 --baud 9600 --slack 12";
    let words: Vec<String> = line
        .split_whitespace()
        .map(|word| String::from_str(rt.alloc(), word))
        .try_collect(rt.alloc())?;
    let wanted = Ask::Monitor {
        file: Some(String::from_str(rt.alloc(), "a.toml")?),
        options: Options {
            form: Form::Pcap,
            classes: Classes {
                legality: true,
                loss: false,
                timing: false,
            },
            every: Some(5),
            summary: None,
            baud: Some(9600),
            slack: 12,
        },
        export: None,
    };
    equal(&rt, &ask(rt.alloc(), &words)?, &wanted);
    Ok(())
}

/// The export of `CAPTURE` as JSON.
const EXPORTED: &[u8] =
    b"{\"begin\":1,\"end\":34,\"octets\":\"dc0201\",\"characters\":3,\"damaged\":false,\"timed\":true,\"kind\":\"token\",\"da\":2,\"sa\":1}
{\"begin\":67,\"end\":78,\"octets\":\"e5\",\"characters\":1,\"damaged\":false,\"timed\":false,\"kind\":\"acknowledgement\"}
";

/// What its export says beside that.
const SAID: &[u8] =
    b"refused line 3: 'zz' is not hex; wanted: two hex digits for each octet, -- for a damaged one\n";

/// Compares what is said with `SAID`, without allocating.
#[derive(Drop)]
struct Compared {
    left: &'static [u8],
    is_same: bool,
}

impl Notes for Compared {
    fn note(&mut self, lines: &[u8]) {
        match self.left.split_at_checked(lines.len()) {
            Some((front, rest)) => {
                self.is_same &= front == lines;
                self.left = rest;
            }
            None => self.is_same = false,
        }
    }
}

fn notes() -> Compared {
    Compared {
        left: SAID,
        is_same: true,
    }
}

fn export(form: CaptureForm) -> CaptureExport
    ensures { result.baud ≡ 1500000 }
{
    CaptureExport {
        form,
        baud: 1_500_000,
        link: Link::User,
    }
}

#[test]
fn bursts_are_exported_as_they_come(rt: HostRuntime) {
    for calls_before in 0..18 {
        let mut reader = CountedReader::new(ByteReader {
            rest: CAPTURE,
            calls_before,
            kind: ErrorKind::UnexpectedEof,
        });
        let mut writer = CountedWriter::new(Vec::new(rt.alloc()));
        let answer = export_capture(
            rt.alloc(),
            None,
            options(),
            &export(CaptureForm::Json),
            &mut reader,
            &mut writer,
            &mut notes(),
        );
        equal(&rt, &answer, &Err(CliFault::Read));
        let written = writer.writer().len();
        assert!(rt; EXPORTED.starts_with(writer.writer()));
        equal(&rt, &(written > 0), &(calls_before as usize >= FIRST_LINE));
    }
}

#[test]
fn an_export_says_what_was_refused(rt: HostRuntime) {
    let mut reader = CountedReader::new(CAPTURE);
    let mut writer = CountedWriter::new(Vec::new(rt.alloc()));
    let mut said = notes();
    let answer = export_capture(
        rt.alloc(),
        None,
        options(),
        &export(CaptureForm::Json),
        &mut reader,
        &mut writer,
        &mut said,
    );
    equal(&rt, &answer, &Ok(Status::Refused));
    equal(&rt, &writer.writer().as_slice(), &EXPORTED);
    assert!(rt; said.is_same && said.left.is_empty());
}

/// In a form for programs a summary is all that is written.
#[test]
fn a_summary_for_programs_stands_alone(rt: HostRuntime) {
    let mut writer = CountedWriter::new(Vec::new(rt.alloc()));
    let mut said = notes();
    let asked = Options {
        summary: Some(SummaryForm::Json),
        ..options()
    };
    let answer = monitor(
        rt.alloc(),
        None,
        asked,
        &mut CountedReader::new(CAPTURE),
        &mut writer,
        &mut said,
    );
    equal(&rt, &answer, &Ok(Status::Refused));
    let text = writer.writer();
    assert!(rt; text.starts_with(b"{\"bursts\":2,") && text.ends_with(b"]}\n"));
    assert!(rt; said.is_same && said.left.is_empty());
}

#[test]
fn an_export_to_a_writer_that_fails_leaves_a_front(rt: HostRuntime) {
    for part in 0..EXPORTED.len() as u32 / 7 {
        let calls_before = 7 * part;
        let mut writer = CountedWriter::new(ByteWriter {
            taken: Vec::new(rt.alloc()),
            calls_before,
            kind: ErrorKind::BrokenPipe,
            errors: 1,
        });
        let answer = export_capture(
            rt.alloc(),
            None,
            options(),
            &export(CaptureForm::Json),
            &mut CountedReader::new(CAPTURE),
            &mut writer,
            &mut notes(),
        );
        equal(&rt, &answer, &Err(CliFault::Write));
        let taken = writer.writer().taken.as_slice();
        equal(&rt, &taken.len(), &(calls_before as usize));
        assert!(rt; EXPORTED.starts_with(taken));
    }
}

/// With one allocation refused, an export is made, or the fault is `NoMemory`.
fn is_made_or_refused(rt: &(impl Abort + AllocGlobal + Print), form: CaptureForm) {
    let mut writer = CountedWriter::new(Vec::new(rt.alloc()));
    let answer = export_capture(
        rt.alloc(),
        None,
        options(),
        &export(form),
        &mut CountedReader::new(CAPTURE),
        &mut writer,
        &mut notes(),
    );
    match answer {
        Ok(status) => equal(rt, &status, &Status::Refused),
        Err(fault) => {
            assert!(rt; fault == CliFault::NoMemory || fault == CliFault::Write);
            let _ = println!(rt; "refused");
        }
    }
}

#[test]
fn refused_memory_in_an_export(rt: HostRuntime) {
    is_made_or_refused(&rt, CaptureForm::Pcapng);
}

#[test]
fn refused_memory_in_a_picture(rt: HostRuntime) {
    is_made_or_refused(&rt, CaptureForm::Svg);
}

#[test]
fn monitor_takes_a_form(rt: HostRuntime) -> Result<(), Fail> {
    let line = "ringplay monitor --to pcapng --link 257";
    let words: Vec<String> = line
        .split_whitespace()
        .map(|word| String::from_str(rt.alloc(), word))
        .try_collect(rt.alloc())?;
    let wanted = Ask::Monitor {
        file: None,
        options: Options {
            baud: Some(1_500_000),
            ..options()
        },
        export: Some(CaptureExport {
            form: CaptureForm::Pcapng,
            baud: 1_500_000,
            link: Link::Profibus,
        }),
    };
    equal(&rt, &ask(rt.alloc(), &words)?, &wanted);
    Ok(())
}
