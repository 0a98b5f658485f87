//! Scenario files played and audited over readers and writers that fail, are interrupted, or move one byte a call.

use super::equal;
use pb_cli::{CliFault, CountedReader, CountedWriter, Status, audit_file, bounds_file, play};
use std::io;
use std::io::{Error, ErrorKind, Read, Write};

/// Two masters that start at 0 and form a ring.
const RING: &[u8] = b"version = 1
until = 1400
bus = { tsl = 100, tid1 = 37, tid2 = 60, tsdr = 11, lag = 0, ttr = 10000, gap = 10, hsa = 5, retries = 1 }
tap = [{ name = \"a\", kind = \"master\", address = 1 }, { name = \"b\", kind = \"master\", address = 2 }]
step = [{ at = 0, do = \"start\", tap = \"a\" }, { at = 0, do = \"start\", tap = \"b\" }]
";

const TRACE: &[u8] = b"800 833 a dc0101 -w
870 903 a dc0101 -w
940 1006 a 100201494c16 -w
1017 1083 b 100102202316 w-
1120 1153 a dc0201 -w
1190 1256 b 100302494e16 w-
1356 1389 b dc0102 w-
";

const LAST_LINE: &[u8] = b"1356 1389 b dc0102 w-\n";

const AUDIT: &[u8] = b"premises kept\ntrace legal\n";

/// The same masters: the first one starts at the moment at which both time-outs end.
const CLASH: &[u8] = b"version = 1
until = 1100
bus = { tsl = 100, tid1 = 37, tid2 = 60, tsdr = 11, lag = 0, ttr = 10000, gap = 10, hsa = 5, retries = 1 }
tap = [{ name = \"a\", kind = \"master\", address = 1 }, { name = \"b\", kind = \"master\", address = 2 }]
step = [{ at = 0, do = \"start\", tap = \"b\" }, { at = 200, do = \"start\", tap = \"a\" }]
";

/// Gives one byte a call, and from one call on returns some errors.
#[derive(Drop)]
struct ByteReader {
    rest: &'static [u8],
    calls_before: u32,
    kind: ErrorKind,
    errors: u32,
}

impl Read for ByteReader {
    fn read(&mut self, buffer: &mut [u8]) -> io::Result<usize> {
        if self.calls_before == 0 && self.errors > 0 {
            self.errors -= 1;
            return Err(Error::from(self.kind));
        }
        self.calls_before = self.calls_before.saturating_sub(1);
        match self.rest {
            [byte, rest @ ..] if !buffer.is_empty() => {
                buffer[0] = *byte;
                self.rest = rest;
                Ok(1)
            }
            _ => Ok(0),
        }
    }
}

/// Takes one byte a call until it is full, and then fails.
#[derive(Drop)]
struct ByteWriter {
    taken: Vec<u8>,
    room: usize,
}

/// Is interrupted the given number of times before each byte that it takes.
#[derive(Drop)]
struct InterruptedWriter {
    taken: Vec<u8>,
    interruptions: u32,
    left: u32,
}

/// Takes no byte of any text.
#[derive(Drop)]
struct FullWriter;

impl Write for ByteWriter {
    fn write(&mut self, bytes: &[u8]) -> io::Result<usize> {
        match bytes {
            [byte, ..] if self.taken.len() < self.room => {
                self.taken.push(*byte)?;
                Ok(1)
            }
            _ => Err(Error::from(ErrorKind::StorageFull)),
        }
    }

    fn flush(&mut self) -> io::Result<()> {
        Ok(())
    }
}

impl Write for InterruptedWriter {
    fn write(&mut self, bytes: &[u8]) -> io::Result<usize> {
        if self.left > 0 {
            self.left -= 1;
            return Err(Error::from(ErrorKind::Interrupted));
        }
        self.left = self.interruptions;
        match bytes {
            [byte, ..] => {
                self.taken.push(*byte)?;
                Ok(1)
            }
            [] => Ok(0),
        }
    }

    fn flush(&mut self) -> io::Result<()> {
        Ok(())
    }
}

impl Write for FullWriter {
    fn write(&mut self, _: &[u8]) -> io::Result<usize> {
        Ok(0)
    }

    fn flush(&mut self) -> io::Result<()> {
        Ok(())
    }
}

/// A run prints the trace of one thread, whatever the number of workers.
#[test]
fn a_run_prints_its_trace(rt: HostRuntime) {
    for workers in [None, Some(1), Some(2), Some(8), Some(64)] {
        let mut writer = CountedWriter::new(Vec::new(rt.alloc()));
        let answer = play(
            &rt,
            rt.alloc(),
            &mut CountedReader::new(RING),
            &mut writer,
            workers,
            None,
        );
        equal(&rt, &answer, &Ok(Status::Done));
        assert!(rt; writer.writer().as_slice() == TRACE, "{workers:?}");
    }
}

/// The last lines are printed alone, or all lines if there are no more. Memory is ample for any number of them.
#[test]
fn a_run_prints_its_last_lines(rt: HostRuntime) {
    for (last, lines) in [
        (1, LAST_LINE),
        (7, TRACE),
        (8, TRACE),
        (1023, TRACE),
        (1024, TRACE),
        (1025, TRACE),
        (9999, TRACE),
        (10_000, TRACE),
    ] {
        let mut writer = CountedWriter::new(Vec::new(rt.alloc()));
        let answer = play(
            &rt,
            rt.alloc(),
            &mut CountedReader::new(RING),
            &mut writer,
            Some(2),
            Some(last),
        );
        equal(&rt, &answer, &Ok(Status::Done));
        assert!(rt; writer.writer().as_slice() == lines, "{last}");
    }
}

/// A refused file prints only the line of its fault, with either call.
#[test]
fn a_refused_file_prints_its_fault(rt: HostRuntime) {
    let line = b"scenario fault 1 NotToml\n".as_slice();
    let file = b"\xff".as_slice();
    let mut writer = CountedWriter::new(Vec::new(rt.alloc()));
    let answer = play(
        &rt,
        rt.alloc(),
        &mut CountedReader::new(file),
        &mut writer,
        None,
        Some(3),
    );
    equal(&rt, &answer, &Ok(Status::Refused));
    assert!(rt; writer.writer().as_slice() == line);
    let mut writer = CountedWriter::new(Vec::new(rt.alloc()));
    let answer = audit_file(rt.alloc(), &mut CountedReader::new(file), &mut writer);
    equal(&rt, &answer, &Ok(Status::Refused));
    assert!(rt; writer.writer().as_slice() == line);
}

/// An audit prints a broken premise and an illegal record; the status depends on the record.
#[test]
fn an_audit_tells_premise_and_record(rt: HostRuntime) {
    for (file, told, status) in [
        (RING, AUDIT, Status::Done),
        (
            CLASH,
            b"premise P4 broken at 1000\nrecord 1 illegal\n".as_slice(),
            Status::Refused,
        ),
    ] {
        let mut writer = CountedWriter::new(Vec::new(rt.alloc()));
        let answer = audit_file(rt.alloc(), &mut CountedReader::new(file), &mut writer);
        equal(&rt, &answer, &Ok(status));
        assert!(rt; writer.writer().as_slice() == told);
    }
}

/// A reader that fails at any call is reported, and nothing is written. An endlessly interrupted reader is too.
#[test]
fn a_reader_that_fails_at_any_call(rt: HostRuntime) {
    for calls_before in 0..=RING.len() as u32 {
        let failing = || ByteReader {
            rest: RING,
            calls_before,
            kind: ErrorKind::UnexpectedEof,
            errors: 1,
        };
        let mut writer = CountedWriter::new(Vec::new(rt.alloc()));
        let answer = audit_file(rt.alloc(), &mut CountedReader::new(failing()), &mut writer);
        equal(&rt, &answer, &Err(CliFault::Read));
        let answer = play(
            &rt,
            rt.alloc(),
            &mut CountedReader::new(failing()),
            &mut writer,
            None,
            None,
        );
        equal(&rt, &answer, &Err(CliFault::Read));
        assert!(rt; writer.writer().is_empty());
    }
}

#[test]
fn a_reader_that_is_interrupted_for_ever(rt: HostRuntime) {
    let interrupted = || ByteReader {
        rest: RING,
        calls_before: 3,
        kind: ErrorKind::Interrupted,
        errors: u32::MAX,
    };
    let mut writer = CountedWriter::new(Vec::new(rt.alloc()));
    let answer = audit_file(
        rt.alloc(),
        &mut CountedReader::new(interrupted()),
        &mut writer,
    );
    equal(&rt, &answer, &Err(CliFault::Read));
    let answer = play(
        &rt,
        rt.alloc(),
        &mut CountedReader::new(interrupted()),
        &mut writer,
        None,
        None,
    );
    equal(&rt, &answer, &Err(CliFault::Read));
    assert!(rt; writer.writer().is_empty());
}

/// A read that is interrupted, once or a thousand times, is tried again.
#[test]
fn an_interrupted_read_is_tried_again(rt: HostRuntime) {
    for errors in [1, 1000] {
        let interrupted = || ByteReader {
            rest: RING,
            calls_before: 3,
            kind: ErrorKind::Interrupted,
            errors,
        };
        let mut writer = CountedWriter::new(Vec::new(rt.alloc()));
        let answer = audit_file(
            rt.alloc(),
            &mut CountedReader::new(interrupted()),
            &mut writer,
        );
        equal(&rt, &answer, &Ok(Status::Done));
        assert!(rt; writer.writer().as_slice() == AUDIT, "{errors}");
        let mut writer = CountedWriter::new(Vec::new(rt.alloc()));
        let answer = play(
            &rt,
            rt.alloc(),
            &mut CountedReader::new(interrupted()),
            &mut writer,
            Some(2),
            None,
        );
        equal(&rt, &answer, &Ok(Status::Done));
        assert!(rt; writer.writer().as_slice() == TRACE, "{errors}");
    }
}

/// An interrupted write is tried again, at most a thousand times in a row. Then it is a fault.
#[test]
fn an_interrupted_write_is_tried_again(rt: HostRuntime) {
    let interrupted = |interruptions: u32| {
        CountedWriter::new(InterruptedWriter {
            taken: Vec::new(rt.alloc()),
            interruptions,
            left: interruptions,
        })
    };
    for interruptions in [1, 1000] {
        let mut writer = interrupted(interruptions);
        let answer = audit_file(rt.alloc(), &mut CountedReader::new(RING), &mut writer);
        equal(&rt, &answer, &Ok(Status::Done));
        assert!(rt;
            writer.writer().taken.as_slice() == AUDIT,
            "{interruptions}"
        );
        let mut writer = interrupted(interruptions);
        let answer = play(
            &rt,
            rt.alloc(),
            &mut CountedReader::new(RING),
            &mut writer,
            Some(1),
            None,
        );
        equal(&rt, &answer, &Ok(Status::Done));
        assert!(rt;
            writer.writer().taken.as_slice() == TRACE,
            "{interruptions}"
        );
    }
    for interruptions in [1001, u32::MAX] {
        let mut writer = interrupted(interruptions);
        let answer = audit_file(rt.alloc(), &mut CountedReader::new(RING), &mut writer);
        equal(&rt, &answer, &Err(CliFault::Write));
        assert!(rt; writer.writer().taken.is_empty(), "{interruptions}");
        let mut writer = interrupted(interruptions);
        let answer = play(
            &rt,
            rt.alloc(),
            &mut CountedReader::new(RING),
            &mut writer,
            Some(1),
            None,
        );
        equal(&rt, &answer, &Err(CliFault::Write));
        assert!(rt; writer.writer().taken.is_empty(), "{interruptions}");
    }
}

/// A write that takes no byte is a fault.
#[test]
fn a_write_that_takes_nothing_is_a_fault(rt: HostRuntime) {
    let mut writer = CountedWriter::new(FullWriter);
    let answer = audit_file(rt.alloc(), &mut CountedReader::new(RING), &mut writer);
    equal(&rt, &answer, &Err(CliFault::Write));
    let answer = play(
        &rt,
        rt.alloc(),
        &mut CountedReader::new(RING),
        &mut writer,
        Some(1),
        None,
    );
    equal(&rt, &answer, &Err(CliFault::Write));
}

/// A writer that fails at any call is reported, and has taken a prefix of the text.
#[test]
fn a_writer_that_fails_at_any_call(rt: HostRuntime) {
    for room in 0..AUDIT.len() {
        let mut writer = CountedWriter::new(ByteWriter {
            taken: Vec::new(rt.alloc()),
            room,
        });
        let answer = audit_file(rt.alloc(), &mut CountedReader::new(RING), &mut writer);
        equal(&rt, &answer, &Err(CliFault::Write));
        assert!(rt; writer.writer().taken.as_slice() == &AUDIT[..room]);
    }
    for room in 0..TRACE.len() {
        let mut writer = CountedWriter::new(ByteWriter {
            taken: Vec::new(rt.alloc()),
            room,
        });
        let answer = play(
            &rt,
            rt.alloc(),
            &mut CountedReader::new(RING),
            &mut writer,
            Some(1),
            None,
        );
        equal(&rt, &answer, &Err(CliFault::Write));
        assert!(rt; writer.writer().taken.as_slice() == &TRACE[..room]);
    }
}

/// With one allocation refused, `audit_file` writes the full output or returns `NoMemory`.
#[test]
fn refused_memory_in_audit_file(rt: HostRuntime) {
    let mut room = [0; 64];
    let mut writer = CountedWriter::new(room.as_mut_slice());
    match audit_file(rt.alloc(), &mut CountedReader::new(RING), &mut writer) {
        Ok(status) => equal(&rt, &status, &Status::Done),
        Err(fault) => {
            equal(&rt, &fault, &CliFault::NoMemory);
            let _ = println!(rt; "refused");
        }
    }
}

/// Two masters of 1 and 2 at 500,000 bits a second.
const BOUNDS: &[u8] = b"a: time-out 800 bit times, 1.600 ms (a_claim_waits_for_a_time_out)
a: silence bound 800 bit times, 1.600 ms (no_master_is_left_in_silence)
a: never-dead bound 33746 bit times, 67.492 ms (the_bus_is_never_dead)
b: time-out 1000 bit times, 2.000 ms (a_claim_waits_for_a_time_out)
b: silence bound 1000 bit times, 2.000 ms (no_master_is_left_in_silence)
b: never-dead bound 33946 bit times, 67.892 ms (the_bus_is_never_dead)
rotation bound 44616 bit times, 89.232 ms (a_rotation_is_bounded)
rotation bound beyond ttr 34616 bit times, 69.232 ms (a_rotation_is_bounded)
slot margin of a take 40 bit times, 0.080 ms (TakeLate)
slot margin of a reply 89 bit times, 0.178 ms (ReplyLate)
lag margin 39 bit times, 0.078 ms (TakeLate, ReplyLate)
";

/// The bounds of a bus, or `NoMemory` where an allocation is refused.
#[test]
fn refused_memory_in_bounds_file(rt: HostRuntime) {
    let mut room = [0; 1024];
    let mut writer = CountedWriter::new(room.as_mut_slice());
    let answer = bounds_file(
        rt.alloc(),
        &mut CountedReader::new(RING),
        &mut writer,
        500_000,
        false,
    );
    match answer {
        Ok(status) => {
            equal(&rt, &status, &Status::Done);
            equal(&rt, &writer.writer().len(), &(1024 - BOUNDS.len()));
        }
        Err(fault) => {
            equal(&rt, &fault, &CliFault::NoMemory);
            let _ = println!(rt; "refused");
            return;
        }
    }
    assert!(rt; room.iter().take(BOUNDS.len()).eq(BOUNDS.iter()));
}
