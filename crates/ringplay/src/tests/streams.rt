//! Lines decoded over readers and writers that fail, are interrupted, or move one byte a call; the limits of an input.

use super::equal;
use pb_cli::{CliFault, CountedReader, CountedWriter, Status, decode_lines};
use std::io;
use std::io::{Error, ErrorKind, Read, Write};
use std::test::Fail;

const INPUT: &[u8] = b"dc0302\ne5\nzz\n";

const OUTPUT: &[u8] = b"token da=3 sa=2\nack\nfault 0 NotHex\n";

/// Gives one byte a call, and returns an error at one call.
#[derive(Drop)]
pub(super) struct ByteReader {
    pub(super) rest: &'static [u8],
    pub(super) calls_before: u32,
    pub(super) kind: ErrorKind,
}

impl Read for ByteReader {
    fn read(&mut self, buffer: &mut [u8]) -> io::Result<usize> {
        if self.calls_before == 0 {
            self.calls_before = u32::MAX;
            return Err(Error::from(self.kind));
        }
        self.calls_before -= 1;
        match self.rest {
            [byte, rest @ ..] if !buffer.is_empty() => {
                buffer[0] = *byte;
                self.rest = rest;
                Ok(1)
            }
            _ => Ok(0),
        }
    }
}

/// Takes one byte a call, and from one call on returns some errors.
#[derive(Drop)]
pub(super) struct ByteWriter {
    pub(super) taken: Vec<u8>,
    pub(super) calls_before: u32,
    pub(super) kind: ErrorKind,
    pub(super) errors: u32,
}

impl Write for ByteWriter {
    fn write(&mut self, bytes: &[u8]) -> io::Result<usize> {
        if self.calls_before == 0 && self.errors > 0 {
            self.errors -= 1;
            return Err(Error::from(self.kind));
        }
        self.calls_before = self.calls_before.saturating_sub(1);
        match bytes {
            [byte, ..] => {
                self.taken.push(*byte)?;
                Ok(1)
            }
            [] => Ok(0),
        }
    }

    fn flush(&mut self) -> io::Result<()> {
        Ok(())
    }
}

/// Takes one byte a call, and is interrupted the given number of times before each.
#[derive(Drop)]
struct HaltingWriter {
    taken: Vec<u8>,
    halts: u32,
    left: u32,
}

impl Write for HaltingWriter {
    fn write(&mut self, bytes: &[u8]) -> io::Result<usize> {
        if self.left > 0 {
            self.left -= 1;
            return Err(Error::from(ErrorKind::Interrupted));
        }
        self.left = self.halts;
        match bytes {
            [byte, ..] => {
                self.taken.push(*byte)?;
                Ok(1)
            }
            [] => Ok(0),
        }
    }

    fn flush(&mut self) -> io::Result<()> {
        Ok(())
    }
}

/// Takes no byte.
#[derive(Drop)]
struct FullWriter;

impl Write for FullWriter {
    fn write(&mut self, _bytes: &[u8]) -> io::Result<usize> {
        Ok(0)
    }

    fn flush(&mut self) -> io::Result<()> {
        Ok(())
    }
}

#[test]
fn a_reader_that_fails_at_any_call(rt: HostRuntime) {
    for calls_before in 0..14 {
        let mut reader = CountedReader::new(ByteReader {
            rest: INPUT,
            calls_before,
            kind: ErrorKind::UnexpectedEof,
        });
        let mut writer = CountedWriter::new(Vec::new(rt.alloc()));
        let answer = decode_lines(rt.alloc(), &mut reader, &mut writer);
        equal(&rt, &answer, &Err(CliFault::Read));
        equal(&rt, &reader.failures(), &1);
        assert!(rt; writer.writer().is_empty());
    }
}

#[test]
fn an_interrupted_read_is_tried_again(rt: HostRuntime) {
    for calls_before in 0..14 {
        let mut reader = CountedReader::new(ByteReader {
            rest: INPUT,
            calls_before,
            kind: ErrorKind::Interrupted,
        });
        let mut writer = CountedWriter::new(Vec::new(rt.alloc()));
        let answer = decode_lines(rt.alloc(), &mut reader, &mut writer);
        equal(&rt, &answer, &Ok(Status::Refused));
        equal(&rt, &writer.writer().as_slice(), &OUTPUT);
        equal(&rt, &reader.calls(), &15);
    }
}

/// Is interrupted at each call.
#[derive(Drop)]
struct InterruptedReader;

impl Read for InterruptedReader {
    fn read(&mut self, _buffer: &mut [u8]) -> io::Result<usize> {
        Err(Error::from(ErrorKind::Interrupted))
    }
}

#[test]
fn reading_ends_at_the_limit_of_calls(rt: HostRuntime) {
    let mut reader = CountedReader::new(InterruptedReader);
    let mut writer = CountedWriter::new(Vec::new(rt.alloc()));
    let answer = decode_lines(rt.alloc(), &mut reader, &mut writer);
    equal(&rt, &answer, &Err(CliFault::Read));
    equal(&rt, &reader.calls(), &2_097_152);
    equal(&rt, &reader.failures(), &0);
    assert!(rt; writer.writer().is_empty());
}

/// Gives one space a call.
#[derive(Drop)]
struct BlankReader {
    left: u32,
}

impl Read for BlankReader {
    fn read(&mut self, buffer: &mut [u8]) -> io::Result<usize> {
        if self.left == 0 || buffer.is_empty() {
            return Ok(0);
        }
        buffer[0] = b' ';
        self.left -= 1;
        Ok(1)
    }
}

/// The limit of read calls allows one for each byte of the longest input, and one for its end.
#[test]
fn the_longest_input_comes_a_byte_a_call(rt: HostRuntime) {
    let mut reader = CountedReader::new(BlankReader { left: 1_048_576 });
    let mut writer = CountedWriter::new(Vec::new(rt.alloc()));
    let answer = decode_lines(rt.alloc(), &mut reader, &mut writer);
    equal(&rt, &answer, &Ok(Status::Refused));
    equal(&rt, &reader.calls(), &1_048_577);
}

#[test]
fn a_writer_that_fails_at_any_call(rt: HostRuntime) {
    for calls_before in 0..OUTPUT.len() as u32 {
        let mut writer = CountedWriter::new(ByteWriter {
            taken: Vec::new(rt.alloc()),
            calls_before,
            kind: ErrorKind::StorageFull,
            errors: 1,
        });
        let answer = decode_lines(rt.alloc(), &mut CountedReader::new(INPUT), &mut writer);
        equal(&rt, &answer, &Err(CliFault::Write));
        let taken = writer.writer().taken.as_slice();
        equal(&rt, &Some(taken), &OUTPUT.get(..calls_before as usize));
        equal(&rt, &writer.failures(), &1);
    }
}

#[test]
fn an_interrupted_write_is_tried_again(rt: HostRuntime) {
    for (errors, wanted) in [(1000, Ok(Status::Refused)), (1001, Err(CliFault::Write))] {
        let mut writer = CountedWriter::new(ByteWriter {
            taken: Vec::new(rt.alloc()),
            calls_before: 3,
            kind: ErrorKind::Interrupted,
            errors,
        });
        let answer = decode_lines(rt.alloc(), &mut CountedReader::new(INPUT), &mut writer);
        equal(&rt, &answer, &wanted);
        equal(&rt, &writer.interruptions(), &u64::from(errors));
        let length = if answer.is_ok() { OUTPUT.len() } else { 3 };
        equal(&rt, &writer.writer().taken.len(), &length);
    }
}

#[test]
fn interruptions_count_anew_after_a_write(rt: HostRuntime) {
    let mut writer = CountedWriter::new(HaltingWriter {
        taken: Vec::new(rt.alloc()),
        halts: 1000,
        left: 1000,
    });
    let answer = decode_lines(rt.alloc(), &mut CountedReader::new(INPUT), &mut writer);
    equal(&rt, &answer, &Ok(Status::Refused));
    equal(&rt, &writer.interruptions(), &(1000 * OUTPUT.len() as u64));
    equal(&rt, &writer.writer().taken.as_slice(), &OUTPUT);
}

#[test]
fn a_write_that_takes_nothing_is_a_fault(rt: HostRuntime) {
    let mut writer = CountedWriter::new(FullWriter);
    let answer = decode_lines(rt.alloc(), &mut CountedReader::new(INPUT), &mut writer);
    equal(&rt, &answer, &Err(CliFault::Write));
    equal(&rt, &writer.failures(), &1);
}

#[test]
fn an_input_has_a_limit(rt: HostRuntime) -> Result<(), Fail> {
    for (length, wanted) in [
        (1_048_576, Ok(Status::Refused)),
        (1_048_577, Err(CliFault::TooLong)),
    ] {
        let input = vec![in rt.alloc(); b' '; length]?;
        let mut writer = CountedWriter::new(Vec::new(rt.alloc()));
        let answer = decode_lines(
            rt.alloc(),
            &mut CountedReader::new(input.as_slice()),
            &mut writer,
        );
        equal(&rt, &answer, &wanted);
        equal(&rt, &writer.writer().is_empty(), &answer.is_err());
    }
    Ok(())
}
