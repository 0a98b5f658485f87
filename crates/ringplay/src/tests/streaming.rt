//! Scenario files streamed over writers and observers in memory, and how far a stream is in words.

use super::equal;
use pb_cli::{
    CliFault, CountedWriter, Flush, Observer, Progress, Status, audit_stream_file, stream_file,
};
use std::alloc::AllocGlobal;
use std::io;
use std::io::Write;
use std::test::Fail;

/// Two masters; the second stops, and then again.
const RING: &[u8] = b"version = 1
until = 4000
bus = { tsl = 100, tid1 = 37, tid2 = 60, tsdr = 11, lag = 0, ttr = 10000, gap = 10, hsa = 5, retries = 1 }
tap = [{ name = \"a\", kind = \"master\", address = 1 }, { name = \"b\", kind = \"master\", address = 2 }]
step = [
    { at = 0, do = \"start\", tap = \"a\" }, { at = 0, do = \"start\", tap = \"b\" },
    { at = 4100, do = \"stop\", tap = \"b\" }, { at = 4200, do = \"stop\", tap = \"b\" },
]
";

/// Two masters with one address; the second starts, and then again.
const NAMESAKES: &[u8] = b"version = 1
until = 4000
bus = { tsl = 100, tid1 = 37, tid2 = 60, tsdr = 11, lag = 0, ttr = 10000, gap = 10, hsa = 5, retries = 1 }
tap = [{ name = \"a\", kind = \"master\", address = 1 }, { name = \"b\", kind = \"master\", address = 1 }]
step = [
    { at = 0, do = \"start\", tap = \"a\" }, { at = 1000, do = \"start\", tap = \"b\" },
    { at = 4100, do = \"start\", tap = \"b\" },
]
";

const FRONT: &[u8] = b"800 833 a dc0101 -w
870 903 a dc0101 -w
940 1006 a 100201494c16 -w
1017 1083 b 100102202316 w-
1120 1153 a dc0201 -w
1190 1256 b 100302494e16 w-
";

const REFUSED: &[u8] = b"run fault 3 NotRunning at 4200\n";

/// Counts the writes that end a line, and fails where it has taken so many.
#[derive(Drop)]
struct LineWriter {
    taken: Vec<u8>,
    writes: usize,
    most: usize,
}

impl Write for LineWriter {
    fn write(&mut self, bytes: &[u8]) -> io::Result<usize> {
        if self.writes == self.most {
            return Err(io::Error::from(io::ErrorKind::BrokenPipe));
        }
        if bytes.ends_with(b"\n") {
            self.writes = self.writes.saturating_add(1);
        }
        self.taken.extend_from_slice(bytes)?;
        Ok(bytes.len())
    }

    fn flush(&mut self) -> io::Result<()> {
        Ok(())
    }
}

/// Keeps what it was told last, and how often it was told so.
#[derive(Drop)]
struct Told {
    clock: u64,
    until: u64,
    times: u64,
}

impl Observer for Told {
    fn observe(&mut self, clock: u64, until: u64) {
        self.clock = clock;
        self.until = until;
        self.times = self.times.saturating_add(1);
    }
}

/// A writer that fails where it has taken so many lines.
fn line_writer(rt: &impl AllocGlobal, most: usize) -> CountedWriter<LineWriter> {
    CountedWriter::new(LineWriter {
        taken: Vec::new(rt.alloc()),
        writes: 0,
        most,
    })
}

/// Nothing was told.
const UNTOLD: Told = Told {
    clock: 0,
    until: 0,
    times: 0,
};

/// What a stream has written, how it ended, and what was told.
#[derive(Drop)]
struct Ending {
    answer: Result<Status, CliFault>,
    writer: CountedWriter<LineWriter>,
    told: Told,
}

fn streamed(rt: &impl AllocGlobal, until: u64, flush: Flush, most: usize) -> Ending {
    let mut writer = line_writer(rt, most);
    let mut told = UNTOLD;
    let until = Some(until.min(1_000_000_000_000));
    let answer = stream_file(rt.alloc(), RING, until, flush, &mut writer, &mut told);
    Ending {
        answer,
        writer,
        told,
    }
}

fn audited(rt: &impl AllocGlobal, until: u64, most: usize) -> Ending {
    let mut writer = line_writer(rt, most);
    let mut told = UNTOLD;
    let until = Some(until.min(1_000_000_000_000));
    let answer = audit_stream_file(rt.alloc(), NAMESAKES, until, &mut writer, &mut told);
    Ending {
        answer,
        writer,
        told,
    }
}

/// Lines are written as the entries are over, or in blocks, and are the same; the observer hears of each instant.
#[test]
fn a_stream_is_written_as_it_happens(rt: HostRuntime) {
    let at_once = streamed(&rt, 4000, Flush::Instants, usize::MAX);
    equal(&rt, &at_once.answer, &Ok(Status::Done));
    let text = at_once.writer.writer().taken.as_slice();
    assert!(rt; text.starts_with(FRONT));
    assert!(rt; at_once.writer.writer().writes > 10);
    equal(&rt, &at_once.told.clock, &4000);
    equal(&rt, &at_once.told.until, &4000);
    assert!(rt; at_once.told.times > 100);
    let blocks = streamed(&rt, 4000, Flush::Blocks, usize::MAX);
    equal(&rt, &blocks.answer, &Ok(Status::Done));
    equal(&rt, &blocks.writer.writer().taken.as_slice(), &text);
    equal(&rt, &blocks.writer.writer().writes, &1);
}

/// Where an event is refused, all lines before it are written, and then its own.
#[test]
fn a_refused_stream_is_written_up_to_the_fault(rt: HostRuntime) {
    let kept = streamed(&rt, 4000, Flush::Blocks, usize::MAX);
    for flush in [Flush::Instants, Flush::Blocks] {
        let stopped = streamed(&rt, 5000, flush, usize::MAX);
        equal(&rt, &stopped.answer, &Ok(Status::Refused));
        let text = stopped.writer.writer().taken.as_slice();
        assert!(rt; text.starts_with(kept.writer.writer().taken.as_slice()));
        assert!(rt; text.ends_with(REFUSED));
        equal(&rt, &stopped.told.clock, &4200);
    }
}

/// A writer that fails ends a stream that would go on for hours.
#[test]
fn a_writer_that_fails_ends_a_stream(rt: HostRuntime) {
    let stopped = streamed(&rt, 4099, Flush::Instants, 3);
    equal(&rt, &stopped.answer, &Err(CliFault::Write));
    equal(&rt, &stopped.writer.failures(), &1);
    let taken = stopped.writer.writer().taken.as_slice();
    equal(&rt, &Some(taken), &FRONT.get(..67));
}

/// The line of a premise is written when it breaks, and at the end that there is no illegal record.
#[test]
fn an_audit_is_written_as_it_is_found(rt: HostRuntime) {
    let whole = audited(&rt, 4000, usize::MAX);
    equal(&rt, &whole.answer, &Ok(Status::Done));
    let text = b"premise P1 broken at 1000\ntrace legal\n".as_slice();
    equal(&rt, &whole.writer.writer().taken.as_slice(), &text);
    equal(&rt, &whole.writer.writer().writes, &2);
    equal(&rt, &whole.told.clock, &4000);
    let first = audited(&rt, 4000, 1);
    equal(&rt, &first.answer, &Err(CliFault::Write));
    assert!(rt; first.told.clock > 1000 && first.told.clock < 4000);
    let failed = audited(&rt, 4000, 0);
    equal(&rt, &failed.answer, &Err(CliFault::Write));
    assert!(rt; failed.told.clock <= 1000);
}

/// Where an event is refused, its line follows what was found.
#[test]
fn a_refused_audit_has_what_was_found(rt: HostRuntime) {
    let stopped = audited(&rt, 5000, usize::MAX);
    equal(&rt, &stopped.answer, &Ok(Status::Refused));
    let text = b"premise P1 broken at 1000\nrun fault 2 Running at 4100\n".as_slice();
    equal(&rt, &stopped.writer.writer().taken.as_slice(), &text);
    equal(&rt, &stopped.told.clock, &4100);
}

#[test]
fn how_far_a_stream_is_in_words(rt: HostRuntime) -> Result<(), Fail> {
    for (clock, until, millis, words) in [
        (0, 1000, 0, "0 %, 0 bit times/s, 0:16:40 left"),
        (250, 1000, 500, "25 %, 500 bit times/s, 0:00:01 left"),
        (999, 1000, 1, "99 %, 999000 bit times/s, 0:00:00 left"),
        (1000, 1000, 2000, "100 %, 500 bit times/s, 0:00:00 left"),
        (
            1_000_000,
            1_000_000_000_000,
            100,
            "0 %, 10000000 bit times/s, 27:46:39 left",
        ),
        (
            u64::MAX,
            u64::MAX,
            0,
            "100 %, 18446744073709551615000 bit times/s, 0:00:00 left",
        ),
    ] {
        let progress = Progress {
            clock,
            until,
            millis,
        };
        let text = format!(in rt.alloc(); "{progress}")?;
        equal(&rt, &text.as_str(), &words);
    }
    Ok(())
}
