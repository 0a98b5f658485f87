//! Calls with one allocation refused.

use super::equal;
use pb_cli::{
    AskFault, CliFault, CountedReader, CountedWriter, Observer, Status, ask, audit_stream_file,
    capture_file, decode_lines, export_stream,
};
use pb_export::{LATEST, Link, StreamExport, StreamForm, Strings, Window};
use std::alloc::AllocGlobal;
use std::io;
use std::io::Write;
use std::process::Abort;

const INPUT: &[u8] = b"dc0302\n100302494e16\n--0302\n";

const OUTPUT: &[u8] = b"token da=3 sa=2\nshort da=3 sa=2 fc=49\nfault 2 Faulty 0\n";

/// Two masters; the second is away from 850 to 890.
const RING: &[u8] = b"version = 1
until = 1010
bus = { tsl = 100, tid1 = 37, tid2 = 60, tsdr = 11, lag = 0, ttr = 10000, gap = 10, hsa = 5, retries = 1 }
tap = [{ name = \"a\", kind = \"master\", address = 1 }, { name = \"b\", kind = \"master\", address = 2 }]
step = [
    { at = 0, do = \"start\", tap = \"a\" }, { at = 0, do = \"start\", tap = \"b\" },
    { at = 850, do = \"stop\", tap = \"b\" }, { at = 890, do = \"start\", tap = \"b\" },
]
";

/// What an audit of it finds.
const FOUND: &[u8] = b"premises kept\ntrace legal\n";

/// A dump of its first moment, at which the bus is idle.
const IDLE: &[u8] = b"$version ringplay $end
$timescale 1 ns $end
$scope module ringplay $end
$var wire 1 b bus $end
$var string 1 s telegram $end
$scope module stations $end
$var wire 1 t0 a $end
$var wire 1 t1 b $end
$upscope $end
$upscope $end
$enddefinitions $end
#0
$dumpvars
1b
s- s
1t0
1t1
$end
#0
";

/// What the second hears of it.
const HEARD: &[u8] = b"800 833 dc0101\ngap\n890 903 --\n940 1006 100201494c16\n";

/// Its pcap file at 1.5 Mbit/s: the head; the telegrams at 800, 870 and 940 bit times, each behind its nanoseconds and lengths.
const PACKETS: &[u8] =
    b"\x4d\x3c\xb2\xa1\x02\x00\x04\x00\x00\x00\x00\x00\x00\x00\x00\x00\xff\xff\x00\x00\x93\x00\x00\x00\
\x00\x00\x00\x00\x55\x23\x08\x00\x03\x00\x00\x00\x03\x00\x00\x00\xdc\x01\x01\
\x00\x00\x00\x00\xa0\xd9\x08\x00\x03\x00\x00\x00\x03\x00\x00\x00\xdc\x01\x01\
\x00\x00\x00\x00\xea\x8f\x09\x00\x06\x00\x00\x00\x06\x00\x00\x00\x10\x02\x01\x49\x4c\x16";

/// Looks at nothing.
#[derive(Drop)]
struct Blind;

impl Observer for Blind {
    fn observe(&mut self, _clock: u64, _until: u64) {}
}

/// Compares what is written with the wanted text, without allocating.
#[derive(Drop)]
struct Comparing {
    wanted: &'static [u8],
    same: bool,
}

impl Write for Comparing {
    fn write(&mut self, bytes: &[u8]) -> io::Result<usize> {
        match self.wanted.split_at_checked(bytes.len()) {
            Some((front, rest)) => {
                self.same &= front == bytes;
                self.wanted = rest;
            }
            None => self.same = false,
        }
        Ok(bytes.len())
    }

    fn flush(&mut self) -> io::Result<()> {
        Ok(())
    }
}

/// With one allocation refused, `decode_lines` writes the full output, or returns `NoMemory` and writes nothing.
#[test]
fn refused_memory_in_decode_lines(rt: HostRuntime) {
    let mut writer = CountedWriter::new(Comparing {
        wanted: OUTPUT,
        same: true,
    });
    match decode_lines(rt.alloc(), &mut CountedReader::new(INPUT), &mut writer) {
        Ok(_) => assert!(rt; writer.writer().same && writer.writer().wanted.is_empty()),
        Err(fault) => {
            equal(&rt, &fault, &CliFault::NoMemory);
            equal(&rt, &writer.writer().wanted.len(), &OUTPUT.len());
            let _ = println!(rt; "refused");
        }
    }
}

/// With one allocation refused, `ask` understands `decode` or returns `NoMemory`.
#[test]
fn refused_memory_in_ask(rt: HostRuntime) {
    let Ok(program) = String::from_str(rt.alloc(), "ringplay") else {
        return;
    };
    let Ok(word) = String::from_str(rt.alloc(), "decode") else {
        return;
    };
    if let Err(fault) = ask(rt.alloc(), [program, word].as_slice()) {
        assert!(rt; matches!(fault, AskFault::NoMemory));
        let _ = println!(rt; "refused");
    }
}

/// A writer that wants a text.
fn wanting(wanted: &'static [u8]) -> CountedWriter<Comparing> {
    CountedWriter::new(Comparing { wanted, same: true })
}

/// All of the wanted text was written, or memory was refused, and a front of it was.
fn is_whole_or_refused(
    rt: &(impl Abort + Print),
    answer: Result<Status, CliFault>,
    writer: &CountedWriter<Comparing>,
) {
    assert!(rt; writer.writer().same);
    match answer {
        Ok(status) => assert!(rt; status == Status::Done && writer.writer().wanted.is_empty()),
        Err(fault) => {
            equal(rt, &fault, &CliFault::NoMemory);
            let _ = println!(rt; "refused");
        }
    }
}

#[test]
fn refused_memory_in_an_audit_of_a_stream(rt: HostRuntime) {
    let mut writer = wanting(FOUND);
    let answer = audit_stream_file(rt.alloc(), RING, None, &mut writer, &mut Blind);
    is_whole_or_refused(&rt, answer, &writer);
}

#[test]
fn refused_memory_in_a_capture(rt: HostRuntime) {
    let Ok(name) = String::from_str(rt.alloc(), "b") else {
        return;
    };
    let mut writer = wanting(HEARD);
    let answer = capture_file(rt.alloc(), RING, Some(name), &mut writer, &mut Blind);
    is_whole_or_refused(&rt, answer.map(|settled| settled.status), &writer);
}

#[test]
fn refused_memory_in_an_export_of_a_stream(rt: HostRuntime) {
    let export = StreamExport {
        form: StreamForm::Pcap,
        window: Window {
            from: 0,
            until: LATEST,
        },
        baud: 1_500_000,
        link: Link::User,
        strings: Strings::Shown,
    };
    let mut writer = wanting(PACKETS);
    let answer = export_stream(rt.alloc(), RING, &export, &mut writer, &mut Blind);
    is_whole_or_refused(&rt, answer.map(|settled| settled.status), &writer);
}

#[test]
fn refused_memory_in_a_dump(rt: HostRuntime) {
    let export = StreamExport {
        form: StreamForm::Vcd,
        window: Window { from: 0, until: 0 },
        baud: 1_500_000,
        link: Link::User,
        strings: Strings::Shown,
    };
    let mut writer = wanting(IDLE);
    let answer = export_stream(rt.alloc(), RING, &export, &mut writer, &mut Blind);
    is_whole_or_refused(&rt, answer.map(|settled| settled.status), &writer);
}
