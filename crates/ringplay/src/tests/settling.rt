//! Exports and captures that are written as the run settles, and pictures of such runs, over writers and observers in memory.

use super::equal;
use pb_cli::{
    CliFault, CountedWriter, Observer, Settled, Status, capture_file, draw_stream, export_stream,
};
use pb_export::{
    Export, Form, LATEST, Link, StreamExport, StreamForm, Strings, Window, exported_file,
};
use std::alloc::AllocGlobal;
use std::test::Fail;

/// Two masters; the second is away from 850 to 890.
const RING: &[u8] = b"version = 1
until = 3000
bus = { tsl = 100, tid1 = 37, tid2 = 60, tsdr = 11, lag = 0, ttr = 10000, gap = 10, hsa = 5, retries = 1 }
tap = [{ name = \"a\", kind = \"master\", address = 1 }, { name = \"b\", kind = \"master\", address = 2 }]
step = [
    { at = 0, do = \"start\", tap = \"a\" }, { at = 0, do = \"start\", tap = \"b\" },
    { at = 850, do = \"stop\", tap = \"b\" }, { at = 890, do = \"start\", tap = \"b\" },
]
";

/// The same for longer; the second starts once more at 3000, though it runs.
const STOPS: &[u8] = b"version = 3
until = 4000
bus = { tsl = 100, tid1 = 37, tid2 = 60, tsdr = 11, lag = 0, ttr = 10000, gap = 10, hsa = 5, retries = 1, ttd = 0 }
tap = [{ name = \"a\", kind = \"master\", address = 1 }, { name = \"b\", kind = \"master\", address = 2 }]
step = [
    { at = 0, do = \"start\", tap = \"a\" }, { at = 0, do = \"start\", tap = \"b\" },
    { at = 850, do = \"stop\", tap = \"b\" }, { at = 890, do = \"start\", tap = \"b\", every = 2110 },
]
";

const REFUSED: &[u8] = b"run fault 2 Running at 3000\n";

/// What the second hears of it: a token, the end of the next, a request.
const HEARD: &[u8] = b"800 833 dc0101
gap
890 903 --
940 1006 100201494c16
";

/// Keeps what it was told last, and how often it was told so.
#[derive(Drop)]
struct Told {
    clock: u64,
    times: u64,
}

impl Observer for Told {
    fn observe(&mut self, clock: u64, _until: u64) {
        self.clock = clock;
        self.times = self.times.saturating_add(1);
    }
}

const WINDOW: Window = Window {
    from: 0,
    until: LATEST,
};

/// What a call has written, how it ended, and what was told.
#[derive(Drop)]
struct Ending {
    answer: Result<Settled, CliFault>,
    writer: CountedWriter<Vec<u8>>,
    told: Told,
}

fn exported(rt: &impl AllocGlobal, file: &[u8], form: StreamForm) -> Ending {
    exported_in(rt, file, form, WINDOW)
}

fn exported_in(rt: &impl AllocGlobal, file: &[u8], form: StreamForm, window: Window) -> Ending {
    let mut writer = CountedWriter::new(Vec::new(rt.alloc()));
    let mut told = Told { clock: 0, times: 0 };
    let export = StreamExport {
        form,
        window,
        baud: 1_500_000,
        link: Link::User,
        strings: Strings::Shown,
    };
    let answer = export_stream(rt.alloc(), file, &export, &mut writer, &mut told);
    Ending {
        answer,
        writer,
        told,
    }
}

fn captured(rt: &impl AllocGlobal, file: &[u8], tap: Option<String>) -> Ending {
    let mut writer = CountedWriter::new(Vec::new(rt.alloc()));
    let mut told = Told { clock: 0, times: 0 };
    let answer = capture_file(rt.alloc(), file, tap, &mut writer, &mut told);
    Ending {
        answer,
        writer,
        told,
    }
}

fn drawn(rt: &impl AllocGlobal, file: &[u8], window: Window) -> Ending {
    let mut writer = CountedWriter::new(Vec::new(rt.alloc()));
    let mut told = Told { clock: 0, times: 0 };
    let answer = draw_stream(rt.alloc(), file, window, &mut writer, &mut told);
    Ending {
        answer,
        writer,
        told,
    }
}

/// What is made of the whole trace.
fn whole(form: Form) -> Export {
    Export {
        form,
        window: WINDOW,
        baud: 1_500_000,
        link: Link::User,
        strings: Strings::Shown,
    }
}

/// What is written as the run settles is what is made of the whole trace.
#[test]
fn exports_settle_to_those_of_the_trace(rt: HostRuntime) -> Result<(), Fail> {
    for (settling, form) in [
        (StreamForm::Json, Form::Json),
        (StreamForm::Pcap, Form::Pcap),
        (StreamForm::Pcapng, Form::Pcapng),
        (StreamForm::Vcd, Form::Vcd),
    ] {
        let Ending {
            answer,
            writer,
            told,
        } = exported(&rt, RING, settling);
        let export = Export {
            baud: 1_500_000,
            ..whole(form)
        };
        equal(
            &rt,
            writer.writer(),
            &exported_file(rt.alloc(), RING, &export)?.text,
        );
        let ended = answer.expect(&rt, "an export");
        equal(&rt, &ended.status, &Status::Done);
        assert!(rt; ended.line.is_empty() && told.clock == 3000 && told.times > 10);
    }
    Ok(())
}

/// Two masters at both ends of a cable, for several hundred telegrams, with noise.
const LONG: &[u8] = b"version = 2
until = 40000
bus = { tsl = 150, tid1 = 37, tid2 = 60, tsdr = 11, lag = 0, ttr = 10000, gap = 10, hsa = 5, retries = 1, ttd = 20 }
tap = [{ name = \"a\", kind = \"master\", address = 1 }, { name = \"b\", kind = \"master\", address = 2 }]
step = [
    { at = 0, do = \"start\", tap = \"a\" }, { at = 0, do = \"start\", tap = \"b\" },
    { at = 9000, do = \"noise\", bits = 40 }, { at = 9030, do = \"noise\", bits = 5000 },
    { at = 23456, do = \"noise\", bits = 1 },
]
";

/// A dump that is written in many pieces is that of the whole trace, also of a part of it.
#[test]
fn a_dump_settles_in_pieces(rt: HostRuntime) -> Result<(), Fail> {
    for window in [
        WINDOW,
        Window {
            from: 8_000,
            until: 9_010,
        },
        Window {
            from: 20_000,
            until: 30_000,
        },
    ] {
        let settled = exported_in(&rt, LONG, StreamForm::Vcd, window);
        let export = Export {
            window,
            baud: 1_500_000,
            ..whole(Form::Vcd)
        };
        equal(
            &rt,
            settled.writer.writer(),
            &exported_file(rt.alloc(), LONG, &export)?.text,
        );
        let ended = settled.answer.expect(&rt, "an export");
        equal(&rt, &ended.status, &Status::Done);
    }
    Ok(())
}

/// Where an event is refused, the entries before it are written, and its line is returned.
#[test]
fn a_refused_event_leaves_what_came_before(rt: HostRuntime) {
    let up_to = exported(&rt, RING, StreamForm::Pcap);
    let stopped = exported(&rt, STOPS, StreamForm::Pcap);
    equal(&rt, stopped.writer.writer(), up_to.writer.writer());
    let ended = stopped.answer.expect(&rt, "an export");
    equal(&rt, &ended.status, &Status::Refused);
    equal(&rt, &ended.line.as_slice(), &REFUSED);
}

#[test]
fn a_refused_file_has_its_line_alone(rt: HostRuntime) {
    let refused = exported(&rt, b"=", StreamForm::Pcapng);
    equal(
        &rt,
        &refused.writer.writer().as_slice(),
        &b"scenario fault 1 NotToml\n".as_slice(),
    );
    let ended = refused.answer.expect(&rt, "an export");
    assert!(rt; ended.status == Status::Refused && ended.line.is_empty());
}

/// Two masters; the second is withheld at 1000 and every 700 bit times after it.
const REPEATS: &[u8] = b"version = 3
until = 4000
bus = { tsl = 100, tid1 = 37, tid2 = 60, tsdr = 11, lag = 0, ttr = 10000, gap = 10, hsa = 5, retries = 1, ttd = 0 }
tap = [{ name = \"a\", kind = \"master\", address = 1 }, { name = \"b\", kind = \"master\", address = 2 }]
step = [
    { at = 0, do = \"start\", tap = \"a\" }, { at = 0, do = \"start\", tap = \"b\" },
    { at = 1000, do = \"withhold\", tap = \"b\", bits = 50, every = 700 },
]
";

/// The same with a step for each time.
const UNROLLED: &[u8] = b"version = 2
until = 4000
bus = { tsl = 100, tid1 = 37, tid2 = 60, tsdr = 11, lag = 0, ttr = 10000, gap = 10, hsa = 5, retries = 1, ttd = 0 }
tap = [{ name = \"a\", kind = \"master\", address = 1 }, { name = \"b\", kind = \"master\", address = 2 }]
step = [
    { at = 0, do = \"start\", tap = \"a\" }, { at = 0, do = \"start\", tap = \"b\" },
    { at = 1000, do = \"withhold\", tap = \"b\", bits = 50 }, { at = 1700, do = \"withhold\", tap = \"b\", bits = 50 },
    { at = 2400, do = \"withhold\", tap = \"b\", bits = 50 }, { at = 3100, do = \"withhold\", tap = \"b\", bits = 50 },
    { at = 3800, do = \"withhold\", tap = \"b\", bits = 50 },
]
";

/// The picture of a run whose steps repeat is that of the run in which each happening is a step, also of a part of it, and
/// also at the moments of happenings.
#[test]
fn a_picture_has_each_happening(rt: HostRuntime) -> Result<(), Fail> {
    for (from, until) in [
        (0, LATEST),
        (1750, 3090),
        (2400, 3100),
        (3801, 3900),
        (5000, 6000),
    ] {
        let window = Window { from, until };
        let Ending {
            answer,
            writer,
            told,
        } = drawn(&rt, REPEATS, window);
        let export = Export {
            window,
            baud: 1_500_000,
            ..whole(Form::Svg)
        };
        equal(
            &rt,
            writer.writer(),
            &exported_file(rt.alloc(), UNROLLED, &export)?.text,
        );
        let once = drawn(&rt, UNROLLED, window);
        equal(&rt, writer.writer(), once.writer.writer());
        let ended = answer.expect(&rt, "a picture");
        assert!(rt; ended.status == Status::Done && ended.line.is_empty() && told.clock == 4000);
    }
    Ok(())
}

/// Only the happenings on the sheet are visited: here every bit time has one, for 10^12 bit times, of which two are shown.
const EVER: &[u8] = b"version = 3
until = 1500
bus = { tsl = 100, tid1 = 37, tid2 = 60, tsdr = 11, lag = 0, ttr = 10000, gap = 10, hsa = 5, retries = 1, ttd = 0 }
tap = [{ name = \"a\", kind = \"master\", address = 1 }]
step = [
    { at = 0, do = \"start\", tap = \"a\" },
    { at = 9, do = \"withhold\", tap = \"a\", bits = 0, every = 1, count = 1000000000000 },
]
";

#[test]
fn a_picture_leaves_what_happens_behind_it(rt: HostRuntime) -> Result<(), Fail> {
    let window = Window {
        from: 1498,
        until: LATEST,
    };
    let Ending { answer, writer, .. } = drawn(&rt, EVER, window);
    answer.expect(&rt, "a picture");
    let text = std::str::from_utf8(writer.writer())?;
    assert!(rt; text.contains("<title>1499: withhold a</title>") && text.ends_with("</svg>\n"));
    assert!(rt; !text.contains("<title>1399: withhold a</title>"));
    assert!(rt; !text.contains("<title>1700: withhold a</title>"));
    Ok(())
}

/// Where an event is refused, at 3000, the picture ends, and its line is returned.
#[test]
fn a_picture_ends_before_a_refused_event(rt: HostRuntime) -> Result<(), Fail> {
    let Ending { answer, writer, .. } = drawn(&rt, STOPS, WINDOW);
    let text = std::str::from_utf8(writer.writer())?;
    assert!(rt; text.contains("<title>800 833 a dc0101 -w") && text.ends_with("</svg>\n"));
    assert!(rt; text.contains(">3000<") && !text.contains(">3500<"));
    let ended = answer.expect(&rt, "a picture");
    equal(&rt, &ended.status, &Status::Refused);
    equal(&rt, &ended.line.as_slice(), &REFUSED);
    Ok(())
}

#[test]
fn a_refused_file_has_no_picture(rt: HostRuntime) {
    let refused = drawn(&rt, b"=", WINDOW);
    equal(
        &rt,
        &refused.writer.writer().as_slice(),
        &b"scenario fault 1 NotToml\n".as_slice(),
    );
    let ended = refused.answer.expect(&rt, "an answer");
    assert!(rt; ended.status == Status::Refused && ended.line.is_empty());
}

/// A tap hears while it runs. Where an event is refused, what was heard before is written, and its line is returned.
#[test]
fn a_capture_settles(rt: HostRuntime) -> Result<(), Fail> {
    let name = String::from_str(rt.alloc(), "b")?;
    let heard = captured(&rt, RING, Some(name));
    assert!(rt; heard.writer.writer().starts_with(HEARD) && heard.told.clock == 3000);
    let whole = heard.answer.expect(&rt, "a capture");
    assert!(rt; whole.status == Status::Done && whole.line.is_empty());
    let all = captured(&rt, RING, None);
    let stopped = captured(&rt, STOPS, None);
    equal(&rt, stopped.writer.writer(), all.writer.writer());
    let front = stopped.answer.expect(&rt, "a capture");
    equal(&rt, &front.status, &Status::Refused);
    equal(&rt, &front.line.as_slice(), &REFUSED);
    Ok(())
}

/// Nothing is written where no tap has the name.
#[test]
fn a_capture_of_no_tap_has_a_line(rt: HostRuntime) -> Result<(), Fail> {
    let name = String::from_str(rt.alloc(), "c")?;
    let none = captured(&rt, RING, Some(name));
    assert!(rt; none.writer.writer().is_empty());
    let refused = none.answer.expect(&rt, "an answer");
    equal(&rt, &refused.status, &Status::Refused);
    equal(
        &rt,
        &refused.line.as_slice(),
        &b"no tap is named c\n".as_slice(),
    );
    Ok(())
}
