//! Exports of a small run, and whom the traces of runs name.

use pb_export::{
    Export, Form, LATEST, Link, Strings, Window, entries_of, exported_file, tenures_of,
};
use pb_scenario::read;
use pb_timers::Moment;
use pb_world::named;
use std::alloc::{AllocError, Global};
use std::test::Fail;

/// Two masters form a ring; a token is heard damaged at 1130, and noise comes at 1300.
const FILE: &[u8] = b"version = 1
until = 2500
bus = { tsl = 100, tid1 = 37, tid2 = 60, tsdr = 11, lag = 0, ttr = 10000, gap = 10, hsa = 5, retries = 1 }
tap = [{ name = \"a\", kind = \"master\", address = 1 }, { name = \"b\", kind = \"master\", address = 2 }]
step = [{ at = 0, do = \"start\", tap = \"a\" }, { at = 0, do = \"start\", tap = \"b\" },
{ at = 1130, do = \"damage\", tap = \"b\", speaker = \"a\", place = 1 }, { at = 1300, do = \"noise\", bits = 20 }]
";

/// The export of the entries that begin at 850 or earlier.
fn first(alloc: Global, form: Form, link: Link) -> Result<Vec<u8>, AllocError> {
    let export = Export {
        form,
        window: Window {
            from: 0,
            until: 850,
        },
        baud: 1_500_000,
        link,
        strings: Strings::LeftOut,
    };
    Ok(exported_file(alloc, FILE, &export)?.text)
}

#[test]
fn json_lines_begin_with_the_bus(rt: HostRuntime) -> Result<(), Fail> {
    let text = first(rt.alloc(), Form::Json, Link::User)?;
    let wanted: &[u8] =
        b"{\"bus\":{\"tsl\":100,\"tid1\":37,\"tid2\":60,\"tsdr\":11,\"lag\":0,\"ttr\":10000,\"gap\":10,\"hsa\":5,\"retries\":1,\"ttd\":0},\"until\":2500,\"stations\":[{\"name\":\"a\",\"address\":1,\"kind\":\"master\"},{\"name\":\"b\",\"address\":2,\"kind\":\"master\"}]}
{\"begin\":800,\"end\":833,\"station\":\"a\",\"address\":1,\"octets\":\"dc0101\",\"octets_sent\":3,\"kind\":\"token\",\"da\":1,\"sa\":1,\"heard\":{\"a\":\"own\",\"b\":\"whole\"}}
";
    assert!(rt; text.as_slice() == wanted);
    Ok(())
}

/// What tshark reads as a packet of three octets at 533,333 ns, of link type 257.
#[test]
fn a_packet_has_its_nanosecond(rt: HostRuntime) -> Result<(), Fail> {
    let file = first(rt.alloc(), Form::Pcap, Link::Profibus)?;
    let text = hex::encode(rt.alloc(), file.as_slice())?;
    let wanted =
        "4d3cb2a1020004000000000000000000ffff00000101000000000000552308000300000003000000dc0101";
    assert!(rt; text.as_str() == wanted);
    Ok(())
}

/// The same with the comment `begin 800, sent by a, heard -w`, of link type 147.
#[test]
fn a_packet_has_its_comment(rt: HostRuntime) -> Result<(), Fail> {
    let file = first(rt.alloc(), Form::Pcapng, Link::User)?;
    let text = hex::encode(rt.alloc(), file.as_slice())?;
    let wanted =
        "0a0d0d0a2c0000004d3c2b1a01000000ffffffffffffffff0400080072696e67706c6179000000002c000000010000003400000093000000ffff000002000300627573000800080060e316000000000009000100090000000000000034000000060000004c0000000000000000000000552308000300000003000000dc01010001001e00626567696e203830302c2073656e7420627920612c206865617264202d770000000000004c000000";
    assert!(rt; text.as_str() == wanted);
    Ok(())
}

/// The first character of a token, as sigrok's decoder `uart` reads it: DC with the least bit first.
#[test]
fn a_dump_begins_idle(rt: HostRuntime) -> Result<(), Fail> {
    let text = first(rt.alloc(), Form::Vcd, Link::User)?;
    let wanted: &[u8] = b"$version ringplay $end
$timescale 1 ns $end
$scope module ringplay $end
$var wire 1 b bus $end
$scope module stations $end
$var wire 1 t0 a $end
$var wire 1 t1 b $end
$upscope $end
$upscope $end
$enddefinitions $end
#0
$dumpvars
1b
1t0
1t1
$end
#533333
0t0
0b
#535333
1t0
1b
#537333
0t0
0b
#538000
1t0
1b
#540666
0t0
0b
";
    assert!(rt; text.starts_with(wanted));
    Ok(())
}

/// The box of the token at 800 is where Chromium draws it: in the second strip, 300 bit times from its begin.
#[test]
fn a_box_is_where_its_moment_says(rt: HostRuntime) -> Result<(), Fail> {
    let text = first(rt.alloc(), Form::Svg, Link::User)?;
    let text = std::str::from_utf8(&text)?;
    assert!(rt;
        text.contains(
            "<g class=\"token\"><title>800 833 a dc0101 -w\ntoken da=1 sa=1\n</title><rect x=\"730\" y=\"204\" width=\"66\" height=\"20\"/><text x=\"733\" y=\"218\">token to 1</text></g>\n"
        )
    );
    Ok(())
}

/// At each moment, the stretch that has it says whom `named` says.
#[test]
fn a_stretch_says_whom_the_trace_names(rt: HostRuntime) -> Result<(), Fail> {
    let scenario = read(rt.alloc(), FILE)?;
    let entries = entries_of(rt.alloc(), &scenario)?;
    let tenures = tenures_of(rt.alloc(), &scenario, &entries, 0, 2500)?;
    let mut begin = 0;
    for tenure in &tenures {
        assert!(rt; tenure.begin == begin && begin < tenure.end);
        for now in tenure.begin..tenure.end {
            let moment = Moment::new(now).expect(&rt, "a moment");
            let tap = named(scenario.params(), scenario.taps(), &entries, moment)?;
            assert!(rt; tap == tenure.tap, "{now}");
        }
        begin = tenure.end;
    }
    assert!(rt; begin == 2500 && tenures.len() == 7);
    Ok(())
}

#[test]
fn a_refused_file_has_a_line(rt: HostRuntime) -> Result<(), Fail> {
    let export = Export {
        form: Form::Svg,
        window: Window {
            from: 0,
            until: LATEST,
        },
        baud: 9600,
        link: Link::User,
        strings: Strings::Shown,
    };
    let shown = exported_file(rt.alloc(), b"=", &export)?;
    assert!(rt;
        shown.is_refused && shown.text.as_slice() == b"scenario fault 1 NotToml\n".as_slice()
    );
    Ok(())
}
