//! Each alarm once, with the answers of another judge; the forms of a capture, whole and octet by octet; bad input.

use bstr::ByteSlice;
use pb_monitor::{Classes, Form, Monitor, Options};
use pb_timers::BusParams;
use std::process::Abort;

/// A capture, and what is printed for it.
#[derive(Clone, Copy)]
struct Case {
    capture: &'static [u8],
    printed: &'static [u8],
}

/// Two masters form a ring, until 1153.
const RING: &[u8] =
    b"800 833 dc0101\n870 903 dc0101\n940 1006 100201494c16\n1017 1083 100102202316\n1120 1153 dc0201\n";

const RING_PRINTED: &[u8] =
    b"800 833 token da=1 sa=1 | token to itself | holder 1\n870 903 token da=1 sa=1 | token to itself | holder 1\n940 1006 short da=2 sa=1 fc=49 | FDL status request | holder 1\n1017 1083 short da=1 sa=2 fc=20 | reply: OK, master ready | holder 1\n1120 1153 token da=2 sa=1 | token to 2 | offered to 2\n";

/// The parameters of the bus.
fn params(rt: &impl Abort) -> BusParams {
    BusParams::new(100, 37, 60, 11, 0, 10000, 10, 5, 1, 0).expect(rt, "parameters")
}

/// What is asked for, with the most usual values.
fn options(form: Form) -> Options {
    Options {
        form,
        classes: Classes::all(),
        every: None,
        summary: None,
        baud: Some(1_000_000),
        slack: 0,
    }
}

/// What is printed for captures one behind the other, without the summary.
fn printed<T: Abort + AllocGlobal>(rt: &T, form: Form, captures: &[&[u8]]) -> Vec<u8> {
    let monitor = Monitor::new(rt.alloc(), Some(params(rt)), options(form));
    let mut monitor = monitor.expect(rt, "memory");
    let mut text = Vec::new(rt.alloc());
    for capture in captures {
        monitor.feed(capture, &mut text).expect(rt, "memory");
    }
    text
}

/// What is printed for a capture that comes octet by octet, without the summary.
fn printed_by_octets<T: Abort + AllocGlobal>(rt: &T, form: Form, capture: &[u8]) -> Vec<u8> {
    let monitor = Monitor::new(rt.alloc(), Some(params(rt)), options(form));
    let mut monitor = monitor.expect(rt, "memory");
    let mut text = Vec::new(rt.alloc());
    for octet in capture {
        monitor.feed(&[*octet], &mut text).expect(rt, "memory");
    }
    text
}

/// Compares texts, and prints them if they differ.
fn same(rt: &impl Abort, found: &[u8], wanted: &[u8]) {
    let (found, wanted) = (found.as_bstr(), wanted.as_bstr());
    assert!(rt; found == wanted, "found {found} wanted {wanted}");
}

#[test]
fn raises_each_alarm_once(rt: HostRuntime) {
    let cases = [
        Case {
            capture: b"1190 1256 100302494e16\n1356 1389 dc0102\n",
            printed: b"1190 1256 short da=3 sa=2 fc=49 | FDL status request | holder 2\n1356 1389 token da=1 sa=2 | token to 1 | offered to 1\n",
        },
        Case {
            capture: b"1190 1256 100403495016\n",
            printed: b"1190 1256 short da=4 sa=3 fc=49 | FDL status request | holder 3\nalarm at 1190 by 3: SpokeOutOfTurn: station 1 had passed the token to station 2\n",
        },
        Case {
            capture: b"1252 1285 dc0201\n",
            printed: b"1252 1285 token da=2 sa=1 | token to 2 | offered to 2\nalarm at 1252 by 1: PassedAgainTooEarly: station 1 had passed the token to station 2 and spoke again 99 after the end of that token; the slot is 100\n",
        },
        Case {
            capture: b"1190 1256 100102202316\n1293 1326 dc0201\n",
            printed: b"1190 1256 short da=1 sa=2 fc=20 | reply: OK, master ready | nobody\n1293 1326 token da=2 sa=1 | token to 2 | offered to 2\nalarm at 1293 by 1: PassedAgainThoughHeard: station 1 had passed the token to station 2 and spoke again though something was heard in the slot\n",
        },
        Case {
            capture: b"1253 1319 100302494e16\n",
            printed: b"1253 1319 short da=3 sa=2 fc=49 | FDL status request | holder 2\nalarm at 1253 by 2: TookAfterSlot: station 1 had passed the token to station 2; it was taken 100 after its end, and the slot is 100\n",
        },
        Case {
            capture: b"1254 1320 100302494e16\n",
            printed: b"1254 1320 short da=3 sa=2 fc=49 | FDL status request | holder 2\nalarm at 1254 by 2: SpokeAfterLoss: it spoke without claiming after a silence of 101, and a token in use leaves at most 100; station 1 had passed the token to station 2\n",
        },
        Case {
            capture: b"2152 2185 dc0202\n",
            printed: b"2152 2185 token da=2 sa=2 | token to itself | holder 2\nalarm at 2152 by 2: ClaimedTooEarlyAfterLoss: it claimed after a silence of 999, and its time-out is 1000; station 1 had passed the token to station 2\n",
        },
        Case {
            capture: b"1191 1257 100302494e16\n",
            printed: b"1191 1257 short da=3 sa=2 fc=49 | FDL status request | holder 2\nalarm at 1191 by 2: TookLate: station 1 had passed the token to station 2; it was taken 38 after its end, and the latest is 37\n",
        },
        Case {
            capture: b"1189 1255 100302494e16\n",
            printed: b"1189 1255 short da=3 sa=2 fc=49 | FDL status request | holder 2\nalarm at 1189 by 2: TookTooSoon: station 1 had passed the token to station 2; it was taken 36 after its end, and the earliest is 37\n",
        },
    ];
    for case in cases {
        let found = printed(&rt, Form::Lines, &[RING, case.capture]);
        let mut wanted = Vec::from_slice(rt.alloc(), RING_PRINTED).expect(&rt, "memory");
        wanted.extend_from_slice(case.printed).expect(&rt, "memory");
        same(&rt, &found, &wanted);
    }
    let cases = [
        Case {
            capture: b"800 833 dc0101\n870 936 100302494e16\n",
            printed: b"800 833 token da=1 sa=1 | token to itself | holder 1\n870 936 short da=3 sa=2 fc=49 | FDL status request | holder 2\nalarm at 870 by 2: SpokeWithoutToken: station 1 had the token\n",
        },
        Case {
            capture: b"800 833 dc0101\n870 903 dc0101\n940 1006 100201494c16\n1017 1083 100102202316\n1120 1153 dc0201\n1253 1286 dc0303\n",
            printed: b"800 833 token da=1 sa=1 | token to itself | holder 1\n870 903 token da=1 sa=1 | token to itself | holder 1\n940 1006 short da=2 sa=1 fc=49 | FDL status request | holder 1\n1017 1083 short da=1 sa=2 fc=20 | reply: OK, master ready | holder 1\n1120 1153 token da=2 sa=1 | token to 2 | offered to 2\n1253 1286 token da=3 sa=3 | token to itself | holder 3\nalarm at 1253 by 3: ClaimedTooEarly: it claimed after a silence of 100, and its time-out is 1200; station 1 had passed the token to station 2\n",
        },
        Case {
            capture: b"1 2 --\n800 833 dc0101\n",
            printed: b"1 2 fault 2 Faulty 0 | unknown\n800 833 token da=1 sa=1 | token to itself | holder 1\nalarm at 800 by 1: ClaimedTooEarlyAfterLoss: it claimed after a silence of 798, and its time-out is 800\n",
        },
        Case {
            capture: b"0 33 dc0201\n34 67 dc0505\n",
            printed: b"0 33 token da=2 sa=1 | token to 2 | offered to 2\n34 67 token da=5 sa=5 | token to itself | holder 5\nalarm at 34 by 5: ClaimedTooEarly: it claimed after a silence of 1, and its time-out is 1600; station 1 had passed the token to station 2\n",
        },
    ];
    for case in cases {
        same(
            &rt,
            &printed(&rt, Form::Lines, &[case.capture]),
            case.printed,
        );
    }
}

#[test]
fn reads_lines(rt: HostRuntime) {
    let mut capture = Vec::from_slice(
        rt.alloc(),
        b"# a comment\n\n800 833 dc0101 # claims\n870 dc0101\r\nx1 833 dc0101\n940 930 dc0201\n940 9z0 dc0201\n1 2 3 4\n5 dc0\n1000\t1033  dc0201\n900 933 dc0201\ngap\n2000 2033 dc0102\n2100 2122 dc--",
    )
    .expect(&rt, "memory");
    capture.push(b'\n').expect(&rt, "memory");
    let wanted =
        b"800 833 token da=1 sa=1 | token to itself | holder 1\n870 903 token da=1 sa=1 | token to itself | holder 1\nrefused line 5: 'x1' is no moment; wanted: bit times, 0 to 18446744073709551615, or HEX alone with no blanks inside\nrefused line 6: the burst ends no later than it begins; wanted: BEGIN below END\nrefused line 7: '9z0' is no moment; wanted: bit times, 0 to 18446744073709551615, or HEX alone with no blanks inside\nrefused line 8: the line has more than three fields; wanted: BEGIN END HEX, with no blanks inside HEX\nrefused line 9: 'dc0' is not hex; wanted: two hex digits for each octet, -- for a damaged one\n1000 1033 token da=2 sa=1 | token to 2 | offered to 2\nrefused line 11: the burst begins at 900, before the last one ends at 1033; wanted: bursts in order\n900 933 token da=2 sa=1 | token to 2 | offered to 2\n2000 2033 token da=1 sa=2 | token to 1 | offered to 1\n2100 2122 fault 2 Faulty 1 | unknown\n";
    same(&rt, &printed(&rt, Form::Lines, &[&capture]), wanted);
    same(&rt, &printed_by_octets(&rt, Form::Lines, &capture), wanted);
}

#[test]
fn skips_a_line_that_is_too_long(rt: HostRuntime) {
    for count in [4096, 4097, 5000, 70_000] {
        let mut capture = vec![in rt.alloc(); b' '; count].expect(&rt, "memory");
        capture
            .extend_from_slice(b"\n800 833 dc0101\n")
            .expect(&rt, "memory");
        let wanted = if count == 4096 {
            b"800 833 token da=1 sa=1 | token to itself | holder 1\n".as_slice()
        } else {
            b"refused line 1: the line has more than 4096 characters and was skipped; wanted: one burst a line\n800 833 token da=1 sa=1 | token to itself | holder 1\n".as_slice()
        };
        same(&rt, &printed(&rt, Form::Lines, &[&capture]), wanted);
        same(&rt, &printed_by_octets(&rt, Form::Lines, &capture), wanted);
    }
}

#[test]
fn judges_lines_without_moments(rt: HostRuntime) {
    let capture = b"dc0201\n100302494e16\ndc0502\n100304495016\n";
    let wanted =
        b"token da=2 sa=1 | token to 2\nshort da=3 sa=2 fc=49 | FDL status request\ntoken da=5 sa=2 | token to 5\nshort da=3 sa=4 fc=49 | FDL status request\nalarm by 4: SpokeOutOfTurn: station 2 had passed the token to station 5\n";
    same(&rt, &printed(&rt, Form::Lines, &[capture]), wanted);
}

#[test]
fn cuts_octets(rt: HostRuntime) {
    let capture =
        b"\xdc\xdc\x02\x01\x10\x02\x10\x03\x02\x49\x4e\x16\x68\x0c\x0c\x68\x05\x01\x6d\x00\x01\x02\x03\x04\x05\x06\x07\x08\x97\x16\xe5\xa2\x01\x05\x08\x00\x00\x00\x00\x00\x00\x00\x00\x0e\x16\x68\x05";
    let monitor = Monitor::new(rt.alloc(), None, options(Form::Raw));
    let mut monitor = monitor.expect(&rt, "memory");
    let mut text = Vec::new(rt.alloc());
    monitor.feed(capture, &mut text).expect(&rt, "memory");
    monitor.finish(&mut text).expect(&rt, "memory");
    let wanted =
        b"refused offset 0: 1 octets skipped; no telegram begins at them\n1 token da=2 sa=1 | token to 2\nrefused offset 4: 2 octets skipped; no telegram begins at them\n6 short da=3 sa=2 fc=49 | FDL status request\n12 var da=5 sa=1 fc=6d unit=000102030405060708 | SRD high, first FCB\n30 ack | short acknowledgement\n31 fixed da=1 sa=5 fc=08 unit=0000000000000000 | reply: data low\nrefused offset 45: 2 octets skipped; no telegram begins at them\n";
    same(&rt, &text[..wanted.len().min(text.len())], wanted);
    assert!(rt; monitor.is_refused());
}

#[test]
fn reads_files_of_packets(rt: HostRuntime) {
    let files: [&[u8]; 4] = [
        b"\xd4\xc3\xb2\xa1\x02\x00\x04\x00\x00\x00\x00\x00\x00\x00\x00\x00\xff\xff\x00\x00\x01\x01\x00\x00\x07\x00\x00\x00\x36\x42\x0f\x00\x03\x00\x00\x00\x03\x00\x00\x00\xdc\x01\x01\x08\x00\x00\x00\x3c\x00\x00\x00\x03\x00\x00\x00\x03\x00\x00\x00\xdc\x01\x01\x08\x00\x00\x00\x82\x00\x00\x00\x06\x00\x00\x00\x06\x00\x00\x00\x10\x02\x01\x49\x4c\x16",
        b"\xa1\xb2\x3c\x4d\x00\x02\x00\x04\x00\x00\x00\x00\x00\x00\x00\x00\x00\x00\xff\xff\x00\x00\x00\x93\x00\x00\x00\x07\x3b\x9a\xa2\xf0\x00\x00\x00\x03\x00\x00\x00\x03\xdc\x01\x01\x00\x00\x00\x08\x00\x00\xea\x60\x00\x00\x00\x03\x00\x00\x00\x03\xdc\x01\x01\x00\x00\x00\x08\x00\x01\xfb\xd0\x00\x00\x00\x06\x00\x00\x00\x06\x10\x02\x01\x49\x4c\x16",
        b"\x0a\x0d\x0d\x0a\x1c\x00\x00\x00\x4d\x3c\x2b\x1a\x01\x00\x00\x00\xff\xff\xff\xff\xff\xff\xff\xff\x1c\x00\x00\x00\x01\x00\x00\x00\x1c\x00\x00\x00\x01\x01\x00\x00\x00\x00\x00\x00\x02\x00\x03\x00\x65\x74\x68\x00\x1c\x00\x00\x00\x05\x00\x00\x00\x10\x00\x00\x00\x01\x02\x03\x04\x10\x00\x00\x00\x06\x00\x00\x00\x24\x00\x00\x00\x00\x00\x00\x00\xe8\x00\x00\x00\x00\x10\xa5\xd4\x03\x00\x00\x00\x03\x00\x00\x00\xdc\x01\x01\x00\x24\x00\x00\x00\x06\x00\x00\x00\x24\x00\x00\x00\x00\x00\x00\x00\xe8\x00\x00\x00\x46\x10\xa5\xd4\x03\x00\x00\x00\x03\x00\x00\x00\xdc\x01\x01\x00\x24\x00\x00\x00\x06\x00\x00\x00\x28\x00\x00\x00\x00\x00\x00\x00\xe8\x00\x00\x00\x8c\x10\xa5\xd4\x06\x00\x00\x00\x06\x00\x00\x00\x10\x02\x01\x49\x4c\x16\x00\x00\x28\x00\x00\x00",
        b"\x0a\x0d\x0d\x0a\x00\x00\x00\x1c\x1a\x2b\x3c\x4d\x00\x01\x00\x00\xff\xff\xff\xff\xff\xff\xff\xff\x00\x00\x00\x1c\x00\x00\x00\x01\x00\x00\x00\x28\x01\x01\x00\x00\x00\x00\x00\x00\x00\x02\x00\x03\x65\x74\x68\x00\x00\x09\x00\x01\x09\x00\x00\x00\x00\x00\x00\x00\x00\x00\x00\x28\x00\x00\x00\x05\x00\x00\x00\x10\x01\x02\x03\x04\x00\x00\x00\x10\x00\x00\x00\x06\x00\x00\x00\x24\x00\x00\x00\x00\x00\x03\x8d\x7e\xa4\xc6\x80\x00\x00\x00\x00\x03\x00\x00\x00\x03\xdc\x01\x01\x00\x00\x00\x00\x24\x00\x00\x00\x06\x00\x00\x00\x24\x00\x00\x00\x00\x00\x03\x8d\x7e\xa4\xc7\x91\x70\x00\x00\x00\x03\x00\x00\x00\x03\xdc\x01\x01\x00\x00\x00\x00\x24\x00\x00\x00\x06\x00\x00\x00\x28\x00\x00\x00\x00\x00\x03\x8d\x7e\xa4\xc8\xa2\xe0\x00\x00\x00\x06\x00\x00\x00\x06\x10\x02\x01\x49\x4c\x16\x00\x00\x00\x00\x00\x28",
    ];
    let wanted =
        b"0 33 token da=1 sa=1 | token to itself | holder 1\n70 103 token da=1 sa=1 | token to itself | holder 1\n140 206 short da=2 sa=1 fc=49 | FDL status request | holder 1\n";
    for file in files {
        same(&rt, &printed(&rt, Form::Pcap, &[file]), wanted);
        same(&rt, &printed_by_octets(&rt, Form::Pcap, file), wanted);
    }
}

#[test]
fn refuses_files_of_packets(rt: HostRuntime) {
    let other =
        b"\xd4\xc3\xb2\xa1\x02\x00\x04\x00\x00\x00\x00\x00\x00\x00\x00\x00\xff\xff\x00\x00\x01\x00\x00\x00\x00\x00\x00\x00\x00\x00\x00\x00\x01\x00\x00\x00\x01\x00\x00\x00\xe5";
    let wanted =
        b"refused offset 0: the packets are of another link type; wanted: 257 (PROFIBUS) or 147; this is 1\n";
    same(&rt, &printed(&rt, Form::Pcap, &[other]), wanted);
    let wanted = b"refused offset 0: this is no file of packets; wanted: pcap or pcapng\n";
    same(&rt, &printed(&rt, Form::Pcap, &[b"no packets"]), wanted);
    let cut =
        b"\xd4\xc3\xb2\xa1\x02\x00\x04\x00\x00\x00\x00\x00\x00\x00\x00\x00\xff\xff\x00\x00\x01\x01\x00\x00\x07\x00\x00\x00\x36\x42\x0f\x00\x03\x00\x00\x00\x03\x00\x00\x00\xdc\x01\x01\x08\x00\x00\x00\x3c\x00\x00\x00\x03\x00\x00\x00\x03\x00\x00\x00\xdc\x01\x01\x08\x00\x00\x00\x82\x00\x00\x00\x06\x00\x00\x00\x06\x00\x00\x00\x10\x02\x01\x49\x4c";
    let monitor = Monitor::new(rt.alloc(), Some(params(&rt)), options(Form::Pcap));
    let mut monitor = monitor.expect(&rt, "memory");
    let mut text = Vec::new(rt.alloc());
    monitor.feed(cut, &mut text).expect(&rt, "memory");
    monitor.finish(&mut text).expect(&rt, "memory");
    let wanted =
        b"0 33 token da=1 sa=1 | token to itself | holder 1\n70 103 token da=1 sa=1 | token to itself | holder 1\nrefused offset 62: the file ends within a packet or a head\n";
    same(&rt, &text[..wanted.len().min(text.len())], wanted);
}
