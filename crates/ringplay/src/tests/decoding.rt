//! Decoded lines: each form of telegram, each fault, and ends of lines.

use super::equal;
use pb_cli::{CountedReader, CountedWriter, Status, decode_lines};
use std::test::Fail;

const LINES: [(&str, &str); 35] = [
    ("dc0302", "token da=3 sa=2"),
    ("DC 03 02", "token da=3 sa=2"),
    ("d C\t0 302 ", "token da=3 sa=2"),
    ("100302494e16", "short da=3 sa=2 fc=49"),
    ("10830249ce16", "short da=3+ sa=2 fc=49"),
    ("107f82094a16", "fault 10 BadFcs"),
    ("107f82090a16", "short da=127 sa=2+ fc=09"),
    ("e5", "ack"),
    ("680404687f0244ffc416", "var da=127 sa=2 fc=44 unit=ff"),
    (
        "68 05 05 68 83 02 44 0a B0 83 16",
        "var da=3+ sa=2 fc=44 unit=0ab0",
    ),
    (
        "680b0b6805027d00000000000000008416",
        "var da=5 sa=2 fc=7d unit=0000000000000000",
    ),
    (
        "a205027d0102030405060708a816",
        "fixed da=5 sa=2 fc=7d unit=0102030405060708",
    ),
    (
        "a205027d00000000000000008416",
        "fixed da=5 sa=2 fc=7d unit=0000000000000000",
    ),
    (" \t", "fault 1 Empty"),
    ("--0302", "fault 2 Faulty 0"),
    ("dc03 --", "fault 2 Faulty 2"),
    ("77", "fault 3 BadStart"),
    ("1003", "fault 4 Truncated"),
    ("680505687f0244ffc416", "fault 4 Truncated"),
    ("a205027d000000000000000084", "fault 4 Truncated"),
    ("680303680201444716", "fault 5 BadLength"),
    ("68fafa68", "fault 5 BadLength"),
    ("680405687f0244ffc416", "fault 6 LengthsDiffer"),
    ("680404697f0244ffc416", "fault 7 BadSecondStart"),
    ("dc7f02", "fault 8 BadAddress"),
    ("dc8302", "fault 8 BadAddress"),
    ("68040468007f44ffc216", "fault 8 BadAddress"),
    ("10027f49ca16", "fault 8 BadAddress"),
    ("100302c9ce16", "fault 9 BadFc"),
    ("100302c90017", "fault 9 BadFc"),
    ("100302494f16", "fault 10 BadFcs"),
    ("100302494e17", "fault 11 BadEnd"),
    ("e5e5", "fault 12 Trailing"),
    ("zz", "fault 0 NotHex"),
    ("dc030", "fault 0 NotHex"),
];

#[test]
fn a_line_of_text_for_each_line(rt: HostRuntime) -> Result<(), Fail> {
    for (line, text) in LINES {
        let mut writer = CountedWriter::new(Vec::new(rt.alloc()));
        let status = decode_lines(
            rt.alloc(),
            &mut CountedReader::new(line.as_bytes()),
            &mut writer,
        )?;
        let wanted = format!(in rt.alloc(); "{text}\n")?;
        equal(&rt, &writer.writer().as_slice(), &wanted.as_bytes());
        let refused = text.starts_with("fault");
        equal(&rt, &(status == Status::Refused), &refused);
    }
    Ok(())
}

/// Inputs, with their outputs and statuses.
const INPUTS: [(&[u8], &str, Status); 9] = [
    (b"", "", Status::Done),
    (b"\n", "fault 1 Empty\n", Status::Refused),
    (b"DC 03 02\r\ne5", "token da=3 sa=2\nack\n", Status::Done),
    (b"e5\n", "ack\n", Status::Done),
    (b"zz\ne5\n", "fault 0 NotHex\nack\n", Status::Refused),
    (b"e5\n\ne5", "ack\nfault 1 Empty\nack\n", Status::Refused),
    (b"e5\r", "fault 0 NotHex\n", Status::Refused),
    (b"e5\r\r\ne5", "fault 0 NotHex\nack\n", Status::Refused),
    (b"\xff\x00\ne5\n", "fault 0 NotHex\nack\n", Status::Refused),
];

#[test]
fn lines_end_with_a_line_feed_or_the_input(rt: HostRuntime) -> Result<(), Fail> {
    for (input, output, wanted) in INPUTS {
        let mut writer = CountedWriter::new(Vec::new(rt.alloc()));
        let status = decode_lines(rt.alloc(), &mut CountedReader::new(input), &mut writer)?;
        equal(&rt, &writer.writer().as_slice(), &output.as_bytes());
        equal(&rt, &status, &wanted);
    }
    Ok(())
}
