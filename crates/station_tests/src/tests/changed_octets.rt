//! Texts of telegrams that are cut short or have one octet changed.

use super::equal;
use pb_decode::decode;
use std::test::Fail;

/// Telegrams cut after every octet, and telegrams with one octet changed (plus one, with bit 7 flipped, or replaced by
/// another start delimiter, the end delimiter or 0), each with its line of text.
const ROWS: &str = "\
dc -> fault 4 Truncated
dc03 -> fault 4 Truncated
dc0302 -> token da=3 sa=2
dd0302 -> fault 3 BadStart
5c0302 -> fault 3 BadStart
e50302 -> fault 12 Trailing
dc0402 -> token da=4 sa=2
dc8302 -> fault 8 BadAddress
dc0002 -> token da=0 sa=2
dc0303 -> token da=3 sa=3
dc0382 -> fault 8 BadAddress
dc0300 -> token da=3 sa=0
10 -> fault 4 Truncated
1003 -> fault 4 Truncated
100302 -> fault 4 Truncated
10030249 -> fault 4 Truncated
100302494e -> fault 4 Truncated
100302494e16 -> short da=3 sa=2 fc=49
110302494e16 -> fault 3 BadStart
900302494e16 -> fault 3 BadStart
680302494e16 -> fault 5 BadLength
100402494e16 -> fault 10 BadFcs
108302494e16 -> fault 10 BadFcs
100002494e16 -> fault 10 BadFcs
100303494e16 -> fault 10 BadFcs
100382494e16 -> fault 10 BadFcs
100300494e16 -> fault 10 BadFcs
1003024a4e16 -> fault 10 BadFcs
100302c94e16 -> fault 9 BadFc
100302004e16 -> fault 10 BadFcs
100302494f16 -> fault 10 BadFcs
10030249ce16 -> fault 10 BadFcs
100302490016 -> fault 10 BadFcs
100302494e17 -> fault 11 BadEnd
100302494e96 -> fault 11 BadEnd
100302494ea2 -> fault 11 BadEnd
1083 -> fault 4 Truncated
108302 -> fault 4 Truncated
10830249 -> fault 4 Truncated
10830249ce -> fault 4 Truncated
10830249ce16 -> short da=3+ sa=2 fc=49
11830249ce16 -> fault 3 BadStart
90830249ce16 -> fault 3 BadStart
68830249ce16 -> fault 4 Truncated
10840249ce16 -> fault 10 BadFcs
10000249ce16 -> fault 10 BadFcs
10830349ce16 -> fault 10 BadFcs
10838249ce16 -> fault 10 BadFcs
10830049ce16 -> fault 10 BadFcs
1083024ace16 -> fault 10 BadFcs
108302c9ce16 -> fault 9 BadFc
10830200ce16 -> fault 10 BadFcs
10830249cf16 -> fault 10 BadFcs
108302490016 -> fault 10 BadFcs
10830249ce17 -> fault 11 BadEnd
10830249ce96 -> fault 11 BadEnd
10830249cea2 -> fault 11 BadEnd
68 -> fault 4 Truncated
6804 -> fault 4 Truncated
680404 -> fault 4 Truncated
68040468 -> fault 4 Truncated
680404687f -> fault 4 Truncated
680404687f02 -> fault 4 Truncated
680404687f0244 -> fault 4 Truncated
680404687f0244ff -> fault 4 Truncated
680404687f0244ffc4 -> fault 4 Truncated
680404687f0244ffc416 -> var da=127 sa=2 fc=44 unit=ff
690404687f0244ffc416 -> fault 3 BadStart
e80404687f0244ffc416 -> fault 3 BadStart
a20404687f0244ffc416 -> fault 4 Truncated
680504687f0244ffc416 -> fault 4 Truncated
688404687f0244ffc416 -> fault 4 Truncated
680004687f0244ffc416 -> fault 5 BadLength
680405687f0244ffc416 -> fault 6 LengthsDiffer
680484687f0244ffc416 -> fault 6 LengthsDiffer
680400687f0244ffc416 -> fault 6 LengthsDiffer
680404697f0244ffc416 -> fault 7 BadSecondStart
680404e87f0244ffc416 -> fault 7 BadSecondStart
680404a27f0244ffc416 -> fault 7 BadSecondStart
68040468800244ffc416 -> fault 10 BadFcs
68040468ff0244ffc416 -> fault 10 BadFcs
68040468000244ffc416 -> fault 10 BadFcs
680404687f0344ffc416 -> fault 10 BadFcs
680404687f8244ffc416 -> fault 10 BadFcs
680404687f0044ffc416 -> fault 10 BadFcs
680404687f0245ffc416 -> fault 10 BadFcs
680404687f02c4ffc416 -> fault 9 BadFc
680404687f0200ffc416 -> fault 10 BadFcs
680404687f024400c416 -> fault 10 BadFcs
680404687f02447fc416 -> fault 10 BadFcs
680404687f024416c416 -> fault 10 BadFcs
680404687f0244ffc516 -> fault 10 BadFcs
680404687f0244ff4416 -> fault 10 BadFcs
680404687f0244ff0016 -> fault 10 BadFcs
680404687f0244ffc417 -> fault 11 BadEnd
680404687f0244ffc496 -> fault 11 BadEnd
680404687f0244ffc4a2 -> fault 11 BadEnd
680b -> fault 4 Truncated
680b0b -> fault 4 Truncated
680b0b68 -> fault 4 Truncated
680b0b6805 -> fault 4 Truncated
680b0b680502 -> fault 4 Truncated
680b0b6805027d -> fault 4 Truncated
680b0b6805027d00 -> fault 4 Truncated
680b0b6805027d0000 -> fault 4 Truncated
680b0b6805027d000000 -> fault 4 Truncated
680b0b6805027d00000000 -> fault 4 Truncated
680b0b6805027d0000000000 -> fault 4 Truncated
680b0b6805027d000000000000 -> fault 4 Truncated
680b0b6805027d00000000000000 -> fault 4 Truncated
680b0b6805027d0000000000000000 -> fault 4 Truncated
680b0b6805027d000000000000000084 -> fault 4 Truncated
680b0b6805027d00000000000000008416 -> var da=5 sa=2 fc=7d unit=0000000000000000
690b0b6805027d00000000000000008416 -> fault 3 BadStart
e80b0b6805027d00000000000000008416 -> fault 3 BadStart
a20b0b6805027d00000000000000008416 -> fault 10 BadFcs
680c0b6805027d00000000000000008416 -> fault 4 Truncated
688b0b6805027d00000000000000008416 -> fault 4 Truncated
68000b6805027d00000000000000008416 -> fault 5 BadLength
680b0c6805027d00000000000000008416 -> fault 6 LengthsDiffer
680b8b6805027d00000000000000008416 -> fault 6 LengthsDiffer
680b006805027d00000000000000008416 -> fault 6 LengthsDiffer
680b0b6905027d00000000000000008416 -> fault 7 BadSecondStart
680b0be805027d00000000000000008416 -> fault 7 BadSecondStart
680b0ba205027d00000000000000008416 -> fault 7 BadSecondStart
680b0b6806027d00000000000000008416 -> fault 10 BadFcs
680b0b6885027d00000000000000008416 -> fault 10 BadFcs
680b0b6800027d00000000000000008416 -> fault 10 BadFcs
680b0b6805037d00000000000000008416 -> fault 10 BadFcs
680b0b6805827d00000000000000008416 -> fault 10 BadFcs
680b0b6805007d00000000000000008416 -> fault 10 BadFcs
680b0b6805027e00000000000000008416 -> fault 10 BadFcs
680b0b680502fd00000000000000008416 -> fault 9 BadFc
680b0b6805020000000000000000008416 -> fault 10 BadFcs
680b0b6805027d01000000000000008416 -> fault 10 BadFcs
680b0b6805027d80000000000000008416 -> fault 10 BadFcs
680b0b6805027d16000000000000008416 -> fault 10 BadFcs
680b0b6805027d00010000000000008416 -> fault 10 BadFcs
680b0b6805027d00800000000000008416 -> fault 10 BadFcs
680b0b6805027d00160000000000008416 -> fault 10 BadFcs
680b0b6805027d00000100000000008416 -> fault 10 BadFcs
680b0b6805027d00008000000000008416 -> fault 10 BadFcs
680b0b6805027d00001600000000008416 -> fault 10 BadFcs
680b0b6805027d00000001000000008416 -> fault 10 BadFcs
680b0b6805027d00000080000000008416 -> fault 10 BadFcs
680b0b6805027d00000016000000008416 -> fault 10 BadFcs
680b0b6805027d00000000010000008416 -> fault 10 BadFcs
680b0b6805027d00000000800000008416 -> fault 10 BadFcs
680b0b6805027d00000000160000008416 -> fault 10 BadFcs
680b0b6805027d00000000000100008416 -> fault 10 BadFcs
680b0b6805027d00000000008000008416 -> fault 10 BadFcs
680b0b6805027d00000000001600008416 -> fault 10 BadFcs
680b0b6805027d00000000000001008416 -> fault 10 BadFcs
680b0b6805027d00000000000080008416 -> fault 10 BadFcs
680b0b6805027d00000000000016008416 -> fault 10 BadFcs
680b0b6805027d00000000000000018416 -> fault 10 BadFcs
680b0b6805027d00000000000000808416 -> fault 10 BadFcs
680b0b6805027d00000000000000168416 -> fault 10 BadFcs
680b0b6805027d00000000000000008516 -> fault 10 BadFcs
680b0b6805027d00000000000000000416 -> fault 10 BadFcs
680b0b6805027d00000000000000000016 -> fault 10 BadFcs
680b0b6805027d00000000000000008417 -> fault 11 BadEnd
680b0b6805027d00000000000000008496 -> fault 11 BadEnd
680b0b6805027d000000000000000084a2 -> fault 11 BadEnd
a2 -> fault 4 Truncated
a205 -> fault 4 Truncated
a20502 -> fault 4 Truncated
a205027d -> fault 4 Truncated
a205027d00 -> fault 4 Truncated
a205027d0000 -> fault 4 Truncated
a205027d000000 -> fault 4 Truncated
a205027d00000000 -> fault 4 Truncated
a205027d0000000000 -> fault 4 Truncated
a205027d000000000000 -> fault 4 Truncated
a205027d00000000000000 -> fault 4 Truncated
a205027d0000000000000000 -> fault 4 Truncated
a205027d000000000000000084 -> fault 4 Truncated
a205027d00000000000000008416 -> fixed da=5 sa=2 fc=7d unit=0000000000000000
a305027d00000000000000008416 -> fault 3 BadStart
2205027d00000000000000008416 -> fault 3 BadStart
dc05027d00000000000000008416 -> fault 12 Trailing
a206027d00000000000000008416 -> fault 10 BadFcs
a285027d00000000000000008416 -> fault 10 BadFcs
a200027d00000000000000008416 -> fault 10 BadFcs
a205037d00000000000000008416 -> fault 10 BadFcs
a205827d00000000000000008416 -> fault 10 BadFcs
a205007d00000000000000008416 -> fault 10 BadFcs
a205027e00000000000000008416 -> fault 10 BadFcs
a20502fd00000000000000008416 -> fault 9 BadFc
a205020000000000000000008416 -> fault 10 BadFcs
a205027d01000000000000008416 -> fault 10 BadFcs
a205027d80000000000000008416 -> fault 10 BadFcs
a205027d16000000000000008416 -> fault 10 BadFcs
a205027d00010000000000008416 -> fault 10 BadFcs
a205027d00800000000000008416 -> fault 10 BadFcs
a205027d00160000000000008416 -> fault 10 BadFcs
a205027d00000100000000008416 -> fault 10 BadFcs
a205027d00008000000000008416 -> fault 10 BadFcs
a205027d00001600000000008416 -> fault 10 BadFcs
a205027d00000001000000008416 -> fault 10 BadFcs
a205027d00000080000000008416 -> fault 10 BadFcs
a205027d00000016000000008416 -> fault 10 BadFcs
a205027d00000000010000008416 -> fault 10 BadFcs
a205027d00000000800000008416 -> fault 10 BadFcs
a205027d00000000160000008416 -> fault 10 BadFcs
a205027d00000000000100008416 -> fault 10 BadFcs
a205027d00000000008000008416 -> fault 10 BadFcs
a205027d00000000001600008416 -> fault 10 BadFcs
a205027d00000000000001008416 -> fault 10 BadFcs
a205027d00000000000080008416 -> fault 10 BadFcs
a205027d00000000000016008416 -> fault 10 BadFcs
a205027d00000000000000018416 -> fault 10 BadFcs
a205027d00000000000000808416 -> fault 10 BadFcs
a205027d00000000000000168416 -> fault 10 BadFcs
a205027d00000000000000008516 -> fault 10 BadFcs
a205027d00000000000000000416 -> fault 10 BadFcs
a205027d00000000000000000016 -> fault 10 BadFcs
a205027d00000000000000008417 -> fault 11 BadEnd
a205027d00000000000000008496 -> fault 11 BadEnd
a205027d000000000000000084a2 -> fault 11 BadEnd
e5 -> ack
e6 -> fault 3 BadStart
65 -> fault 3 BadStart
6806 -> fault 4 Truncated
680606 -> fault 4 Truncated
68060668 -> fault 4 Truncated
6806066889 -> fault 4 Truncated
680606688985 -> fault 4 Truncated
6806066889855d -> fault 4 Truncated
6806066889855d3e -> fault 4 Truncated
6806066889855d3e3e -> fault 4 Truncated
6806066889855d3e3e37 -> fault 4 Truncated
6806066889855d3e3e371e -> fault 4 Truncated
6806066889855d3e3e371e16 -> var da=9+ sa=5+ fc=5d unit=3e3e37
6906066889855d3e3e371e16 -> fault 3 BadStart
e806066889855d3e3e371e16 -> fault 3 BadStart
a206066889855d3e3e371e16 -> fault 4 Truncated
6807066889855d3e3e371e16 -> fault 4 Truncated
6886066889855d3e3e371e16 -> fault 4 Truncated
6800066889855d3e3e371e16 -> fault 5 BadLength
6806076889855d3e3e371e16 -> fault 6 LengthsDiffer
6806866889855d3e3e371e16 -> fault 6 LengthsDiffer
6806006889855d3e3e371e16 -> fault 6 LengthsDiffer
6806066989855d3e3e371e16 -> fault 7 BadSecondStart
680606e889855d3e3e371e16 -> fault 7 BadSecondStart
680606a289855d3e3e371e16 -> fault 7 BadSecondStart
680606688a855d3e3e371e16 -> fault 10 BadFcs
6806066809855d3e3e371e16 -> fault 10 BadFcs
6806066800855d3e3e371e16 -> fault 10 BadFcs
6806066889865d3e3e371e16 -> fault 10 BadFcs
6806066889055d3e3e371e16 -> fault 10 BadFcs
6806066889005d3e3e371e16 -> fault 10 BadFcs
6806066889855e3e3e371e16 -> fault 10 BadFcs
680606688985dd3e3e371e16 -> fault 9 BadFc
680606688985003e3e371e16 -> fault 10 BadFcs
6806066889855d3f3e371e16 -> fault 10 BadFcs
6806066889855dbe3e371e16 -> fault 10 BadFcs
6806066889855d003e371e16 -> fault 10 BadFcs
6806066889855d3e3f371e16 -> fault 10 BadFcs
6806066889855d3ebe371e16 -> fault 10 BadFcs
6806066889855d3e00371e16 -> fault 10 BadFcs
6806066889855d3e3e381e16 -> fault 10 BadFcs
6806066889855d3e3eb71e16 -> fault 10 BadFcs
6806066889855d3e3e001e16 -> fault 10 BadFcs
6806066889855d3e3e371f16 -> fault 10 BadFcs
6806066889855d3e3e379e16 -> fault 10 BadFcs
6806066889855d3e3e370016 -> fault 10 BadFcs
6806066889855d3e3e371e17 -> fault 11 BadEnd
6806066889855d3e3e371e96 -> fault 11 BadEnd
6806066889855d3e3e371ea2 -> fault 11 BadEnd
 -> fault 1 Empty";

#[test]
fn prefixes_and_changed_octets(rt: HostRuntime) -> Result<(), Fail> {
    for row in ROWS.lines() {
        let Some((line, text)) = row.split_once(" -> ") else {
            return Err(Fail::from("a row without an arrow"));
        };
        let input = format!(in rt.alloc(); "{line}\n")?;
        let wanted = format!(in rt.alloc(); "{text}\n")?;
        let decoded = decode(rt.alloc(), input.as_bytes())?;
        equal(&rt, &decoded.text.as_slice(), &wanted.as_bytes());
        equal(&rt, &decoded.is_refused, &text.starts_with("fault"));
    }
    Ok(())
}
