//! Words for function codes, replies and receptions.

ghost use Rattle.std.specs.Prelude.{◌≡◌};
ghost use Rattle.pb_medium.specs.Entries.{heard_of};
ghost use Rattle.pb_export.specs.Words as words;

use pb_world::Heard;

/// What the function code of a request asks for.
pub(crate) fn request_words(code: u8) -> &'static [u8]
    ensures { result.now ≡ words.request_words code }
{
    match code {
        3 => b"SDA low",
        4 => b"SDN low",
        5 => b"SDA high",
        6 => b"SDN high",
        9 => b"FDL status",
        12 => b"SRD low",
        13 => b"SRD high",
        _ => b"other",
    }
}

/// What the function code of a reply says.
pub(crate) fn reply_words(code: u8) -> &'static [u8]
    ensures { result.now ≡ words.reply_words code }
{
    match code {
        0 => b"OK",
        1 => b"UE",
        2 => b"RR",
        3 => b"RS",
        8 => b"DL",
        9 => b"NR",
        10 => b"DH",
        12 => b"RDL",
        13 => b"RDH",
        _ => b"other",
    }
}

/// The station type of a reply, 0 to 3.
pub(crate) fn station_words(station: u8) -> &'static [u8]
    ensures { result.now ≡ words.station_words station }
{
    match station {
        0 => b"passive",
        1 => b"master not ready",
        2 => b"master ready",
        _ => b"master in ring",
    }
}

/// How a telegram reached a tap.
pub(crate) fn heard_words(heard: Heard) -> &'static [u8]
    ensures { result.now ≡ words.heard_words (heard_of heard) }
{
    match heard {
        Heard::Own => b"own",
        Heard::Whole => b"whole",
        Heard::Damaged => b"damaged",
        Heard::Unheard => b"unheard",
        Heard::Pending => b"pending",
    }
}

/// The letter for how a telegram reached a tap, as in the text of a trace.
pub(crate) fn heard_letter(heard: Heard) -> &'static [u8]
    ensures { result.now ≡ words.heard_letter (heard_of heard) }
{
    match heard {
        Heard::Own => b"-",
        Heard::Whole => b"w",
        Heard::Damaged => b"d",
        Heard::Unheard => b"u",
        Heard::Pending => b".",
    }
}

/// A truth value in JSON.
pub(crate) fn truth(value: bool) -> &'static [u8]
    ensures { result.now ≡ words.truth value }
{
    if value { b"true" } else { b"false" }
}
