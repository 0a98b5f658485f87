//! Plays a hundred sequences of message cycles, and compares each step.

ghost use Rattle.std.specs.Prelude.{◌≤◌};

use super::first_half::FIRST_HALF;
use super::second_half::SECOND_HALF;
use super::{equal, octets, spelled, telegram, unit};
use arrayvec::ArrayVec;
use pb_cycles::{Initiator, Outcome, Request, Responder, Service};
use pb_telegram::write;
use std::str::SplitWhitespace;
use std::test::Fail;

/// An initiator and a responder, with their addresses.
#[derive(Drop)]
struct Stations {
    ts: u8,
    initiator: Initiator,
    d: u8,
    responder: Responder,
    ghost ts_station: { ts ≤ 126 },
    ghost d_station: { d ≤ 126 },
}

/// The next word of a line.
fn word<'a>(words: &mut SplitWhitespace<'a>) -> Result<&'a str, Fail> {
    Ok(words.next().ok_or("a word is missing")?)
}

/// Reads `stations TS RETRIES D DATA`: a new initiator and a new responder.
fn begin(words: &mut SplitWhitespace<'_>) -> Result<Stations, Fail> {
    let ts = word(words)?.parse::<u8>()?.min(126);
    let initiator = Initiator::new(word(words)?.parse::<u8>()?.min(7));
    let d = word(words)?.parse::<u8>()?.min(126);
    let responder = Responder::new(unit(word(words)?)?);
    Ok(Stations {
        ts,
        initiator,
        d,
        responder,
    })
}

/// Reads a request: `DA SERVICE PRIORITY DATA`.
fn asked(words: &mut SplitWhitespace<'_>) -> Result<Request, Fail> {
    let da = word(words)?.parse::<u8>()?;
    let service = match word(words)? {
        "sda" => Service::Sda,
        "sdn" => Service::Sdn,
        _ => Service::Srd,
    };
    let high = word(words)? == "high";
    Ok(Request::new(da, service, high, unit(word(words)?)?)?)
}

/// Reads an outcome: `none`, `acked`, `noresource`, `noanswer`, or `data:` with octets.
fn outcome(word: &str) -> Result<Option<Outcome>, Fail> {
    Ok(match word {
        "none" => None,
        "acked" => Some(Outcome::Acked),
        "noresource" => Some(Outcome::NoResource),
        "noanswer" => Some(Outcome::NoAnswer),
        _ => {
            let hex = word.strip_prefix("data:").ok_or("an unknown outcome")?;
            Some(Outcome::Data(unit(hex)?))
        }
    })
}

/// Whether a step has the result in its line.
fn agrees(
    stations: &mut Stations,
    step: &str,
    words: &mut SplitWhitespace<'_>,
) -> Result<bool, Fail> {
    match step {
        "request" => {
            let sent = stations.initiator.request(stations.ts, asked(words)?);
            Ok(write(&sent) == octets(word(words)?)?)
        }
        "again" => Ok(spelled(stations.initiator.again()) == octets(word(words)?)?),
        "hears" => {
            let station_type = word(words)?.parse::<u8>()?.min(3);
            let heard = telegram(word(words)?)?;
            let replied = spelled(stations.responder.answer(stations.d, station_type, &heard));
            let executed = stations.responder.executed();
            Ok(replied == octets(word(words)?)? && executed == word(words)?.parse::<u64>()?)
        }
        _ => {
            let came = match word(words)? {
                "-" => None,
                hex => Some(telegram(hex)?),
            };
            Ok(stations.initiator.outcome(came.as_ref()) == outcome(word(words)?)?)
        }
    }
}

#[test]
fn a_hundred_sequences_agree(rt: HostRuntime) -> Result<(), Fail> {
    let mut count = 0u32;
    for text in [FIRST_HALF, SECOND_HALF] {
        let mut now = begin(&mut "0 0 1 -".split_whitespace())?;
        for line in text.lines() {
            let mut words = line.split_whitespace();
            let step = word(&mut words)?;
            if step == "stations" {
                now = begin(&mut words)?;
                count = count.saturating_add(1);
            } else {
                assert!(rt; agrees(&mut now, step, &mut words)?, "{line}");
            }
        }
    }
    equal(&rt, &count, &100);
    Ok(())
}
