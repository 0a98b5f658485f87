//! Why a run breaks a premise, and which rule its first illegal record breaks.

ghost use Rattle.std.specs.Prelude.{◌≡◌, [], None, IfOk, IfSome, string_bytes};

use crate::documents::Document;
use crate::explaining::explain;
use crate::run_hints::name_of;
use pb_scenario::{Cause, Illegal, Reasons, Rule, Scenario, read};
use std::alloc::{AllocError, Global};

/// Why an audit of a scenario file's run finds what it finds, for people: a line for the premise that broke first, with
/// the taps, moments and limits, and a line for the first illegal record, with its begin, its speaker and the rule that it
/// breaks; no text where it finds nothing. Without reasons, the file or its run is refused, and it says why, as
/// [`explain`].
///
/// Fault: memory was refused.
pub fn explain_audit(
    alloc: Global,
    name: &str,
    file: &[u8],
    reasons: Option<Reasons>,
) -> Result<String, AllocError>
    ensures { IfSome reasons (λ r. r.cause ≡ None → IfOk result (λ text. string_bytes text ≡ [])) }
{
    let document = Document { alloc, name, file };
    let Some(reasons) = reasons else {
        return explain(alloc, name, file, None);
    };
    let mut text = String::new(alloc);
    let (Some(cause), illegal) = (reasons.cause, reasons.illegal) else {
        return Ok(text);
    };
    let Ok(scenario) = read(alloc, file) else {
        return Err(AllocError);
    };
    if let Some((_, clock)) = reasons.found.premise {
        text.push_str(broken(&document, &scenario, clock.get(), cause)?.as_str())?;
    }
    if let (Some(place), Some(illegal)) = (reasons.found.illegal, illegal) {
        text.push_str(unlawful(&document, &scenario, place, &illegal)?.as_str())?;
    }
    Ok(text)
}

/// The line for a premise that broke at a clock.
fn broken(
    document: &Document<'_>,
    scenario: &Scenario,
    clock: u64,
    cause: Cause,
) -> Result<String, AllocError> {
    let name = |tap| name_of(scenario, tap);
    match cause {
        Cause::OwnAddresses { tap, other } => {
            let (one, two) = (name(tap), name(other));
            let address = match scenario.taps().get(tap) {
                Some(spec) => spec.address,
                None => 0,
            };
            document.whole(format_args!(
                "at {clock}, '{one}' and '{two}' both run with the address {address}"
            ))
        }
        Cause::NothingLost { tap, speaker } => {
            let (one, two) = (name(tap), name(speaker));
            document.whole(format_args!(
                "at {clock}, what '{two}' sends is lost at '{one}', and not by damage"
            ))
        }
        Cause::TurnsInTime { tap, due } => {
            let (one, due, lag) = (name(tap), due.get(), scenario.params().lag());
            document.whole(format_args!(
                "at {clock}, the turn of '{one}' was due at {due}, and is later than the lag, {lag}"
            ))
        }
        Cause::OneWaits { tap, other, moment } => {
            let (one, two, moment) = (name(tap), name(other), moment.get());
            let (timeout, ttd) = (timeout(scenario, tap), scenario.params().ttd());
            document.whole(format_args!(
                "at {clock}, '{one}' has waited out its time-out of silence, {timeout}, and '{two}' had at {moment}, at most the cable delay, {ttd}, before"
            ))
        }
    }
}

/// The time-out of a tap, in bit times.
fn timeout(scenario: &Scenario, tap: usize) -> u64 {
    match scenario.taps().get(tap) {
        Some(spec) => scenario.params().tto(spec.address),
        None => 0,
    }
}

/// The line for the first illegal record, at a place of the trace.
fn unlawful(
    document: &Document<'_>,
    scenario: &Scenario,
    place: usize,
    illegal: &Illegal,
) -> Result<String, AllocError> {
    let (begin, line) = (illegal.begin, place.saturating_add(1));
    let one = name_of(scenario, illegal.tap);
    let why = reason(document.alloc, scenario, illegal)?;
    document.whole(format_args!(
        "at {begin}, in line {line} of the trace, '{one}' sends out of turn: {why}"
    ))
}

/// Why a record is illegal.
fn reason(alloc: Global, scenario: &Scenario, illegal: &Illegal) -> Result<String, AllocError> {
    let tsl = scenario.params().tsl();
    let name = |tap| name_of(scenario, tap);
    match illegal.rule {
        Rule::NoClaim => {
            let timeout = timeout(scenario, illegal.tap);
            format!(in alloc; "it is the first, and no claim after {timeout} bit times of silence")
        }
        Rule::NotEnded { last, end } => {
            let two = name(last);
            format!(in alloc; "what '{two}' sends ends at {end}")
        }
        Rule::NotHolder { last } => {
            let two = name(last);
            format!(in alloc; "'{two}' holds the token")
        }
        Rule::NotOffered { last, to } => {
            let two = name(last);
            format!(in alloc; "'{two}' passed the token to the address {to}")
        }
        Rule::NotWhole { last } => {
            let two = name(last);
            format!(in alloc; "the token of '{two}' did not come to it whole")
        }
        Rule::TookLate { last, end } => {
            let two = name(last);
            format!(in alloc;
                "it takes the token of '{two}' after the slot, {tsl}, which was over at {end}"
            )
        }
        Rule::PassedEarly { end } => format!(in alloc;
            "it passes the token again before the slot, {tsl}, is over at {end}"
        ),
        Rule::NotSilent { end } => format!(in alloc;
            "it passes the token again, though it heard something in the slot up to {end}"
        ),
    }
}
