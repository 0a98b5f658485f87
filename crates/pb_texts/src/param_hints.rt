//! Which rule the parameters of a bus break, with their numbers.

use crate::documents::Document;
use crate::file_values::integer;
use pb_scenario::{Key, Section};
use pb_timers::ParamFault;
use std::alloc::AllocError;
use toml::Table;

/// The hint for parameters that break a rule: it points at the first parameter that the rule names.
pub(crate) fn broken_rule(
    document: &Document<'_>,
    top: &Table,
    fault: ParamFault,
) -> Result<String, AllocError> {
    let number = |key| integer(top, Section::Bus, key).unwrap_or(0);
    let (tsl, lag, ttd) = (number(Key::Tsl), number(Key::Lag), number(Key::Ttd));
    let key = key_of(fault);
    let found = number(key);
    let spot = document.value(Section::Bus, key).spot;
    match fault {
        ParamFault::IdleOrder => {
            let tid1 = number(Key::Tid1);
            document.at(
                spot,
                format_args!("tid2 is {found}; wanted: at least tid1, {tid1}"),
            )
        }
        ParamFault::TakeLate | ParamFault::ReplyLate => {
            let sum = late_sum(found, lag, ttd);
            let least = sum.saturating_add(1);
            document.at(
                spot,
                format_args!(
                    "{key} {found} + lag {lag} + 2*ttd {ttd} = {sum} must be under tsl, {tsl}; wanted: tsl of at least {least}, or less of the others"
                ),
            )
        }
        _ => {
            let range = range_of(fault);
            document.at(spot, format_args!("{key} is {found}; wanted: {range}"))
        }
    }
}

/// What has to be under the slot time, in bit times.
fn late_sum(first: i64, lag: i64, ttd: i64) -> i64 {
    first
        .saturating_add(lag)
        .saturating_add(ttd)
        .saturating_add(ttd)
}

/// The parameter that a rule is about.
fn key_of(fault: ParamFault) -> Key {
    match fault {
        ParamFault::Slot => Key::Tsl,
        ParamFault::IdleShort => Key::Tid1,
        ParamFault::IdleOrder | ParamFault::TakeLate => Key::Tid2,
        ParamFault::ReplyShort | ParamFault::ReplyLate => Key::Tsdr,
        ParamFault::Rotation => Key::Ttr,
        ParamFault::GapFactor => Key::Gap,
        ParamFault::Highest => Key::Hsa,
        ParamFault::Retries => Key::Retries,
    }
}

/// The range of a parameter whose rule names no other one.
fn range_of(fault: ParamFault) -> &'static str {
    match fault {
        ParamFault::Slot => "100 to 16383 bit times",
        ParamFault::IdleShort => "at least 33 bit times",
        ParamFault::ReplyShort => "at least 11 bit times",
        ParamFault::Rotation => "256 to 16777215 bit times",
        ParamFault::GapFactor => "1 to 100 rotations",
        ParamFault::Highest => "2 to 126",
        ParamFault::Retries => "at most 7",
        ParamFault::IdleOrder | ParamFault::TakeLate | ParamFault::ReplyLate => "another value",
    }
}
