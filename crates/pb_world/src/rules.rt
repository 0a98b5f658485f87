//! Which rule an illegal record breaks: of the ways to be legal, the one that it comes nearest to.

ghost use Rattle.std.specs.Prelude.{map};
ghost use Rattle.law_runs.specs.Judging.{IsOrdered};
ghost use Rattle.pb_medium.specs.Entries.{entry_of};

use crate::addresses::Addresses;
use crate::ends::Ends;
use crate::initiators::{meaning_in, offered_by};
use crate::last::LastInitiator;
use crate::legality::{is_slot_over, is_whole, last_after};
use pb_medium::{Entry, Record};
use pb_timers::BusParams;

/// What makes a telegram of a station with the token illegal. Moments are in bit times.
#[derive(Clone, Copy, Debug, PartialEq, Eq)]
pub enum Rule {
    /// Nobody had sent such a telegram yet: the first one is a claim, which needs silence for the time-out before it.
    NoClaim,
    /// The last one has not ended yet.
    NotEnded {
        /// The tap that sends it.
        last: usize,
        /// When it ends.
        end: u64,
    },
    /// Another station holds the token: the one that sent the last one.
    NotHolder {
        /// Its tap.
        last: usize,
    },
    /// The token was offered to another station.
    NotOffered {
        /// The tap that passed it.
        last: usize,
        /// The address to which it was passed.
        to: u8,
    },
    /// The token came to it damaged, or not at all.
    NotWhole {
        /// The tap that passed it.
        last: usize,
    },
    /// It takes the token after the slot.
    TookLate {
        /// The tap that passed it.
        last: usize,
        /// When the slot was over.
        end: u64,
    },
    /// It passes the token again before the slot is over.
    PassedEarly {
        /// When the slot is over.
        end: u64,
    },
    /// It passes the token again, though something was active at it in the slot.
    NotSilent {
        /// When the slot was over.
        end: u64,
    },
}

/// An illegal record.
#[derive(Clone, Copy, Debug, PartialEq, Eq)]
pub struct Illegal {
    /// The tap that sent it.
    pub tap: usize,
    /// When it began, in bit times.
    pub begin: u64,
    /// The rule that it breaks.
    pub rule: Rule,
}

/// The illegal telegram at a place of a trace; none where there is no telegram.
pub(crate) fn illegal_at(
    params: &BusParams,
    taps: Addresses<'_>,
    trace: &[Entry],
    wanted: usize,
) -> Option<Illegal>
    requires { IsOrdered (map entry_of trace.now) }
{
    let mut ends = Ends::none(taps.len());
    let mut last = None;
    for (place, entry) in trace.iter().enumerate() {
        let earlier = &trace[..place];
        ends.advance(earlier, params.ttd(), entry.begin());
        if place == wanted {
            return match entry {
                Entry::Sent(telegram) => Some(Illegal {
                    tap: telegram.tap,
                    begin: telegram.begin,
                    rule: rule_of(params, taps, last, telegram),
                }),
                Entry::Noise { .. } => None,
            };
        }
        last = last_after(params, earlier, &ends, last, entry, meaning_in(entry));
    }
    None
}

/// The rule that an illegal telegram breaks behind the last initiator record.
fn rule_of(
    params: &BusParams,
    taps: Addresses<'_>,
    last: Option<LastInitiator>,
    telegram: &Record,
) -> Rule {
    let Some(last) = last else {
        return Rule::NoClaim;
    };
    let (speaker, end) = (last.telegram.tap, last.telegram.end);
    if end > telegram.begin {
        return Rule::NotEnded { last: speaker, end };
    }
    match offered_by(last.meaning) {
        None => Rule::NotHolder { last: speaker },
        Some(to) => token_rule(params, taps, last.telegram, to, telegram),
    }
}

/// The rule that an illegal telegram breaks behind a token to an address.
fn token_rule(
    params: &BusParams,
    taps: Addresses<'_>,
    token: &Record,
    to: u8,
    telegram: &Record,
) -> Rule {
    let last = token.tap;
    let end = token.end.saturating_add(u64::from(params.tsl()));
    if last == telegram.tap {
        return if is_slot_over(token.end, params.tsl(), telegram.begin) {
            Rule::NotSilent { end }
        } else {
            Rule::PassedEarly { end }
        };
    }
    if to != taps.at(telegram.tap) {
        return Rule::NotOffered { last, to };
    }
    if is_whole(token, telegram.tap) {
        Rule::TookLate { last, end }
    } else {
        Rule::NotWhole { last }
    }
}
