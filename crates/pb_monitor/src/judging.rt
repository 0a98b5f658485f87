//! Which alarm a token or a request raises.

ghost use Rattle.std.specs.Prelude.{◌≡◌, Some};
ghost use Rattle.pb_monitor.specs.Judge as judge;

use crate::alarms::{Alarm, Classes};
use crate::meanings::InitiatorTelegram;
use crate::states::{LastHeard, State, is_past_live, is_sooner};
use pb_timers::BusParams;

/// The alarm that a token or a request raises.
#[inline(always)]
pub(crate) fn judged(
    params: &BusParams,
    slack: u32,
    classes: Classes,
    since: u64,
    state: &State,
    begin: u64,
    telegram: InitiatorTelegram,
) -> Option<Alarm>
    ensures { result ≡ judge.judged params.now slack classes since state.now begin telegram }
{
    if may_claim(params, slack, since, state, begin, telegram) {
        return None;
    }
    if classes.loss && is_past_live(params, slack, state.quiet, begin) {
        return Some(lost_alarm(telegram));
    }
    match judged_last(params, slack, &state.last, begin, telegram) {
        Some(alarm) if classes.legality => Some(alarm),
        Some(_) => None,
        None if classes.timing => taking_last(params, slack, &state.last, begin, telegram),
        None => None,
    }
}

/// Whether it is a claim, before which its speaker may have had silence for its time-out.
fn may_claim(
    params: &BusParams,
    slack: u32,
    since: u64,
    state: &State,
    begin: u64,
    telegram: InitiatorTelegram,
) -> bool
    ensures { result ≡ judge.may_claim params.now slack since state.now begin telegram }
{
    let late = u128::from(params.ttd()) + u128::from(slack);
    telegram.is_claim
        && (u128::from(begin) <= u128::from(state.silent_to) + late
            && may_be_its(params, slack, since, state, begin, telegram))
}

/// Whether the silence that is kept may be the time-out of the claimer.
fn may_be_its(
    params: &BusParams,
    slack: u32,
    since: u64,
    state: &State,
    begin: u64,
    telegram: InitiatorTelegram,
) -> bool
    ensures { result ≡ judge.may_be_its params.now slack since state.now begin telegram }
{
    let (begin, slack) = (u128::from(begin), u128::from(slack));
    let ttd = u128::from(params.ttd());
    let timeout = u128::from(params.tto(telegram.source));
    (state.silent_from <= since && begin < u128::from(since) + (ttd + timeout + slack))
        || u128::from(state.silent_from) + timeout <= begin + slack
}

/// The alarm of a telegram after the loss of the token.
fn lost_alarm(telegram: InitiatorTelegram) -> Alarm
    ensures { result ≡ judge.lost_alarm telegram }
{
    if telegram.is_claim {
        Alarm::ClaimedTooEarlyAfterLoss
    } else {
        Alarm::SpokeAfterLoss
    }
}

/// The alarm of a claim that comes too early, or the given one of another telegram.
fn or_claim(telegram: InitiatorTelegram, alarm: Alarm) -> Option<Alarm>
    ensures { result ≡ judge.or_claim telegram.is_claim alarm }
{
    if telegram.is_claim {
        return Some(Alarm::ClaimedTooEarly);
    }
    Some(alarm)
}

/// What is illegal about a telegram after the last one, as far as that is known.
#[inline(always)]
fn judged_last(
    params: &BusParams,
    slack: u32,
    last: &Option<LastHeard>,
    begin: u64,
    telegram: InitiatorTelegram,
) -> Option<Alarm>
    ensures { result ≡ judge.judged_last params.now slack last.now begin telegram }
{
    let Some(last) = last else {
        return None;
    };
    match last.offered {
        Some(to) => judged_offer(params, slack, last, to, begin, telegram),
        None if telegram.source == last.source => None,
        None => or_claim(telegram, Alarm::SpokeWithoutToken),
    }
}

/// What is illegal about a telegram after a token to another station.
#[inline(always)]
fn judged_offer(
    params: &BusParams,
    slack: u32,
    last: &LastHeard,
    to: u8,
    begin: u64,
    telegram: InitiatorTelegram,
) -> Option<Alarm>
    ensures { result ≡ judge.judged_offer params.now slack last.now (Some to) begin telegram }
{
    if telegram.source == last.source {
        return judged_passing(params, slack, last, begin);
    }
    if telegram.source != to {
        return or_claim(telegram, Alarm::SpokeOutOfTurn);
    }
    let slot = u64::from(params.tsl()) + u64::from(params.ttd()) + u64::from(slack);
    if is_sooner(begin, 0, last.end, slot) {
        return None;
    }
    or_claim(telegram, Alarm::TookAfterSlot)
}

/// What is illegal about a telegram of the station that has passed the token.
fn judged_passing(params: &BusParams, slack: u32, last: &LastHeard, begin: u64) -> Option<Alarm>
    ensures { result ≡ judge.judged_passing params.now slack last.now begin }
{
    if is_sooner(begin, u64::from(slack), last.end, u64::from(params.tsl())) {
        return Some(Alarm::PassedAgainTooEarly);
    }
    if last.touched {
        return Some(Alarm::PassedAgainThoughHeard);
    }
    None
}

/// What is wrong about the moment at which an offered token is taken, if a telegram takes it.
#[inline(always)]
fn taking_last(
    params: &BusParams,
    slack: u32,
    last: &Option<LastHeard>,
    begin: u64,
    telegram: InitiatorTelegram,
) -> Option<Alarm>
    ensures { result ≡ judge.taking_last params.now slack last.now begin telegram }
{
    let Some(last) = last else {
        return None;
    };
    match last.offered {
        Some(to) if telegram.source != last.source && telegram.source == to => {
            judged_taking(params, slack, last, begin)
        }
        _ => None,
    }
}

/// What is wrong about the moment at which an offered token is taken.
#[inline(always)]
fn judged_taking(params: &BusParams, slack: u32, last: &LastHeard, begin: u64) -> Option<Alarm>
    ensures { result ≡ judge.judged_taking params.now slack last.now begin }
{
    let tid1 = u64::from(params.tid1());
    let latest = tid1 + u64::from(params.lag()) + 2 * u64::from(params.ttd()) + u64::from(slack);
    if latest < begin.saturating_sub(last.end) {
        return Some(Alarm::TookLate);
    }
    if is_sooner(begin, u64::from(slack), last.end, tid1) {
        return Some(Alarm::TookTooSoon);
    }
    None
}
