//! Who holds the token, as far as a listener can tell.

ghost use Rattle.std.specs.Prelude.{◌≡◌};
ghost use Rattle.pb_monitor.specs.Holders as holders;

use crate::states::{LastHeard, State, is_past_live, is_sooner};
use pb_timers::BusParams;

/// Who may send tokens and requests, as far as a listener can tell.
#[derive(Clone, Copy, Debug, PartialEq, Eq)]
pub enum Holder {
    /// This station, or nobody.
    One(u8),
    /// The station to which the token was passed, within the slot of that token; or nobody.
    OfferedTo(u8),
    /// No station.
    Nobody,
    /// The listener cannot tell.
    Unknown,
}

/// Who may send tokens and requests at a moment between two bursts.
pub(crate) fn named_holder(params: &BusParams, slack: u32, state: State, moment: u64) -> Holder
    ensures { result ≡ holders.holder_of params.now slack state moment }
{
    if state.lost || is_past_live(params, slack, state.quiet, moment) {
        return Holder::Unknown;
    }
    match state.last {
        Some(last) => after(params, slack, last, moment),
        None => Holder::Unknown,
    }
}

/// Who may send tokens and requests after the last one.
fn after(params: &BusParams, slack: u32, last: LastHeard, moment: u64) -> Holder
    ensures { result ≡ holders.holder_by_offer params.now slack last last.offered moment }
{
    match last.offered {
        Some(to) => after_offer(params, slack, last, to, moment),
        None => Holder::One(last.source),
    }
}

/// Who may send tokens and requests after a token to another station.
fn after_offer(params: &BusParams, slack: u32, last: LastHeard, to: u8, moment: u64) -> Holder
    ensures { result ≡ holders.holder_after_offer params.now slack last to moment }
{
    let (tsl, slack) = (u64::from(params.tsl()), u64::from(slack));
    if is_sooner(moment, slack, last.end, tsl) {
        return Holder::OfferedTo(to);
    }
    if is_sooner(moment, 0, last.end, tsl + slack) {
        return Holder::Unknown;
    }
    if last.touched {
        return Holder::Nobody;
    }
    Holder::One(last.source)
}
