//! What a listener keeps of the bursts that it has heard.

ghost use Rattle.std.specs.Prelude.{◌≡◌, ◌↔◌, ◌+◌, ◌<◌, IsTrue, nat_lt};
ghost use Rattle.pb_monitor.specs.Judge as judge;

use crate::meanings::{InitiatorTelegram, Meaning};
use pb_timers::BusParams;

/// The last token or request, as long as it and all that came since were heard whole.
#[derive(Clone, Copy, Debug, PartialEq, Eq)]
pub struct LastHeard {
    /// The address of its source, 0 to 126.
    pub source: u8,
    /// The address to which it passed the token, if that is not its source.
    pub offered: Option<u8>,
    /// The moment at which it ended, in bit times.
    pub end: u64,
    /// Whether something began in the part of its slot in which its source surely heard it.
    pub touched: bool,
}

/// What a listener keeps: a few moments, in bit times, and no list.
#[derive(Clone, Copy, Debug, PartialEq, Eq)]
pub struct State {
    /// The last token or request, if that is known.
    pub last: Option<LastHeard>,
    /// The end of the last burst, or the moment at which listening began.
    pub quiet: u64,
    /// The begin of the last silence that may be a time-out; with a slack of two slots or more perhaps of one before it.
    pub silent_from: u64,
    /// The end of that silence.
    pub silent_to: u64,
    /// Whether a silence that no token in use leaves has come since the last token or request.
    pub lost: bool,
}

impl State {
    /// The state of a listener that begins to listen at a moment.
    pub fn listening(since: u64) -> State
        ensures { result ≡ judge.listening since }
    {
        State {
            last: None,
            quiet: since,
            silent_from: since,
            silent_to: since,
            lost: false,
        }
    }
}

/// Keeps what a burst from one moment to another tells.
#[inline(always)]
pub(crate) fn hear(
    state: &mut State,
    params: &BusParams,
    slack: u32,
    begin: u64,
    end: u64,
    meaning: Meaning,
)
    ensures { state.new ≡ judge.behind_by params.now slack state.old begin end meaning }
{
    if is_kept(params, slack, state, begin) {
        state.silent_from = silent_since(params, slack, state, begin);
        state.silent_to = begin;
    }
    match meaning {
        Meaning::Initiator(telegram) => {
            state.last = Some(heard_at(end, telegram));
            state.lost = false;
        }
        Meaning::Reply => {
            touch(params, slack, begin, &mut state.last);
            state.lost = state.lost || is_past_live(params, slack, state.quiet, begin);
        }
        Meaning::NoTelegram => {
            state.last = None;
            state.lost = state.lost || is_past_live(params, slack, state.quiet, begin);
        }
    }
    state.quiet = end;
}

/// The state once a burst begins: it may end a silence that may be a time-out.
pub(crate) fn silence_before(params: &BusParams, slack: u32, state: &State, begin: u64) -> State
    ensures { result ≡ judge.silence_before params.now slack state.now begin }
{
    if is_kept(params, slack, state, begin) {
        return State {
            last: state.last,
            quiet: state.quiet,
            silent_from: silent_since(params, slack, state, begin),
            silent_to: begin,
            lost: state.lost,
        };
    }
    *state
}

/// Whether the silence that ends as something begins is kept: it may be a time-out, or listening began in it.
fn is_kept(params: &BusParams, slack: u32, state: &State, begin: u64) -> bool
    ensures { result ≡ judge.is_kept params.now slack state.now begin }
{
    state.quiet == state.silent_to || may_be_timeout(params, slack, state.quiet, begin)
}

/// Whether a silence from one moment to another may be a time-out, of the station with the shortest.
fn may_be_timeout(params: &BusParams, slack: u32, from: u64, to: u64) -> bool
    ensures { result ≡ judge.may_be_timeout params.now slack from to }
{
    let late = u64::from(params.ttd()) + u64::from(slack);
    !is_sooner(to, late, from, 6 * u64::from(params.tsl()))
}

/// Where a silence that may be a time-out begins, once something begins at a moment.
fn silent_since(params: &BusParams, slack: u32, state: &State, begin: u64) -> u64
    ensures { result ≡ judge.silent_since params.now slack state.now begin }
{
    let late = u128::from(params.ttd()) + u128::from(slack);
    if u128::from(begin) <= u128::from(state.silent_to) + late {
        return state.silent_from;
    }
    state.quiet
}

/// Whether a silence from one moment to another is longer than any that a token in use leaves.
pub(crate) fn is_past_live(params: &BusParams, slack: u32, from: u64, to: u64) -> bool
    ensures { result ≡ nat_lt (from + judge.live params.now slack) to }
{
    // Most silences are no longer than a slot.
    let silence = to.saturating_sub(from);
    u64::from(params.tsl()) < silence && live(params, slack) < silence
}

/// The longest silence that a token in use leaves at a listener, in bit times.
pub(crate) fn live(params: &BusParams, slack: u32) -> u64
    ensures { result ≡ judge.live params.now slack }
{
    u64::from(params.tsl())
        + u64::from(params.lag())
        + 2 * u64::from(params.ttd())
        + u64::from(slack)
}

/// Whether the moment `bits` after `moment` is before the moment `other_bits` after `other`. No sum overflows.
pub(crate) fn is_sooner(moment: u64, bits: u64, other: u64, other_bits: u64) -> bool
    ensures test { result ≡ nat_lt (moment + bits) (other + other_bits) }
    ensures holds { IsTrue result ↔ (moment + bits < other + other_bits) }
{
    u128::from(moment) + u128::from(bits) < u128::from(other) + u128::from(other_bits)
}

/// A token or request that was heard until a moment.
fn heard_at(end: u64, telegram: InitiatorTelegram) -> LastHeard
    ensures { result ≡ judge.heard_at end telegram }
{
    LastHeard {
        source: telegram.source,
        offered: telegram.offered,
        end,
        touched: false,
    }
}

/// A reply begins at a moment, perhaps in the slot of the last token.
fn touch(params: &BusParams, slack: u32, begin: u64, last: &mut Option<LastHeard>)
    ensures { last.new ≡ judge.touch params.now slack begin last.old }
{
    if let Some(last) = last {
        let margin = 2 * u64::from(params.ttd()) + u64::from(slack);
        let is_in_slot = is_sooner(begin, margin, last.end, u64::from(params.tsl()));
        last.touched = last.touched || is_in_slot;
    }
}
