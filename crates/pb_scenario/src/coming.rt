//! Which taps take a turn now, and when the next instant is.

ghost use Rattle.std.specs.Prelude.{◌≡◌, ◌<◌, ◌≤◌, IfSome, length};
ghost use Rattle.law_turn.specs.Stations.{earlier};
ghost use Rattle.pb_scenario.specs.Steps.{steps_of};
ghost use Rattle.pb_scenario.specs.Walks.{first_at};
ghost use Rattle.pb_scenario.specs.Coming.{time_to, wants_in, comes_in, next_turn_in, first_of, onward_to};

use crate::deeds::Step;
use pb_timers::Moment;

/// Whether a tap, withheld until `until`, takes its turn at `now`.
pub(crate) fn takes_turn(until: u64, now: u64, due: Option<Moment>) -> bool
    ensures { result ≡ wants_in until now due }
{
    match due {
        Some(due) => due.get() <= now && until <= now,
        None => false,
    }
}

/// The time from `now` to `at`, in bit times; `None` if `at` is not later.
pub(crate) fn time_to(now: u64, at: u64) -> Option<u64>
    ensures { result ≡ time_to now at }
{
    if now < at { Some(at - now) } else { None }
}

/// The next instant: the earliest of the first later step, the next change and the next turn. `None` if it is not after
/// `now` or past `until`.
pub(crate) fn next_instant(
    now: u64,
    until: u64,
    later: &[Step],
    change: Option<Moment>,
    turn: Option<u64>,
) -> Option<u64>
    ensures next { result ≡ onward_to until now (first_of (steps_of later.now) change turn) }
    ensures bounds { IfSome result (λ at. (now < at) × (at ≤ until)) }
{
    next_moment(now, until, first_moment(later), change, turn)
}

/// The next instant, given the moment of the next step.
pub(crate) fn next_moment(
    now: u64,
    until: u64,
    step: Option<u64>,
    change: Option<Moment>,
    turn: Option<u64>,
) -> Option<u64>
    ensures next { result ≡ onward_to until now (earlier step (earlier change turn)) }
    ensures bounds { IfSome result (λ at. (now < at) × (at ≤ until)) }
{
    onward(now, until, earlier(step, earlier(bits_of(change), turn)))
}

/// The moment of the first of some steps.
fn first_moment(steps: &[Step]) -> Option<u64>
    ensures { result ≡ first_at (steps_of steps.now) }
{
    match steps {
        [] => None,
        [first, ..] => Some(first.at),
    }
}

/// A moment, in bit times.
fn bits_of(moment: Option<Moment>) -> Option<u64>
    ensures { result ≡ moment }
{
    match moment {
        Some(moment) => Some(moment.get()),
        None => None,
    }
}

/// The first moment at which some tap may take a turn next: when its withholding ends, or when it is due.
pub(crate) fn next_turn(held: &[u64], now: u64, dues: &[Option<Moment>]) -> Option<u64>
    requires { length dues.now ≡ length held.now }
    ensures { result ≡ next_turn_in held.now now 0 dues.now }
{
    let mut first = None;
    for (tap, due) in dues.iter().enumerate() {
        first = earlier(first, comes(held[tap], now, *due));
    }
    first
}

/// When a tap, withheld until `until`, may take a turn next.
pub(crate) fn comes(until: u64, now: u64, due: Option<Moment>) -> Option<u64>
    ensures { result ≡ comes_in now until due }
{
    if now < until {
        return Some(until);
    }
    match due {
        Some(due) if now < due.get() => Some(due.get()),
        _ => None,
    }
}

/// The earlier of two moments; if one is `None`, the other.
pub(crate) fn earlier(a: Option<u64>, b: Option<u64>) -> Option<u64>
    ensures { result ≡ earlier a b }
{
    match (a, b) {
        (None, _) => b,
        (Some(_), None) => a,
        (Some(a), Some(b)) => Some(a.min(b)),
    }
}

/// The moment, if it is after `now` and not past `until`.
fn onward(now: u64, until: u64, moment: Option<u64>) -> Option<u64>
    ensures moment { result ≡ onward_to until now moment }
    ensures bounds { IfSome result (λ at. (now < at) × (at ≤ until)) }
{
    match moment {
        Some(moment) if now < moment && moment <= until => Some(moment),
        _ => None,
    }
}
