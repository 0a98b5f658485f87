//! Keeps the last two receipts of the token, and decides which cycles may start.

ghost use Rattle.std.specs.Prelude.{◌≡◌};
ghost use Rattle.std.specs.Option.{option_map};
ghost use Rattle.pb_rotation.specs.Rotation as model;
ghost use Rattle.pb_rotation.specs.RotationViews.{receipt_of};

use pb_timers::Moment;
use std::marker::Model;

/// A receipt of the token by the station.
#[derive(Clone, Copy, Debug, PartialEq, Eq)]
struct Receipt {
    /// The moment of the receipt before this one; at the first receipt, its own moment.
    previous: Moment,
    at: Moment,
    /// Whether a high priority cycle was started since this receipt.
    high: bool,
}

/// How long a station may hold the token, from its receipts of the token (EN 50170-2, token holding time). The longer
/// the last rotation took, the less time is left. If it took longer than the target rotation time, only one high
/// priority cycle may start.
#[derive(Clone, Copy, Debug, PartialEq, Eq)]
pub struct Rotation {
    ttr: u32,
    last: Option<Receipt>,
}

impl Model for Rotation {
    ghost use Rattle.pb_rotation.specs.Rotation as model;
    ghost use Rattle.pb_rotation.specs.RotationViews.{rotation_of, rotation_inside};

    ghost Value = { model.Rotation };

    ghost view = { rotation_of };

    ghost invariant = { λ _. Unit {0} };

    ghost inverse = { rotation_inside };
}

impl Rotation {
    ghost use Rattle.std.specs.Prelude.{◌≡◌, ◌∷◌, [], ◌++◌, ◌+◌, ◌-◌, ◌||◌, not, nat_lt, ℕ, List, IsSome, IfSome, is_some};
    ghost use Rattle.pb_rotation.specs.Receipts as heard;
    ghost use Rattle.pb_rotation.specs.Rotation as model;

    /// A station that has not received the token. `ttr` is the target rotation time, in bit times.
    pub fn new(ttr: u32) -> Rotation
        ensures value { result ≡ model.fresh ttr }
        ensures stands { model.StandsFor ttr result [] }
    {
        Rotation { ttr, last: None }
    }

    /// The target rotation time, in bit times.
    pub fn ttr(&self) -> u32
        ensures { result ≡ self.now.ttr }
    {
        self.ttr
    }

    /// Whether the station has received the token.
    pub fn has_received(&self) -> bool
        ensures { result ≡ is_some self.now.last }
    {
        self.last.is_some()
    }

    /// Records that the station receives the token at `at`. This ends the rotation that began with the receipt before.
    pub fn received(&mut self, at: Moment)
        ensures value { self.new ≡ model.received self.old at }
        ensures stands { (ttr : ℕ) (happenings : List heard.Happening)
            → model.StandsFor ttr self.old happenings
            → model.StandsFor ttr self.new (happenings ++ heard.Received at ∷ []) }
    {
        self.last = Some(Receipt {
            previous: before(self.last, at),
            at,
            high: false,
        });
    }

    /// How long the station may still hold the token at `now`, in bit times: until the target rotation time after the
    /// receipt before the last, or after the only one; 0 if that has passed. The caller ensures that the token was
    /// received before.
    pub fn holding_left(&self, now: Moment) -> u64
        requires { IsSome self.now.last }
        ensures value { result ≡ model.holding_left self.now now }
        ensures receipts { (ttr : ℕ) (happenings : List heard.Happening)
            → model.StandsFor ttr self.now happenings
            → IfSome (heard.measured_from happenings) (λ from. result ≡ from + ttr - now) }
    {
        let Some(last) = self.last else {
            return 0;
        };
        (last.previous.get() + u64::from(self.ttr)).saturating_sub(now.get())
    }

    /// Whether a high priority cycle may start at `now`: holding time is left, or no high priority cycle was started
    /// since the last receipt. The caller ensures that the token was received before.
    pub fn may_high(&self, now: Moment) -> bool
        requires { IsSome self.now.last }
        ensures value { result ≡ model.may_high self.now now }
        ensures receipts { (ttr : ℕ) (happenings : List heard.Happening)
            → model.StandsFor ttr self.now happenings
            → IfSome (heard.measured_from happenings) (λ from. result
            ≡ (nat_lt 0 (from + ttr - now) || not (heard.has_started_high happenings))) }
    {
        self.may_low(now) || self.last.is_some_and(|last| !last.high)
    }

    /// Records that a high priority cycle is started. The caller ensures that the token was received before.
    pub fn started_high(&mut self)
        requires { IsSome self.old.last }
        ensures value { self.new ≡ model.started_high self.old }
        ensures stands { (ttr : ℕ) (happenings : List heard.Happening)
            → model.StandsFor ttr self.old happenings
            → model.StandsFor ttr self.new (happenings ++ heard.StartedHigh ∷ []) }
    {
        self.last = used(self.last);
    }

    /// Whether a low priority cycle may start at `now`: holding time is left. The caller ensures that the token was
    /// received before.
    pub fn may_low(&self, now: Moment) -> bool
        requires { IsSome self.now.last }
        ensures value { result ≡ model.may_low self.now now }
        ensures receipts { (ttr : ℕ) (happenings : List heard.Happening)
            → model.StandsFor ttr self.now happenings
            → IfSome (heard.measured_from happenings) (λ from. result ≡ nat_lt 0 (from + ttr - now)) }
    {
        self.holding_left(now) > 0
    }
}

/// The moment of the last receipt; `at` if there is none.
fn before(last: Option<Receipt>, at: Moment) -> Moment
    ensures { result ≡ model.before (option_map receipt_of last) at }
{
    match last {
        Some(last) => last.at,
        None => at,
    }
}

/// The same receipt, with a high priority cycle started since.
fn used(last: Option<Receipt>) -> Option<Receipt>
    ensures { option_map receipt_of result ≡ option_map model.used (option_map receipt_of last) }
{
    match last {
        Some(last) => Some(Receipt { high: true, ..last }),
        None => None,
    }
}
