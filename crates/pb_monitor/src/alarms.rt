//! What an alarm says, and which classes of alarms there are.

ghost use Rattle.std.specs.Prelude.{◌≡◌, true, false};

/// What is wrong with a token or a request.
#[derive(Clone, Copy, Debug, PartialEq, Eq)]
pub enum Alarm {
    /// Another station had the token.
    SpokeWithoutToken,
    /// The token was offered to a third station.
    SpokeOutOfTurn,
    /// The source of a token spoke again before the slot of that token had ended.
    PassedAgainTooEarly,
    /// The source of a token spoke again though it had heard something in the slot of that token.
    PassedAgainThoughHeard,
    /// The station that was offered the token took it after the slot.
    TookAfterSlot,
    /// A station claimed the token of another before its time-out of silence.
    ClaimedTooEarly,
    /// A station spoke after a silence that no token in use leaves, and it was no claim.
    SpokeAfterLoss,
    /// A station claimed the token after such a silence, but before its time-out.
    ClaimedTooEarlyAfterLoss,
    /// The station that was offered the token took it later than a turn may be.
    TookLate,
    /// The station that was offered the token took it before idle time 1 had passed.
    TookTooSoon,
}

/// What the alarms of a class rest on.
#[derive(Clone, Copy, Debug, PartialEq, Eq)]
pub enum AlarmClass {
    /// The telegram is illegal after those before it: no bus on which the premises hold leaves it.
    Legality,
    /// The token was lost, and the telegram is no valid claim.
    Loss,
    /// The token was taken outside of the time that a station has for it.
    Timing,
}

/// Which classes of alarms are raised.
#[derive(Clone, Copy, Debug, PartialEq, Eq)]
pub struct Classes {
    /// Alarms of [`AlarmClass::Legality`].
    pub legality: bool,
    /// Alarms of [`AlarmClass::Loss`].
    pub loss: bool,
    /// Alarms of [`AlarmClass::Timing`].
    pub timing: bool,
}

impl Classes {
    /// All classes.
    pub fn all() -> Classes
        ensures legality { result.legality ≡ true }
        ensures loss { result.loss ≡ true }
        ensures timing { result.timing ≡ true }
    {
        Classes {
            legality: true,
            loss: true,
            timing: true,
        }
    }

    /// No class.
    pub fn none() -> Classes
        ensures legality { result.legality ≡ false }
        ensures loss { result.loss ≡ false }
        ensures timing { result.timing ≡ false }
    {
        Classes {
            legality: false,
            loss: false,
            timing: false,
        }
    }
}

impl Alarm {
    ghost use Rattle.pb_monitor.specs.Judge.{class_of};
    ghost use Rattle.pb_monitor.specs.AlarmWords.{name_of};

    /// The class of the alarm.
    pub fn class(&self) -> AlarmClass
        ensures { result ≡ class_of self.now }
    {
        match self {
            Alarm::SpokeWithoutToken
            | Alarm::SpokeOutOfTurn
            | Alarm::PassedAgainTooEarly
            | Alarm::PassedAgainThoughHeard
            | Alarm::TookAfterSlot
            | Alarm::ClaimedTooEarly => AlarmClass::Legality,
            Alarm::SpokeAfterLoss | Alarm::ClaimedTooEarlyAfterLoss => AlarmClass::Loss,
            Alarm::TookLate | Alarm::TookTooSoon => AlarmClass::Timing,
        }
    }

    /// The name of the alarm.
    pub fn name(&self) -> &'static str
        ensures { result.now ≡ name_of self.now }
    {
        match self {
            Alarm::SpokeWithoutToken => "SpokeWithoutToken",
            Alarm::SpokeOutOfTurn => "SpokeOutOfTurn",
            Alarm::PassedAgainTooEarly => "PassedAgainTooEarly",
            Alarm::PassedAgainThoughHeard => "PassedAgainThoughHeard",
            Alarm::TookAfterSlot => "TookAfterSlot",
            Alarm::ClaimedTooEarly => "ClaimedTooEarly",
            Alarm::SpokeAfterLoss => "SpokeAfterLoss",
            Alarm::ClaimedTooEarlyAfterLoss => "ClaimedTooEarlyAfterLoss",
            Alarm::TookLate => "TookLate",
            Alarm::TookTooSoon => "TookTooSoon",
        }
    }
}
