//! Judges telegrams without moments, by their order alone.

ghost use Rattle.std.specs.Prelude.{◌≡◌, None};
ghost use Rattle.pb_monitor.specs.Orders as orders;

use crate::alarms::Alarm;
use crate::meanings::{InitiatorTelegram, Meaning};

/// What is wrong about a telegram, and its source.
#[derive(Clone, Copy, Debug)]
pub(crate) struct Wrong {
    /// What is wrong.
    pub(crate) alarm: Alarm,
    /// The address of its source.
    pub(crate) source: u8,
}

/// What is known of the last token or request by the order of telegrams alone.
#[derive(Clone, Copy, Debug)]
pub(crate) struct Order {
    last: Option<InitiatorTelegram>,
}

impl Order {
    /// Nothing has been heard.
    pub(crate) fn new() -> Order
        ensures { result.last ≡ None }
    {
        Order { last: None }
    }

    /// The last token or request, if it is known.
    pub(crate) fn last(&self) -> Option<InitiatorTelegram>
        ensures { result ≡ self.now.last }
    {
        self.last
    }

    /// The next telegram. Without moments a claim can't be judged.
    pub(crate) fn hear(&mut self, meaning: Meaning) -> Option<Wrong>
        ensures wrong { result ≡ orders.wrong_in self.old.last meaning }
        ensures last { self.new.last ≡ orders.last_in self.old.last meaning }
    {
        match meaning {
            Meaning::Initiator(telegram) => {
                let raised = alarm_after(self.last, telegram);
                self.last = Some(telegram);
                Some(Wrong {
                    alarm: raised?,
                    source: telegram.source,
                })
            }
            Meaning::Reply => None,
            Meaning::NoTelegram => {
                self.last = None;
                None
            }
        }
    }
}

/// What is illegal about a telegram after the last token or request.
fn alarm_after(last: Option<InitiatorTelegram>, telegram: InitiatorTelegram) -> Option<Alarm>
    ensures { result ≡ orders.alarm_after last telegram }
{
    let last = last?;
    if telegram.is_claim || telegram.source == last.source {
        return None;
    }
    match last.offered {
        Some(to) if telegram.source == to => None,
        Some(_) => Some(Alarm::SpokeOutOfTurn),
        None => Some(Alarm::SpokeWithoutToken),
    }
}
