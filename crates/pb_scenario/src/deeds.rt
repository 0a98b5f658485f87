//! The steps of a scenario.

use pb_taps::Event;

/// What a step does.
#[derive(Debug, PartialEq, Eq, Drop)]
pub enum Deed {
    /// Triggers an event.
    Happens(Event),
    /// Withholds a tap: it takes no turn for some time.
    Withhold {
        /// The tap.
        tap: usize,
        /// For how long, in bit times from the moment of the step. 0 withholds nothing.
        bits: u32,
    },
}

/// When, within its instant, the event of a step happens.
#[derive(Clone, Copy, Debug, PartialEq, Eq)]
pub enum When {
    /// Before the turns.
    BeforeTurns,
    /// After the turns.
    AfterTurns,
}

/// A step of a scenario.
#[derive(Debug, PartialEq, Eq, Drop)]
pub struct Step {
    /// Its moment, in bit times since the clock started.
    pub at: u64,
    /// What it does.
    pub deed: Deed,
}

impl Deed {
    ghost use Rattle.std.specs.Prelude.{◌≡◌};
    ghost use Rattle.std.specs.Option.{option_map};
    ghost use Rattle.pb_taps.specs.Events.{event_of};
    ghost use Rattle.law_runs.specs.Scenarios.{event_before, event_after};
    ghost use Rattle.pb_scenario.specs.Steps.{deed_of};
    ghost use Rattle.pb_scenario.specs.Said.{said_in};

    /// The event that happens before the turns of its instant: any event except the loss of a telegram at a tap.
    pub fn before_turns(&self) -> Option<&Event>
        ensures { option_map (λ e. event_of e.now) result ≡ event_before (deed_of self.now) }
    {
        match self {
            Deed::Happens(Event::Unheard { .. }) => None,
            Deed::Happens(event) => Some(event),
            Deed::Withhold { .. } => None,
        }
    }

    /// The event that happens after the turns of its instant: the loss, at a tap, of a telegram that has just begun.
    pub fn after_turns(&self) -> Option<&Event>
        ensures { option_map (λ e. event_of e.now) result ≡ event_after (deed_of self.now) }
    {
        match self {
            Deed::Happens(event @ Event::Unheard { .. }) => Some(event),
            Deed::Happens(_) | Deed::Withhold { .. } => None,
        }
    }

    /// The event that happens before or after the turns of its instant, by `when`.
    pub fn said(&self, when: When) -> Option<&Event>
        ensures { option_map (λ e. event_of e.now) result ≡ said_in when (deed_of self.now) }
    {
        match when {
            When::BeforeTurns => self.before_turns(),
            When::AfterTurns => self.after_turns(),
        }
    }
}
