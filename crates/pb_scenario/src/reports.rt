//! What is reviewed: a history with its outlooks.

ghost use Rattle.std.specs.Prelude.{◌≡◌, List, length, slice_get};
ghost use Rattle.std.specs.Option.{option_map};
ghost use Rattle.law_model.specs.World as model;
ghost use Rattle.pb_taps.specs.Events.{event_of};
ghost use Rattle.law_runs.specs.Laws as runs;

use pb_taps::Event;
use pb_timers::Moment;

/// An outlook: after how many events it was taken, when each tap is due, and when something else changes.
#[derive(Clone, Copy, Debug)]
pub struct Look<'a> {
    /// How many events of the history were before it.
    pub place: usize,
    /// When each tap is due; `None` if it is not.
    pub dues: &'a [Option<Moment>],
    /// The next moment at which something else changes, if there is one.
    pub change: Option<Moment>,
}

/// A history and its outlooks.
pub trait Report {
    /// The events of the history.
    ghost events: { Self → List model.Event };

    /// The outlooks.
    ghost looks: { Self → List runs.Look };

    ghost use Rattle.pb_scenario.specs.Looks.{look_of};

    /// How many events the history has.
    fn len(&self) -> usize
        ensures { result ≡ length (events self.now) };

    /// The event with this index, from 0.
    fn event(&self, place: usize) -> Option<&Event>
        ensures { option_map (λ e. event_of e.now) result ≡ slice_get (events self.now) place };

    /// The outlook with this index, from 0.
    fn look(&self, position: usize) -> Option<Look<'_>>
        ensures { option_map look_of result ≡ slice_get (looks self.now) position };
}
