//! Stages: what instants are played on.

ghost use Rattle.std.specs.Prelude.{◌≡◌, ◌∷◌, [], OnOk};
ghost use Rattle.pb_taps.specs.Events.{event_of};
ghost use Rattle.pb_world.specs.Buses.{IsKept};
ghost use Rattle.pb_stream.specs.Plays.{Plays};
ghost use Rattle.pb_stream.specs.Stages.{StageView, taps_of};

use pb_scenario::{Event, WorldFault};
use pb_world::{Bus, Watched};
use std::alloc::Global;

/// What the events of an instant happen on.
pub(crate) trait Stage {
    /// Its bus, and what is known of the course of events that led to it.
    ghost view: { Self → StageView };

    /// Applies an event.
    ///
    /// Fault: that of the event on a bus, or refused memory.
    fn apply(&mut self, alloc: Global, event: &Event) -> Result<(), WorldFault>
        requires { (view self.old).ready }
        ensures ready { OnOk result (view self.new).ready }
        ensures taps { OnOk result (taps_of (view self.new) ≡ taps_of (view self.old)) }
        ensures plays { Plays (view self.old) (event_of event.now ∷ []) result (view self.new) };

    /// The bus.
    fn bus(&self) -> &Bus
        requires { (view self.now).ready }
        ensures kept { IsKept result.now }
        ensures bus { result.now ≡ (view self.entry.now).bus };
}

impl Stage for Bus {
    ghost use Rattle.pb_stream.specs.Stages.{bus_view};

    ghost view = { bus_view };

    fn apply(&mut self, alloc: Global, event: &Event) -> Result<(), WorldFault> {
        self.apply(alloc, event)
    }

    fn bus(&self) -> &Bus {
        self
    }
}

impl Stage for Watched {
    ghost use Rattle.pb_stream.specs.Stages.{watched_view};

    ghost view = { watched_view };

    fn apply(&mut self, alloc: Global, event: &Event) -> Result<(), WorldFault> {
        self.follow(alloc, event)
    }

    fn bus(&self) -> &Bus {
        self.bus()
    }
}
