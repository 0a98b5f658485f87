//! Stages: what a scenario's run is played on.

ghost use Rattle.std.specs.Prelude.{◌≡◌, false};
ghost use Rattle.law_runs.specs.Premises.{comes_late};
ghost use Rattle.pb_world.specs.Buses.{world_of, IsKept};
ghost use Rattle.pb_taps.specs.Events.{event_of};
ghost use Rattle.pb_scenario.specs.Stages.{StageView, IsReady, Takes};

use pb_taps::{Event, WorldFault};
use pb_world::{Bus, Inquiry, Watched};
use std::alloc::Global;

/// What the events of a scenario's run happen on.
pub(crate) trait Stage {
    /// Its world, and the start and the events from which the world follows.
    ghost view: { Self → StageView };

    /// Applies an event.
    ///
    /// Fault: that of the event on a bus, or refused memory.
    fn apply(&mut self, alloc: Global, event: &Event) -> Result<(), WorldFault>
        requires { IsReady (view self.old) }
        ensures { Takes (view self.old) (event_of event.now) result (view self.new) };

    /// Applies an event in which no turn becomes late: the caller ensures this.
    ///
    /// Fault: that of the event on a bus, or refused memory.
    fn apply_in_time(&mut self, alloc: Global, event: &Event) -> Result<(), WorldFault>
        requires ready { IsReady (view self.old) }
        requires in_time { comes_late (view self.old).world (event_of event.now) ≡ false }
        ensures { Takes (view self.old) (event_of event.now) result (view self.new) };

    /// The bus.
    fn bus(&self) -> &Bus
        requires { IsReady (view self.now) }
        ensures kept { IsKept result.now }
        ensures world { world_of result.now ≡ (view self.entry.now).world };
}

impl Stage for Watched {
    ghost use Rattle.pb_scenario.specs.Watching.{watched_view};

    ghost view = { watched_view };

    fn apply(&mut self, alloc: Global, event: &Event) -> Result<(), WorldFault> {
        self.follow(alloc, event)
    }

    fn apply_in_time(&mut self, alloc: Global, event: &Event) -> Result<(), WorldFault> {
        self.follow_in_time(alloc, event)
    }

    fn bus(&self) -> &Bus {
        self.bus()
    }
}

impl Stage for Inquiry {
    ghost use Rattle.pb_scenario.specs.Watching.{inquiry_view};

    ghost view = { inquiry_view };

    fn apply(&mut self, alloc: Global, event: &Event) -> Result<(), WorldFault> {
        self.follow(alloc, event)
    }

    fn apply_in_time(&mut self, alloc: Global, event: &Event) -> Result<(), WorldFault> {
        self.follow_in_time(alloc, event)
    }

    fn bus(&self) -> &Bus {
        self.bus()
    }
}
