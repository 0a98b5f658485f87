//! A scenario whose steps may repeat, as a value.

use crate::repeats::Repeat;
use crate::scenarios::Scenario;
use crate::stream_walks::StreamWalk;
use std::alloc::{AllocError, Global};
use std::marker::Model;

/// What is played on a bus for as long as one likes: a scenario whose steps may repeat, and the moment until which time
/// passes. Steps that repeat are kept once.
#[derive(Debug, Drop)]
pub struct StreamScenario {
    once: Scenario,
    repeats: Vec<Option<Repeat>>,
    until: u64,
}

impl Model for StreamScenario {
    ghost use Rattle.pb_scenario.specs.Repeats.{StreamView};

    ghost Value = { StreamView };

    ghost use Rattle.pb_scenario.specs.StreamKept.{stream_view, IsStreamScenario};

    ghost view = { stream_view };

    ghost invariant = { IsStreamScenario };
}

impl StreamScenario {
    ghost use Rattle.std.specs.Prelude.{◌≡◌, ◌≤◌, IfOk, length};
    ghost use Rattle.pb_timers.specs.Timers.{last_moment};
    ghost use Rattle.pb_scenario.specs.Repeats.{AreSteady, stream_until, unrolled};
    ghost use Rattle.pb_scenario.specs.Walks.{new_walk};

    /// A scenario whose steps repeat so, up to the moment `until`, in bit times. The caller ensures that each repeats
    /// after some time.
    pub(crate) fn new(once: Scenario, repeats: Vec<Option<Repeat>>, until: u64) -> StreamScenario
        requires steady { AreSteady repeats.items }
        requires end { until ≤ stream_until }
        ensures { result ≡ record { once = once; repeats = repeats.items; until = until } }
    {
        StreamScenario {
            once,
            repeats,
            until,
        }
    }

    /// The bus with its taps, and the steps, each at the moment at which it happens first.
    pub fn once(&self) -> &Scenario
        ensures { result.now ≡ self.now.once }
    {
        &self.once
    }

    /// How each step repeats, if it does, in the order of the steps; a step behind the last of these happens once.
    pub fn repeats(&self) -> &[Option<Repeat>]
        ensures repeats { result.now ≡ self.now.repeats }
        ensures steady { AreSteady result.now }
    {
        &self.repeats
    }

    /// Until when time passes, in bit times.
    pub fn until(&self) -> u64
        ensures until { result ≡ self.now.until }
        ensures end { result ≤ stream_until }
    {
        self.until
    }

    /// A walk at 0 through the steps, up to the moment `until`, in bit times, in place of the scenario's own. The caller
    /// ensures that it is at most 2^62.
    ///
    /// Fault: memory was refused.
    pub fn walk(&self, alloc: Global, until: u64) -> Result<StreamWalk<'_>, AllocError>
        requires { until ≤ last_moment }
        ensures { IfOk result (λ walk.
            walk ≡ new_walk (unrolled until self.now).steps (length self.now.once.scenario.taps) until) }
    {
        let once = self.once();
        StreamWalk::new(
            alloc,
            once.steps(),
            self.repeats(),
            once.taps().len(),
            until,
        )
    }
}
