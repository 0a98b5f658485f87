//! The events of which most of a run consists, kept across instants.

use pb_taps::Event;

/// A turn and a passing of time, set anew for each instant: an event has room for the data of a request, which is cleared
/// whenever an event is made.
#[derive(Debug, Drop)]
pub struct UsualEvents {
    /// A turn.
    pub turn: Event,
    /// A passing of time.
    pub pass: Event,
}

impl UsualEvents {
    ghost use Rattle.std.specs.Prelude.{◌≡◌};
    ghost use Rattle.law_model.specs.World.{Pass, Turn};
    ghost use Rattle.pb_taps.specs.Events.{event_of};

    /// Events that are to be set.
    pub fn new() -> UsualEvents {
        UsualEvents {
            turn: Event::Turn(0),
            pass: Event::Pass(0),
        }
    }

    /// Sets the turn to that of a tap.
    #[inline(always)]
    pub fn set_turn(&mut self, of: usize)
        ensures { event_of self.new.turn ≡ Turn of }
    {
        match &mut self.turn {
            Event::Turn(tap) => *tap = of,
            other => *other = Event::Turn(of),
        }
    }

    /// Sets how many bit times pass.
    #[inline(always)]
    pub fn set_pass(&mut self, by: u64)
        ensures { event_of self.new.pass ≡ Pass by }
    {
        match &mut self.pass {
            Event::Pass(bits) => *bits = by,
            other => *other = Event::Pass(by),
        }
    }
}
